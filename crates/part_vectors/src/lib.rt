//! Parts of the program by themselves, where no run reaches what is tested: a switch, the machine alone, a body that is
//! checked by itself, constants of literals, and texts that no run writes yet.
#![tactic(auto)]

#[cfg(test)]
mod bodies;
#[cfg(test)]
mod constants;
#[cfg(test)]
mod goal_texts;
#[cfg(test)]
mod graphs;
#[cfg(test)]
mod machine;
#[cfg(test)]
mod switches;
