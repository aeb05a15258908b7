//! The memory of a run by itself: no run reaches all of it yet, and its addresses are numbers that a program can see. Beside
//! it projections by themselves, which no run asks for all that they can tell.
#![tactic(auto)]

#[cfg(test)]
mod memory;
#[cfg(test)]
mod projections;
