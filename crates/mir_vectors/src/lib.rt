//! What the cases in `tests` can't reach of whole runs: runs whose reads and writes fail, the worked examples through
//! the library's `run`, and the adapters over `std`.
#![tactic(auto)]

#[cfg(test)]
mod examples;
#[cfg(test)]
mod runs;
#[cfg(test)]
mod std_streams;
