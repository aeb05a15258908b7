//! Whole numbers by width and sign, the numbers that bytes and constants are, and the table of operators on them, computed. Besides, in
//! `specs/`, the bytes of values that have parts.
#![tactic(auto)]

mod arithmetic;
mod casts;
mod comparisons;
mod constants;
mod kept;
mod laws;
mod operator;
mod read;
mod shifts;
mod table;
mod unary;

pub use casts::convert;
pub use constants::{number_in, number_of};
pub use kept::Computed;
pub use laws::{
    comparisons_take_one_byte, held_numbers_round_trip, low_bytes_are_bytes, low_bytes_have_length,
    results_keep_the_width,
};
pub use operator::{Kind, Operator};
pub use read::{is_width, word2, word4, word8, word16};
pub use table::compute;
pub use unary::{invert, negate};
