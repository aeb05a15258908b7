//! The memory of a run, the numbers of the integer types as the bytes that it holds, and the bytes of values that are made of parts.
#![tactic(auto)]

mod area;
mod construction;
mod faults;
mod flat;
mod int_arithmetic;
mod int_parts;
mod int_value;
mod interval;
mod memory;
mod memory_laws;
mod moves;
mod pad;
mod pieces;
mod placing;
mod view;

pub use construction::{
    TagBytes, VariantShape, construct_with_layout, is_too_long, part_outside, put_part, put_view,
    repeat, zeros,
};
pub use flat::FlatMemory;
pub use int_value::IntValue;
pub use interval::IntervalOrOwned;
pub use memory::Memory;
pub use memory_laws::{
    addresses_round_trip, blocks_are_new, cells_are_apart, cells_are_new, copies_give_the_source,
    growth_keeps_old_bytes, reads_give_what_was_written, writes_keep_the_rest,
};
pub use mir::{Address, CellSize, Interval, MemFault};
pub use pad::pad16;
pub use pieces::{Gathered, append, copy_of, gather, whole};
pub use view::View;
