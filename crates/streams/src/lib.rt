//! Input and output of a run: the traits `Source` and `Sink`, whose contracts state the bytes that are
//! read or written and count the failures, with implementations over memory and over `std::io`.
#![tactic(auto)]

mod bytes_sink;
mod bytes_source;
mod failed;
mod sink;
mod source;
mod std_streams;
mod steady;

pub use bytes_sink::BytesSink;
pub use bytes_source::BytesSource;
pub use failed::Failed;
pub use sink::Sink;
pub use source::Source;
pub use std_streams::{StdSink, StdSource};
pub use steady::{SteadySink, SteadySource};
