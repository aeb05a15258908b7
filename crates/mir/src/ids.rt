//! What names a part of a body: a place in one of its lists.

/// A basic block: a place in `MirBody::basic_blocks`.
#[derive(Clone, Copy, PartialEq, Eq, PartialOrd, Ord, Hash, Debug, Default)]
pub struct BasicBlockId(pub u32);

/// A local: a place in `MirBody::locals`. Local 0 is the return slot.
#[derive(Clone, Copy, PartialEq, Eq, PartialOrd, Ord, Hash, Debug)]
pub struct LocalId(pub u32);
