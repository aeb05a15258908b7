//! The statements of a block.

use crate::{LocalId, MirSpan, Place, Rvalue};

/// A statement, and what it was lowered from.
#[derive(PartialEq, Eq)]
pub struct Statement {
    pub kind: StatementKind,
    pub span: MirSpan,
}

impl Drop for Statement {
    fn drop(self) {
        let Statement {
            kind: _kind,
            span: _span,
        } = self;
    }
}

/// What a statement does.
#[derive(PartialEq, Eq, Drop)]
pub enum StatementKind {
    /// The place is found, the value is computed, and its bytes are copied.
    Assign(Place, Rvalue),
    /// The value at the place was named. Running it does nothing.
    FakeRead(Place),
    /// From here on the local is in use. Running it does nothing.
    StorageLive(LocalId),
    /// The local is no longer in use. Running it does nothing.
    StorageDead(LocalId),
}
