//! Rows: what a statement does, and how a block ends.

ghost use Rattle.std.specs.Prelude.{◌≡◌, ◌≤◌, take};

use crate::spots::Spot;
use mir::{BasicBlockId, BinOp, LocalId};
use numbers::Kind;

/// The bytes of a constant that has at most 16.
#[derive(Clone, Copy)]
pub struct Short {
    pub room: [u8; 16],
    pub count: usize,
    ghost fits: { count ≤ 16 },
}

impl Short {
    /// The bytes.
    #[inline(always)]
    pub fn bytes(&self) -> &[u8]
        ensures { result.now ≡ take self.now.count self.now.room }
    {
        &self.room[..self.count]
    }
}

/// What an operator reads: the value of a local, a constant, or the value at another spot. A whole local isn't told by its spot, so that a run has one test for each
/// operand.
#[derive(Drop)]
pub enum Source {
    Whole(LocalId),
    Constant(Short),
    At(Spot),
}

/// What a statement does.
#[derive(Drop)]
pub enum Action {
    /// It assigns to a spot what an operator makes of two operands. `kind` is what the bytes of the first are, and `other` what those of the second are.
    /// How many bytes each has is a guess, which a run tests: 0 stands for a number that isn't frequent.
    Combine {
        op: BinOp,
        kind: Kind,
        other: Kind,
        guess: u8,
        to: Spot,
        left: Source,
        right: Source,
    },
    /// It assigns to a spot a number, a truth value or a character, cast to a type of so many bytes. `kind` is what its bytes are.
    Cast {
        kind: Kind,
        size: usize,
        to: Spot,
        from: Source,
    },
    /// It copies the value at a spot to another one.
    Copy {
        to: Spot,
        from: Spot,
    },
    /// It assigns a constant to a spot.
    Put {
        to: Spot,
        value: Short,
    },
    /// What the statement itself says.
    Other,
}

/// A statement: its place in its block, counted from 0, and what it does.
#[derive(Drop)]
pub struct Row {
    pub place: u64,
    pub action: Action,
}

/// How a block ends.
#[derive(Drop)]
pub enum Way {
    /// It leads to a block.
    Goto(BasicBlockId),
    /// It leads to the block `then` where the bytes at a spot are this number, and else to the block `otherwise`.
    Branch {
        spot: Spot,
        value: u8,
        then: BasicBlockId,
        otherwise: BasicBlockId,
    },
    /// What its terminator itself says.
    Other,
}

/// The rows of a block, for its statements that do something, and how it ends.
pub struct BlockRows {
    pub rows: Vec<Row>,
    pub way: Way,
}

impl Drop for BlockRows {
    fn drop(self) {
        let BlockRows {
            rows: _rows,
            way: _way,
        } = self;
    }
}
