//! The faults of the check.

use world::{NoMemory, Text};

/// A row of the check's table. A fault names the first that some place doesn't meet.
#[derive(Clone, Copy, PartialEq, Eq, PartialOrd, Ord, Hash, Debug)]
pub enum CheckRow {
    /// Ids are in range, each node has one type, lists are short enough for ids of 32 bits, keys of tables
    /// are distinct, and `char` literals are Unicode scalar values.
    C1,
    /// Bodies are trees: a node's children have lower ids, a node is a child at most once, and no path of
    /// more than 400 steps leads down.
    C2,
    /// Jumps name the labels of enclosing loops and blocks.
    C3,
    /// Normalized types, and the arguments of `impls` and `const_impls`, have no alias and no generic
    /// parameter in them.
    C4,
    /// Layouts follow the rules of all 64-bit targets.
    C5,
    /// Tags fit their enums.
    C6,
    /// Signatures agree with bodies, variants with enums, closures with expressions, and each `..` stands
    /// within its pattern.
    C7,
}

/// The first row that some place doesn't meet, and the first such place.
#[derive(PartialEq, Eq, PartialOrd, Ord, Hash, Debug, Drop)]
pub struct InvalidWorld {
    pub row: CheckRow,
    /// A row, as `layouts[3]`; a node of a body, as `bodies[0].exprs[2]`; a list that is too long, as
    /// `consts` or `bodies[0].exprs`; or a lang function, as `drop_fn`.
    pub place: Text,
}

/// Why the check didn't pass a world.
#[derive(PartialEq, Eq, PartialOrd, Ord, Hash, Debug, Drop)]
pub enum CheckFault {
    InvalidWorld(InvalidWorld),
    NoMemory,
}

impl From<NoMemory> for CheckFault {
    ghost use Rattle.std.specs.Prelude.{◌≡◌};
    ghost use Rattle.world_check.specs.declared.fault.CheckFault.TheVariants as fault;

    ghost from_gives = { λ _ error. error ≡ fault.NoMemory };

    fn from(_error: NoMemory) -> CheckFault {
        CheckFault::NoMemory
    }
}
