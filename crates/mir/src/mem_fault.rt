//! Why a memory refuses what is asked of it.

use world::{NoMemory, Text};

/// Why a memory refuses to read, to write or to grow.
#[derive(PartialEq, Eq, Debug, Drop)]
pub enum MemFault {
    /// The bytes are not inside the stack or the heap, or an alignment is none: the text says which.
    UndefinedBehavior(Text),
    /// The stack or the heap would have more bytes than the run may take.
    MemoryLimitExceeded,
    NoMemory,
}

impl From<NoMemory> for MemFault {
    ghost use Rattle.std.specs.Prelude.{◌≡◌};
    ghost use Rattle.mir.specs.declared.mem_fault.MemFault.TheVariants as fault;

    ghost from_gives = { λ _ error. error ≡ fault.NoMemory };

    fn from(_error: NoMemory) -> MemFault {
        MemFault::NoMemory
    }
}
