//! The bytes of a value, its own or a memory's.

use mir::Interval;
use world::Bytes;

/// Bytes of its own, or an interval of a memory.
#[derive(Debug, Drop)]
pub enum IntervalOrOwned {
    Owned(Bytes),
    Borrowed(Interval),
}

impl From<Interval> for IntervalOrOwned {
    ghost use Rattle.std.specs.Prelude.{◌≡◌};
    ghost use Rattle.mir_mem.specs.declared.interval.IntervalOrOwned.TheVariants.{Borrowed};

    ghost from_gives = { λ interval bytes. bytes ≡ Borrowed interval };

    fn from(interval: Interval) -> IntervalOrOwned {
        IntervalOrOwned::Borrowed(interval)
    }
}
