//! How much a run may take.

ghost use Rattle.std.specs.Prelude.{◌≡◌, ◌↔◌, IsTrue};

/// How much the evaluation of one constant may take.
#[derive(Clone, Copy, PartialEq, Eq, Debug)]
pub struct Limits {
    /// How many basic blocks a run may enter.
    pub blocks: u64,
    /// How deep runs, calls and the parts of a value may be nested.
    pub nesting: u32,
    /// How many bytes the locals of a run may take.
    pub bytes: u64,
}

impl Limits {
    ghost use Rattle.world.specs.Limits.{IsWithin, default_limits, is_within};

    /// The limits of a run for which none were asked.
    pub fn default_limits() -> Limits
        ensures { result ≡ default_limits }
    {
        Limits {
            blocks: 10_000_000,
            nesting: 100,
            bytes: 1_000_000_000,
        }
    }

    /// Whether the limits are at most the greatest ones.
    pub fn within(&self) -> bool
        ensures decides { result ≡ is_within self.now }
        ensures within { IsTrue result ↔ IsWithin self.now }
    {
        self.blocks <= 1 << 63 && self.nesting <= 1_000 && self.bytes <= 1 << 59
    }
}
