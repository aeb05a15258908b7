ghost use Rattle.std.specs.Prelude.{◌≡◌, ℕ, ◌<◌, ◌≤◌, ◌++◌, List, Option, length, take, option_map, IfOk, OnErr};
ghost use Rattle.streams.specs.Faults.{HasCause};

use crate::Failed;

/// A writer of bytes, whose contract states which bytes it wrote.
pub trait Sink {
    // The bytes that were written; `None` if the contract leaves them open.
    ghost written: { Self → Option (List ℕ) };

    // How many writes have failed; the count stays at the greatest `u64`.
    ghost faults: { Self → ℕ };

    /// Writes some bytes from the front of `bytes`, which isn't empty, and returns how many: at least 1.
    fn write(&mut self, bytes: &[u8]) -> Result<usize, Failed>
        requires { 0 < length bytes.now }
        ensures some { IfOk result (λ n. 0 < n) }
        ensures fits { IfOk result (λ n. n ≤ length bytes.now) }
        ensures grows { IfOk result (λ n. written self.new ≡ option_map (λ before. before ++ take n bytes.now) (written self.old)) }
        ensures failed { OnErr result (written self.new ≡ written self.old) }
        ensures rising { faults self.old ≤ faults self.new }
        ensures cause { OnErr result (HasCause (faults self.old) (faults self.new)) };
}
