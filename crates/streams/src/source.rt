ghost use Rattle.std.specs.Prelude.{◌≡◌, ℕ, ◌<◌, ◌≤◌, List, [], Option, length, take, drop, option_map, IfOk, IfSome, OnErr};
ghost use Rattle.streams.specs.Faults.{HasCause};

use crate::Failed;

/// A reader of bytes, whose contract states which bytes it reads.
pub trait Source {
    // The bytes that are not yet read; `None` if the contract leaves them open.
    ghost left: { Self → Option (List ℕ) };

    // How many reads have failed; the count stays at the greatest `u64`.
    ghost faults: { Self → ℕ };

    /// Reads some bytes into the front of `buf`, which isn't empty, and returns how many: 0 only at
    /// the end of the input.
    fn read(&mut self, buf: &mut [u8]) -> Result<usize, Failed>
        requires { 0 < length buf.old }
        ensures fits { IfOk result (λ n. n ≤ length buf.new) }
        ensures bytes { IfOk result (λ n. IfSome (left self.old) (λ bytes. take n buf.new ≡ take n bytes)) }
        ensures rest { IfOk result (λ n. left self.new ≡ option_map (drop n) (left self.old)) }
        ensures end { IfOk result (λ n. n ≡ 0 → IfSome (left self.old) (λ bytes. bytes ≡ [])) }
        ensures failed { OnErr result (left self.new ≡ left self.old) }
        ensures rising { faults self.old ≤ faults self.new }
        ensures cause { OnErr result (HasCause (faults self.old) (faults self.new)) };
}
