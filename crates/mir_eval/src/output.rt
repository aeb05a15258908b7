//! What a run wrote.

ghost use Rattle.std.specs.Prelude.{◌≡◌, []};

use std::alloc::Global;
use std::marker::Model;
use world::Bytes;

/// What a run wrote, which contracts see as the bytes of its standard output and of its standard error.
#[derive(Debug, Drop)]
pub struct MirOutput {
    stdout: Bytes,
    stderr: Bytes,
}

impl Model for MirOutput {
    ghost use Rattle.std.specs.Prelude.{List, ℕ};

    ghost Value = { List ℕ × List ℕ };

    ghost view = { λ output. (output.stdout, output.stderr) };
}

impl MirOutput {
    /// Nothing written. It takes no memory.
    pub fn empty(alloc: Global) -> MirOutput
        ensures { result ≡ ([], []) }
    {
        MirOutput {
            stdout: Bytes::new(alloc),
            stderr: Bytes::new(alloc),
        }
    }

    /// The bytes of the standard output.
    pub fn stdout_bytes(&self) -> &[u8]
        ensures { result.now ≡ self.now.0 }
    {
        self.stdout.as_slice()
    }

    /// The bytes of the standard error.
    pub fn stderr_bytes(&self) -> &[u8]
        ensures { result.now ≡ self.now.1 }
    {
        self.stderr.as_slice()
    }
}
