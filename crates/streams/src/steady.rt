ghost use Rattle.std.specs.Prelude.{◌≡◌, ◌≤◌, ◌<◌, ◌++◌, [], Some, None, Ok, length, take, drop, min, option_map, IfOk, IfSome, OnErr};

use crate::{Failed, Sink, Source};
use types::Bytes;

/// A source of bytes in memory, which never fails.
#[derive(Debug, Drop)]
pub struct SteadySource {
    bytes: Bytes,
    at: usize,
    ghost in_range: { at ≤ length bytes },
}

impl SteadySource {
    ghost use Rattle.streams.specs.Buffers.{left_of_steady};

    /// A source of these bytes.
    pub fn new(bytes: Bytes) -> SteadySource
        ensures { left_of_steady result ≡ bytes }
    {
        SteadySource { bytes, at: 0 }
    }
}

impl Source for SteadySource {
    ghost use Rattle.streams.specs.Buffers.{left_of_steady};

    ghost left = { λ source. Some (left_of_steady source) };

    ghost faults = { λ _. 0 };

    fn read(&mut self, buf: &mut [u8]) -> Result<usize, Failed>
        requires { 0 < length buf.old }
        ensures never { result ≡ Ok (min (length buf.old) (length (left_of_steady self.old))) }
        ensures fits { IfOk result (λ n. n ≤ length buf.new) }
        ensures bytes { IfOk result (λ n. take n buf.new ≡ take n (left_of_steady self.old)) }
        ensures rest { IfOk result (λ n. left_of_steady self.new ≡ drop n (left_of_steady self.old)) }
        ensures end { IfOk result (λ n. n ≡ 0 → left_of_steady self.old ≡ []) }
    {
        let rest = &self.bytes.as_slice()[self.at..];
        let n = rest.len().min(buf.len());
        buf[..n].copy_from_slice(&rest[..n]);
        self.at += n;
        Ok(n)
    }
}

/// A sink that takes every byte, keeps none and never fails.
#[derive(Clone, Copy, Debug)]
pub struct SteadySink;

impl SteadySink {
    /// A sink that takes every byte.
    pub fn new() -> SteadySink {
        SteadySink
    }
}

impl Sink for SteadySink {
    ghost written = { λ _. None };

    ghost faults = { λ _. 0 };

    fn write(&mut self, bytes: &[u8]) -> Result<usize, Failed>
        requires { 0 < length bytes.now }
        ensures { result ≡ Ok (length bytes.now) }
    {
        Ok(bytes.len())
    }
}
