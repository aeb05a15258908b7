ghost use Rattle.std.specs.Prelude.{◌≡◌, ◌≤◌, ◌<◌, ◌↔◌, [], Some, length, take, drop, min, option_map, Contains, IfOk, IfSome, IsErr, OnOk, OnErr};
ghost use Rattle.streams.specs.Faults.{HasCause, one_more};

use crate::{Failed, Source};
use types::{Bytes, List};

/// A source of bytes in memory, for tests: chosen calls of `read` fail.
#[derive(Debug, Drop)]
pub struct BytesSource {
    bytes: Bytes,
    at: usize,
    calls: u64,
    fails: List<u64>,
    faults: u64,
    ghost in_range: { at ≤ length bytes },
}

impl BytesSource {
    ghost use Rattle.streams.specs.Buffers.{left_of};

    /// A source of these bytes. The calls of `read` whose numbers, counted from 1, are in `fails` fail.
    pub fn new(bytes: Bytes, fails: List<u64>) -> BytesSource
        ensures left { left_of result ≡ bytes }
        ensures calls { result.calls ≡ 0 }
        ensures fails { result.fails ≡ fails }
        ensures faults { result.faults ≡ 0 }
    {
        BytesSource {
            bytes,
            at: 0,
            calls: 0,
            fails,
            faults: 0,
        }
    }

    /// Copies as many of the next bytes as fit into `buf`, and returns how many.
    fn take_front(&mut self, buf: &mut [u8]) -> usize
        ensures all { result ≡ min (length buf.old) (length (left_of self.old)) }
        ensures bytes { take result buf.new ≡ take result (left_of self.old) }
        ensures rest { left_of self.new ≡ drop result (left_of self.old) }
        ensures calls { self.new.calls ≡ self.old.calls }
        ensures fails { self.new.fails ≡ self.old.fails }
        ensures faults { self.new.faults ≡ self.old.faults }
    {
        let rest = &self.bytes.as_slice()[self.at..];
        let n = rest.len().min(buf.len());
        buf[..n].copy_from_slice(&rest[..n]);
        self.at += n;
        n
    }
}

impl Source for BytesSource {
    ghost use Rattle.streams.specs.Buffers.{left_of};

    ghost left = { λ source. Some (left_of source) };

    ghost faults = { λ source. source.faults };

    fn read(&mut self, buf: &mut [u8]) -> Result<usize, Failed>
        requires { 0 < length buf.old }
        ensures fits { IfOk result (λ n. n ≤ length buf.new) }
        ensures bytes { IfOk result (λ n. take n buf.new ≡ take n (left_of self.old)) }
        ensures rest { IfOk result (λ n. left_of self.new ≡ drop n (left_of self.old)) }
        ensures end { IfOk result (λ n. n ≡ 0 → left_of self.old ≡ []) }
        ensures failed { OnErr result (left_of self.new ≡ left_of self.old) }
        ensures rising { self.old.faults ≤ self.new.faults }
        ensures cause { OnErr result (HasCause self.old.faults self.new.faults) }
        ensures chosen { IsErr result ↔ Contains self.old.fails self.new.calls }
        ensures counted { self.new.calls ≡ one_more self.old.calls }
        ensures kept { self.new.fails ≡ self.old.fails }
        ensures none { OnOk result (self.new.faults ≡ self.old.faults) }
        ensures one { OnErr result (self.new.faults ≡ one_more self.old.faults) }
    {
        self.calls = self.calls.saturating_add(1);
        if self.fails.as_slice().contains(&self.calls) {
            self.faults = self.faults.saturating_add(1);
            return Err(Failed);
        }
        Ok(self.take_front(buf))
    }
}
