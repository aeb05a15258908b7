ghost use Rattle.std.specs.Prelude.{true, ◌≡◌, ◌≤◌, ◌<◌, ◌↔◌, ◌⊎◌, ◌++◌, [], Some, length, take, min, option_map, vec_capacity, Contains, IfOk, IfSome, IsErr, OnOk, OnErr};
ghost use Rattle.streams.specs.Faults.{HasCause, one_more};

use crate::{Failed, Sink};
use std::alloc::Global;
use types::{List, NoMemory};

/// A sink into memory of bounded size, for tests: chosen calls of `write` fail.
#[derive(Debug, Drop)]
pub struct BytesSink {
    bytes: Vec<u8>,
    room: usize,
    calls: u64,
    fails: List<u64>,
    faults: u64,
    ghost in_room: { length bytes.items ≤ room },
    ghost has_room: { room ≤ vec_capacity bytes },
}

impl BytesSink {
    ghost use Rattle.streams.specs.Buffers.{written_to, room_of};

    /// A sink with room for `room` bytes, all allocated here. The calls of `write` whose numbers,
    /// counted from 1, are in `fails` fail, and so does each call without room left.
    pub fn new(alloc: Global, room: u64, fails: List<u64>) -> Result<BytesSink, NoMemory>
        ensures written { IfOk result (λ sink. written_to sink ≡ []) }
        ensures room { IfOk result (λ sink. room_of sink ≡ room) }
        ensures calls { IfOk result (λ sink. sink.calls ≡ 0) }
        ensures fails { IfOk result (λ sink. sink.fails ≡ fails) }
        ensures faults { IfOk result (λ sink. sink.faults ≡ 0) }
    {
        let bytes = Vec::with_capacity(alloc, room as usize)?;
        Ok(BytesSink {
            bytes,
            room: room as usize,
            calls: 0,
            fails,
            faults: 0,
        })
    }

    /// The bytes that were written.
    pub fn bytes(&self) -> &[u8]
        ensures { result.now ≡ written_to self.now }
    {
        self.bytes.as_slice()
    }

    /// Whether the call of `write` with this number fails.
    fn is_failing(&self, call: u64) -> bool
        ensures { result ≡ true ↔ (Contains self.now.fails call ⊎ (room_of self.now ≡ 0)) }
    {
        self.fails.as_slice().contains(&call) || self.bytes.len() == self.room
    }

    /// Appends as many bytes from the front of `bytes` as there is room for, and returns how many.
    fn put_front(&mut self, bytes: &[u8]) -> usize
        ensures all { result ≡ min (length bytes.now) (room_of self.old) }
        ensures grows { written_to self.new ≡ written_to self.old ++ take result bytes.now }
        ensures room { self.new.room ≡ self.old.room }
        ensures calls { self.new.calls ≡ self.old.calls }
        ensures fails { self.new.fails ≡ self.old.fails }
        ensures faults { self.new.faults ≡ self.old.faults }
    {
        let n = bytes.len().min(self.room - self.bytes.len());
        self.bytes.extend_from_slice(&bytes[..n]).unwrap();
        n
    }
}

impl Sink for BytesSink {
    ghost use Rattle.streams.specs.Buffers.{written_to, room_of};

    ghost written = { λ sink. Some (written_to sink) };

    ghost faults = { λ sink. sink.faults };

    fn write(&mut self, bytes: &[u8]) -> Result<usize, Failed>
        requires { 0 < length bytes.now }
        ensures some { IfOk result (λ n. 0 < n) }
        ensures fits { IfOk result (λ n. n ≤ length bytes.now) }
        ensures grows { IfOk result (λ n. written_to self.new ≡ written_to self.old ++ take n bytes.now) }
        ensures failed { OnErr result (written_to self.new ≡ written_to self.old) }
        ensures rising { self.old.faults ≤ self.new.faults }
        ensures cause { OnErr result (HasCause self.old.faults self.new.faults) }
        ensures all { IfOk result (λ n. n ≡ min (length bytes.now) (room_of self.old)) }
        ensures chosen { IsErr result ↔ (Contains self.old.fails self.new.calls ⊎ (room_of self.old ≡ 0)) }
        ensures counted { self.new.calls ≡ one_more self.old.calls }
        ensures kept { self.new.fails ≡ self.old.fails }
        ensures room { self.new.room ≡ self.old.room }
        ensures none { OnOk result (self.new.faults ≡ self.old.faults) }
        ensures one { OnErr result (self.new.faults ≡ one_more self.old.faults) }
    {
        self.calls = self.calls.saturating_add(1);
        if self.is_failing(self.calls) {
            self.faults = self.faults.saturating_add(1);
            return Err(Failed);
        }
        Ok(self.put_front(bytes))
    }
}
