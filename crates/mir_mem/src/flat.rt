//! A memory of two lists of bytes.

ghost use Rattle.std.specs.Prelude.{◌≡◌, ◌+◌, ◌^◌, ◌<◌, ◌≤◌, length};

use crate::area::{copy_part, grow, part_of, write_part};
use crate::faults::{bad_align, bad_read, bad_write};
use crate::placing::{end_within, place};
use crate::{Memory, View};
use mir::{Address, CellSize, Interval, MemFault};
use std::alloc::Global;
use world::{List, NoMemory};

/// A memory of one list of bytes for the stack and one for the heap.
#[derive(Drop)]
pub struct FlatMemory {
    alloc: Global,
    stack: Vec<u8>,
    heap: Vec<u8>,
    limit: u64,
    ghost stack_begun: { 0 < length stack.items },
    ghost heap_begun: { 0 < length heap.items },
    ghost stack_kept: { length stack.items ≤ limit + 1 },
    ghost heap_kept: { length heap.items ≤ limit + 1 },
    ghost limit_kept: { limit ≤ 2 ^ 59 },
}

impl FlatMemory {
    ghost use Rattle.std.specs.Prelude.{◌≡◌, ◌+◌, ◌-◌, ◌<◌, ◌≤◌, ◌⊎◌, Ok, Err, Some, None, take, drop, length, option_and_then, IsSome, IfOk, IfErr, OnErr};
    ghost use Rattle.std.specs.Bool.{OnTrue, OnFalse};
    ghost use Rattle.std.specs.Option.{option_copied};
    ghost use Rattle.mir.specs.declared.mem_fault.MemFault.TheVariants as fault;
    ghost use Rattle.mir.specs.Areas.{bytes_at, some_bytes_at, with_bytes, with_some_bytes, after_block};
    ghost use Rattle.mir_mem.specs.Flat.{areas_of};

    /// The bytes at an address, if they are in the memory.
    #[tactic(auto, unfolding(mir::specs::Areas::bytes_at, mir::specs::Areas::some_bytes_at))]
    #[inline(always)]
    fn bytes_at(&self, addr: Address, size: u64) -> Option<&[u8]>
        ensures { option_copied result ≡ bytes_at (areas_of self.now) addr size }
    {
        if size == 0 {
            return Some(&[]);
        }
        match addr {
            Address::Stack(place) => part_of(&self.stack, place, size),
            Address::Heap(place) => part_of(&self.heap, place, size),
            Address::Invalid(_) => None,
        }
    }

    /// Writes bytes to an address, if the memory has that many there; returns whether it has.
    #[tactic(auto, unfolding(mir::specs::Areas::with_bytes, mir::specs::Areas::with_some_bytes))]
    #[inline(always)]
    fn put(&mut self, addr: Address, bytes: &[u8]) -> bool
        ensures written { OnTrue result (with_bytes (areas_of self.old) addr bytes.now ≡ Some (areas_of self.new)) }
        ensures refused { OnFalse result (with_bytes (areas_of self.old) addr bytes.now ≡ None) }
        ensures kept { OnFalse result (areas_of self.new ≡ areas_of self.old) }
    {
        if bytes.is_empty() {
            return true;
        }
        match addr {
            Address::Stack(place) => write_part(&mut self.stack, place, bytes),
            Address::Heap(place) => write_part(&mut self.heap, place, bytes),
            Address::Invalid(_) => false,
        }
    }

    /// Copies bytes of the stack to an address, if the memory has that many there; returns whether it has.
    #[tactic(auto, unfolding(mir::specs::Areas::with_some_bytes))]
    #[inline]
    fn copy_from_stack(&mut self, to: Address, place: u64, size: u64) -> bool
        requires { place + size ≤ length (areas_of self.old).stack }
        ensures written { OnTrue result (with_some_bytes (areas_of self.old) to (take size (drop place (areas_of self.old).stack)) ≡ Some (areas_of self.new)) }
        ensures refused { OnFalse result (with_some_bytes (areas_of self.old) to (take size (drop place (areas_of self.old).stack)) ≡ None) }
        ensures kept { OnFalse result (areas_of self.new ≡ areas_of self.old) }
    {
        match to {
            Address::Stack(start) => copy_part(&mut self.stack, start, place, size),
            Address::Heap(start) => {
                let bytes = &self.stack[place as usize..(place + size) as usize];
                write_part(&mut self.heap, start, bytes)
            }
            Address::Invalid(_) => false,
        }
    }

    /// Copies bytes of the heap to an address, if the memory has that many there; returns whether it has.
    #[tactic(auto, unfolding(mir::specs::Areas::with_some_bytes))]
    fn copy_from_heap(&mut self, to: Address, place: u64, size: u64) -> bool
        requires { place + size ≤ length (areas_of self.old).heap }
        ensures written { OnTrue result (with_some_bytes (areas_of self.old) to (take size (drop place (areas_of self.old).heap)) ≡ Some (areas_of self.new)) }
        ensures refused { OnFalse result (with_some_bytes (areas_of self.old) to (take size (drop place (areas_of self.old).heap)) ≡ None) }
        ensures kept { OnFalse result (areas_of self.new ≡ areas_of self.old) }
    {
        match to {
            Address::Stack(start) => {
                let bytes = &self.heap[place as usize..(place + size) as usize];
                write_part(&mut self.stack, start, bytes)
            }
            Address::Heap(start) => copy_part(&mut self.heap, start, place, size),
            Address::Invalid(_) => false,
        }
    }

    /// Copies the bytes of an interval, which are in the memory, to an address, if the memory has that many
    /// there; returns whether it has.
    #[inline]
    fn put_from(&mut self, to: Address, from: Interval) -> bool
        requires { IsSome (bytes_at (areas_of self.old) from.addr from.size) }
        ensures written { OnTrue result (option_and_then (with_bytes (areas_of self.old) to) (bytes_at (areas_of self.old) from.addr from.size) ≡ Some (areas_of self.new)) }
        ensures refused { OnFalse result (option_and_then (with_bytes (areas_of self.old) to) (bytes_at (areas_of self.old) from.addr from.size) ≡ None) }
        ensures kept { OnFalse result (areas_of self.new ≡ areas_of self.old) }
    {
        if from.size == 0 {
            return true;
        }
        match from.addr {
            Address::Stack(place) => self.copy_from_stack(to, place, from.size),
            Address::Heap(place) => self.copy_from_heap(to, place, from.size),
            Address::Invalid(_) => false,
        }
    }

    /// Adds a zeroed block to the heap, from an offset on that is at least the heap's length.
    #[tactic(auto, unfolding(mir::specs::Areas::after_block))]
    fn add_block(&mut self, place: u64, size: u64) -> Result<Address, MemFault>
        requires { length (areas_of self.old).heap ≤ place }
        ensures ok { IfOk result (λ addr. after_block (areas_of self.old) place size ≡ Ok (addr, areas_of self.new)) }
        ensures err { IfErr result (λ e. (e ≡ fault.NoMemory) ⊎ (after_block (areas_of self.old) place size ≡ Err e)) }
        ensures kept { OnErr result (areas_of self.new ≡ areas_of self.old) }
    {
        let Some(end) = end_within(place, size, self.limit + 1) else {
            return Err(MemFault::MemoryLimitExceeded);
        };
        grow(&mut self.heap, end)?;
        Ok(Address::Heap(place))
    }
}

impl Memory for FlatMemory {
    ghost use Rattle.mir_mem.specs.Flat.{areas_of, bounds_of};

    ghost areas = { areas_of };

    ghost bounded = { bounds_of };

    fn new(alloc: Global, limit: u64) -> Result<FlatMemory, NoMemory> {
        let mut stack = Vec::new(alloc);
        stack.push(0)?;
        let mut heap = Vec::new(alloc);
        heap.push(0)?;
        Ok(FlatMemory {
            alloc,
            stack,
            heap,
            limit,
        })
    }

    #[tactic(auto, unfolding(mir::specs::Areas::reading))]
    #[inline(always)]
    fn read(&self, addr: Address, size: u64) -> Result<View<'_>, MemFault> {
        match self.bytes_at(addr, size) {
            Some(bytes) => Ok(View::of(bytes)),
            None => Err(bad_read(self.alloc, addr, size)),
        }
    }

    #[tactic(auto, unfolding(mir::specs::Areas::after_write))]
    #[inline(always)]
    fn write(&mut self, addr: Address, bytes: &[u8]) -> Result<(), MemFault> {
        if self.put(addr, bytes) {
            Ok(())
        } else {
            Err(bad_write(self.alloc, addr, bytes.len() as u64))
        }
    }

    #[tactic(auto, unfolding(mir::specs::Areas::reading, mir::specs::Areas::after_write, mir::specs::Areas::after_copy))]
    #[inline]
    fn copy(&mut self, to: Address, from: Interval) -> Result<(), MemFault> {
        if self.bytes_at(from.addr, from.size).is_none() {
            return Err(bad_read(self.alloc, from.addr, from.size));
        }
        if self.put_from(to, from) {
            Ok(())
        } else {
            Err(bad_write(self.alloc, to, from.size))
        }
    }

    #[tactic(auto, unfolding(mir::specs::Areas::after_push))]
    fn push_cells(&mut self, cells: &List<CellSize>) -> Result<List<Interval>, MemFault> {
        let length = self.stack.len() as u64;
        let all = place(self.alloc, cells.as_slice(), length, self.limit + 1)?;
        grow(&mut self.stack, all.length)?;
        Ok(all.cells)
    }

    #[tactic(auto, unfolding(mir::specs::Areas::after_allocation))]
    fn heap_allocate(&mut self, size: u64, align: u64) -> Result<Address, MemFault> {
        if align.is_power_of_two() && align <= 10000 {
            let place = (self.heap.len() as u64).next_multiple_of(align);
            self.add_block(place, size)
        } else {
            Err(bad_align(self.alloc, align))
        }
    }

    fn stack_taken(&self) -> u64 {
        self.stack.len() as u64 - 1
    }

    fn heap_taken(&self) -> u64 {
        self.heap.len() as u64 - 1
    }
}
