//! The memory of a machine.

ghost use Rattle.std.specs.Prelude.{◌≡◌, ◌^◌, ◌≤◌, ◌⊎◌, Ok, Err, All, IfOk, IfErr, IsErrAnd, OnOk, OnErr};
ghost use Rattle.std.specs.List.{concat};
ghost use Rattle.world.specs.Checked.{IsAlignment};
ghost use Rattle.mir.specs.declared.mem_fault.MemFault.TheVariants as fault;
ghost use Rattle.mir.specs.Areas.{Areas, IsBounded, IsFault, first_areas, taken, reading, after_write, after_copy, after_push, after_allocation};

use crate::View;
use mir::{Address, CellSize, Interval, MemFault};
use std::alloc::Global;
use world::{List, NoMemory};

/// The memory of a machine: a stack and a heap, which only grow, up to a limit.
pub trait Memory {
    // Its stack, its heap and its limit.
    ghost areas: { Self → Areas };

    /// A memory whose stack and heap have one zero byte each.
    fn new(alloc: Global, limit: u64) -> Result<Self, NoMemory>
        requires { limit ≤ 2 ^ 59 }
        ensures { IfOk result (λ memory. areas memory ≡ first_areas limit) };

    /// Views the bytes at an address.
    fn read(&self, addr: Address, size: u64) -> Result<View<'_>, MemFault>
        ensures ok { IfOk result (λ view. reading (areas self.now) addr size ≡ Ok (concat view)) }
        ensures err { IfErr result (λ e. IsErrAnd (reading (areas self.now) addr size) (λ meant. IsFault meant e)) };

    /// Writes bytes to an address.
    fn write(&mut self, addr: Address, bytes: &[u8]) -> Result<(), MemFault>
        ensures ok { OnOk result (after_write (areas self.old) addr bytes.now ≡ Ok (areas self.new)) }
        ensures err { IfErr result (λ e. IsErrAnd (after_write (areas self.old) addr bytes.now) (λ meant. IsFault meant e)) }
        ensures kept { OnErr result (areas self.new ≡ areas self.old) };

    /// Writes the bytes that an interval has to an address. The two may overlap.
    fn copy(&mut self, to: Address, from: Interval) -> Result<(), MemFault>
        ensures ok { OnOk result (after_copy (areas self.old) to from ≡ Ok (areas self.new)) }
        ensures err { IfErr result (λ e. IsErrAnd (after_copy (areas self.old) to from) (λ meant. IsFault meant e)) }
        ensures kept { OnErr result (areas self.new ≡ areas self.old) };

    /// Adds zeroed cells at the end of the stack, in order: all of them, or none.
    fn push_cells(&mut self, cells: &List<CellSize>) -> Result<List<Interval>, MemFault>
        requires { All (λ cell. IsAlignment cell.align) cells.now }
        ensures ok { IfOk result (λ placed. after_push (areas self.old) cells.now ≡ Ok (placed, areas self.new)) }
        ensures err { IfErr result (λ e. (e ≡ fault.NoMemory) ⊎ (after_push (areas self.old) cells.now ≡ Err e)) }
        ensures kept { OnErr result (areas self.new ≡ areas self.old) };

    /// Adds a zeroed block at the end of the heap.
    fn heap_allocate(&mut self, size: u64, align: u64) -> Result<Address, MemFault>
        ensures ok { IfOk result (λ addr. after_allocation (areas self.old) size align ≡ Ok (addr, areas self.new)) }
        ensures err { IfErr result (λ e. (e ≡ fault.NoMemory) ⊎ (after_allocation (areas self.old) size align ≡ Err e)) }
        ensures kept { OnErr result (areas self.new ≡ areas self.old) };

    /// How many bytes the stack has beside its first one.
    fn stack_taken(&self) -> u64
        ensures { result ≡ taken (areas self.now).stack };

    /// How many bytes the heap has beside its first one.
    fn heap_taken(&self) -> u64
        ensures { result ≡ taken (areas self.now).heap };

    // Each of the two has its first byte, and is no longer than the limit.
    ghost bounded: { (memory : Self) → IsBounded (areas memory) };
}
