//! The memory of a run by itself: its addresses, its cells and blocks, and the bytes of numbers that are made longer.
ghost use Rattle.std.specs.Prelude.{◌≡◌, ◌∷◌, [], IfOk};

use mir_mem::{Address, CellSize, FlatMemory, Interval, MemFault, Memory, pad16};
use std::alloc::Global;
use std::test::Fail;
use world::{List, NoMemory, Text};

/// Numbers of the target's `usize`, and the addresses that they stand for. The number at which the stack's range begins is
/// the last of the heap's, and the one at which the heap's begins is no address.
const ADDRESSES: [(u64, Address); 4] = [
    (1 << 60, Address::Heap(1 << 59)),
    (1 << 59, Address::Invalid(1 << 59)),
    (1_152_921_504_606_846_984, Address::Stack(8)),
    (0, Address::Invalid(0)),
];

#[test]
fn a_number_is_an_address_of_the_stack_the_heap_or_neither(rt: HostRuntime) -> Result<(), Fail> {
    for (number, address) in ADDRESSES {
        assert_eq!(rt; Address::from_usize(number), address);
    }
    assert_eq!(rt; Address::Stack(8).to_usize(), 1_152_921_504_606_846_984);
    Ok(())
}

#[test]
fn a_number_is_made_longer_by_its_sign(rt: HostRuntime) -> Result<(), Fail> {
    let signed = pad16(&[0xfe], true);
    let unsigned = pad16(&[0xfe], false);
    assert_eq!(rt; signed[0], 0xfe);
    assert_eq!(rt; unsigned[0], 0xfe);
    for i in 1..16 {
        assert_eq!(rt; signed[i], 0xff);
        assert_eq!(rt; unsigned[i], 0);
    }
    Ok(())
}

/// Cells of one byte and of eight.
fn one_and_eight(alloc: Global) -> Result<List<CellSize>, NoMemory>
    ensures { IfOk result (λ cells. cells ≡ record { size = 1; align = 1 } ∷ record { size = 8; align = 8 } ∷ []) }
{
    let mut cells = List::new(alloc);
    cells.push(CellSize { size: 1, align: 1 })?;
    cells.push(CellSize { size: 8, align: 8 })?;
    Ok(cells)
}

/// One cell of four bytes.
fn four(alloc: Global) -> Result<List<CellSize>, NoMemory>
    ensures { IfOk result (λ cells. cells ≡ record { size = 4; align = 4 } ∷ []) }
{
    let mut cells = List::new(alloc);
    cells.push(CellSize { size: 4, align: 4 })?;
    Ok(cells)
}

/// The cell at a place of those that were pushed.
fn cell_at(placed: &Result<List<Interval>, MemFault>, i: u64) -> Option<Interval> {
    match placed {
        Ok(cells) => cells.get(i).copied(),
        Err(_) => None,
    }
}

#[test]
fn cells_are_aligned_and_stay_within_the_limit(rt: HostRuntime) -> Result<(), Fail> {
    let alloc = rt.alloc();
    let mut memory = FlatMemory::new(alloc, 16)?;
    let first = one_and_eight(alloc)?;
    let second = four(alloc)?;
    let placed = memory.push_cells(&first);
    let one = Interval {
        addr: Address::Stack(1),
        size: 1,
    };
    let eight = Interval {
        addr: Address::Stack(8),
        size: 8,
    };
    assert_eq!(rt; cell_at(&placed, 0), Some(one));
    assert_eq!(rt; cell_at(&placed, 1), Some(eight));
    assert_eq!(rt; memory.stack_taken(), 15);
    let refused = memory.push_cells(&second).err();
    assert!(rt; refused == Some(MemFault::MemoryLimitExceeded));
    assert_eq!(rt; memory.stack_taken(), 15);
    Ok(())
}

/// How many bytes a read views, where it views any.
fn viewed(memory: &FlatMemory, addr: Address, size: u64) -> Option<u64> {
    let view = memory.read(addr, size).ok()?;
    Some(view.len())
}

/// Why a read is refused, where it is.
fn read_fault(memory: &FlatMemory, addr: Address, size: u64) -> Option<MemFault> {
    memory.read(addr, size).err()
}

#[test]
fn a_block_has_an_alignment_and_a_read_an_address(rt: HostRuntime) -> Result<(), Fail> {
    let alloc = rt.alloc();
    let mut memory = FlatMemory::new(alloc, 16)?;
    let odd = Text::from_str(alloc, "Alignment 3 is invalid")?;
    let refused = memory.heap_allocate(4, 3).err();
    assert!(rt; refused == Some(MemFault::UndefinedBehavior(odd)));
    let block = memory.heap_allocate(4, 4).ok();
    assert!(rt; block == Some(Address::Heap(4)));
    let outside = Text::from_str(alloc, "read invalid memory address 5 with size 1")?;
    let fault = read_fault(&memory, Address::Invalid(5), 1);
    assert!(rt; fault == Some(MemFault::UndefinedBehavior(outside)));
    assert_eq!(rt; viewed(&memory, Address::Invalid(5), 0), Some(0));
    Ok(())
}
