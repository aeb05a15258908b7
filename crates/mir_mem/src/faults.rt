//! The faults of reading, writing and growing a memory.

ghost use Rattle.std.specs.Prelude.{◌≡◌, ◌++◌, codes, decimal, string_bytes, IfOk, IsErr};
ghost use Rattle.mir.specs.declared.mem_fault.MemFault.TheVariants as fault;
ghost use Rattle.mir.specs.Areas.{IsFault, bad_read, bad_write, bad_align};

use mir::{Address, MemFault};
use std::alloc::{AllocError, Global};
use world::Text;

/// The fault with this text.
fn undefined(alloc: Global, text: &str) -> MemFault
    ensures { IsFault (fault.UndefinedBehavior text.now) result }
{
    match Text::from_str(alloc, text) {
        Ok(text) => MemFault::UndefinedBehavior(text),
        Err(_) => MemFault::NoMemory,
    }
}

/// The fault with this text, or want of memory where there is no text.
fn undefined_as(alloc: Global, text: Result<String, AllocError>) -> MemFault
    ensures text { IfOk text (λ text. IsFault (fault.UndefinedBehavior (string_bytes text)) result) }
    ensures none { IsErr text → result ≡ fault.NoMemory }
{
    match text {
        Ok(text) => undefined(alloc, text.as_str()),
        Err(_) => MemFault::NoMemory,
    }
}

/// The fault of a read of `size` bytes at an address.
#[tactic(auto, unfolding(mir::specs::Areas::bad_read))]
pub(crate) fn bad_read(alloc: Global, addr: Address, size: u64) -> MemFault
    ensures { IsFault (bad_read addr size) result }
{
    match addr {
        Address::Invalid(n) => undefined_as(
            alloc,
            format!(in alloc; "read invalid memory address {n} with size {size}"),
        ),
        _ => undefined(alloc, "out of bound memory read"),
    }
}

/// The fault of a write of `size` bytes at an address.
#[tactic(auto, unfolding(mir::specs::Areas::bad_write))]
pub(crate) fn bad_write(alloc: Global, addr: Address, size: u64) -> MemFault
    ensures { IsFault (bad_write addr size) result }
{
    match addr {
        Address::Invalid(n) => undefined_as(
            alloc,
            format!(in alloc; "write invalid memory address {n} with size {size}"),
        ),
        _ => undefined(alloc, "out of bound memory write"),
    }
}

/// The fault of an alignment that a block of the heap can't have.
#[tactic(auto, unfolding(mir::specs::Areas::bad_align))]
pub(crate) fn bad_align(alloc: Global, align: u64) -> MemFault
    ensures { IsFault (bad_align align) result }
{
    undefined_as(alloc, format!(in alloc; "Alignment {align} is invalid"))
}
