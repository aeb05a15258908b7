//! The lines of the report for the memory behind the addresses in a constant's value.

ghost use Rattle.std.specs.Prelude.{◌≡◌, IfOk};
ghost use Rattle.std.specs.List.{flat_map};
ghost use Rattle.report_text.specs.Memory.{entry_line, table_line, table_lines, memory_lines};

use crate::texts::{digits_or_dash, enclosed, joined, push_all};
use crate::ty::type_text;
use std::alloc::Global;
use world::{Bytes, HirDatabase, List, Map, MemoryMap, NoMemory, Ty};

/// The vtable id of the first type that a constant's value has one for; the ids of the others follow it.
const FIRST_TABLE_ID: u64 = 1000;

/// The line for the bytes at an address.
fn entry_line(alloc: Global, address: u64, bytes: &[u8]) -> Result<Bytes, NoMemory>
    ensures { IfOk result (λ text. text ≡ entry_line (address, bytes.now)) }
{
    let place = address.to_string(alloc)?;
    let digits = digits_or_dash(alloc, bytes)?;
    let rest = enclosed(alloc, b" ", digits.as_slice(), b"\n")?;
    enclosed(alloc, b"  at ", place.as_str().as_bytes(), rest.as_slice())
}

/// The lines for a map of bytes by address.
fn entry_lines(alloc: Global, entries: &Map<u64, Bytes>) -> Result<Bytes, NoMemory>
    ensures { IfOk result (λ text. text ≡ flat_map entry_line entries.now) }
{
    let mut out = Vec::new(alloc);
    for (address, bytes) in entries.iter() {
        let line = entry_line(alloc, *address, bytes.as_slice())?;
        push_all(&mut out, line.as_slice())?;
    }
    Ok(Bytes::from_vec(out))
}

/// The line for a vtable id, which stands for the type of a trait object's value.
fn table_line(alloc: Global, db: &HirDatabase, id: u64, ty: &Ty) -> Result<Bytes, NoMemory>
    ensures { IfOk result (λ text. text ≡ table_line db.now id ty.now) }
{
    let digits = id.to_string(alloc)?;
    let text = type_text(alloc, db, ty)?;
    let rest = enclosed(alloc, b" ", text.as_slice(), b"\n")?;
    enclosed(
        alloc,
        b"  table ",
        digits.as_str().as_bytes(),
        rest.as_slice(),
    )
}

/// The lines for all vtable ids.
fn table_lines(alloc: Global, db: &HirDatabase, tys: &List<Ty>) -> Result<Bytes, NoMemory>
    ensures { IfOk result (λ text. text ≡ table_lines db.now 1000 tys.now) }
{
    let mut out = Vec::new(alloc);
    let mut id = FIRST_TABLE_ID;
    let items = tys.as_slice();
    for ty in items {
        let line = table_line(alloc, db, id, ty)?;
        push_all(&mut out, line.as_slice())?;
        id += 1;
    }
    Ok(Bytes::from_vec(out))
}

/// The lines for the memory behind the addresses in a value.
pub(crate) fn memory_lines(
    alloc: Global,
    db: &HirDatabase,
    map: &MemoryMap,
) -> Result<Bytes, NoMemory>
    ensures { IfOk result (λ text. text ≡ memory_lines db.now map.now) }
{
    match map {
        MemoryMap::Empty => Ok(Bytes::new(alloc)),
        MemoryMap::Simple(bytes) => entry_line(alloc, 0, bytes.as_slice()),
        MemoryMap::Complex(complex) => {
            let entries = entry_lines(alloc, &complex.memory)?;
            let tables = table_lines(alloc, db, &complex.vtable)?;
            joined(alloc, entries.as_slice(), tables.as_slice())
        }
    }
}
