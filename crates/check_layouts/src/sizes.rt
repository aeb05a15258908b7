//! Sizes that are the same on all 64-bit targets, and the layouts in earlier rows of the table.
ghost use Rattle.std.specs.Prelude.{◌≡◌, ℕ, ◌*◌, ◌<◌, Option, IfSome, Decides};
ghost use Rattle.std.specs.Option.{option_and_then, option_copied};
ghost use Rattle.check_layouts.specs.inner.Fields.{IsPlaceOf};
ghost use Rattle.check_layouts.specs.Sizes.{is_unsized, is_wide, known_size, layout_above, pointer_size};
ghost use Rattle.types.specs.declared.ty.Ty.{Ty};
ghost use Rattle.world.specs.Checked.{IsAlignment, int_bytes, uint_bytes};

use world::{AdtId, HirDatabase, IntTy, Layout, Ty, UintTy};

/// Whether an alignment is a power of two up to 8192.
pub(crate) fn is_alignment(align: u64) -> bool
    ensures { Decides result (IsAlignment align) }
{
    let alignments = [
        1, 2, 4, 8, 16, 32, 64, 128, 256, 512, 1024, 2048, 4096, 8192,
    ];
    alignments.iter().any(|power| *power == align)
}

/// Whether a size is a multiple of an alignment.
pub(crate) fn is_multiple_of(size: u64, align: u64) -> bool
    requires { 0 < align }
    ensures { Decides result ((n : ℕ) × (size ≡ n * align)) }
{
    size % align == 0
}

/// Whether there is a layout, and it is that of an unsized type.
fn is_unsized(layout: Option<&Layout>) -> bool
    ensures { result ≡ is_unsized (option_copied layout.entry) }
{
    match layout {
        Some(layout) => !layout.sized,
        None => false,
    }
}

/// Whether a pointer to a type is wide: it has a length or a vtable beside the address.
fn is_wide(db: &HirDatabase, ty: &Ty) -> bool
    ensures { result ≡ is_wide db.now ty.now }
{
    match ty {
        Ty::Str => true,
        Ty::Slice(_) => true,
        Ty::Dynamic(_) => true,
        Ty::Adt(AdtId::StructId(_), _) => is_unsized(db.layout_of(ty)),
        _ => false,
    }
}

/// The size of a pointer, wide or not.
fn pointer_size(is_wide: bool) -> u64
    ensures { result ≡ pointer_size is_wide }
{
    if is_wide { 16 } else { 8 }
}

/// How many bytes a signed integer type has.
fn int_bytes(int: IntTy) -> u64
    ensures { result ≡ int_bytes int }
{
    match int {
        IntTy::I8 => 1,
        IntTy::I16 => 2,
        IntTy::I32 => 4,
        IntTy::I64 => 8,
        IntTy::I128 => 16,
        IntTy::Isize => 8,
    }
}

/// How many bytes an unsigned integer type has.
fn uint_bytes(uint: UintTy) -> u64
    ensures { result ≡ uint_bytes uint }
{
    match uint {
        UintTy::U8 => 1,
        UintTy::U16 => 2,
        UintTy::U32 => 4,
        UintTy::U64 => 8,
        UintTy::U128 => 16,
        UintTy::Usize => 8,
    }
}

/// The size that the form of a type fixes, with that of what it points to; none for a type of any other form.
pub(crate) fn known_size(db: &HirDatabase, ty: &Ty) -> Option<u64>
    ensures { result ≡ known_size db.now ty.now }
{
    match ty {
        Ty::Bool => Some(1),
        Ty::Char => Some(4),
        Ty::Int(int) => Some(int_bytes(*int)),
        Ty::Uint(uint) => Some(uint_bytes(*uint)),
        Ty::Never => Some(0),
        Ty::FnDef(_, _) => Some(0),
        Ty::Ref(to, _) => Some(pointer_size(is_wide(db, to.as_ref()))),
        Ty::RawPtr(to, _) => Some(pointer_size(is_wide(db, to.as_ref()))),
        Ty::FnPtr(_, _) => Some(8),
        _ => None,
    }
}

/// Whether a size is the known one, if there is a known one.
pub(crate) fn is_fixed_size(known: Option<u64>, size: u64) -> bool
    ensures { Decides result (IfSome known (λ fixed. size ≡ fixed)) }
{
    match known {
        Some(fixed) => size == fixed,
        None => true,
    }
}

/// The layout of a type, by the index of its row, if that is one of the first `i` rows.
pub(crate) fn layout_at<'a>(db: &'a HirDatabase, i: u64, place: Option<u64>) -> Option<&'a Layout>
    ensures { (found : Option Ty) → IsPlaceOf db.now found place → option_copied result ≡ option_and_then (layout_above db.now i) found }
{
    match place {
        Some(place) => {
            if place < i {
                match db.layouts.at(place) {
                    Some(row) => Some(&row.1),
                    None => None,
                }
            } else {
                None
            }
        }
        None => None,
    }
}

/// The layout of a type, if it is in one of the first `i` rows.
pub(crate) fn layout_above<'a>(db: &'a HirDatabase, i: u64, ty: &Ty) -> Option<&'a Layout>
    ensures { option_copied result ≡ layout_above db.now i ty.now }
{
    layout_at(db, i, db.layouts.place_of(ty))
}
