//! The sizes of arrays.
ghost use Rattle.std.specs.Prelude.{◌≡◌, ◌*◌, Some, IfSome, Decides};
ghost use Rattle.std.specs.Option.{option_copied};
ghost use Rattle.check_layouts.specs.Laid.{AreElements};
ghost use Rattle.check_layouts.specs.Sizes.{layout_above};
ghost use Rattle.types.specs.declared.ty.Const.{Const};
ghost use Rattle.types.specs.declared.ty.Ty.{Ty};
ghost use Rattle.types.specs.declared.ty.Ty.TheVariants.{Array};
ghost use Rattle.world.specs.declared.layout.Layout.{Layout};

use crate::sizes::layout_above;
use numbers::number_in;
use world::{HirDatabase, Layout, Ty};

/// Whether `size` is `len` times `element`.
fn is_times(len: u128, element: u64, size: u64) -> bool
    ensures { Decides result (size ≡ len * element) }
{
    match len.checked_mul(element as u128) {
        Some(whole) => size as u128 == whole,
        None => false,
    }
}

/// Whether `size` is that of `len` elements of a layout: false if there is no layout, else true if the
/// length is unknown.
fn is_product(len: Option<u128>, element: Option<&Layout>, size: u64) -> bool
    ensures { Decides result ((layout : Layout) × (option_copied element.entry ≡ Some layout) × IfSome len (λ count. size ≡ count * layout.size)) }
{
    match element {
        Some(element) => match len {
            Some(len) => is_times(len, element.size, size),
            None => true,
        },
        None => false,
    }
}

/// Whether the size of an array is its length times its element's size, whose layout is in one of the
/// first `i` rows. An unevaluated length fixes no size.
pub(crate) fn is_array_size(db: &HirDatabase, i: u64, ty: &Ty, size: u64) -> bool
    ensures { Decides result ((element : Ty) (len : Const) → ty.now ≡ Array element len → AreElements (layout_above db.now i) size element len) }
{
    match ty {
        Ty::Array(element, len) => {
            is_product(
                number_in(len.as_ref()),
                layout_above(db, i, element.as_ref()),
                size,
            )
        }
        _ => true,
    }
}
