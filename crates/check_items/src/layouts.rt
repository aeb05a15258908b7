//! Whether all ids in the rows of layouts are in range.

ghost use Rattle.std.specs.Prelude.{◌≡◌, ℕ, List as Listed, length};
ghost use Rattle.std.specs.List.{list_all};
ghost use Rattle.check_names.specs.Known.{is_nameable};
ghost use Rattle.check_items.specs.Names.{are_variants_named, is_layout_named};

use check_names::{is_nameable, is_ty_named};
use world::{HirDatabase, Layout, List, Ty, Variants};

/// Whether lists of offsets are short enough for indices of 32 bits.
fn are_offsets_nameable(lists: &[List<u64>]) -> bool
    ensures { result ≡ list_all (λ (offsets : Listed ℕ). is_nameable (length offsets)) lists.now }
{
    lists.iter().all(|offsets| is_nameable(offsets.len()))
}

/// Whether the lists of a layout with several variants are short enough for indices of 32 bits.
fn are_variants_named(shown: &Variants) -> bool
    ensures { result ≡ are_variants_named shown.now }
{
    match shown {
        Variants::Multiple(multiple) => {
            is_nameable(multiple.variants.len())
                && are_offsets_nameable(multiple.variants.as_slice())
        }
        Variants::Empty => true,
        Variants::Single(_) => true,
    }
}

/// Whether all ids in a layout's row are in range, and its lists are short enough.
pub fn is_layout_named(db: &HirDatabase, row: &(Ty, Layout)) -> bool
    ensures { result ≡ is_layout_named db.now row.now }
{
    is_ty_named(db, &row.0)
        && is_nameable(row.1.offsets.len())
        && are_variants_named(&row.1.variants)
}
