//! Tags that fit their enums.
ghost use Rattle.std.specs.Prelude.{◌≡◌, ℕ, ◌+◌, ◌*◌, ◌^◌, ◌<◌, ◌≤◌, length, Decides};
ghost use Rattle.check_layouts.specs.Laid.{HasRightTag, IsNiche, IsTag};
ghost use Rattle.world.specs.declared.layout.MultiLayout.{MultiLayout};
ghost use Rattle.world.specs.declared.layout.Variants.TheVariants.{Single, Multiple};

use crate::fields::enum_variants;
use world::{AdtId, HirDatabase, Layout, MultiLayout, TagEncoding, Ty, Variants};

/// How many values a tag of less than 16 bytes has.
fn tag_values(size: u64) -> u128
    requires { size < 16 }
    ensures { result ≡ 2 ^ (8 * size) }
{
    1 << (8 * size)
}

/// Whether a tag of 16 bytes has at least `start + more` values; the sum may be 2^128.
fn is_widest(start: u128, more: u64) -> bool
    ensures { Decides result (start + more ≤ 2 ^ 128) }
{
    more == 0 || start <= u128::MAX - (more as u128 - 1)
}

/// Whether a tag of `size` bytes has at least `start + more` values.
fn is_within_tag(start: u128, more: u64, size: u64) -> bool
    ensures { Decides result (start + more ≤ 2 ^ (8 * size)) }
{
    if size > 16 {
        return true;
    }
    if size == 16 {
        return is_widest(start, more);
    }
    let values = tag_values(size);
    start <= values && more as u128 <= values - start
}

/// Whether the untagged variant of a niche is one of the enum, and the tag has a value for each other
/// variant from the start of the niche on.
fn is_niche_right(count: u64, size: u64, encoding: TagEncoding) -> bool
    ensures { Decides result (IsNiche count size encoding) }
{
    match encoding {
        TagEncoding::Direct => true,
        TagEncoding::Niche {
            untagged_variant,
            niche_start,
            ..
        } => (untagged_variant as u64) < count && is_within_tag(niche_start, count - 1, size),
    }
}

/// Whether there are as many variants as in the enum, and the tag has a value for each.
fn is_multiple_right(count: u64, multiple: &MultiLayout) -> bool
    ensures { Decides result (IsTag count multiple.now) }
{
    multiple.variants.len() == count
        && is_within_tag(0, count, multiple.tag_size)
        && is_niche_right(count, multiple.tag_size, multiple.encoding)
}

/// Whether the tag of a layout fits an enum of `count` variants.
fn is_enum_tag_right(count: u64, variants: &Variants) -> bool
    ensures { Decides result (((multiple : MultiLayout) → variants.now ≡ Multiple multiple → IsTag count multiple) × ((i : ℕ) → variants.now ≡ Single i → i < count)) }
{
    match variants {
        Variants::Empty => true,
        Variants::Single(i) => (*i as u64) < count,
        Variants::Multiple(multiple) => is_multiple_right(count, multiple),
    }
}

/// Whether a layout has no tag.
fn is_untagged(variants: &Variants) -> bool
    ensures { Decides result ((multiple : MultiLayout) → variants.now ≡ Multiple multiple → ⊥) }
{
    match variants {
        Variants::Multiple(_) => false,
        _ => true,
    }
}

/// Whether the tag of a row of `layouts` fits its enum; the layout of any other type has no tag.
pub fn is_tag_right(db: &HirDatabase, row: &(Ty, Layout)) -> bool
    ensures { Decides result (HasRightTag db.now row.now.0 row.now.1) }
{
    match &row.0 {
        Ty::Adt(AdtId::EnumId(id), _) => {
            is_enum_tag_right(enum_variants(db, *id).len() as u64, &row.1.variants)
        }
        _ => is_untagged(&row.1.variants),
    }
}
