//! Layouts that follow the rules of all 64-bit targets.
ghost use Rattle.std.specs.Prelude.{◌≡◌, ℕ, ◌*◌, ◌<◌, List, [], ◌∷◌, None, Some, IfOk, IfSome, OnOk, Decides, slice_get};
ghost use Rattle.std.specs.Option.{option_copied};
ghost use Rattle.types.specs.declared.ids.AdtId.TheVariants as adt;
ghost use Rattle.types.specs.declared.ids.EnumId.{EnumId};
ghost use Rattle.types.specs.declared.ids.InternedClosureId.{InternedClosureId};
ghost use Rattle.types.specs.declared.ids.VariantId.TheVariants as item;
ghost use Rattle.types.specs.declared.ty.GenericArgs.{GenericArgs};
ghost use Rattle.types.specs.declared.ty.Ty.TheVariants.{Adt, Closure};
ghost use Rattle.world.specs.Checked.{IsAlignment};
ghost use Rattle.world.specs.declared.closures.ClosureRow.{ClosureRow};
ghost use Rattle.world.specs.declared.items.FieldRow.{FieldRow};
ghost use Rattle.world.specs.declared.layout.MultiLayout.{MultiLayout};
ghost use Rattle.world.specs.declared.layout.Variants.TheVariants.{Multiple};
ghost use Rattle.check_layouts.specs.Laid.{AreCaptured, Has, HasLayout, IsLaidOut, IsRowLaidOut, IsTagInside, field_type, variant_fields};
ghost use Rattle.check_layouts.specs.Sizes.{known_size, layout_above};
ghost use Rattle.check_layouts.specs.inner.Fields.{AreFieldsInside, AreSizesRight, AreVariantsInside, IsItemInside, IsItemKnown};
ghost use Rattle.check_layouts.specs.inner.Places.{AreFixed};

use crate::arrays::is_array_size;
use crate::fields::{
    are_fields_inside, are_fields_placed, enum_variants, is_closure_inside, is_tuple_placed,
};
use crate::places::{FixedPlaces, fixed_places, places_of_fields};
use crate::sizes::{is_alignment, is_fixed_size, is_multiple_of, known_size};
use check_names::is_ty_closed;
use std::alloc::Global;
use world::{
    AdtId, EnumId, EnumVariantId, GenericArgs, HirDatabase, Layout, List, Map, NoMemory, Ty,
    VariantId, Variants,
};

/// Whether a tag has the size of an integer.
fn is_tag_size(size: u64) -> bool
    ensures { Decides result (Has (1 ∷ 2 ∷ 4 ∷ 8 ∷ 16 ∷ []) size) }
{
    size == 1 || size == 2 || size == 4 || size == 8 || size == 16
}

/// Whether a tag, if there is one, has the size of an integer and ends within `size`.
fn is_tag_inside(size: u64, variants: &Variants) -> bool
    ensures { Decides result ((multiple : MultiLayout) → variants.now ≡ Multiple multiple → IsTagInside size multiple) }
{
    match variants {
        Variants::Multiple(multiple) => {
            is_tag_size(multiple.tag_size)
                && multiple.tag_offset <= size
                && multiple.tag_size <= size - multiple.tag_offset
        }
        _ => true,
    }
}

/// Whether the alignment is a power of two, and the size a multiple of it and, if all 64-bit targets give the type
/// one size, that one.
fn is_size_right(db: &HirDatabase, ty: &Ty, layout: &Layout) -> bool
    ensures { Decides result (IsAlignment layout.now.align × ((n : ℕ) × (layout.now.size ≡ n * layout.now.align)) × IfSome (known_size db.now ty.now) (λ known. layout.now.size ≡ known)) }
{
    is_alignment(layout.align)
        && is_multiple_of(layout.size, layout.align)
        && is_fixed_size(known_size(db, ty), layout.size)
}

/// Whether the fields of a struct, union or variant have one offset each, and each ends within `size`.
/// `sizes` has the sizes of field types that were found before.
fn are_item_fields_placed(
    alloc: Global,
    db: &HirDatabase,
    places: &FixedPlaces,
    i: u64,
    size: u64,
    args: &GenericArgs,
    sizes: &mut Map<Ty, u64>,
    offsets: &List<u64>,
    v: VariantId,
) -> Result<bool, NoMemory>
    requires sizes { AreSizesRight db.now i args.now sizes.old }
    requires places { AreFixed db.now places.now }
    ensures right { IfOk result (λ right. Decides right (IsItemInside db.now (layout_above db.now i) size args.now offsets.now v)) }
    ensures sizes { OnOk result (AreSizesRight db.now i args.now sizes.new) }
{
    match db.field_types(v) {
        Some(fields) => {
            let own = places_of_fields(places, v);
            are_fields_placed(alloc, db, i, size, args, sizes, offsets, own, fields)
        }
        None => Ok(true),
    }
}

/// The same for fields whose layout has no other variants, with no sizes found before.
fn are_only_fields_placed(
    alloc: Global,
    db: &HirDatabase,
    places: &FixedPlaces,
    i: u64,
    size: u64,
    args: &GenericArgs,
    offsets: &List<u64>,
    v: VariantId,
) -> Result<bool, NoMemory>
    requires { AreFixed db.now places.now }
    ensures { IfOk result (λ right. Decides right (IsItemInside db.now (layout_above db.now i) size args.now offsets.now v)) }
{
    let mut sizes = Map::new(alloc);
    are_item_fields_placed(alloc, db, places, i, size, args, &mut sizes, offsets, v)
}

/// Whether the fields of each variant have one offset each, by the list of the variant, and each ends
/// within `size`.
fn are_variants_placed(
    alloc: Global,
    db: &HirDatabase,
    places: &FixedPlaces,
    i: u64,
    size: u64,
    args: &GenericArgs,
    lists: &List<List<u64>>,
    ids: &[EnumVariantId],
) -> Result<bool, NoMemory>
    requires { AreFixed db.now places.now }
    ensures { IfOk result (λ right. Decides right ((k : ℕ) → IfSome (slice_get lists.now k) (λ offsets. IfSome (slice_get ids.now k) (λ id. IsItemInside db.now (layout_above db.now i) size args.now offsets (item.EnumVariantId id))))) }
{
    let mut sizes = Map::new(alloc);
    let items = lists.as_slice();
    for (k, offsets) in items.iter().enumerate() {
        if k >= ids.len() {
            return Ok(true);
        }
        let v = VariantId::EnumVariantId(ids[k]);
        if !are_item_fields_placed(alloc, db, places, i, size, args, &mut sizes, offsets, v)? {
            return Ok(false);
        }
    }
    Ok(true)
}

/// Whether the fields of an enum's only inhabited variant, which stands at an index of the enum, have one
/// offset each, and each ends within `size`.
fn is_variant_placed(
    alloc: Global,
    db: &HirDatabase,
    places: &FixedPlaces,
    i: u64,
    size: u64,
    args: &GenericArgs,
    offsets: &List<u64>,
    variant: Option<&EnumVariantId>,
) -> Result<bool, NoMemory>
    requires { AreFixed db.now places.now }
    ensures { IfOk result (λ right. Decides right (IfSome (option_copied variant.entry) (λ id. IsItemInside db.now (layout_above db.now i) size args.now offsets.now (item.EnumVariantId id)))) }
{
    match variant {
        Some(v) => {
            let v = VariantId::EnumVariantId(*v);
            are_only_fields_placed(alloc, db, places, i, size, args, offsets, v)
        }
        None => Ok(true),
    }
}

/// Whether the fields of an enum's only inhabited variant, or of every variant, have one offset each, and
/// each ends within the layout.
fn is_enum_placed(
    alloc: Global,
    db: &HirDatabase,
    places: &FixedPlaces,
    i: u64,
    id: EnumId,
    args: &GenericArgs,
    layout: &Layout,
) -> Result<bool, NoMemory>
    requires { AreFixed db.now places.now }
    ensures { IfOk result (λ right. Decides right (AreVariantsInside db.now (layout_above db.now i) (adt.EnumId id) args.now layout.now)) }
{
    let size = layout.size;
    let ids = enum_variants(db, id);
    match &layout.variants {
        Variants::Empty => Ok(true),
        Variants::Single(v) => {
            let variant = ids.get(*v as usize);
            is_variant_placed(alloc, db, places, i, size, args, &layout.offsets, variant)
        }
        Variants::Multiple(multiple) => {
            are_variants_placed(alloc, db, places, i, size, args, &multiple.variants, ids)
        }
    }
}

/// Whether the fields of a struct, union, tuple or enum have one offset each, and each ends within the
/// layout.
fn are_type_fields_placed(
    alloc: Global,
    db: &HirDatabase,
    places: &FixedPlaces,
    i: u64,
    ty: &Ty,
    layout: &Layout,
) -> Result<bool, NoMemory>
    requires { AreFixed db.now places.now }
    ensures { IfOk result (λ right. Decides right (AreFieldsInside db.now (layout_above db.now i) ty.now layout.now)) }
{
    let size = layout.size;
    let offsets = &layout.offsets;
    match ty {
        Ty::Tuple(parts) => Ok(is_tuple_placed(db, i, size, offsets, parts)),
        Ty::Adt(AdtId::StructId(id), args) => {
            let v = VariantId::StructId(*id);
            are_only_fields_placed(alloc, db, places, i, size, args, offsets, v)
        }
        Ty::Adt(AdtId::UnionId(id), args) => {
            let v = VariantId::UnionId(*id);
            are_only_fields_placed(alloc, db, places, i, size, args, offsets, v)
        }
        Ty::Adt(AdtId::EnumId(id), args) => {
            is_enum_placed(alloc, db, places, i, *id, args, layout)
        }
        _ => Ok(true),
    }
}

/// Whether the types of the fields of a variant have layouts in the first `i` rows.
fn are_variant_fields_known(
    alloc: Global,
    db: &HirDatabase,
    places: &FixedPlaces,
    i: u64,
    size: u64,
    args: &GenericArgs,
    sizes: &mut Map<Ty, u64>,
    id: EnumVariantId,
) -> Result<bool, NoMemory>
    requires sizes { AreSizesRight db.now i args.now sizes.old }
    requires places { AreFixed db.now places.now }
    ensures known { IfOk result (λ known. Decides known (IsItemKnown db.now (layout_above db.now i) args.now (item.EnumVariantId id))) }
    ensures sizes { OnOk result (AreSizesRight db.now i args.now sizes.new) }
{
    let nowhere = List::new(alloc);
    let v = VariantId::EnumVariantId(id);
    match db.field_types(v) {
        Some(fields) => {
            let own = places_of_fields(places, v);
            are_fields_inside(alloc, db, i, size, args, sizes, &nowhere, own, fields)
        }
        None => Ok(true),
    }
}

/// Whether the types of the fields of each variant have layouts in the first `i` rows.
fn are_variants_known(
    alloc: Global,
    db: &HirDatabase,
    places: &FixedPlaces,
    i: u64,
    size: u64,
    args: &GenericArgs,
    ids: &[EnumVariantId],
) -> Result<bool, NoMemory>
    requires { AreFixed db.now places.now }
    ensures { IfOk result (λ known. Decides known ((v : ℕ) → IfSome (slice_get ids.now v) (λ id. IsItemKnown db.now (layout_above db.now i) args.now (item.EnumVariantId id)))) }
{
    let mut sizes = Map::new(alloc);
    for id in ids {
        if !are_variant_fields_known(alloc, db, places, i, size, args, &mut sizes, *id)? {
            return Ok(false);
        }
    }
    Ok(true)
}

/// Whether the types of the fields of all variants, if the type is an enum, have layouts in the first `i`
/// rows.
fn are_enum_fields_known(
    alloc: Global,
    db: &HirDatabase,
    places: &FixedPlaces,
    i: u64,
    size: u64,
    ty: &Ty,
) -> Result<bool, NoMemory>
    requires { AreFixed db.now places.now }
    ensures { IfOk result (λ known. Decides known ((id : EnumId) (args : GenericArgs) (v k : ℕ) (rows : List FieldRow) (field : FieldRow) → ty.now ≡ Adt (adt.EnumId id) args → variant_fields db.now (adt.EnumId id) v ≡ Some rows → slice_get rows k ≡ Some field → HasLayout (layout_above db.now i) (field_type db.now args field))) }
{
    match ty {
        Ty::Adt(AdtId::EnumId(id), args) => {
            are_variants_known(alloc, db, places, i, size, args, enum_variants(db, *id))
        }
        _ => Ok(true),
    }
}

/// Whether the captures of a closure have layouts and end within its own.
fn are_captures_placed(
    alloc: Global,
    db: &HirDatabase,
    places: &FixedPlaces,
    i: u64,
    ty: &Ty,
    layout: &Layout,
) -> Result<bool, NoMemory>
    requires { AreFixed db.now places.now }
    ensures { IfOk result (λ inside. Decides inside ((id : InternedClosureId) (args : GenericArgs) (row : ClosureRow) → ty.now ≡ Closure id args → slice_get db.now.closures id.0 ≡ Some row → AreCaptured db.now (layout_above db.now i) layout.now.size layout.now.offsets args row.captures)) }
{
    match ty {
        Ty::Closure(id, args) => {
            is_closure_inside(
                alloc,
                db,
                places,
                i,
                layout.size,
                args,
                &layout.offsets,
                *id,
            )
        }
        _ => Ok(true),
    }
}

/// Whether the layout in row `i` of `layouts` follows the rules of all 64-bit targets. It fails only for want of
/// memory.
fn is_layout_right(
    alloc: Global,
    db: &HirDatabase,
    places: &FixedPlaces,
    i: u64,
    row: &(Ty, Layout),
) -> Result<bool, NoMemory>
    requires { AreFixed db.now places.now }
    ensures { IfOk result (λ right. Decides right (IsLaidOut db.now (layout_above db.now i) row.now.0 row.now.1)) }
{
    let ty = &row.0;
    let layout = &row.1;
    if !is_ty_closed(ty) || !is_size_right(db, ty, layout) {
        return Ok(false);
    }
    if !are_type_fields_placed(alloc, db, places, i, ty, layout)? {
        return Ok(false);
    }
    if !are_enum_fields_known(alloc, db, places, i, layout.size, ty)? {
        return Ok(false);
    }
    if !are_captures_placed(alloc, db, places, i, ty, layout)? {
        return Ok(false);
    }
    Ok(is_array_size(db, i, ty, layout.size) && is_tag_inside(layout.size, &layout.variants))
}

/// The index of the first row of `layouts` that breaks a rule of all 64-bit targets, or none where each row keeps
/// them. It fails only for want of memory.
pub fn first_wrong_layout(alloc: Global, db: &HirDatabase) -> Result<Option<usize>, NoMemory>
    ensures none { IfOk result (λ found. found ≡ None → (i : ℕ) → IsRowLaidOut db.now i) }
    ensures wrong { IfOk result (λ found. IfSome found (λ i. IsRowLaidOut db.now i → ⊥)) }
    ensures first { IfOk result (λ found. IfSome found (λ i. (j : ℕ) → j < i → IsRowLaidOut db.now j)) }
{
    let places = fixed_places(alloc, db)?;
    let rows = db.layouts.as_slice();
    for (i, row) in rows.iter().enumerate() {
        let right = is_layout_right(alloc, db, &places, i as u64, row)?;
        if !right {
            return Ok(Some(i));
        }
    }
    Ok(None)
}
