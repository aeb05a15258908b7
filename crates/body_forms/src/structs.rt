//! Expressions that make values of structs: struct literals and calls of constructors, with what gives each field of their struct, a written field, an
//! argument or a base, and paths to unit structs.

ghost use Rattle.std.specs.Prelude.{◌≡◌, ◌&&◌, ◌==◌, ℕ, List, count_by, length, map, is_some, IfOk, IsSome, Some};
ghost use Rattle.std.specs.Option.{option_and_then, option_copied, option_map};
ghost use Rattle.source_meaning.specs.Source.{Source, constructed, named_by, variant_named};
ghost use Rattle.source_meaning.specs.Core as expr;
ghost use Rattle.source_meaning.specs.Core.{are_any, names_unit, struct_named};
ghost use Rattle.source_meaning.specs.Structs.{all_places, all_sources, are_others_ready, field_sources, picked, place_named, places_named, source_by, struct_args, struct_made, struct_of, struct_with};
ghost use Rattle.types.specs.declared.ids.VariantId.TheVariants as variant;
ghost use Rattle.world.specs.Lookups.{type_of};
ghost use Rattle.world.specs.Nodes.{expr_numbers, field_numbers};
ghost use Rattle.body_forms.specs.Contexts.{source_of};
ghost use Rattle.body_forms.specs.Form.{core_source, core_struct, exprs_given, places_given};
ghost use Rattle.body_forms.specs.Operations.{IsRvalueOf};
ghost use Rattle.body_forms.specs.Structs.{arranged};

use crate::call::must_not_return;
use crate::context::Context;
use crate::inferred::own_type;
use check_instances::ready_instance;
use mir::{AggregateKind, Operand, Rvalue};
use std::alloc::Global;
use world::{
    Adjustment, AdtId, CallableDefId, Expr, ExprId, FieldId, FieldRow, GenericArgs, List, NoMemory,
    RecordLitField, StructId, Text, TryClone, Ty, ValueNs, VariantId,
};

/// A struct at generic arguments, with the rows of its fields.
#[derive(Clone, Copy)]
pub struct StructAt<'a> {
    pub id: StructId,
    pub args: &'a GenericArgs,
    pub fields: &'a List<FieldRow>,
}

/// A struct literal: the struct that it makes a value of, and the fields that are written.
#[derive(Clone, Copy)]
pub struct StructLiteral<'a> {
    pub made: StructAt<'a>,
    pub written: &'a List<RecordLitField>,
}

/// The expressions that give the fields of a struct.
#[derive(Clone, Copy)]
pub enum FieldExprs<'a> {
    /// Those of the fields that a literal writes, each of which names its field.
    Named(&'a List<RecordLitField>),
    /// The arguments of the struct's constructor, in the order of the fields.
    InOrder(&'a List<ExprId>),
}

/// A struct whose fields are given by expressions.
#[derive(Clone, Copy)]
pub struct StructValue<'a> {
    pub made: StructAt<'a>,
    pub given: FieldExprs<'a>,
}

/// What gives a field of a struct literal with a base: the written field at a place, or a field of the base.
#[derive(Clone, Copy)]
pub enum FieldSource {
    Written(u64),
    OfBase(FieldId),
}

/// The generic arguments of a type, where it is a struct.
pub(crate) fn struct_args(id: StructId, ty: &Ty) -> Option<&GenericArgs>
    ensures { option_copied result ≡ struct_args id ty.now }
{
    match ty {
        Ty::Adt(AdtId::StructId(other), args) => if id.0 == other.0 { Some(args) } else { None },
        _ => None,
    }
}

/// A struct with its fields, at generic arguments.
fn struct_with<'a>(
    context: &Context<'a>,
    id: StructId,
    args: &'a GenericArgs,
) -> Option<StructAt<'a>>
    ensures { option_map core_struct result ≡ struct_with context.now.db.now id args.now }
{
    let fields = context.db.field_types(VariantId::StructId(id))?;
    Some(StructAt { id, args, fields })
}

/// The struct that an expression makes a value of, by what its path is resolved to and by its type, where these agree.
#[tactic(auto, unfolding(source_meaning::specs::Source::own_type))]
pub(crate) fn struct_made<'a>(context: &Context<'a>, e: ExprId) -> Option<StructAt<'a>>
    ensures { option_map core_struct result ≡ struct_made context.now.db.now (variant_named (source_of context.now) e.0) (type_of context.now.infer.now e.0) }
{
    match context.infer.variant_res.get(&e) {
        Some(VariantId::StructId(id)) => {
            struct_with(context, *id, struct_args(*id, own_type(context, e)?)?)
        }
        _ => None,
    }
}

/// Whether there are adjustments.
fn are_any(steps: Option<&List<Adjustment>>) -> bool
    ensures { result ≡ are_any (option_copied steps.entry) }
{
    match steps {
        Some(steps) => !steps.as_slice().is_empty(),
        None => false,
    }
}

/// The struct that a call makes of its arguments, where its callee is a path of the type of a constructor, and isn't adjusted, and the call isn't listed as
/// one that doesn't return.
#[tactic(auto, unfolding(source_meaning::specs::Calls::must_not_return, source_meaning::specs::Source::constructor_at, source_meaning::specs::Source::own_type))]
pub(crate) fn constructed<'a>(
    context: &Context<'a>,
    call: ExprId,
    callee: ExprId,
) -> Option<StructAt<'a>>
    ensures { option_map core_struct result ≡ constructed (source_of context.now) call.0 callee }
{
    if must_not_return(context, call) || are_any(context.infer.expr_adjustments.get(&callee)) {
        return None;
    }
    match (
        context.body.exprs.get(callee.0 as u64)?,
        own_type(context, callee)?,
    ) {
        (Expr::Path(_), Ty::FnDef(CallableDefId::StructId(id), args)) => {
            struct_with(context, *id, args)
        }
        _ => None,
    }
}

/// The struct that a path is resolved to, where it is: by inference, or else by its name; `Self` is the struct that the path's own type is.
#[tactic(auto, unfolding(source_meaning::specs::Source::own_type))]
fn struct_named(context: &Context<'_>, e: ExprId) -> Option<StructId>
    ensures { result ≡ struct_named (option_and_then struct_of (type_of context.now.infer.now e.0)) (variant_named (source_of context.now) e.0) (named_by (source_of context.now) e.0) }
{
    match context.infer.variant_res.get(&e) {
        Some(VariantId::StructId(id)) => Some(*id),
        Some(_) => None,
        None => match context.infer.value_res.get(&e) {
            Some(ValueNs::StructId(id)) => Some(*id),
            Some(ValueNs::ImplSelf) => match own_type(context, e) {
                Some(Ty::Adt(AdtId::StructId(id), _)) => Some(*id),
                _ => None,
            },
            _ => None,
        },
    }
}

/// Whether a path is resolved to a struct, which is its own type: then it is a value of a unit struct.
#[tactic(auto, unfolding(source_meaning::specs::Core::names_unit, source_meaning::specs::Source::own_type))]
pub(crate) fn names_unit(context: &Context<'_>, e: ExprId) -> bool
    ensures { result ≡ names_unit context.now.infer.now e }
{
    if context.infer.assoc_res.get(&e).is_some() {
        return false;
    }
    match struct_named(context, e) {
        Some(id) => match own_type(context, e) {
            Some(ty) => struct_args(id, ty).is_some(),
            None => false,
        },
        None => false,
    }
}

/// The place, among the written fields of a literal, of the first one with a name.
fn place_named(name: &Text, written: &[RecordLitField]) -> Option<usize>
    ensures { result ≡ place_named name.now written.now }
{
    written.iter().position(|field| field.name == *name)
}

/// Whether each of some fields of a struct is written.
fn are_written(fields: &[FieldRow], written: &[RecordLitField]) -> bool
    ensures { result ≡ is_some (places_named fields.now written.now) }
{
    for field in fields {
        match place_named(&field.name, written) {
            Some(_place) => {}
            None => return false,
        }
    }
    true
}

/// Whether each field of a struct is given by one expression, and no expression gives another.
pub(crate) fn gives_all_fields(value: StructValue<'_>) -> bool
    ensures { result ≡ is_some (places_given value.entry) }
{
    match value.given {
        FieldExprs::Named(written) => {
            value.made.fields.len() == written.len()
                && are_written(value.made.fields.as_slice(), written.as_slice())
        }
        FieldExprs::InOrder(args) => value.made.fields.len() == args.len(),
    }
}

/// How many fields of a struct are written.
fn count_written(fields: &[FieldRow], written: &[RecordLitField]) -> usize
    ensures { result ≡ count_by (λ field. is_some (place_named field.name written.now)) fields.now }
{
    fields
        .iter()
        .filter(|field| place_named(&field.name, written).is_some())
        .count()
}

/// Whether each written field of a literal with a base gives one of the struct's.
pub(crate) fn gives_known_fields(literal: StructLiteral<'_>) -> bool
    ensures { result ≡ is_some (all_sources literal.entry.made.id literal.entry.made.fields.now literal.entry.written.now) }
{
    let count = count_written(literal.made.fields.as_slice(), literal.written.as_slice());
    count as u64 == literal.written.len()
}

/// Whether the types of the fields that a literal with a base doesn't write needn't be made at its struct's generic arguments.
pub(crate) fn are_others_ready(literal: StructLiteral<'_>) -> bool
    ensures { result ≡ are_others_ready literal.entry.made.args.now literal.entry.made.fields.now literal.entry.written.now }
{
    let fields = literal.made.fields.as_slice();
    let written = literal.written.as_slice();
    fields.iter().all(|field| {
        place_named(&field.name, written).is_some()
            || ready_instance(literal.made.args, &field.ty).is_some()
    })
}

/// What gives the field of a struct at an index.
fn source_by(id: StructId, index: u32, place: Option<usize>) -> FieldSource
    ensures { core_source result ≡ source_by id index place }
{
    match place {
        Some(place) => FieldSource::Written(place as u64),
        None => FieldSource::OfBase(FieldId {
            parent: VariantId::StructId(id),
            local_id: index,
        }),
    }
}

/// What gives the fields of the struct of a literal with a base, in their order. A field past the 2^32nd has no id: `NoMemory`. The check of a world
/// refuses a struct with so many, but nothing that is asked of the world here says so.
pub fn field_sources(
    alloc: Global,
    literal: StructLiteral<'_>,
) -> Result<List<FieldSource>, NoMemory>
    ensures { IfOk result (λ sources. map core_source sources ≡ field_sources literal.entry.made.id 0 literal.entry.made.fields.now literal.entry.written.now) }
{
    let mut sources = List::new(alloc);
    let fields = literal.made.fields.as_slice();
    let written = literal.written.as_slice();
    for i in 0..fields.len() {
        if i > u32::MAX as usize {
            return Err(NoMemory);
        }
        let place = place_named(&fields[i].name, written);
        sources.push(source_by(literal.made.id, i as u32, place))?;
    }
    Ok(sources)
}

/// The expressions that a literal gives to its fields, in the order in which they are written.
pub fn written_exprs(alloc: Global, written: &[RecordLitField]) -> Result<List<ExprId>, NoMemory>
    ensures { IfOk result (λ exprs. expr_numbers exprs ≡ field_numbers written.now) }
{
    let mut exprs = List::new(alloc);
    for field in written {
        exprs.push(field.expr)?;
    }
    Ok(exprs)
}

/// The expressions that give the fields of a struct, in the order in which they are evaluated.
pub fn given_exprs(alloc: Global, given: FieldExprs<'_>) -> Result<List<ExprId>, NoMemory>
    ensures { IfOk result (λ exprs. expr_numbers exprs ≡ exprs_given given.entry) }
{
    match given {
        FieldExprs::Named(written) => written_exprs(alloc, written.as_slice()),
        FieldExprs::InOrder(args) => args.try_clone(alloc),
    }
}

/// The operands of written fields, in the order of the fields of the struct.
fn arranged(
    alloc: Global,
    fields: &[FieldRow],
    written: &[RecordLitField],
    operands: &List<Operand>,
) -> Result<List<Operand>, NoMemory>
    requires { IsSome (arranged fields.now written.now operands.now) }
    ensures { IfOk result (λ all. arranged fields.now written.now operands.now ≡ Some all) }
{
    let mut all = List::new(alloc);
    for field in fields {
        let Some(place) = place_named(&field.name, written) else {
            unreachable!()
        };
        let Some(operand) = operands.get(place as u64) else {
            unreachable!()
        };
        let copy = operand.try_clone(alloc)?;
        all.push(copy)?;
    }
    Ok(all)
}

/// The operands of the expressions that give the fields of a struct, in the order of the fields.
fn in_field_order(
    alloc: Global,
    value: StructValue<'_>,
    operands: List<Operand>,
) -> Result<List<Operand>, NoMemory>
    requires given { IsSome (places_given value) }
    requires many { length operands ≡ length (exprs_given value.given) }
    ensures { IfOk result (λ all. (places : List ℕ) → places_given value.entry ≡ Some places → picked places operands ≡ Some all) }
{
    match value.given {
        FieldExprs::Named(written) => arranged(
            alloc,
            value.made.fields.as_slice(),
            written.as_slice(),
            &operands,
        ),
        FieldExprs::InOrder(_) => Ok(operands),
    }
}

/// The struct that is made of the operands of the expressions that give its fields.
pub fn struct_value(
    alloc: Global,
    value: StructValue<'_>,
    operands: List<Operand>,
) -> Result<Rvalue, NoMemory>
    requires given { IsSome (places_given value) }
    requires many { length operands ≡ length (exprs_given value.given) }
    ensures { IfOk result (λ made. (source : Source) (e : ℕ) (places : List ℕ) → places_given value.entry ≡ Some places
        → IsRvalueOf source e (expr.MakeStruct value.entry.made.id value.entry.made.args.now places) operands made) }
{
    let made = value.made;
    let all = in_field_order(alloc, value, operands)?;
    let args = made.args.try_clone(alloc)?;
    Ok(Rvalue::Aggregate(AggregateKind::Adt(VariantId::StructId(made.id), args), all))
}
