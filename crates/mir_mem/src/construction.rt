//! Values that are made of parts.

ghost use Rattle.std.specs.Option.{ForSome};
ghost use Rattle.std.specs.Bool.{OnTrue, OnFalse};
ghost use Rattle.std.specs.Fmt.{signed_decimal};
ghost use Rattle.std.specs.List.{concat};
ghost use Rattle.std.specs.Prelude.{◌≡◌, ◌⊎◌, ◌++◌, ◌*◌, ◌^◌, ◌<◌, ◌≤◌, ℕ, length, take, replicate, slice_get, codes, decimal, string_bytes, Ok, Err, Some, None, IfOk, IfErr, IsErr, OnOk, OnErr, true, false};
ghost use Rattle.mir.specs.declared.errors.MirEvalError as error;
ghost use Rattle.mir.specs.Run.{part_outside, placed_parts};
ghost use Rattle.numbers.specs.Aggregates.{repeated, with_part};
ghost use Rattle.numbers.specs.Bytes.{low_bytes};
ghost use Rattle.mir_mem.specs.Construction.{constructed, placed_at, tag_outside, tag_place, with_tag};

use crate::area::write_part;
use crate::pieces::{append, copy_of, whole};
use crate::{Memory, View};
use mir::MirEvalError;
use std::alloc::{AllocError, Global};
use world::{Bytes, List, NoMemory, Text};

/// What the values of a variant look like in memory.
#[derive(Debug, Drop)]
pub struct VariantShape {
    /// In bytes.
    pub size: u64,
    /// Where each field begins.
    pub offsets: List<u64>,
    /// What tells the variant from others.
    pub tag: Option<TagBytes>,
}

/// A number that tells a variant from others.
#[derive(Clone, Copy, PartialEq, Eq, Debug)]
pub struct TagBytes {
    pub offset: u64,
    /// In bytes.
    pub size: u64,
    pub value: i128,
}

/// That many zeros.
pub fn zeros(alloc: Global, size: u64) -> Result<Vec<u8>, NoMemory>
    ensures { IfOk result (λ zeros. zeros.items ≡ replicate size 0) }
{
    let zeros = vec![in alloc; 0; size as usize]?;
    Ok(zeros)
}

/// Puts bytes from an offset on, if they end inside; returns whether they do.
#[tactic(auto, unfolding(numbers::specs::Aggregates::with_part, mir::specs::Areas::with_part))]
pub fn put_part(all: &mut [u8], offset: u64, part: &[u8]) -> bool
    ensures written { OnTrue result (with_part offset part.now all.old ≡ Some all.new) }
    ensures refused { OnFalse result (with_part offset part.now all.old ≡ None) }
    ensures kept { OnFalse result (all.new ≡ all.old) }
{
    write_part(all, offset, part)
}

/// Puts the bytes of a view from an offset on, if they end inside; returns whether they do.
pub fn put_view(
    alloc: Global,
    all: &mut [u8],
    offset: u64,
    view: &View<'_>,
) -> Result<bool, NoMemory>
    ensures written { result ≡ Ok true → with_part offset (concat view.now) all.old ≡ Some all.new }
    ensures refused { result ≡ Ok false → with_part offset (concat view.now) all.old ≡ None }
{
    match whole(view) {
        Some(bytes) => Ok(put_part(all, offset, bytes)),
        None => {
            let bytes = copy_of(alloc, view)?;
            Ok(put_part(all, offset, bytes.as_slice()))
        }
    }
}

/// The bytes of a view again and again, one behind another.
pub fn repeat(alloc: Global, view: &View<'_>, count: u128) -> Result<Bytes, NoMemory>
    ensures { IfOk result (λ all. all ≡ repeated count (concat view.now)) }
{
    let mut all = Vec::new(alloc);
    if view.len() == 0 {
        return Ok(Bytes::from_vec(all));
    }
    let mut left = count;
    while left > 0 {
        append(&mut all, view)?;
        left -= 1;
    }
    Ok(Bytes::from_vec(all))
}

/// Whether so many bytes, `count` times, are more than the stack has, and more than the heap.
pub fn is_too_long<M: Memory>(memory: &M, size: u64, count: u128) -> bool
    ensures yes { OnTrue result ((length (M.areas memory.now).stack < count * size) × (length (M.areas memory.now).heap < count * size)) }
    ensures no { OnFalse result (count * size ≤ 2 ^ 60) }
{
    let room = memory.stack_taken().max(memory.heap_taken()) + 1;
    match count.checked_mul(size as u128) {
        Some(all) => all > room as u128,
        None => true,
    }
}

/// The error with this text, or want of memory where there is no text.
fn internal_as(alloc: Global, text: Result<String, AllocError>) -> MirEvalError
    ensures text { IfOk text (λ text. (result ≡ error.NoMemory) ⊎ (result ≡ error.InternalError (string_bytes text))) }
    ensures none { IsErr text → result ≡ error.NoMemory }
{
    match text {
        Ok(text) => match Text::from_str(alloc, text.as_str()) {
            Ok(text) => MirEvalError::InternalError(text),
            Err(_) => MirEvalError::NoMemory,
        },
        Err(_) => MirEvalError::NoMemory,
    }
}

/// A number in decimal digits, with its sign.
fn decimal_text(alloc: Global, value: i128) -> Result<String, AllocError>
    ensures { IfOk result (λ text. string_bytes text ≡ signed_decimal value) }
{
    value.to_string(alloc)
}

/// How an error names the place of a tag.
fn tag_place(alloc: Global, offset: u64, size: u64) -> Result<String, AllocError>
    ensures { IfOk result (λ text. string_bytes text ≡ tag_place offset size) }
{
    format!(in alloc; "encoded tag ({offset}, {size}")
}

/// What the error says of a tag at a place that doesn't end inside its value.
fn outside_text(alloc: Global, place: &str, value: &str, size: u64) -> Result<String, AllocError>
    ensures { IfOk result (λ text. string_bytes text ≡ place.now ++ (codes ", " ++ (value.now ++ (codes ") is out of bounds 0.." ++ decimal size)))) }
{
    format!(in alloc; "{place}, {value}) is out of bounds 0..{size}")
}

/// The error of a tag that doesn't end inside its value.
fn tag_outside(alloc: Global, offset: u64, size: u64, value: i128) -> MirEvalError
    ensures { (result ≡ error.NoMemory) ⊎ (result ≡ tag_outside offset size value) }
{
    let Ok(place) = tag_place(alloc, offset, size) else {
        return MirEvalError::NoMemory;
    };
    let Ok(value) = decimal_text(alloc, value) else {
        return MirEvalError::NoMemory;
    };
    internal_as(
        alloc,
        outside_text(alloc, place.as_str(), value.as_str(), size),
    )
}

/// The error of a field that doesn't end inside its value.
pub fn part_outside(alloc: Global, size: u64, offset: u64) -> MirEvalError
    ensures { (result ≡ error.NoMemory) ⊎ (result ≡ part_outside size offset) }
{
    internal_as(
        alloc,
        format!(in alloc; "field offset ({offset}) is out of bounds 0..{size}"),
    )
}

/// The bytes of a number in two's complement, the lowest first.
fn digits_of(value: i128) -> [u8; 16]
    ensures { (size : ℕ) → size ≤ 16 → take size result ≡ low_bytes size value }
{
    value.cast_unsigned().to_le_bytes()
}

/// Puts a tag at its offset.
fn put_some_tag(alloc: Global, all: &mut [u8], tag: TagBytes) -> Result<(), MirEvalError>
    requires { tag.size ≤ 16 }
    ensures ok { OnOk result (with_tag (Some tag) all.old ≡ Ok all.new) }
    ensures err { IfErr result (λ e. (e ≡ error.NoMemory) ⊎ (with_tag (Some tag) all.old ≡ Err e)) }
{
    let digits = digits_of(tag.value);
    if put_part(all, tag.offset, &digits[..tag.size as usize]) {
        Ok(())
    } else {
        Err(tag_outside(alloc, tag.offset, tag.size, tag.value))
    }
}

/// Puts a tag at its offset, where there is one.
#[tactic(auto, unfolding(crate::specs::Construction::with_tag))]
fn put_tag(alloc: Global, all: &mut [u8], tag: &Option<TagBytes>) -> Result<(), MirEvalError>
    requires { ForSome tag.now (λ tag. tag.size ≤ 16) }
    ensures ok { OnOk result (with_tag tag.now all.old ≡ Ok all.new) }
    ensures err { IfErr result (λ e. (e ≡ error.NoMemory) ⊎ (with_tag tag.now all.old ≡ Err e)) }
{
    match tag {
        Some(tag) => put_some_tag(alloc, all, *tag),
        None => Ok(()),
    }
}

/// Puts a value at its offset, where it has one.
#[tactic(auto, unfolding(crate::specs::Construction::placed_at))]
fn put_value(
    alloc: Global,
    all: &mut [u8],
    shape: &VariantShape,
    i: usize,
    value: &[u8],
) -> Result<(), MirEvalError>
    ensures ok { OnOk result (placed_at shape.now.size (slice_get shape.now.offsets i) value.now all.old ≡ Ok all.new) }
    ensures err { IfErr result (λ e. (e ≡ error.NoMemory) ⊎ (placed_at shape.now.size (slice_get shape.now.offsets i) value.now all.old ≡ Err e)) }
{
    match shape.offsets.get(i as u64) {
        Some(offset) => {
            if put_part(all, *offset, value) {
                Ok(())
            } else {
                Err(part_outside(alloc, shape.size, *offset))
            }
        }
        None => Err(internal_as(alloc, String::from_str(alloc, "field without offset"))),
    }
}

/// Puts each value at its offset, in order.
fn put_values(
    alloc: Global,
    all: &mut [u8],
    shape: &VariantShape,
    values: &[Bytes],
) -> Result<(), MirEvalError>
    ensures ok { OnOk result (placed_parts shape.now.size shape.now.offsets values.now all.old ≡ Ok all.new) }
    ensures err { IfErr result (λ e. (e ≡ error.NoMemory) ⊎ (placed_parts shape.now.size shape.now.offsets values.now all.old ≡ Err e)) }
{
    let mut i: usize = 0;
    while i < values.len() {
        match put_value(alloc, all, shape, i, values[i].as_slice()) {
            Ok(()) => {}
            Err(error) => return Err(error),
        }
        i += 1;
    }
    Ok(())
}

/// The bytes of a value with this shape, whose fields have these values. It is zero where neither the tag nor a field stands. A tag or a
/// field that doesn't end inside is an `InternalError`, and so is a value for which the shape has no offset; without memory, as for a
/// size that none can have, it is `NoMemory`.
#[tactic(auto, unfolding(crate::specs::Construction::constructed))]
pub fn construct_with_layout(
    alloc: Global,
    shape: &VariantShape,
    values: &List<Bytes>,
) -> Result<Bytes, MirEvalError>
    requires { ForSome shape.now.tag (λ tag. tag.size ≤ 16) }
    ensures ok { IfOk result (λ bytes. constructed shape.now values.now ≡ Ok bytes) }
    ensures err { IfErr result (λ e. (e ≡ error.NoMemory) ⊎ (constructed shape.now values.now ≡ Err e)) }
{
    let Ok(mut all) = zeros(alloc, shape.size) else {
        return Err(MirEvalError::NoMemory);
    };
    match put_tag(alloc, &mut all, &shape.tag) {
        Ok(()) => {}
        Err(error) => return Err(error),
    }
    match put_values(alloc, &mut all, shape, values.as_slice()) {
        Ok(()) => Ok(Bytes::from_vec(all)),
        Err(error) => Err(error),
    }
}
