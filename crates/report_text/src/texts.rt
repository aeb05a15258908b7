//! Parts of a report: texts with separators, quoted texts, and bytes as digits.

ghost use Rattle.std.specs.Prelude.{◌≡◌, ◌++◌, [], ◌∷◌, decimal, IfOk, OnOk};
ghost use Rattle.std.specs.List.{flat_map};
ghost use Rattle.report_text.specs.Texts.{after_comma, listed, after_plus, summed, with_args, bracketed, escaped, quoted, digits_or_dash, hex_text, named};

use std::alloc::Global;
use world::{Bytes, List, NoMemory};

/// Adds bytes at the end.
pub(crate) fn push_all(out: &mut Vec<u8>, bytes: &[u8]) -> Result<(), NoMemory>
    ensures { OnOk result (out.new.items ≡ out.old.items ++ bytes.now) }
{
    out.extend_from_slice(bytes)?;
    Ok(())
}

/// Two texts, one after the other.
pub(crate) fn joined(alloc: Global, first: &[u8], second: &[u8]) -> Result<Bytes, NoMemory>
    ensures { IfOk result (λ text. text ≡ first.now ++ second.now) }
{
    let mut out = Vec::from_slice(alloc, first)?;
    push_all(&mut out, second)?;
    Ok(Bytes::from_vec(out))
}

/// A text between two others.
pub(crate) fn enclosed(
    alloc: Global,
    before: &[u8],
    text: &[u8],
    after: &[u8],
) -> Result<Bytes, NoMemory>
    ensures { IfOk result (λ whole. whole ≡ before.now ++ (text.now ++ after.now)) }
{
    let rest = joined(alloc, text, after)?;
    joined(alloc, before, rest.as_slice())
}

/// Texts, each after a comma and a space.
fn after_commas(alloc: Global, texts: &[Bytes]) -> Result<Bytes, NoMemory>
    ensures { IfOk result (λ whole. whole ≡ flat_map after_comma texts.now) }
{
    let mut out = Vec::new(alloc);
    for text in texts {
        let part = joined(alloc, b", ", text.as_slice())?;
        push_all(&mut out, part.as_slice())?;
    }
    Ok(Bytes::from_vec(out))
}

/// Texts with a comma and a space between two.
pub(crate) fn listed(alloc: Global, texts: &[Bytes]) -> Result<Bytes, NoMemory>
    ensures { IfOk result (λ whole. whole ≡ listed texts.now) }
{
    match texts {
        [] => Ok(Bytes::new(alloc)),
        [first, others @ ..] => {
            let rest = after_commas(alloc, others)?;
            joined(alloc, first.as_slice(), rest.as_slice())
        }
    }
}

/// Texts, each after a plus sign.
fn after_pluses(alloc: Global, texts: &[Bytes]) -> Result<Bytes, NoMemory>
    ensures { IfOk result (λ whole. whole ≡ flat_map after_plus texts.now) }
{
    let mut out = Vec::new(alloc);
    for text in texts {
        let part = joined(alloc, b" + ", text.as_slice())?;
        push_all(&mut out, part.as_slice())?;
    }
    Ok(Bytes::from_vec(out))
}

/// Texts with a plus sign between two.
pub(crate) fn summed(alloc: Global, texts: &[Bytes]) -> Result<Bytes, NoMemory>
    ensures { IfOk result (λ whole. whole ≡ summed texts.now) }
{
    match texts {
        [] => Ok(Bytes::new(alloc)),
        [first, others @ ..] => {
            let rest = after_pluses(alloc, others)?;
            joined(alloc, first.as_slice(), rest.as_slice())
        }
    }
}

/// A name with its arguments in angle brackets, where it has any.
pub(crate) fn with_args(alloc: Global, name: &[u8], args: &[Bytes]) -> Result<Bytes, NoMemory>
    ensures { IfOk result (λ whole. whole ≡ with_args name.now args.now) }
{
    match args {
        [] => Bytes::from_slice(alloc, name),
        [_, ..] => {
            let inside = listed(alloc, args)?;
            let enclosed = enclosed(alloc, b"<", inside.as_slice(), b">")?;
            joined(alloc, name, enclosed.as_slice())
        }
    }
}

/// Texts in brackets.
pub(crate) fn bracketed(alloc: Global, texts: &[Bytes]) -> Result<Bytes, NoMemory>
    ensures { IfOk result (λ whole. whole ≡ bracketed texts.now) }
{
    let inside = listed(alloc, texts)?;
    enclosed(alloc, b"[", inside.as_slice(), b"]")
}

/// A byte of a quoted text.
fn escaped(alloc: Global, byte: u8) -> Result<Bytes, NoMemory>
    ensures { IfOk result (λ text. text ≡ escaped byte) }
{
    if byte == 10 {
        return Bytes::from_slice(alloc, b"\\n");
    }
    if byte == 34 {
        return Bytes::from_slice(alloc, b"\\\"");
    }
    if byte == 92 {
        return Bytes::from_slice(alloc, b"\\\\");
    }
    Bytes::from_slice(alloc, &[byte])
}

/// The bytes of a quoted text.
fn all_escaped(alloc: Global, text: &[u8]) -> Result<Bytes, NoMemory>
    ensures { IfOk result (λ whole. whole ≡ flat_map escaped text.now) }
{
    let mut out = Vec::new(alloc);
    for byte in text {
        let part = escaped(alloc, *byte)?;
        push_all(&mut out, part.as_slice())?;
    }
    Ok(Bytes::from_vec(out))
}

/// A text in double quotes.
pub(crate) fn quoted(alloc: Global, text: &str) -> Result<Bytes, NoMemory>
    ensures { IfOk result (λ whole. whole ≡ quoted text.now) }
{
    let inside = all_escaped(alloc, text.as_bytes())?;
    enclosed(alloc, b"\"", inside.as_slice(), b"\"")
}

/// Bytes in hexadecimal digits, or a dash where there are none.
pub(crate) fn digits_or_dash(alloc: Global, bytes: &[u8]) -> Result<Bytes, NoMemory>
    ensures { IfOk result (λ text. text ≡ digits_or_dash bytes.now) }
{
    match bytes {
        [] => Bytes::from_slice(alloc, b"-"),
        [_, ..] => {
            let digits = hex::encode(alloc, bytes)?;
            Bytes::from_slice(alloc, digits.as_str().as_bytes())
        }
    }
}

/// Bytes in hexadecimal digits, after `0x`.
pub(crate) fn hex_text(alloc: Global, bytes: &[u8]) -> Result<Bytes, NoMemory>
    ensures { IfOk result (λ text. text ≡ hex_text bytes.now) }
{
    let digits = hex::encode(alloc, bytes)?;
    joined(alloc, b"0x", digits.as_str().as_bytes())
}

/// A name with its parts in parentheses.
fn named(alloc: Global, name: &[u8], parts: &[Bytes]) -> Result<Bytes, NoMemory>
    ensures { IfOk result (λ text. text ≡ named name.now parts.now) }
{
    let inside = listed(alloc, parts)?;
    let enclosed = enclosed(alloc, b"(", inside.as_slice(), b")")?;
    joined(alloc, name, enclosed.as_slice())
}

/// A name with its one part.
pub(crate) fn named_one(alloc: Global, name: &[u8], part: Bytes) -> Result<Bytes, NoMemory>
    ensures { IfOk result (λ text. text ≡ named name.now (part ∷ [])) }
{
    let mut parts = List::new(alloc);
    parts.push(part)?;
    named(alloc, name, parts.as_slice())
}

/// A name with its two parts.
pub(crate) fn named_two(
    alloc: Global,
    name: &[u8],
    first: Bytes,
    second: Bytes,
) -> Result<Bytes, NoMemory>
    ensures { IfOk result (λ text. text ≡ named name.now (first ∷ second ∷ [])) }
{
    let mut parts = List::new(alloc);
    parts.push(first)?;
    parts.push(second)?;
    named(alloc, name, parts.as_slice())
}

/// A word before a number.
pub(crate) fn numbered(alloc: Global, word: &[u8], number: u64) -> Result<Bytes, NoMemory>
    ensures { IfOk result (λ text. text ≡ word.now ++ decimal number) }
{
    let digits = number.to_string(alloc)?;
    joined(alloc, word, digits.as_str().as_bytes())
}
