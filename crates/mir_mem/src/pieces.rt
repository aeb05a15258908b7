//! Views of bytes as one list: as they lie, or gathered from their pieces.

ghost use Rattle.std.specs.Prelude.{◌≡◌, ◌+◌, ◌++◌, ◌<◌, ◌≤◌, length, take, IfNone, IfOk, IfSome, OnOk};
ghost use Rattle.std.specs.List.{concat};

use crate::View;
use std::alloc::Global;
use world::{Bytes, NoMemory};

/// Bytes that were gathered: the first `count` of `room`.
#[derive(Clone, Copy)]
pub struct Gathered {
    pub room: [u8; 16],
    pub count: usize,
    ghost fits: { count ≤ 16 },
}

impl Gathered {
    /// The bytes.
    pub fn bytes(&self) -> &[u8]
        ensures { result.now ≡ take self.now.count self.now.room }
    {
        &self.room[..self.count]
    }
}

/// The bytes of a view that lies in one piece.
#[inline(always)]
#[tactic(auto, using(crate::proofs::Joined::concat_of_one))]
pub fn whole<'r>(view: &'r View<'_>) -> Option<&'r [u8]>
    ensures { IfSome result (λ bytes. bytes.now ≡ concat view.now) }
{
    if view.pieces() == 1 {
        Some(view.piece(0))
    } else {
        None
    }
}

/// Puts bytes behind the first `count` of `room`.
fn put(room: &mut [u8; 16], count: usize, bytes: &[u8])
    requires { count + length bytes.now ≤ 16 }
    ensures { take (count + length bytes.now) room.new ≡ take count room.old ++ bytes.now }
{
    room[count..count + bytes.len()].copy_from_slice(bytes);
}

/// The bytes of a view, however many pieces it has, if there are at most 16.
pub fn gather(view: &View<'_>) -> Option<Gathered>
    ensures some { IfSome result (λ all. take all.count all.room ≡ concat view.now) }
    ensures none { IfNone result (16 < length (concat view.now)) }
{
    if view.len() > 16 {
        return None;
    }
    let mut room: [u8; 16] = [0; 16];
    let mut count: usize = 0;
    let mut i: u64 = 0;
    while i < view.pieces() {
        let piece = view.piece(i);
        put(&mut room, count, piece);
        count += piece.len();
        i += 1;
    }
    Some(Gathered { room, count })
}

/// Appends the bytes of a view to others.
pub fn append(all: &mut Vec<u8>, view: &View<'_>) -> Result<(), NoMemory>
    ensures { OnOk result (all.new.items ≡ all.old.items ++ concat view.now) }
{
    let mut i: u64 = 0;
    while i < view.pieces() {
        all.extend_from_slice(view.piece(i))?;
        i += 1;
    }
    Ok(())
}

/// A copy of the bytes of a view.
pub fn copy_of(alloc: Global, view: &View<'_>) -> Result<Bytes, NoMemory>
    ensures { IfOk result (λ copy. copy ≡ concat view.now) }
{
    let mut copy = Vec::new(alloc);
    append(&mut copy, view)?;
    Ok(Bytes::from_vec(copy))
}
