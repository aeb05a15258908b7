//! Views of the bytes of a memory.

use std::marker::Model;

/// A view of bytes of a memory, in pieces. Contracts see the list of the pieces.
#[derive(Drop)]
pub struct View<'a> {
    bytes: &'a [u8],
}

impl<'a> Model for View<'a> {
    ghost use Rattle.std.specs.Prelude.{List, ℕ};
    ghost use Rattle.mir_mem.specs.Views.{pieces_of};

    ghost Value = { List (List ℕ) };

    ghost view = { λ v. pieces_of v.bytes.now };
}

impl<'a> View<'a> {
    ghost use Rattle.mir_mem.specs.Views.{pieces_of};
    ghost use Rattle.std.specs.Prelude.{◌≡◌, ◌<◌, length, slice_get, Some};
    ghost use Rattle.std.specs.List.{concat};

    /// A view of these bytes, as one piece, or as none if there are no bytes.
    #[inline]
    pub fn of(bytes: &'a [u8]) -> View<'a>
        ensures { result ≡ pieces_of bytes.now }
    {
        View { bytes }
    }

    /// The length of all pieces together.
    #[inline]
    pub fn len(&self) -> u64
        ensures { result ≡ length (concat self.now) }
    {
        self.bytes.len() as u64
    }

    /// The number of pieces.
    #[inline]
    pub fn pieces(&self) -> u64
        ensures { result ≡ length self.now }
    {
        if self.bytes.is_empty() { 0 } else { 1 }
    }

    /// The piece at index `i`.
    #[inline]
    pub fn piece(&self, i: u64) -> &[u8]
        requires { i < length self.now }
        ensures { slice_get self.now i ≡ Some result.now }
    {
        let _only = i;
        self.bytes
    }
}
