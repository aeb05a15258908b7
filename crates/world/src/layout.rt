//! How the values of a type lie in memory.

use crate::{List, NoMemory, TryClone};
use std::alloc::Global;

/// The layout of a type.
#[derive(PartialEq, Eq, PartialOrd, Ord, Hash)]
pub struct Layout {
    /// In bytes.
    pub size: u64,
    /// In bytes, a power of two.
    pub align: u64,
    /// Whether values of the type have a size that the type alone tells.
    pub sized: bool,
    /// Where each field begins.
    pub offsets: List<u64>,
    pub variants: Variants,
}

impl Drop for Layout {
    fn drop(self) {
        let Layout {
            size: _size,
            align: _align,
            sized: _sized,
            offsets: _offsets,
            variants: _variants,
        } = self;
    }
}

/// Which variants a type's values show.
#[derive(PartialEq, Eq, PartialOrd, Ord, Hash)]
pub enum Variants {
    Empty,
    Single(u32),
    Multiple(MultiLayout),
}

impl Drop for Variants {
    fn drop(self) {
        match self {
            Variants::Single(_part) => {}
            Variants::Multiple(_part) => {}
            Variants::Empty => {}
        }
    }
}

/// How a tag tells the variants of an enum apart.
#[derive(PartialEq, Eq, PartialOrd, Ord, Hash)]
pub struct MultiLayout {
    pub tag_offset: u64,
    /// In bytes.
    pub tag_size: u64,
    pub tag_signed: bool,
    pub encoding: TagEncoding,
    /// Where each field of each variant begins.
    pub variants: List<List<u64>>,
}

impl Drop for MultiLayout {
    fn drop(self) {
        let MultiLayout {
            tag_offset: _tag_offset,
            tag_size: _tag_size,
            tag_signed: _tag_signed,
            encoding: _encoding,
            variants: _variants,
        } = self;
    }
}

/// What a tag's number means.
#[derive(Clone, Copy, PartialEq, Eq, PartialOrd, Ord, Hash)]
pub enum TagEncoding {
    Direct,
    Niche {
        untagged_variant: u32,
        niche_first: u32,
        niche_last: u32,
        niche_start: u128,
    },
}

impl TryClone for Layout {
    fn try_clone(&self, alloc: Global) -> Result<Layout, NoMemory> {
        Ok(Layout {
            size: self.size,
            align: self.align,
            sized: self.sized,
            offsets: self.offsets.try_clone(alloc)?,
            variants: self.variants.try_clone(alloc)?,
        })
    }
}

impl TryClone for Variants {
    fn try_clone(&self, alloc: Global) -> Result<Variants, NoMemory> {
        match self {
            Variants::Empty => Ok(Variants::Empty),
            Variants::Single(variant) => Ok(Variants::Single(*variant)),
            Variants::Multiple(multiple) => Ok(Variants::Multiple(multiple.try_clone(alloc)?)),
        }
    }
}

impl TryClone for MultiLayout {
    fn try_clone(&self, alloc: Global) -> Result<MultiLayout, NoMemory> {
        Ok(MultiLayout {
            tag_offset: self.tag_offset,
            tag_size: self.tag_size,
            tag_signed: self.tag_signed,
            encoding: self.encoding,
            variants: self.variants.try_clone(alloc)?,
        })
    }
}
