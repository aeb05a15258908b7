//! Layouts.

ghost use Rattle.json_items.specs.Layouts.{tag_encoding_of, tag_encoding_niche_of, multi_layout_of, variants_of, layout_of};

use crate::JsonItems;
use json_kit::{
    Fields, FromJson, NotAWorld, here, members_of, optional, required, variant_of, with_no_other,
};
use serde_json::Value;
use std::alloc::Global;
use world::{Layout, MultiLayout, TagEncoding, Variants};

impl FromJson<JsonItems> for TagEncoding {
    ghost reads = { tag_encoding_of };

    #[tactic(auto, unfolding(crate::specs::Layouts::tag_encoding_of))]
    fn from_json(alloc: Global, tree: &Value) -> Result<TagEncoding, NotAWorld> {
        let variant = variant_of(alloc, tree)?;
        if variant.is("Direct") {
            return Ok(TagEncoding::Direct);
        }
        if let Some(value) = variant.fields::<TagEncodingNicheFields>(alloc, "Niche")? {
            return Ok(value);
        }
        Err(here(alloc))
    }
}

/// The fields of `TagEncoding::Niche`.
pub(crate) struct TagEncodingNicheFields;

impl Fields for TagEncodingNicheFields {
    type Whole = TagEncoding;

    ghost reads = { tag_encoding_niche_of };

    #[tactic(auto, unfolding(crate::specs::Layouts::tag_encoding_niche_of))]
    fn read(alloc: Global, tree: &Value) -> Result<TagEncoding, NotAWorld> {
        let members = members_of(alloc, tree)?;
        let untagged_variant = required(alloc, tree, "untagged_variant")?;
        let niche_first = required(alloc, tree, "niche_first")?;
        let niche_last = required(alloc, tree, "niche_last")?;
        let niche_start = required(alloc, tree, "niche_start")?;
        let value = TagEncoding::Niche {
            untagged_variant,
            niche_first,
            niche_last,
            niche_start,
        };
        let names = [
            "untagged_variant",
            "niche_first",
            "niche_last",
            "niche_start",
        ];
        with_no_other(alloc, members, &names, value)
    }
}

impl FromJson<JsonItems> for MultiLayout {
    ghost reads = { multi_layout_of };

    #[tactic(auto, unfolding(crate::specs::Layouts::multi_layout_of))]
    fn from_json(alloc: Global, tree: &Value) -> Result<MultiLayout, NotAWorld> {
        let members = members_of(alloc, tree)?;
        let tag_offset = required(alloc, tree, "tag_offset")?;
        let tag_size = required(alloc, tree, "tag_size")?;
        let tag_signed = optional(alloc, tree, "tag_signed")?;
        let encoding = required(alloc, tree, "encoding")?;
        let variants = optional(alloc, tree, "variants")?;
        let value = MultiLayout {
            tag_offset,
            tag_size,
            tag_signed,
            encoding,
            variants,
        };
        let names = [
            "tag_offset",
            "tag_size",
            "tag_signed",
            "encoding",
            "variants",
        ];
        with_no_other(alloc, members, &names, value)
    }
}

impl FromJson<JsonItems> for Variants {
    ghost reads = { variants_of };

    #[tactic(auto, unfolding(crate::specs::Layouts::variants_of))]
    fn from_json(alloc: Global, tree: &Value) -> Result<Variants, NotAWorld> {
        let variant = variant_of(alloc, tree)?;
        if variant.is("Empty") {
            return Ok(Variants::Empty);
        }
        if let Some(part) = variant.payload(alloc, "Single")? {
            return Ok(Variants::Single(part));
        }
        if let Some(part) = variant.payload(alloc, "Multiple")? {
            return Ok(Variants::Multiple(part));
        }
        Err(here(alloc))
    }
}

impl FromJson<JsonItems> for Layout {
    ghost reads = { layout_of };

    #[tactic(auto, unfolding(crate::specs::Layouts::layout_of))]
    fn from_json(alloc: Global, tree: &Value) -> Result<Layout, NotAWorld> {
        let members = members_of(alloc, tree)?;
        let size = required(alloc, tree, "size")?;
        let align = required(alloc, tree, "align")?;
        let sized = optional(alloc, tree, "sized")?;
        let offsets = optional(alloc, tree, "offsets")?;
        let variants = required(alloc, tree, "variants")?;
        let value = Layout {
            size,
            align,
            sized,
            offsets,
            variants,
        };
        let names = ["size", "align", "sized", "offsets", "variants"];
        with_no_other(alloc, members, &names, value)
    }
}
