//! Reading values from JSON trees: objects, arrays, maps, variants, numbers and texts, and the path of
//! the first part that doesn't fit.
#![tactic(auto)]

mod choices;
mod from_json;
mod hex;
mod keys;
mod maps;
mod misfit;
mod numerals;
mod parts;
mod readers;
mod rows;
mod scalars;
mod variants;

pub use from_json::{
    Fields, FromJson, MayBeAbsent, below_item, below_key, here, inside_item, inside_key,
};
pub use keys::{members_of, optional, part_at, required, with_no_other};
pub use misfit::NotAWorld;
pub use parts::{item_at, items_at, two};
pub use readers::JsonKit;
pub use variants::{Variant, variant_of};
