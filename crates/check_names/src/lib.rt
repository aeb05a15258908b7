//! Whether all ids in types and generic arguments are in range, and the other tests of the check over
//! them.
#![tactic(auto)]

mod known;
mod mentioned;
mod test;

pub use known::{
    is_def_known, is_field_known, is_known, is_nameable, is_param_known, is_variant_known,
};
pub use mentioned::{
    are_args_closed, are_args_known, are_args_named, are_args_settled, are_tys_named, is_ty_closed,
    is_ty_named,
};
