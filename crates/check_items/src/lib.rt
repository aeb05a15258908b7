//! The check's tests of single rows: of items, closures, layouts, normalized types and resolved impl items.
#![tactic(auto)]

mod agree;
mod closed;
mod closures;
mod impls;
mod layouts;
mod listed;
mod names;
mod parts;

pub use agree::{has_all_params, is_closure_row};
pub use closed::{is_const_impl_closed, is_impl_closed, is_normal_closed};
pub use closures::is_closure_named;
pub use impls::{is_const_impl_named, is_impl_named, is_normal_named};
pub use layouts::is_layout_named;
pub use listed::wrong_variant;
pub use names::{
    is_const_named, is_const_param_named, is_enum_named, is_function_named, is_static_named,
    is_struct_named, is_variant_named,
};
pub use parts::is_function_known;
