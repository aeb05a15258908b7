//! The marker type of this crate.

/// The parameter of `FromJson` in this crate's impls: an impl of another crate's trait has to name a type
/// of its own crate, and most types that are read are from another crate too.
pub struct WorldJson;
