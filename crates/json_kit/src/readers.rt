//! The marker type of this crate.

/// The parameter of `FromJson` in this crate's impls. Each crate that reads types of another crate has
/// such a marker, since an impl of another crate's trait has to name a type of its own crate.
pub struct JsonKit;
