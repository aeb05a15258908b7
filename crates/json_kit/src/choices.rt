//! Reading `Either`.

ghost use Rattle.json_kit.specs.Choices.{either_of};

use crate::NotAWorld;
use crate::from_json::{FromJson, here};
use crate::variants::variant_of;
use either::Either;
use serde_json::Value;
use std::alloc::Global;

impl<F, G, A: FromJson<F> + Drop, B: FromJson<G> + Drop> FromJson<(F, G)> for Either<A, B> {
    ghost reads = { either_of A.reads B.reads };

    #[tactic(auto, unfolding(crate::specs::Choices::either_of))]
    fn from_json(alloc: Global, tree: &Value) -> Result<Either<A, B>, NotAWorld> {
        let variant = variant_of(alloc, tree)?;
        if let Some(left) = variant.payload(alloc, "Left")? {
            return Ok(Either::Left(left));
        }
        if let Some(right) = variant.payload(alloc, "Right")? {
            return Ok(Either::Right(right));
        }
        Err(here(alloc))
    }
}
