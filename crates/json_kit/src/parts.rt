//! Lists, pairs, triples and options.

ghost use Rattle.std.specs.Prelude.{[], None};
ghost use Rattle.serde_json.specs.Find.{as_array};
ghost use Rattle.serde_json.specs.View.{view, items_view};
ghost use Rattle.json_kit.specs.Fit.{Gives, GivesBy, below, found, item_step};
ghost use Rattle.json_kit.specs.Parts.{items_from, list_of, option_of, pair_of, three_items, three_of, triple_of, two_items, two_of};

use crate::NotAWorld;
use crate::from_json::{FromJson, MayBeAbsent, here, inside_item};
use serde_json::Value;
use std::alloc::Global;
use types::List;

/// The values of an array's items.
fn items_of<By, T: FromJson<By> + Drop>(
    alloc: Global,
    items: &[Value],
) -> Result<List<T>, NotAWorld>
    ensures { Gives result (items_from T.reads 0 (items_view items.now)) }
{
    let mut list = List::new(alloc);
    for (place, item) in items.iter().enumerate() {
        let x = item_at(alloc, item, place)?;
        list.push(x)?;
    }
    Ok(list)
}

/// The value of the item at an index of an array.
#[tactic(auto, using(crate::proofs::Faults::inside_gives))]
pub fn item_at<By, T: FromJson<By>>(
    alloc: Global,
    item: &Value,
    place: usize,
) -> Result<T, NotAWorld>
    ensures { Gives result (below (item_step place) (T.reads (view item.now))) }
{
    inside_item(alloc, place, T::from_json(alloc, item))
}

impl<By, T: FromJson<By> + Drop> FromJson<By> for List<T> {
    ghost reads = { list_of T.reads };

    fn from_json(alloc: Global, tree: &Value) -> Result<List<T>, NotAWorld> {
        items_of(alloc, items_at(alloc, tree)?)
    }
}

impl<By, T> MayBeAbsent<By> for List<T> {
    ghost left_out = { [] };

    fn absent(alloc: Global) -> List<T> {
        List::new(alloc)
    }
}

impl<By, T: FromJson<By> + Drop> FromJson<By> for Option<T> {
    ghost reads = { option_of T.reads };

    fn from_json(alloc: Global, tree: &Value) -> Result<Option<T>, NotAWorld> {
        if tree.is_null() {
            Ok(None)
        } else {
            let x = T::from_json(alloc, tree)?;
            Ok(Some(x))
        }
    }
}

impl<By, T> MayBeAbsent<By> for Option<T> {
    ghost left_out = { None };

    fn absent(_alloc: Global) -> Option<T> {
        None
    }
}

/// The items of a tree that has to be an array.
pub fn items_at(alloc: Global, tree: &Value) -> Result<&[Value], NotAWorld>
    ensures { GivesBy (λ items. items_view items.now) result (found (as_array (view tree.now))) }
{
    let items = tree.as_array().ok_or_else(|| here(alloc))?;
    Ok(items.as_slice())
}

/// The items of a tree that has to be an array of two.
pub fn two<'a>(alloc: Global, tree: &'a Value) -> Result<(&'a Value, &'a Value), NotAWorld>
    ensures { GivesBy (λ both. (view both.0.now, view both.1.now)) result (two_of (view tree.now)) }
{
    both(alloc, items_at(alloc, tree)?)
}

/// The two items, if there are exactly two.
#[tactic(auto, using(crate::proofs::Arrays::two_some, crate::proofs::Arrays::two_none))]
fn both(alloc: Global, items: &[Value]) -> Result<(&Value, &Value), NotAWorld>
    ensures { GivesBy (λ both. (view both.0.now, view both.1.now)) result (found (two_items (items_view items.now))) }
{
    if items.len() == 2 {
        Ok((&items[0], &items[1]))
    } else {
        Err(here(alloc))
    }
}

impl<F, G, A: FromJson<F> + Drop, B: FromJson<G> + Drop> FromJson<(F, G)> for (A, B) {
    ghost reads = { pair_of A.reads B.reads };

    #[tactic(auto, unfolding(crate::specs::Parts::pair_of))]
    fn from_json(alloc: Global, tree: &Value) -> Result<(A, B), NotAWorld> {
        let (first, second) = two(alloc, tree)?;
        let x = item_at(alloc, first, 0)?;
        let y = item_at(alloc, second, 1)?;
        Ok((x, y))
    }
}

/// The items of a tree that has to be an array of three.
fn three<'a>(alloc: Global, tree: &'a Value) -> Result<(&'a Value, &'a Value, &'a Value), NotAWorld>
    ensures { GivesBy (λ all. (view all.0.now, view all.1.now, view all.2.now)) result (three_of (view tree.now)) }
{
    all_three(alloc, items_at(alloc, tree)?)
}

/// The three items, if there are exactly three.
#[tactic(auto, using(crate::proofs::Arrays::three_some, crate::proofs::Arrays::three_none))]
fn all_three(alloc: Global, items: &[Value]) -> Result<(&Value, &Value, &Value), NotAWorld>
    ensures { GivesBy (λ all. (view all.0.now, view all.1.now, view all.2.now)) result (found (three_items (items_view items.now))) }
{
    if items.len() == 3 {
        Ok((&items[0], &items[1], &items[2]))
    } else {
        Err(here(alloc))
    }
}

impl<F, G, H, A: FromJson<F> + Drop, B: FromJson<G> + Drop, C: FromJson<H> + Drop> FromJson<
    (F, G, H),
> for (A, B, C) {
    ghost reads = { triple_of A.reads B.reads C.reads };

    #[tactic(auto, unfolding(crate::specs::Parts::triple_of))]
    fn from_json(alloc: Global, tree: &Value) -> Result<(A, B, C), NotAWorld> {
        let (first, second, third) = three(alloc, tree)?;
        let x = item_at(alloc, first, 0)?;
        let y = item_at(alloc, second, 1)?;
        let z = item_at(alloc, third, 2)?;
        Ok((x, y, z))
    }
}
