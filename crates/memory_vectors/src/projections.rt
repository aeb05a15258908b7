//! Projections by themselves: the ids that a store gives them, and the types that their elements lead to. The program asks
//! for no type of an element, and for no id of a projection that a store may lack.

use mir::{Interner, PlaceElem, ProjectionElem, ProjectionId, ProjectionStore};
use std::alloc::Global;
use std::test::Fail;
use world::{Box, Crate, HirDatabase, List, Mutability, NoMemory, Ty, UintTy, usize_const};

/// The projection that follows so many references.
fn following(alloc: Global, references: usize) -> Result<List<PlaceElem>, NoMemory> {
    let mut elements = List::new(alloc);
    for _ in 0..references {
        elements.push(ProjectionElem::Deref)?;
    }
    Ok(elements)
}

/// The id that a store of few projections gives one.
fn intern(store: &mut ProjectionStore, projection: List<PlaceElem>) -> Result<ProjectionId, Fail> {
    if store.count() > 10 {
        return Err(Fail::new("a projection has got several ids"));
    }
    Ok(store.intern(projection)?)
}

/// The id that a store of few projections gives the empty one behind which a reference is followed.
fn project(store: &mut ProjectionStore) -> Result<ProjectionId, Fail> {
    if store.count() > 10 {
        return Err(Fail::new("a projection has got several ids"));
    }
    Ok(ProjectionId::EMPTY.project(ProjectionElem::Deref, store)?)
}

#[test]
fn a_projection_has_one_id(rt: HostRuntime) -> Result<(), Fail> {
    let alloc = rt.alloc();
    let mut store = ProjectionStore::new(alloc)?;
    let interned = intern(&mut store, following(alloc, 1)?)?;
    let projected = project(&mut store)?;
    let empty = intern(&mut store, List::new(alloc))?;
    let twice = following(alloc, 2)?;
    assert_eq!(rt; interned, ProjectionId(1));
    assert_eq!(rt; projected, ProjectionId(1));
    assert_eq!(rt; empty, ProjectionId::EMPTY);
    assert_eq!(rt; store.intern_if_exist(twice.as_slice()), None);
    Ok(())
}

/// The type that an element leads to from a place of the type `base`, in a world without rows.
fn leads_to(alloc: Global, element: PlaceElem, base: &Ty) -> Result<Ty, NoMemory> {
    let db = HirDatabase::new(alloc);
    element.projected_ty(
        alloc,
        &db,
        base,
        |_id, _args, _index| Ok(Ty::Error),
        Crate(0),
    )
}

/// The type of arrays of so many numbers of the type `u8`.
fn bytes(alloc: Global, count: u128) -> Result<Ty, NoMemory> {
    let db = HirDatabase::new(alloc);
    let len = usize_const(alloc, &db, Some(count), Crate(0))?;
    let element = Box::new(alloc, Ty::Uint(UintTy::U8))?;
    Ok(Ty::Array(element, Box::new(alloc, len)?))
}

#[test]
fn a_reference_leads_to_what_it_refers_to(rt: HostRuntime) -> Result<(), Fail> {
    let alloc = rt.alloc();
    let to = Box::new(alloc, Ty::Uint(UintTy::U8))?;
    let reference = Ty::Ref(to, Mutability::Not);
    let found = leads_to(alloc, ProjectionElem::Deref, &reference)?;
    assert!(rt; found == Ty::Uint(UintTy::U8));
    Ok(())
}

#[test]
fn a_slice_of_an_array_is_as_long_as_what_is_left(rt: HostRuntime) -> Result<(), Fail> {
    let alloc = rt.alloc();
    let inner = ProjectionElem::Subslice { from: 1, to: 1 };
    let found = leads_to(alloc, inner, &bytes(alloc, 4)?)?;
    assert!(rt; found == bytes(alloc, 2)?);
    Ok(())
}
