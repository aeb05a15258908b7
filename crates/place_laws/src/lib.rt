//! Laws about places, for those who read what a field is and what an assignment writes. The meaning stands in the crate `source_meaning`;
//! the functions here have no code: each is a law about it.
#![tactic(auto)]

ghost use Rattle.place_laws.specs.Bounds.{OutOfBoundsIsNowhere};
ghost use Rattle.place_laws.specs.Literals.{LiteralsGiveTheirFields, LiteralsUseEachField, UpdatesGiveTheirFields, UpdatesUseEachField};
ghost use Rattle.place_laws.specs.Parts.{FieldsAreParts, PartsAreRead, StructsHaveTheirFields, TuplesHaveTheirParts};
ghost use Rattle.place_laws.specs.Writes.{WritesAreRead, WritesKeepOthers, WritesKeepTheRest};

/// The bytes of a field lie in those of its base, from the field's offset on.
pub fn fields_are_parts()
    ensures { FieldsAreParts }
{}

/// Each part of a tuple's value is read where it was put, if no two parts share a byte.
pub fn parts_are_read()
    ensures { PartsAreRead }
{}

/// The field of a tuple at an index is the part that the tuple was made of at that index, if no two parts share a byte.
pub fn tuples_have_their_parts()
    ensures { TuplesHaveTheirParts }
{}

/// Each field of a struct is the part that the struct was made of for it, if no two parts share a byte.
pub fn structs_have_their_fields()
    ensures { StructsHaveTheirFields }
{}

/// What a struct literal puts into each field of its struct is the operand of a written field of that name.
pub fn literals_give_their_fields()
    ensures { LiteralsGiveTheirFields }
{}

/// Where the fields of a struct have names of their own, each field that is written in its literal goes into one of them.
pub fn literals_use_each_field()
    ensures { LiteralsUseEachField }
{}

/// What a struct literal with a base puts into each field of its struct is the written field of that name, or else that field of the base.
pub fn updates_give_their_fields()
    ensures { UpdatesGiveTheirFields }
{}

/// Where the fields of a struct have names of their own, each value that is written in a literal with a base goes into one of them.
pub fn updates_use_each_field()
    ensures { UpdatesUseEachField }
{}

/// A place that is out of bounds has no bytes, and none can be put there.
pub fn out_of_bounds_is_nowhere()
    ensures { OutOfBoundsIsNowhere }
{}

/// What is put at a place lies there afterwards, where the place isn't in the cell of an index.
pub fn writes_are_read()
    ensures { WritesAreRead }
{}

/// What is put at a place changes no other byte of the place's cell.
pub fn writes_keep_the_rest()
    ensures { WritesKeepTheRest }
{}

/// A part that lies apart from a place in its cell, which isn't that of an index, has the same bytes after something was put at the place.
pub fn writes_keep_others()
    ensures { WritesKeepOthers }
{}
