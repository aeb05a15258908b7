//! What a typed body means, by evaluating its tree of expressions. The definitions stand in `specs/`; the
//! functions here have no code: each is a law about the definitions.
#![tactic(auto)]

ghost use Rattle.source_meaning.specs.Laws.{MoreFuelChangesNothing, PlainIsNeverStuck, PlainJumpsNowhere, BodiesGoOn, PlainIsBuilt, CostsAdd, ScopesNest, CostIsDefined, LayoutsAreTested};

/// More fuel changes no end.
pub fn more_fuel_changes_nothing()
    ensures { MoreFuelChangesNothing }
{}

/// A body of a checked world, in which tuples, arrays and structs have room for their parts, always has a meaning, if it is plain, as those that it
/// calls. Where a type that a body needs has no layout, its meaning is that it can't be entered.
pub fn plain_is_never_stuck()
    ensures { PlainIsNeverStuck }
{}

/// A body as in `plain_is_never_stuck` never ends in a jump.
pub fn plain_jumps_nowhere()
    ensures { PlainJumpsNowhere }
{}

/// A body whose expressions stand after their operands ends, or goes on for as many blocks as one likes.
pub fn bodies_go_on()
    ensures { BodiesGoOn }
{}

/// A plain expression has a form that is built.
pub fn plain_is_built()
    ensures { PlainIsBuilt }
{}

/// Costs add up in any grouping.
pub fn costs_add()
    ensures { CostsAdd }
{}

/// The scopes that are open after events depend on them in order, and an expression closes what it opens.
pub fn scopes_nest()
    ensures { ScopesNest }
{}

/// When the cost of a body is defined.
pub fn cost_is_defined()
    ensures { CostIsDefined }
{}

/// When the types that a body needs have layouts, so that it can be entered.
pub fn layouts_are_tested()
    ensures { LayoutsAreTested }
{}
