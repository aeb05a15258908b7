//! The operands that give the fields of a struct literal with a base.

ghost use Rattle.std.specs.Prelude.{All, [], ◌∷◌, map, IfOk};
ghost use Rattle.body_forms.specs.Form.{core_source};
ghost use Rattle.mir_graph.specs.Graph.{shape};
ghost use Rattle.mir_lower.specs.Updates.{AreFound, IsAmong, IsKnown};

use body_forms::FieldSource;
use either::Either;
use mir::{Interner, Operand, OperandKind, Place, PlaceElem};
use mir_graph::Graph;
use std::alloc::Global;
use world::{List, NoMemory, TryClone};

/// The operand that gives a field: the one that is written for it, or a copy of the field of the base.
fn field_operand<I: Interner>(
    alloc: Global,
    graph: &mut Graph<I>,
    base: Place,
    source: FieldSource,
    operands: &List<Operand>,
) -> Result<Operand, NoMemory>
    requires known { IsKnown (shape I.projections graph.old) base }
    requires given { IsAmong operands.now (core_source source) }
    ensures { IfOk result (λ operand. AreFound (shape I.projections graph.old) (shape I.projections graph.new) base operands.now (core_source source ∷ []) (operand ∷ [])) }
{
    match source {
        FieldSource::Written(place) => {
            let Some(operand) = operands.get(place) else {
                unreachable!()
            };
            operand.try_clone(alloc)
        }
        FieldSource::OfBase(field) => {
            let place = graph.project(base, PlaceElem::Field(Either::Left(field)))?;
            Ok(Operand {
                kind: OperandKind::Copy(place),
                span: None,
            })
        }
    }
}

/// The operands that give the fields of a struct, in their order.
pub(crate) fn field_operands<I: Interner>(
    alloc: Global,
    graph: &mut Graph<I>,
    base: Place,
    sources: &[FieldSource],
    operands: &List<Operand>,
) -> Result<List<Operand>, NoMemory>
    requires known { IsKnown (shape I.projections graph.old) base }
    requires given { All (λ source. IsAmong operands.now (core_source source)) sources.now }
    ensures { IfOk result (λ fields. AreFound (shape I.projections graph.old) (shape I.projections graph.new) base operands.now (map core_source sources.now) fields) }
{
    let mut fields = List::new(alloc);
    for source in sources {
        let field = field_operand(alloc, graph, base, *source, operands)?;
        fields.push(field)?;
    }
    Ok(fields)
}
