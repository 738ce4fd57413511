//! The back edges of loop instances, which are looked up for each edge.

ghost use Rattle.std.specs.Prelude.{◌≡◌, [], ◌∷◌, IfOk, OnOk};
ghost use Rattle.std.specs.List.{list_any};
ghost use Rattle.row_build.specs.Families as families;
ghost use Rattle.row_build.specs.Working.Backs.{AddsEdges, AreBacks};
ghost use Rattle.row_build.specs.Working.Numbered.{along_of};

use crate::numbered::NumberedEdge;
use listed::Memory;
use std::alloc::Global;
use std::collections::BTreeSet;
use wcet_atomic_blocks::{EdgeId, LoopInstance};

/// Edges, each by its node and its place among the edges of that.
pub(crate) type BackEdges = BTreeSet<(usize, usize)>;

/// The back edges of all instances.
pub(crate) fn back_edges(alloc: Global, instances: &[LoopInstance]) -> Result<BackEdges, Memory>
    ensures { IfOk result (λ backs. AreBacks backs instances.now) }
{
    let mut backs = BTreeSet::new(alloc);
    for number in 0..instances.len() {
        add_backs(instances[number].backs.as_slice(), &mut backs)?;
    }
    Ok(backs)
}

fn add_backs(edges: &[EdgeId], backs: &mut BackEdges) -> Result<(), Memory>
    ensures { OnOk result (AddsEdges edges.now backs.old backs.new) }
{
    for number in 0..edges.len() {
        add_back(edges[number], backs)?;
    }
    Ok(())
}

fn add_back(edge: EdgeId, backs: &mut BackEdges) -> Result<(), Memory>
    ensures { OnOk result (AddsEdges (edge ∷ []) backs.old backs.new) }
{
    let _added = backs.insert((edge.node, edge.i))?;
    Ok(())
}

/// Whether going along the edge is going round in a loop.
pub(crate) fn is_back(backs: &BackEdges, instances: &[LoopInstance], along: NumberedEdge) -> bool
    requires { AreBacks backs.now instances.now }
    ensures { result ≡ list_any (λ instance. families.is_listed_edge instance.backs (along_of along))
        instances.now }
{
    let _ = instances;
    backs.contains(&(along.node, along.place))
}
