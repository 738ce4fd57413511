//! Columns that name states by their places in the list of states, so that they are compared as
//! numbers.

use flow_graph::Edge;
use listed::ListedNumbers;
use scheduler_moves::MoveLabel;

/// A move out of a listed state, with the numbers of the states before it and after it.
#[derive(Clone, Copy, Debug)]
pub(crate) struct NumberedMove {
    pub(crate) from: usize,
    pub(crate) label: MoveLabel,
    pub(crate) to: usize,
}

pub(crate) type NumberedMoves = ListedNumbers<NumberedMove>;

/// A start of an activation: a mode, with the number of the state in which it starts, or a move.
#[derive(Clone, Copy, Debug)]
pub(crate) enum NumberedStart {
    In { mode: usize, after: usize },
    By { going: NumberedMove },
}

pub(crate) type NumberedStarts = ListedNumbers<NumberedStart>;

/// An edge of a node, by its place among the edges of the node.
#[derive(Clone, Copy, Debug)]
pub(crate) struct NumberedEdge {
    pub(crate) node: usize,
    pub(crate) place: usize,
    pub(crate) edge: Edge,
}

/// A column: a start, a move, an edge, the number of a block that is begun, or that of a node at
/// which a context stands.
#[derive(Clone, Copy, Debug)]
pub(crate) enum NumberedColumn {
    Starts { start: NumberedStart },
    Moves { going: NumberedMove },
    Goes { along: NumberedEdge },
    Begins { block: usize },
    Stands { node: usize },
}

pub(crate) type NumberedColumns = ListedNumbers<NumberedColumn>;
