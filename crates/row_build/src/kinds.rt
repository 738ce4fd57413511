//! Rows by what they are of.

use listed::ListedNumbers;

/// Of what a row is. States, nodes, blocks, loop instances and sources are named by their numbers,
/// contexts by their places among all contexts.
#[derive(Clone, Copy, Debug)]
pub(crate) enum RowKind {
    OneStart,
    Leaves {
        state: usize,
    },
    Passes {
        node: usize,
    },
    StandsByStart {
        place: usize,
        node: usize,
    },
    StandsInto {
        place: usize,
        node: usize,
    },
    StandsOnce {
        place: usize,
    },
    BeginsByMove {
        block: usize,
        owner: usize,
        after: Option<usize>,
    },
    BeginsInto {
        block: usize,
        owner: usize,
    },
    GoesRound {
        instance: usize,
    },
    ArrivesApart {
        source: usize,
    },
    ArrivesOnce {
        source: usize,
    },
}

pub(crate) type RowKinds = ListedNumbers<RowKind>;
