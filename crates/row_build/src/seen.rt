//! What is seen of the rows of nodes: the entries of each, as far as there are two at most.

ghost use Rattle.std.specs.Prelude.{◌≡◌, ◌==◌};
ghost use Rattle.row_build.specs.Working.Seen as words;

use row_squeeze::Link;

/// What an entry of a node's row is: 1 at an edge by which no loop is gone round, -1 at an edge, or
/// something else.
#[derive(Clone, Copy, Debug)]
pub(crate) enum EntryKind {
    Outgoing,
    Incoming,
    Other,
}

/// An entry that isn't 0, by the place of its column.
#[derive(Clone, Copy, Debug)]
pub(crate) struct SeenEntry {
    pub(crate) place: usize,
    pub(crate) kind: EntryKind,
}

/// The entries of a row that aren't 0, in order, unless there are more than two.
#[derive(Clone, Copy, Debug)]
pub(crate) enum Seen {
    Nothing,
    One { first: SeenEntry },
    Two { first: SeenEntry, second: SeenEntry },
    More,
}

impl Seen {
    /// With one more entry.
    fn with(self, entry: SeenEntry) -> Seen
        ensures { result ≡ words.with_entry self entry }
    {
        match self {
            Seen::Nothing => Seen::One { first: entry },
            Seen::One { first } => Seen::Two {
                first,
                second: entry,
            },
            Seen::Two { .. } | Seen::More => Seen::More,
        }
    }

    /// The link of a row with these entries.
    pub(crate) fn link(self) -> Option<Link>
        ensures { result ≡ words.link_of_seen self }
    {
        match self {
            Seen::Two { first, second } => link_of_two(first, second),
            _ => None,
        }
    }
}

/// The link of a row of just these two entries, in whichever order they stand.
fn link_of_two(first: SeenEntry, second: SeenEntry) -> Option<Link>
    ensures { result ≡ words.link_of_two first second }
{
    match link_of_pair(first, second) {
        Some(link) => Some(link),
        None => link_of_pair(second, first),
    }
}

/// The link of an outgoing entry and an incoming one, if they are that.
fn link_of_pair(outgoing: SeenEntry, incoming: SeenEntry) -> Option<Link>
    ensures { result ≡ words.link_of_marked outgoing incoming }
{
    match (outgoing.kind, incoming.kind) {
        (EntryKind::Outgoing, EntryKind::Incoming) => Some(Link {
            outgoing: outgoing.place,
            incoming: incoming.place,
        }),
        _ => None,
    }
}

/// Sees the entry at the node, if it exists.
pub(crate) fn see(seen: &mut [Seen], node: usize, entry: SeenEntry)
    ensures { words.Sees (λ other. node == other) entry seen.old seen.new }
{
    if node < seen.len() {
        seen[node] = seen[node].with(entry);
    }
}
