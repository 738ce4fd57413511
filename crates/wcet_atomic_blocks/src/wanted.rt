//! What an edge, a node or a block is to a loop of a string.

ghost use Rattle.std.specs.Prelude.{◌≡◌, ◌-◌, false, slice_get, length};
ghost use Rattle.std.specs.Option.{option_map_or};
ghost use Rattle.flow_graph.specs.Faults as faults;
ghost use Rattle.wcet_atomic_blocks.specs.Loops as words;
ghost use Rattle.wcet_atomic_blocks.specs.Working.Wanted.{edge_test};

use flow_graph::{EdgeKind, Node};
use timing_file::{Loop, lies_in};

/// Which edges of a loop are looked for.
#[derive(Clone, Copy)]
pub(crate) enum Wanted {
    Back,
    Entering,
}

/// Whether the edge is one of those that are looked for.
pub(crate) fn is_wanted(
    wanted: Wanted,
    head: &Node,
    range: &Loop,
    source: &Node,
    kind: EdgeKind,
    target: &Node,
) -> bool
    ensures { result ≡ edge_test wanted head.now range.now source.now kind target.now }
{
    match wanted {
        Wanted::Back => is_back(head, range, source, kind, target),
        Wanted::Entering => is_entering(head, range, source, kind, target),
    }
}

fn is_back(head: &Node, range: &Loop, source: &Node, kind: EdgeKind, target: &Node) -> bool
    ensures { result ≡ words.is_back head.now range.now source.now kind target.now }
{
    is_local(kind)
        && is_inside(head, range, source)
        && same_string(head, target)
        && target.address == range.from
}

fn is_local(kind: EdgeKind) -> bool
    ensures { result ≡ faults.is_local kind }
{
    match kind {
        EdgeKind::Call => false,
        EdgeKind::Return => false,
        EdgeKind::Straight => true,
        EdgeKind::Taken => true,
        EdgeKind::Jump => true,
        EdgeKind::Service => true,
    }
}

fn is_entering(head: &Node, range: &Loop, source: &Node, kind: EdgeKind, target: &Node) -> bool
    ensures { result ≡ words.is_entering head.now range.now source.now kind target.now }
{
    is_inside(head, range, target) && comes_from_outside(head, range, source, kind)
}

fn comes_from_outside(head: &Node, range: &Loop, source: &Node, kind: EdgeKind) -> bool
    ensures { result ≡ words.comes_from_outside head.now range.now source.now kind }
{
    let outside = same_string(head, source) && !in_range(range, source.address);
    match kind {
        EdgeKind::Call => true,
        EdgeKind::Return => !returns_into(range, source),
        EdgeKind::Straight => outside,
        EdgeKind::Taken => outside,
        EdgeKind::Jump => outside,
        EdgeKind::Service => outside,
    }
}

/// Whether the innermost open call of the node is in the range.
fn returns_into(range: &Loop, source: &Node) -> bool
    ensures { result ≡ words.returns_into range.now source.now }
{
    match source.sites.len().checked_sub(1) {
        Some(last) => has_site_inside(range, source, last),
        None => false,
    }
}

/// Whether the node has that open call, in the range.
fn has_site_inside(range: &Loop, node: &Node, i: usize) -> bool
    ensures { result ≡ option_map_or (words.in_range range.now) (slice_get node.now.sites i) false }
{
    if i < node.sites.len() {
        in_range(range, node.sites.get(i))
    } else {
        false
    }
}

/// Whether the address is in the range.
pub(crate) fn in_range(range: &Loop, address: u32) -> bool
    ensures { result ≡ words.in_range range.now address }
{
    lies_in(range.from, range.to, address)
}

/// Whether the node has the head's context and open calls.
pub(crate) fn same_string(head: &Node, node: &Node) -> bool
    ensures { result ≡ words.same_string head.now node.now }
{
    head.context == node.context && head.sites == node.sites
}

/// Whether the node has the head's string and is in the range.
pub(crate) fn is_inside(head: &Node, range: &Loop, node: &Node) -> bool
    ensures { result ≡ words.is_inside head.now range.now node.now }
{
    same_string(head, node) && in_range(range, node.address)
}

/// Whether the node is in the range, or in a call from there.
pub(crate) fn lies_within(head: &Node, range: &Loop, node: &Node) -> bool
    ensures { result ≡ words.lies_within head.now range.now node.now }
{
    is_inside(head, range, node) || is_called_inside(head, range, node)
}

fn is_called_inside(head: &Node, range: &Loop, node: &Node) -> bool
    ensures { result ≡ words.is_called_inside head.now range.now node.now }
{
    head.context == node.context
        && has_site_inside(range, node, head.sites.len())
        && node.sites.as_slice().starts_with(head.sites.as_slice())
}
