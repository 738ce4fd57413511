//! The fault of a node, as a chain of tests in the order of the kinds.

ghost use Rattle.std.specs.Prelude.{◌≡◌, ◌||◌, false, nat_eq, Some, IfOk};
ghost use Rattle.std.specs.List.{list_any};
ghost use Rattle.std.specs.Option.{option_map_or};
ghost use Rattle.elf_image.specs.Image.{has_word};
ghost use Rattle.flow_graph.specs.Faults as words;
ghost use Rattle.flow_graph.specs.Working.Judged.{program_in, AreEdges};

use crate::edge::{Edge, EdgeKind};
use crate::edges;
use crate::fault::CodeKind;
use crate::judged::Judged;
use crate::node::Node;
use elf_image::Image;
use listed::Memory;
use oil_model::System;
use osek_kernel::Service;
use rv32_machine::{ServiceAt, Turn, is_middle, service_at, turn_at};
use std::alloc::Global;
use timing_file::Loop;

fn has_word(image: &Image, address: u32) -> bool
    ensures { result ≡ has_word image.now.code address }
{
    image.word(address).is_some()
}

fn entry_in(entries: &[Option<u32>], context: usize) -> Option<u32>
    ensures { result ≡ words.entry_in entries.now context }
{
    match entries.get(context) {
        Some(entry) => *entry,
        None => None,
    }
}

fn begins_at(entries: &[Option<u32>], context: usize, address: u32) -> bool
    ensures { result ≡ option_map_or (nat_eq address) (words.entry_in entries.now context) false }
{
    match entry_in(entries, context) {
        Some(entry) => address == entry,
        None => false,
    }
}

fn is_entry(entries: &[Option<u32>], node: &Node) -> bool
    ensures { result ≡ words.is_entry_of entries.now node.now }
{
    node.sites.len() == 0 && begins_at(entries, node.context, node.address)
}

fn is_breaking(turn: Turn) -> bool
    ensures { result ≡ words.is_breaking turn }
{
    matches!(turn, Turn::Breaking)
}

fn is_indirect(turn: Turn) -> bool
    ensures { result ≡ words.is_indirect turn }
{
    matches!(turn, Turn::Indirect)
}

fn returns_from_entry(node: &Node, turn: Turn) -> bool
    ensures { result ≡ words.returns_from_entry node.now turn }
{
    match turn {
        Turn::Returning => node.sites.len() == 0,
        _ => false,
    }
}

fn begins_at_middle(program: &Judged<'_>, node: &Node) -> bool
    ensures { result ≡ words.begins_at_middle (program_in program.now) node.now }
{
    is_entry(program.entries, node) && is_middle(program.image, node.address)
}

fn goes_to_middle(program: &Judged<'_>, edge: &Edge<Node>) -> bool
    ensures { result ≡ words.goes_to_middle (program_in program.now) edge.now }
{
    match &edge.to {
        Some(to) => is_middle(program.image, to.address),
        None => false,
    }
}

fn any_goes_to_middle(program: &Judged<'_>, edges: &[Edge<Node>]) -> bool
    ensures { result ≡ list_any (words.goes_to_middle (program_in program.now)) edges.now }
{
    edges.iter().any(|edge| goes_to_middle(program, edge))
}

fn enters_middle(program: &Judged<'_>, node: &Node, turn: Turn, edges: &[Edge<Node>]) -> bool
    requires { AreEdges program.now node.now turn edges.now }
    ensures { result ≡ words.enters_middle (program_in program.now) node.now turn }
{
    match turn {
        Turn::Onward => false,
        _ => any_goes_to_middle(program, edges),
    }
}

fn is_served(system: &System, at: ServiceAt) -> bool
    ensures { result ≡ words.is_served system.now at }
{
    match Service::of_number(at.number) {
        Some(service) => service.takes(system, at.argument),
        None => false,
    }
}

fn is_served_at(system: &System, service: Option<ServiceAt>) -> bool
    ensures { result ≡ option_map_or (words.is_served system.now) service false }
{
    match service {
        Some(service) => is_served(system, service),
        None => false,
    }
}

fn is_unserved(program: &Judged<'_>, node: &Node, turn: Turn) -> bool
    ensures { result ≡ words.is_unserved (program_in program.now) node.now turn }
{
    match turn {
        Turn::Serving => !is_served_at(program.system, service_at(program.image, node.address)),
        _ => false,
    }
}

fn is_open(node: &Node) -> bool
    ensures { result ≡ list_any (nat_eq node.now.address) node.now.sites }
{
    node.sites
        .as_slice()
        .iter()
        .any(|site| node.address == *site)
}

fn calls_again(node: &Node, turn: Turn) -> bool
    ensures { result ≡ words.calls_again node.now turn }
{
    match turn {
        Turn::Calling { .. } => is_open(node),
        _ => false,
    }
}

fn calls_too_deep(node: &Node, turn: Turn) -> bool
    ensures { result ≡ words.calls_too_deep node.now turn }
{
    match turn {
        Turn::Calling { .. } => 16 <= node.sites.len(),
        _ => false,
    }
}

fn is_local(kind: EdgeKind) -> bool
    ensures { result ≡ words.is_local kind }
{
    !matches!(kind, EdgeKind::Call | EdgeKind::Return)
}

fn covers_back(declared: &Loop, address: u32, target: u32) -> bool
    ensures { result ≡ words.covers_back address target declared.now }
{
    declared.from == target && declared.from <= address && address <= declared.to
}

/// Whether a declared loop is around a step from the address back to the target.
fn is_covered(loops: &[Loop], address: u32, target: u32) -> bool
    ensures { result ≡ list_any (words.covers_back address target) loops.now }
{
    loops
        .iter()
        .any(|declared| covers_back(declared, address, target))
}

fn is_uncovered(program: &Judged<'_>, address: u32, edge: &Edge<Node>) -> bool
    ensures { result ≡ words.is_uncovered (program_in program.now) address edge.now }
{
    match &edge.to {
        Some(to) => {
            is_local(edge.kind)
                && to.address <= address
                && !is_covered(program.loops, address, to.address)
        }
        None => false,
    }
}

fn goes_back_uncovered(program: &Judged<'_>, node: &Node, turn: Turn, edges: &[Edge<Node>]) -> bool
    requires { AreEdges program.now node.now turn edges.now }
    ensures { result ≡ words.goes_back_uncovered (program_in program.now) node.now turn }
{
    any_is_uncovered(program, node.address, edges)
}

fn any_is_uncovered(program: &Judged<'_>, address: u32, edges: &[Edge<Node>]) -> bool
    ensures { result ≡ list_any (words.is_uncovered (program_in program.now) address) edges.now }
{
    edges
        .iter()
        .any(|edge| is_uncovered(program, address, edge))
}

fn enters_service(program: &Judged<'_>, node: &Node, turn: Turn, edges: &[Edge<Node>]) -> bool
    requires { AreEdges program.now node.now turn edges.now }
    ensures { result ≡ (words.begins_at_middle (program_in program.now) node.now
        || words.enters_middle (program_in program.now) node.now turn) }
{
    begins_at_middle(program, node) || enters_middle(program, node, turn, edges)
}

/// The fault of a node by its turn and the edges that the turn gives it.
fn fault_by(program: &Judged<'_>, node: &Node, turn: Turn, edges: &[Edge<Node>]) -> Option<CodeKind>
    requires { AreEdges program.now node.now turn edges.now }
    ensures { result ≡ words.turn_fault (program_in program.now) node.now (Some turn) }
{
    if is_breaking(turn) {
        Some(CodeKind::BadWord)
    } else if is_indirect(turn) {
        Some(CodeKind::Indirect)
    } else if returns_from_entry(node, turn) {
        Some(CodeKind::Leaves)
    } else if enters_service(program, node, turn, edges) {
        Some(CodeKind::IntoService)
    } else if is_unserved(program, node, turn) {
        Some(CodeKind::BadService)
    } else if calls_again(node, turn) {
        Some(CodeKind::Recursion)
    } else if goes_back_uncovered(program, node, turn, edges) {
        Some(CodeKind::UncoveredBack)
    } else if calls_too_deep(node, turn) {
        Some(CodeKind::Depth)
    } else {
        None
    }
}

fn turn_fault(
    alloc: Global,
    program: &Judged<'_>,
    node: &Node,
    turn: Turn,
) -> Result<Option<CodeKind>, Memory>
    ensures { IfOk result (λ fault. fault
        ≡ words.turn_fault (program_in program.now) node.now (Some turn)) }
{
    let service = service_at(program.image, node.address);
    let edges = edges::edges_by(alloc, service, node, turn)?;
    Ok(fault_by(program, node, turn, edges.as_slice()))
}

/// What is wrong with the node; none where nothing is.
pub(crate) fn fault_of(
    alloc: Global,
    program: &Judged<'_>,
    node: &Node,
) -> Result<Option<CodeKind>, Memory>
    ensures { IfOk result (λ fault. fault ≡ words.fault_of (program_in program.now) node.now) }
{
    if !has_word(program.image, node.address) {
        return Ok(Some(CodeKind::Leaves));
    }
    match turn_at(program.image, node.address) {
        Some(turn) => turn_fault(alloc, program, node, turn),
        None => Ok(Some(CodeKind::BadWord)),
    }
}
