//! The code graph of an image.

ghost use Rattle.std.specs.Prelude.{◌≡◌, ◌<◌, IfOk};
ghost use Rattle.std.specs.List.{AllZip};
ghost use Rattle.osek_kernel.specs.Contexts.{context_at, context_count, entry_of};
ghost use Rattle.flow_graph.specs.Graph as graphs;
ghost use Rattle.flow_graph.specs.Judging as words;
ghost use Rattle.flow_graph.specs.Working.Judged.{program_in};
ghost use Rattle.flow_graph.specs.Working.Numbered.{AreClosed};
ghost use Rattle.flow_graph.specs.Working.Answered.{IsFirst};

use crate::fault::{CodeFault, CodeKind};
use crate::flow::Flow;
use crate::judge::fault_of;
use crate::judged::Judged;
use crate::names::{early_fault, whole};
use crate::node::{Node, Nodes};
use crate::numbering::all_leaving;
use crate::reach::{MOST_NODES, reach};
use elf_image::Image;
use listed::{ListedNumbers, Memory};
use oil_model::System;
use osek_kernel::Context;
use std::alloc::Global;
use timing_file::Timing;

/// The addresses at which the contexts begin, in their order.
pub type Entries = ListedNumbers<Option<u32>>;

/// The address at which each context begins, by its place; none where it has no symbol.
pub fn entries_of(alloc: Global, image: &Image, system: &System) -> Result<Entries, Memory>
    ensures { IfOk result (λ entries. entries ≡ graphs.entries_of image.now system.now) }
{
    match system.tasks.len().checked_add(system.isrs.len()) {
        Some(count) => first_entries(alloc, image, system, count),
        None => Err(Memory),
    }
}

fn first_entries(
    alloc: Global,
    image: &Image,
    system: &System,
    count: usize,
) -> Result<Entries, Memory>
    requires { count ≡ context_count system.now }
    ensures { IfOk result (λ entries. entries ≡ graphs.entries_from image.now system.now 0 count) }
{
    let mut entries = Entries::new(alloc);
    for place in 0..count {
        entries.push(entry_at(image, system, place))?;
    }
    Ok(entries)
}

fn entry_at(image: &Image, system: &System, place: usize) -> Option<u32>
    requires { place < context_count system.now }
    ensures { result ≡ entry_of image.now system.now (context_at system.now place) }
{
    Context::at(system, place).entry(image, system)
}

/// The fault of the first of the nodes that has one.
#[tactic(auto, using(crate::proofs::Graphs::first_faults))]
fn first_fault(
    alloc: Global,
    program: &Judged<'_>,
    nodes: &[Node],
) -> Result<Option<CodeFault>, Memory>
    ensures { IfOk result (IsFirst (program_in program.now) nodes.now) }
{
    for node in nodes {
        match fault_of(alloc, program, node)? {
            Some(kind) => {
                return Ok(Some(CodeFault::At {
                    kind,
                    context: Some(node.context),
                    address: Some(node.address),
                }));
            }
            None => {}
        }
    }
    Ok(None)
}

fn graph_of(alloc: Global, program: &Judged<'_>, nodes: Nodes) -> Result<Flow, Memory>
    requires { AreClosed (program_in program.now) nodes }
    ensures { IfOk result (λ flow. (flow.nodes ≡ nodes)
        × AllZip (words.IsLeaving (program_in program.now) nodes) nodes flow.leaving) }
{
    let leaving = all_leaving(alloc, program, nodes.as_slice())?;
    Ok(Flow { nodes, leaving })
}

fn judged_graph(alloc: Global, program: &Judged<'_>, nodes: Nodes) -> Result<Flow, CodeFault>
    requires { words.AreAllNodes (program_in program.now) nodes }
    ensures { words.Answers (program_in program.now) None result }
{
    match first_fault(alloc, program, nodes.as_slice())? {
        Some(fault) => Err(fault),
        None => Ok(graph_of(alloc, program, nodes)?),
    }
}

/// The graph, or the first fault of the nodes.
fn graph_or_fault(alloc: Global, program: &Judged<'_>) -> Result<Flow, CodeFault>
    ensures { words.Answers (program_in program.now) None result }
{
    let nodes = reach(alloc, program)?;
    if nodes.len() > MOST_NODES {
        return Err(whole(CodeKind::Limit));
    }
    judged_graph(alloc, program, nodes)
}

fn build_over(alloc: Global, program: &Judged<'_>, timing: &Timing) -> Result<Flow, CodeFault>
    ensures { words.Answers (program_in program.now)
        (words.early_fault program.now.system.now timing.now program.now.entries.now) result }
{
    match early_fault(alloc, program.system, timing, program.entries)? {
        Some(fault) => Err(fault),
        None => graph_or_fault(alloc, program),
    }
}

/// The code graph of an image under a system and a timing, or the first fault: of names, entries
/// and alarms; else `Limit`, where more than 65,535 nodes are reached; else that of the first node
/// in order that has one, with its context and its address.
pub fn build(
    alloc: Global,
    image: &Image,
    system: &System,
    timing: &Timing,
) -> Result<Flow, CodeFault>
    ensures { words.IsAnswer image.now system.now timing.now result }
{
    let entries = entries_of(alloc, image, system)?;
    let program = Judged {
        image,
        entries: entries.as_slice(),
        system,
        loops: timing.loops.as_slice(),
    };
    build_over(alloc, &program, timing)
}
