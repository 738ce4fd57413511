//! `show code OIL ELF TIMING` tells how many nodes, blocks and loops the code of each context has.
ghost use Rattle.std.specs.Prelude.{◌≡◌, ◌==◌, ◌++◌, IfOk, Ok, OnOk, count_by};
ghost use Rattle.oil_model.specs.System.{IsLawful};
ghost use Rattle.osek_kernel.specs.Contexts.{context_count};
ghost use Rattle.command_steps.specs.Steps.{IsCall, Says};
ghost use Rattle.wcet_atomic_blocks.specs.Loops as loops;
ghost use Rattle.show_commands.specs.ShowCode as words;

use command_steps::Halt;
use flow_graph::Node;
use inputs::{name_at, plant_of};
use listed::Memory;
use oil_model::System;
use reports::push_context_line;
use std::alloc::Global;
use wcet_atomic_blocks::{LoopInstance, Plant};
use wcet_io::{Bytes, Files, Text};

/// The answer by the three named files.
pub fn show_code<F: Files>(
    alloc: Global,
    oil: &Text,
    elf: &Text,
    timing: &Text,
    files: &mut F,
) -> Result<Bytes, Halt>
    ensures { words.ShowCode (IsCall F.outside F.reads) oil.now elf.now timing.now
        files.old result files.new }
{
    let plant = plant_of(alloc, oil, elf, timing, files)?;
    let answered = answer(alloc, &plant);
    drop(plant);
    answered
}

fn answer(alloc: Global, plant: &Plant) -> Result<Bytes, Halt>
    ensures { Says (λ given. given ≡ Ok (words.code_text plant.now)) result }
{
    Ok(text_of(alloc, plant)?)
}

/// A line for each context.
fn text_of(alloc: Global, plant: &Plant) -> Result<Bytes, Memory>
    ensures { IfOk result (λ text. text ≡ words.code_text plant.now) }
{
    plant.belongs_together();
    let instances = plant.loop_instances(alloc)?;
    let mut text = Vec::new(alloc);
    for context in 0..contexts_of(&plant.system) {
        push_line(alloc, &mut text, plant, instances.as_slice(), context)?;
    }
    Ok(Bytes::from_vec(text))
}

/// The number of contexts.
fn contexts_of(system: &System) -> usize
    requires { IsLawful system.now }
    ensures { result ≡ context_count system.now }
{
    system.tasks.len() + system.isrs.len()
}

/// Adds the line of a context.
fn push_line(
    alloc: Global,
    text: &mut Vec<u8>,
    plant: &Plant,
    instances: &[LoopInstance],
    context: usize,
) -> Result<(), Memory>
    requires { instances.now ≡ loops.loop_instances plant.now.flow plant.now.blocks.blocks
        plant.now.timing.loops }
    ensures { OnOk result (text.new.items ≡ text.old.items ++ words.line_of plant.now context) }
{
    let name = name_at(&plant.system, context).unwrap_or(b"");
    let nodes = nodes_of(plant.flow.nodes.as_slice(), context);
    let blocks = plant.blocks.owned(context);
    let loops = loops_of(instances, context);
    push_context_line(alloc, text, name, nodes, blocks, loops)
}

fn nodes_of(nodes: &[Node], context: usize) -> usize
    ensures { result ≡ count_by (λ node. node.context == context) nodes.now }
{
    nodes.iter().filter(|node| node.context == context).count()
}

fn loops_of(instances: &[LoopInstance], context: usize) -> usize
    ensures { result ≡ count_by (λ l. l.context == context) instances.now }
{
    instances.iter().filter(|l| l.context == context).count()
}
