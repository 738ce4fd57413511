//! From an image, a system and a timing to their plant.

ghost use Rattle.oil_model.specs.System.{IsLawful as IsLawfulSystem};
ghost use Rattle.timing_file.specs.Lawful.{IsLawful as IsLawfulTiming};
ghost use Rattle.flow_graph.specs.Graph as graphs;
ghost use Rattle.wcet_atomic_blocks.specs.Planting.{AnswersBlocks, AnswersFlow, IsAnswer};
ghost use Rattle.wcet_atomic_blocks.specs.Plants.{IsGraphOf};
ghost use Rattle.wcet_atomic_blocks.specs.Working.Rooted.{IsRooted};

use crate::block::Blocks;
use crate::cutting::cut;
use crate::entries::entry_numbers;
use crate::fault::{BlockFault, PlantFault};
use crate::plants::Plant;
use elf_image::Image;
use flow_graph::{CodeFault, Flow, build, entries_of};
use oil_model::System;
use std::alloc::Global;
use timing_file::Timing;

/// The plant of an image, a system and a timing, which are given up where there is none: a fault of
/// their code, the number of their blocks where there are more than 4,095, or want of memory.
pub fn plant(
    alloc: Global,
    image: Image,
    system: System,
    timing: Timing,
) -> Result<Plant, PlantFault>
    requires system { IsLawfulSystem system }
    requires timing { IsLawfulTiming timing }
    ensures { IsAnswer image system timing result }
{
    match build(alloc, &image, &system, &timing) {
        Ok(flow) => planted(alloc, image, system, timing, flow),
        Err(CodeFault::Memory) => Err(PlantFault::Memory),
        Err(fault) => Err(PlantFault::Code(fault)),
    }
}

/// The plant of an image, a system and a timing with their code graph, for a caller that has built it.
pub fn planted(
    alloc: Global,
    image: Image,
    system: System,
    timing: Timing,
    flow: Flow,
) -> Result<Plant, PlantFault>
    requires system { IsLawfulSystem system }
    requires timing { IsLawfulTiming timing }
    requires graph { IsGraphOf image system timing flow }
    ensures { AnswersFlow image system timing flow result }
{
    image.is_lawful();
    match blocks_of(alloc, &image, &system, &flow) {
        Ok(blocks) => Ok(Plant {
            image,
            system,
            timing,
            flow,
            blocks,
        }),
        Err(fault) => Err(fault),
    }
}

/// The blocks of a code graph, whose contexts begin at their entries in the image.
fn blocks_of(
    alloc: Global,
    image: &Image,
    system: &System,
    flow: &Flow,
) -> Result<Blocks, PlantFault>
    requires { IsRooted (graphs.entries_of image.now system.now) flow.now }
    ensures { AnswersBlocks image.now system.now flow.now result }
{
    let addresses = entries_of(alloc, image, system)?;
    let entries = entry_numbers(alloc, flow, addresses.as_slice())?;
    match cut(alloc, flow, entries.as_slice()) {
        Ok(blocks) => Ok(blocks),
        Err(BlockFault::Memory) => Err(PlantFault::Memory),
        Err(BlockFault::Limit { count }) => Err(PlantFault::Block(BlockFault::Limit { count })),
    }
}
