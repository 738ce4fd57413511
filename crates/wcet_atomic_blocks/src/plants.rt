//! Plants.

ghost use Rattle.std.specs.Prelude.{◌≡◌, IfOk};
ghost use Rattle.wcet_atomic_blocks.specs.Loops as words;
ghost use Rattle.wcet_atomic_blocks.specs.Plants.{IsPlant};

use crate::block::Blocks;
use crate::instances::loop_instances;
use crate::loops::LoopInstances;
use elf_image::Image;
use flow_graph::Flow;
use listed::Memory;
use oil_model::System;
use std::alloc::Global;
use std::marker::Model;
use timing_file::Timing;

/// An image, a system and a timing without a fault, with their code graph and its blocks. Contracts
/// see the five; they belong together in every plant.
#[derive(Debug, Drop)]
pub struct Plant {
    pub image: Image,
    pub system: System,
    pub timing: Timing,
    pub flow: Flow,
    pub blocks: Blocks,
}

impl Model for Plant {
    ghost use Rattle.wcet_atomic_blocks.specs.Plants.{PlantData, IsPlant};

    ghost Value = { PlantData };

    ghost view = { λ p. record {
      image = p.image;
      system = p.system;
      timing = p.timing;
      flow = p.flow;
      blocks = p.blocks;
    } };

    ghost invariant = { λ p. IsPlant (record {
      image = p.image;
      system = p.system;
      timing = p.timing;
      flow = p.flow;
      blocks = p.blocks;
    }) };
}

impl Plant {
    /// The loop instances that have a back edge, by context, string of open calls and declared loop.
    pub fn loop_instances(&self, alloc: Global) -> Result<LoopInstances, Memory>
        ensures { IfOk result (λ found. found
            ≡ words.loop_instances self.now.flow self.now.blocks.blocks self.now.timing.loops) }
    {
        self.belongs_together();
        loop_instances(alloc, &self.flow, &self.blocks, &self.timing)
    }

    /// The law that the parts of a plant belong together.
    pub fn belongs_together(&self)
        ensures { IsPlant self.now }
    {
        let _ = &self.flow;
    }
}
