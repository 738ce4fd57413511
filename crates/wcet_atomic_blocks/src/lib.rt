//! Blocks of a code graph, cut at the services, declared loops in it, and plants: an image, a system and
//! a timing with their code graph and its blocks.
//!
//! `specs/Blocks.antt` says which blocks there are and what is in them, `specs/Loops.antt` what loop
//! instances are, `specs/Plants.antt` and `specs/Planting.antt` what a plant is and what `plant` answers,
//! and `specs/PlantLaws.antt` what the laws say.
//!
//! `let plant = plant(alloc, image, system, timing)?;` and then, for each block of it,
//! `for block in 0..plant.blocks.count() { let exits = plant.blocks.exits(block); }`
#![tactic(auto)]

mod beginnings;
mod block;
mod cutting;
mod entries;
mod fault;
mod instances;
mod laws;
mod loops;
mod node_set;
mod planting;
mod plants;
mod search;
mod tables;
mod wanted;

pub use block::{Beginning, Block, Blocks};
pub use cutting::cut;
pub use fault::{BlockFault, PlantFault};
pub use instances::loop_instances;
pub use laws::{
    afters_are_no_entries, afters_begin, blocks_are_closed, edges_keep_context, edges_stay,
    entries_begin, every_node_lies, first_is_inside, nodes_are_of_owner, services_have_blocks,
};
pub use listed::Memory;
pub use loops::{EdgeId, EdgeIds, LoopInstance, LoopInstances};
pub use node_set::NodeSet;
pub use planting::{plant, planted};
pub use plants::Plant;
