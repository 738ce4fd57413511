//! The laws of plants, as contracts of functions that do nothing.

ghost use Rattle.wcet_atomic_blocks.specs.Plants.{PlantData, IsPlant};
ghost use Rattle.wcet_atomic_blocks.specs.PlantLaws as words;

/// Edges stay among the nodes.
pub fn edges_stay()
    ensures { (plant : PlantData) → IsPlant plant → words.EdgesStay plant }
{}

/// An edge keeps the context.
pub fn edges_keep_context()
    ensures { (plant : PlantData) → IsPlant plant → words.EdgesKeepContext plant }
{}

/// The first node of a block is in it.
pub fn first_is_inside()
    ensures { (plant : PlantData) → IsPlant plant → words.FirstIsInside plant }
{}

/// A block is closed under the edges of its nodes that are no ECALLs.
pub fn blocks_are_closed()
    ensures { (plant : PlantData) → IsPlant plant → words.BlocksAreClosed plant }
{}

/// Every node of a block is of the block's context.
pub fn nodes_are_of_owner()
    ensures { (plant : PlantData) → IsPlant plant → words.NodesAreOfOwner plant }
{}

/// Every node lies in a block.
pub fn every_node_lies()
    ensures { (plant : PlantData) → IsPlant plant → words.EveryNodeLies plant }
{}

/// The block of each context's entry begins at the entry's node.
pub fn entries_begin()
    ensures { (plant : PlantData) → IsPlant plant → words.EntriesBegin plant }
{}

/// The block behind a service begins where the service goes on.
pub fn afters_begin()
    ensures { (plant : PlantData) → IsPlant plant → words.AftersBegin plant }
{}

/// A service that goes on has a block behind it.
pub fn services_have_blocks()
    ensures { (plant : PlantData) → IsPlant plant → words.ServicesHaveBlocks plant }
{}

/// No block behind a service is an entry's block.
pub fn afters_are_no_entries()
    ensures { (plant : PlantData) → IsPlant plant → words.AftersAreNoEntries plant }
{}
