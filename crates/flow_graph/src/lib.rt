//! The code graph of a system's tasks and interrupt service routines, with call strings: a node is a
//! place at which a context may stand with these open calls, and each step of it goes along an edge.
//!
//! `specs/Graph.antt` says what nodes and edges are, `specs/Faults.antt` what is wrong with a node and
//! which nodes are reached, `specs/Standing.antt` and `specs/Walks.antt` what the laws say, and
//! `specs/Judging.antt` what building a graph answers: the graph, or the first fault.
//!
//! ```text
//! let flow = build(alloc, &image, &system, &timing)?;
//! for node in 0..flow.nodes() {
//!     let (address, depth) = (flow.address(node), flow.depth(node));
//! }
//! ```
#![tactic(auto)]

mod building;
mod edge;
mod edges;
mod fault;
mod flow;
mod found;
mod judge;
mod judged;
mod laws;
mod names;
mod node;
mod numbering;
mod reach;

pub use building::{Entries, build, entries_of};
pub use edge::{Edge, EdgeKind, Edges};
pub use fault::{CodeFault, CodeKind};
pub use flow::{Flow, Leaving};
pub use laws::{
    ecalls_serve, entries_stand, graphs_are_faultless, images_fit, none_is_stuck, services_go_on,
    steps_follow_edges, steps_keep_bytes, walks_stay_on_graph,
};
pub use listed::Memory;
pub use node::{Node, Nodes, Sites};
