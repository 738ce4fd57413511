//! Recorded traces of a run.

use flow_graph::Sites;
use listed::Listed;

/// An event of the kernel. Moments are in cycles from the start of the run.
#[derive(Debug, Drop)]
pub enum Event {
    /// The source of this number arrived.
    Arrive {
        at: u64,
        source: usize,
    },
    /// The kernel took the source of this number.
    Take {
        start: u64,
        end: u64,
        source: usize,
    },
    /// The context of this place among all contexts called a service by the ECALL at the address. The
    /// sites are the addresses of its open calls, outermost first.
    Service {
        start: u64,
        end: u64,
        context: usize,
        sites: Sites,
        address: u32,
    },
}

/// Events in the order in which they happened.
pub type Events = Listed<Event>;

/// The kernel's events in a run, the application mode in which it started, and the moment in cycles
/// at which it was left.
#[derive(Debug, Drop)]
pub struct Trace {
    pub mode: usize,
    pub end: u64,
    pub events: Events,
}
