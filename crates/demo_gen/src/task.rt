//! Generated tasks.

/// A task of a generated system. Its code is `steps` increments, a loop that goes back `bound`
/// times, and the service that ends it; its alarm activates it every `cycle` cycles.
#[derive(Clone, Copy, Debug)]
pub struct DemoTask {
    /// Its number among the tasks, from 0 on.
    pub number: usize,
    /// The address of its first word.
    pub entry: u32,
    pub steps: u32,
    pub bound: u32,
    pub cycle: u32,
}
