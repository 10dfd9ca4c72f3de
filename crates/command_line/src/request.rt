ghost use Rattle.command_line.specs.RequestLimits.{IsWithin, IsWithinLimits, IsWithinLimits-prop};

use crate::task::Task;

/// What the words of a command ask for.
#[derive(Drop)]
pub struct Request {
    /// What is to be done.
    pub task: Task,
    /// The edge of the tiles into which work is cut, in database units: from 1 to 1,000,000,000.
    pub edge: u32,
    /// How many workers share the work: from 1 to 64.
    pub workers: u32,
    // A number in `specs/` has no upper bound, so that of a layer and of a datatype is told too.
    pub ghost task_limits: { IsWithinLimits task } by { IsWithinLimits-prop task },
    pub ghost edge_limits: { IsWithin 1 1000000000 edge },
    pub ghost worker_limits: { IsWithin 1 64 workers },
}
