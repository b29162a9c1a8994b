//! What a crash leaves of a run.
use run_scripts::runs::Run;

/// What stands after the source.
#[derive(Drop)]
pub struct State {
    /// The durable words of the variables.
    pub variables: Vec<u64>,
    /// The durable words of the logs, as many for each thread as the log has, thread 0 first.
    pub logs: Vec<u64>,
    /// The schedule of each life so far, the first life first.
    pub lives: Vec<Vec<Run>>,
}
