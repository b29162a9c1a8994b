//! What the code of threads is made of.
use c_tree::flat::Flat;
use flow_graph::colours::Colours;
use flow_graph::cuts::Cuts;
use flow_graph::graph::Graph;
use flow_graph::live_sets::LiveSets;
use lock_discipline::Held;
use log_schemes::log::Log;

/// A program's flow graph, and what was found out about it.
#[derive(Clone, Copy)]
pub struct Plan<'a> {
    pub flat: &'a Flat,
    pub graph: &'a Graph<'a>,
    /// Where threads can be resumed.
    pub cuts: &'a Cuts,
    /// Of each thread the mutexes that are held before each of its nodes.
    pub held: &'a Held,
    /// The locals that are live at the entry of each node.
    pub live: &'a LiveSets,
    /// Of each thread the registers of its locals.
    pub colours: &'a Colours,
    /// How its threads log.
    pub log: Log,
}
