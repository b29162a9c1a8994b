//! Homes of locals, and the registers that are live at nodes.
ghost use Rattle.std.specs.Prelude.{◌≡◌, ◌↔◌, ◌<◌, ◌≤◌, ◌+◌, ℕ, length, map, slice_get, slice_index, Contains, IfOk, IsTrue, Some, true};
ghost use Rattle.ido_base.specs.declared.limits.TheConstants.{MOST_THREADS};
ghost use Rattle.memory_layout.specs.declared.roles.TheConstants.{LOCALS as local_numbers};
ghost use Rattle.memory_layout.specs.Roles.{is_local};
ghost use Rattle.flow_graph.specs.Nodes.{graph_of, node_of};
ghost use Rattle.thread_code.specs.Plans.{home_of_colour};
ghost use Rattle.rv64_codegen.specs.links.LiveRegisters.{HasLive, AreLiveLocals, AreLiveRegisters, AreLists, AreWithPending, is_store};

use crate::plan::Plan;
use expr_code::Home;
use flow_graph::graph::{Action, Node, Part};
use flow_graph::live_sets::LiveSets;
use ido_base::limits::LOCAL_REGISTERS;
use ido_base::memory::OutOfMemory;
use log_schemes::addresses::frame_at;
use log_schemes::locals::Locals;
use log_schemes::log::Log;
use memory_layout::roles::LOCALS;
use rv64_isa::field::Register;
use std::alloc::Global;

/// The register of locals with this number among them.
fn local_register(number: usize) -> Register
    requires { number < LOCAL_REGISTERS }
    ensures is { result ≡ slice_index local_numbers number }
    ensures local { is_local result ≡ true }
{
    Register::new(LOCALS[number]).unwrap()
}

/// The home of the locals of a thread that have this colour.
fn home_of_colour(log: Log, thread: u32, colour: usize) -> Home
    requires thread { thread < MOST_THREADS }
    requires colour { colour < LOCAL_REGISTERS }
    ensures { result ≡ home_of_colour log thread colour }
{
    match log.locals() {
        Locals::Registers => {
            let register = local_register(colour);
            Home::InRegister { register }
        }
        Locals::Frame => Home::InFrame {
            address: frame_at(log, thread, colour as u32) as u32,
        },
    }
}

/// Where a thread's locals stand, which have these colours.
pub(crate) fn homes(
    alloc: Global,
    log: Log,
    thread: u32,
    colours: &[u8],
) -> Result<Vec<Home>, OutOfMemory>
    requires thread { thread < MOST_THREADS }
    requires colours { (colour : ℕ) → Contains colours.now colour → colour < LOCAL_REGISTERS }
    ensures { IfOk result (λ r. r.items ≡ map (home_of_colour log thread) colours.now) }
{
    let mut homes = Vec::new(alloc);
    for colour in colours {
        homes.push(home_of_colour(log, thread, *colour as usize))?;
    }
    Ok(homes)
}

/// Whether a local that is live at the node's entry stands there.
fn is_live_home(homes: &[Home], live: &LiveSets, node: usize, home: Home) -> bool
    ensures { IsTrue result ↔ HasLive homes.now live.now node home }
{
    for (local, other) in homes.iter().enumerate() {
        if *other == home && live.is_live(node, local) {
            return true;
        }
    }
    false
}

/// The registers in which locals stand that are live at the node's entry, each once.
fn live_locals(
    alloc: Global,
    homes: &[Home],
    live: &LiveSets,
    node: usize,
) -> Result<Vec<Register>, OutOfMemory>
    ensures { IfOk result (λ r. AreLiveLocals homes.now live.now node LOCAL_REGISTERS r.items) }
{
    let mut found = Vec::new(alloc);
    for number in 0..LOCAL_REGISTERS {
        let register = local_register(number);
        if is_live_home(homes, live, node, Home::InRegister { register }) {
            found.push(register)?;
        }
    }
    Ok(found)
}

/// Whether the node makes a store.
fn is_store(node: &Node) -> bool
    ensures { result ≡ is_store (node_of node.now).action }
{
    match node.action {
        Action::Store { .. } => true,
        _ => false,
    }
}

/// Before a store those of what it stores are live too.
fn with_pending(mut found: Vec<Register>, is_store: bool) -> Result<Vec<Register>, OutOfMemory>
    ensures { IfOk result (λ r. AreWithPending found.items is_store r.items) }
{
    if is_store {
        found.push(Register::X28)?;
        found.push(Register::X29)?;
    }
    Ok(found)
}

/// The registers that are live at the node's entry.
fn live_registers(
    alloc: Global,
    plan: &Plan,
    homes: &[Home],
    node: usize,
) -> Result<Vec<Register>, OutOfMemory>
    requires { node < length plan.now.graph.now.nodes.items }
    ensures { IfOk result (λ r. AreLiveRegisters (graph_of plan.now.graph.now) homes.now plan.now.live.now node r.items) }
{
    let found = live_locals(alloc, homes, plan.live, node)?;
    with_pending(found, is_store(&plan.graph.nodes[node]))
}

/// Of each node of a thread the registers that are live at its entry.
pub(crate) fn live_lists(
    alloc: Global,
    plan: &Plan,
    homes: &[Home],
    part: Part,
) -> Result<Vec<Vec<Register>>, OutOfMemory>
    requires order { part.first ≤ part.end }
    requires end { part.end ≤ length plan.now.graph.now.nodes.items }
    ensures { IfOk result (λ r. AreLists (graph_of plan.now.graph.now) homes.now plan.now.live.now part.first part.end r.items) }
{
    let mut lists = Vec::new(alloc);
    for node in part.first..part.end {
        lists.push(live_registers(alloc, plan, homes, node)?)?;
    }
    Ok(lists)
}
