//! The command `regions`: the nodes of a source's graph, the boundaries that are chosen among them, and how few they are in straight code.
ghost use Rattle.std.specs.Prelude.{◌≡◌, ◌<◌, ◌≤◌, ◌++◌, ◌^◌, length, slice_index_or, false, IfOk, OnOk};
ghost use Rattle.ido_base.specs.declared.limits.TheConstants.{MOST_SOURCE_BYTES};
ghost use Rattle.c_tree.specs.Flats.{flat_of, thread_of};
ghost use Rattle.flow_graph.specs.Nodes.{action_of, graph_of, node_of};
ghost use Rattle.flow_graph.specs.IdempotentCuts.{boundaries_of};
ghost use Rattle.flow_graph.specs.Lowering.{lowered};
ghost use Rattle.ido_cli.specs.Answers.{RegionsAnswer};
ghost use Rattle.ido_cli.specs.links.Regions.{HasSets, HaveNodes, HaveSets, IsRegionsAnswer};
ghost use Rattle.ido_cli.specs.Regions.{action_name, boundaries_inside, cut_mark, is_chosen, is_in_section, least_line, least_lines};
ghost use Rattle.ido_cli.specs.Regions.{AreTold, node_line, node_lines, regions, stretch_line, thread_line};

use crate::refusal::{place_in, source_refused};
use crate::said::Said;
use crate::scheme::COMMAND_LOG;
use c_tree::flat::Thread;
use flat_analysis::Analysis;
use flat_compile::translate;
use flow_graph::cuts::Cuts;
use flow_graph::graph::{Action, Graph, Node, Part};
use ido_base::memory::OutOfMemory;
use ido_compile::laws::translations_are_compilations;
use ido_compile::{CompileError, checked, flatten};
use lock_discipline::Held;
use region_cutter::{Stretch, stretches};
use run_scripts::report::put;
use std::alloc::Global;

/// The name of what a node does.
fn action_name(action: Action<'_>) -> &'static str
    ensures { result.now ≡ action_name (action_of action.entry) }
{
    match action {
        Action::Eval { .. } => "eval",
        Action::Store { .. } => "store",
        Action::Test { .. } => "test",
        Action::Lock { .. } => "lock",
        Action::Unlock { .. } => "unlock",
        Action::End => "end",
    }
}

/// A boundary stands before the node by choice.
fn is_chosen(cuts: &Cuts, number: usize, node: &Node<'_>) -> bool
    requires { number < length cuts.now.before.items }
    ensures { result ≡ is_chosen (boundaries_of cuts.now) number (node_of node.now) }
{
    cuts.before[number] && !matches!(node.action, Action::Unlock { .. })
}

/// What stands after a node before which a boundary is chosen.
fn cut_mark(chosen: bool) -> &'static str
    ensures { result.now ≡ cut_mark chosen }
{
    if chosen { " cut" } else { "" }
}

/// Adds the line of a node.
#[tactic(auto, unfolding(crate::specs::Regions::node_line))]
fn put_node(
    alloc: Global,
    out: &mut Vec<u8>,
    text: &[u8],
    number: usize,
    node: &Node<'_>,
    chosen: bool,
) -> Result<(), OutOfMemory>
    requires { length text.now < 2 ^ 31 }
    ensures { OnOk result (out.new.items ≡ out.old.items ++ node_line text.now number (node_of node.now) chosen) }
{
    let (line, column) = place_in(text, u64::from(node.place.0));
    let name = action_name(node.action);
    let mark = cut_mark(chosen);
    let said = format!(in alloc; "{number} {name} {line}:{column}{mark}\n")?;
    put(out, said.as_bytes())
}

/// Adds the lines of a thread's nodes.
fn put_nodes(
    alloc: Global,
    out: &mut Vec<u8>,
    text: &[u8],
    graph: &Graph<'_>,
    cuts: &Cuts,
    part: Part,
) -> Result<(), OutOfMemory>
    requires short { length text.now < 2 ^ 31 }
    requires nodes { part.end ≤ length graph.now.nodes.items }
    requires cuts { length cuts.now.before.items ≡ length graph.now.nodes.items }
    ensures { OnOk result (out.new.items ≡ out.old.items ++ node_lines text.now (graph_of graph.now) (boundaries_of cuts.now) part) }
{
    for number in part.first..part.end {
        let node = &graph.nodes[number];
        let chosen = is_chosen(cuts, number, node);
        put_node(alloc, out, text, number, node, chosen)?;
    }
    Ok(())
}

/// Adds the line of a thread.
#[tactic(auto, unfolding(crate::specs::Regions::thread_line))]
fn put_thread(out: &mut Vec<u8>, thread: &Thread) -> Result<(), OutOfMemory>
    ensures { OnOk result (out.new.items ≡ out.old.items ++ thread_line (thread_of thread.now)) }
{
    put(out, b"thread ")?;
    put(out, &thread.name.text)?;
    put(out, b"\n")
}

// ---- Straight code

/// Whether a boundary stands before the node.
fn has_before(cuts: &Cuts, node: usize) -> bool
    ensures { result ≡ slice_index_or cuts.now.before.items node false }
{
    cuts.before.get(node).copied().unwrap_or(false)
}

/// How many boundaries stand inside straight code: before its nodes but for the first.
fn boundaries_inside(cuts: &Cuts, stretch: Stretch) -> usize
    requires { stretch.first < stretch.past }
    ensures { result ≡ boundaries_inside (boundaries_of cuts.now) stretch }
{
    let mut inside = 0;
    for node in stretch.first + 1..stretch.past {
        if has_before(cuts, node) {
            inside += 1;
        }
    }
    inside
}

/// Whether the node is one of the thread's, and some lock is held before it.
fn is_in_section(held: &Held, thread: usize, part: Part, node: usize) -> bool
    requires { HasSets held.now thread part }
    ensures { result ≡ is_in_section held.now thread part node }
{
    part.first <= node
        && node < part.end
        && held.count(thread as u32, (node - part.first) as u32) != 0
}

/// Adds the line of straight code.
#[tactic(auto, unfolding(crate::specs::Regions::least_line))]
fn put_least(
    alloc: Global,
    out: &mut Vec<u8>,
    cuts: &Cuts,
    stretch: Stretch,
) -> Result<(), OutOfMemory>
    requires { stretch.first < stretch.past }
    ensures { OnOk result (out.new.items ≡ out.old.items ++ least_line (boundaries_of cuts.now) stretch) }
{
    let Stretch { first, past } = stretch;
    let inside = boundaries_inside(cuts, stretch);
    let said = format!(in alloc; "least {first} {past} {inside}\n")?;
    put(out, said.as_bytes())
}

/// Adds the line of straight code, if it stands in a section of the thread.
fn put_stretch(
    alloc: Global,
    out: &mut Vec<u8>,
    cuts: &Cuts,
    held: &Held,
    thread: usize,
    part: Part,
    stretch: Stretch,
) -> Result<(), OutOfMemory>
    requires sets { HasSets held.now thread part }
    requires node { stretch.first < stretch.past }
    ensures { OnOk result (out.new.items ≡ out.old.items ++ stretch_line (boundaries_of cuts.now) held.now thread part stretch) }
{
    if is_in_section(held, thread, part, stretch.first) {
        put_least(alloc, out, cuts, stretch)
    } else {
        Ok(())
    }
}

/// Adds the lines of the straight code in a thread's sections.
fn put_stretches(
    alloc: Global,
    out: &mut Vec<u8>,
    cuts: &Cuts,
    held: &Held,
    thread: usize,
    part: Part,
    stretches: &[Stretch],
) -> Result<(), OutOfMemory>
    requires sets { HasSets held.now thread part }
    requires nodes { HaveNodes stretches.now }
    ensures { OnOk result (out.new.items ≡ out.old.items ++ least_lines (boundaries_of cuts.now) held.now thread part stretches.now) }
{
    let mut rest = stretches;
    while let [stretch, after @ ..] = rest {
        put_stretch(alloc, out, cuts, held, thread, part, *stretch)?;
        rest = after;
    }
    Ok(())
}

/// The straight code that is told: none, or all.
fn told(alloc: Global, graph: &Graph<'_>, least: bool) -> Result<Vec<Stretch>, OutOfMemory>
    ensures { IfOk result (λ told. AreTold least (graph_of graph.now) told.items) }
{
    if least {
        stretches(alloc, graph)
    } else {
        Ok(Vec::new(alloc))
    }
}

// ---- A source

/// The nodes of a flat form, thread after thread, and of each thread those of these stretches that stand in its sections.
fn regions(
    alloc: Global,
    text: &[u8],
    analysis: &Analysis,
    cuts: &Cuts,
    stretches: &[Stretch],
) -> Result<Vec<u8>, OutOfMemory>
    requires short { length text.now < 2 ^ 31 }
    requires graph { graph_of analysis.now.graph ≡ lowered (flat_of analysis.now.flat.now) }
    requires cuts { length cuts.now.before.items ≡ length (lowered (flat_of analysis.now.flat.now)).nodes }
    requires sets { HaveSets analysis.now.held analysis.now.graph.threads.items }
    requires stretches { HaveNodes stretches.now }
    ensures { IfOk result (λ said. let flat = flat_of analysis.now.flat.now in
        said.items ≡ regions text.now (lowered flat) (boundaries_of cuts.now)
        (record { stretches = stretches.now; held = analysis.now.held }) flat.threads) }
{
    let mut out = Vec::new(alloc);
    for number in 0..analysis.graph.threads.len() {
        let thread = &analysis.flat.threads[number];
        let part = analysis.graph.threads[number];
        put_thread(&mut out, thread)?;
        put_nodes(alloc, &mut out, text, &analysis.graph, cuts, part)?;
        put_stretches(
            alloc,
            &mut out,
            cuts,
            &analysis.held,
            number,
            part,
            stretches,
        )?;
    }
    Ok(out)
}

/// The nodes of a source's flat form, with the boundaries of its object, and how few they are in straight code where that is asked, or why
/// it has none.
fn source_regions(alloc: Global, source: &[u8], least: bool) -> Result<Vec<u8>, CompileError>
    requires { length source.now ≤ MOST_SOURCE_BYTES }
    ensures { IsRegionsAnswer least source.now result }
{
    translations_are_compilations();
    let flat = flatten(alloc, COMMAND_LOG, source)?;
    let analysis = checked(alloc, COMMAND_LOG, source, &flat)?;
    let translated = translate(alloc, COMMAND_LOG, &analysis)?;
    let stretches = told(alloc, &analysis.graph, least)?;
    let output = regions(alloc, source, &analysis, &translated.cuts, &stretches)?;
    Ok(output)
}

/// The answer to a source text.
pub fn regions_answer(alloc: Global, source: &[u8], least: bool) -> Result<Said, OutOfMemory>
    requires { length source.now ≤ MOST_SOURCE_BYTES }
    ensures { IfOk result (λ said. RegionsAnswer least source.now said.status said.output.items) }
{
    match source_regions(alloc, source, least) {
        Ok(output) => Ok(Said { status: 0, output }),
        Err(error) => source_refused(alloc, source, error),
    }
}
