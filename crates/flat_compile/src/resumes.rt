//! Where recovery may resume threads, and what it finds there.
ghost use Rattle.std.specs.Prelude.{◌≡◌, ◌↔◌, ◌<◌, ◌*◌, ◌^◌, ◌++◌, ◌∷◌, ℕ, [], OnOk, length, slice_get, slice_index_or, Some, None, IfOk};
ghost use Rattle.std.specs.Prelude.{IfSome, IsTrue, if◌then◌else◌};
ghost use Rattle.c_tree.specs.Exprs.{lvalue_of};
ghost use Rattle.c_tree.specs.Flats.{thread_of};
ghost use Rattle.c_tree.specs.LockNames.{count_held};
ghost use Rattle.flow_graph.specs.Nodes.{action_of, graph_of, node_of};
ghost use Rattle.flow_graph.specs.IdempotentCuts.{IsChosen, boundaries_of};
ghost use Rattle.thread_code.specs.Plans.{IsPlan, locks_held, set_before};
ghost use Rattle.recovered_threads.specs.RecordDescriptions.{Codes, the_core};
ghost use Rattle.rv64_codegen.specs.Plans.{plan_of};
ghost use Rattle.rv64_codegen.specs.links.Threads.{gives};
ghost use Rattle.machine_model.specs.Executables.{resume_marks};
ghost use Rattle.flat_compile.specs.ResumePlaces.{is_known, place_at, IsFound, IsResumeTable, AreMarksOf, AreMarked};
ghost use Rattle.flat_compile.specs.declared.resumes.Stand.{Stand};
ghost use Rattle.flat_compile.specs.links.KnownLists.{known_lists};
ghost use Rattle.flat_compile.specs.links.ResumePlacesByNode.{thread_in, AreKnowns, IsOwn, IsOwnNode, IsPastCall, IsBefore};
ghost use Rattle.flat_compile.specs.links.ResumePlacesByNode.{assignment_in, assignment_to, counted_by, stand_of, stands_at, Counts, IsNext};
ghost use Rattle.flat_compile.specs.links.ResumePlacesByNode.{AreStandsBelow, AreFoundAt, AreAssignedIn, AreLiveBelow, IsAssignedIn, IsLiveIn};

use crate::knowns::{is_known_before, known_steps};
use c_tree::expr::Lvalue;
use c_tree::flat::Thread;
use flow_graph::graph::{Action, Node, Part};
use flow_graph::live_sets::LiveSets;
use ido_base::limits::LOCAL_REGISTERS;
use ido_base::location::Location;
use ido_base::memory::OutOfMemory;
use ido_ints::Kind;
use log_schemes::locals::Locals;
use rv64_codegen::Plan;
use rv64_isa::object::Marks;
use std::alloc::Global;

/// A local on which a thread counts where it goes on, or that it assigns next.
#[derive(Clone, Copy, PartialEq, Eq, Drop)]
pub struct LiveLocal {
    /// The number of its home: of its register among those of locals, or of its word in the frame.
    pub colour: u8,
    pub local: usize,
    pub kind: Kind,
    /// The array to whose elements it refers, where it is a reference.
    pub refers: Option<u32>,
    /// It is a reference that isn't null there.
    pub known: bool,
}

/// Where a thread may be resumed, and what it has there.
#[derive(Drop)]
pub struct Resume {
    pub address: u64,
    /// The node that it goes on at.
    pub node: usize,
    /// It goes on past the boundary before that node, at its core; else at its entry.
    pub at_core: bool,
    /// The names whose locks it holds: their numbers among the names of the thread, ascending. Where no mutex is in an array they are those of the mutexes.
    pub held: Vec<u32>,
    /// The locals on which it counts there, in the order of their homes.
    pub live: Vec<LiveLocal>,
    /// Where a store is pending: the elements of which it writes one.
    pub pending: Option<Location>,
    /// Where a logged assignment is pending: the local that it assigns.
    pub assigned: Option<LiveLocal>,
}

/// Where a thread goes on: at a node's entry, or at its core, past the boundary before it.
#[derive(Clone, Copy, PartialEq, Eq, Drop)]
struct Stand {
    node: usize,
    at_core: bool,
}

/// An assignment of a local, and the node after it.
#[derive(Clone, Copy, Drop)]
struct Assignment {
    local: usize,
    next: usize,
}

/// The locals that are live at the entry of a node, without one.
#[derive(Clone, Copy, Drop)]
struct Counted {
    node: usize,
    without: Option<usize>,
}

// ---- Where

/// Whether the node gives a mutex back.
fn gives(node: &Node) -> bool
    ensures { result ≡ gives (node_of node.now).action }
{
    match node.action {
        Action::Unlock { .. } => true,
        _ => false,
    }
}

/// Whether a boundary stands before the node by choice.
fn is_chosen(plan: &Plan, node: usize) -> bool
    requires node { node < length plan.now.graph.now.nodes.items }
    requires cuts { length plan.now.cuts.now.before.items ≡ length plan.now.graph.now.nodes.items }
    ensures { IsTrue result ↔ IsChosen (graph_of plan.now.graph.now) (boundaries_of plan.now.cuts.now) node }
{
    plan.cuts.before[node] && !gives(&plan.graph.nodes[node])
}

// ---- What is held

/// How many locks the thread holds before the node.
fn count(plan: &Plan, number: usize, part: Part, node: usize) -> u32
    requires { IsOwnNode (plan_of plan.now) number part node }
    ensures { result ≡ count_held (set_before (plan_of plan.now) (thread_in (plan_of plan.now) number part) node) }
{
    plan.held.count(number as u32, (node - part.first) as u32)
}

/// Appends the number, if it is one of those that are held.
fn push_held(numbers: &mut Vec<u32>, number: u32, is_held: bool) -> Result<(), OutOfMemory>
    ensures { OnOk result (numbers.new.items ≡ numbers.old.items ++ (if is_held then number ∷ [] else [])) }
{
    if is_held {
        numbers.push(number)?;
    }
    Ok(())
}

/// The numbers of the names that are held, ascending.
fn numbers_of(alloc: Global, held: &[bool]) -> Result<Vec<u32>, OutOfMemory>
    requires { length held.now < 2 ^ 32 }
    ensures { IfOk result (λ r. r.items ≡ locks_held held.now) }
{
    let mut numbers = Vec::new(alloc);
    for number in 0..held.len() {
        push_held(&mut numbers, number as u32, held[number])?;
    }
    Ok(numbers)
}

/// The numbers of the names whose locks the thread holds before the node, ascending.
fn held(
    alloc: Global,
    plan: &Plan,
    number: usize,
    part: Part,
    node: usize,
) -> Result<Vec<u32>, OutOfMemory>
    requires { IsOwnNode (plan_of plan.now) number part node }
    ensures { IfOk result (λ r. r.items ≡ locks_held (set_before (plan_of plan.now) (thread_in (plan_of plan.now) number part) node)) }
{
    let held = plan.held.before(number as u32, (node - part.first) as u32);
    numbers_of(alloc, held)
}

// ---- The nodes

/// Where the thread may be resumed after the ECALL of a node: the node that it goes on at.
fn after(plan: &Plan, number: usize, part: Part, node: usize) -> Option<usize>
    requires { IsOwnNode (plan_of plan.now) number part node }
    ensures { IsPastCall (plan_of plan.now) (thread_in (plan_of plan.now) number part) node result }
{
    match plan.graph.nodes[node].action {
        Action::Lock { next, .. } => Some(next),
        Action::Unlock { next, .. } => {
            if count(plan, number, part, next) == 0 {
                None
            } else {
                Some(next)
            }
        }
        _ => None,
    }
}

/// Where the thread may be resumed after a boundary before a node: the node.
fn before(plan: &Plan, number: usize, part: Part, node: usize) -> Option<usize>
    requires { IsOwnNode (plan_of plan.now) number part node }
    ensures { IsBefore (plan_of plan.now) (thread_in (plan_of plan.now) number part) node result }
{
    if is_chosen(plan, node) {
        Some(node)
    } else {
        None
    }
}

/// Appends where the thread goes on at the node, if there is one.
fn push_some(stands: &mut Vec<Stand>, node: Option<usize>, at_core: bool) -> Result<(), OutOfMemory>
    ensures { OnOk result (stands.new.items ≡ stands.old.items ++ stands_at at_core node) }
{
    if let Some(node) = node {
        stands.push(Stand { node, at_core })?;
    }
    Ok(())
}

/// Where the thread goes on where it may be resumed, in the order of the addresses.
fn stands(alloc: Global, plan: &Plan, number: usize, part: Part) -> Result<Vec<Stand>, OutOfMemory>
    requires { IsOwn (plan_of plan.now) number part }
    ensures { IfOk result (λ r. AreStandsBelow (plan_of plan.now) (thread_in (plan_of plan.now) number part) (2 * part.end) r.items) }
{
    let mut stands = Vec::new(alloc);
    for node in part.first..part.end {
        push_some(&mut stands, before(plan, number, part, node), true)?;
        push_some(&mut stands, after(plan, number, part, node), false)?;
    }
    Ok(stands)
}

// ---- Logged assignments

/// The local that is assigned, and the node after that.
fn assignment_to(target: &Lvalue, next: usize) -> Option<Assignment>
    ensures { result ≡ assignment_to (lvalue_of target.now) next }
{
    match target {
        Lvalue::Local { local, .. } => Some(Assignment {
            local: *local as usize,
            next,
        }),
        Lvalue::Variable { .. } | Lvalue::Element { .. } => None,
    }
}

/// The assignment of a local that the action makes, if it makes one.
fn assignment_in(action: Action) -> Option<Assignment>
    ensures { result ≡ assignment_in (action_of action.entry) }
{
    match action {
        Action::Eval { target, next, .. } => assignment_to(target, next),
        Action::Store { .. } | Action::Test { .. } => None,
        Action::Lock { .. } | Action::Unlock { .. } => None,
        Action::End => None,
    }
}

/// The logged assignment that the node makes, if it makes one: where locals stand in the frame, and a lock is held.
fn logged(plan: &Plan, number: usize, part: Part, node: usize) -> Option<Assignment>
    requires { IsOwnNode (plan_of plan.now) number part node }
    ensures { IsNext (plan_of plan.now) (thread_in (plan_of plan.now) number part) node the_core result }
{
    match plan.log.locals() {
        Locals::Registers => None,
        Locals::Frame => {
            if count(plan, number, part, node) == 0 {
                None
            } else {
                assignment_in(plan.graph.nodes[node].action)
            }
        }
    }
}

/// The logged assignment that the thread makes next, if it makes one.
fn next_logged(plan: &Plan, number: usize, part: Part, stand: Stand) -> Option<Assignment>
    requires { IsOwnNode (plan_of plan.now) number part stand.node }
    ensures { IsNext (plan_of plan.now) (thread_in (plan_of plan.now) number part) stand.node (place_at stand.at_core) result }
{
    if stand.at_core {
        logged(plan, number, part, stand.node)
    } else {
        None
    }
}

/// The locals on which the thread counts at the node, where it makes that assignment next.
fn counted_at(node: usize, assignment: Option<Assignment>) -> Counted
    ensures { result ≡ counted_by node assignment }
{
    match assignment {
        None => Counted {
            node,
            without: None,
        },
        Some(made) => Counted {
            node: made.next,
            without: Some(made.local),
        },
    }
}

// ---- What is found

/// Whether the local is one of those.
fn counts(live: &LiveSets, counted: Counted, local: usize) -> bool
    ensures { IsTrue result ↔ Counts live.now counted local }
{
    match counted.without {
        None => live.is_live(counted.node, local),
        Some(other) => other != local && live.is_live(counted.node, local),
    }
}

/// The one of those locals that has this colour.
fn local_in(colours: &[u8], live: &LiveSets, counted: Counted, colour: usize) -> Option<usize>
    ensures is { IfSome result (IsLiveIn colours.now live.now counted colour) }
    ensures none { result ≡ None → (local : ℕ) → ¬ (IsLiveIn colours.now live.now counted colour local) }
{
    for (local, other) in colours.iter().enumerate() {
        if *other as usize == colour && counts(live, counted, local) {
            return Some(local);
        }
    }
    None
}

/// The local of that number, which has this colour, where the thread stands before the step.
fn live_local(
    text: &Thread,
    knowns: &[Vec<u32>],
    step: usize,
    local: usize,
    colour: usize,
) -> LiveLocal
    requires there { local < length text.now.locals.items }
    requires refers { local < length text.now.refers.items }
    requires colour { colour < LOCAL_REGISTERS }
    ensures colour { result.colour ≡ colour }
    ensures local { result.local ≡ local }
    ensures kind { slice_get text.now.locals.items local ≡ Some result.kind }
    ensures refers { slice_get text.now.refers.items local ≡ Some result.refers }
    ensures known { result.known ≡ is_known (slice_index_or (known_lists knowns.now) step []) result }
{
    let refers = text.refers[local];
    LiveLocal {
        colour: colour as u8,
        local,
        kind: text.locals[local],
        refers,
        known: refers.is_some() && is_known_before(knowns, step, local),
    }
}

/// Those locals in the order of their colours, where the thread stands before the step.
fn live_locals(
    alloc: Global,
    colours: &[u8],
    text: &Thread,
    knowns: &[Vec<u32>],
    step: usize,
    live: &LiveSets,
    counted: Counted,
) -> Result<Vec<LiveLocal>, OutOfMemory>
    requires kinds { length text.now.locals.items ≡ length colours.now }
    requires refers { length text.now.refers.items ≡ length colours.now }
    requires apart { (colour a b : ℕ) → IsLiveIn colours.now live.now counted colour a → IsLiveIn colours.now live.now counted colour b → a ≡ b }
    ensures { IfOk result (λ r. AreLiveBelow colours.now (thread_of text.now) (slice_index_or (known_lists knowns.now) step []) live.now counted
        LOCAL_REGISTERS r.items) }
{
    let mut found = Vec::new(alloc);
    for colour in 0..LOCAL_REGISTERS {
        if let Some(local) = local_in(colours, live, counted, colour) {
            found.push(live_local(text, knowns, step, local, colour))?;
        }
    }
    Ok(found)
}

/// The local that is assigned.
fn assigned_local(colours: &[u8], text: &Thread, local: usize) -> LiveLocal
    requires there { local < length colours.now }
    requires kinds { length text.now.locals.items ≡ length colours.now }
    requires refers { length text.now.refers.items ≡ length colours.now }
    ensures { IsAssignedIn colours.now (thread_of text.now) local result }
{
    LiveLocal {
        colour: colours[local],
        local,
        kind: text.locals[local],
        refers: text.refers[local],
        known: false,
    }
}

/// The local that the assignment assigns, if there is one.
fn assigned_by(colours: &[u8], text: &Thread, assignment: Option<Assignment>) -> Option<LiveLocal>
    requires there { IfSome assignment (λ a. a.local < length colours.now) }
    requires kinds { length text.now.locals.items ≡ length colours.now }
    requires refers { length text.now.refers.items ≡ length colours.now }
    ensures { AreAssignedIn colours.now (thread_of text.now) assignment result }
{
    match assignment {
        None => None,
        Some(made) => Some(assigned_local(colours, text, made.local)),
    }
}

/// What the thread has where it is resumed at the address and goes on so, where these are known before its steps.
fn found(
    alloc: Global,
    plan: &Plan,
    number: usize,
    part: Part,
    knowns: &[Vec<u32>],
    stand: Stand,
    address: u64,
) -> Result<Resume, OutOfMemory>
    requires own { IsOwnNode (plan_of plan.now) number part stand.node }
    requires knowns { AreKnowns (plan_of plan.now) (thread_in (plan_of plan.now) number part) knowns.now }
    ensures address { IfOk result (λ r. r.address ≡ address) }
    ensures stand { IfOk result (λ r. stand_of r ≡ stand) }
    ensures found { IfOk result (IsFound (plan_of plan.now) (thread_in (plan_of plan.now) number part)) }
{
    let node = stand.node;
    let colours: &[u8] = &plan.colours.threads[number];
    let text = &plan.flat.threads[number];
    let assignment = next_logged(plan, number, part, stand);
    let live = live_locals(
        alloc,
        colours,
        text,
        knowns,
        node - part.first,
        plan.live,
        counted_at(node, assignment),
    )?;
    Ok(Resume {
        address,
        node,
        at_core: stand.at_core,
        held: held(alloc, plan, number, part, node)?,
        live,
        pending: plan.graph.nodes[node].writes,
        assigned: assigned_by(colours, text, assignment),
    })
}

// ---- Of all threads

/// Where the thread may be resumed, by these addresses.
fn thread_resumes(
    alloc: Global,
    plan: &Plan,
    number: usize,
    part: Part,
    stands: &[Stand],
    addresses: &[u64],
) -> Result<Vec<Resume>, OutOfMemory>
    requires own { IsOwn (plan_of plan.now) number part }
    requires stands { (k : ℕ) (stand : Stand) → slice_get stands.now k ≡ Some stand → IsOwnNode (plan_of plan.now) number part stand.node }
    requires count { length stands.now ≡ length addresses.now }
    ensures { IfOk result (λ r. AreFoundAt (plan_of plan.now) (thread_in (plan_of plan.now) number part) stands.now addresses.now r.items) }
{
    let knowns = known_steps(alloc, &plan.flat.threads[number])?;
    let mut resumes = Vec::new(alloc);
    for k in 0..stands.len() {
        resumes.push(found(alloc, plan, number, part, &knowns, stands[k], addresses[k])?)?;
    }
    Ok(resumes)
}

/// Of each thread what it has where recovery may resume it, by its marks.
pub fn resume_table(
    alloc: Global,
    plan: &Plan,
    marks: &Marks,
) -> Result<Vec<Vec<Resume>>, OutOfMemory>
    requires plan { IsPlan (plan_of plan.now) }
    requires marked { AreMarked (plan_of plan.now) (resume_marks marks.now.threads.items) }
    ensures { IfOk result (λ r. (codes : Codes (plan_of plan.now)) → AreMarksOf (plan_of plan.now) codes (resume_marks marks.now.threads.items) →
        IsResumeTable (plan_of plan.now) codes r.items) }
{
    let mut table = Vec::new(alloc);
    for number in 0..plan.graph.threads.len() {
        let part = plan.graph.threads[number];
        let stands = stands(alloc, plan, number, part)?;
        let addresses = &marks.threads[number].resumes;
        table.push(thread_resumes(alloc, plan, number, part, &stands, addresses)?)?;
    }
    Ok(table)
}
