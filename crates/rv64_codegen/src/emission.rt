//! The code of all threads.
ghost use Rattle.std.specs.Prelude.{◌≡◌, ◌<◌, ◌≤◌, ◌++◌, ◌∷◌, [], length, map, sum_by, All, None, IfOk, OnOk};
ghost use Rattle.ido_base.specs.declared.limits.TheConstants.{MOST_THREADS, MOST_CODE_WORDS};
ghost use Rattle.rv64_isa.specs.declared.object.CodeItem.TheVariants.{Here};
ghost use Rattle.rv64_link.specs.LabelledCode.{most_words_of};
ghost use Rattle.rv64_link.specs.links.Threads.{items_in};
ghost use Rattle.node_code.specs.Pieces.{Appends};
ghost use Rattle.c_tree.specs.Temporaries.{temporaries_fault};
ghost use Rattle.c_tree.specs.WellFormed.{shape_of, initial_numbers};
ghost use Rattle.memory_layout.specs.Variables.{AreInitial, AreAddresses};
ghost use Rattle.thread_code.specs.Plans.{IsPlan};
ghost use Rattle.rv64_codegen.specs.Plans.{plan_of};
ghost use Rattle.rv64_codegen.specs.StoreCleans.{AllCleanAtOnce};
ghost use Rattle.rv64_codegen.specs.ThreadPieces.{IsCode};
ghost use Rattle.c_tree.specs.links.KnownNames.{names_of};
ghost use Rattle.rv64_codegen.specs.links.Threads.{IsOpen, IsOwn, AreCleaned, IsPiece};
ghost use Rattle.rv64_codegen.specs.links.Emission.{IsEmittedThread, IsEmittedOf, AreHomesOf, AreListsOf, AreNamesOf, AreEmittedTo};

use crate::actions::push_action;
use crate::guards::push_guard;
use crate::initial::initial_bytes;
use crate::plan::Plan;
use crate::registers::{homes, live_lists};
use crate::thread::ThreadPlan;
use c_tree::expr::LockRef;
use c_tree::lock_names::lock_names;
use c_tree::shapes::shapes;
use expr_code::{Frame, Home};
use ido_base::memory::OutOfMemory;
use machine_model::object::Code;
use memory_layout::variables::addresses;
use region_cutter::cleaned_later;
use rv64_isa::field::Register;
use rv64_isa::object::{CodeItem, Label};
use std::alloc::Global;

/// Appends a label.
fn push_label(items: &mut Vec<CodeItem>, label: Label) -> Result<(), OutOfMemory>
    ensures { OnOk result (items.new.items ≡ items.old.items ++ Here label ∷ []) }
{
    let item = CodeItem::Here(label);
    match item {
        CodeItem::Instruction(instr) => items.push(CodeItem::Instruction(instr))?,
        _ => items.push(item)?,
    }
    Ok(())
}

/// Appends the code of a node: the boundary before it, what it does, and how it goes on.
fn push_node(
    alloc: Global,
    items: &mut Vec<CodeItem>,
    thread: &ThreadPlan,
    node: usize,
) -> Result<(), OutOfMemory>
    requires { IsOwn thread.now node }
    ensures { OnOk result (Appends items.old.items items.new.items (IsPiece thread.now node)) }
{
    push_guard(alloc, items, thread, node)?;
    push_action(alloc, items, thread, node)
}

/// The code of a thread: node after node in their order, each after its label.
fn thread_items(alloc: Global, thread: &ThreadPlan) -> Result<Vec<CodeItem>, OutOfMemory>
    requires { IsOpen thread.now }
    ensures { IfOk result (λ r. IsEmittedThread thread.now r.items) }
{
    let mut items = Vec::new(alloc);
    for node in thread.part.first..thread.part.end {
        push_label(&mut items, thread.label(node))?;
        push_node(alloc, &mut items, thread, node)?;
    }
    Ok(items)
}

/// The code of the thread of this number, whose locals stand here.
fn emit_from<'a>(
    alloc: Global,
    plan: &'a Plan,
    addresses: &'a [u32],
    later: &'a [bool],
    homes: &'a [Home],
    live: &'a [Vec<Register>],
    names: &'a [LockRef<'a>],
    number: usize,
) -> Result<Vec<CodeItem>, OutOfMemory>
    requires plan { IsPlan (plan_of plan.now) }
    requires shallow { temporaries_fault (plan_of plan.now).flat ≡ None }
    requires addresses { AreAddresses (map shape_of (plan_of plan.now).flat.variables) addresses.now }
    requires later { AreCleaned (plan_of plan.now) later.now }
    requires number { number < length plan.now.graph.now.threads.items }
    requires homes { AreHomesOf (plan_of plan.now) number homes.now }
    requires live { AreListsOf (plan_of plan.now) number homes.now live.now }
    requires names { AreNamesOf (plan_of plan.now) number (names_of names.now) }
    ensures { IfOk result (λ r. IsEmittedOf (plan_of plan.now) number r.items) }
{
    let thread = ThreadPlan {
        plan,
        number: number as u32,
        part: plan.graph.threads[number],
        frame: Frame {
            addresses,
            locals: homes,
        },
        names,
        live,
        later,
    };
    let items = thread_items(alloc, &thread)?;
    Ok(items)
}

/// The code of the thread of this number.
fn emit_thread(
    alloc: Global,
    plan: &Plan,
    addresses: &[u32],
    later: &[bool],
    number: usize,
) -> Result<Vec<CodeItem>, OutOfMemory>
    requires plan { IsPlan (plan_of plan.now) }
    requires shallow { temporaries_fault (plan_of plan.now).flat ≡ None }
    requires addresses { AreAddresses (map shape_of (plan_of plan.now).flat.variables) addresses.now }
    requires later { AreCleaned (plan_of plan.now) later.now }
    requires number { number < length plan.now.graph.now.threads.items }
    ensures { IfOk result (λ r. IsEmittedOf (plan_of plan.now) number r.items) }
{
    let homes = homes(
        alloc,
        plan.log,
        number as u32,
        &plan.colours.threads[number],
    )?;
    let part = plan.graph.threads[number];
    let live = live_lists(alloc, plan, &homes, part)?;
    let text = &plan.flat.threads[number];
    let names = lock_names(alloc, &plan.flat.mutexes, &text.body)?;
    emit_from(
        alloc,
        &*plan,
        &*addresses,
        &*later,
        &homes,
        &live,
        &names,
        number,
    )
}

/// The code of all threads.
fn emit_threads(
    alloc: Global,
    plan: &Plan,
    addresses: &[u32],
    later: &[bool],
) -> Result<Vec<Vec<CodeItem>>, OutOfMemory>
    requires plan { IsPlan (plan_of plan.now) }
    requires shallow { temporaries_fault (plan_of plan.now).flat ≡ None }
    requires addresses { AreAddresses (map shape_of (plan_of plan.now).flat.variables) addresses.now }
    requires later { AreCleaned (plan_of plan.now) later.now }
    ensures { IfOk result (λ r. AreEmittedTo (plan_of plan.now) (length plan.now.graph.now.threads.items) r.items) }
{
    let mut threads = Vec::new(alloc);
    for number in 0..plan.graph.threads.len() {
        let items = emit_thread(alloc, plan, addresses, later, number)?;
        threads.push(items)?;
    }
    Ok(threads)
}

/// Of each node whether a later store cleans the line that it stores into.
fn cleaned(alloc: Global, plan: &Plan) -> Result<Vec<bool>, OutOfMemory>
    requires { IsPlan (plan_of plan.now) }
    ensures { IfOk result (λ r. AreCleaned (plan_of plan.now) r.items) }
{
    let shapes = shapes(alloc, &plan.flat.variables)?;
    cleaned_later(alloc, plan.graph, plan.cuts, &shapes)
}

/// The address of each variable.
fn places(alloc: Global, plan: &Plan) -> Result<Vec<u32>, OutOfMemory>
    requires { IsPlan (plan_of plan.now) }
    ensures { IfOk result (λ r. AreAddresses (map shape_of (plan_of plan.now).flat.variables) r.items) }
{
    let shapes = shapes(alloc, &plan.flat.variables)?;
    addresses(alloc, &shapes)
}

/// The code of a program: that of each thread, the bytes of the variables, and the number of mutexes.
/// Wherever the items are linked, with room, they are the thread's code; a store's line is cleaned at once where no later store of the region cleans it,
/// and outside the code of boundaries no other line is. Where no expression needs too many temporaries, want of memory is all that may
/// hinder it.
pub fn emit(alloc: Global, plan: &Plan) -> Result<Code, OutOfMemory>
    requires plan { IsPlan (plan_of plan.now) }
    requires shallow { temporaries_fault (plan_of plan.now).flat ≡ None }
    ensures code { IfOk result (λ code. IsCode (plan_of plan.now) (map items_in code.threads.items)) }
    ensures cleans { IfOk result (λ code. AllCleanAtOnce (plan_of plan.now) (map items_in code.threads.items)) }
    ensures threads { IfOk result (λ code. length code.threads.items ≤ MOST_THREADS) }
    ensures few { IfOk result (λ code. All (λ items. sum_by most_words_of items.items ≤ MOST_CODE_WORDS) code.threads.items) }
    ensures initial { IfOk result (λ code.
        AreInitial (map shape_of (plan_of plan.now).flat.variables) (map initial_numbers (plan_of plan.now).flat.variables) code.initial.items) }
    ensures mutexes { IfOk result (λ code. code.mutexes ≡ length (plan_of plan.now).flat.mutexes) }
    ensures log { IfOk result (λ code. code.log ≡ (plan_of plan.now).log) }
{
    let addresses = places(alloc, plan)?;
    let initial = initial_bytes(alloc, &plan.flat.variables)?;
    let later = cleaned(alloc, plan)?;
    let threads = emit_threads(alloc, plan, &addresses, &later)?;
    Ok(Code {
        threads,
        initial,
        mutexes: plan.flat.mutexes.len() as u32,
        log: plan.log,
    })
}
