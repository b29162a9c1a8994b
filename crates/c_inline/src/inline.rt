//! Inlining: a program becomes its flat form.
ghost use Rattle.std.specs.Prelude.{◌≡◌, ◌≤◌, ◌++◌, ◌∷◌, ℕ, [], map, min, None, IfErr, IfOk};
ghost use Rattle.ido_base.specs.declared.limits.TheConstants.{MOST_PRICE};
ghost use Rattle.c_tree.specs.Programs.{program_of, function_of, mutex_of, thread_of};
ghost use Rattle.c_tree.specs.Flats as f;
ghost use Rattle.c_tree.specs.Inlining as i;
ghost use Rattle.c_tree.specs.Inlining.{flat_thread};
ghost use Rattle.c_tree.specs.HoldPrices.{full_price};
ghost use Rattle.c_tree.specs.Prices.{thread_price};
ghost use Rattle.c_inline.specs.links.Weights.{price};
ghost use Rattle.c_inline.specs.links.KnownWeights.{AreRight, IsUnknown};
ghost use Rattle.c_inline.specs.links.InlinedBodies.{AreSized, locals_of};
ghost use Rattle.c_inline.specs.Inline.{IsInlining};
ghost use Rattle.c_inline.specs.links.Faults.{IsDear, IsThreadFault, fault_among, form_with};

use crate::build::{Bodies, Locals, make_statements};
use crate::calls::function_calls;
use crate::copy::{copy_mutexes, copy_name, copy_variables};
use crate::rank::order;
use crate::recursion::first_back;
use crate::weigh::weigh;
use crate::weight::{PRICE, SIZE, statements_weight};
use c_tree::flat::{self, Flat};
use c_tree::hold::thread_hold;
use c_tree::language::Language;
use c_tree::program::{Function, Mutex, Program, Thread};
use ido_base::limits::MOST_PRICE;
use ido_base::place::Place;
use std::alloc::{AllocError, Global};
use thiserror::Error;

/// Why a program has no flat form.
#[derive(Clone, Copy, Debug, PartialEq, Eq, Drop, Error)]
pub enum InlineError {
    /// A call in a function names one from which calls lead back to it. The place is that of the name.
    #[error("a call leads back to its function")]
    Recursion { place: Place },
    /// A thread costs too much. The place is that of its name.
    #[error("a thread has too much code")]
    Code { place: Place },
    /// An allocation was refused.
    #[error("out of memory")]
    Memory,
}

impl From<AllocError> for InlineError {
    ghost use Rattle.c_inline.specs.declared.inline.InlineError.TheVariants.{Memory};

    ghost from_gives = { λ _ e. e ≡ Memory };

    fn from(_: AllocError) -> Self {
        InlineError::Memory
    }
}

/// The price of a thread, by those of functions.
fn thread_price(functions: &[Function], prices: &[Option<u64>], thread: &Thread) -> u64
    requires right { AreRight price (map function_of functions.now) prices.now }
    requires known { (g : ℕ) → ¬ (IsUnknown prices.now g) }
    ensures { result ≡ min (thread_price (flat_thread (map function_of functions.now) (thread_of thread.now))) u64.MAX }
{
    statements_weight(PRICE, functions, prices, &thread.body).saturating_add(PRICE.node)
}

/// Copies of the locals of a thread.
fn copy_locals(alloc: Global, thread: &Thread) -> Result<Locals, AllocError>
    ensures { IfOk result (λ locals. locals_of locals ≡ i.locals thread.now.locals.items thread.now.refers.items) }
{
    let mut kinds = Vec::new(alloc);
    kinds.extend_from_slice(&thread.locals)?;
    let mut refers = Vec::new(alloc);
    refers.extend_from_slice(&thread.refers)?;
    Ok(Locals { kinds, refers })
}

/// The flat form of a thread.
fn make_thread(alloc: Global, bodies: Bodies, thread: &Thread) -> Result<flat::Thread, AllocError>
    requires { AreSized (map function_of bodies.functions.now) bodies.sizes.now }
    ensures { IfOk result (λ t. f.thread_of t ≡ flat_thread (map function_of bodies.entry.functions.now) (thread_of thread.now)) }
{
    let mut locals = copy_locals(alloc, thread)?;
    let body = make_statements(alloc, bodies, 0, &thread.body, &mut locals)?;
    Ok(flat::Thread {
        name: copy_name(&thread.name)?,
        locals: locals.kinds,
        refers: locals.refers,
        body,
        closing: thread.closing,
    })
}

/// What the flat form of a thread costs in the language, where its plain price is known.
fn full_price(
    alloc: Global,
    language: Language,
    mutexes: &[Mutex],
    thread: &flat::Thread,
    plain: u64,
) -> Result<u64, AllocError>
    requires { plain ≡ min (thread_price (f.thread_of thread.now)) u64.MAX }
    ensures { IfOk result (λ price. price ≡ min (full_price language (form_with (map mutex_of mutexes.now)) (f.thread_of thread.now)) u64.MAX) }
{
    match language {
        Language::Plain => Ok(plain),
        Language::Full => {
            let holding = thread_hold(alloc, mutexes, thread)?;
            Ok(plain.saturating_add(holding))
        }
    }
}

/// The flat form of a thread that doesn't cost too much. One that does by its steps alone isn't made.
fn make_cheap(
    alloc: Global,
    language: Language,
    mutexes: &[Mutex],
    bodies: Bodies,
    prices: &[Option<u64>],
    thread: &Thread,
) -> Result<flat::Thread, InlineError>
    requires sized { AreSized (map function_of bodies.functions.now) bodies.sizes.now }
    requires right { AreRight price (map function_of bodies.functions.now) prices.now }
    requires known { (g : ℕ) → ¬ (IsUnknown prices.now g) }
    ensures made { IfOk result (λ t. f.thread_of t ≡ flat_thread (map function_of bodies.entry.functions.now) (thread_of thread.now)) }
    ensures cheap { IfOk result (λ t. full_price language (form_with (map mutex_of mutexes.now)) (f.thread_of t) ≤ MOST_PRICE) }
    ensures dear { IfErr result (IsDear language (map mutex_of mutexes.now) (flat_thread (map function_of bodies.entry.functions.now) (thread_of thread.now))) }
{
    let place = thread.name.place;
    let plain = thread_price(bodies.functions, prices, thread);
    if plain > MOST_PRICE {
        return Err(InlineError::Code { place });
    }
    let made = make_thread(alloc, bodies, thread)?;
    if full_price(alloc, language, mutexes, &made, plain)? > MOST_PRICE {
        return Err(InlineError::Code { place });
    }
    Ok(made)
}

/// Adds a thread to those that are made.
fn add(made: &mut Vec<flat::Thread>, thread: flat::Thread) -> Result<(), AllocError>
    ensures { IfOk result (λ _. made.new.items ≡ made.old.items ++ thread ∷ []) }
{
    made.push(thread)?;
    Ok(())
}

/// The flat form of threads, up to the first that costs too much.
fn make_threads(
    alloc: Global,
    language: Language,
    mutexes: &[Mutex],
    bodies: Bodies,
    prices: &[Option<u64>],
    threads: &[Thread],
) -> Result<Vec<flat::Thread>, InlineError>
    requires sized { AreSized (map function_of bodies.functions.now) bodies.sizes.now }
    requires right { AreRight price (map function_of bodies.functions.now) prices.now }
    requires known { (g : ℕ) → ¬ (IsUnknown prices.now g) }
    ensures made { IfOk result (λ made.
        map f.thread_of made.items ≡ map (flat_thread (map function_of bodies.entry.functions.now)) (map thread_of threads.now)) }
    ensures cheap { IfOk result (λ _.
        fault_among language (map mutex_of mutexes.now) (map function_of bodies.entry.functions.now) (map thread_of threads.now) ≡ None) }
    ensures dear { IfErr result (IsThreadFault language (map mutex_of mutexes.now) (map function_of bodies.entry.functions.now) (map thread_of threads.now)) }
{
    let mut made = Vec::with_capacity(alloc, threads.len())?;
    for thread in threads {
        let flat = make_cheap(alloc, language, mutexes, bodies, prices, thread)?;
        add(&mut made, flat)?;
    }
    Ok(made)
}

/// The flat form of a program: its threads with each call replaced by its function's body, with fresh locals.
/// `Recursion` is answered where a call leads back to the function that it stands in, and names the first such call by
/// place; else `Code` is where a thread costs more than 65,536, and names the first such thread. `Memory` is answered
/// also where the locals of a thread would be numbered past 2^32 - 1.
pub fn inline(alloc: Global, language: Language, program: &Program) -> Result<Flat, InlineError>
    ensures { IsInlining language (program_of program.now) result }
{
    let functions = program.functions.as_slice();
    let calls = function_calls(alloc, functions)?;
    let order = order(alloc, &calls)?;
    if let Some(place) = first_back(alloc, &calls, &order.ranks)? {
        return Err(InlineError::Recursion { place });
    }
    let prices = weigh(alloc, PRICE, functions, &calls, &order.callees_first)?;
    let sizes = weigh(alloc, SIZE, functions, &calls, &order.callees_first)?;
    let bodies = Bodies {
        functions,
        sizes: &sizes,
    };
    let threads = make_threads(
        alloc,
        language,
        &program.mutexes,
        bodies,
        &prices,
        &program.threads,
    )?;
    let mutexes = copy_mutexes(alloc, &program.mutexes)?;
    let variables = copy_variables(alloc, &program.variables)?;
    Ok(Flat {
        mutexes,
        variables,
        threads,
    })
}
