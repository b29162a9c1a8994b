//! Analyses of two flow graphs of eight threads, of sources near the greatest price of a thread. In the first each thread assigns a local and then one
//! of 16 variables, over and over in one section, and has 514 nodes; in the second it has a loop of 230 assignments, of each of as many elements to
//! any element of the same array. They are lowered, their live locals, registers and cuts are found, and the cuts are checked.
use crate::front::flat_form;
use anyhow::Error;
use c_tree::flat::Flat;
use flow_graph::graph::Graph;
use flow_live::live;
use flow_lower::lower;
use reg_colour::colour;
use region_checker::check;
use region_cutter::cut;
use std::alloc::{AllocError, Global};
use std::time::Instant;

const THREADS: u32 = 8;

/// What stands before the threads.
const VARIABLES: &[u8] = b"mutex q; persistent(q) long z[512];
persistent(q) long A; persistent(q) long B; persistent(q) long C; persistent(q) long D;
persistent(q) long E; persistent(q) long F; persistent(q) long G; persistent(q) long H;
persistent(q) long I; persistent(q) long J; persistent(q) long K; persistent(q) long L;
persistent(q) long M; persistent(q) long N; persistent(q) long O; persistent(q) long P;
";

/// After a thread's name, of a thread with assignments in a row.
const ROW: &[u8] = b" { long a; long b; long c; long d; long e; long f; long g; long h;
long i; long j; long k; long l; long m; long n; long o; long p; lock(q);
";

/// A local and a variable are assigned, for which `x` and `X` stand.
const ROUND: &[u8] = b"x = x + X; X = X + x;\n";

const ROUNDS: u32 = 165;

/// Locals of a thread with assignments in a row, and variables.
const NAMES: u32 = 16;

const ROW_END: &[u8] = b"unlock(q); }\n";

/// After a thread's name, of a thread with a loop.
const LOOP: &[u8] = b" { long i; lock(q); while (i < 3) {\n";

const ELEMENTS: u32 = 230;

const LOOP_END: &[u8] = b"} unlock(q); }\n";

/// Adds the assignments of a local and of a variable.
fn push_round(text: &mut Vec<u8>, number: u32) -> Result<(), AllocError> {
    let name = (number % NAMES) as u8;
    for byte in ROUND {
        text.push(match *byte {
            b'x' => b'a' + name,
            b'X' => b'A' + name,
            other => other,
        })?;
    }
    Ok(())
}

/// Adds assignments in a row.
fn push_row(text: &mut Vec<u8>) -> Result<(), AllocError> {
    text.extend_from_slice(ROW)?;
    for number in 0..ROUNDS {
        push_round(text, number)?;
    }
    text.extend_from_slice(ROW_END)
}

/// Adds three decimal digits.
fn push_digits(text: &mut Vec<u8>, number: u32) -> Result<(), AllocError> {
    for power in [100, 10, 1] {
        text.push(b'0' + (number / power % 10) as u8)?;
    }
    Ok(())
}

/// Adds the assignment of an element, from the hundredth on, to any one.
fn push_assignment(text: &mut Vec<u8>, element: u32) -> Result<(), AllocError> {
    text.extend_from_slice(b"z[i & 511] = z[")?;
    push_digits(text, element % 400 + 100)?;
    text.extend_from_slice(b"];\n")
}

/// Adds assignments in a loop.
fn push_loop(text: &mut Vec<u8>) -> Result<(), AllocError> {
    text.extend_from_slice(LOOP)?;
    for element in 0..ELEMENTS {
        push_assignment(text, element)?;
    }
    text.extend_from_slice(LOOP_END)
}

/// Adds the thread of this number.
fn push_thread(text: &mut Vec<u8>, number: u32, looped: bool) -> Result<(), AllocError> {
    text.extend_from_slice(b"thread t")?;
    text.push(b'0' + (number % 10) as u8)?;
    if looped {
        push_loop(text)
    } else {
        push_row(text)
    }
}

fn source(a: Global, looped: bool) -> Result<Vec<u8>, AllocError> {
    let mut text = Vec::new(a);
    text.extend_from_slice(VARIABLES)?;
    for number in 0..THREADS {
        push_thread(&mut text, number, looped)?;
    }
    Ok(text)
}

/// The form of the source, which the front takes.
fn flat(a: Global, looped: bool) -> Result<Option<Flat>, AllocError> {
    let text = source(a, looped)?;
    Ok(flat_form(a, &text))
}

/// What is found of a flow graph.
#[derive(Drop)]
struct Found {
    nodes: usize,
    registers: bool,
    boundaries: usize,
    accepted: bool,
}

/// Whether there are registers for its live locals.
fn has_registers(a: Global, graph: &Graph) -> Result<bool, Error> {
    let live = live(a, graph)?;
    Ok(colour(a, graph, &live).is_ok())
}

/// How many boundaries are chosen, and whether they are accepted.
fn boundaries(a: Global, graph: &Graph) -> Result<(usize, bool), Error> {
    let cuts = cut(a, graph)?;
    let chosen = cuts.before.iter().filter(|stands| **stands).count();
    Ok((chosen, check(a, graph, &cuts).is_ok()))
}

fn analysed(a: Global, flat: &Flat) -> Result<Found, Error> {
    let graph = lower(a, flat)?;
    let registers = has_registers(a, &graph)?;
    let (boundaries, accepted) = boundaries(a, &graph)?;
    Ok(Found {
        nodes: graph.nodes.len(),
        registers,
        boundaries,
        accepted,
    })
}

/// Analyses the graph of assignments in a row, or in a loop.
fn measure_graph(rt: &HostRuntime, looped: bool) -> Result<(), Error> {
    let Some(flat) = flat(rt.alloc(), looped)? else {
        println!(rt; "refused")?;
        return Ok(());
    };
    let start = Instant::now(rt)?;
    let found = analysed(rt.alloc(), &flat)?;
    let time = start.elapsed(rt)?;
    eprintln!(rt; "graph: {} ms", time.as_millis())?;
    println!(rt;
        "{} nodes, registers {}, {} boundaries, accepted {}",
        found.nodes, found.registers, found.boundaries, found.accepted
    )?;
    Ok(())
}

pub(crate) fn measure(rt: &HostRuntime) -> Result<(), Error> {
    measure_graph(rt, false)?;
    measure_graph(rt, true)
}
