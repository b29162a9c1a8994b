//! The front of the compiler on sources of a megabyte, each of one form over and over: functions with bodies, unary operators, long sums, loops.
//!
//! Each source is read, its names and kinds are found, its indexes checked and its calls replaced by bodies.
use anyhow::Error;
use c_inline::inline::inline;
use c_reader::read;
use c_tree::flat::Flat;
use c_tree::language::Language;
use c_typer::type_tree;
use ido_base::limits::MOST_SOURCE_BYTES;
use std::alloc::{AllocError, Global};
use std::time::Instant;

/// What stands in front of the functions, and after them.
const BEFORE: &[u8] = b"mutex m; persistent(m) int x;\n";

const AFTER: &[u8] = b"thread t { lock(m); x = 1; unlock(m); }\n";

/// A form of functions: what stands before the function's number, and what stands after it.
struct Form {
    name: &'static str,
    count: u32,
    head: &'static [u8],
    body: &'static [u8],
}

const BODIES: Form = Form {
    name: "bodies",
    count: 10800,
    head: b"int f",
    body: b"(int a, int b) { int c = a * 3; if (c < b) { c = b - 1; } else { c += 2; } return c; }\n",
};

const UNARY: Form = Form {
    name: "unary",
    count: 8065,
    head: b"int f",
    body: b"(int a) { return ~-~-~-~-~-~-~-~-~-~-~-~-~-~-~-~-~-~-~-~-~-~-~-~-~-~-~-~-~-~-~-~-~-~-~-~-~-~-~-~-~-~-~-~-~-~-~-~-~-a; }\n",
};

const SUMS: Form = Form {
    name: "sums",
    count: 7281,
    head: b"int f",
    body: b"(int a) { return a + a + a + a + a + a + a + a + a + a + a + a + a + a + a + a + a + a + a + a + a + a + a + a + a + a + a + a + a; }\n",
};

const LOOPS: Form = Form {
    name: "loops",
    count: 13200,
    head: b"void f",
    body: b"(int a) { for (int i = 0; i < 10; i++) { while (a > i) { a--; } } }\n",
};

/// Adds a number in five decimal digits.
fn push_number(text: &mut Vec<u8>, number: u32) -> Result<(), AllocError> {
    for power in [10_000, 1000, 100, 10, 1] {
        text.push(b'0' + (number / power % 10) as u8)?;
    }
    Ok(())
}

/// Adds a function of the form, with this number.
fn push_function(text: &mut Vec<u8>, form: &Form, number: u32) -> Result<(), AllocError> {
    text.extend_from_slice(form.head)?;
    push_number(text, number)?;
    text.extend_from_slice(form.body)
}

/// A source of the form, with so many functions.
fn source(alloc: Global, form: &Form) -> Result<Vec<u8>, AllocError> {
    let mut text = Vec::with_capacity(alloc, MOST_SOURCE_BYTES)?;
    text.extend_from_slice(BEFORE)?;
    for number in 0..form.count {
        push_function(&mut text, form, number)?;
    }
    text.extend_from_slice(AFTER)?;
    Ok(text)
}

/// The form of a source without calls, where the front takes it.
pub(crate) fn flat_form(alloc: Global, text: &[u8]) -> Option<Flat> {
    if text.len() > MOST_SOURCE_BYTES {
        return None;
    }
    let Ok(tree) = read(alloc, Language::Plain, text) else {
        return None;
    };
    let Ok(program) = type_tree(alloc, Language::Plain, tree) else {
        return None;
    };
    if c_ranges::check(alloc, &program).is_err() {
        return None;
    }
    inline(alloc, Language::Plain, &program).ok()
}

/// Takes a source of the form through the front.
fn measure_form(rt: &HostRuntime, form: &Form) -> Result<(), Error> {
    let alloc = rt.alloc();
    let text = source(alloc, form)?;
    let start = Instant::now(rt)?;
    let accepted = flat_form(alloc, &text).is_some();
    let time = start.elapsed(rt)?;
    eprintln!(rt; "{}: {} ms", form.name, time.as_millis())?;
    println!(rt; "{}: {} bytes, accepted {accepted}", form.name, text.len())?;
    Ok(())
}

/// Takes a source of each form through it.
pub(crate) fn measure(rt: &HostRuntime) -> Result<(), Error> {
    measure_form(rt, &BODIES)?;
    measure_form(rt, &UNARY)?;
    measure_form(rt, &SUMS)?;
    measure_form(rt, &LOOPS)
}
