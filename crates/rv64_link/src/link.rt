//! Words and marks of code with labels, thread after thread.
ghost use Rattle.std.specs.Prelude.{◌≤◌, All, IfOk, length, map, sum_by};
ghost use Rattle.ido_base.specs.declared.limits.TheConstants.{MOST_THREADS, MOST_CODE_WORDS};
ghost use Rattle.rv64_isa.specs.Programs.{code_base};
ghost use Rattle.rv64_link.specs.LabelledCode.{most_words_of};
ghost use Rattle.rv64_link.specs.LinkedCode.{AreLinked};
ghost use Rattle.rv64_link.specs.links.Threads.{items_in, slots_in};

use crate::thread::link_thread;
use ido_base::memory::OutOfMemory;
use rv64_isa::object::{CodeItem, ThreadMarks};
use std::alloc::Global;

/// The words and the marks of each thread.
#[derive(Drop)]
pub struct LinkedThreads {
    pub code: Vec<Vec<u32>>,
    pub marks: Vec<ThreadMarks>,
}

/// The words and the marks of threads, thread after thread, where the first one's code begins at the base of all code. A branch is one word, or over
/// many items two: one by the inverse condition over a jump. A label stands where it stands first; one that stands nowhere is the end.
///
/// There are at most 8 threads, each of at most 65,536 words, where each branch counts as two.
pub fn link_threads(alloc: Global, threads: &[Vec<CodeItem>]) -> Result<LinkedThreads, OutOfMemory>
    requires threads { length threads.now ≤ MOST_THREADS }
    requires few { All (λ items. sum_by most_words_of items.items ≤ MOST_CODE_WORDS) threads.now }
    // The words do, thread after thread, what the code with labels does, and marks are the
    // addresses of the instructions that they stand before.
    ensures { IfOk result (λ r. AreLinked code_base (map items_in threads.now) (map slots_in r.code.items) r.marks.items) }
{
    let mut code = Vec::new(alloc);
    let mut marks = Vec::new(alloc);
    let mut first = 0;
    for items in threads {
        let (words, thread_marks) = link_thread(alloc, items, first)?;
        first += words.len() as u32;
        code.push(words)?;
        marks.push(thread_marks)?;
    }
    Ok(LinkedThreads { code, marks })
}
