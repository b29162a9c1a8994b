//! Another list of a program's marks.
ghost use Rattle.std.specs.Prelude.{◌≡◌, IfOk};
ghost use Rattle.machine_model.specs.Executables.{node_marks, resume_marks};

use ido_base::memory::OutOfMemory;
use rv64_isa::object::{Marks, ThreadMarks};
use std::alloc::Global;

/// Another list of the same addresses.
fn copy_thread(alloc: Global, marks: &ThreadMarks) -> Result<ThreadMarks, OutOfMemory>
    ensures { IfOk result (λ copy. (copy.nodes.items ≡ marks.now.nodes.items) × (copy.resumes.items ≡ marks.now.resumes.items)) }
{
    Ok(ThreadMarks {
        nodes: marks.nodes.to_vec(alloc)?,
        resumes: marks.resumes.to_vec(alloc)?,
    })
}

/// A copy of the marks.
pub(crate) fn copy_of(alloc: Global, marks: &Marks) -> Result<Marks, OutOfMemory>
    ensures nodes { IfOk result (λ copy. node_marks copy.threads.items ≡ node_marks marks.now.threads.items) }
    ensures resumes { IfOk result (λ copy. resume_marks copy.threads.items ≡ resume_marks marks.now.threads.items) }
{
    let mut threads = Vec::with_capacity(alloc, marks.threads.len())?;
    for thread in &marks.threads {
        threads.push(copy_thread(alloc, thread)?)?;
    }
    Ok(Marks { threads })
}
