//! The code of one thread.
ghost use Rattle.std.specs.Prelude.{◌≡◌, ◌+◌, ◌*◌, ◌<◌, ◌≤◌, ◌^◌, List, IfOk, length, map, sum_by};
ghost use Rattle.ido_base.specs.declared.limits.TheConstants.{MOST_CODE_WORDS};
ghost use Rattle.rv64_isa.specs.Programs.{code_base, slot_of};
ghost use Rattle.rv64_link.specs.LabelledCode.{is_mark, is_resume, most_words_of, positions_from};
ghost use Rattle.rv64_link.specs.LinkedCode.{IsLinked};
ghost use Rattle.rv64_link.specs.links.Layout.{number_at, numbers, slots};
ghost use Rattle.rv64_link.specs.links.LabelRepresentation.{LabelsStand};

use crate::item::{number_at, push_item, size};
use crate::labels::Labels;
use ido_base::limits::CODE_BASE;
use ido_base::memory::OutOfMemory;
use rv64_isa::object::{CodeItem, ThreadMarks};
use std::alloc::Global;

/// The number of the first word of each item, and of the end.
fn numbers(
    alloc: Global,
    labels: &Labels,
    items: &[CodeItem],
    first: u32,
) -> Result<Vec<u32>, OutOfMemory>
    requires labels { LabelsStand labels.now items.now }
    requires few { sum_by most_words_of items.now ≤ MOST_CODE_WORDS }
    requires low { first ≤ 2 ^ 19 }
    ensures { IfOk result (λ v. v.items ≡ numbers items.now first 0 items.now) }
{
    let mut numbers = Vec::new(alloc);
    let mut number = first;
    for (position, item) in items.iter().enumerate() {
        numbers.push(number)?;
        number += size(labels, position, *item);
    }
    numbers.push(number)?;
    Ok(numbers)
}

/// The words of items.
fn words(
    alloc: Global,
    labels: &Labels,
    numbers: &[u32],
    items: &[CodeItem],
) -> Result<Vec<u32>, OutOfMemory>
    requires labels { LabelsStand labels.now items.now }
    ensures { IfOk result (λ v. map slot_of v.items ≡ slots items.now numbers.now 0 items.now) }
{
    let mut words = Vec::new(alloc);
    for (position, item) in items.iter().enumerate() {
        push_item(&mut words, labels, numbers, position, *item)?;
    }
    Ok(words)
}

/// The address of an item.
fn address(numbers: &[u32], position: usize) -> u64
    ensures { result ≡ code_base + 4 * number_at numbers.now position }
{
    CODE_BASE + 4 * u64::from(number_at(numbers, position))
}

/// The addresses of the marks of nodes.
fn nodes(alloc: Global, numbers: &[u32], items: &[CodeItem]) -> Result<Vec<u64>, OutOfMemory>
    ensures { IfOk result (λ v. v.items ≡ map (λ p. code_base + 4 * number_at numbers.now p) (positions_from 0 is_mark items.now)) }
{
    let mut nodes = Vec::new(alloc);
    for (position, item) in items.iter().enumerate() {
        if let CodeItem::MarkNext = item {
            nodes.push(address(numbers, position))?;
        }
    }
    Ok(nodes)
}

/// The addresses where recovery may resume.
fn resumes(alloc: Global, numbers: &[u32], items: &[CodeItem]) -> Result<Vec<u64>, OutOfMemory>
    ensures { IfOk result (λ v. v.items ≡ map (λ p. code_base + 4 * number_at numbers.now p) (positions_from 0 is_resume items.now)) }
{
    let mut resumes = Vec::new(alloc);
    for (position, item) in items.iter().enumerate() {
        if let CodeItem::ResumeNext = item {
            resumes.push(address(numbers, position))?;
        }
    }
    Ok(resumes)
}

/// The words and the marks of a thread, of which so many words stand before it.
#[tactic(auto, using(crate::proofs::Threads::is_linked, crate::proofs::Threads::is_few))]
pub fn link_thread(
    alloc: Global,
    items: &[CodeItem],
    first: u32,
) -> Result<(Vec<u32>, ThreadMarks), OutOfMemory>
    requires few { sum_by most_words_of items.now ≤ MOST_CODE_WORDS }
    requires low { first ≤ 2 ^ 19 }
    ensures linked { IfOk result (λ r. IsLinked (code_base + 4 * first) items.now (map slot_of r.0.items) r.1.nodes.items r.1.resumes.items) }
    ensures few { IfOk result (λ r. length r.0.items ≤ MOST_CODE_WORDS) }
{
    let labels = Labels::new(alloc, items)?;
    let numbers = numbers(alloc, &labels, items, first)?;
    let words = words(alloc, &labels, &numbers, items)?;
    let nodes = nodes(alloc, &numbers, items)?;
    let resumes = resumes(alloc, &numbers, items)?;
    Ok((words, ThreadMarks { nodes, resumes }))
}
