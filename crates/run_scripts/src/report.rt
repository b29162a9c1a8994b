//! Reports.
ghost use Rattle.std.specs.Prelude.{◌≡◌, ◌++◌, None, Some, map, OnOk, IfOk, flat_map};
ghost use Rattle.std.specs.Option.{option_to_list};
ghost use Rattle.run_scripts.specs.Reports.{element_text, variable_line, count_line, count_lines, fence_lines, numbers_in, referred, reported};
ghost use Rattle.run_scripts.specs.Reports.{run_text, schedule_line, hart_text, unsettled_line, settled_report, report};
ghost use Rattle.run_scripts.specs.Runs.{runs_of};
ghost use Rattle.run_scripts.specs.links.ReportViews.{steps_of, variable_of, state_of};
ghost use Rattle.run_scripts.specs.links.RunViews.{run_of};

use crate::runs::{Run, first_run};
use ido_base::memory::OutOfMemory;
use std::alloc::Global;

/// A variable as it is reported: its name, and the number of each element. Of a reference it is that of the element to which it leads, and null has none.
#[derive(Drop)]
pub struct Variable {
    pub name: Vec<u8>,
    pub elements: Vec<Option<i128>>,
}

/// A state as it is reported.
#[derive(Drop)]
pub struct Reported {
    /// The harts, or the threads, that aren't settled, ascending.
    pub unsettled: Vec<u32>,
    /// The variables, in order of declaration.
    pub variables: Vec<Variable>,
    /// How many sections of each thread have ended.
    pub ended: Vec<u64>,
    /// A schedule for each life: the number of the thread of each step.
    pub schedules: Vec<Vec<u32>>,
}

/// What is reported of a reference: the number of the element to which it leads, and none of null.
#[tactic(auto, using(crate::proofs::ReportedNumbers::leads, crate::proofs::ReportedNumbers::leads_nowhere))]
fn referred(number: i128) -> Option<i128>
    ensures { result ≡ referred number }
{
    if number > 0 { Some(number - 1) } else { None }
}

/// What is reported of an element with this number, of a variable that refers to that array, or to none.
fn reported_element(refers: Option<u32>, number: i128) -> Option<i128>
    ensures { result ≡ reported refers number }
{
    match refers {
        Some(_) => referred(number),
        None => Some(number),
    }
}

/// What is reported of elements with these numbers, of a variable that refers to that array, or to none.
pub fn reported_elements(
    alloc: Global,
    refers: Option<u32>,
    numbers: &[i128],
) -> Result<Vec<Option<i128>>, OutOfMemory>
    ensures { IfOk result (λ elements. elements.items ≡ map (reported refers) numbers.now) }
{
    let mut elements = Vec::new(alloc);
    for number in numbers {
        elements.push(reported_element(refers, *number))?;
    }
    Ok(elements)
}

/// Adds the number of an element; null has none.
fn put_some(numbers: &mut Vec<i128>, element: Option<i128>) -> Result<(), OutOfMemory>
    ensures { OnOk result (numbers.new.items ≡ numbers.old.items ++ option_to_list element) }
{
    if let Some(number) = element {
        numbers.push(number)?;
    }
    Ok(())
}

/// Adds the numbers of elements; null has none.
fn put_all_some(numbers: &mut Vec<i128>, elements: &[Option<i128>]) -> Result<(), OutOfMemory>
    ensures { OnOk result (numbers.new.items ≡ numbers.old.items ++ flat_map option_to_list elements.now) }
{
    for element in elements {
        put_some(numbers, *element)?;
    }
    Ok(())
}

/// The numbers of the elements of all variables; null has none.
pub fn numbers(alloc: Global, variables: &[Variable]) -> Result<Vec<i128>, OutOfMemory>
    ensures { IfOk result (λ numbers. numbers.items ≡ flat_map numbers_in (map variable_of variables.now)) }
{
    let mut numbers = Vec::new(alloc);
    for variable in variables {
        put_all_some(&mut numbers, &variable.elements)?;
    }
    Ok(numbers)
}

/// Adds bytes.
pub fn put(report: &mut Vec<u8>, bytes: &[u8]) -> Result<(), OutOfMemory>
    ensures { OnOk result (report.new.items ≡ report.old.items ++ bytes.now) }
{
    report.extend_from_slice(bytes)?;
    Ok(())
}

/// Adds ` 6`.
#[tactic(auto, unfolding(crate::specs::Reports::element_text))]
fn put_number(alloc: Global, report: &mut Vec<u8>, number: i128) -> Result<(), OutOfMemory>
    ensures { OnOk result (report.new.items ≡ report.old.items ++ element_text (Some number)) }
{
    let text = format!(in alloc; " {number}")?;
    put(report, text.as_bytes())
}

/// Adds ` null`.
#[tactic(auto, unfolding(crate::specs::Reports::element_text))]
fn put_null(report: &mut Vec<u8>) -> Result<(), OutOfMemory>
    ensures { OnOk result (report.new.items ≡ report.old.items ++ element_text None) }
{
    put(report, b" null")
}

/// Adds ` 6` or ` null`.
fn put_element(
    alloc: Global,
    report: &mut Vec<u8>,
    element: Option<i128>,
) -> Result<(), OutOfMemory>
    ensures { OnOk result (report.new.items ≡ report.old.items ++ element_text element) }
{
    match element {
        Some(number) => put_number(alloc, report, number),
        None => put_null(report),
    }
}

/// Adds ` 1 2 3`.
fn put_elements(
    alloc: Global,
    report: &mut Vec<u8>,
    elements: &[Option<i128>],
) -> Result<(), OutOfMemory>
    ensures { OnOk result (report.new.items ≡ report.old.items ++ flat_map element_text elements.now) }
{
    for element in elements {
        put_element(alloc, report, *element)?;
    }
    Ok(())
}

/// Adds the line `x = 6` of a variable.
#[tactic(auto, unfolding(crate::specs::Reports::variable_line))]
fn put_variable(alloc: Global, report: &mut Vec<u8>, variable: &Variable) -> Result<(), OutOfMemory>
    ensures { OnOk result (report.new.items ≡ report.old.items ++ variable_line (variable_of variable.now)) }
{
    put(report, &variable.name)?;
    put(report, b" =")?;
    put_elements(alloc, report, &variable.elements)?;
    put(report, b"\n")
}

/// Adds the lines of variables.
fn put_variables(
    alloc: Global,
    report: &mut Vec<u8>,
    variables: &[Variable],
) -> Result<(), OutOfMemory>
    ensures { OnOk result (report.new.items ≡ report.old.items ++ flat_map variable_line (map variable_of variables.now)) }
{
    for variable in variables {
        put_variable(alloc, report, variable)?;
    }
    Ok(())
}

/// Adds the line of a thread, as `ended 0 2`.
#[tactic(auto, unfolding(crate::specs::Reports::count_line))]
fn put_count(
    alloc: Global,
    report: &mut Vec<u8>,
    word: &[u8],
    thread: usize,
    count: u64,
) -> Result<(), OutOfMemory>
    ensures { OnOk result (report.new.items ≡ report.old.items ++ count_line word.now thread count) }
{
    put(report, word)?;
    let text = format!(in alloc; " {thread} {count}\n")?;
    put(report, text.as_bytes())
}

/// Adds a line for each thread.
fn put_counts(
    alloc: Global,
    report: &mut Vec<u8>,
    word: &[u8],
    counts: &[u64],
) -> Result<(), OutOfMemory>
    ensures { OnOk result (report.new.items ≡ report.old.items ++ count_lines word.now 0 counts.now) }
{
    for (thread, count) in counts.iter().enumerate() {
        put_count(alloc, report, word, thread, *count)?;
    }
    Ok(())
}

/// Adds the line `fences T N` of each thread.
pub fn put_fences(alloc: Global, report: &mut Vec<u8>, fences: &[u64]) -> Result<(), OutOfMemory>
    ensures { OnOk result (report.new.items ≡ report.old.items ++ fence_lines fences.now) }
{
    put_counts(alloc, report, b"fences", fences)
}

/// Adds ` T*N`.
#[tactic(auto, unfolding(crate::specs::Reports::run_text))]
fn put_run(alloc: Global, report: &mut Vec<u8>, run: Run) -> Result<(), OutOfMemory>
    ensures { OnOk result (report.new.items ≡ report.old.items ++ run_text (run_of run)) }
{
    let Run { thread, steps } = run;
    let text = format!(in alloc; " {thread}*{steps}")?;
    put(report, text.as_bytes())
}

/// Adds ` T*N` for each longest run of a schedule.
fn put_runs(alloc: Global, report: &mut Vec<u8>, schedule: &[u32]) -> Result<(), OutOfMemory>
    ensures { OnOk result (report.new.items ≡ report.old.items ++ flat_map run_text (runs_of schedule.now)) }
{
    let mut rest = schedule;
    while let Some((run, after)) = first_run(rest) {
        put_run(alloc, report, run)?;
        rest = after;
    }
    Ok(())
}

/// Adds the line of a schedule.
#[tactic(auto, unfolding(crate::specs::Reports::schedule_line))]
fn put_schedule(alloc: Global, report: &mut Vec<u8>, schedule: &[u32]) -> Result<(), OutOfMemory>
    ensures { OnOk result (report.new.items ≡ report.old.items ++ schedule_line schedule.now) }
{
    put(report, b"schedule")?;
    put_runs(alloc, report, schedule)?;
    put(report, b"\n")
}

/// Adds the lines of schedules.
fn put_schedules(
    alloc: Global,
    report: &mut Vec<u8>,
    schedules: &[Vec<u32>],
) -> Result<(), OutOfMemory>
    ensures { OnOk result (report.new.items ≡ report.old.items ++ flat_map schedule_line (map steps_of schedules.now)) }
{
    for schedule in schedules {
        put_schedule(alloc, report, schedule)?;
    }
    Ok(())
}

/// Adds ` H`.
#[tactic(auto, unfolding(crate::specs::Reports::hart_text))]
fn put_hart(alloc: Global, report: &mut Vec<u8>, hart: u32) -> Result<(), OutOfMemory>
    ensures { OnOk result (report.new.items ≡ report.old.items ++ hart_text hart) }
{
    let text = format!(in alloc; " {hart}")?;
    put(report, text.as_bytes())
}

/// Adds ` H` for each hart.
fn put_harts(alloc: Global, report: &mut Vec<u8>, harts: &[u32]) -> Result<(), OutOfMemory>
    ensures { OnOk result (report.new.items ≡ report.old.items ++ flat_map hart_text harts.now) }
{
    for hart in harts {
        put_hart(alloc, report, *hart)?;
    }
    Ok(())
}

/// The line `unsettled H ..`.
#[tactic(auto, unfolding(crate::specs::Reports::unsettled_line))]
fn unsettled_line(alloc: Global, harts: &[u32]) -> Result<Vec<u8>, OutOfMemory>
    ensures { IfOk result (λ output. output.items ≡ unsettled_line harts.now) }
{
    let mut output = Vec::new(alloc);
    put(&mut output, b"unsettled")?;
    put_harts(alloc, &mut output, harts)?;
    put(&mut output, b"\n")?;
    Ok(output)
}

/// The report of a settled state.
#[tactic(auto, unfolding(crate::specs::Reports::settled_report))]
fn settled_report(alloc: Global, state: &Reported) -> Result<Vec<u8>, OutOfMemory>
    ensures { IfOk result (λ output. output.items ≡ settled_report (state_of state.now)) }
{
    let mut output = Vec::new(alloc);
    put_variables(alloc, &mut output, &state.variables)?;
    put_counts(alloc, &mut output, b"ended", &state.ended)?;
    put_schedules(alloc, &mut output, &state.schedules)?;
    Ok(output)
}

/// The report of a state: a line for each variable, as `x = 6`, `a = 1 2 3` or `h = null`, a line `ended T N` for
/// each thread, and a line of the schedule of each life with its longest runs, as `schedule 0*4 1*2`; or, where a
/// hart isn't settled, the line `unsettled H ..` alone. Each line ends with LF.
#[tactic(auto, unfolding(crate::specs::Reports::report))]
pub fn report(alloc: Global, state: &Reported) -> Result<Vec<u8>, OutOfMemory>
    ensures { IfOk result (λ output. output.items ≡ report (state_of state.now)) }
{
    if state.unsettled.is_empty() {
        settled_report(alloc, state)
    } else {
        unsettled_line(alloc, &state.unsettled)
    }
}
