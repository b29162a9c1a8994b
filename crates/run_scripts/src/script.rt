//! Scripts, as they are written.
ghost use Rattle.std.specs.Prelude.{◌≡◌, ◌+◌, ◌<◌, ◌≤◌, ◌^◌, ℕ, List, All, drop, length, map, min, option_map, OnOk, IfOk, IfErr, IfSome, ◌++◌, ◌∷◌, []};
ghost use Rattle.ido_base.specs.declared.limits.TheConstants.{MOST_INPUT_BYTES};
ghost use Rattle.log_schemes.specs.Layout.{line_count};
ghost use Rattle.run_scripts.specs.Scripts.{LineRead, Says, Fails, number_then, argument_then, end_then, steps_line, point_line};
ghost use Rattle.run_scripts.specs.Scripts.{fence_line, enabled_line, evict_line, line_of, read, Lines, Refused, IsDoable, IsEviction};
ghost use Rattle.run_scripts.specs.declared.script.Command.{Command};
ghost use Rattle.run_scripts.specs.declared.script.Command.TheVariants as c;
ghost use Rattle.run_scripts.specs.links.ScriptViews as views;
ghost use Rattle.run_scripts.specs.links.ScriptViews.{ending};

use crate::draw::log_lines;
use crate::number::{NUMBER_LIMIT, leading_digits};
use crate::piece::{Gap, next_piece, piece_at};
use ido_base::limits::VARIABLE_LINES;
use ido_base::memory::OutOfMemory;
use ido_base::place::Place;
use log_schemes::log::Log;
use std::alloc::Global;
use thiserror::Error;

/// Masks are up to this.
const GREATEST_MASK: u64 = 255;

/// What a line of a script asks for.
#[derive(Clone, Copy, Drop)]
pub enum Command {
    /// `s H N`: N steps of hart H.
    Steps { hart: u32, count: u32 },
    /// `b H`: steps of hart H until it has just stored its point.
    Point { hart: u32 },
    /// `f H`: steps of hart H until it has just finished a fence.
    Fence { hart: u32 },
    /// `g N`: N steps, each of the least hart that is enabled, and fewer exactly where none is.
    Enabled { count: u32 },
    /// `e LINE MASK`: an eviction of the words of a line that the mask chooses.
    Evict { line: u32, mask: u32 },
    /// `c`: a crash.
    Crash,
    /// `r`: another life begins, where each hart has stopped between sections.
    Start,
}

/// A line of a script, and where its first byte stands.
#[derive(Clone, Copy, Drop)]
pub struct Line {
    pub place: Place,
    pub command: Command,
}

/// A script: its lines that aren't empty.
#[derive(Drop)]
pub struct Script {
    pub lines: Vec<Line>,
}

/// A fault of a script, and where it stands.
#[derive(Clone, Copy, Debug, PartialEq, Eq, Drop, Error)]
pub enum ScriptFault {
    /// The byte there fits no line, or the line ends there and is too short.
    #[error("a word that fits no line")]
    Word(Place),
    /// The number there is above 4,294,967,295, or a mask above 255.
    #[error("a number that is too great")]
    Number(Place),
    /// The hart there doesn't exist.
    #[error("a hart that doesn't exist")]
    Hart(Place),
    /// The line of memory there doesn't exist.
    #[error("a line that doesn't exist")]
    Line(Place),
}

/// Why a script isn't read.
#[derive(Clone, Copy, Debug, PartialEq, Eq, Drop, Error)]
pub enum ScriptError {
    /// The script's first fault.
    #[error("{0}")]
    Refused(ScriptFault),
    /// An allocation was refused.
    #[error("out of memory")]
    Memory,
}

impl From<ScriptFault> for ScriptError {
    ghost use Rattle.run_scripts.specs.declared.script.ScriptError.TheVariants as answers;

    ghost from_gives = { λ fault e. e ≡ answers.Refused fault };

    fn from(fault: ScriptFault) -> Self {
        ScriptError::Refused(fault)
    }
}

impl From<OutOfMemory> for ScriptError {
    ghost use Rattle.run_scripts.specs.declared.script.ScriptError.TheVariants as answers;

    ghost from_gives = { λ _ e. e ≡ answers.Memory };

    fn from(_: OutOfMemory) -> Self {
        ScriptError::Memory
    }
}

/// What a number of a line may be.
#[derive(Clone, Copy, Drop)]
enum Rule {
    Any,
    /// A hart, of so many.
    Hart(u32),
    /// A line of memory, at so many harts, which log so.
    Line(Log, u32),
    Mask,
}

/// How many lines of memory there are.
fn line_count(log: Log, harts: u32) -> u64
    ensures { result ≡ line_count log harts }
{
    VARIABLE_LINES + log_lines(log, harts)
}

/// What the rule refuses of a number, which stands for all from the limit on.
fn refused(rule: Rule, place: Place, number: u64) -> Option<ScriptFault>
    ensures { (n : ℕ) → number ≡ min n 4294967296 → views.rule_of rule place.0 n ≡ option_map views.fault_of result }
{
    if number >= NUMBER_LIMIT {
        return Some(ScriptFault::Number(place));
    }
    match rule {
        Rule::Any => None,
        Rule::Hart(harts) => (number >= u64::from(harts)).then_some(ScriptFault::Hart(place)),
        Rule::Line(log, harts) => {
            (number >= line_count(log, harts)).then_some(ScriptFault::Line(place))
        }
        Rule::Mask => (number > GREATEST_MASK).then_some(ScriptFault::Number(place)),
    }
}

/// A number of a line, and where it ends in the line.
#[derive(Clone, Copy, Drop)]
struct Taken {
    number: u32,
    end: usize,
}

/// The number that comes next in a line that stands at a place, where the rule doesn't refuse it.
#[inline(always)]
fn number(line: &[u8], place: u32, at: usize, rule: Rule) -> Result<Taken, ScriptFault>
    requires within { at ≤ length line.now }
    requires short { place + length line.now < 2 ^ 32 }
    ensures number { IfOk result (λ x. (after : ℕ → ℕ → List ℕ → LineRead) →
        number_then (views.rule_of rule) (place + at) (drop at line.now) after ≡ after x.number (place + x.end) (drop x.end line.now)) }
    ensures bound { IfOk result (λ x. x.end ≤ length line.now) }
    ensures refused { IfErr result (λ e.
        (after : ℕ → ℕ → List ℕ → LineRead) → number_then (views.rule_of rule) (place + at) (drop at line.now) after ≡ Fails (views.fault_of e)) }
{
    let here = Place(place + at as u32);
    let digits = leading_digits(&line[at..]);
    if digits.count == 0 {
        return Err(ScriptFault::Word(here));
    }
    match refused(rule, here, digits.number) {
        Some(fault) => Err(fault),
        None => Ok(Taken {
            number: digits.number as u32,
            end: at + digits.count,
        }),
    }
}

/// The number that comes next after a space, where the rule doesn't refuse it.
#[inline(always)]
fn argument(line: &[u8], place: u32, at: usize, rule: Rule) -> Result<Taken, ScriptFault>
    requires within { at ≤ length line.now }
    requires short { place + length line.now < 2 ^ 32 }
    ensures number { IfOk result (λ x. (after : ℕ → ℕ → List ℕ → LineRead) →
        argument_then (views.rule_of rule) (place + at) (drop at line.now) after ≡ after x.number (place + x.end) (drop x.end line.now)) }
    ensures bound { IfOk result (λ x. x.end ≤ length line.now) }
    ensures refused { IfErr result (λ e.
        (after : ℕ → ℕ → List ℕ → LineRead) → argument_then (views.rule_of rule) (place + at) (drop at line.now) after ≡ Fails (views.fault_of e)) }
{
    if at < line.len() && line[at] == b' ' {
        number(line, place, at + 1, rule)
    } else {
        Err(ScriptFault::Word(Place(place + at as u32)))
    }
}

/// The line ends there.
fn end(line: &[u8], place: u32, at: usize) -> Result<(), ScriptFault>
    requires within { at ≤ length line.now }
    requires short { place + length line.now < 2 ^ 32 }
    ensures ends { IfOk result (λ x. (command : Command) → end_then (place + at) (drop at line.now) command ≡ Says command) }
    ensures refused { IfErr result (λ e. (command : Command) → end_then (place + at) (drop at line.now) command ≡ Fails (views.fault_of e)) }
{
    if at == line.len() {
        Ok(())
    } else {
        Err(ScriptFault::Word(Place(place + at as u32)))
    }
}

/// The number that comes next after a space, and with which the line ends.
#[inline(always)]
fn last_argument(line: &[u8], place: u32, at: usize, rule: Rule) -> Result<u32, ScriptFault>
    requires within { at ≤ length line.now }
    requires short { place + length line.now < 2 ^ 32 }
    ensures number { IfOk result (λ x. (make : ℕ → Command) →
        argument_then (views.rule_of rule) (place + at) (drop at line.now) (ending make) ≡ Says (make x)) }
    ensures refused { IfErr result (λ e.
        (make : ℕ → Command) → argument_then (views.rule_of rule) (place + at) (drop at line.now) (ending make) ≡ Fails (views.fault_of e)) }
{
    let last = argument(line, place, at, rule)?;
    end(line, place, last.end)?;
    Ok(last.number)
}

/// The two numbers after the letter of a line, each after a space, and with which the line ends.
#[inline(always)]
fn two_arguments(
    line: &[u8],
    place: u32,
    first: Rule,
    last: Rule,
) -> Result<(u32, u32), ScriptFault>
    requires within { 1 ≤ length line.now }
    requires short { place + length line.now < 2 ^ 32 }
    ensures numbers { IfOk result (λ x.
        (make : ℕ → ℕ → Command) → argument_then (views.rule_of first) (place + 1) (drop 1 line.now)
        (λ n p after. argument_then (views.rule_of last) p after (ending (make n))) ≡ Says (make x.0 x.1)) }
    ensures refused { IfErr result (λ e.
        (make : ℕ → ℕ → Command) → argument_then (views.rule_of first) (place + 1) (drop 1 line.now)
        (λ n p after. argument_then (views.rule_of last) p after (ending (make n))) ≡ Fails (views.fault_of e)) }
{
    let one = argument(line, place, 1, first)?;
    let other = last_argument(line, place, one.end, last)?;
    Ok((one.number, other))
}

/// The line `s H N`.
fn steps_line(line: &[u8], place: u32, harts: u32) -> Result<Command, ScriptFault>
    requires within { 1 ≤ length line.now }
    requires short { place + length line.now < 2 ^ 32 }
    ensures { views.IsLineRead (steps_line harts (place + 1) (drop 1 line.now)) result }
{
    let (hart, count) = two_arguments(line, place, Rule::Hart(harts), Rule::Any)?;
    Ok(Command::Steps { hart, count })
}

/// The line `b H`.
fn point_line(line: &[u8], place: u32, harts: u32) -> Result<Command, ScriptFault>
    requires within { 1 ≤ length line.now }
    requires short { place + length line.now < 2 ^ 32 }
    ensures { views.IsLineRead (point_line harts (place + 1) (drop 1 line.now)) result }
{
    let hart = last_argument(line, place, 1, Rule::Hart(harts))?;
    Ok(Command::Point { hart })
}

/// The line `f H`.
fn fence_line(line: &[u8], place: u32, harts: u32) -> Result<Command, ScriptFault>
    requires within { 1 ≤ length line.now }
    requires short { place + length line.now < 2 ^ 32 }
    ensures { views.IsLineRead (fence_line harts (place + 1) (drop 1 line.now)) result }
{
    let hart = last_argument(line, place, 1, Rule::Hart(harts))?;
    Ok(Command::Fence { hart })
}

/// The line `g N`.
fn enabled_line(line: &[u8], place: u32) -> Result<Command, ScriptFault>
    requires within { 1 ≤ length line.now }
    requires short { place + length line.now < 2 ^ 32 }
    ensures { views.IsLineRead (enabled_line (place + 1) (drop 1 line.now)) result }
{
    let count = last_argument(line, place, 1, Rule::Any)?;
    Ok(Command::Enabled { count })
}

/// The line `e LINE MASK`.
fn evict_line(line: &[u8], place: u32, log: Log, harts: u32) -> Result<Command, ScriptFault>
    requires within { 1 ≤ length line.now }
    requires short { place + length line.now < 2 ^ 32 }
    ensures { views.IsLineRead (evict_line log harts (place + 1) (drop 1 line.now)) result }
{
    let (evicted, mask) = two_arguments(line, place, Rule::Line(log, harts), Rule::Mask)?;
    Ok(Command::Evict {
        line: evicted,
        mask,
    })
}

/// The line `c`.
fn crash_line(line: &[u8], place: u32) -> Result<Command, ScriptFault>
    requires within { 1 ≤ length line.now }
    requires short { place + length line.now < 2 ^ 32 }
    ensures { views.IsLineRead (end_then (place + 1) (drop 1 line.now) c.Crash) result }
{
    end(line, place, 1)?;
    Ok(Command::Crash)
}

/// The line `r`.
fn start_line(line: &[u8], place: u32) -> Result<Command, ScriptFault>
    requires within { 1 ≤ length line.now }
    requires short { place + length line.now < 2 ^ 32 }
    ensures { views.IsLineRead (end_then (place + 1) (drop 1 line.now) c.Start) result }
{
    end(line, place, 1)?;
    Ok(Command::Start)
}

/// What a line says that stands at a place, at a machine of so many harts, which log so.
fn command_of(line: &[u8], place: u32, log: Log, harts: u32) -> Result<Command, ScriptFault>
    requires { place + length line.now < 2 ^ 32 }
    ensures { views.IsLineRead (line_of log harts place line.now) result }
{
    if line.is_empty() {
        return Err(ScriptFault::Word(Place(place)));
    }
    match line[0] {
        b's' => steps_line(line, place, harts),
        b'b' => point_line(line, place, harts),
        b'f' => fence_line(line, place, harts),
        b'g' => enabled_line(line, place),
        b'e' => evict_line(line, place, log, harts),
        b'c' => crash_line(line, place),
        b'r' => start_line(line, place),
        _ => Err(ScriptFault::Word(Place(place))),
    }
}

/// Adds a line.
fn push_line(lines: &mut Vec<Line>, place: u32, command: Command) -> Result<(), OutOfMemory>
    ensures { OnOk result (map views.line_of lines.new.items ≡ map views.line_of lines.old.items ++ record { place = place; command = command } ∷ []) }
{
    lines.push(Line {
        place: Place(place),
        command,
    })?;
    Ok(())
}

/// The script of a text, for a machine of so many harts, which log so. A line ends with an LF, which may have a CR before it, or
/// with the text; empty lines are passed over. Where it is refused, the fault is the first one by place.
pub fn read_script(alloc: Global, text: &[u8], log: Log, harts: u32) -> Result<Script, ScriptError>
    requires { length text.now ≤ MOST_INPUT_BYTES }
    ensures lines { IfOk result (λ script. read log harts text.now ≡ Lines (map views.line_of script.lines.items)) }
    ensures doable { IfOk result (λ script. All (λ line. IsDoable harts (IsEviction log harts) line.command) script.lines.items) }
    ensures refused { IfErr result (λ e. IfSome (views.refused_fault e) (λ f. read log harts text.now ≡ Refused f)) }
{
    let mut lines = Vec::new(alloc);
    let mut at = next_piece(Gap::LineEnd, text, 0);
    while at < text.len() {
        let line = piece_at(Gap::LineEnd, text, at);
        let command = command_of(line, at as u32, log, harts)?;
        push_line(&mut lines, at as u32, command)?;
        at = next_piece(Gap::LineEnd, text, at + line.len());
    }
    Ok(Script { lines })
}
