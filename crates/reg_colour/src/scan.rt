//! A linear scan over the intervals of a thread's locals.
ghost use Rattle.std.specs.Prelude.{◌≡◌, ◌+◌, IfOk, MatchBool, MatchOption};
ghost use Rattle.reg_colour.specs.links.Intervals.{AreFilled, AreWithin};
ghost use Rattle.reg_colour.specs.links.LinearScan.{IsBusy, IsFree, ScannedTo, IsFull, IsScanned};

use crate::intervals::{Interval, end_from, holding};
use flow_graph::graph::Part;
use ido_base::limits::LOCAL_REGISTERS;
use ido_base::memory::OutOfMemory;
use std::alloc::Global;

/// A node that more intervals hold than there are registers.
#[derive(Clone, Copy)]
pub(crate) struct Crowd {
    pub node: usize,
    /// How many hold it.
    pub wanted: usize,
}

/// What a scan answers.
#[derive(Drop)]
pub(crate) enum Outcome {
    /// The registers of the locals, by their numbers.
    Coloured(Vec<u8>),
    /// The first such node.
    Crowded(Crowd),
}

/// The least register that is free at the node, where each is free from some node on.
fn free_register(free: &[usize], node: usize) -> Option<usize>
    ensures { MatchOption result (IsBusy free.now node) (IsFree free.now node) }
{
    free.iter().position(|from| *from <= node)
}

/// Gives a register to each local whose interval begins at the node. Answers whether there were enough.
fn begin(
    intervals: &[Option<Interval>],
    node: usize,
    registers: &mut [u8],
    free: &mut [usize],
) -> bool
    requires filled { AreFilled intervals.now }
    requires begun { ScannedTo intervals.now node 0 registers.old free.old }
    ensures { MatchBool result (ScannedTo intervals.now (node + 1) 0 registers.new free.new) (IsFull intervals.now node) }
{
    for (local, interval) in intervals.iter().enumerate() {
        match end_from(*interval, node) {
            None => {}
            Some(end) => match free_register(free, node) {
                Some(register) => {
                    registers[local] = register as u8;
                    free[register] = end;
                }
                None => return false,
            },
        }
    }
    true
}

/// Registers for the locals with these intervals, or the first node that too many of them hold.
pub(crate) fn scan(
    alloc: Global,
    part: Part,
    intervals: &[Option<Interval>],
) -> Result<Outcome, OutOfMemory>
    requires filled { AreFilled intervals.now }
    requires within { AreWithin part intervals.now }
    ensures { IfOk result (IsScanned intervals.now) }
{
    let mut registers = vec![in alloc; 0u8; intervals.len()]?;
    let mut free = [0usize; LOCAL_REGISTERS];
    for node in part.first..part.end {
        if !begin(intervals, node, &mut registers, &mut free) {
            let wanted = holding(intervals, node);
            return Ok(Outcome::Crowded(Crowd { node, wanted }));
        }
    }
    Ok(Outcome::Coloured(registers))
}
