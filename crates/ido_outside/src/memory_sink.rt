//! Sinks in memory.
ghost use Rattle.std.specs.Prelude.{◌≡◌, ◌≤◌, ◌<◌, ◌+◌, ◌-◌, ◌^◌, ◌++◌, ◌↔◌, ◌⊎◌, [], min, Contains, IsErr, IsSome, IfSome, List};
ghost use Rattle.std.specs.Prelude.{ℕ, length, vec_len, vec_capacity, Some, None, IfOk, OnErr, IsTrue, take, if◌then◌else◌};
ghost use Rattle.std.specs.Option.{option_copied};
ghost use Rattle.std.specs.Bool.{OnTrue, OnFalse};

use crate::plan::FaultPlan;
use crate::{Failed, Sink};
use ido_base::memory::OutOfMemory;
use std::alloc::{AllocError, Global};

/// Bytes in room that was reserved for them.
#[derive(Drop)]
struct Reserve {
    bytes: Vec<u8>,
    capacity: usize,
    ghost within: { vec_len bytes ≤ capacity },
    ghost reserved: { capacity ≤ vec_capacity bytes },
}

impl Reserve {
    fn new(alloc: Global, capacity: usize) -> Result<Self, AllocError>
        ensures bytes { IfOk result (λ r. r.bytes.items ≡ []) }
        ensures capacity { IfOk result (λ r. r.capacity ≡ capacity) }
        ensures refused { OnErr result (0 < capacity) }
    {
        let bytes = Vec::with_capacity(alloc, capacity)?;
        Ok(Reserve { bytes, capacity })
    }

    /// Adds the piece, if it fits.
    fn add(&mut self, piece: &[u8]) -> bool
        ensures fits { IsTrue result ↔ (vec_len self.old.bytes + length piece.now ≤ self.old.capacity) }
        ensures added { OnTrue result (self.new.bytes.items ≡ self.old.bytes.items ++ piece.now) }
        ensures full { OnFalse result (self.new.bytes.items ≡ self.old.bytes.items) }
        ensures capacity { self.new.capacity ≡ self.old.capacity }
    {
        piece.len() <= self.capacity - self.bytes.len()
            && self.bytes.extend_from_slice(piece).is_ok()
    }
}

/// The front of a piece, at most `most` bytes.
fn prefix(piece: &[u8], most: u64) -> &[u8]
    ensures { result.now ≡ take most piece.now }
{
    let count = most.min(piece.len() as u64) as usize;
    &piece[..count]
}

/// A sink in memory that never fails. It tells what was written until a piece doesn't fit in
/// its capacity; from then on it takes everything and tells nothing.
#[derive(Drop)]
pub struct SureSink {
    kept: Reserve,
    overflowed: bool,
    piece: u64,
    ghost takes_some: { 0 < piece },
}

impl SureSink {
    ghost use Rattle.ido_outside.specs.links.SureSink.{capacity_of, piece_of, told_bytes};

    /// A sink with room for `capacity` bytes, which takes at most `piece` of them in a call.
    ///
    /// # Errors
    ///
    /// `OutOfMemory`, where the room can't be had.
    pub fn new(alloc: Global, capacity: u64, piece: u64) -> Result<Self, OutOfMemory>
        requires { 0 < piece }
        ensures told { IfOk result (λ sink. told_bytes sink ≡ Some []) }
        ensures capacity { IfOk result (λ sink. capacity_of sink ≡ capacity) }
        ensures piece { IfOk result (λ sink. piece_of sink ≡ piece) }
        ensures refused { OnErr result (0 < capacity) }
    {
        let kept = Reserve::new(alloc, capacity as usize)?;
        Ok(SureSink {
            kept,
            overflowed: false,
            piece,
        })
    }

    /// All that was written, or `None` where it didn't fit.
    pub fn written(&self) -> Option<&[u8]>
        ensures { option_copied result ≡ told_bytes self.now }
    {
        if self.overflowed {
            None
        } else {
            Some(&self.kept.bytes)
        }
    }
}

impl Sink for SureSink {
    ghost use Rattle.std.specs.Io.{WritesAtMost};
    ghost use Rattle.ido_outside.specs.Causes.{HasCause};
    ghost use Rattle.ido_outside.specs.Sink.{TakesSome, WriteAdds};
    ghost use Rattle.ido_outside.specs.links.SureSink.{capacity_of, piece_of, told_bytes};

    ghost written = { told_bytes };

    ghost faults = { λ _. 0 };

    fn write(&mut self, piece: &[u8]) -> Result<usize, Failed>
        ensures bound { WritesAtMost result piece.now }
        ensures some { TakesSome result piece.now }
        ensures bytes { WriteAdds (told_bytes self.old) (told_bytes self.new) result piece.now }
        ensures cause { HasCause 0 0 result }

        // How much it takes, and that it tells what fits.
        ensures takes { IfOk result (λ n. n ≡ min (piece_of self.old) (length piece.now)) }
        ensures tells { IfSome (told_bytes self.old) (λ told.
            length told + min (piece_of self.old) (length piece.now) ≤ capacity_of self.old
            → IsSome (told_bytes self.new)) }
        ensures capacity { capacity_of self.new ≡ capacity_of self.old }
        ensures piece { piece_of self.new ≡ piece_of self.old }
    {
        let taken = prefix(piece, self.piece);
        self.overflowed = self.overflowed || !self.kept.add(taken);
        Ok(taken.len())
    }
}

/// A sink in memory, some of whose calls fail.
#[derive(Drop)]
pub struct MemSink {
    kept: Reserve,
    piece: u64,
    plan: FaultPlan,
    ghost takes_some: { 0 < piece },
}

impl MemSink {
    ghost use Rattle.ido_outside.specs.links.MemSink.{call_count, capacity_of, failing_calls, fault_count, held_bytes, piece_of};

    /// A sink with room for `capacity` bytes, which takes at most `piece` of them in a call. The
    /// calls of `write` are counted from 1; those whose numbers stand in `fails` fail, and so
    /// does one that would take more bytes than there is room for. They add nothing.
    ///
    /// # Errors
    ///
    /// `OutOfMemory`, where the room can't be had.
    pub fn new(
        alloc: Global,
        capacity: u64,
        piece: u64,
        fails: Vec<u64>,
    ) -> Result<Self, OutOfMemory>
        requires { 0 < piece }
        ensures written { IfOk result (λ sink. held_bytes sink ≡ []) }
        ensures faults { IfOk result (λ sink. fault_count sink ≡ 0) }
        ensures capacity { IfOk result (λ sink. capacity_of sink ≡ capacity) }
        ensures piece { IfOk result (λ sink. piece_of sink ≡ piece) }
        ensures refused { OnErr result (0 < capacity) }
        ensures fails { IfOk result (λ sink. failing_calls sink ≡ fails.items) }
        ensures calls { IfOk result (λ sink. call_count sink ≡ 0) }
    {
        let kept = Reserve::new(alloc, capacity as usize)?;
        Ok(MemSink {
            kept,
            piece,
            plan: FaultPlan::new(fails),
        })
    }

    /// What was written.
    pub fn written(&self) -> &[u8]
        ensures { result.now ≡ held_bytes self.now }
    {
        &self.kept.bytes
    }

    /// What was written.
    pub fn into_written(self) -> Vec<u8>
        ensures { result.items ≡ held_bytes self }
    {
        self.kept.bytes
    }

    /// The count of faults, which stays at its greatest value.
    pub fn faults(&self) -> u64
        ensures { result ≡ fault_count self.now }
    {
        self.plan.faults
    }
}

impl Sink for MemSink {
    ghost use Rattle.std.specs.Io.{WritesAtMost};
    ghost use Rattle.ido_outside.specs.Causes.{HasCause};
    ghost use Rattle.ido_outside.specs.Sink.{TakesSome, WriteAdds};
    ghost use Rattle.ido_outside.specs.links.MemSink.{call_count, capacity_of, failing_calls, fault_count, held_bytes, piece_of};

    ghost written = { λ s. Some (held_bytes s) };

    ghost faults = { fault_count };

    fn write(&mut self, piece: &[u8]) -> Result<usize, Failed>
        ensures bound { WritesAtMost result piece.now }
        ensures some { TakesSome result piece.now }
        ensures bytes { WriteAdds (Some (held_bytes self.old)) (Some (held_bytes self.new)) result piece.now }
        ensures cause { HasCause (fault_count self.old) (fault_count self.new) result }

        // Which calls fail, and how much the others take.
        ensures fails { IsErr result ↔ (Contains (failing_calls self.old) (call_count self.new)
            ⊎ (capacity_of self.old < length (held_bytes self.old) + min (piece_of self.old) (length piece.now))) }
        ensures takes { IfOk result (λ n. n ≡ min (piece_of self.old) (length piece.now)) }
        ensures counted { call_count self.new ≡ min (call_count self.old + 1) (2 ^ 64 - 1) }
        ensures capacity { capacity_of self.new ≡ capacity_of self.old }
        ensures piece { piece_of self.new ≡ piece_of self.old }
        ensures listed { failing_calls self.new ≡ failing_calls self.old }
    {
        let taken = prefix(piece, self.piece);
        if self.plan.next_fails() || !self.kept.add(taken) {
            self.plan.fault();
            return Err(Failed);
        }
        Ok(taken.len())
    }
}
