//! Sources in memory.
ghost use Rattle.std.specs.Prelude.{◌≡◌, ◌+◌, ◌-◌, ◌≤◌, ◌<◌, ◌^◌, ◌++◌, ◌↔◌, [], min, length, Contains, IsErr, IfOk, IfSome, take, drop, vec_len, Some};

use crate::plan::FaultPlan;
use crate::{Failed, Source};

/// A source over bytes in memory that never fails.
#[derive(Drop)]
pub struct SureSource {
    bytes: Vec<u8>,
    next: usize,
    piece: u64,
    ghost within: { next ≤ vec_len bytes },
    ghost gives_some: { 0 < piece },
}

impl SureSource {
    ghost use Rattle.ido_outside.specs.links.SureSource.{left_bytes, piece_of};

    /// A source of these bytes, which gives at most `piece` of them in a call.
    pub fn new(bytes: Vec<u8>, piece: u64) -> Self
        requires { 0 < piece }
        ensures left { left_bytes result ≡ bytes.items }
        ensures piece { piece_of result ≡ piece }
    {
        SureSource {
            bytes,
            next: 0,
            piece,
        }
    }

    /// The bytes left.
    pub fn left(&self) -> &[u8]
        ensures { result.now ≡ left_bytes self.now }
    {
        &self.bytes[self.next..]
    }

    /// Gives the front of the bytes left, and the number of its bytes.
    fn give(&mut self, buf: &mut [u8]) -> usize
        ensures count { result ≡ min (piece_of self.old) (min (length (left_bytes self.old)) (length buf.new)) }
        ensures taken { left_bytes self.old ≡ take result buf.new ++ left_bytes self.new }
        ensures end { result ≡ 0 → 0 < length buf.new → left_bytes self.new ≡ [] }
        ensures piece { piece_of self.new ≡ piece_of self.old }
    {
        let count = copy_prefix(&self.bytes[self.next..], buf, self.piece);
        self.next += count;
        count
    }
}

impl Source for SureSource {
    ghost use Rattle.std.specs.Io.{ReadsAtMost};
    ghost use Rattle.std.specs.Io.KnownBytes.{ReadConsumes};
    ghost use Rattle.ido_outside.specs.Causes.{HasCause};
    ghost use Rattle.ido_outside.specs.links.SureSource.{left_bytes, piece_of};

    ghost left = { λ s. Some (left_bytes s) };

    ghost faults = { λ _. 0 };

    fn read(&mut self, buf: &mut [u8]) -> Result<usize, Failed>
        ensures bound { ReadsAtMost result buf.new }
        ensures bytes { ReadConsumes (Some (left_bytes self.old)) (Some (left_bytes self.new)) result buf.new }
        ensures cause { HasCause 0 0 result }

        // How much it gives.
        ensures gives { IfOk result (λ n. n ≡
            min (piece_of self.old) (min (length (left_bytes self.old)) (length buf.new))) }
        ensures piece { piece_of self.new ≡ piece_of self.old }
    {
        Ok(self.give(buf))
    }
}

/// A source over bytes in memory, some of whose calls fail.
#[derive(Drop)]
pub struct MemSource {
    feed: SureSource,
    plan: FaultPlan,
}

impl MemSource {
    ghost use Rattle.ido_outside.specs.links.MemSource.{call_count, failing_calls, fault_count, left_bytes, piece_of};

    /// A source of these bytes, which gives at most `piece` of them in a call. The calls of
    /// `read` are counted from 1; those whose numbers stand in `fails` fail and take nothing.
    pub fn new(bytes: Vec<u8>, piece: u64, fails: Vec<u64>) -> Self
        requires { 0 < piece }
        ensures left { left_bytes result ≡ bytes.items }
        ensures faults { fault_count result ≡ 0 }
        ensures piece { piece_of result ≡ piece }
        ensures fails { failing_calls result ≡ fails.items }
        ensures calls { call_count result ≡ 0 }
    {
        MemSource {
            feed: SureSource::new(bytes, piece),
            plan: FaultPlan::new(fails),
        }
    }

    /// The bytes left.
    pub fn left(&self) -> &[u8]
        ensures { result.now ≡ left_bytes self.now }
    {
        self.feed.left()
    }

    /// The count of faults, which stays at its greatest value.
    pub fn faults(&self) -> u64
        ensures { result ≡ fault_count self.now }
    {
        self.plan.faults
    }
}

impl Source for MemSource {
    ghost use Rattle.std.specs.Io.{ReadsAtMost};
    ghost use Rattle.std.specs.Io.KnownBytes.{ReadConsumes};
    ghost use Rattle.ido_outside.specs.Causes.{HasCause};
    ghost use Rattle.ido_outside.specs.links.MemSource.{call_count, failing_calls, fault_count, left_bytes, piece_of};

    ghost left = { λ s. Some (left_bytes s) };

    ghost faults = { fault_count };

    fn read(&mut self, buf: &mut [u8]) -> Result<usize, Failed>
        ensures bound { ReadsAtMost result buf.new }
        ensures bytes { ReadConsumes (Some (left_bytes self.old)) (Some (left_bytes self.new)) result buf.new }
        ensures cause { HasCause (fault_count self.old) (fault_count self.new) result }

        // Which calls fail, and how much the others give.
        ensures fails { IsErr result ↔ Contains (failing_calls self.old) (call_count self.new) }
        ensures gives { IfOk result (λ n. n ≡
            min (piece_of self.old) (min (length (left_bytes self.old)) (length buf.new))) }
        ensures counted { call_count self.new ≡ min (call_count self.old + 1) (2 ^ 64 - 1) }
        ensures piece { piece_of self.new ≡ piece_of self.old }
        ensures listed { failing_calls self.new ≡ failing_calls self.old }
    {
        if self.plan.next_fails() {
            self.plan.fault();
            return Err(Failed);
        }
        Ok(self.feed.give(buf))
    }
}

/// Copies the front of `source` to the front of `target`, at most `most` bytes.
fn copy_prefix(source: &[u8], target: &mut [u8], most: u64) -> usize
    ensures count { result ≡ min most (min (length source.now) (length target.old)) }
    ensures copied { take result target.new ≡ take result source.now }
{
    let count = most.min(source.len().min(target.len()) as u64) as usize;
    target[..count].copy_from_slice(&source[..count]);
    count
}
