//! Memory in lines of eight words, as one flat array: of each word its live and its durable value, with
//! their version numbers. A word is written back only where its durable version is older. Loads, stores,
//! cleans, drains and evictions take constant time, a crash as much as has changed since the last one, and
//! nothing takes memory once it is made.
//!
//! What the calls do is said in terms of word histories, whichever the memory represents.
//! A memory is no function of word histories, nor they of it: each clause says, whatever histories it represented, it now
//! represents these. That a queue represents what it did, whatever is stored, drained or evicted, is a lemma of
//! `proofs/HistoriesGrow`.
#![tactic(auto)]

ghost use Rattle.std.specs.Prelude.{◌≡◌, ◌==◌, ◌≤◌, IsTrue};
ghost use Rattle.ido_base.specs.Layout.{aligned as is_aligned};
ghost use Rattle.line_memory.specs.Access.{is_width};
ghost use Rattle.line_memory.specs.links.Queues.{queue_length};

use crate::queue::Queue;

mod bytes;
mod cell;
mod changes;
mod lines;
mod making;
pub mod memory;
pub mod queue;

/// The address is a multiple of the size of the access, 1, 2, 4 or 8 bytes.
pub fn aligned(address: u64, bytes: u32) -> bool
    requires { IsTrue (is_width bytes) }
    ensures { result ≡ is_aligned address bytes }
{
    address % u64::from(bytes) == 0
}

/// The queue has 16 entries, so nothing can be cleaned into it.
pub fn full(queue: &Queue) -> bool
    ensures full { result ≡ (queue_length queue.now == 16) }
    ensures within { queue_length queue.now ≤ 16 }
{
    queue.is_full()
}
