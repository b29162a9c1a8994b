//! What a hart has cleaned and not yet written back.
ghost use Rattle.std.specs.Prelude.{◌<◌, ◌≤◌};

/// A value that a word had, and its version.
#[derive(Clone, Copy, PartialEq, Eq, Drop)]
pub struct Saved {
    pub value: u64,
    pub version: u64,
}

/// A line as it was when it was cleaned: of each of its words the value and the version.
#[derive(Clone, Copy, PartialEq, Eq, Drop)]
pub struct Snapshot {
    pub line: u32,
    pub words: [Saved; 8],
}

/// A queue of at most 16 cleaned lines, the oldest first.
#[derive(Drop)]
pub struct Queue {
    ring: [Snapshot; 16],
    head: u32,
    count: u32,
    ghost in_ring: { head < 16 },
    ghost within: { count ≤ 16 },
}

impl Queue {
    ghost use Rattle.std.specs.Prelude.{◌≡◌, ℕ, ◌+◌, ◌<◌, ◌≤◌, ◌==◌, List, []};
    ghost use Rattle.ido_base.specs.Words.{Word};
    ghost use Rattle.line_memory.specs.links.Queues.{queue_length, queued, RepresentsQueue};

    /// A queue with no entry.
    pub fn new() -> Queue
        ensures stands { (words : List Word) → RepresentsQueue result [] words }
        ensures length { queue_length result ≡ 0 }
    {
        let nothing = Saved {
            value: 0,
            version: 0,
        };
        let none = Snapshot {
            line: 0,
            words: [nothing; 8],
        };
        Queue {
            ring: [none; 16],
            head: 0,
            count: 0,
        }
    }

    pub fn is_empty(&self) -> bool
        ensures { result ≡ (queue_length self.now == 0) }
    {
        self.count == 0
    }

    /// All entries are lost.
    pub fn clear(&mut self)
        ensures stands { (words : List Word) → RepresentsQueue self.new [] words }
        ensures length { queue_length self.new ≡ 0 }
    {
        self.count = 0;
    }

    pub(crate) fn is_full(&self) -> bool
        ensures full { result ≡ (queue_length self.now == 16) }
        ensures within { queue_length self.now ≤ 16 }
    {
        self.count == 16
    }

    /// The snapshot is the newest entry.
    pub(crate) fn push(&mut self, snapshot: Snapshot)
        requires { queue_length self.old < 16 }
        ensures length { queue_length self.new ≡ queue_length self.old + 1 }
        ensures last { queued self.new (queue_length self.old) ≡ snapshot }
        ensures kept { (i : ℕ) → i < queue_length self.old → queued self.new i ≡ queued self.old i }
    {
        let at = (self.head + self.count) % 16;
        self.ring[at as usize] = snapshot;
        self.count += 1;
    }

    pub(crate) fn oldest(&self) -> &Snapshot
        requires { 0 < queue_length self.now }
        ensures { result.now ≡ queued self.now 0 }
    {
        &self.ring[self.head as usize]
    }

    /// The oldest entry leaves.
    pub(crate) fn pop(&mut self)
        requires { 0 < queue_length self.old }
        ensures length { queue_length self.new + 1 ≡ queue_length self.old }
        ensures rest { (i : ℕ) → i < queue_length self.new → queued self.new i ≡ queued self.old (i + 1) }
    {
        self.head = (self.head + 1) % 16;
        self.count -= 1;
    }
}
