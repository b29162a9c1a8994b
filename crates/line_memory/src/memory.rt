//! The memory of a machine.
ghost use Rattle.std.specs.Prelude.{◌≡◌, ◌≤◌, vec_len};
ghost use Rattle.log_schemes.specs.Layout.{word_count};
ghost use Rattle.ido_base.specs.declared.limits.TheConstants.{MOST_THREADS, MOST_VARIABLE_BYTES};

use crate::bytes::{self, VARIABLE_BYTES};
use crate::cell::Cell;
use crate::changes::Changes;
use crate::queue::Queue;
use crate::{lines, making};
use ido_base::limits::{LINE_BYTES, VARIABLE_WORDS};
use ido_base::memory::OutOfMemory;
use log_schemes::addresses::{self, LOGS_BASE};
use log_schemes::log::Log;
use memory_layout::variables::VARIABLES_BASE;
use std::alloc::Global;

/// All words of the variables and of the logs of at most 8 threads, as one flat array.
#[derive(Drop)]
pub struct LineMemory {
    cells: Vec<Cell>,
    changes: Changes,
    log: Log,
    threads: u32,
    stores: u64,
    ghost sized: { vec_len cells ≡ word_count log threads },
    ghost few_threads: { threads ≤ MOST_THREADS },
}

impl LineMemory {
    ghost use Rattle.std.specs.Prelude.{◌≡◌, ℕ, ◌+◌, ◌*◌, ◌/◌, ◌%◌, ◌^◌, ◌<◌, ◌≤◌, List, [], ◌∷◌, ◌++◌, length, map, IfOk, IsTrue};
    ghost use Rattle.ido_base.specs.Words.{Word, Entry, word_of, word_at, last_position, live_value};
    ghost use Rattle.ido_base.specs.Words.{durable_value, loaded, stored, entry_of, drained, evicted, crashed};
    ghost use Rattle.ido_base.specs.Layout.{aligned, byte_number, line_bytes};
    ghost use Rattle.log_schemes.specs.Layout.{in_range as is_in_range, line_count};
    ghost use Rattle.ido_base.specs.Layout.{spread_words, word_number};
    ghost use Rattle.log_schemes.specs.Layout.{log_words, initial_words, point_at, slot_at};
    ghost use Rattle.log_schemes.specs.Schemes.{bank_slots};
    ghost use Rattle.line_memory.specs.Access.{is_width};
    ghost use Rattle.line_memory.specs.links.Queues.{queue_length, RepresentsQueue};
    ghost use Rattle.line_memory.specs.declared.queue.Queue.{Queue};
    ghost use Rattle.line_memory.specs.links.MemoryRepresentation.{Represents, log_in, threads_of, logs_of, stores_of};

    /// The memory at the start of a machine: the initial bytes of the variables, and zeros.
    pub fn new(
        alloc: Global,
        vars: &[u8],
        log: Log,
        threads: u32,
    ) -> Result<LineMemory, OutOfMemory>
        requires few_bytes { length vars.now ≤ MOST_VARIABLE_BYTES }
        requires few_threads { threads ≤ MOST_THREADS }
        ensures stands { IfOk result (λ memory. Represents memory (map word_of (initial_words log threads vars.now))) }
        ensures logs { IfOk result (λ memory. threads_of memory ≡ threads) }
        ensures log { IfOk result (λ memory. log_in memory ≡ log) }
        ensures stores { IfOk result (λ memory. stores_of memory ≡ 0) }
    {
        let logs = log.words() * threads;
        let changes = Changes::new(alloc)?;
        let mut cells = Vec::with_capacity(alloc, VARIABLE_WORDS as usize + logs as usize)?;
        making::push_bytes(&mut cells, vars, VARIABLE_WORDS as usize)?;
        making::push_zeros(&mut cells, logs as usize)?;
        Ok(LineMemory {
            cells,
            changes,
            log,
            threads,
            stores: 0,
        })
    }

    /// The memory that has these words: those of so many bytes of variables, and after them those of the
    /// logs. All other words are 0.
    pub fn of_words(
        alloc: Global,
        vars: u32,
        log: Log,
        threads: u32,
        words: &[u64],
    ) -> Result<LineMemory, OutOfMemory>
        requires whole_words { vars % 8 ≡ 0 }
        requires few_bytes { vars ≤ MOST_VARIABLE_BYTES }
        requires few_threads { threads ≤ MOST_THREADS }
        requires count { length words.now ≡ vars / 8 + log_words log * threads }
        ensures stands { IfOk result (λ memory. Represents memory (map word_of (spread_words (vars / 8) words.now))) }
        ensures logs { IfOk result (λ memory. threads_of memory ≡ threads) }
        ensures log { IfOk result (λ memory. log_in memory ≡ log) }
        ensures stores { IfOk result (λ memory. stores_of memory ≡ 0) }
    {
        let variable_words = vars as usize / 8;
        let changes = Changes::new(alloc)?;
        let mut cells = Vec::with_capacity(
            alloc,
            VARIABLE_WORDS as usize + (log.words() * threads) as usize,
        )?;
        making::push_words(&mut cells, &words[..variable_words])?;
        making::push_zeros(&mut cells, VARIABLE_WORDS as usize - variable_words)?;
        making::push_words(&mut cells, &words[variable_words..])?;
        Ok(LineMemory {
            cells,
            changes,
            log,
            threads,
            stores: 0,
        })
    }

    /// How the threads log.
    pub fn log(&self) -> Log
        ensures { result ≡ log_in self.now }
    {
        self.log
    }

    /// Each of the bytes from the address on lies in a line of the variables, or each in a line of a log.
    pub fn in_range(&self, address: u64, bytes: u32) -> bool
        ensures { result ≡ is_in_range (log_in self.now) (threads_of self.now) address bytes }
    {
        let count = u64::from(bytes);
        bytes::is_within(address, count, VARIABLES_BASE, VARIABLE_BYTES)
            || bytes::is_within(
                address,
                count,
                LOGS_BASE,
                LINE_BYTES * u64::from(self.log.lines()) * u64::from(self.threads),
            )
    }

    /// The line that has the byte at the address.
    pub fn line_of(&self, address: u64) -> u32
        requires { IsTrue (is_in_range (log_in self.now) (threads_of self.now) address 1) }
        ensures line { result ≡ byte_number address / line_bytes }
        ensures exists { result < line_count (log_in self.now) (threads_of self.now) }
    {
        (bytes::byte_number(address) / LINE_BYTES) as u32
    }

    /// The durable value of the word that has the byte at the address.
    fn durable_at(&self, address: u64) -> u64
        requires { IsTrue (is_in_range (log_in self.now) (threads_of self.now) address 1) }
        ensures { (words : List Word) → Represents self.now words → result ≡ durable_value (word_at words (word_number address)) }
    {
        self.cells[(bytes::byte_number(address) / 8) as usize].durable
    }

    /// The durable point of a thread.
    pub fn durable_point(&self, thread: u32) -> u64
        requires { thread < threads_of self.now }
        ensures { (words : List Word) → Represents self.now words
            → result ≡ durable_value (word_at words (word_number (point_at (log_in self.now) thread))) }
    {
        self.durable_at(addresses::point_at(self.log, thread))
    }

    /// The durable value of a slot of a bank of a thread's log.
    pub fn durable_slot(&self, thread: u32, bank: u32, slot: u32) -> u64
        requires exists { thread < threads_of self.now }
        requires bank { bank < 2 }
        requires slot { slot < bank_slots (log_in self.now) }
        ensures { (words : List Word) → Represents self.now words
            → result ≡ durable_value (word_at words (word_number (slot_at (log_in self.now) thread bank slot))) }
    {
        self.durable_at(addresses::slot_at(self.log, thread, bank, slot))
    }

    /// What so many bytes from the address on hold, little-endian.
    pub fn load(&self, address: u64, bytes: u32) -> u64
        requires width { IsTrue (is_width bytes) }
        requires in_range { IsTrue (is_in_range (log_in self.now) (threads_of self.now) address bytes) }
        requires aligned { IsTrue (aligned address bytes) }
        ensures value { (words : List Word) → Represents self.now words
            → result ≡ loaded words (byte_number address) bytes }
        ensures bound { result < 2 ^ (8 * bytes) }
    {
        let number = bytes::byte_number(address);
        let cell = self.cells[(number / 8) as usize];
        bytes::part(cell.live, (number % 8) as u32, bytes)
    }

    /// Stores the low bytes of a value, so many, from the address on.
    pub fn store(&mut self, address: u64, bytes: u32, value: u64)
        requires width { IsTrue (is_width bytes) }
        requires in_range { IsTrue (is_in_range (log_in self.old) (threads_of self.old) address bytes) }
        requires aligned { IsTrue (aligned address bytes) }
        requires room { stores_of self.old < 2 ^ 63 }
        ensures stands { (words : List Word) → Represents self.old words
            → Represents self.new (stored words (byte_number address) bytes value) }
        ensures logs { logs_of self.new ≡ logs_of self.old }
        ensures stores { stores_of self.new ≡ stores_of self.old + 1 }
    {
        let number = bytes::byte_number(address);
        let at = (number / 8) as usize;
        let cell = self.cells[at];
        let word = bytes::with_part(cell.live, (number % 8) as u32, bytes, value);
        self.changes.add_if(cell.version == 0, at as u32);
        self.cells[at].store(word);
        self.stores += 1;
    }

    /// Queues the line as it is now.
    pub fn clean(&self, queue: &mut Queue, line: u32)
        requires exists { line < line_count (log_in self.now) (threads_of self.now) }
        requires room { queue_length queue.old < 16 }
        ensures stands { (words : List Word) (entries : List Entry) → Represents self.now words
            → RepresentsQueue queue.old entries words
            → RepresentsQueue queue.new (entries ++ entry_of words line ∷ []) words }
        ensures length { queue_length queue.new ≡ queue_length queue.old + 1 }
    {
        queue.push(lines::snapshot_of(&self.cells, line));
    }

    /// Writes the oldest entry back: each of its words where the durable version is older.
    pub fn drain(&mut self, queue: &mut Queue)
        requires { 0 < queue_length queue.old }
        ensures stands { (words : List Word) (e : Entry) (es : List Entry) → Represents self.old words
            → RepresentsQueue queue.old (e ∷ es) words
            → Represents self.new (drained words e) × RepresentsQueue queue.new es (drained words e) }
        ensures length { queue_length queue.new + 1 ≡ queue_length queue.old }
        ensures logs { logs_of self.new ≡ logs_of self.old }
        ensures stores { stores_of self.new ≡ stores_of self.old }
    {
        lines::write_back(&mut self.cells, queue.oldest());
        queue.pop();
    }

    /// Writes back the words of a line that the mask chooses, bit i the i-th.
    pub fn evict(&mut self, line: u32, mask: u32)
        requires exists { line < line_count (log_in self.old) (threads_of self.old) }
        requires mask { mask ≤ 255 }
        ensures stands { (words : List Word) → Represents self.old words
            → Represents self.new (evicted words line mask) }
        ensures logs { logs_of self.new ≡ logs_of self.old }
        ensures stores { stores_of self.new ≡ stores_of self.old }
    {
        lines::evict_words(&mut self.cells, 8 * line as usize, mask);
    }

    /// Every word keeps its durable value alone. The histories are new ones, so queues of before represent nothing: who crashes a
    /// memory clears them.
    pub fn crash(&mut self)
        ensures stands { (words : List Word) → Represents self.old words → Represents self.new (crashed words) }
        ensures logs { logs_of self.new ≡ logs_of self.old }
        ensures stores { stores_of self.new ≡ 0 }
    {
        lines::crash(&mut self.cells, &self.changes);
        self.changes.clear();
        self.stores = 0;
    }

    /// The value that a crash would leave in a word of a line.
    pub fn durable_word(&self, line: u32, word: u32) -> u64
        requires exists { line < line_count (log_in self.now) (threads_of self.now) }
        requires word { word < 8 }
        ensures { (words : List Word) → Represents self.now words
            → result ≡ durable_value (word_at words (8 * line + word)) }
    {
        self.cells[8 * line as usize + word as usize].durable
    }

    /// The newest value of a word of a line.
    pub fn live_word(&self, line: u32, word: u32) -> u64
        requires exists { line < line_count (log_in self.now) (threads_of self.now) }
        requires word { word < 8 }
        ensures { (words : List Word) → Represents self.now words
            → result ≡ live_value (word_at words (8 * line + word)) }
    {
        self.cells[8 * line as usize + word as usize].live
    }

    /// How many values a word of a line has had since the start or the last crash, less one: where its newest
    /// value stands among them.
    pub fn last_position(&self, line: u32, word: u32) -> u64
        requires exists { line < line_count (log_in self.now) (threads_of self.now) }
        requires word { word < 8 }
        ensures { (words : List Word) → Represents self.now words → result ≡ last_position (word_at words (8 * line + word)) }
    {
        self.cells[8 * line as usize + word as usize].version
    }

    /// Where the durable value of a word of a line stands among the values that it has had since the start or
    /// the last crash.
    pub fn durable_position(&self, line: u32, word: u32) -> u64
        requires exists { line < line_count (log_in self.now) (threads_of self.now) }
        requires word { word < 8 }
        ensures { (words : List Word) → Represents self.now words → result ≡ (word_at words (8 * line + word)).durable }
    {
        self.cells[8 * line as usize + word as usize].durable_version
    }
}
