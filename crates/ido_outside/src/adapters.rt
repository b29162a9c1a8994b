//! A source over any reader of std, and a sink over any writer.
ghost use Rattle.std.specs.Prelude.{◌≡◌, None};

use crate::{Failed, Sink, Source};
use std::io::{Read, Write};

/// A source over a reader. Each `Err` of the reader is a fault.
#[derive(Drop)]
pub struct Reading<R: Read> {
    inner: R,
    faults: u64,
}

impl<R: Read> Reading<R> {
    /// A source with no fault so far. It tells the bytes left where the reader does.
    pub fn new(inner: R) -> Self
        ensures left { ⟦<Reading<R> as Source>⟧.left result ≡ R.remaining inner }
        ensures faults { ⟦<Reading<R> as Source>⟧.faults result ≡ 0 }
    {
        Reading { inner, faults: 0 }
    }

    /// The count of faults, which stays at its greatest value.
    pub fn faults(&self) -> u64
        ensures { result ≡ ⟦<Reading<R> as Source>⟧.faults self.now }
    {
        self.faults
    }

    /// The reader.
    pub fn into_inner(self) -> R
        ensures { R.remaining result ≡ ⟦<Reading<R> as Source>⟧.left self }
    {
        let Reading { inner, faults: _ } = self;
        inner
    }
}

impl<R: Read> Source for Reading<R> {
    ghost left = { λ s. R.remaining s.inner };

    ghost faults = { λ s. s.faults };

    fn read(&mut self, buf: &mut [u8]) -> Result<usize, Failed> {
        match self.inner.read(buf) {
            Ok(count) => Ok(count),
            Err(_) => {
                self.faults = self.faults.saturating_add(1);
                Err(Failed)
            }
        }
    }
}

/// A sink over a writer. Each `Err` of the writer is a fault, and so is a write that takes
/// nothing of a piece that isn't empty. It doesn't tell what was written.
#[derive(Drop)]
pub struct Writing<W: Write> {
    inner: W,
    faults: u64,
}

impl<W: Write> Writing<W> {
    /// A sink with no fault so far.
    pub fn new(inner: W) -> Self
        ensures { ⟦<Writing<W> as Sink>⟧.faults result ≡ 0 }
    {
        Writing { inner, faults: 0 }
    }

    /// The count of faults, which stays at its greatest value.
    pub fn faults(&self) -> u64
        ensures { result ≡ ⟦<Writing<W> as Sink>⟧.faults self.now }
    {
        self.faults
    }

    /// The writer, which has taken what was written.
    pub fn into_inner(self) -> W
        ensures { result ≡ self.inner }
    {
        let Writing { inner, faults: _ } = self;
        inner
    }
}

impl<W: Write> Sink for Writing<W> {
    ghost written = { λ _. None };

    ghost faults = { λ s. s.faults };

    fn write(&mut self, piece: &[u8]) -> Result<usize, Failed> {
        match self.inner.write(piece) {
            Ok(count) if count > 0 || piece.is_empty() => Ok(count),
            _ => {
                self.faults = self.faults.saturating_add(1);
                Err(Failed)
            }
        }
    }
}
