//! Where bytes go.
ghost use Rattle.std.specs.Prelude.{◌≡◌, List, ℕ, OnOk, OnErr};
ghost use Rattle.std.specs.declared.option.Option.{Option};
ghost use Rattle.std.specs.Io.{WritesAtMost};
ghost use Rattle.ido_outside.specs.Causes.{HasCause};
ghost use Rattle.ido_outside.specs.Sink.{Adds, AddsPrefix, TakesSome, WriteAdds};

use crate::Failed;

/// A sink of bytes that counts its faults.
pub trait Sink {
    /// The bytes written, where the sink tells them. One that has ceased to tell never tells
    /// again.
    ghost written: { Self → Option (List ℕ) };

    /// A count of faults, which never falls.
    ghost faults: { Self → ℕ };

    /// Takes a prefix of `piece`, adds it after what was written, and answers how many bytes it
    /// has: at least one, where `piece` isn't empty. `Failed` comes only where the count of
    /// faults rose, and adds nothing.
    fn write(&mut self, piece: &[u8]) -> Result<usize, Failed>
        ensures bound { WritesAtMost result piece.now }
        ensures some { TakesSome result piece.now }
        ensures bytes { WriteAdds (written self.old) (written self.new) result piece.now }
        ensures cause { HasCause (faults self.old) (faults self.new) result };
}

/// Writes all the bytes to a sink. It takes no memory.
///
/// # Errors
///
/// `Failed` only where the sink's count of faults rose. A prefix of the bytes was then written,
/// and not all of them.
pub fn write_all<K: Sink>(sink: &mut K, bytes: &[u8]) -> Result<(), Failed>
    ensures ok { OnOk result (Adds (K.written sink.old) (K.written sink.new) bytes.now) }
    ensures err { OnErr result (AddsPrefix (K.written sink.old) (K.written sink.new) bytes.now) }
    ensures cause { HasCause (K.faults sink.old) (K.faults sink.new) result }
{
    let mut done = 0;
    while done < bytes.len() {
        done += sink.write(&bytes[done..])?;
    }
    Ok(())
}
