//! Where bytes come from.
ghost use Rattle.std.specs.Prelude.{◌≡◌, ◌+◌, ◌-◌, ◌<◌, ◌≤◌, ◌++◌, max, List, ℕ, length, take, vec_len};
ghost use Rattle.std.specs.Prelude.{vec_capacity, IfOk, IfErr, IfSome, OnOk, IsErrOf, IsTrue, false};
ghost use Rattle.std.specs.declared.option.Option.{Option};
ghost use Rattle.std.specs.Io.{ReadsAtMost};
ghost use Rattle.std.specs.Io.KnownBytes.{ReadConsumes, Consumes, IsAtEnd};
ghost use Rattle.ido_outside.specs.Causes.{Rose, HasCause};
ghost use Rattle.ido_outside.specs.Source.{TakenAtFault};
ghost use Rattle.ido_outside.specs.links.GatheredBytes.{Gathers};

use crate::{Failed, InFault};
use std::alloc::{AllocError, Global};

/// The most bytes that one read of `read_all` asks for.
const PIECE: usize = 65_536;

/// A source of bytes that counts its faults.
pub trait Source {
    /// The bytes left, where the source tells them.
    ghost left: { Self → Option (List ℕ) };

    /// A count of faults, which never falls.
    ghost faults: { Self → ℕ };

    /// Takes the front of the bytes left into the front of `buf`, and answers how many they are:
    /// at least one, where a byte is left and `buf` has room. 0 into a buffer that isn't empty
    /// is the end. `Failed` comes only where the count of faults rose, and takes nothing.
    fn read(&mut self, buf: &mut [u8]) -> Result<usize, Failed>
        ensures bound { ReadsAtMost result buf.new }
        ensures bytes { ReadConsumes (left self.old) (left self.new) result buf.new }
        ensures cause { HasCause (faults self.old) (faults self.new) result };
}

/// Reads a source to its end, where it has at most `limit` bytes.
///
/// It takes at most `limit + 1` bytes, and holds at most `limit` of them and one piece of
/// 65,536 bytes. What it took before a fault stays taken.
///
/// # Errors
///
/// `TooLong` exactly where it took `limit + 1` bytes, `Failed` only where the source's count of
/// faults rose, and `Memory`.
pub fn read_all<S: Source>(alloc: Global, source: &mut S, limit: u64) -> Result<Vec<u8>, InFault>
    // All that was left, to the end.
    ensures bytes { IfOk result (λ bytes. IfSome (S.left source.old) (λ left. bytes.items ≡ left)) }
    ensures end { OnOk result (IsAtEnd (S.left source.new)) }
    ensures within { IfOk result (λ bytes. length bytes.items ≤ limit) }

    ensures too_long { IsErrOf result InFault.TooLong →
        IfSome (S.left source.old) (λ left. limit < length left) }
    ensures taken { IfErr result (TakenAtFault limit (S.left source.old) (S.left source.new)) }

    ensures failed { IsErrOf result InFault.Failed → Rose (S.faults source.old) (S.faults source.new) }
    ensures later { S.faults source.old ≤ S.faults source.new }
{
    let mut buffer = vec![in alloc; 0u8; PIECE]?;
    let mut bytes = Vec::new(alloc);
    read_pieces(source, &mut buffer, &mut bytes, limit)?;
    Ok(bytes)
}

/// Reads piece after piece onto the end of `bytes`, to the end of the source.
fn read_pieces<S: Source>(
    source: &mut S,
    buffer: &mut [u8],
    bytes: &mut Vec<u8>,
    limit: u64,
) -> Result<(), InFault>
    requires some_room { 0 < length buffer.old }
    requires within { vec_len bytes.old ≤ limit }
    ensures gathered { OnOk result (Gathers (S.left source.old) (S.left source.new)
        bytes.old.items bytes.new.items) }
    ensures within { OnOk result (vec_len bytes.new ≤ limit) }
    ensures end { OnOk result (IsAtEnd (S.left source.new)) }
    ensures taken { IfErr result (TakenAtFault (limit - vec_len bytes.old)
        (S.left source.old) (S.left source.new)) }
    ensures failed { IsErrOf result InFault.Failed → Rose (S.faults source.old) (S.faults source.new) }
    ensures later { S.faults source.old ≤ S.faults source.new }
{
    while read_piece(source, buffer, bytes, limit)? {}
    Ok(())
}

/// Reads one piece onto the end of `bytes`. `false` at the end of the source.
fn read_piece<S: Source>(
    source: &mut S,
    buffer: &mut [u8],
    bytes: &mut Vec<u8>,
    limit: u64,
) -> Result<bool, InFault>
    requires some_room { 0 < length buffer.old }
    requires within { vec_len bytes.old ≤ limit }
    ensures gathered { OnOk result (Gathers (S.left source.old) (S.left source.new)
        bytes.old.items bytes.new.items) }
    ensures within { OnOk result (vec_len bytes.new ≤ limit) }
    ensures more { IfOk result (λ more. IsTrue more → vec_len bytes.old < vec_len bytes.new) }
    ensures end { IfOk result (λ more. more ≡ false → IsAtEnd (S.left source.new)) }
    ensures taken { IfErr result (TakenAtFault (limit - vec_len bytes.old)
        (S.left source.old) (S.left source.new)) }
    ensures failed { IsErrOf result InFault.Failed → Rose (S.faults source.old) (S.faults source.new) }
    ensures later { S.faults source.old ≤ S.faults source.new }
{
    let room = limit - bytes.len() as u64;
    let ask = room.saturating_add(1).min(buffer.len() as u64) as usize;
    let piece = &mut buffer[..ask];
    let count = source.read(piece)?;
    if count as u64 > room {
        return Err(InFault::TooLong);
    }
    make_room(bytes, count, limit)?;
    bytes.extend_from_slice(&piece[..count])?;
    Ok(count > 0)
}

/// Makes room for `count` more bytes: twice the capacity, but no more than the limit.
fn make_room(bytes: &mut Vec<u8>, count: usize, limit: u64) -> Result<(), AllocError>
    requires { vec_len bytes.old + count ≤ limit }
    ensures items { bytes.new.items ≡ bytes.old.items }
    ensures capped { vec_capacity bytes.new ≤ max (vec_capacity bytes.old) limit }
{
    let len = bytes.len();
    let needed = len + count;
    if needed <= bytes.capacity() {
        return Ok(());
    }
    let doubled = (bytes.capacity() as u64).saturating_mul(2).min(limit) as usize;
    bytes.reserve_exact(needed.max(doubled) - len)
}
