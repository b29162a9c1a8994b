//! Who holds a lock.
ghost use Rattle.std.specs.Prelude.{◌≡◌};
ghost use Rattle.ido_base.specs.Locks.{is_held_by};

/// The hart is the lock's holder.
pub fn is_held_by(hart: u32, holder: Option<u32>) -> bool
    ensures { result ≡ is_held_by hart holder }
{
    match holder {
        None => false,
        Some(other) => hart == other,
    }
}
