//! What holds of the definitions themselves.
ghost use Rattle.lock_order.specs.Laws.{LocksAscend, NamesAscend};

use source_machine::laws::others_stay;

/// In every run of a well formed form that keeps the lock discipline and the order of locks, a thread takes a lock only while all that it holds have lesser
/// numbers, whatever arrays of mutexes there are and whatever keys hold.
pub fn locks_ascend()
    ensures { LocksAscend }
{
    others_stay();
}

/// In every run of any form that keeps them, a thread takes a lock only while each that it holds is of a name that is below that of the lock.
pub fn names_ascend()
    ensures { NamesAscend }
{
    others_stay();
}
