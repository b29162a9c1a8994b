//! Boards at their end.
ghost use Rattle.std.specs.Prelude.{◌≡◌, ◌+◌, ◌<◌, ◌≤◌, [], All, length, map};
ghost use Rattle.std.specs.Vec.{vec_capacity, vec_len};
ghost use Rattle.hart_board.specs.declared.views.Known.{Known};
ghost use Rattle.hart_board.specs.CoreTurns.{RunsIn, IsPlayed};
ghost use Rattle.hart_board.specs.Seats.{IsSeatOf, IsSeatAt, AreAllSeats, IsWholeJournal, opening_core, rules_of};
ghost use Rattle.hart_board.specs.links.Gathered.{Gathers};

use crate::board::{Board, close, meet};
use crate::rule::{BoardTable, Place};
use crate::seat::Seat;
use machine_events::machine::Core;

impl<C: Core> Board<C> {
    /// The core, with so many events of each seat, in the order in which the seats are given.
    pub fn into_core(self, mut seats: Vec<Seat<C, C::Local>>) -> (C, Vec<u64>)
        requires seats { All (IsSeatOf C.history C.space (RunsIn C.opening C.hart_count C.is_local C.ahead_by) self) seats.items }
        requires all { AreAllSeats self seats.items }
        ensures { IsWholeJournal (rules_of C.behaviour C.opening C.history C.hart_count self)
            (IsPlayed C.opening C.history C.hart_count C.space C.evictable (opening_core self)) seats.items result.0 result.1.items }
    {
        let Board { table, mut counts } = self;
        count_made(&mut counts, &seats);
        let place = gather(&table, &mut seats);
        (close(table, place), counts)
    }
}

/// Counts the events of the seats.
fn count_made<C, L>(counts: &mut Vec<u64>, seats: &[Seat<C, L>])
    requires { (counts.old.items ≡ []) × (length seats.now ≤ vec_capacity counts.old) }
    ensures { counts.new.items ≡ map (λ s. s.made) seats.now }
{
    for seat in seats {
        counts.push_reserved(seat.made);
    }
}

/// One place that knows what all these seats knew, and has their numbers.
fn gather<C: Core, L: Drop>(table: &BoardTable<C>, seats: &mut Vec<Seat<C, L>>) -> Place<C>
    requires words { table.now.shared.table_id.words ≡ 2 }
    requires some { 0 < vec_len seats.old }
    requires seats { All (IsSeatAt table.now.shared.table_id table.now.shared.key) seats.old.items }
    ensures table { result.table_id ≡ table.now.shared.table_id }
    ensures knows { (k : Known C) × Gathers table.now.shared.key seats.old.items result k }
{
    let Some(first) = seats.pop() else {
        unreachable!()
    };
    let Seat { mut place, .. } = first;
    while let Some(seat) = seats.pop() {
        let Seat { place: other, .. } = seat;
        meet(table, &mut place, other);
    }
    place
}
