//! Seats that meet: what one has seen is told to another.
ghost use Rattle.std.specs.Prelude.{◌≡◌};
ghost use mathlib.Core.List.{IsPrefix};
ghost use Rattle.hart_board.specs.Seats.{IsSeatOf, IsNoteOf, SeesMore, noted_turns, number, rules_of, seen, ticket};
ghost use Rattle.hart_board.specs.CoreTurns.{RunsIn};

use crate::board::{Board, meet};
use crate::seat::{Note, Seat};
use machine_events::machine::Core;

impl<C: Core> Board<C> {
    /// What the seat has seen, for another one.
    pub fn note(&self, seat: &mut Seat<C, C::Local>) -> Note<C>
        requires seat { IsSeatOf C.history C.space (RunsIn C.opening C.hart_count C.is_local C.ahead_by) self.now seat.old }
        ensures seat { IsSeatOf C.history C.space (RunsIn C.opening C.hart_count C.is_local C.ahead_by) self.now seat.new }
        ensures same { (number seat.new ≡ number seat.old) × (seen seat.new ≡ seen seat.old) × (ticket seat.new ≡ ticket seat.old) }
        ensures note { IsNoteOf self.now result × (noted_turns result ≡ seen seat.old) }
    {
        Note {
            place: self.split_note(&mut seat.place),
        }
    }

    /// The seat sees all turns so far. What it had seen and what the noting seat had seen are beginnings of them.
    pub fn learn(&self, seat: &mut Seat<C, C::Local>, note: Note<C>)
        requires seat { IsSeatOf C.history C.space (RunsIn C.opening C.hart_count C.is_local C.ahead_by) self.now seat.old }
        requires note { IsNoteOf self.now note }
        ensures seat { IsSeatOf C.history C.space (RunsIn C.opening C.hart_count C.is_local C.ahead_by) self.now seat.new }
        ensures same { (number seat.new ≡ number seat.old) × (ticket seat.new ≡ ticket seat.old) }
        ensures sees { SeesMore (rules_of C.behaviour C.opening C.history C.hart_count self.now) (number seat.old) (seen seat.old) (seen seat.new) }
        ensures told { IsPrefix (noted_turns note) (seen seat.new) }
    {
        let Note { place } = note;
        meet(&self.table, &mut seat.place, place);
        self.see(&mut seat.place);
    }
}
