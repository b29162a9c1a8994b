//! Boards at their start.
ghost use Rattle.std.specs.Prelude.{◌≡◌, ◌≢◌, ◌+◌, ◌<◌, ◌≤◌, [], ◌∷◌, ℕ, List, All, None, Some, length, slice_index_or, IfOk};
ghost use Rattle.std.specs.Vec.{vec_capacity};
ghost use Rattle.hart_board.specs.declared.views.View.TheVariants.{Seated};
ghost use Rattle.hart_board.specs.BoardRule.{newcomer, numbers_from, dealt};
ghost use Rattle.hart_board.specs.Seats.{IsInReach, IsSeatOf, seen, numbers_of, opening_core, seats_of, turns_of, ceiling_of, Represents};
ghost use Rattle.hart_board.specs.CoreTurns.{RunsIn};

use crate::board::Board;
use crate::core_turn::Ahead;
use crate::rule::{DealsFirst, Place};
use crate::seat::Seat;
use crate::views::Terms;
use atomic_table::{Refused, Table};
use ido_base::memory::OutOfMemory;
use machine_events::machine::Core;
use std::alloc::Global;
use std::snapshot::Snapshot;

impl<C: Core> Board<C> {
    /// A board with its seats, in the order of their numbers. Each seat makes at most so many events, while the core has fewer than the ceiling.
    /// The first tickets are drawn in that order: no seat takes its second turn before each has taken its first. Where one of them takes none,
    /// the others wait for it.
    pub fn new(
        alloc: Global,
        core: C,
        seats: u32,
        turns: u64,
        ceiling: u64,
    ) -> Result<(Board<C>, Vec<Seat<C, C::Local>>), OutOfMemory>
    where
        C: Drop,
        requires some { 0 < seats }
        requires ceiling { (length (C.history core) ≤ ceiling) × (ceiling ≤ length (C.history core) + C.space core) }
        ensures board { IfOk result (λ r. (opening_core r.0 ≡ core) × (seats_of r.0 ≡ seats) × (turns_of r.0 ≡ turns) × (ceiling_of r.0 ≡ ceiling)) }
        ensures numbers { IfOk result (λ r. numbers_of r.1.items ≡ numbers_from 0 seats) }
        ensures seats { IfOk result (λ r.
            All (λ s. IsSeatOf C.history C.space (RunsIn C.opening C.hart_count C.is_local C.ahead_by) r.0 s × (seen s ≡ [])) r.1.items) }
    {
        let mut ahead = all_ahead(alloc, &core, seats)?;
        let mut row = Vec::with_capacity(alloc, seats as usize)?;
        let (board, mut place) = Board::open(alloc, core, seats, turns, ceiling)?;
        board.deal(&mut row, &mut place, &mut ahead, seats - 1, turns, ceiling);
        let last = take_at(&mut ahead, seats - 1);
        row.push_reserved(seated(place, seats - 1, turns, ceiling, last));
        Ok((board, row))
    }

    /// A board with a place that has all numbers.
    fn open(
        alloc: Global,
        core: C,
        seats: u32,
        turns: u64,
        ceiling: u64,
    ) -> Result<(Board<C>, Place<C>), OutOfMemory>
    where
        C: Drop,
        requires some { 0 < seats }
        ensures board { IfOk result (λ r. (opening_core r.0 ≡ core) × (seats_of r.0 ≡ seats) × (turns_of r.0 ≡ turns) × (ceiling_of r.0 ≡ ceiling)) }
        ensures place { IfOk result (λ r. (r.1.table_id ≡ r.0.table.shared.table_id) × (r.1.me ≡ (Seated (newcomer r.0.table.shared.key), []))) }
    {
        let terms = Terms {
            opening: Snapshot::of(&core),
            seats,
            turns,
            ceiling,
        };
        let counts = Vec::with_capacity(alloc, seats as usize)?;
        let mut slots = Vec::with_capacity(alloc, 1)?;
        slots.push_reserved(core);
        match Table::new(alloc, &[0, u64::from(seats)], slots, &terms) {
            Ok((table, place)) => Ok((Board { table, counts }, place)),
            Err(Refused { slots: _ }) => Err(OutOfMemory),
        }
    }

    /// Gives the first so many numbers of the place to seats of their own.
    fn deal(
        &self,
        row: &mut Vec<Seat<C, C::Local>>,
        place: &mut Place<C>,
        ahead: &mut Vec<Option<Ahead<C::Local>>>,
        count: u32,
        turns: u64,
        ceiling: u64,
    )
        requires table { place.old.table_id ≡ self.now.table.shared.table_id }
        requires me { place.old.me ≡ (Seated (dealt self.now.table.shared.key (numbers_from 0 (count + 1))), []) }
        requires key { (turns_of self.now ≡ turns) × (ceiling_of self.now ≡ ceiling) × (seats_of self.now ≡ count + 1)
            × IsInReach C.history C.space self.now.table.shared.key }
        requires row { (row.old.items ≡ []) × (count + 1 ≤ vec_capacity row.old) }
        requires ahead { (n : ℕ) → n < count + 1 →
            RunsIn C.opening C.hart_count C.is_local C.ahead_by (opening_core self.now) n (slice_index_or ahead.old.items n None) }
        ensures place { (place.new.table_id ≡ self.now.table.shared.table_id)
            × (place.new.me ≡ (Seated (dealt self.now.table.shared.key (numbers_from count 1)), [])) }
        ensures numbers { numbers_of row.new.items ≡ numbers_from 0 count }
        ensures seats { All (λ s. IsSeatOf C.history C.space (RunsIn C.opening C.hart_count C.is_local C.ahead_by) self.now s × (seen s ≡ [])) row.new.items }
        ensures room { vec_capacity row.new ≡ vec_capacity row.old }
        ensures ahead { RunsIn C.opening C.hart_count C.is_local C.ahead_by (opening_core self.now) count (slice_index_or ahead.new.items count None) }
    {
        for number in 0..count {
            let first = self.deal_first(place);
            let own = take_at(ahead, number);
            row.push_reserved(seated(first, number, turns, ceiling, own));
        }
    }

    /// Gives the first number of the place to a new one, with its ticket.
    fn deal_first(&self, place: &mut Place<C>) -> Place<C>
        requires table { place.old.table_id ≡ self.now.table.shared.table_id }
        requires me { (n m : ℕ) × (place.old.me ≡ (Seated (dealt self.now.table.shared.key (n ∷ numbers_from (n + 1) m)), [])) }
        ensures table { (place.new.table_id ≡ self.now.table.shared.table_id) × (result.table_id ≡ self.now.table.shared.table_id) }
        ensures dealt { (n m : ℕ) → place.old.me ≡ (Seated (dealt self.now.table.shared.key (n ∷ numbers_from (n + 1) m)), [])
            → (place.new.me ≡ (Seated (dealt self.now.table.shared.key (numbers_from (n + 1) m)), []))
            × (result.me ≡ (Seated (dealt self.now.table.shared.key (n ∷ [])), [])) }
    {
        self.table.shared.split_seat::<DealsFirst>(place)
    }
}

/// A seat that has made nothing yet, with the ticket of its first turn, which is its number.
fn seated<C, L>(
    place: Place<C>,
    number: u32,
    turns: u64,
    ceiling: u64,
    local: Option<Ahead<L>>,
) -> Seat<C, L>
    ensures { result ≡ record { place = place; number = number; turns = turns; ceiling = ceiling; made = 0; ticket = Some number; local = local } }
{
    Seat {
        place,
        number,
        turns,
        ceiling,
        made: 0,
        ticket: Some(u64::from(number)),
        local,
    }
}

/// What runs ahead of each hart, by the seats' numbers. A seat that has a hart has one.
fn all_ahead<C: Core>(
    alloc: Global,
    core: &C,
    seats: u32,
) -> Result<Vec<Option<Ahead<C::Local>>>, OutOfMemory>
    ensures { IfOk result (λ all. (n : ℕ) → n < seats →
        RunsIn C.opening C.hart_count C.is_local C.ahead_by core.now n (slice_index_or all.items n None)) }
{
    let mut all = Vec::with_capacity(alloc, seats as usize)?;
    for number in 0..seats {
        let ahead = ahead_of(alloc, core, number)?;
        all.push_reserved(ahead);
    }
    Ok(all)
}

/// What runs ahead of the hart of this number, if there is one.
fn ahead_of<C: Core>(
    alloc: Global,
    core: &C,
    number: u32,
) -> Result<Option<Ahead<C::Local>>, OutOfMemory>
    ensures { IfOk result (λ ahead. RunsIn C.opening C.hart_count C.is_local C.ahead_by core.now number ahead) }
{
    if number >= core.harts() {
        return Ok(None);
    }
    let local = core.local(alloc, number)?;
    Ok(Some(Ahead { local, steps: 0 }))
}

/// Takes what stands at this place.
fn take_at<L>(all: &mut Vec<Option<Ahead<L>>>, number: u32) -> Option<Ahead<L>>
    ensures taken { result ≡ slice_index_or all.old.items number None }
    ensures others { (n : ℕ) → n ≢ number → slice_index_or all.new.items n None ≡ slice_index_or all.old.items n None }
{
    match all.get_mut(number as usize) {
        None => None,
        Some(slot) => slot.take(),
    }
}
