//! The rule of a board, and what each step at it tells.
use crate::views::{Terms, View};
use atomic_table::{Join, Play, Seat, Split, Table, TableRule};
use machine_events::machine::Core;
use std::alloc::Global;
use std::marker::PhantomData;

/// The rule: there is one legal journal, of which each seat knows a beginning, and the core is where it has led.
pub struct OneJournal<C> {
    core: PhantomData<C>,
}

impl<C: Core> TableRule<C, View<C>, Terms<C>> for OneJournal<C> {
    ghost use Rattle.hart_board.specs.BoardRule.{BoardInv, newcomer, play_of, IsPlayOf};
    ghost use Rattle.hart_board.specs.declared.views.View.TheVariants.{Seated};

    ghost holds = { λ terms. BoardInv
        (play_of C.behaviour C.opening C.history C.hart_count terms)
        (IsPlayOf C.opening C.history C.hart_count C.space C.evictable terms)
        terms };

    ghost first = { λ terms. Seated (newcomer terms) };
}

/// The table of a board.
pub type BoardTable<C> = Table<C, View<C>, Terms<C>, OneJournal<C>, Global>;

/// A place at it.
pub type Place<C> = Seat<C, View<C>>;

/// A ticket is drawn.
pub struct Draws;

impl<C> Play<C, View<C>> for Draws {
    ghost use Rattle.hart_board.specs.BoardRule.{drew};

    ghost then = { drew };
}

/// The serving word is looked at, with a ticket.
pub struct Looks<C> {
    core: PhantomData<C>,
}

impl<C: Core> Play<C, View<C>> for Looks<C> {
    ghost use Rattle.hart_board.specs.BoardRule.{looked, play_of, IsPlayOf};

    ghost then = { looked (play_of C.behaviour C.opening C.history C.hart_count) (IsPlayOf C.opening C.history C.hart_count C.space C.evictable) };
}

/// The serving word is looked at, and no core is taken.
pub struct Sees<C> {
    core: PhantomData<C>,
}

impl<C: Core> Play<C, View<C>> for Sees<C> {
    ghost use Rattle.hart_board.specs.BoardRule.{saw, play_of};

    ghost then = { saw (play_of C.behaviour C.opening C.history C.hart_count) };
}

/// The turn ends, and the next ticket is served.
pub struct Passes<C> {
    core: PhantomData<C>,
}

impl<C: Core> Play<C, View<C>> for Passes<C> {
    ghost use Rattle.hart_board.specs.BoardRule.{passed, play_of};

    ghost then = { passed (play_of C.behaviour C.opening C.history C.hart_count) C.history };
}

/// A place gives its first number to a new one.
pub struct DealsFirst;

impl<C> Split<View<C>> for DealsFirst {
    ghost use Rattle.hart_board.specs.BoardRule.{without_first, first_alone};

    ghost left = { without_first };

    ghost right = { first_alone };
}

/// A new place knows what this one has seen.
pub struct Notes;

impl<C> Split<View<C>> for Notes {
    ghost use Rattle.hart_board.specs.BoardRule.{as_before, noted};

    ghost left = { as_before };

    ghost right = { noted };
}

/// A place takes in what another knows, and its numbers.
pub struct Meets;

impl<C> Join<View<C>> for Meets {
    ghost use Rattle.hart_board.specs.BoardRule.{met_view};
    ghost use Rattle.hart_board.specs.declared.views.View.TheVariants.{Spent};

    ghost both = { met_view };

    ghost spent = { Spent };
}
