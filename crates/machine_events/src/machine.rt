//! What the layers above a machine ask of it.
ghost use Rattle.std.specs.Prelude.{◌≡◌, ◌↔◌, ◌+◌, ◌<◌, ◌≤◌, ◌++◌, ◌∷◌, [], ℕ, List, length, replicate, IfOk, IsTrue, Bool, MatchBool};
ghost use Rattle.machine_events.specs.declared.event.Event.{Event};
ghost use Rattle.machine_events.specs.declared.event.Event.TheVariants.{Step};
ghost use Rattle.machine_events.specs.Cores.{IsValid, IsValidNow, Behaviour, played, point_stores, finished_fences, least_enabled, EachMoves};

use crate::event::{Event, Reply};
use ido_base::memory::OutOfMemory;
use std::alloc::Global;

/// A machine of several harts to which events are given, one after another.
/// What a core replies can be played again from its history alone. What the behaviour is for a machine is for the implementation
/// to say: `run_tracker`'s `Life` is one (`living`).
pub trait Core {
    /// What such a core represents between events.
    ghost Meaning: { Type 0 };

    /// What an event makes of that, what it is replied to, and what it does to each hart.
    ghost behaviour: { Behaviour Meaning };

    /// What the core represented before the first event. It never changes.
    ghost opening: { Self → Meaning };

    /// The events so far, the first one first. The core represents the play of them.
    ghost history: { Self → List Event };

    /// The number of harts, which are numbered from 0. It never changes.
    ghost hart_count: { Self → ℕ };

    /// How many more events it takes.
    ghost space: { Self → ℕ };

    /// The evictions (line, mask) that are valid. They never change.
    ghost evictable: { Self → ℕ → ℕ → Type 0 };

    /// The number of harts.
    fn harts(&self) -> u32
        ensures { result ≡ hart_count self.now };

    /// Makes an event. A step is valid exactly where its hart is below `harts`, a crash always, and a start where `can_start` says so.
    fn event(&mut self, event: Event) -> Reply
        requires room { 0 < space self.old }
        requires valid { IsValidNow (hart_count self.old) (evictable self.old)
            (behaviour.can_start (played behaviour (opening self.old) (history self.old))) event }
        ensures reply { result ≡ behaviour.reply (played behaviour (opening self.old) (history self.old)) event }
        ensures opening { opening self.new ≡ opening self.old }
        ensures history { history self.new ≡ history self.old ++ event ∷ [] }
        ensures room { space self.new + 1 ≡ space self.old }
        ensures harts { hart_count self.new ≡ hart_count self.old }
        ensures evictable { (line mask : ℕ) → evictable self.new line mask ↔ evictable self.old line mask };

    /// Makes so many steps of a hart: it does what as many events do, each of them a step of the hart.
    fn steps(&mut self, hart: u32, count: u64)
        requires hart { hart < hart_count self.old }
        requires room { count ≤ space self.old }
        ensures opening { opening self.new ≡ opening self.old }
        ensures history { history self.new ≡ history self.old ++ replicate count (Step hart) }
        ensures room { space self.new + count ≡ space self.old }
        ensures harts { hart_count self.new ≡ hart_count self.old }
        ensures evictable { (line mask : ℕ) → evictable self.new line mask ↔ evictable self.old line mask }
    {
        for _ in 0..count {
            self.event(Event::Step(hart));
        }
    }

    /// How many more events may be made.
    fn room(&self) -> u64
        ensures { result ≡ space self.now };

    /// How many events were made.
    fn events(&self) -> u64
        ensures { result ≡ length (history self.now) };

    /// The hart has ended, or its recovery is done.
    fn stopped(&self, hart: u32) -> bool
        requires { hart < hart_count self.now }
        ensures { result ≡ behaviour.is_stopped (played behaviour (opening self.now) (history self.now)) hart };

    /// How often the hart has stored its point.
    fn points(&self, hart: u32) -> u64
        requires { hart < hart_count self.now }
        ensures { result ≡ point_stores behaviour (opening self.now) (history self.now) hart };

    /// How many fences the hart has finished.
    fn fences(&self, hart: u32) -> u64
        requires { hart < hart_count self.now }
        ensures { result ≡ finished_fences behaviour (opening self.now) (history self.now) hart };

    /// The least hart whose next step would be replied to neither by `Waits` nor by `Barrier` nor by `Still`.
    fn can_step(&self) -> Option<u32>
        ensures { result ≡ least_enabled behaviour (played behaviour (opening self.now) (history self.now)) (hart_count self.now) };

    /// Each hart has stopped between sections, so that another life may begin: a start is valid exactly then.
    fn can_start(&self) -> bool
        ensures { result ≡ behaviour.can_start (played behaviour (opening self.now) (history self.now)) };

    /// What runs ahead of a hart: the hart as it was at some time, and what steps that touch it alone have made of it since.
    /// The core knows nothing of it until it adopts these steps.
    type Local: Send + Drop;

    /// It runs ahead of this hart, in a core that opened so.
    ghost is_local: { Meaning → ℕ → Self.Local → Type 0 };

    /// How many steps it is ahead of the hart as it was at its beginning.
    ghost ahead_by: { Self.Local → ℕ };

    /// It can make one more step: the next one touches its hart alone.
    ghost goes_ahead: { Self.Local → Bool };

    /// This hart of the core still stands where it began, or again.
    ghost is_at_beginning: { Self → ℕ → Self.Local → Type 0 };

    /// Begins at the hart as it is now.
    fn local(&self, alloc: Global, hart: u32) -> Result<Self::Local, OutOfMemory>
        requires { hart < hart_count self.now }
        ensures { IfOk result (λ local. is_local (opening self.now) hart local × (ahead_by local ≡ 0) × is_at_beginning self.now hart local) };

    /// Begins again, at the hart as it is now. It takes no memory.
    fn refresh(&self, hart: u32, local: &mut Self::Local)
        requires exists { hart < hart_count self.now }
        requires own { is_local (opening self.now) hart local.old }
        ensures { is_local (opening self.now) hart local.new × (ahead_by local.new ≡ 0) × is_at_beginning self.now hart local.new };

    /// Makes one more step, where it can; else nothing changes.
    fn ahead(local: &mut Self::Local) -> bool
        ensures result { result ≡ goes_ahead local.old }
        ensures stays { (m : Meaning) (hart : ℕ) → is_local m hart local.old → is_local m hart local.new }
        ensures beginning { (core : Self) (hart : ℕ) → is_at_beginning core hart local.new ↔ is_at_beginning core hart local.old }
        ensures made { MatchBool result (ahead_by local.new ≡ ahead_by local.old + 1) (local.new ≡ local.old) };

    /// Makes the steps by which the local is ahead, where the hart still stands at its beginning; else nothing changes.
    /// It does what as many events do, each of them a step of the hart that moves it.
    fn adopt(&mut self, hart: u32, local: &Self::Local) -> bool
        requires exists { hart < hart_count self.old }
        requires own { is_local (opening self.old) hart local.now }
        requires room { ahead_by local.now ≤ space self.old }
        ensures result { IsTrue result ↔ is_at_beginning self.old hart local.now }
        ensures made { MatchBool result
            ((opening self.new ≡ opening self.old) × (history self.new ≡ history self.old ++ replicate (ahead_by local.now) (Step hart))
            × (hart_count self.new ≡ hart_count self.old) × (space self.new + ahead_by local.now ≡ space self.old)
            × EachMoves behaviour (opening self.old) (history self.old) hart (ahead_by local.now)
            × ((line mask : ℕ) → evictable self.new line mask ↔ evictable self.old line mask))
            (self.new ≡ self.old) };
}
