//! The sections that have ended by steps that are kept.
ghost use Rattle.std.specs.Prelude.{◌≡◌, ◌<◌, ◌^◌, ℕ, length, true, false, IfOk};
ghost use Rattle.ido_base.specs.Words.{word_at};
ghost use Rattle.machine_model.specs.Machine.{World, durable_point};
ghost use Rattle.ido_machine.specs.Machines.{RepresentsMachine, program_in};
ghost use Rattle.run_tracker.specs.links.AccountRepresentation.{point_word};
ghost use Rattle.run_tracker.specs.links.SectionRepresentation.{outside, looked_at, section_at, seen_at};

use crate::points::{durable_point, point_durable};
use ido_base::memory::OutOfMemory;
use ido_machine::machine::Machine;
use std::alloc::Global;

/// Of a hart: its durable point and where that stands among the values that the point's word has had, and how often it has become 0. Each
/// time a section of its thread has ended, and is kept.
#[derive(Clone, Copy, Drop)]
pub(crate) struct HartSections {
    pub position: u64,
    pub point: u64,
    pub ended: u64,
}

/// The sections of all threads.
#[derive(Drop)]
pub(crate) struct Sections {
    pub harts: Vec<HartSections>,
}

impl HartSections {
    ghost use Rattle.std.specs.Prelude.{◌≡◌, ◌<◌, ◌^◌};
    ghost use Rattle.run_tracker.specs.links.SectionRepresentation.{seen_at};

    /// Its durable point is this one now, at this position.
    fn see(&mut self, position: u64, point: u64)
        requires { self.old.ended < 2 ^ 63 }
        ensures { self.new ≡ seen_at position point self.old }
    {
        self.position = position;
        if self.point != point {
            self.point = point;
            if point == 0 {
                self.ended += 1;
            }
        }
    }
}

impl Sections {
    /// No section of so many harts has ended yet, and none of them has a durable point.
    fn none(alloc: Global, harts: u32) -> Result<Sections, OutOfMemory>
        ensures size { IfOk result (λ sections. length sections.harts.items ≡ harts) }
        ensures each { IfOk result (λ sections. (h : ℕ) → section_at sections h ≡ outside) }
    {
        let outside = HartSections {
            position: 0,
            point: 0,
            ended: 0,
        };
        Ok(Sections {
            harts: vec![in alloc; outside; harts as usize]?,
        })
    }

    /// The sections of a machine, of which none has ended yet.
    pub fn new(alloc: Global, machine: &Machine) -> Result<Sections, OutOfMemory>
        ensures size { IfOk result (λ sections. length sections.harts.items ≡ length (program_in machine.now)) }
        ensures each { IfOk result (λ sections. (w : World) → RepresentsMachine machine.now w → (h : ℕ) → h < length (program_in machine.now)
            → section_at sections h ≡ seen_at (word_at w.words (point_word w.log h)).durable (durable_point w.log w.words h) outside) }
    {
        let mut sections = Sections::none(alloc, machine.harts())?;
        sections.see_all(machine);
        Ok(sections)
    }

    /// Sees the durable points of all harts.
    fn see_all(&mut self, machine: &Machine)
        requires harts { length self.old.harts.items ≡ length (program_in machine.now) }
        requires few { (h : ℕ) → h < length self.old.harts.items → (section_at self.old h).ended < 2 ^ 63 }
        ensures size { length self.new.harts.items ≡ length self.old.harts.items }
        ensures each { (w : World) → RepresentsMachine machine.now w → (h : ℕ) → h < length self.old.harts.items
            → section_at self.new h ≡ seen_at (word_at w.words (point_word w.log h)).durable (durable_point w.log w.words h) (section_at self.old h) }
    {
        for hart in 0..machine.harts() {
            self.harts[hart as usize].see(
                point_durable(machine, hart),
                durable_point(machine, hart),
            );
        }
    }

    /// Looks which harts' points have become durable further than before, and sees those.
    pub fn look(&mut self, machine: &Machine)
        requires harts { length self.old.harts.items ≡ length (program_in machine.now) }
        requires few { (h : ℕ) → h < length self.old.harts.items → (section_at self.old h).ended < 2 ^ 63 }
        ensures size { length self.new.harts.items ≡ length self.old.harts.items }
        ensures each { (w : World) → RepresentsMachine machine.now w → (h : ℕ) → h < length self.old.harts.items
            → section_at self.new h ≡ looked_at (word_at w.words (point_word w.log h)).durable (durable_point w.log w.words h) (section_at self.old h) }
    {
        for hart in 0..machine.harts() {
            let position = point_durable(machine, hart);
            if self.harts[hart as usize].position != position {
                self.harts[hart as usize].see(position, durable_point(machine, hart));
            }
        }
    }

    /// Looks at them if so. It has to after each event by which more of memory may be durable.
    #[inline(always)]
    pub fn look_if(&mut self, looks: bool, machine: &Machine)
        requires harts { length self.old.harts.items ≡ length (program_in machine.now) }
        requires few { (h : ℕ) → h < length self.old.harts.items → (section_at self.old h).ended < 2 ^ 63 }
        ensures size { length self.new.harts.items ≡ length self.old.harts.items }
        ensures seen { looks ≡ true → (w : World) → RepresentsMachine machine.now w → (h : ℕ) → h < length self.old.harts.items
            → section_at self.new h ≡ looked_at (word_at w.words (point_word w.log h)).durable (durable_point w.log w.words h) (section_at self.old h) }
        ensures unseen { looks ≡ false → self.new ≡ self.old }
    {
        if looks {
            self.look(machine);
        }
    }
}
