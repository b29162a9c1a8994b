//! What is counted of harts.
ghost use Rattle.std.specs.Prelude.{◌≡◌, ◌+◌, ◌<◌, ◌^◌, length, replicate, slice_index, slice_set, if◌then◌else◌, IfOk};

use ido_base::memory::OutOfMemory;
use std::alloc::Global;

/// How often each hart has stored its point, and how many fences it has finished.
#[derive(Drop)]
pub(crate) struct Counts {
    pub points: Vec<u64>,
    pub fences: Vec<u64>,
}

impl Counts {
    /// The counts of so many harts that have done nothing yet.
    pub fn new(alloc: Global, harts: u32) -> Result<Counts, OutOfMemory>
        ensures points { IfOk result (λ counts. counts.points.items ≡ replicate harts 0) }
        ensures fences { IfOk result (λ counts. counts.fences.items ≡ replicate harts 0) }
    {
        Ok(Counts {
            points: vec![in alloc; 0u64; harts as usize]?,
            fences: vec![in alloc; 0u64; harts as usize]?,
        })
    }

    /// The hart has stored its point, if so, and finished a fence, if so.
    pub fn add(&mut self, hart: u32, point: bool, fence: bool)
        requires in_points { hart < length self.old.points.items }
        requires in_fences { hart < length self.old.fences.items }
        requires few_points { slice_index self.old.points.items hart < 2 ^ 63 }
        requires few_fences { slice_index self.old.fences.items hart < 2 ^ 63 }
        ensures points { self.new.points.items ≡ slice_set self.old.points.items hart (slice_index self.old.points.items hart + (if point then 1 else 0)) }
        ensures fences { self.new.fences.items ≡ slice_set self.old.fences.items hart (slice_index self.old.fences.items hart + (if fence then 1 else 0)) }
    {
        if point {
            self.points[hart as usize] += 1;
        }
        if fence {
            self.fences[hart as usize] += 1;
        }
    }
}
