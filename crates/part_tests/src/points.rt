//! A run whose outcomes are told by the number of the point.
ghost use Rattle.std.specs.Prelude.{◌≡◌, ◌<◌, ◌^◌, IfOk};

use hart_driver::report::Report;
use hart_driver::sweep::{Outcome, Replay};
use ido_base::memory::OutOfMemory;
use std::alloc::Global;

/// Each point's report is its number, below 256, and every second one is settled.
#[derive(Drop)]
pub struct Points {
    pub alloc: Global,
}

impl Replay for Points {
    ghost use Rattle.std.specs.Prelude.{◌≡◌, ◌<◌, ◌%◌, [], ◌∷◌, nat_eq};

    ghost has_point = { λ _ k. k < 256 };

    ghost is_outcome = { λ _ k o. (o.report ≡ k ∷ []) × (o.settled ≡ nat_eq (k % 2) 0) };

    fn outcome(&self, k: u32) -> Result<Outcome, OutOfMemory> {
        let bytes = vec![in self.alloc; k as u8; 1]?;
        let report = Report::new(self.alloc, bytes)?;
        Ok(Outcome {
            settled: k % 2 == 0,
            report,
        })
    }
}
