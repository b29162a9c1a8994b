//! Reports.
ghost use Rattle.std.specs.Prelude.{◌≡◌, ℕ, List, IfOk};
ghost use Rattle.std.specs.Arc.{arc_value};

use ido_base::memory::OutOfMemory;
use std::alloc::Global;
use std::marker::Model;
use std::sync::Arc;

/// A report: contracts see its bytes. Several may have the same bytes in memory.
#[derive(Drop)]
pub struct Report {
    bytes: Arc<Vec<u8>, Global>,
}

impl Model for Report {
    ghost Value = { List ℕ };

    ghost view = { λ r. (arc_value r.bytes).items };
}

impl Report {
    /// That of these bytes.
    pub fn new(alloc: Global, bytes: Vec<u8>) -> Result<Report, OutOfMemory>
        ensures { IfOk result (λ report. report ≡ bytes.items) }
    {
        let bytes = Arc::new(alloc, bytes)?;
        Ok(Report { bytes })
    }

    /// Its bytes.
    pub fn bytes(&self) -> &[u8]
        ensures { result.now ≡ self.now }
    {
        &self.bytes
    }

    /// The same report, which takes no memory for its bytes.
    pub fn shared(&self) -> Result<Report, OutOfMemory>
        ensures { IfOk result (λ report. report ≡ self.now) }
    {
        let bytes = Arc::try_clone(&self.bytes)?;
        Ok(Report { bytes })
    }
}
