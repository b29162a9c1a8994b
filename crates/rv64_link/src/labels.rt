//! Where labels stand.
ghost use Rattle.std.specs.Prelude.{◌≡◌, ◌+◌, ℕ, ◌<◌, ◌^◌, IfOk, OnOk, get_or, ◌==◌, if◌then◌else◌};
ghost use Rattle.rv64_link.specs.links.LabelRepresentation.{LabelsStand};

use ido_base::memory::OutOfMemory;
use rv64_isa::object::{CodeItem, Label};
use std::alloc::Global;

/// The positions of labels, by their numbers. Labels past them stand at the end.
#[derive(Drop)]
pub struct Labels {
    pub positions: Vec<usize>,
    pub end: usize,
}

impl Labels {
    /// The label stands at a position.
    fn set(&mut self, label: usize, position: usize) -> Result<(), OutOfMemory>
        requires { label < 2 ^ 32 }
        ensures end { self.new.end ≡ self.old.end }
        ensures position { OnOk result ((l : ℕ) →
            get_or self.new.positions.items l self.old.end ≡ (if l == label then position else get_or self.old.positions.items l self.old.end)) }
    {
        if label >= self.positions.len() {
            self.positions.resize(label + 1, self.end)?;
        }
        self.positions[label] = position;
        Ok(())
    }

    /// The positions of the labels of items.
    pub fn new(alloc: Global, items: &[CodeItem]) -> Result<Self, OutOfMemory>
        ensures { IfOk result (λ labels. LabelsStand labels items.now) }
    {
        let mut labels = Labels {
            positions: Vec::new(alloc),
            end: items.len(),
        };
        let mut at = items.len();
        while at > 0 {
            at -= 1;
            if let CodeItem::Here(label) = items[at] {
                labels.set(label.0 as usize, at)?;
            }
        }
        Ok(labels)
    }

    /// The position of a label.
    pub fn position(&self, label: Label) -> usize
        ensures { result ≡ get_or self.now.positions.items label.0 self.now.end }
    {
        match self.positions.get(label.0 as usize) {
            Some(position) => *position,
            None => self.end,
        }
    }
}
