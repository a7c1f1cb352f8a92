//! How many faults of each slot were counted.
ghost use Rattle.std.specs.Prelude.{◌≡◌};
ghost use Rattle.frag_io.specs.declared.desk.Slot.{Slot};
ghost use Rattle.frag_io.specs.Count.{raised};
ghost use Rattle.frag_io.specs.Slot.{SameBut};
ghost use Rattle.frag_io.specs.inside.Faults.{faults_of};

use crate::by_slot::BySlot;
use crate::count::Count;
use crate::{DeskFault, Slot};

/// A count of faults for each slot.
#[derive(Drop)]
pub(crate) struct Faults {
    counts: BySlot<Count>,
}

impl Faults {
    /// No fault of any slot.
    pub(crate) fn none() -> Faults
        ensures { (slot : Slot) → faults_of result slot ≡ 0 }
    {
        Faults {
            counts: BySlot::of(Count::zero()),
        }
    }

    /// How many faults of a slot were counted.
    pub(crate) fn at(&self, slot: Slot) -> u64
        ensures { result ≡ faults_of self.now slot }
    {
        self.counts.at(slot).value()
    }

    /// Counts a fault of a slot, and tells it.
    pub(crate) fn fail(&mut self, slot: Slot) -> DeskFault
        ensures fault { result ≡ DeskFault.Failed }
        ensures own { faults_of self.new slot ≡ raised (faults_of self.old slot) }
        ensures others { SameBut slot (faults_of self.old) (faults_of self.new) }
    {
        let count = self.counts.at(slot);
        self.counts.put(slot, count.raised());
        DeskFault::Failed
    }
}
