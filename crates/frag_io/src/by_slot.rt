//! One value for each slot.
ghost use Rattle.std.specs.Prelude.{◌≡◌, None};
ghost use Rattle.frag_io.specs.declared.desk.Slot.{Slot};
ghost use Rattle.frag_io.specs.Slot.{SameBut};
ghost use Rattle.frag_io.specs.inside.BySlot.{at};

use crate::Slot;

/// One value for each slot.
#[derive(Drop)]
pub(crate) struct BySlot<T> {
    spectra: T,
    profile: T,
    cert_in: T,
    report: T,
    cert_out: T,
}

impl<T: Drop> BySlot<Option<T>> {
    /// No value at any slot.
    pub(crate) fn none() -> Self
        ensures { (slot : Slot) → at result slot ≡ None }
    {
        BySlot {
            spectra: None,
            profile: None,
            cert_in: None,
            report: None,
            cert_out: None,
        }
    }
}

impl<T: Drop> BySlot<T> {
    /// The value at a slot, where it stands.
    pub(crate) fn get(&self, slot: Slot) -> &T
        ensures { result.now ≡ at self.now slot }
    {
        match slot {
            Slot::Spectra => &self.spectra,
            Slot::Profile => &self.profile,
            Slot::CertIn => &self.cert_in,
            Slot::Report => &self.report,
            Slot::CertOut => &self.cert_out,
        }
    }

    /// Puts a value at a slot.
    pub(crate) fn put(&mut self, slot: Slot, value: T)
        ensures own { at self.new slot ≡ value }
        ensures others { SameBut slot (at self.old) (at self.new) }
    {
        match slot {
            Slot::Spectra => self.spectra = value,
            Slot::Profile => self.profile = value,
            Slot::CertIn => self.cert_in = value,
            Slot::Report => self.report = value,
            Slot::CertOut => self.cert_out = value,
        }
    }
}

impl<T: Copy> BySlot<T> {
    /// The same value at each slot.
    pub(crate) fn of(value: T) -> Self
        ensures { (slot : Slot) → at result slot ≡ value }
    {
        BySlot {
            spectra: value,
            profile: value,
            cert_in: value,
            report: value,
            cert_out: value,
        }
    }

    /// The value at a slot.
    pub(crate) fn at(&self, slot: Slot) -> T
        ensures { result ≡ at self.now slot }
    {
        match slot {
            Slot::Spectra => self.spectra,
            Slot::Profile => self.profile,
            Slot::CertIn => self.cert_in,
            Slot::Report => self.report,
            Slot::CertOut => self.cert_out,
        }
    }
}
