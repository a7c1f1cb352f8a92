//! Which calls of a desk in memory are to fail.
ghost use Rattle.std.specs.Prelude.{◌≡◌, ◌↔◌, IsTrue, Contains};
ghost use Rattle.frag_io.specs.Failing.{IsDue, CountsCall, calls_of};
ghost use Rattle.frag_io.specs.Count.{raised};
ghost use Rattle.frag_io.specs.declared.failing.CallKind.{CallKind};

use crate::count::Count;

/// A kind of call of a desk.
#[derive(Clone, Copy, Debug, PartialEq, Eq)]
pub enum CallKind {
    /// The beginning of a slot.
    Begin,
    /// A read.
    Read,
    /// A write.
    Write,
    /// The end of a written slot.
    Finish,
}

/// A call that fails: the one of this kind with this number, counted from 1 over all slots.
#[derive(Clone, Copy, Debug, PartialEq, Eq)]
pub struct Failing {
    /// Its kind.
    pub kind: CallKind,
    /// Its number among the calls of its kind.
    pub number: u64,
}

/// The calls that are to fail, and how many calls of each kind there were.
#[derive(Drop)]
pub(crate) struct Plan {
    failing: Vec<Failing>,
    begins: Count,
    reads: Count,
    writes: Count,
    finishes: Count,
}

impl Plan {
    /// A plan of these failing calls, before any call.
    pub(crate) fn new(failing: Vec<Failing>) -> Plan
        ensures failing { result.failing ≡ failing }
        ensures none_yet { (kind : CallKind) → calls_of result kind ≡ 0 }
    {
        Plan {
            failing,
            begins: Count::zero(),
            reads: Count::zero(),
            writes: Count::zero(),
            finishes: Count::zero(),
        }
    }

    /// Counts a call, and tells whether it is to fail.
    pub(crate) fn is_due(&mut self, kind: CallKind) -> bool
        ensures due { IsTrue result ↔ IsDue self.old kind }
        ensures counted { CountsCall kind self.old self.new }
    {
        let number = self.count(kind);
        is_planned(&self.failing, kind, number)
    }

    /// Counts a call, and gives its number.
    fn count(&mut self, kind: CallKind) -> u64
        ensures number { result ≡ raised (calls_of self.old kind) }
        ensures counted { CountsCall kind self.old self.new }
    {
        match kind {
            CallKind::Begin => {
                self.begins = self.begins.raised();
                self.begins.value()
            }
            CallKind::Read => {
                self.reads = self.reads.raised();
                self.reads.value()
            }
            CallKind::Write => {
                self.writes = self.writes.raised();
                self.writes.value()
            }
            CallKind::Finish => {
                self.finishes = self.finishes.raised();
                self.finishes.value()
            }
        }
    }
}

/// Whether a call is one of these.
fn is_planned(failing: &[Failing], kind: CallKind, number: u64) -> bool
    ensures { IsTrue result ↔ Contains failing.now (record { kind = kind; number = number }) }
{
    failing.contains(&Failing { kind, number })
}
