ghost use Rattle.std.specs.Prelude.{◌≡◌, ◌≤◌, OnOk, slice_index};
ghost use Rattle.std.proofs.Props.{props};
ghost use Rattle.ct_base.specs.Causes.{HasCause};
ghost use Rattle.ct_base.specs.Settled.{open_pairs, HasFewPairs, HasPages, IsShut, IsRecord};
ghost use Rattle.ct_pm.specs.Device.{LeavesOnly, MakesOnly, NothingPending, SameOff};
ghost use Rattle.ct_record.specs.Record.{IsOpen, OpensOnly, Stand, InRecord, StaysInLine, StaysInRecord, SettlesTo};

use crate::gate::close_gate;
use crate::{Broken, Idle};
use ct_base::LONG_GATE;
use ct_pm::Pm;

/// A record that was applied: one gate is open, its pairs stand on the device, and nothing is pending.
pub struct Applied<D: Pm> {
    dev: D,
    ghost settled: { NothingPending (D.told dev) } by { Prim.hlevel props },
    ghost pages: { HasPages (D.words dev) },
    ghost record: { IsRecord (D.words dev) },
    ghost opened: { IsOpen (D.words dev) },
    ghost stand: { Stand (D.words dev) },
}

impl<D: Pm> Applied<D> {
    ghost use Rattle.ct_record.specs.Seen.{applied_dev, after_finish};

    // A device whose open record was applied.
    pub(crate) fn of(dev: D) -> Applied<D>
        requires settled { NothingPending (D.told dev) }
        requires pages { HasPages (D.words dev) }
        requires record { IsRecord (D.words dev) }
        requires opened { IsOpen (D.words dev) }
        requires stand { Stand (D.words dev) }
        ensures { applied_dev result ≡ dev }
    {
        Applied { dev }
    }

    /// Commits 0 to the gate.
    ///
    /// # Errors
    ///
    /// `Broken` where the device failed. The pairs stand, whether the gate is still open or not.
    pub fn finish(self) -> Result<Idle<D>, Broken<D>>
        // The pairs stand, and off pages 1 to 32 no word changes.
        ensures stand { Stand (D.words (applied_dev self)) }
        ensures same { SameOff InRecord (D.words (after_finish result)) (D.words (applied_dev self)) }
        ensures made { MakesOnly StaysInRecord (D.told (applied_dev self)) (D.told (after_finish result)) }

        ensures shut { OnOk result (IsShut (D.words (after_finish result))) }
        ensures settled { OnOk result (NothingPending (D.told (after_finish result))) }

        // A crash at any moment leaves what settles as the words at entry do, and so do the words as they read.
        ensures any_moment { LeavesOnly (D.told (applied_dev self)) (D.told (after_finish result)) (SettlesTo (D.words (applied_dev self))) }
        ensures reads { SettlesTo (D.words (applied_dev self)) (D.words (after_finish result)) }

        // The record is lawful in it, with no more pairs than the long gate counts at entry, and so it is in the words as
        // they read.
        ensures lawful { LeavesOnly (D.told (applied_dev self)) (D.told (after_finish result)) (HasFewPairs (slice_index (D.words (applied_dev self)) LONG_GATE)) }
        ensures reads_lawful { HasFewPairs (slice_index (D.words (applied_dev self)) LONG_GATE) (D.words (after_finish result)) }

        // No other pairs are ever open.
        ensures opens { LeavesOnly (D.told (applied_dev self)) (D.told (after_finish result)) (OpensOnly (open_pairs (D.words (applied_dev self)))) }
        ensures reads_opens { OpensOnly (open_pairs (D.words (applied_dev self))) (D.words (after_finish result)) }
        ensures cause { HasCause (D.faults (applied_dev self)) (D.faults (after_finish result)) result }

        // Where the long gate is closed, no word of pages 1 to 32 is stored to but those of the short record.
        ensures in_line { slice_index (D.words (applied_dev self)) LONG_GATE ≡ 0 → MakesOnly StaysInLine (D.told (applied_dev self)) (D.told (after_finish result)) }
    {
        let Applied { mut dev } = self;
        match close_gate(&mut dev) {
            Ok(()) => Ok(Idle::of(dev)),
            Err(_) => Err(Broken { dev }),
        }
    }
}
