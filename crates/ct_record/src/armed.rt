ghost use Rattle.std.specs.Prelude.{◌≡◌, ◌≤◌, ℕ, OnOk, OnErr, drop, slice_index};
ghost use Rattle.std.proofs.Props.{props};
ghost use Rattle.ct_base.specs.Causes.{HasCause};
ghost use Rattle.ct_base.specs.Settled.{HasFewPairs, HasPages, IsRecord, with_pairs, open_pairs};
ghost use Rattle.ct_pm.specs.Device.{LeavesOnly, MakesOnly, NothingPending};
ghost use Rattle.ct_record.specs.Record.{IsOpen, OpensOnly, SettlesTo, StaysInLine};
ghost use Rattle.ct_base.specs.Settled.{Gives};

use crate::pair::apply_record;
use crate::{Applied, Broken};
use ct_base::LONG_GATE;
use ct_pm::Pm;

/// A record that counts: one gate is open with its pairs behind it, and nothing is pending.
pub struct Armed<D: Pm> {
    dev: D,
    ghost settled: { NothingPending (D.told dev) } by { Prim.hlevel props },
    ghost pages: { HasPages (D.words dev) },
    ghost record: { IsRecord (D.words dev) },
    ghost opened: { IsOpen (D.words dev) },
}

impl<D: Pm> Armed<D> {
    ghost use Rattle.ct_record.specs.Seen.{armed_dev, after_apply};

    // A device with an open record.
    pub(crate) fn of(dev: D) -> Armed<D>
        requires settled { NothingPending (D.told dev) }
        requires pages { HasPages (D.words dev) }
        requires record { IsRecord (D.words dev) }
        requires opened { IsOpen (D.words dev) }
        ensures { armed_dev result ≡ dev }
    {
        Armed { dev }
    }

    /// Applies the pairs in order, flushes their lines and fences once.
    ///
    /// # Errors
    ///
    /// `Broken` where the device failed. The record is still open with all pairs.
    pub fn apply(self) -> Result<Applied<D>, Broken<D>>
        ensures words { OnOk result (D.words (after_apply result) ≡ with_pairs (open_pairs (D.words (armed_dev self))) (D.words (armed_dev self))) }
        ensures settled { OnOk result (NothingPending (D.told (after_apply result))) }

        // A crash at any moment leaves what settles as the words at entry do, and so do the words as they read.
        ensures any_moment { LeavesOnly (D.told (armed_dev self)) (D.told (after_apply result)) (SettlesTo (D.words (armed_dev self))) }
        ensures reads { SettlesTo (D.words (armed_dev self)) (D.words (after_apply result)) }

        // The record is lawful in it, with no more pairs than the long gate counts at entry, and so it is in the words as
        // they read.
        ensures lawful { LeavesOnly (D.told (armed_dev self)) (D.told (after_apply result)) (HasFewPairs (slice_index (D.words (armed_dev self)) LONG_GATE)) }
        ensures reads_lawful { HasFewPairs (slice_index (D.words (armed_dev self)) LONG_GATE) (D.words (after_apply result)) }

        // No other pairs are ever open.
        ensures opens { LeavesOnly (D.told (armed_dev self)) (D.told (after_apply result)) (OpensOnly (open_pairs (D.words (armed_dev self)))) }
        ensures reads_opens { OpensOnly (open_pairs (D.words (armed_dev self))) (D.words (after_apply result)) }

        // Each store gives a word the value that one of the pairs has for it.
        ensures made { MakesOnly (Gives (open_pairs (D.words (armed_dev self)))) (D.told (armed_dev self)) (D.told (after_apply result)) }

        // At a fault the oldest pairs were applied, all but a few.
        ensures part { OnErr result ((k : ℕ) × (D.words (after_apply result) ≡ with_pairs (drop k (open_pairs (D.words (armed_dev self)))) (D.words (armed_dev self)))) }
        ensures cause { HasCause (D.faults (armed_dev self)) (D.faults (after_apply result)) result }

        // Of pages 1 to 32 no word is stored to but those of the short record.
        ensures in_line { MakesOnly StaysInLine (D.told (armed_dev self)) (D.told (after_apply result)) }
    {
        let Armed { mut dev } = self;
        match apply_record(&mut dev) {
            Ok(()) => Ok(Applied::of(dev)),
            Err(_) => Err(Broken { dev }),
        }
    }
}
