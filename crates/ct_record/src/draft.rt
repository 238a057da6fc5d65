ghost use Rattle.std.specs.Prelude.{◌≡◌, ◌<◌, ◌≤◌, ◌+◌, ◌*◌, ◌/◌, [], ◌∷◌, OnOk, OnErr, length, slice_index};
ghost use Rattle.std.proofs.Props.{props};
ghost use Rattle.ct_base.specs.Causes.{HasCause};
ghost use Rattle.ct_base.specs.declared.layout.TheConstants.{LONG_PAIRS, MOST_LONG_PAIRS, MOST_SHORT_PAIRS, ROOT_WORD};
ghost use Rattle.ct_base.specs.Settled.{HasFewPairs, HasPages, IsShut, HaveTargets, IsTarget, with_pairs};
ghost use Rattle.ct_pm.specs.Device.{with_steps, EachNow, SameOff, LeavesOnly, MakesOnly, NothingPending};
ghost use Rattle.ct_pm.specs.declared.step.Step.TheVariants.{Store, Flush, Fence};
ghost use Rattle.ct_record.specs.Record.{IsTouched, InRecord, SettlesTo, StaysInLine, StaysInRecord, IsAll, IsNoneOrAll, place_of};

use crate::gate::open_gate;
use crate::pair::{drafted_at, end_with, put_next, value_after};
use crate::{Armed, Broken, Idle};
use ct_base::{LONG_GATE, LONG_PAIRS, MOST_LONG_PAIRS, MOST_SHORT_PAIRS, ROOT_WORD, SHORT_GATE};
use ct_pm::{Pm, PmFault};

/// A record that is being written: both gates are closed in every image, while pairs are stored behind the short one, and
/// from the fourth on behind the long one.
pub struct Draft<D: Pm> {
    dev: D,
    count: u64,
    // Where the long pairs end that may have been stored. It is `LONG_PAIRS` where there are none.
    end: u64,
    ghost images: { EachNow (D.told dev) (SameOff (IsTouched end) (D.words dev)) } by { Prim.hlevel props },
    ghost shut: { IsShut (D.words dev) },
    ghost pages: { HasPages (D.words dev) },
    ghost targets: { HaveTargets (place_of count) count (D.words dev) },
    ghost few: { count ≤ MOST_LONG_PAIRS },
    ghost low: { LONG_PAIRS ≤ end },
    ghost high: { end ≤ ROOT_WORD },
    ghost short: { end ≡ LONG_PAIRS → count ≤ MOST_SHORT_PAIRS },
}

impl<D: Pm> Draft<D> {
    ghost use Rattle.ct_record.specs.Seen.{idle_dev, draft_dev, count_of, pairs_of, words_under, told_under, faults_under, Drafts, IsShort, after_arm};

    /// A draft with no pairs.
    pub fn begin(idle: Idle<D>) -> Draft<D>
        ensures dev { draft_dev result ≡ idle_dev idle }
        ensures count { count_of result ≡ 0 }
        ensures pairs { pairs_of result ≡ [] }
        ensures settles { EachNow (told_under result) (SettlesTo (words_under result)) }
        ensures short { IsShort result }
    {
        let dev = idle.into_dev();
        Draft {
            dev,
            count: 0,
            end: LONG_PAIRS,
        }
    }

    /// The device under the draft, on which no pair is applied yet.
    pub fn dev(&self) -> &D
        ensures { result.now ≡ draft_dev self.now }
    {
        &self.dev
    }

    /// The number of pairs so far.
    pub fn count(&self) -> u64
        ensures { result ≡ count_of self.now }
    {
        self.count
    }

    /// The word's value after the pairs so far. It costs a load for each pair, and up to two more.
    pub fn value(&self, word: u64) -> u64
        requires { word < length (words_under self.now) }
        ensures { result ≡ slice_index (with_pairs (pairs_of self.now) (words_under self.now)) word }
    {
        value_after(&self.dev, drafted_at(self.count), self.count, word)
    }

    /// Adds a pair, the newest, by two stores. The fourth pair is stored with the three before it, as long pairs.
    ///
    /// # Errors
    ///
    /// `PmFault` where the device failed. The draft then has the pairs that it had.
    pub fn add(&mut self, word: u64, value: u64) -> Result<(), PmFault>
        requires room { count_of self.old < MOST_LONG_PAIRS }
        requires target { IsTarget (words_under self.old) word }

        ensures count { OnOk result (count_of self.new ≡ count_of self.old + 1) }
        ensures added { OnOk result (pairs_of self.new ≡ record { word = word; value = value } ∷ pairs_of self.old) }
        ensures count_err { OnErr result (count_of self.new ≡ count_of self.old) }
        ensures kept { OnErr result (pairs_of self.new ≡ pairs_of self.old) }

        ensures drafts { Drafts self.old self.new }
        ensures cause { HasCause (faults_under self.old) (faults_under self.new) result }

        // The first three pairs are stored in the line of the short gate, whether the device fails or not.
        ensures short { IsShort self.old → count_of self.old < MOST_SHORT_PAIRS → IsShort self.new }
        ensures in_line { IsShort self.old → count_of self.old < MOST_SHORT_PAIRS → MakesOnly StaysInLine (told_under self.old) (told_under self.new) }
    {
        self.end = end_with(self.end, self.count);
        put_next(&mut self.dev, self.count, self.end, word, value)?;
        self.count += 1;
        Ok(())
    }

    /// Gives the device back with the pairs dropped: both gates are closed, and no image settles elsewhere than before.
    pub fn abandon(self) -> D
        ensures dev { result ≡ draft_dev self }
        ensures shut { IsShut (D.words result) }
        ensures each_shut { EachNow (D.told result) IsShut }
        ensures settles { EachNow (D.told result) (SettlesTo (D.words result)) }
        ensures pages { HasPages (D.words result) }
    {
        let Draft {
            dev,
            count: _,
            end: _,
        } = self;
        dev
    }

    /// Opens the gate. Of up to three pairs, where no fourth was begun, the gate is stored, its line is flushed, and one fence
    /// is made. Else the lines of the pairs are flushed once before, and of a long record fenced.
    ///
    /// # Errors
    ///
    /// `Broken` where the device failed. Each image then has the record open with all pairs, or closed.
    pub fn arm(self) -> Result<Armed<D>, Broken<D>>
        requires { 0 < count_of self }

        // After Ok the whole record is open, in every image and in the words as they read.
        ensures settled { OnOk result (NothingPending (D.told (after_arm result))) }
        ensures each { OnOk result (EachNow (D.told (after_arm result)) (IsAll (pairs_of self) (words_under self))) }
        ensures all { OnOk result (IsAll (pairs_of self) (words_under self) (D.words (after_arm result))) }

        // A crash at any moment leaves none of the pairs behind an open gate, or all.
        ensures any_moment { LeavesOnly (told_under self) (D.told (after_arm result)) (IsNoneOrAll (pairs_of self) (words_under self)) }
        ensures reads { IsNoneOrAll (pairs_of self) (words_under self) (D.words (after_arm result)) }

        // The record is lawful in it, with no more pairs than the draft has, and so it is in the words as they read.
        ensures lawful { LeavesOnly (told_under self) (D.told (after_arm result)) (HasFewPairs (count_of self)) }
        ensures reads_lawful { HasFewPairs (count_of self) (D.words (after_arm result)) }

        // Off pages 1 to 32 no word changes.
        ensures same { SameOff InRecord (D.words (after_arm result)) (words_under self) }
        ensures made { MakesOnly StaysInRecord (told_under self) (D.told (after_arm result)) }
        ensures cause { HasCause (faults_under self) (D.faults (after_arm result)) result }

        // Where no fourth pair was begun, one line is armed by three steps, and the long gate stays closed.
        ensures three { OnOk result (IsShort self → D.told (after_arm result) ≡ with_steps (Fence ∷ Flush (SHORT_GATE / 8) ∷ Store SHORT_GATE (count_of self) ∷ []) (told_under self)) }
        ensures in_line { IsShort self → MakesOnly StaysInLine (told_under self) (D.told (after_arm result)) }
        ensures closed { OnOk result (IsShort self → slice_index (D.words (after_arm result)) LONG_GATE ≡ 0) }
    {
        let Draft {
            mut dev,
            count,
            end,
        } = self;
        match open_gate(&mut dev, count, end) {
            Ok(()) => Ok(Armed::of(dev)),
            Err(_) => Err(Broken { dev }),
        }
    }
}
