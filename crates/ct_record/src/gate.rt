// The gates of the record.
ghost use Rattle.std.specs.Prelude.{◌≡◌, ◌≤◌, ◌/◌, [], ◌∷◌, OnOk, OnErr, slice_index};
ghost use Rattle.ct_base.specs.Causes.{HasCause};
ghost use Rattle.ct_base.specs.Settled.{open_pairs, pairs_at, HasFewPairs, HasPages, IsShut, IsRecord};
ghost use Rattle.ct_pm.specs.Device.{with_steps, EachNow, LeavesOnly, MakesOnly, NothingPending, SameOff};
ghost use Rattle.ct_pm.specs.declared.step.Step.TheVariants.{Store, Flush, Fence};
ghost use Rattle.ct_record.specs.Record.{place_of, IsArmed, StaysInLine, IsTouched, InRecord, IsFull, IsNoneOrAll, IsOpen, OpensOnly, Stand, SettlesTo, StaysInRecord};

use ct_base::{LONG_GATE, LONG_PAIRS, MOST_SHORT_PAIRS, SHORT_GATE, SHORT_PAIRS};
use ct_pm::{Pm, PmFault, commit, flush_lines};

// The line of the short pairs and their gate.
const SHORT_LINE: u64 = SHORT_GATE / 8;

// The first line of the long pairs.
const LONG_LINE: u64 = LONG_PAIRS / 8;

// Flushes the lines of the pairs, fences, and opens the long gate.
fn open_long<D: Pm>(dev: &mut D, count: u64, end: u64) -> Result<(), PmFault>
    requires full { IsFull LONG_PAIRS count end (D.words dev.old) }
    requires images { EachNow (D.told dev.old) (SameOff (IsTouched end) (D.words dev.old)) }

    ensures armed { OnOk result (IsArmed (pairs_at LONG_PAIRS count (D.words dev.old)) (D.words dev.old) (D.words dev.new)) }
    ensures settled { OnOk result (NothingPending (D.told dev.new)) }
    ensures any_moment { LeavesOnly (D.told dev.old) (D.told dev.new) (IsNoneOrAll (pairs_at LONG_PAIRS count (D.words dev.old)) (D.words dev.old)) }
    ensures made { MakesOnly StaysInRecord (D.told dev.old) (D.told dev.new) }
    ensures reads { IsNoneOrAll (pairs_at LONG_PAIRS count (D.words dev.old)) (D.words dev.old) (D.words dev.new) }
    ensures lawful { LeavesOnly (D.told dev.old) (D.told dev.new) (HasFewPairs count) }
    ensures reads_lawful { HasFewPairs count (D.words dev.new) }
    ensures same { SameOff InRecord (D.words dev.new) (D.words dev.old) }
    ensures cause { HasCause (D.faults dev.old) (D.faults dev.new) result }
{
    flush_lines(dev, SHORT_LINE, end.div_ceil(8))?;
    dev.fence()?;
    commit(dev, LONG_GATE, count)
}

// Opens the short gate over pairs of its line that are not fenced yet. Lines of long pairs, where a fourth was begun, are
// flushed before.
fn open_short<D: Pm>(dev: &mut D, count: u64, end: u64) -> Result<(), PmFault>
    requires full { IsFull SHORT_PAIRS count end (D.words dev.old) }
    requires short { count ≤ MOST_SHORT_PAIRS }
    requires images { EachNow (D.told dev.old) (SameOff (IsTouched end) (D.words dev.old)) }

    ensures armed { OnOk result (IsArmed (pairs_at SHORT_PAIRS count (D.words dev.old)) (D.words dev.old) (D.words dev.new)) }
    ensures settled { OnOk result (NothingPending (D.told dev.new)) }
    ensures any_moment { LeavesOnly (D.told dev.old) (D.told dev.new) (IsNoneOrAll (pairs_at SHORT_PAIRS count (D.words dev.old)) (D.words dev.old)) }
    ensures made { MakesOnly StaysInRecord (D.told dev.old) (D.told dev.new) }
    ensures reads { IsNoneOrAll (pairs_at SHORT_PAIRS count (D.words dev.old)) (D.words dev.old) (D.words dev.new) }
    ensures lawful { LeavesOnly (D.told dev.old) (D.told dev.new) (HasFewPairs count) }
    ensures reads_lawful { HasFewPairs count (D.words dev.new) }
    ensures same { SameOff InRecord (D.words dev.new) (D.words dev.old) }
    ensures cause { HasCause (D.faults dev.old) (D.faults dev.new) result }

    ensures three { OnOk result (end ≡ LONG_PAIRS → D.told dev.new ≡ with_steps (Fence ∷ Flush (SHORT_GATE / 8) ∷ Store SHORT_GATE count ∷ []) (D.told dev.old)) }
    ensures in_line { MakesOnly StaysInLine (D.told dev.old) (D.told dev.new) }
    ensures closed { OnOk result (slice_index (D.words dev.new) LONG_GATE ≡ 0) }
{
    flush_lines(dev, LONG_LINE, end.div_ceil(8))?;
    dev.store(SHORT_GATE, count)?;
    dev.flush(SHORT_LINE)?;
    dev.fence()
}

// Opens the gate behind which so many pairs stand.
pub fn open_gate<D: Pm>(dev: &mut D, count: u64, end: u64) -> Result<(), PmFault>
    requires full { IsFull (place_of count) count end (D.words dev.old) }
    requires images { EachNow (D.told dev.old) (SameOff (IsTouched end) (D.words dev.old)) }

    ensures armed { OnOk result (IsArmed (pairs_at (place_of count) count (D.words dev.old)) (D.words dev.old) (D.words dev.new)) }
    ensures settled { OnOk result (NothingPending (D.told dev.new)) }
    ensures any_moment { LeavesOnly (D.told dev.old) (D.told dev.new) (IsNoneOrAll (pairs_at (place_of count) count (D.words dev.old)) (D.words dev.old)) }
    ensures made { MakesOnly StaysInRecord (D.told dev.old) (D.told dev.new) }
    ensures reads { IsNoneOrAll (pairs_at (place_of count) count (D.words dev.old)) (D.words dev.old) (D.words dev.new) }
    ensures lawful { LeavesOnly (D.told dev.old) (D.told dev.new) (HasFewPairs count) }
    ensures reads_lawful { HasFewPairs count (D.words dev.new) }
    ensures same { SameOff InRecord (D.words dev.new) (D.words dev.old) }
    ensures cause { HasCause (D.faults dev.old) (D.faults dev.new) result }

    ensures three { OnOk result (count ≤ MOST_SHORT_PAIRS → end ≡ LONG_PAIRS → D.told dev.new ≡ with_steps (Fence ∷ Flush (SHORT_GATE / 8) ∷ Store SHORT_GATE count ∷ []) (D.told dev.old)) }
    ensures in_line { count ≤ MOST_SHORT_PAIRS → MakesOnly StaysInLine (D.told dev.old) (D.told dev.new) }
    ensures closed { OnOk result (count ≤ MOST_SHORT_PAIRS → slice_index (D.words dev.new) LONG_GATE ≡ 0) }
{
    if count > 3 {
        return open_long(dev, count, end);
    }
    open_short(dev, count, end)
}

// Closes the gate of a record whose pairs stand.
pub fn close_gate<D: Pm>(dev: &mut D) -> Result<(), PmFault>
    requires settled { NothingPending (D.told dev.old) }
    requires pages { HasPages (D.words dev.old) }
    requires record { IsRecord (D.words dev.old) }
    requires opened { IsOpen (D.words dev.old) }
    requires stand { Stand (D.words dev.old) }

    ensures shut { OnOk result (IsShut (D.words dev.new)) }
    ensures settled { OnOk result (NothingPending (D.told dev.new)) }
    ensures same { SameOff InRecord (D.words dev.new) (D.words dev.old) }
    ensures made { MakesOnly StaysInRecord (D.told dev.old) (D.told dev.new) }
    ensures any_moment { LeavesOnly (D.told dev.old) (D.told dev.new) (SettlesTo (D.words dev.old)) }
    ensures reads { SettlesTo (D.words dev.old) (D.words dev.new) }
    ensures lawful { LeavesOnly (D.told dev.old) (D.told dev.new) (HasFewPairs (slice_index (D.words dev.old) LONG_GATE)) }
    ensures reads_lawful { HasFewPairs (slice_index (D.words dev.old) LONG_GATE) (D.words dev.new) }
    ensures opens { LeavesOnly (D.told dev.old) (D.told dev.new) (OpensOnly (open_pairs (D.words dev.old))) }
    ensures reads_opens { OpensOnly (open_pairs (D.words dev.old)) (D.words dev.new) }
    ensures cause { HasCause (D.faults dev.old) (D.faults dev.new) result }
    ensures in_line { slice_index (D.words dev.old) LONG_GATE ≡ 0 → MakesOnly StaysInLine (D.told dev.old) (D.told dev.new) }
{
    if dev.load(LONG_GATE) > 0 {
        return commit(dev, LONG_GATE, 0);
    }
    commit(dev, SHORT_GATE, 0)
}
