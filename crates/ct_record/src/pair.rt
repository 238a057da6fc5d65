// Pairs on the device: where they are stored, read and applied.
ghost use Rattle.std.specs.Prelude.{◌≡◌, ◌<◌, ◌≤◌, ◌+◌, ◌*◌, ◌/◌, ◌⊎◌, ◌∷◌, ℕ, IsTrue, OnOk, OnErr, length, drop, slice_index, slice_set};
ghost use Rattle.ct_base.specs.Causes.{HasCause};
ghost use Rattle.ct_base.specs.Settled.{with_pairs, pairs_at, open_pairs, HasFewPairs, HasPages, HaveTargets, IsRecord};
ghost use Rattle.ct_pm.specs.Device.{LeavesOnly, MakesOnly, NothingPending, QuietOff, SameOff, WrittenBack, IsIn};
ghost use Rattle.ct_record.specs.Record.{IsTouched, AreApplied, IsPlace, OpensOnly, SettlesTo, SharesLine, StaysInLine, place_of};
ghost use Rattle.ct_base.specs.Settled.{Named, Gives};

use ct_base::{
    LONG_GATE, LONG_PAIRS, MOST_LONG_PAIRS, MOST_SHORT_PAIRS, ROOT_WORD, SHORT_GATE, SHORT_PAIRS,
};
use ct_pm::{Pm, PmFault};

// The word as it reads once the pairs that stand from `from` on are applied.
pub fn value_after<D: Pm>(dev: &D, from: u64, count: u64, word: u64) -> u64
    requires pairs { from + 2 * count ≤ length (D.words dev.now) }
    requires word { word < length (D.words dev.now) }
    ensures { result ≡ slice_index (with_pairs (pairs_at from count (D.words dev.now)) (D.words dev.now)) word }
{
    let mut left = count;
    'pairs: while left > 0 {
        left -= 1;
        if dev.load(from + 2 * left) == word {
            return dev.load(from + 2 * left + 1);
        }
    }
    dev.load(word)
}

// Where so many drafted pairs stand.
pub fn drafted_at(count: u64) -> u64
    ensures { result ≡ place_of count }
{
    if count > 3 {
        return LONG_PAIRS;
    }
    SHORT_PAIRS
}

// Where the long pairs end that may be stored, once a pair is added to so many.
pub fn end_with(end: u64, count: u64) -> u64
    requires room { count < MOST_LONG_PAIRS }
    ensures least { end ≤ result }
    ensures short { count < MOST_SHORT_PAIRS → result ≡ end }
    ensures long { MOST_SHORT_PAIRS ≤ count → LONG_PAIRS + 2 + 2 * count ≤ result }
    ensures high { end ≤ ROOT_WORD → result ≤ ROOT_WORD }
{
    if count < 3 {
        return end;
    }
    end.max(LONG_PAIRS + 2 * (count + 1))
}

// Stores one pair at two words behind the closed gates.
fn put_pair<D: Pm>(dev: &mut D, at: u64, word: u64, value: u64) -> Result<(), PmFault>
    requires within { at + 1 < length (D.words dev.old) }
    ensures word { OnOk result (slice_index (D.words dev.new) at ≡ word) }
    ensures value { OnOk result (slice_index (D.words dev.new) (at + 1) ≡ value) }
    ensures same { SameOff (IsIn at 2) (D.words dev.new) (D.words dev.old) }
    ensures quiet { QuietOff (IsIn at 2) (D.told dev.old) (D.told dev.new) }
    ensures made { MakesOnly (λ word value. IsIn at 2 word) (D.told dev.old) (D.told dev.new) }
    ensures cause { HasCause (D.faults dev.old) (D.faults dev.new) result }
{
    dev.store(at, word)?;
    dev.store(at + 1, value)
}

// Stores the three short pairs again as long ones.
fn spill<D: Pm>(dev: &mut D) -> Result<(), PmFault>
    requires pages { HasPages (D.words dev.old) }
    ensures pairs { OnOk result (pairs_at LONG_PAIRS MOST_SHORT_PAIRS (D.words dev.new) ≡ pairs_at SHORT_PAIRS MOST_SHORT_PAIRS (D.words dev.old)) }
    ensures same { SameOff (IsIn LONG_PAIRS (2 * MOST_SHORT_PAIRS)) (D.words dev.new) (D.words dev.old) }
    ensures quiet { QuietOff (IsIn LONG_PAIRS (2 * MOST_SHORT_PAIRS)) (D.told dev.old) (D.told dev.new) }
    ensures made { MakesOnly (λ word value. IsIn LONG_PAIRS (2 * MOST_SHORT_PAIRS) word) (D.told dev.old) (D.told dev.new) }
    ensures cause { HasCause (D.faults dev.old) (D.faults dev.new) result }
{
    for k in 0..MOST_SHORT_PAIRS {
        let word = dev.load(SHORT_PAIRS + 2 * k);
        let value = dev.load(SHORT_PAIRS + 2 * k + 1);
        put_pair(dev, LONG_PAIRS + 2 * k, word, value)?;
    }
    Ok(())
}

// The word of the fourth long pair, the first that is not a short one too.
const FOURTH_PAIR: u64 = LONG_PAIRS + 2 * MOST_SHORT_PAIRS;

// Stores the three short pairs as long ones, and a fourth behind them.
fn put_fourth<D: Pm>(dev: &mut D, word: u64, value: u64) -> Result<(), PmFault>
    requires pages { HasPages (D.words dev.old) }
    ensures pairs { OnOk result (pairs_at LONG_PAIRS 4 (D.words dev.new) ≡ record { word = word; value = value } ∷ pairs_at SHORT_PAIRS MOST_SHORT_PAIRS (D.words dev.old)) }
    ensures same { SameOff (IsIn LONG_PAIRS 8) (D.words dev.new) (D.words dev.old) }
    ensures quiet { QuietOff (IsIn LONG_PAIRS 8) (D.told dev.old) (D.told dev.new) }
    ensures made { MakesOnly (λ word value. IsIn LONG_PAIRS 8 word) (D.told dev.old) (D.told dev.new) }
    ensures cause { HasCause (D.faults dev.old) (D.faults dev.new) result }
{
    spill(dev)?;
    put_pair(dev, FOURTH_PAIR, word, value)
}

// Stores one pair more: the first three in the line of the short gate, the fourth with these three as long pairs.
pub fn put_next<D: Pm>(
    dev: &mut D,
    count: u64,
    end: u64,
    word: u64,
    value: u64,
) -> Result<(), PmFault>
    requires room { count < MOST_LONG_PAIRS }
    requires pages { HasPages (D.words dev.old) }
    requires low { LONG_PAIRS ≤ end }
    requires long { MOST_SHORT_PAIRS ≤ count → LONG_PAIRS + 2 + 2 * count ≤ end }

    ensures added { OnOk result (pairs_at (place_of (count + 1)) (count + 1) (D.words dev.new) ≡ record { word = word; value = value } ∷ pairs_at (place_of count) count (D.words dev.old)) }
    ensures kept { pairs_at (place_of count) count (D.words dev.new) ≡ pairs_at (place_of count) count (D.words dev.old) }
    ensures same { SameOff (IsTouched end) (D.words dev.new) (D.words dev.old) }
    ensures quiet { QuietOff (IsTouched end) (D.told dev.old) (D.told dev.new) }
    ensures made { MakesOnly (λ word value. IsTouched end word) (D.told dev.old) (D.told dev.new) }
    ensures cause { HasCause (D.faults dev.old) (D.faults dev.new) result }
{
    if count < 3 {
        return put_pair(dev, SHORT_PAIRS + 2 * count, word, value);
    }
    if count == 3 {
        return put_fourth(dev, word, value);
    }
    put_pair(dev, LONG_PAIRS + 2 * count, word, value)
}

// Stores the value of the pair that stands at two words.
fn store_pair<D: Pm>(dev: &mut D, at: u64) -> Result<(), PmFault>
    requires pair { at + 1 < length (D.words dev.old) }
    requires target { slice_index (D.words dev.old) at < length (D.words dev.old) }

    ensures words { OnOk result (D.words dev.new ≡ slice_set (D.words dev.old) (slice_index (D.words dev.old) at) (slice_index (D.words dev.old) (at + 1))) }
    ensures quiet { QuietOff (λ word. word ≡ slice_index (D.words dev.old) at) (D.told dev.old) (D.told dev.new) }
    ensures made { MakesOnly (λ word value. (word ≡ slice_index (D.words dev.old) at) × (value ≡ slice_index (D.words dev.old) (at + 1))) (D.told dev.old) (D.told dev.new) }
    ensures err { OnErr result (D.words dev.new ≡ D.words dev.old) }
    ensures cause { HasCause (D.faults dev.old) (D.faults dev.new) result }
{
    let word = dev.load(at);
    let value = dev.load(at + 1);
    dev.store(word, value)
}

// Stores the values of the pairs, in order.
fn store_pairs<D: Pm>(dev: &mut D, from: u64, count: u64) -> Result<(), PmFault>
    requires inside { from + 2 * count ≤ ROOT_WORD }
    requires pages { HasPages (D.words dev.old) }
    requires targets { HaveTargets from count (D.words dev.old) }

    ensures words { OnOk result (D.words dev.new ≡ with_pairs (pairs_at from count (D.words dev.old)) (D.words dev.old)) }
    ensures quiet { QuietOff (Named (pairs_at from count (D.words dev.old))) (D.told dev.old) (D.told dev.new) }
    ensures made { MakesOnly (Gives (pairs_at from count (D.words dev.old))) (D.told dev.old) (D.told dev.new) }
    ensures err { OnErr result (AreApplied from count (D.words dev.old) (D.words dev.new)) }
    ensures cause { HasCause (D.faults dev.old) (D.faults dev.new) result }
{
    for i in 0..count {
        store_pair(dev, from + 2 * i)?;
    }
    Ok(())
}

// Whether one of the two pairs before names a word of the line in which this one's word lies.
fn shares_line<D: Pm>(dev: &D, from: u64, i: u64) -> bool
    requires { from + 2 * i < length (D.words dev.now) }
    ensures { IsTrue result → SharesLine from i (D.words dev.now) }
{
    let line = dev.load(from + 2 * i) / 8;
    if i >= 1 && dev.load(from + 2 * (i - 1)) / 8 == line {
        return true;
    }
    i >= 2 && dev.load(from + 2 * (i - 2)) / 8 == line
}

// Flushes the line of the word that a pair names, but where one of the two pairs before names a word of the same line.
fn flush_pair<D: Pm>(dev: &mut D, from: u64, i: u64) -> Result<(), PmFault>
    requires inside { from + 2 * i < length (D.words dev.old) }
    requires target { slice_index (D.words dev.old) (from + 2 * i) < length (D.words dev.old) }

    ensures words { D.words dev.new ≡ D.words dev.old }
    ensures quiet { QuietOff (λ _. ⊥) (D.told dev.old) (D.told dev.new) }
    ensures made { MakesOnly (λ at put. ⊥) (D.told dev.old) (D.told dev.new) }
    ensures back { OnOk result (SharesLine from i (D.words dev.old) ⊎ WrittenBack (D.told dev.new) (slice_index (D.words dev.old) (from + 2 * i) / 8)) }
    ensures still_back { (line : ℕ) → WrittenBack (D.told dev.old) line → WrittenBack (D.told dev.new) line }
    ensures cause { HasCause (D.faults dev.old) (D.faults dev.new) result }
{
    if shares_line(dev, from, i) {
        return Ok(());
    }
    let line = dev.load(from + 2 * i) / 8;
    dev.flush(line)
}

// Flushes the line of each word that the pairs name.
fn flush_pairs<D: Pm>(dev: &mut D, from: u64, count: u64) -> Result<(), PmFault>
    requires inside { from + 2 * count ≤ length (D.words dev.old) }
    requires targets { (k : ℕ) → k < count → slice_index (D.words dev.old) (from + 2 * k) < length (D.words dev.old) }

    ensures words { D.words dev.new ≡ D.words dev.old }
    ensures quiet { QuietOff (λ _. ⊥) (D.told dev.old) (D.told dev.new) }
    ensures made { MakesOnly (λ at put. ⊥) (D.told dev.old) (D.told dev.new) }
    ensures back { OnOk result ((k : ℕ) → k < count → WrittenBack (D.told dev.new) (slice_index (D.words dev.old) (from + 2 * k) / 8)) }
    ensures cause { HasCause (D.faults dev.old) (D.faults dev.new) result }
{
    for i in 0..count {
        flush_pair(dev, from, i)?;
    }
    Ok(())
}

// Applies the pairs in order, and flushes their lines.
fn apply_pairs<D: Pm>(dev: &mut D, from: u64, count: u64) -> Result<(), PmFault>
    requires inside { from + 2 * count ≤ ROOT_WORD }
    requires pages { HasPages (D.words dev.old) }
    requires targets { HaveTargets from count (D.words dev.old) }

    ensures words { OnOk result (D.words dev.new ≡ with_pairs (pairs_at from count (D.words dev.old)) (D.words dev.old)) }
    ensures quiet { QuietOff (Named (pairs_at from count (D.words dev.old))) (D.told dev.old) (D.told dev.new) }
    ensures made { MakesOnly (Gives (pairs_at from count (D.words dev.old))) (D.told dev.old) (D.told dev.new) }
    ensures back { OnOk result ((word : ℕ) → Named (pairs_at from count (D.words dev.old)) word → WrittenBack (D.told dev.new) (word / 8)) }
    ensures err { OnErr result (AreApplied from count (D.words dev.old) (D.words dev.new)) }
    ensures cause { HasCause (D.faults dev.old) (D.faults dev.new) result }
{
    store_pairs(dev, from, count)?;
    flush_pairs(dev, from, count)
}

// Where the open pairs stand.
struct Place {
    from: u64,
    count: u64,
}

// The place of the open record, or one of no pairs.
fn open_place<D: Pm>(dev: &D) -> Place
    requires pages { HasPages (D.words dev.now) }
    requires record { IsRecord (D.words dev.now) }
    ensures { IsPlace result.from result.count (D.words dev.now) }
{
    let count = dev.load(LONG_GATE);
    if count > 0 {
        return Place {
            from: LONG_PAIRS,
            count,
        };
    }
    Place {
        from: SHORT_PAIRS,
        count: dev.load(SHORT_GATE),
    }
}

// Applies the open record and fences.
pub fn apply_record<D: Pm>(dev: &mut D) -> Result<(), PmFault>
    requires settled { NothingPending (D.told dev.old) }
    requires pages { HasPages (D.words dev.old) }
    requires record { IsRecord (D.words dev.old) }

    ensures words { OnOk result (D.words dev.new ≡ with_pairs (open_pairs (D.words dev.old)) (D.words dev.old)) }
    ensures settled { OnOk result (NothingPending (D.told dev.new)) }
    ensures any_moment { LeavesOnly (D.told dev.old) (D.told dev.new) (SettlesTo (D.words dev.old)) }
    ensures reads { SettlesTo (D.words dev.old) (D.words dev.new) }
    ensures lawful { LeavesOnly (D.told dev.old) (D.told dev.new) (HasFewPairs (slice_index (D.words dev.old) LONG_GATE)) }
    ensures reads_lawful { HasFewPairs (slice_index (D.words dev.old) LONG_GATE) (D.words dev.new) }
    ensures opens { LeavesOnly (D.told dev.old) (D.told dev.new) (OpensOnly (open_pairs (D.words dev.old))) }
    ensures reads_opens { OpensOnly (open_pairs (D.words dev.old)) (D.words dev.new) }
    ensures made { MakesOnly (Gives (open_pairs (D.words dev.old))) (D.told dev.old) (D.told dev.new) }
    ensures in_line { MakesOnly StaysInLine (D.told dev.old) (D.told dev.new) }
    ensures err { OnErr result ((k : ℕ) × (D.words dev.new ≡ with_pairs (drop k (open_pairs (D.words dev.old))) (D.words dev.old))) }
    ensures cause { HasCause (D.faults dev.old) (D.faults dev.new) result }
{
    let Place { from, count } = open_place(dev);
    apply_pairs(dev, from, count)?;
    dev.fence()
}
