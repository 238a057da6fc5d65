// Pages and tables are made on the way to an address: a free page is filled with zeros, and linked once they last.
ghost use Rattle.std.specs.Prelude.{◌≡◌, ◌≢◌, ℕ, ◌+◌, ◌-◌, ◌*◌, ◌/◌, ◌%◌, ◌^◌, ◌<◌, ◌≤◌, ◌⊎◌, true, List, [], ◌∷◌, length, slice_index, slice_set, OnOk};
ghost use Rattle.ct_base.specs.Causes.{HasCause};
ghost use Rattle.ct_base.specs.Walk.{AreTables};
ghost use Rattle.ct_base.specs.Wants.{Want as Wanted, is_wanted, missing};
ghost use Rattle.ct_frames.specs.Agrees.{Agrees};
ghost use Rattle.ct_pm.specs.Device.{EachNow, LeavesOnly, MakesOnly, NothingPending, WrittenBack, QuietOff, KeepsOthersBack, SameOff, IsIn};
ghost use Rattle.ct_walk.specs.Growth.{Extends, IsDone, Covers};
ghost use Rattle.ct_walk.specs.Has.{Has, at_one};
ghost use Rattle.ct_walk.specs.Pages.{on_way};

use crate::steps::table_at;
use ct_base::{PAGE_BYTES, PAGE_WORDS, TABLE_ENTRIES, Vaddr};
use ct_frames::Frames;
use ct_pm::{Pm, PmFault, flush_lines};

// The lines of a page, each of eight words.
const PAGE_LINES: u64 = PAGE_WORDS / 8;

// Sets n words from `first` on to 0.
fn zero_words<D: Pm>(dev: &mut D, first: u64, n: u64) -> Result<(), PmFault>
    requires { first + n ≤ length (D.words dev.old) }
    ensures zeros { OnOk result ((k : ℕ) → k < n → slice_index (D.words dev.new) (first + k) ≡ 0) }
    ensures same { SameOff (IsIn first n) (D.words dev.new) (D.words dev.old) }
    ensures quiet { QuietOff (IsIn first n) (D.told dev.old) (D.told dev.new) }
    ensures others { KeepsOthersBack (IsIn first n) (D.told dev.old) (D.told dev.new) }
    ensures made { MakesOnly (λ at put. IsIn first n at) (D.told dev.old) (D.told dev.new) }
    ensures cause { HasCause (D.faults dev.old) (D.faults dev.new) result }
{
    for i in 0..n {
        dev.store(first + i, 0)?;
    }
    Ok(())
}

// Fills a page with zeros, and starts to write it back.
pub fn zero_page<D: Pm>(dev: &mut D, page: u64) -> Result<(), PmFault>
    requires { page * PAGE_WORDS + PAGE_WORDS ≤ length (D.words dev.old) }
    ensures zeros { OnOk result ((k : ℕ) → k < PAGE_WORDS → slice_index (D.words dev.new) (page * PAGE_WORDS + k) ≡ 0) }
    ensures same { SameOff (IsIn (page * PAGE_WORDS) PAGE_WORDS) (D.words dev.new) (D.words dev.old) }
    ensures quiet { QuietOff (IsIn (page * PAGE_WORDS) PAGE_WORDS) (D.told dev.old) (D.told dev.new) }
    ensures back { OnOk result ((line : ℕ) → page * PAGE_LINES ≤ line → line < page * PAGE_LINES + PAGE_LINES → WrittenBack (D.told dev.new) line) }
    ensures others { KeepsOthersBack (IsIn (page * PAGE_WORDS) PAGE_WORDS) (D.told dev.old) (D.told dev.new) }
    ensures made { MakesOnly (λ at put. IsIn (page * PAGE_WORDS) PAGE_WORDS at) (D.told dev.old) (D.told dev.new) }
    ensures cause { HasCause (D.faults dev.old) (D.faults dev.new) result }
{
    zero_words(dev, page * PAGE_WORDS, PAGE_WORDS)?;
    flush_lines(dev, page * PAGE_LINES, page * PAGE_LINES + PAGE_LINES)
}

// Fills a page with zeros, and waits until they last.
fn clear_page<D: Pm>(dev: &mut D, page: u64) -> Result<(), PmFault>
    requires { page * PAGE_WORDS + PAGE_WORDS ≤ length (D.words dev.old) }
    ensures zeros { OnOk result ((k : ℕ) → k < PAGE_WORDS → slice_index (D.words dev.new) (page * PAGE_WORDS + k) ≡ 0) }
    ensures same { SameOff (IsIn (page * PAGE_WORDS) PAGE_WORDS) (D.words dev.new) (D.words dev.old) }
    ensures images { NothingPending (D.told dev.old) → LeavesOnly (D.told dev.old) (D.told dev.new) (λ image. SameOff (IsIn (page * PAGE_WORDS) PAGE_WORDS) image (D.words dev.old)) }
    ensures settled { OnOk result (NothingPending (D.told dev.old) → NothingPending (D.told dev.new)) }
    ensures made { MakesOnly (λ at put. IsIn (page * PAGE_WORDS) PAGE_WORDS at) (D.told dev.old) (D.told dev.new) }
    ensures cause { HasCause (D.faults dev.old) (D.faults dev.new) result }
{
    zero_page(dev, page)?;
    dev.fence()
}

// Sets the word of an entry, and waits until it lasts.
pub fn put_entry<D: Pm>(dev: &mut D, word: u64, value: u64) -> Result<(), PmFault>
    requires { word < length (D.words dev.old) }
    ensures words { OnOk result (D.words dev.new ≡ slice_set (D.words dev.old) word value) }
    ensures either { (D.words dev.new ≡ D.words dev.old) ⊎ (D.words dev.new ≡ slice_set (D.words dev.old) word value) }
    ensures images { NothingPending (D.told dev.old) → LeavesOnly (D.told dev.old) (D.told dev.new)
        (λ image. (image ≡ D.words dev.old) ⊎ (image ≡ slice_set (D.words dev.old) word value)) }
    ensures settled { OnOk result (NothingPending (D.told dev.old) → NothingPending (D.told dev.new)) }
    ensures shown { OnOk result (EachNow (D.told dev.new) (λ image. slice_index image word ≡ value)) }
    ensures made { MakesOnly (λ at put. (at ≡ word) × (put ≡ value)) (D.told dev.old) (D.told dev.new) }
    ensures cause { HasCause (D.faults dev.old) (D.faults dev.new) result }
{
    dev.store(word, value)?;
    dev.flush(word / 8)?;
    dev.fence()
}

// The word of the entry that names the page after one more index step on the way to virtual page `n`.
fn entry_word<D: Pm>(dev: &D, n: u64, depth: u32) -> u64
    requires tables { AreTables (D.words dev.now) }
    requires low { n < TABLE_ENTRIES ^ 4 }
    requires deep { depth ≤ 3 }
    requires table { on_way (D.words dev.now) n depth ≢ 0 }
    ensures { result ≡ on_way (D.words dev.now) n depth * PAGE_WORDS + n / TABLE_ENTRIES ^ (3 - depth) % TABLE_ENTRIES }
{
    match table_at(dev, n, depth) {
        Some(table) => table * PAGE_WORDS + n / TABLE_ENTRIES.pow(3 - depth) % TABLE_ENTRIES,
        None => unreachable!(),
    }
}

// Makes the page after one more index step on the way to virtual page `n`, where it is absent.
fn ensure_level<D: Pm>(dev: &mut D, frames: &mut Frames, n: u64, depth: u32) -> Result<(), PmFault>
    requires tables { AreTables (D.words dev.old) }
    requires agrees { Agrees (D.words dev.old) frames.old }
    requires low { n < TABLE_ENTRIES ^ 4 }
    requires deep { depth ≤ 3 }
    requires table { on_way (D.words dev.old) n depth ≢ 0 }
    requires room { on_way (D.words dev.old) n (depth + 1) ≡ 0 → 0 < length frames.old.free }
    ensures there { OnOk result (on_way (D.words dev.new) n (depth + 1) ≢ 0) }
    ensures extends { (wants : List Wanted) → is_wanted wants (depth + 1) (n / TABLE_ENTRIES ^ (3 - depth)) ≡ true →
        Extends wants (D.words dev.old) (D.words dev.new) (D.told dev.old) (D.told dev.new) frames.old frames.new }
    ensures done { OnOk result ((wants : List Wanted) → is_wanted wants (depth + 1) (n / TABLE_ENTRIES ^ (3 - depth)) ≡ true →
        IsDone wants (D.words dev.old) (D.words dev.new) (D.told dev.old) (D.told dev.new) frames.old frames.new) }
    ensures cause { HasCause (D.faults dev.old) (D.faults dev.new) result }
{
    let word = entry_word(dev, n, depth);
    if dev.load(word) != 0 {
        return Ok(());
    }
    let page = match frames.take() {
        Some(page) => page.number(),
        None => unreachable!(),
    };
    clear_page(dev, page)?;
    put_entry(dev, word, page * PAGE_BYTES + 1)
}

// Makes what a want of a height at one address misses.
fn ensure_at<D: Pm>(dev: &mut D, frames: &mut Frames, v: Vaddr, height: u32) -> Result<(), PmFault>
    requires tables { AreTables (D.words dev.old) }
    requires agrees { Agrees (D.words dev.old) frames.old }
    requires height { height ≤ 4 }
    requires room { missing (D.words dev.old) (at_one height v) ≤ length frames.old.free }
    ensures there { OnOk result (on_way (D.words dev.new) (v / PAGE_BYTES) (4 - height) ≢ 0) }
    ensures extends { (wants : List Wanted) → Covers wants (v / PAGE_BYTES) (4 - height) →
        Extends wants (D.words dev.old) (D.words dev.new) (D.told dev.old) (D.told dev.new) frames.old frames.new }
    ensures done { OnOk result ((wants : List Wanted) → Covers wants (v / PAGE_BYTES) (4 - height) →
        IsDone wants (D.words dev.old) (D.words dev.new) (D.told dev.old) (D.told dev.new) frames.old frames.new) }
    ensures cause { HasCause (D.faults dev.old) (D.faults dev.new) result }
{
    let n = v.get() / PAGE_BYTES;
    for depth in 0..4 - height {
        ensure_level(dev, frames, n, depth)?;
    }
    Ok(())
}

/// Makes the page (`K` is 0) or the table of level `K` (1 to 3) at an address, with the tables on its way, where they are
/// absent.
///
/// The pages come from `frames`, and there are exactly as many as are missing. A crash at any moment leaves well formed
/// tables, each page that was there at its place, and each byte as it was.
///
/// # Errors
///
/// `PmFault` where the device failed. Then some of the pages may be there.
pub fn ensure<const K: u32, D: Pm>(
    dev: &mut D,
    frames: &mut Frames,
    v: Vaddr,
) -> Result<(), PmFault>
    requires tables { AreTables (D.words dev.old) }
    requires agrees { Agrees (D.words dev.old) frames.old }
    requires height { K ≤ 3 }
    requires room { missing (D.words dev.old) (at_one K v) ≤ length frames.old.free }
    ensures there { OnOk result (Has (D.words dev.new) (record { height = K; at = v; len = 1 })) }
    ensures taken { OnOk result (length frames.new.free + missing (D.words dev.old) (at_one K v) ≡ length frames.old.free) }
    ensures agrees { OnOk result (Agrees (D.words dev.new) frames.new) }
    ensures settled { OnOk result (NothingPending (D.told dev.old) → NothingPending (D.told dev.new)) }

    // The words as they read and each image of a crash have grown from the words at entry, whatever the result.
    ensures extends { Extends (at_one K v) (D.words dev.old) (D.words dev.new) (D.told dev.old) (D.told dev.new) frames.old frames.new }

    ensures cause { HasCause (D.faults dev.old) (D.faults dev.new) result }
{
    ensure_at(dev, frames, v, K)
}
