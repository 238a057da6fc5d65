ghost use Rattle.std.specs.Prelude.{◌≡◌, ◌≢◌, ℕ, ◌+◌, ◌/◌, ◌%◌, ◌<◌, ◌≤◌, ◌∷◌, [], List, IfOk, IfSome, OnOk, true, length, Contains};
ghost use Rattle.ct_base.specs.Headers.{StandFor, is_one};
ghost use Rattle.ct_base.specs.Inode.{Partition, IsPart, is_free};
ghost use Rattle.ct_base.specs.Settled.{IsShut};
ghost use Rattle.ct_base.specs.View.{view};
ghost use Rattle.ct_base.specs.Walk.{AreTables, page_at};
ghost use Rattle.ct_base.specs.Words.{Writes};
ghost use Rattle.ct_frames.specs.Agrees.{Agrees};
ghost use Rattle.ct_frames.specs.Free.{FreePages};
ghost use Rattle.ct_record.specs.Seen.{drafted};
ghost use Rattle.ct_image.proofs.Beside.{Beside};
ghost use Rattle.ct_level.specs.Any.{partition};
ghost use Rattle.ct_pm.specs.Device.{NothingPending};
ghost use Rattle.ct_pm.specs.Ram.{words_of};
ghost use Rattle.ct_record.specs.Seen.{count_of};
ghost use Rattle.allocator_tests.specs.Ready.{HasLive, HasPages, IsApplied, IsEmpty, IsReady};

use ct_base::{
    ADDRESS_END, FIRST_PAGE, MOST_PAGES, NoMemory, PAGE_BYTES, PAGE_WORDS, TOP_LEVEL, Vaddr,
};
use ct_frames::Frames;
use ct_header::{HeaderWords, pick, release, take, words};
use ct_level::AnyPart;
use ct_pm::{Pm, PmFault, RamPm, commit as commit_word};
use ct_record::{Draft, Idle};
use ct_walk::{Want, ensure, load_at, missing, walk};
use pm_count::CountingPm;
use std::alloc::Global;

/// The partition of a level at an address.
fn part_at(level: u32, base: Vaddr) -> AnyPart
    requires { IsPart (record { base = base; level = level }) }
    ensures { partition result ≡ record { base = base; level = level } }
{
    match AnyPart::at(level, base) {
        Some(part) => part,
        None => unreachable!(),
    }
}

/// Makes the page of an address.
pub fn ensure_page<D: Pm>(dev: &mut D, frames: &mut Frames, address: u64) -> Result<(), PmFault>
    requires tables { AreTables (D.words dev.old) }
    requires agrees { Agrees (D.words dev.old) frames.old }
    ensures pages { OnOk result (HasPages (D.words dev.old) (D.words dev.new) frames.new (λ a. a ≡ address)) }
    ensures settled { OnOk result (NothingPending (D.told dev.old) → NothingPending (D.told dev.new)) }
{
    let Some(at) = Vaddr::new(address) else {
        return Err(PmFault);
    };
    if missing(
        dev,
        &[Want {
            height: 0,
            at,
            len: 1,
        }],
    ) > frames.free()
    {
        return Err(PmFault);
    }
    ensure::<0, D>(dev, frames, at)
}

/// Makes the pages of addresses.
fn ensure_pages<D: Pm>(
    dev: &mut D,
    frames: &mut Frames,
    addresses: &HeaderWords,
) -> Result<(), PmFault>
    requires tables { AreTables (D.words dev.old) }
    requires agrees { Agrees (D.words dev.old) frames.old }
    ensures pages { OnOk result (HasPages (D.words dev.old) (D.words dev.new) frames.new (Contains addresses.now.items)) }
    ensures settled { OnOk result (NothingPending (D.told dev.old) → NothingPending (D.told dev.new)) }
{
    for address in addresses.iter() {
        ensure_page(dev, frames, *address)?;
    }
    Ok(())
}

/// Stores the word at an address whose page is there.
fn put_word<D: Pm>(dev: &mut D, address: u64, value: u64) -> Result<(), PmFault>
    requires tables { AreTables (D.words dev.old) }
    requires high { address < ADDRESS_END }
    requires there { page_at (D.words dev.old) 4 (address / PAGE_BYTES) ≢ 0 }
    requires settled { NothingPending (D.told dev.old) }
    ensures words { OnOk result (Writes (D.words dev.old) (D.words dev.new) (address / PAGE_BYTES) (address % PAGE_BYTES / 8) value) }
    ensures settled { OnOk result (NothingPending (D.told dev.new)) }
{
    let Some(v) = Vaddr::new(address) else {
        return Err(PmFault);
    };
    let Some(page) = walk(dev, v) else {
        return Err(PmFault);
    };
    commit_word(
        dev,
        page.number() * PAGE_WORDS + address % PAGE_BYTES / 8,
        value,
    )?;
    Ok(())
}

/// Applies a draft.
fn commit<D: Pm + Drop>(draft: Draft<D>) -> Result<D, PmFault>
    requires { 0 < count_of draft }
    ensures applied { IfOk result (λ dev. IsApplied (drafted draft) (D.words dev)) }
    ensures settled { IfOk result (λ dev. NothingPending (D.told dev)) }
{
    let Ok(armed) = draft.arm() else {
        return Err(PmFault);
    };
    let Ok(applied) = armed.apply() else {
        return Err(PmFault);
    };
    let Ok(idle) = applied.finish() else {
        return Err(PmFault);
    };
    Ok(idle.into_dev())
}

/// Makes a free partition live, by a record of its own.
pub fn take_at<D: Pm + Drop>(
    dev: D,
    frames: &mut Frames,
    level: u32,
    base: Vaddr,
) -> Result<D, PmFault>
    requires part { IsPart (record { base = base; level = level }) }
    requires ready { IsReady (D.words dev) frames.old }
    requires settled { NothingPending (D.told dev) }
    requires free { (ps : List Partition) → StandFor (view (D.words dev)) ps → is_free ps (record { base = base; level = level }) ≡ true }
    ensures ready { IfOk result (λ d. IsReady (D.words d) frames.new) }
    ensures settled { IfOk result (λ d. NothingPending (D.told d)) }
    ensures live { IfOk result (λ d. HasLive (D.words d) (record { base = base; level = level })) }
{
    let mut dev = dev;
    ensure_pages(&mut dev, frames, &words(part_at(level, base)))?;
    let mut draft = Draft::begin(Idle::of(dev));
    let Ok(()) = take(&mut draft, part_at(level, base)) else {
        let _dev = draft.abandon();
        return Err(PmFault);
    };
    let dev = commit(draft)?;
    Ok(dev)
}

/// Makes a live partition free, by a record of its own.
pub fn release_at<D: Pm + Drop>(
    dev: D,
    frames: &mut Frames,
    level: u32,
    base: Vaddr,
) -> Result<D, PmFault>
    requires part { IsPart (record { base = base; level = level }) }
    requires ready { IsReady (D.words dev) frames.old }
    requires settled { NothingPending (D.told dev) }
    requires live { HasLive (D.words dev) (record { base = base; level = level }) }
    ensures ready { IfOk result (λ d. IsReady (D.words d) frames.new) }
    ensures settled { IfOk result (λ d. NothingPending (D.told d)) }
{
    let mut dev = dev;
    ensure_pages(&mut dev, frames, &words(part_at(level, base)))?;
    let mut draft = Draft::begin(Idle::of(dev));
    let Ok(()) = release(&mut draft, part_at(level, base)) else {
        let _dev = draft.abandon();
        return Err(PmFault);
    };
    let dev = commit(draft)?;
    Ok(dev)
}

/// Makes the first free partition of a level live, and gives its base.
pub fn take_first<D: Pm + Drop>(
    dev: D,
    frames: &mut Frames,
    level: u32,
) -> Result<(D, Vaddr), PmFault>
    requires level { level ≤ TOP_LEVEL }
    requires ready { IsReady (D.words dev) frames.old }
    requires settled { NothingPending (D.told dev) }
    ensures ready { IfOk result (λ r. IsReady (D.words r.0) frames.new) }
    ensures settled { IfOk result (λ r. NothingPending (D.told r.0)) }
    ensures part { IfOk result (λ r. IsPart (record { base = r.1; level = level })) }
    ensures live { IfOk result (λ r. HasLive (D.words r.0) (record { base = r.1; level = level })) }
{
    let Some(part) = pick(&dev, level) else {
        return Err(PmFault);
    };
    let base = part.base();
    let dev = take_at(dev, frames, level, base)?;
    Ok((dev, base))
}

/// Makes so many partitions of a level live, each the first free one.
fn take_many<D: Pm + Drop>(
    dev: D,
    frames: &mut Frames,
    level: u32,
    count: u32,
) -> Result<D, PmFault>
    requires level { level ≤ TOP_LEVEL }
    requires ready { IsReady (D.words dev) frames.old }
    requires settled { NothingPending (D.told dev) }
    ensures ready { IfOk result (λ d. IsReady (D.words d) frames.new) }
    ensures settled { IfOk result (λ d. NothingPending (D.told d)) }
{
    let mut dev = dev;
    'each: for _ in 0..count {
        let (next, _base) = take_first(dev, frames, level)?;
        dev = next;
    }
    Ok(dev)
}

/// Makes the first eight partitions of level 0 live, and of each level from 1 to 7 the first seven that are free then.
pub fn take_around<D: Pm + Drop>(dev: D, frames: &mut Frames) -> Result<D, PmFault>
    requires ready { IsReady (D.words dev) frames.old }
    requires settled { NothingPending (D.told dev) }
    ensures ready { IfOk result (λ d. IsReady (D.words d) frames.new) }
    ensures settled { IfOk result (λ d. NothingPending (D.told d)) }
{
    let mut dev = take_many(dev, frames, 0, 8)?;
    for level in 1..8 {
        dev = take_many(dev, frames, level, 7)?;
    }
    Ok(dev)
}

/// The address of the header bytes of the root slots.
const SLOTS: u64 = 687_194_767_360;

/// Writes the header bytes of a device with no partition.
pub fn format<D: Pm + Drop>(dev: D, frames: &mut Frames) -> Result<D, PmFault>
    requires empty { IsEmpty (D.words dev) }
    requires agrees { Agrees (D.words dev) frames.old }
    requires settled { NothingPending (D.told dev) }
    ensures ready { IfOk result (λ d. IsReady (D.words d) frames.new) }
    ensures settled { IfOk result (λ d. NothingPending (D.told d)) }
{
    let mut dev = dev;
    ensure_page(&mut dev, frames, SLOTS)?;
    put_word(&mut dev, SLOTS, 0x3030_3030_3030_3030)?;
    put_word(&mut dev, SLOTS + 8, 0x3030)?;
    Ok(dev)
}

/// The word at an address of a multiple of 8 bytes, 0 at any other.
pub fn read<D: Pm>(dev: &D, address: u64) -> u64
    requires { AreTables (D.words dev.now) }
{
    let Some(v) = Vaddr::new(address) else {
        return 0;
    };
    if address % 8 != 0 {
        return 0;
    }
    load_at(dev, v)
}

/// The base of the first free partition of a level, 0 where there is none.
pub fn first_base<D: Pm>(dev: &D, level: u32) -> u64
    requires level { level ≤ TOP_LEVEL }
    requires ready { (frames : FreePages) × IsReady (D.words dev.now) frames }
{
    match pick(dev, level) {
        Some(part) => part.base().get(),
        None => 0,
    }
}

/// A device of zeros with so many pages, and its free pages.
pub fn empty(alloc: Global, pages: u64) -> Result<(CountingPm<RamPm>, Frames), NoMemory>
    requires least { FIRST_PAGE ≤ pages }
    requires most { pages ≤ MOST_PAGES }
    ensures empty { IfOk result (λ made. IsEmpty (words_of made.0.dev)) }
    ensures agrees { IfOk result (λ made. Agrees (words_of made.0.dev) made.1) }
{
    let mut dev = RamPm::new(alloc, pages)?;
    let Ok(()) = dev.store(2, pages) else {
        return Err(NoMemory);
    };
    let frames = Frames::new(alloc, pages)?;
    Ok((CountingPm::new(dev), frames))
}
