// Making the image of an empty tree.
ghost use Rattle.std.specs.Prelude.{◌≡◌, ◌≢◌, ◌⊎◌, ◌↔◌, ℕ, [], ◌∷◌, ◌-◌, ◌*◌, ◌<◌, ◌≤◌, IfOk, IfErr, IsSomeAnd, OnOk, OnErr, Some, length, slice_set};
ghost use Rattle.ct_base.specs.Causes.{HasCause, Rose};
ghost use Rattle.ct_base.specs.Format.{IsFormatted};
ghost use Rattle.ct_pm.specs.Device.{LeavesOnly, MakesOnly, NothingPending, SameOff, with_steps};
ghost use Rattle.ct_frames.specs.Free.{rising};
ghost use Rattle.ct_tree.specs.Tree.{Dir, none};
ghost use Rattle.ct_call.specs.Calls.{Keeps};
ghost use Rattle.ct_format.specs.Made.{IsMissized, IsNew, image_dev, why_not};
ghost use Rattle.ct_pm.specs.declared.step.Step.TheVariants.{Store, Flush};
ghost use Rattle.ct_format.specs.Formatting.{Formats, HasWords, IsFormatImage, IsFormatWord, IsGate, IsHeadWord, IsLaidOut, IsTableWord, Laid, Lays, Makes, format_word, magic_steps};

use crate::image::page_words;
use ct_base::{
    FIRST_PAGE, LEAST_INODES, LEAST_PAGES, LONG_GATE, MOST_INODES, MOST_PAGES, NoMemory,
    PAGE_WORDS, Page, ROOT_PAGE, SHORT_GATE,
};
use ct_call::{Mounted, NoMount, Why};
use ct_frames::Frames;
use ct_pm::{Pm, PmFault, lay};
use std::alloc::Global;

/// Word 0 of an image, by which it is known: the bytes `RTCTFS01`.
const MAGIC: u64 = 0x3130_5346_5443_5452;

/// The first page that the image of an empty tree leaves free.
const FREE_PAGE: u64 = 42;

// Sets word 0, and waits until it lasts.
fn put_magic<D: Pm>(dev: &mut D, value: u64) -> Result<(), PmFault>
    requires within { 0 < length (D.words dev.old) }
    requires settled { NothingPending (D.told dev.old) }
    ensures words { OnOk result (D.words dev.new ≡ slice_set (D.words dev.old) 0 value) }
    ensures settled { OnOk result (NothingPending (D.told dev.new)) }
    ensures either { (D.words dev.new ≡ D.words dev.old) ⊎ (D.words dev.new ≡ slice_set (D.words dev.old) 0 value) }
    ensures images { LeavesOnly (D.told dev.old) (D.told dev.new)
        (λ image. (image ≡ D.words dev.old) ⊎ (image ≡ slice_set (D.words dev.old) 0 value)) }
    ensures fenced { OnOk result (D.told dev.new ≡ with_steps (magic_steps value) (D.told dev.old)) }
    ensures unfenced { OnErr result (Makes (Flush 0 ∷ Store 0 value ∷ []) (D.told dev.old) (D.told dev.new)) }
    ensures made { MakesOnly (λ at put. (at ≡ 0) × (put ≡ value)) (D.told dev.old) (D.told dev.new) }
    ensures cause { HasCause (D.faults dev.old) (D.faults dev.new) result }
{
    dev.store(0, value)?;
    dev.flush(0)?;
    dev.fence()
}

// Lays the superblock out, but for the magic.
fn lay_head<D: Pm>(dev: &mut D, pages: u64, inodes: u64) -> Result<(), PmFault>
    requires { FREE_PAGE * PAGE_WORDS ≤ length (D.words dev.old) }
    ensures only { Lays IsHeadWord (D.words dev.old) (D.words dev.new) (D.told dev.old) (D.told dev.new) }
    ensures laid { OnOk result (Laid IsHeadWord (format_word pages inodes) (D.words dev.new) (D.told dev.old) (D.told dev.new)) }
    ensures cause { HasCause (D.faults dev.old) (D.faults dev.new) result }
{
    let words = page_words(0, pages, inodes);
    lay(dev, 1, &words[1..])
}

// Shuts both gates of the redo record.
fn lay_gates<D: Pm>(dev: &mut D) -> Result<(), PmFault>
    requires { FREE_PAGE * PAGE_WORDS ≤ length (D.words dev.old) }
    ensures only { Lays IsGate (D.words dev.old) (D.words dev.new) (D.told dev.old) (D.told dev.new) }
    ensures laid { OnOk result (Laid IsGate (λ _. 0) (D.words dev.new) (D.told dev.old) (D.told dev.new)) }
    ensures cause { HasCause (D.faults dev.old) (D.faults dev.new) result }
{
    lay(dev, LONG_GATE, &[0])?;
    lay(dev, SHORT_GATE, &[0])
}

// Lays the tables out, and the pages of the inodes and the headers.
fn lay_tables<D: Pm>(dev: &mut D, pages: u64, inodes: u64) -> Result<(), PmFault>
    requires { FREE_PAGE * PAGE_WORDS ≤ length (D.words dev.old) }
    ensures only { Lays IsTableWord (D.words dev.old) (D.words dev.new) (D.told dev.old) (D.told dev.new) }
    ensures laid { OnOk result (Laid IsTableWord (format_word pages inodes) (D.words dev.new) (D.told dev.old) (D.told dev.new)) }
    ensures cause { HasCause (D.faults dev.old) (D.faults dev.new) result }
{
    for page in ROOT_PAGE..FREE_PAGE {
        lay(dev, page * PAGE_WORDS, &page_words(page, pages, inodes))?;
    }
    Ok(())
}

// Lays all out but the magic, and waits until it lasts.
fn lay_out<D: Pm>(dev: &mut D, pages: u64, inodes: u64) -> Result<(), PmFault>
    requires room { FREE_PAGE * PAGE_WORDS ≤ length (D.words dev.old) }
    requires settled { NothingPending (D.told dev.old) }
    ensures only { Lays IsLaidOut (D.words dev.old) (D.words dev.new) (D.told dev.old) (D.told dev.new) }
    ensures words { OnOk result (HasWords pages inodes (D.words dev.new)) }
    ensures settled { OnOk result (NothingPending (D.told dev.new)) }
    ensures cause { HasCause (D.faults dev.old) (D.faults dev.new) result }
{
    lay_head(dev, pages, inodes)?;
    lay_gates(dev)?;
    lay_tables(dev, pages, inodes)?;
    dev.fence()
}

// Makes the image: no word 0 has the magic before all else lasts.
fn write_image<D: Pm>(dev: &mut D, pages: u64, inodes: u64) -> Result<(), PmFault>
    requires least { LEAST_PAGES ≤ pages }
    requires most { pages ≤ MOST_PAGES }
    requires size { length (D.words dev.old) ≡ PAGE_WORDS * pages }
    requires two { LEAST_INODES ≤ inodes }
    requires few { inodes ≤ MOST_INODES }
    requires settled { NothingPending (D.told dev.old) }
    ensures formatted { OnOk result (IsFormatted (D.words dev.new) pages inodes) }
    ensures settled { OnOk result (NothingPending (D.told dev.new)) }
    ensures others { SameOff IsFormatWord (D.words dev.new) (D.words dev.old) }
    ensures made { MakesOnly (λ at put. IsFormatWord at) (D.told dev.old) (D.told dev.new) }
    ensures moments { Formats (D.words dev.old) (D.told dev.old) (D.told dev.new) }
    ensures reads { IsFormatImage (D.words dev.old) (D.words dev.new) }
    ensures cause { HasCause (D.faults dev.old) (D.faults dev.new) result }
{
    put_magic(dev, 0)?;
    lay_out(dev, pages, inodes)?;
    put_magic(dev, MAGIC)
}

// The pages that the image of an empty tree leaves free.
fn free_pages(alloc: Global, pages: u64) -> Result<Frames, NoMemory>
    requires least { LEAST_PAGES ≤ pages }
    requires most { pages ≤ MOST_PAGES }
    ensures { IfOk result (λ frames. frames ≡ record { pages = pages; free = rising (pages - FREE_PAGE) FREE_PAGE }) }
{
    let mut frames = Frames::new(alloc, pages)?;
    for page in FIRST_PAGE..FREE_PAGE {
        frames.mark(Page::new(page));
    }
    Ok(frames)
}

/// Makes the image of an empty tree of all pages of a device, with so many inodes, and finds which pages it leaves free.
///
/// # Errors
///
/// `Damage(0)` exactly where the device has fewer than 256 or more than 262,144 pages, `Memory` where memory ran out: then
/// the device is as it was. `Fault` where the device failed.
pub fn make_image<D: Pm>(alloc: Global, mut dev: D, inodes: u64) -> Result<Mounted<D>, NoMount<D>>
    requires two { LEAST_INODES ≤ inodes }
    requires few { inodes ≤ MOST_INODES }
    requires settled { NothingPending (D.told dev) }
    ensures made { IfOk result (λ made. IsNew (D.words made.dev) made.frames (D.page_count dev) inodes) }
    ensures settled { IfOk result (λ made. NothingPending (D.told made.dev)) }
    ensures size { (rule : ℕ) → (why_not result ≡ Some (Why.Damage rule)) ↔ ((rule ≡ 0) × IsMissized (D.page_count dev)) }
    ensures untouched { IfErr result (λ no_mount. no_mount.why ≢ Why.Fault → no_mount.dev ≡ dev) }
    ensures cause { IfErr result (λ no_mount. no_mount.why ≡ Why.Fault → Rose (D.faults dev) (D.faults no_mount.dev)) }
    ensures later { D.faults dev ≤ D.faults (image_dev result) }
    ensures others { SameOff IsFormatWord (D.words (image_dev result)) (D.words dev) }
    ensures stores { MakesOnly (λ at put. IsFormatWord at) (D.told dev) (D.told (image_dev result)) }
    ensures moments { Formats (D.words dev) (D.told dev) (D.told (image_dev result)) }
    ensures reads { IsFormatImage (D.words dev) (D.words (image_dev result)) }
{
    let pages = dev.pages();
    if pages < LEAST_PAGES || pages > MOST_PAGES {
        return Err(NoMount {
            dev,
            why: Why::Damage(0),
        });
    }
    let frames = match free_pages(alloc, pages) {
        Ok(frames) => frames,
        Err(_) => {
            return Err(NoMount {
                dev,
                why: Why::Memory,
            });
        }
    };
    match write_image(&mut dev, pages, inodes) {
        Ok(()) => Ok(Mounted { dev, frames }),
        Err(_) => Err(NoMount {
            dev,
            why: Why::Fault,
        }),
    }
}
