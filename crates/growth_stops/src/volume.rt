// A device at rest, whose root directory grows.
ghost use Rattle.std.specs.Prelude.{◌≡◌, ◌≢◌, ◌-◌, ◌<◌, ◌≤◌, [], ◌∷◌, length, IsTrue, IfOk, IfSome};
ghost use Rattle.ct_base.specs.Inode.{IsPart, free_parts, inode as inode_at, live_parts};
ghost use Rattle.ct_base.specs.Plan.{growth_need, next_part, page_want};
ghost use Rattle.ct_base.specs.View.{inode_count, view};
ghost use Rattle.ct_frames.specs.Free.{rising};
ghost use Rattle.ct_call.specs.Mounted.{AreOwned, Volume};
ghost use Rattle.ct_commit.specs.Rest.{IsAtRest, IsMounted, IsUnstaged};
ghost use Rattle.ct_grow.specs.Grown.{CanGrow};
ghost use Rattle.ct_pm.specs.Device.{NothingPending};

use ct_base::{
    ADDRESS_END, FIRST_PAGE, INODE_BYTES, LEAST_INODES, LEAST_PAGES, MOST_PAGES, NO_PARTITION,
    NoMemory, Page, TOP_LEVEL, Vaddr,
};
use ct_frames::Frames;
use ct_fs::format;
use ct_grow::{growth_wants, promote};
use ct_header::pick;
use ct_inode::get;
use ct_level::length_of;
use ct_pm::Pm;
use ct_record::Broken;
use ct_walk::{Want, ensure_all, missing};
use std::alloc::Global;
use std::marker::Model;

/// The pages of the device.
pub const PAGES: u64 = LEAST_PAGES;

/// The inode of the root directory, which is the object that grows.
const ROOT: u64 = 1;

/// The inode of a first file.
const FILE: u64 = 2;

/// The first page that the image of an empty tree leaves free.
const FREE_PAGE: u64 = 42;

/// A device at rest, and the pages that are free on it.
#[derive(Drop)]
pub struct Resting<D: Pm> {
    dev: D,
    frames: Frames,
}

impl<D: Pm> Model for Resting<D> {
    ghost Value = { Volume D };

    ghost view = { λ r. record { dev = r.dev; frames = r.frames } };

    ghost invariant = { λ r. IsMounted (D.words r.dev) (D.told r.dev) r.frames };
}

/// How growth ended.
#[derive(Drop)]
pub enum Growth<D: Pm> {
    /// The object has grown.
    Done(Resting<D>),

    /// The device failed on the way.
    Stopped(D),

    /// The object cannot grow so: no step was made.
    Refused,
}

// The pages that the image of an empty tree leaves free.
fn free_pages(alloc: Global, pages: u64) -> Result<Frames, NoMemory>
    requires least { LEAST_PAGES ≤ pages }
    requires most { pages ≤ MOST_PAGES }
    ensures { IfOk result (λ frames. frames ≡ record { pages = pages; free = rising (pages - FREE_PAGE) FREE_PAGE }) }
{
    let mut frames = Frames::new(alloc, pages)?;
    for page in FIRST_PAGE..FREE_PAGE {
        frames.mark(Page::new(page));
    }
    Ok(frames)
}

/// A device of `PAGES` pages with the image of an empty tree, `None` where it has not so many, failed or memory ran out.
pub fn made<D: Pm + Drop>(alloc: Global, dev: D) -> Option<Resting<D>>
    requires { NothingPending (D.told dev) }
{
    if dev.pages() != PAGES {
        return None;
    }
    let Ok(frames) = free_pages(alloc, PAGES) else {
        return None;
    };
    match format(alloc, dev, LEAST_INODES) {
        Ok(fs) => Some(Resting {
            dev: fs.unmount(),
            frames,
        }),
        Err(_) => None,
    }
}

/// A device with the image of a tree of one empty file, `/a`. `None` where the device is too small, failed or memory ran out.
pub fn with_file<D: Pm + Drop>(alloc: Global, dev: D) -> Option<Resting<D>>
    requires { NothingPending (D.told dev) }
{
    let Ok(mut fs) = format(alloc, dev, LEAST_INODES) else {
        return None;
    };
    let created = fs.create(b"/a");
    let Ok((dev, frames)) = fs.into_parts() else {
        return None;
    };
    match created {
        Ok(()) => Some(Resting { dev, frames }),
        Err(_) => None,
    }
}

// The want of the page at an address.
fn page_at(at: u64) -> Option<Want>
    ensures { IfSome result (λ want. want ≡ page_want at) }
{
    let at = Vaddr::new(at)?;
    Some(Want {
        height: 0,
        at,
        len: 1,
    })
}

// Where the partition begins that growth to a level takes, `None` where none is free.
fn next_base<D: Pm>(dev: &D, level: u32) -> Option<Vaddr>
    requires rest { IsAtRest (D.words dev.now) }
    requires unstaged { IsUnstaged (D.words dev.now) }
    requires level { level ≤ TOP_LEVEL }
    ensures some { IfSome result (λ base. free_parts (live_parts (view (D.words dev.now)) (inode_count (D.words dev.now))) level ≢ []) }
    ensures part { IfSome result (λ base. IsPart (record { base = base; level = level })) }
    ensures next { IfSome result (λ base. next_part (view (D.words dev.now)) (inode_count (D.words dev.now)) level ≡ record { base = base; level = level }) }
{
    match pick(dev, level) {
        Some(part) => Some(part.base()),
        None => None,
    }
}

// Whether the root directory or the inode after it may grow to a level, and the pages for that are free.
fn can_grow<D: Pm>(dev: &D, frames: &Frames, number: u64, level: u32) -> bool
    requires rest { IsAtRest (D.words dev.now) }
    requires unstaged { IsUnstaged (D.words dev.now) }
    requires from { 1 ≤ number }
    requires to { number ≤ FILE }
    ensures can { IsTrue result → CanGrow (D.words dev.now) number level }
    ensures room { IsTrue result → growth_need (D.words dev.now) (inode_at (view (D.words dev.now)) number) level ≤ length frames.now.free }
{
    let inode = get(dev, number);
    if inode.kind == 0 || level > 9 {
        return false;
    }
    if inode.level != NO_PARTITION && inode.level >= level as u64 {
        return false;
    }
    let Some(base) = next_base(dev, level) else {
        return false;
    };
    let need = missing(dev, growth_wants(inode, level, base).as_slice());
    need <= frames.free()
}

// Whether the page at an offset may be made in the partition of the root directory, and where it is.
fn place_of<D: Pm>(dev: &D, offset: u64) -> Option<u64>
    requires { IsAtRest (D.words dev.now) }
    ensures high { IfSome result (λ at. at < ADDRESS_END) }
    ensures owned { IfSome result (λ at. AreOwned (D.words dev.now) (page_want at ∷ page_want INODE_BYTES ∷ [])) }
{
    let inode = get(dev, ROOT);
    if inode.kind == 0 || inode.level > TOP_LEVEL {
        return None;
    }
    if offset >= length_of(inode.level as u32) {
        return None;
    }
    Some(inode.base + offset)
}

impl<D: Pm + Drop> Resting<D> {
    /// A device at rest with its free pages.
    pub(crate) fn at_rest(dev: D, frames: Frames) -> Resting<D>
        requires { IsMounted (D.words dev) (D.told dev) frames }
    {
        Resting { dev, frames }
    }

    /// Makes the page at an offset in the partition of the root directory, `None` where there is none, the device failed or
    /// no page is free.
    pub fn filled(self, offset: u64) -> Option<Resting<D>> {
        let Resting {
            mut dev,
            mut frames,
        } = self;
        let at = place_of(&dev, offset)?;
        let wants = [page_at(at)?, page_at(INODE_BYTES)?];
        if missing(&dev, &wants) > frames.free() {
            return None;
        }
        match ensure_all(&mut dev, &mut frames, &wants) {
            Ok(()) => Some(Resting { dev, frames }),
            Err(_) => None,
        }
    }

    /// Lets the root directory grow to a level.
    pub fn grow(self, level: u32) -> Growth<D> {
        self.grow_to(ROOT, level)
    }

    /// Lets the file that follows the root directory grow to a level.
    pub fn grow_file(self, level: u32) -> Growth<D> {
        self.grow_to(FILE, level)
    }

    // Lets an object grow to a level.
    fn grow_to(self, number: u64, level: u32) -> Growth<D>
        requires from { 1 ≤ number }
        requires to { number ≤ FILE }
    {
        let Resting { dev, mut frames } = self;
        if !can_grow(&dev, &frames, number, level) {
            return Growth::Refused;
        }
        match promote(dev, &mut frames, number, level) {
            Ok(dev) => Growth::Done(Resting { dev, frames }),
            Err(Broken { dev }) => Growth::Stopped(dev),
        }
    }

    /// The device, and its free pages.
    pub fn into_parts(self) -> (D, Frames)
        ensures { IsMounted (D.words result.0) (D.told result.0) result.1 }
    {
        let Resting { dev, frames } = self;
        (dev, frames)
    }
}
