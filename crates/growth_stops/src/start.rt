// Words from which a device starts, as often as it is to.
ghost use Rattle.std.specs.Prelude.{◌≡◌, ◌≤◌, IsTrue, IfSome};
ghost use Rattle.growth_stops.specs.Starts.{AreAlike, IsStart, StartWords};

use crate::volume::{PAGES, Resting};
use ct_base::{FIRST_PAGE, Page};
use ct_frames::Frames;
use ct_pm::Pm;
use pm_fuse::FusePm;
use pm_trace::TracePm;
use std::alloc::Global;
use std::marker::Model;

/// The device of the tests: it remembers its steps, and stops after as many calls as it is told.
pub type Stopping = FusePm<TracePm>;

/// Words at rest, and the pages that are free in them.
#[derive(Drop)]
pub struct Start {
    words: Vec<u64>,
    frames: Frames,
}

impl Model for Start {
    ghost Value = { StartWords };

    ghost view = { λ s. record { words = s.words.items; frames = s.frames } };

    ghost invariant = { λ s. IsStart s.words.items s.frames };
}

// Frames of which those pages are taken that are taken in others.
fn marked(alloc: Global, others: &Frames) -> Option<Frames>
    ensures { IfSome result (λ frames. frames.pages ≡ PAGES) }
{
    let Ok(mut frames) = Frames::new(alloc, PAGES) else {
        return None;
    };
    for number in FIRST_PAGE..PAGES {
        let page = Page::new(number);
        if frames.is_free(page) && !others.is_free(page) {
            frames.mark(page);
        }
    }
    Some(frames)
}

// Whether the same pages are free.
fn are_alike(one: &Frames, other: &Frames) -> bool
    requires one { one.now.pages ≡ PAGES }
    requires other { other.now.pages ≡ PAGES }
    ensures { IsTrue result → AreAlike one.now.free other.now.free }
{
    if one.free() != other.free() {
        return false;
    }
    for number in FIRST_PAGE..PAGES {
        let page = Page::new(number);
        if one.is_free(page) != other.is_free(page) {
            return false;
        }
    }
    true
}

impl Start {
    /// The words of a device at rest, `None` where it has not `PAGES` pages.
    pub fn of(resting: Resting<Stopping>) -> Option<Start> {
        let (dev, frames) = resting.into_parts();
        if dev.pages() != PAGES {
            return None;
        }
        if dev.load(2) != PAGES {
            return None;
        }
        Some(Start {
            words: dev.into_inner().into_words(),
            frames,
        })
    }

    /// A device that starts with the words, with room for so many steps, and stops after so many calls.
    pub fn device(&self, alloc: Global, room: u64, passes: u64) -> Option<Resting<Stopping>>
        requires { room ≤ 16777216 }
    {
        let frames = marked(alloc, &self.frames)?;
        if !are_alike(&frames, &self.frames) {
            return None;
        }
        let Ok(words) = self.words.to_vec(alloc) else {
            return None;
        };
        match TracePm::new(alloc, words, room, Vec::new(alloc)) {
            Ok(dev) => Some(Resting::at_rest(FusePm::new(dev, passes), frames)),
            Err(_) => None,
        }
    }

    /// The words.
    pub fn words(&self) -> &[u64] {
        &self.words
    }
}
