// The pages that no index step has met are free.
ghost use Rattle.std.specs.Prelude.{◌≡◌, ℕ, ◌<◌, ◌≤◌, ◌↔◌, false, length, IfOk, Contains};
ghost use Rattle.ct_marks.specs.Marks.{is_marked};

use ct_base::{FIRST_PAGE, MOST_PAGES, NoMemory, Page};
use ct_frames::Frames;
use ct_marks::has_mark;
use std::alloc::Global;

/// The pages that may be handed out and have no mark.
pub fn unmarked(alloc: Global, pages: u64, marks: &Vec<u8>) -> Result<Frames, NoMemory>
    requires least { FIRST_PAGE ≤ pages }
    requires most { pages ≤ MOST_PAGES }
    requires length { length marks.now.items ≡ pages }
    ensures pages { IfOk result (λ f. f.pages ≡ pages) }
    ensures free { IfOk result (λ f. (q : ℕ) → Contains f.free q ↔ ((FIRST_PAGE ≤ q) × (q < pages) × (is_marked marks.now.items q ≡ false))) }
{
    let mut frames = Frames::new(alloc, pages)?;
    for page in FIRST_PAGE..pages {
        if has_mark(marks, page) {
            frames.mark(Page::new(page));
        }
    }
    Ok(frames)
}
