// Values that are worked out by hand: which images a crash may leave, which pages are free, and how ranges are cut.
ghost use Rattle.std.specs.Prelude.{◌≡◌, IfOk};
ghost use Rattle.ct_pm.specs.Images.{IsSettled};
ghost use Rattle.pm_trace.specs.Meaning.{history};

use ct_base::{FIRST_PAGE, PAGE_WORDS, PARTITION_SLOT, Page, SLOT_PAGES};
use ct_frames::Frames;
use ct_pieces::{Piece, Pieces, count};
use ct_pm::{Pm, PmFault, Step};
use pm_trace::TracePm;
use std::alloc::Global;
use std::test::Fail;

// One page of zeros, with room for eight steps.
fn device(alloc: Global) -> Result<TracePm, Fail>
    ensures { IfOk result (λ device. IsSettled (history device)) }
{
    let words = vec![in alloc; 0; 512]?;
    Ok(TracePm::new(alloc, words, 8, Vec::new(alloc))?)
}

// Makes the steps, as far as their words are on the device.
fn make(dev: &mut TracePm, steps: &[Step]) -> Result<(), PmFault> {
    for step in steps {
        match *step {
            Step::Store { word, value } if word / PAGE_WORDS < dev.pages() => {
                dev.store(word, value)?
            }
            Step::Flush { line } if line / 64 < dev.pages() => dev.flush(line)?,
            Step::Fence => dev.fence()?,
            _ => {}
        }
    }
    Ok(())
}

// A word that a crash leaves, where the first two lines are as they were after the steps that are chosen.
fn left_at(alloc: Global, dev: &TracePm, choice: [u64; 2], word: u64) -> Result<u64, Fail> {
    let left = dev.crash(alloc, &choice, Vec::new(alloc))?;
    Ok(if word / PAGE_WORDS < left.pages() {
        left.load(word)
    } else {
        u64::MAX
    })
}

const fn store(word: u64, value: u64) -> Step {
    Step::Store { word, value }
}

#[test]
fn crashes_leave_what_they_may(rt: HostRuntime) -> Result<(), Fail> {
    let alloc = rt.alloc();
    let one_line = [store(0, 1), store(1, 2), store(2, 3), store(3, 4)];
    let two_lines = [store(0, 1), store(8, 2), store(9, 0), store(10, 0)];
    let fenced = [
        store(0, 1),
        Step::Flush { line: 0 },
        store(0, 3),
        Step::Fence,
    ];
    for (steps, choice, word, want) in [
        (one_line, [0, 0], 0, 0),
        (one_line, [1, 0], 0, 1),
        (one_line, [1, 0], 1, 0),
        (one_line, [2, 0], 1, 2),
        (two_lines, [1, 0], 0, 1),
        (two_lines, [1, 0], 8, 0),
        (two_lines, [0, 2], 0, 0),
        (two_lines, [0, 2], 8, 2),
        (fenced, [0, 0], 0, 1),
        (fenced, [2, 0], 0, 1),
        (fenced, [3, 0], 0, 3),
        (fenced, [9, 0], 0, 3),
    ] {
        let mut dev = device(alloc)?;
        make(&mut dev, &steps)?;
        let found = left_at(alloc, &dev, choice, word)?;
        assert_eq!(rt; found, want, "word {word} at {choice:?}");
    }
    Ok(())
}

#[test]
fn pages_are_taken_until_none_is_left(rt: HostRuntime) -> Result<(), Fail> {
    let mut frames = Frames::new(rt.alloc(), 256)?;
    assert_eq!(rt; frames.free(), 222);
    for page in FIRST_PAGE..256u64 {
        assert_eq!(rt; frames.take(), Some(Page::new(page)));
    }
    assert_eq!(rt; frames.take(), None);
    Ok(())
}

// The virtual page at which root slot 10 begins.
const FIRST: u64 = PARTITION_SLOT * SLOT_PAGES;

#[test]
fn ranges_have_so_many_pieces(rt: HostRuntime) {
    for (a, b, n, want) in [
        (1, 513, 1024, 513),
        (0, 1, 512, 512),
        (0, 512, 512, 1),
        (1, 513, 511, 511),
        (0, 262_144, 262_144, 1),
        (512, 1024, 512, 1),
    ] {
        assert_eq!(rt; count(a, b, n), want, "of {n} pages from {a} and {b}");
    }
    // a partition that grows to the next level exchanges as few
    for (level, want) in [
        (0, 1),
        (1, 8),
        (2, 64),
        (3, 1),
        (4, 8),
        (5, 64),
        (6, 1),
        (7, 8),
        (8, 64),
    ] {
        let pages = 8u64.pow(level);
        assert_eq!(rt;
            count(FIRST, FIRST + 8 * pages, pages),
            want,
            "at level {level}"
        );
    }
}

#[test]
fn wide_pieces_lie_between_narrow_ends(rt: HostRuntime) {
    let mut pieces = Pieces::new(1, 513, 1024);
    let wide = pieces.find(|piece| piece.height > 0);
    let last = pieces.next();
    for (piece, offset, height) in [(wide, 511, 1), (last, 1023, 0)] {
        assert_eq!(rt; piece, Some(Piece { offset, height }));
    }
    assert!(rt; pieces.next().is_none());
}
