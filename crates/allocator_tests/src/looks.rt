// How many words a check of an image looks at.

use check_tests::{answer_on, image};
use pm_count::CountingPm;
use std::alloc::Global;
use std::test::Fail;

// The loads of a check of the image of a format with these words set anew, and its free pages; none where it is not sound.
fn looks_at(alloc: Global, words: &[(u64, u64)]) -> Option<(u64, u64)> {
    let dev = CountingPm::new(image(alloc, words, &[])?);
    let free = answer_on(alloc, &dev).ok()?;
    Some((dev.loads(), free))
}

// The entries of the pages behind the one with the headers of a format, and pages of zeros for them.
const ZEROS: [(u64, u64); 2] = [(20481, 172033), (20482, 176129)];

#[test]
fn a_page_of_zeros_is_looked_at_once(rt: HostRuntime) -> Result<(), Fail> {
    let (none, all) = looks_at(rt.alloc(), &[]).ok_or("a sound image")?;
    // One load for each word of a page, and eight on the way to it where a page that is absent takes four.
    for pages in 1..3u64 {
        let zeros = looks_at(rt.alloc(), &ZEROS[..pages as usize]);
        assert_eq!(rt;
            zeros,
            Some((none.wrapping_add(516 * pages), all.wrapping_sub(pages)))
        );
    }
    Ok(())
}
