// The free inodes, by their kind.
ghost use Rattle.std.specs.Prelude.{◌≡◌, ◌+◌, ◌-◌, ◌*◌, ◌/◌, ◌<◌, ◌≤◌};
ghost use Rattle.ct_base.specs.Plan.{first_free_number, free_number};
ghost use Rattle.ct_base.specs.View.{view};
ghost use Rattle.ct_base.specs.Walk.{AreTables};
ghost use Rattle.ct_inode.specs.Live.{AreLiveBelow};

use crate::read::{IN_PAGE, first_word};
use ct_base::MOST_INODES;
use ct_pm::Pm;

// The lowest number of a free inode from `from` to `past - 1`, all in one page.
fn free_in_page<D: Pm>(dev: &D, from: u64, past: u64) -> Option<u64>
    requires tables { AreTables (D.words dev.now) }
    requires some { from < past }
    requires page { past ≤ from / IN_PAGE * IN_PAGE + IN_PAGE }
    requires few { past ≤ MOST_INODES + 1 }
    ensures { result ≡ free_number (view (D.words dev.now)) from (past - from) }
{
    match first_word(dev, from) {
        Some(word) => {
            for n in from..past {
                if dev.load(word + 8 * (n - from)) == 0 {
                    return Some(n);
                }
            }
            None
        }
        None => Some(from),
    }
}

/// The lowest number of a free inode from 1 to `count`, `None` exactly where all are live.
///
/// It walks once for each page of inodes, and loads one word for each; where a page is not there, its first inode is free.
pub fn first_free<D: Pm>(dev: &D, count: u64) -> Option<u64>
    requires tables { AreTables (D.words dev.now) }
    requires few { count ≤ MOST_INODES }
    ensures { result ≡ first_free_number (view (D.words dev.now)) count }
{
    first_free_from(dev, 1, count)
}

/// The same number, where every inode below `from` is live: none of these is looked at.
pub fn first_free_from<D: Pm>(dev: &D, from: u64, count: u64) -> Option<u64>
    requires tables { AreTables (D.words dev.now) }
    requires live { AreLiveBelow (D.words dev.now) from }
    requires few { count ≤ MOST_INODES }
    ensures { result ≡ first_free_number (view (D.words dev.now)) count }
{
    // The inodes are numbered from 1.
    let mut n = from.max(1);
    while n <= count {
        let past = (n / IN_PAGE * IN_PAGE + IN_PAGE).min(count + 1);
        match free_in_page(dev, n, past) {
            Some(free) => return Some(free),
            None => n = past,
        }
    }
    None
}
