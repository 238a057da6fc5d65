// A workload, and what it comes to.
ghost use Rattle.std.specs.Prelude.{◌≡◌, ◌≤◌, ℕ, length};
ghost use Rattle.ct_call.specs.Calls.{Keeps};
ghost use Rattle.ct_tree.specs.Tree.{Tree};
ghost use Rattle.ct_tally.specs.Tallies.{tally_of};
ghost use Rattle.ct_tally.specs.Tried.{Tries, workload};

use crate::calls::make_all;
use crate::counts::Counts;
use crate::entries::held_in_root;
use ct_base::PAGE_BYTES;
use ct_fs::Fs;
use ct_gen::{Gen, MOST_DRAWS};
use ct_pm::{Pm, PmFault};

/// What the calls of a workload come to.
#[derive(Clone, Copy, Debug, PartialEq, Eq)]
pub struct Tally {
    pub counts: Counts,

    /// How many entries the root has after them.
    pub files: u64,

    /// The bytes of the files among these entries.
    pub bytes: u64,
}

/// Makes the calls of a number, with at most 1,000,000 draws, and tells what they come to. The page has room for 4,096 bytes, and
/// takes what is read.
///
/// # Errors
///
/// `PmFault` where the device failed: then the calls before are done, and the one that met it is done whole or not at all once
/// the device is mounted again.
pub fn work<D: Pm>(
    fs: &mut Fs<D>,
    number: u64,
    count: u64,
    page: &mut [u8],
) -> Result<Tally, PmFault>
    requires few { count ≤ MOST_DRAWS }
    requires page { PAGE_BYTES ≤ length page.old }
    ensures { (inodes : ℕ) (t : Tree) → Keeps inodes fs.old.state t
        → Tries inodes t (workload number count) fs.old.state fs.new.state (λ tally replies left. tally ≡ tally_of replies left) result }
{
    match make_all(fs, Gen::new(number, count), page) {
        Ok(counts) => {
            let held = held_in_root(fs);
            Ok(Tally {
                counts,
                files: held.files,
                bytes: held.bytes,
            })
        }
        Err(fault) => Err(fault),
    }
}
