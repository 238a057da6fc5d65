// What an image holds, by its inodes.
ghost use Rattle.std.specs.Prelude.{◌≡◌, ◌≤◌, ◌<◌, ◌+◌, ◌^◌, ℕ};
ghost use Rattle.ct_commit.specs.Rest.{IsAtRest, StandsFor};
ghost use Rattle.ct_tree.specs.Tree.{Tree};
ghost use Rattle.ct_tell.specs.Held.{IsCount, directories_of, bytes_of, files_of};

use ct_base::{DIRECTORY_KIND, FILE_KIND, Inode};
use ct_inode::get;
use ct_pm::Pm;

/// How many files and directories there are, the root among them, and how many bytes the files have together.
#[derive(Clone, Copy, Debug, PartialEq, Eq)]
pub struct Counts {
    pub files: u64,
    pub directories: u64,
    pub bytes: u64,
}

// The counts with an inode more.
fn with_inode(counts: Counts, inode: Inode) -> Counts
    requires files { counts.files + 1 < 2 ^ 64 }
    requires directories { counts.directories + 1 < 2 ^ 64 }
    requires bytes { counts.bytes + bytes_of inode < 2 ^ 64 }
    ensures files { result.files ≡ counts.files + files_of inode }
    ensures directories { result.directories ≡ counts.directories + directories_of inode }
    ensures bytes { result.bytes ≡ counts.bytes + bytes_of inode }
{
    if inode.kind == FILE_KIND {
        return Counts {
            files: counts.files + 1,
            directories: counts.directories,
            bytes: counts.bytes + inode.size,
        };
    }
    if inode.kind == DIRECTORY_KIND {
        return Counts {
            files: counts.files,
            directories: counts.directories + 1,
            bytes: counts.bytes,
        };
    }
    counts
}

/// Counts the inodes of an image: a walk and four loads for each.
pub fn count_inodes<D: Pm>(dev: &D) -> Counts
    requires { IsAtRest (D.words dev.now) }
    ensures { (t : Tree) → StandsFor (D.words dev.now) t → IsCount t result }
{
    let mut counts = Counts {
        files: 0,
        directories: 0,
        bytes: 0,
    };
    for n in 1..dev.load(3) + 1 {
        counts = with_inode(counts, get(dev, n));
    }
    counts
}
