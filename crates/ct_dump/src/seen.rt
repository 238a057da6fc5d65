ghost use Rattle.std.specs.Prelude.{◌≡◌, ◌≤◌, ◌-◌, ◌%◌, true, length, take, min};
ghost use Rattle.std.specs.Option.{option_map};
ghost use Rattle.ct_tree.specs.Tree.{Tree};
ghost use Rattle.ct_tree.specs.Checks.{at};
ghost use Rattle.ct_tree.specs.Content.{bytes_in, range};
ghost use Rattle.ct_tree.specs.Ordered.{IsTree};
ghost use Rattle.ct_tree.specs.Resolve.{IsDir};
ghost use Rattle.ct_dump.specs.Dumped.{are_zeros};
ghost use Rattle.ct_dump.specs.Looks.{LeadsTo, IsNode, IsFile, size_of, entries_at, least_after};

use ct_base::{NameBuf, PAGE_BYTES};

/// A tree that is seen by its paths. No call takes memory.
pub trait Seen {
    /// The tree.
    ghost tree: { Self → Tree };

    /// The size of a file, and `None` exactly for a directory.
    fn size(&self, path: &[u8]) -> Option<u64>
        requires { LeadsTo (tree self.now) path.now IsNode }
        ensures { result ≡ size_of (at (tree self.now) path.now) };

    /// The least name in a directory that is greater than `after`, or the least of all; `None` exactly where there is none.
    fn next(&self, path: &[u8], after: Option<&[u8]>) -> Option<NameBuf>
        requires { LeadsTo (tree self.now) path.now IsDir }
        ensures { option_map (λ name. name.items) result
            ≡ least_after (option_map (λ name. name.now) after.entry) (entries_at (tree self.now) path.now) };

    /// Puts a file's bytes from `off` on at the front of `buf`, as many as fit and are there, and answers their number.
    fn bytes(&self, path: &[u8], off: u64, buf: &mut [u8]) -> usize
        requires file { LeadsTo (tree self.now) path.now IsFile }
        requires page { length buf.old ≡ PAGE_BYTES }
        ensures count { result ≡ min PAGE_BYTES (length (bytes_in (at (tree self.now) path.now)) - off) }
        ensures bytes { take result buf.new ≡ range (bytes_in (at (tree self.now) path.now)) off PAGE_BYTES };

    /// The first page from one on, given by its offset, that can hold a byte other than 0: all bytes before it are 0. A
    /// tree that knows where its files have holes leads over them, so that they cost no look a page.
    fn next_page(&self, _path: &[u8], off: u64) -> u64
        requires file { LeadsTo (tree self.now) _path.now IsFile }
        requires whole { off % PAGE_BYTES ≡ 0 }
        ensures later { off ≤ result }
        ensures whole { result % PAGE_BYTES ≡ 0 }
        ensures zeros { are_zeros (range (bytes_in (at (tree self.now) _path.now)) off (result - off)) ≡ true }
    {
        off
    }

    /// The tree is one.
    ghost sound: { (seen : Self) → IsTree (tree seen) };

    /// And its root is a directory.
    ghost rooted: { (seen : Self) → IsDir (tree seen) };
}
