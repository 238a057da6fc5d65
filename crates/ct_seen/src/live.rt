// A mounted file system, seen by its paths.
ghost use Rattle.std.specs.Prelude.{ℕ};
ghost use Rattle.ct_base.specs.Causes.{HasCause};
ghost use Rattle.ct_call.specs.Calls.{Keeps};
ghost use Rattle.ct_dump.specs.Dumped.{placed_below};
ghost use Rattle.ct_dump.specs.Dumps.{DumpAppends, DumpHasCause};
ghost use Rattle.ct_seen.specs.Held.{HoldsTree};
ghost use Rattle.ct_seen.specs.Once.{held_rooted, held_tree, holds_one};
ghost use Rattle.ct_tree.specs.Tree.{Tree};

use ct_base::{NameBuf, PAGE_BYTES, SLOT_SPAN, Sink};
use ct_dump::{DumpFault, Seen, dump};
use ct_fs::{Fs, Stat};
use ct_pm::Pm;
use ct_script::Quote;

/// A mount that is ready and holds a tree.
#[derive(Drop)]
pub struct Live<'a, D: Pm> {
    pub fs: &'a Fs<D>,
    ghost held: { HoldsTree fs.now.state } by { holds_one fs.now.state },
}

impl<'a, D: Pm> Seen for Live<'a, D> {
    ghost tree = { λ live. live.held.0 };

    ghost sound = { λ live. held_tree live.fs.now.state live.held };

    ghost rooted = { λ live. held_rooted live.fs.now.state live.held };

    fn size(&self, path: &[u8]) -> Option<u64> {
        match self.fs.stat(path) {
            Ok(Stat::File { size }) => Some(size),
            Ok(Stat::Dir { count: _ }) => None,
            Err(_) => unreachable!(),
        }
    }

    fn next(&self, path: &[u8], after: Option<&[u8]>) -> Option<NameBuf> {
        match self.fs.next_entry(path, after) {
            Ok(found) => found,
            Err(_) => unreachable!(),
        }
    }

    fn bytes(&self, path: &[u8], off: u64, buf: &mut [u8]) -> usize {
        match self.fs.read(path, off, PAGE_BYTES, buf) {
            Ok(count) => count as usize,
            Err(_) => unreachable!(),
        }
    }

    fn next_page(&self, path: &[u8], off: u64) -> u64 {
        match self.fs.seek_data(path, off) {
            Ok(Some(next)) => next,
            // no file is longer
            Ok(None) => off.max(SLOT_SPAN),
            Err(_) => unreachable!(),
        }
    }
}

/// Writes the script that makes the tree of a mounted file system: a directory before its entries, the names of each in byte
/// order, and of a file the pages that hold a byte other than 0. What is a hole is not looked at page by page.
///
/// # Errors
///
/// `TooLong` where a node's path has over 4,096 bytes: then the lines before the first such node were written. `Write` where
/// the sink failed, and then a prefix of these was written.
pub fn dump_of<D: Pm, O: Sink>(fs: &Fs<D>, quote: &mut Quote, out: &mut O) -> Result<(), DumpFault>
    requires { HoldsTree fs.now.state }
    ensures text { (count : ℕ) (t : Tree) → Keeps count fs.now.state t
        → DumpAppends (O.written out.old) (O.written out.new) result (placed_below t) }
    ensures cause { DumpHasCause (O.faults out.old) (O.faults out.new) result }
{
    dump(&Live { fs }, quote, out)
}
