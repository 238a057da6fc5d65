// The walk through the tree.
ghost use Rattle.std.specs.Prelude.{◌≡◌, ◌≤◌, ◌+◌, length, true, is_some, OnOk, IfOk};
ghost use Rattle.ct_base.specs.Bytes.{PutAppends};
ghost use Rattle.ct_base.specs.Causes.{HasCause};
ghost use Rattle.ct_base.specs.Path.{names_of};
ghost use Rattle.ct_tree.specs.Checks.{at, names};
ghost use Rattle.ct_tree.specs.Resolve.{IsDir, node_in};
ghost use Rattle.ct_dump.specs.Dumped.{path_below, placed_in, placed_below, alone, node_lines};
ghost use Rattle.ct_dump.specs.Dumps.{DumpAppends, DumpHasCause};
ghost use Rattle.ct_dump.specs.Looks.{LeadsTo, IsNode, entries_at};
ghost use Rattle.ct_dump.specs.Places.{IsPlace, LiesAt, HasEntry, entry_at, is_dir};

use crate::fault::DumpFault;
use crate::file::put_file;
use crate::lines::put_mkdir;
use crate::seen::Seen;
use arrayvec::ArrayVec;
use ct_base::{NameBuf, PATH_BYTES, Sink, WriteFault};
use ct_script::Quote;

/// A buffer for one path; the root's is empty.
type PathBuf = ArrayVec<u8, PATH_BYTES>;

/// Writes the script that makes the tree. After a fault the lines before the first path that is too long were written, or
/// a prefix of them.
pub fn dump<T: Seen, O: Sink>(tree: &T, quote: &mut Quote, out: &mut O) -> Result<(), DumpFault>
    ensures text { DumpAppends (O.written out.old) (O.written out.new) result (placed_below (T.tree tree.now)) }
    ensures cause { DumpHasCause (O.faults out.old) (O.faults out.new) result }
{
    put_entries(tree, quote, out, &mut PathBuf::new())
}

// Writes the lines of all that lies below a directory.
fn put_entries<T: Seen, O: Sink>(
    tree: &T,
    quote: &mut Quote,
    out: &mut O,
    path: &mut PathBuf,
) -> Result<(), DumpFault>
    requires { LiesAt (T.tree tree.now) path.old.items IsDir }
    ensures path { OnOk result (path.new.items ≡ path.old.items) }
    ensures text { DumpAppends (O.written out.old) (O.written out.new) result (placed_in path.old.items (entries_at (T.tree tree.now) path.old.items)) }
    ensures cause { DumpHasCause (O.faults out.old) (O.faults out.new) result }
{
    let end = path.len();
    let mut last = tree.next(here(path.as_slice()), None);
    'entries: while let Some(name) = last {
        let is_dir = match put_node(tree, quote, out, path, name.as_slice()) {
            Ok(is_dir) => is_dir,
            Err(fault) => return Err(fault),
        };
        if is_dir {
            match put_entries(tree, quote, out, path) {
                Ok(()) => {}
                Err(fault) => return Err(fault),
            }
        }
        path.truncate(end);
        last = tree.next(here(path.as_slice()), Some(name.as_slice()));
    }
    Ok(())
}

// Leads the path to an entry, writes the lines of it alone, and answers whether it is a directory.
fn put_node<T: Seen, O: Sink>(
    tree: &T,
    quote: &mut Quote,
    out: &mut O,
    path: &mut PathBuf,
    name: &[u8],
) -> Result<bool, DumpFault>
    requires { HasEntry (T.tree tree.now) path.old.items name.now }
    ensures path { OnOk result (path.new.items ≡ path_below path.old.items name.now) }
    ensures dir { IfOk result (λ dir. dir ≡ is_dir (node_in (entry_at (T.tree tree.now) path.old.items name.now))) }
    ensures text { DumpAppends (O.written out.old) (O.written out.new) result (alone (path_below path.old.items name.now) (node_in (entry_at (T.tree tree.now) path.old.items name.now))) }
    ensures cause { DumpHasCause (O.faults out.old) (O.faults out.new) result }
{
    if name.len() >= PATH_BYTES - path.len() {
        return Err(DumpFault::TooLong);
    }
    lead_below(path, name);
    match put_lines(tree, quote, out, path.as_slice()) {
        Ok(is_dir) => Ok(is_dir),
        Err(_) => Err(DumpFault::Write),
    }
}

// Writes the lines of a node alone, and answers whether it is a directory.
fn put_lines<T: Seen, O: Sink>(
    tree: &T,
    quote: &mut Quote,
    out: &mut O,
    path: &[u8],
) -> Result<bool, WriteFault>
    requires { LeadsTo (T.tree tree.now) path.now IsNode }
    ensures dir { IfOk result (λ dir. dir ≡ is_dir (node_in (at (T.tree tree.now) path.now))) }
    ensures bytes { PutAppends (O.written out.old) (O.written out.new) result (node_lines path.now (node_in (at (T.tree tree.now) path.now))) }
    ensures cause { HasCause (O.faults out.old) (O.faults out.new) result }
{
    match tree.size(path) {
        Some(size) => match put_file(tree, quote, out, path, size) {
            Ok(()) => Ok(false),
            Err(fault) => Err(fault),
        },
        None => match put_mkdir(out, quote, path) {
            Ok(()) => Ok(true),
            Err(fault) => Err(fault),
        },
    }
}

// Leads a path to an entry, for which there is room.
fn lead_below(path: &mut PathBuf, name: &[u8])
    requires { length path.old.items + 1 + length name.now ≤ PATH_BYTES }
    ensures { path.new.items ≡ path_below path.old.items name.now }
{
    path.push(b'/');
    match path.try_extend_from_slice(name) {
        Ok(()) => {}
        Err(_) => unreachable!(),
    }
}

// The path as it is told: the root's is a slash.
fn here(path: &[u8]) -> &[u8]
    requires { IsPlace path.now }
    ensures path { is_some (names_of result.now) ≡ true }
    ensures names { names result.now ≡ names path.now }
{
    if path.is_empty() { b"/" } else { path }
}
