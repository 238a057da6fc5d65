// The entries of a directory.
ghost use Rattle.std.specs.Prelude.{◌≡◌, ◌≤◌, ℕ, length};
ghost use Rattle.std.specs.Option.{option_map};
ghost use Rattle.ct_base.specs.Bytes.{PutAppends};
ghost use Rattle.ct_base.specs.Causes.{HasCause as PutHasCause};
ghost use Rattle.ct_base.specs.Inode.{IsLive, inode as inode_at};
ghost use Rattle.ct_base.specs.View.{inode_count, view};
ghost use Rattle.ct_commit.specs.Rest.{IsAtRest, StandsFor};
ghost use Rattle.ct_dir.specs.Directory.{name_in};
ghost use Rattle.ct_tree.specs.Checks.{at};
ghost use Rattle.ct_tree.specs.Lands.{files};
ghost use Rattle.ct_tree.specs.Ordered.{AreEntries, IsTree};
ghost use Rattle.ct_tree.specs.Resolve.{entries_in, node_in};
ghost use Rattle.ct_tree.specs.Stands.{Stands};
ghost use Rattle.ct_tree.specs.Step.{list as list_call, refusal};
ghost use Rattle.ct_tree.specs.Tree.{Dir, Entries, Tree};
ghost use Rattle.ct_tell.specs.Ends.{Comes, HasCause};
ghost use Rattle.ct_tell.specs.Texts.{entry_line, kind_text, list_text};
ghost use Rattle.ct_tell.specs.Told.{status_by, text_by};

use crate::status::Status;
use crate::text::{TextBuf, push_bytes, push_number};
use ct_base::{DIRECTORY_KIND, Inode, NAME_BYTES, NameBuf, Sink, WriteFault};
use ct_dir::{entries, name_at, next_after};
use ct_find::find_node;
use ct_inode::get;
use ct_pm::Pm;
use ct_script::Quote;
use ct_tree::Refusal;

/// Writes the entries of the directory at a path, in the byte order of their names.
pub fn put_list<D: Pm, O: Sink>(dev: &D, path: &[u8], quote: &mut Quote, out: &mut O) -> Status
    requires { IsAtRest (D.words dev.now) }
    ensures ends { (t : Tree) → StandsFor (D.words dev.now) t
        → Comes (status_by (refusal t (list_call path.now))) (text_by (refusal t (list_call path.now)) (list_text (entries_in (node_in (at t path.now)))))
        result (O.written out.old) (O.written out.new) }
    ensures cause { HasCause result (O.faults out.old) (O.faults out.new) }
{
    let (number, inode) = match find_node(dev, path) {
        Ok(node) => node,
        Err(refusal) => return Status::Refused(refusal),
    };
    if inode.kind != DIRECTORY_KIND {
        return Status::Refused(Refusal::NotDir);
    }
    match put_entries(dev, number, inode, quote, out) {
        Ok(()) => Status::Done,
        Err(_) => Status::WriteFault,
    }
}

// The name that was written last.
fn text_of(name: &Option<NameBuf>) -> Option<&[u8]>
    ensures { name_in result ≡ option_map (λ name. name.items) name.now }
{
    match name {
        Some(name) => Some(name.as_slice()),
        None => None,
    }
}

// Writes the entries of a directory, by its number and its inode.
fn put_entries<D: Pm, O: Sink>(
    dev: &D,
    number: u64,
    dir: Inode,
    quote: &mut Quote,
    out: &mut O,
) -> Result<(), WriteFault>
    requires rest { IsAtRest (D.words dev.now) }
    requires live { IsLive (view (D.words dev.now)) (inode_count (D.words dev.now)) number }
    requires is { inode_at (view (D.words dev.now)) number ≡ dir }
    requires kind { dir.kind ≡ DIRECTORY_KIND }
    ensures bytes { (es : Entries) → Stands (files (D.words dev.now)) number (Dir es) → AreEntries es
        → PutAppends (O.written out.old) (O.written out.new) result (list_text es) }
    ensures cause { PutHasCause (O.faults out.old) (O.faults out.new) result }
{
    let count = entries(dev, dir);
    let mut last = None;
    for _ in 0..count {
        let Some(found) = next_after(dev, dir, text_of(&last)) else {
            return Ok(());
        };
        let name = name_at(dev, dir, found.offset);
        match put_entry(dev, found.inode, name.as_slice(), quote, out) {
            Ok(()) => last = Some(name),
            Err(fault) => return Err(fault),
        }
    }
    Ok(())
}

// What an entry is, by the inode that it names.
fn kind_text<D: Pm>(dev: &D, number: u64) -> TextBuf
    requires rest { IsAtRest (D.words dev.now) }
    requires live { IsLive (view (D.words dev.now)) (inode_count (D.words dev.now)) number }
    ensures text { (node : Tree) → IsTree node → Stands (files (D.words dev.now)) number node → result.items ≡ kind_text node }
    ensures short { length result.items ≤ 22 }
{
    let inode = get(dev, number);
    let mut text = TextBuf::new();
    if inode.kind == DIRECTORY_KIND {
        push_number(&mut text, b"d ", entries(dev, inode));
        return text;
    }
    push_number(&mut text, b"f ", inode.size);
    text
}

// Writes the line of an entry, by the inode that it names.
#[tactic(auto, using(crate::proofs::EntryLines::escaped_short))]
fn put_entry<D: Pm, O: Sink>(
    dev: &D,
    number: u64,
    name: &[u8],
    quote: &mut Quote,
    out: &mut O,
) -> Result<(), WriteFault>
    requires rest { IsAtRest (D.words dev.now) }
    requires live { IsLive (view (D.words dev.now)) (inode_count (D.words dev.now)) number }
    requires short { length name.now ≤ NAME_BYTES }
    ensures bytes { (node : Tree) → IsTree node → Stands (files (D.words dev.now)) number node
        → PutAppends (O.written out.old) (O.written out.new) result (entry_line name.now node) }
    ensures cause { PutHasCause (O.faults out.old) (O.faults out.new) result }
{
    let mut line = kind_text(dev, number);
    push_bytes(&mut line, b" ");
    push_bytes(&mut line, quote.escape(name));
    push_bytes(&mut line, b"\n");
    out.put(line.as_slice())
}
