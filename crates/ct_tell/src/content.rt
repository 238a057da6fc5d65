// The bytes of a file.
ghost use Rattle.std.specs.Prelude.{◌≡◌, ◌≤◌, ◌-◌, ℕ, List, length};
ghost use Rattle.ct_base.specs.Bytes.{PutAppends};
ghost use Rattle.ct_base.specs.Causes.{HasCause as PutHasCause};
ghost use Rattle.ct_commit.specs.Rest.{IsAtRest, StandsFor};
ghost use Rattle.ct_find.specs.Files.{IsFileAt};
ghost use Rattle.ct_tree.specs.Checks.{at};
ghost use Rattle.ct_tree.specs.Content.{bytes_in, range};
ghost use Rattle.ct_tree.specs.Step.{locate as locate_call, read_limit, refusal};
ghost use Rattle.ct_tree.specs.Tree.{File, Tree};
ghost use Rattle.ct_tell.specs.Ends.{Comes, HasCause};
ghost use Rattle.ct_tell.specs.Told.{status_by, text_by};

use crate::status::Status;
use ct_base::{Sink, WriteFault};
use ct_dir::OnDevice;
use ct_find::find_file;
use ct_look::read_at;
use ct_pm::Pm;
use ct_tree::checks::READ_BYTES;

/// Writes at most so many bytes of the file at a path, from an offset on, by pieces of the buffer.
pub fn put_bytes<D: Pm, O: Sink>(
    dev: &D,
    path: &[u8],
    off: u64,
    len: u64,
    buffer: &mut [u8],
    out: &mut O,
) -> Status
    requires rest { IsAtRest (D.words dev.now) }
    requires room { length buffer.old ≡ read_limit }
    ensures ends { (t : Tree) → StandsFor (D.words dev.now) t
        → Comes (status_by (refusal t (locate_call path.now))) (text_by (refusal t (locate_call path.now)) (range (bytes_in (at t path.now)) off len))
        result (O.written out.old) (O.written out.new) }
    ensures cause { HasCause result (O.faults out.old) (O.faults out.new) }
{
    let (_, inode) = match find_file(dev, &OnDevice, path) {
        Ok(file) => file,
        Err(refusal) => return Status::Refused(refusal),
    };
    let from = off.min(inode.size);
    let to = from + len.min(inode.size - from);
    match put_range(dev, path, from, to, buffer, out) {
        Ok(()) => Status::Done,
        Err(_) => Status::WriteFault,
    }
}

// Writes the bytes of a file from an offset to another.
fn put_range<D: Pm, O: Sink>(
    dev: &D,
    path: &[u8],
    from: u64,
    to: u64,
    buffer: &mut [u8],
    out: &mut O,
) -> Result<(), WriteFault>
    requires rest { IsAtRest (D.words dev.now) }
    requires room { length buffer.old ≡ read_limit }
    requires order { from ≤ to }
    ensures bytes { (t : Tree) → StandsFor (D.words dev.now) t → refusal t (locate_call path.now) ≡ None → to ≤ length (bytes_in (at t path.now))
        → PutAppends (O.written out.old) (O.written out.new) result (range (bytes_in (at t path.now)) from (to - from)) }
    ensures cause { PutHasCause (O.faults out.old) (O.faults out.new) result }
{
    let mut at = from;
    'pieces: while at < to {
        let len = READ_BYTES.min(to - at);
        match put_piece(dev, path, at, len, buffer, out) {
            Ok(()) => at += len,
            Err(fault) => return Err(fault),
        }
    }
    Ok(())
}

// Writes so many bytes of a file from an offset on, which fit the buffer.
fn put_piece<D: Pm, O: Sink>(
    dev: &D,
    path: &[u8],
    off: u64,
    len: u64,
    buffer: &mut [u8],
    out: &mut O,
) -> Result<(), WriteFault>
    requires rest { IsAtRest (D.words dev.now) }
    requires room { length buffer.old ≡ read_limit }
    requires short { len ≤ read_limit }
    ensures bytes { (t : Tree) → StandsFor (D.words dev.now) t → refusal t (locate_call path.now) ≡ None
        → PutAppends (O.written out.old) (O.written out.new) result (range (bytes_in (at t path.now)) off len) }
    ensures cause { PutHasCause (O.faults out.old) (O.faults out.new) result }
{
    match read_at(dev, &OnDevice, path, off, len, buffer) {
        Ok(count) => out.put(&buffer[..count as usize]),
        // the path leads to a file, and the piece is short enough
        Err(_) => Ok(()),
    }
}
