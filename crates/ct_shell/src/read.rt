// The bytes of a file.
ghost use Rattle.std.specs.Prelude.{◌≡◌, ◌≤◌, ℕ, [], ◌∷◌, Err, length};
ghost use Rattle.ct_base.specs.Causes.{Rose};
ghost use Rattle.ct_call.specs.Calls.{Keeps};
ghost use Rattle.ct_tree.specs.Runs.{call as call_item};
ghost use Rattle.ct_tree.specs.Step.{read as read_call, read_limit};
ghost use Rattle.ct_tree.specs.Tree.{Tree};
ghost use Rattle.ct_shell.specs.Served.{Serves};
ghost use Rattle.ct_shell.specs.Shows.{Replies};

use crate::call::{ServeEnd, error_reply, send};
use ct_base::Sink;
use ct_fs::Fs;
use ct_pm::Pm;
use ct_script::Shown;

/// Writes the line of the bytes of a file, or of a refusal.
pub fn read<D: Pm, O: Sink>(
    fs: &Fs<D>,
    path: &[u8],
    off: u64,
    len: u64,
    buf: &mut [u8],
    out: &mut O,
) -> Result<(), ServeEnd>
    requires { read_limit ≤ length buf.old }
    ensures serves { (count : ℕ) (t : Tree) → Keeps count fs.now.state t
        → Serves count t (call_item (read_call path.now off len) ∷ []) fs.now.state fs.now.state (O.written out.old) (O.written out.new) result }
    ensures later { O.faults out.old ≤ O.faults out.new }
    ensures fault { result ≡ Err ServeEnd.Output → Rose (O.faults out.old) (O.faults out.new) }
{
    send(out, reply_to_read(fs, path, off, len, buf))
}

/// Reads at most `len` bytes of a file, from an offset on, to the front of a buffer, and answers the reply. The buffer has room
/// for so many, unless they are more than 1,048,576, which is refused. There is no reply where the device failed.
pub fn reply_to_read<'a, D: Pm>(
    fs: &Fs<D>,
    path: &[u8],
    off: u64,
    len: u64,
    buf: &'a mut [u8],
) -> Option<Shown<'a>>
    requires { len ≤ read_limit → len ≤ length buf.old }
    ensures { (count : ℕ) (t : Tree) → Keeps count fs.now.state t
        → Replies count t (call_item (read_call path.now off len)) fs.now.state fs.now.state result }
{
    match fs.read(path, off, len, buf) {
        Ok(count) => Some(Shown::Data(&buf[..count as usize])),
        Err(error) => error_reply(error),
    }
}
