// One call, and its reply.
ghost use Rattle.std.specs.Prelude.{◌≡◌, ◌≢◌, ◌≤◌, ℕ, [], ◌∷◌, Err, MatchOption, true, false};
ghost use Rattle.ct_base.specs.Bytes.{PutAppends};
ghost use Rattle.ct_base.specs.Causes.{Rose};
ghost use Rattle.ct_call.specs.Calls.{IsChange, Keeps};
ghost use Rattle.ct_script.specs.Shows.{reply_of};
ghost use Rattle.ct_script.specs.Texts.{reply_line};
ghost use Rattle.ct_tree.specs.Runs.{call as call_item};
ghost use Rattle.ct_tree.specs.Step.{op_of};
ghost use Rattle.ct_tree.specs.Tree.{Tree};
ghost use Rattle.ct_shell.specs.Script.{is_change};
ghost use Rattle.ct_shell.specs.Served.{Serves};
ghost use Rattle.ct_shell.specs.Shows.{Replies, error_reply, made_reply, place_reply, stat_reply};

use crate::buffers::ReplyBuffers;
use crate::list::list;
use crate::read::read;
use ct_base::Sink;
use ct_fs::{Fs, FsError, Stat};
use ct_pm::Pm;
use ct_script::{Shown, put_reply};
use ct_tree::Call;

/// Why a script was not served whole.
#[derive(Clone, Copy, Debug, PartialEq, Eq)]
pub enum ServeEnd {
    Device,
    Output,
}

// Whether the call changes the tree, and the file system has it.
fn is_change(call: &Call<'_>) -> bool
    ensures { result ≡ is_change (op_of call.now) }
{
    match *call {
        Call::Create { path: _ } => true,
        Call::Mkdir { path: _ } => true,
        Call::Write {
            path: _,
            off: _,
            bytes: _,
        } => true,
        Call::Fill {
            path: _,
            off: _,
            len: _,
            byte: _,
        } => true,
        Call::Append { path: _, bytes: _ } => true,
        Call::Read {
            path: _,
            off: _,
            len: _,
        } => false,
        Call::Truncate { path: _, len: _ } => true,
        Call::Unlink { path: _ } => true,
        Call::Rmdir { path: _ } => true,
        Call::Rename { path: _, to: _ } => true,
        Call::Exchange {
            path: _,
            off: _,
            other: _,
            other_off: _,
            len: _,
        } => true,
        Call::Stat { path: _ } => false,
        Call::List { path: _ } => false,
        Call::Where { path: _ } => false,
    }
}

/// Makes a call and writes its reply.
pub fn serve_call<D: Pm, O: Sink>(
    fs: &mut Fs<D>,
    call: &Call<'_>,
    buffers: &mut ReplyBuffers,
    out: &mut O,
) -> Result<(), ServeEnd>
    ensures serves { (count : ℕ) (t : Tree) → Keeps count fs.old.state t
        → Serves count t (call_item (op_of call.now) ∷ []) fs.old.state fs.new.state (O.written out.old) (O.written out.new) result }
    ensures later { O.faults out.old ≤ O.faults out.new }
    ensures fault { result ≡ Err ServeEnd.Output → Rose (O.faults out.old) (O.faults out.new) }
{
    if is_change(call) {
        return send(out, reply_to_change(fs, call));
    }
    match *call {
        Call::Stat { path } => send(out, stat_reply(fs.stat(path))),
        Call::Where { path } => send(out, place_reply(fs.locate(path))),
        Call::List { path } => {
            list(
                fs,
                path,
                buffers.offsets.as_mut_slice(),
                &mut buffers.quote,
                out,
            )
        }
        Call::Read { path, off, len } => {
            read(fs, path, off, len, buffers.bytes.as_mut_slice(), out)
        }
        _ => unreachable!(),
    }
}

/// Makes a call that changes the tree, and answers its reply. There is none where the device failed.
pub fn reply_to_change<D: Pm>(fs: &mut Fs<D>, call: &Call<'_>) -> Option<Shown<'static>>
    requires { IsChange (op_of call.now) }
    ensures { (count : ℕ) (t : Tree) → Keeps count fs.old.state t
        → Replies count t (call_item (op_of call.now)) fs.old.state fs.new.state result }
{
    made_reply(fs.change(call))
}

/// Writes the line of a reply. There is none where the device failed.
pub fn send<O: Sink>(out: &mut O, reply: Option<Shown<'_>>) -> Result<(), ServeEnd>
    ensures bytes { MatchOption reply.entry ((result ≡ Err ServeEnd.Device) × (O.written out.new ≡ O.written out.old))
        (λ shown. PutAppends (O.written out.old) (O.written out.new) result (reply_line (reply_of shown)) × (result ≢ Err ServeEnd.Device)) }
    ensures later { O.faults out.old ≤ O.faults out.new }
    ensures fault { result ≡ Err ServeEnd.Output → Rose (O.faults out.old) (O.faults out.new) }
{
    match reply {
        Some(shown) => match put_reply(out, &shown) {
            Ok(()) => Ok(()),
            Err(_) => Err(ServeEnd::Output),
        },
        None => Err(ServeEnd::Device),
    }
}

/// The reply to a call that was refused.
pub fn error_reply(error: FsError) -> Option<Shown<'static>>
    ensures { result ≡ error_reply error }
{
    match error {
        FsError::Dead => None,
        FsError::Refused(refusal) => Some(Shown::Refused(refusal)),
        FsError::Fault => None,
    }
}

// The reply to a call that makes an object.
fn made_reply(answer: Result<(), FsError>) -> Option<Shown<'static>>
    ensures { result ≡ made_reply answer }
{
    match answer {
        Ok(()) => Some(Shown::Done),
        Err(error) => error_reply(error),
    }
}

// The reply to what is told of an object.
fn stat_reply(answer: Result<Stat, FsError>) -> Option<Shown<'static>>
    ensures { result ≡ stat_reply answer }
{
    match answer {
        Ok(Stat::File { size }) => Some(Shown::File(size)),
        Ok(Stat::Dir { count }) => Some(Shown::Dir(count)),
        Err(error) => error_reply(error),
    }
}

// The reply to where a file lies.
fn place_reply(answer: Result<(u64, u32), FsError>) -> Option<Shown<'static>>
    ensures { result ≡ place_reply answer }
{
    match answer {
        Ok((base, level)) => Some(Shown::At { base, level }),
        Err(error) => error_reply(error),
    }
}
