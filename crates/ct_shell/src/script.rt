// A script served line by line, as it comes.
ghost use Rattle.std.specs.Prelude.{◌≡◌, ◌≤◌, ℕ, if◌then◌else◌, [], ◌∷◌, List, Err};
ghost use Rattle.ct_base.specs.Causes.{Rose};
ghost use Rattle.ct_call.specs.Calls.{Keeps};
ghost use Rattle.ct_script.specs.Feed.{unasked};
ghost use Rattle.ct_script.specs.Grammar.{chopped};
ghost use Rattle.ct_script.specs.Script.{items_at, items_of};
ghost use Rattle.ct_tree.specs.Runs.{Item};
ghost use Rattle.ct_tree.specs.Tree.{Tree};
ghost use Rattle.ct_shell.specs.Served.{Serves};
ghost use Rattle.ct_shell.specs.Stream.{Streams, halted_end, next_items};

use crate::buffers::ReplyBuffers;
use crate::call::{ServeEnd, send, serve_call};
use ct_base::{Sink, Source};
use ct_fs::Fs;
use ct_pm::Pm;
use ct_script::{Feed, Next, ReadEnd, Scratch, Shown, parse};

/// Why a script was not served to its end.
#[derive(Clone, Copy, Debug, PartialEq, Eq)]
pub enum StreamEnd {
    /// The device failed in a call.
    Device,

    /// The output failed in a reply.
    Output,

    /// The input failed.
    Input,

    /// It gave more than 16,777,216 bytes.
    TooLong,
}

// How a script ends whose item was not answered, or whose reply was not written.
fn halted_end(end: ServeEnd) -> StreamEnd
    ensures { result ≡ halted_end end }
{
    match end {
        ServeEnd::Device => StreamEnd::Device,
        ServeEnd::Output => StreamEnd::Output,
    }
}

// Whether a line is empty, one byte 13 at its end aside.
fn is_empty(line: &[u8]) -> bool
    ensures { (item : Item) → items_at (chopped line.now) item ≡ (if result then [] else item ∷ []) }
{
    match line {
        [] => true,
        [byte] => *byte == b'\r',
        _ => false,
    }
}

// Serves one line.
fn answer<D: Pm, O: Sink>(
    fs: &mut Fs<D>,
    raw: &[u8],
    scratch: &mut Scratch,
    buffers: &mut ReplyBuffers,
    out: &mut O,
) -> Result<(), ServeEnd>
    ensures serves { (count : ℕ) (t : Tree) → Keeps count fs.old.state t
        → Serves count t (items_of raw.now) fs.old.state fs.new.state (O.written out.old) (O.written out.new) result }
    ensures later { O.faults out.old ≤ O.faults out.new }
    ensures fault { result ≡ Err ServeEnd.Output → Rose (O.faults out.old) (O.faults out.new) }
{
    if is_empty(raw) {
        return Ok(());
    }
    match parse(raw, scratch) {
        Some(call) => serve_call(fs, &call, buffers, out),
        None => send(out, Some(Shown::BadLine)),
    }
}

// Serves what a feed found: a line, or one that is too long and was passed over.
fn serve_next<D: Pm, O: Sink>(
    fs: &mut Fs<D>,
    feed: &Feed,
    next: Next,
    scratch: &mut Scratch,
    buffers: &mut ReplyBuffers,
    out: &mut O,
) -> Result<(), ServeEnd>
    ensures serves { (count : ℕ) (t : Tree) → Keeps count fs.old.state t
        → Serves count t (next_items next feed.now.line) fs.old.state fs.new.state (O.written out.old) (O.written out.new) result }
    ensures later { O.faults out.old ≤ O.faults out.new }
    ensures fault { result ≡ Err ServeEnd.Output → Rose (O.faults out.old) (O.faults out.new) }
{
    match next {
        Next::Line => answer(fs, feed.line(), scratch, buffers, out),
        Next::Overlong => send(out, Some(Shown::BadLine)),
        Next::End => Ok(()),
    }
}

/// Serves the script of an input, each line as soon as it has come, and each reply before the next line is looked for.
pub fn serve_lines<D: Pm, S: Source, O: Sink>(
    fs: &mut Fs<D>,
    feed: &mut Feed,
    input: &mut S,
    scratch: &mut Scratch,
    buffers: &mut ReplyBuffers,
    out: &mut O,
) -> Result<(), StreamEnd>
    requires { feed.old ≡ unasked }
    ensures serves { (count : ℕ) (t : Tree) → Keeps count fs.old.state t
        → Streams count t fs.old.state fs.new.state (S.rest input.old) (S.rest input.new) (O.written out.old) (O.written out.new) result }
    ensures input_later { S.faults input.old ≤ S.faults input.new }
    ensures input_fault { result ≡ Err StreamEnd.Input → Rose (S.faults input.old) (S.faults input.new) }
    ensures output_later { O.faults out.old ≤ O.faults out.new }
    ensures output_fault { result ≡ Err StreamEnd.Output → Rose (O.faults out.old) (O.faults out.new) }
{
    'lines: loop {
        let next = match feed.advance(input) {
            Ok(next) => next,
            Err(ReadEnd::Fault) => return Err(StreamEnd::Input),
            Err(ReadEnd::TooLong) => return Err(StreamEnd::TooLong),
        };
        match next {
            Next::End => return Ok(()),
            _ => {}
        }
        match serve_next(fs, feed, next, scratch, buffers, out) {
            Ok(()) => {}
            Err(end) => return Err(halted_end(end)),
        }
    }
}
