// The names in a directory.
ghost use Rattle.std.specs.Prelude.{◌≡◌, ◌≢◌, ◌≤◌, ℕ, [], ◌∷◌, List, Some, None, Err, MatchResult, length, take};
ghost use Rattle.std.specs.Io.KnownBytes.{Appends};
ghost use Rattle.std.specs.Option.{option_map};
ghost use Rattle.ct_base.specs.Bytes.{PutAppends};
ghost use Rattle.ct_base.specs.Causes.{Rose};
ghost use Rattle.ct_dir.specs.Directory.{name_in};
ghost use Rattle.ct_call.specs.Calls.{Keeps, StandsFor};
ghost use Rattle.ct_look.specs.Looks.{IsLook, next_name};
ghost use Rattle.ct_call.specs.Mounted.{Volume};
ghost use Rattle.ct_fs.specs.Mounts.{mounts};
ghost use Rattle.ct_script.specs.Texts.{name_text, reply_line};
ghost use Rattle.ct_tree.specs.Checks.{at};
ghost use Rattle.ct_tree.specs.Runs.{call as call_item};
ghost use Rattle.ct_tree.specs.Step.{list as list_call, listed_in, refusal};
ghost use Rattle.ct_tree.specs.Tree.{Tree};
ghost use Rattle.ct_tree.specs.declared.call.Reply.TheVariants.{Names};
ghost use Rattle.ct_shell.specs.Served.{Serves};

use crate::call::{ServeEnd, error_reply, send};
use crate::sorted::put_sorted;
use ct_base::{NameBuf, Sink};
use ct_fs::{Fs, FsError, Stat};
use ct_pm::Pm;
use ct_script::{Quote, put_end, put_name, put_names};
use ct_tree::Refusal;

/// Writes the line of the names in a directory, in byte order, or of a refusal.
///
/// Where the directory has no more entries than the buffer has room for, they are met once and put in order by their offsets.
pub fn list<D: Pm, O: Sink>(
    fs: &Fs<D>,
    path: &[u8],
    offsets: &mut [u64],
    quote: &mut Quote,
    out: &mut O,
) -> Result<(), ServeEnd>
    ensures serves { (count : ℕ) (t : Tree) → Keeps count fs.now.state t
        → Serves count t (call_item (list_call path.now) ∷ []) fs.now.state fs.now.state (O.written out.old) (O.written out.new) result }
    ensures later { O.faults out.old ≤ O.faults out.new }
    ensures fault { result ≡ Err ServeEnd.Output → Rose (O.faults out.old) (O.faults out.new) }
{
    match fs.entries(path, offsets) {
        Ok(Some(listing)) => put_sorted(fs, listing, offsets, quote, out),
        Ok(None) => list_by_steps(fs, path, quote, out),
        Err(error) => send(out, error_reply(error)),
    }
}

// The same of a directory with any number of entries: each name is searched for.
fn list_by_steps<D: Pm, O: Sink>(
    fs: &Fs<D>,
    path: &[u8],
    quote: &mut Quote,
    out: &mut O,
) -> Result<(), ServeEnd>
    ensures serves { (count : ℕ) (t : Tree) → Keeps count fs.now.state t
        → Serves count t (call_item (list_call path.now) ∷ []) fs.now.state fs.now.state (O.written out.old) (O.written out.new) result }
    ensures later { O.faults out.old ≤ O.faults out.new }
    ensures fault { result ≡ Err ServeEnd.Output → Rose (O.faults out.old) (O.faults out.new) }
{
    match entries_at(fs, path) {
        Ok(count) => put_entries(fs, path, count, quote, out),
        Err(error) => send(out, error_reply(error)),
    }
}

// How many entries the directory at a path has.
fn entries_at<D: Pm>(fs: &Fs<D>, path: &[u8]) -> Result<u64, FsError>
    ensures { (was : Volume D) → mounts fs.now ≡ Some was → (t : Tree) → StandsFor (D.words was.dev) t
        → IsLook (refusal t (list_call path.now)) (λ count. count ≡ length (listed_in (at t path.now))) result }
{
    match fs.stat(path) {
        Ok(Stat::Dir { count }) => Ok(count),
        Ok(Stat::File { size: _ }) => Err(FsError::Refused(Refusal::NotDir)),
        Err(error) => Err(error),
    }
}

// The name that was written last.
fn text_of(name: &Option<NameBuf>) -> Option<&[u8]>
    ensures { name_in result ≡ option_map (λ name. name.items) name.now }
{
    match name {
        Some(name) => Some(name.as_slice()),
        None => None,
    }
}

// Writes the name that follows another, or the first of all, and answers it.
fn put_next<D: Pm, O: Sink>(
    fs: &Fs<D>,
    path: &[u8],
    last: &Option<NameBuf>,
    quote: &mut Quote,
    out: &mut O,
) -> Result<NameBuf, ServeEnd>
    ensures next { (was : Volume D) → mounts fs.now ≡ Some was → (t : Tree) → StandsFor (D.words was.dev) t → refusal t (list_call path.now) ≡ None
        → (x : List ℕ) → next_name (option_map (λ name. name.items) last.now) (listed_in (at t path.now)) ≡ Some x
        → MatchResult result (λ name. (name.items ≡ x) × Appends (O.written out.old) (O.written out.new) (name_text x))
        (λ end. (end ≡ ServeEnd.Output) × ((k : ℕ) × Appends (O.written out.old) (O.written out.new) (take k (name_text x)))) }
    ensures later { O.faults out.old ≤ O.faults out.new }
    ensures fault { result ≡ Err ServeEnd.Output → Rose (O.faults out.old) (O.faults out.new) }
{
    match fs.next_entry(path, text_of(last)) {
        Ok(Some(name)) => match put_name(out, quote, name.as_slice()) {
            Ok(()) => Ok(name),
            Err(_) => Err(ServeEnd::Output),
        },
        Ok(None) => Err(ServeEnd::Device),
        Err(_) => Err(ServeEnd::Device),
    }
}

// Writes the names of a directory with so many entries.
fn put_entries<D: Pm, O: Sink>(
    fs: &Fs<D>,
    path: &[u8],
    count: u64,
    quote: &mut Quote,
    out: &mut O,
) -> Result<(), ServeEnd>
    ensures bytes { (was : Volume D) → mounts fs.now ≡ Some was → (t : Tree) → StandsFor (D.words was.dev) t → refusal t (list_call path.now) ≡ None
        → count ≡ length (listed_in (at t path.now))
        → PutAppends (O.written out.old) (O.written out.new) result (reply_line (Names (listed_in (at t path.now)))) × (result ≢ Err ServeEnd.Device) }
    ensures later { O.faults out.old ≤ O.faults out.new }
    ensures fault { result ≡ Err ServeEnd.Output → Rose (O.faults out.old) (O.faults out.new) }
{
    match put_names(out) {
        Ok(()) => {}
        Err(_) => return Err(ServeEnd::Output),
    }
    let mut last = None;
    for _ in 0..count {
        match put_next(fs, path, &last, quote, out) {
            Ok(name) => last = Some(name),
            Err(end) => return Err(end),
        }
    }
    match put_end(out) {
        Ok(()) => Ok(()),
        Err(_) => Err(ServeEnd::Output),
    }
}
