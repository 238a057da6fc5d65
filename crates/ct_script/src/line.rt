// A line as a call.
ghost use Rattle.std.specs.Prelude.{◌≡◌, ◌+◌, ◌≤◌, ◌==◌, List, ℕ, [], ◌∷◌, length, Some, if◌then◌else◌};
ghost use Rattle.std.specs.Option.{option_map, option_and_then};
ghost use Rattle.ct_base.specs.Split.{parts_at};
ghost use Rattle.ct_tree.specs.Step.{op_of, append, truncate, rename, write, read};
ghost use Rattle.ct_script.specs.Grammar.{chopped, path_of, bytes_of, number_of, of_two, of_three, call_with, call_in, call_of};
ghost use Rattle.ct_script.specs.declared.verb.Verb.TheVariants.{Fill, Exchange};

use crate::number::{byte_of, number_of};
use crate::scratch::{LINE_BYTES, Scratch};
use crate::verb::{Verb, verb_of};
use ct_base::first_part;
use ct_tree::Call;

/// The call that a line is, without its byte 10. One byte 13 at its end is no part of it, but counts among its 65,536 bytes at
/// most. `None` exactly where the line is no call.
pub fn parse<'a>(line: &[u8], scratch: &'a mut Scratch) -> Option<Call<'a>>
    ensures { option_map op_of result ≡ call_of line.now }
{
    if line.len() > LINE_BYTES {
        return None;
    }
    parse_words(chopped(line), scratch)
}

/// A line without one byte 13 at its end.
fn chopped(line: &[u8]) -> &[u8]
    ensures value { result.now ≡ chopped line.now }
    ensures length { length result.now ≤ length line.now }
{
    let (last, text) = match line.split_last() {
        None => return line,
        Some((last, text)) => (*last, text),
    };
    if last == b'\r' { text } else { line }
}

fn parse_words<'a>(line: &[u8], scratch: &'a mut Scratch) -> Option<Call<'a>>
    requires { length line.now ≤ LINE_BYTES }
    ensures { option_map op_of result ≡ call_in (parts_at 32 line.now) }
{
    let (word, more) = first_part(line, b' ');
    match (verb_of(word), more) {
        (Some(verb), Some(rest)) => after_verb(verb, rest, scratch),
        _ => None,
    }
}

fn after_verb<'a>(verb: Verb, rest: &[u8], scratch: &'a mut Scratch) -> Option<Call<'a>>
    requires { length rest.now ≤ LINE_BYTES }
    ensures { option_map op_of result ≡ call_with verb (parts_at 32 rest.now) }
{
    let (path, more) = first_part(rest, b' ');
    match more {
        None => of_path(verb, path, scratch),
        Some(rest) => after_path(verb, path, rest, scratch),
    }
}

fn after_path<'a>(
    verb: Verb,
    path: &[u8],
    rest: &[u8],
    scratch: &'a mut Scratch,
) -> Option<Call<'a>>
    requires { length path.now + length rest.now ≤ LINE_BYTES }
    ensures { option_map op_of result ≡ call_with verb (path.now ∷ parts_at 32 rest.now) }
{
    let (second, more) = first_part(rest, b' ');
    match more {
        None => of_two_words(verb, path, second, scratch),
        Some(rest) => after_two(verb, path, second, rest, scratch),
    }
}

fn after_two<'a>(
    verb: Verb,
    path: &[u8],
    second: &[u8],
    rest: &[u8],
    scratch: &'a mut Scratch,
) -> Option<Call<'a>>
    requires { length path.now + length second.now + length rest.now ≤ LINE_BYTES }
    ensures { option_map op_of result ≡ call_with verb (path.now ∷ second.now ∷ parts_at 32 rest.now) }
{
    let (third, more) = first_part(rest, b' ');
    match more {
        None => of_three_words(verb, path, second, third, scratch),
        Some(rest) => of_more_words(verb, path, second, third, rest, scratch),
    }
}

/// The calls of one word.
fn of_path<'a>(verb: Verb, word: &[u8], scratch: &'a mut Scratch) -> Option<Call<'a>>
    requires { length word.now ≤ LINE_BYTES }
    ensures { option_map op_of result ≡ call_with verb (word.now ∷ []) }
{
    match scratch.path(word) {
        Some(path) => with_path(verb, path),
        None => None,
    }
}

/// The call of a verb and one path, where there is one.
fn with_path<'a>(verb: Verb, path: &'a [u8]) -> Option<Call<'a>>
    ensures { (word : List ℕ) → path_of word ≡ Some path.now → option_map op_of result ≡ call_with verb (word ∷ []) }
{
    let call = match verb {
        Verb::Create => Call::Create { path },
        Verb::Mkdir => Call::Mkdir { path },
        Verb::Unlink => Call::Unlink { path },
        Verb::Rmdir => Call::Rmdir { path },
        Verb::Stat => Call::Stat { path },
        Verb::List => Call::List { path },
        Verb::Where => Call::Where { path },
        _ => return None,
    };
    Some(call)
}

/// The calls of two words.
fn of_two_words<'a>(
    verb: Verb,
    path: &[u8],
    word: &[u8],
    scratch: &'a mut Scratch,
) -> Option<Call<'a>>
    requires { length path.now + length word.now ≤ LINE_BYTES }
    ensures { option_map op_of result ≡ call_with verb (path.now ∷ word.now ∷ []) }
{
    match verb {
        Verb::Append => append_of(path, word, scratch),
        Verb::Truncate => truncate_of(path, word, scratch),
        Verb::Rename => rename_of(path, word, scratch),
        _ => None,
    }
}

fn append_of<'a>(path: &[u8], digits: &[u8], scratch: &'a mut Scratch) -> Option<Call<'a>>
    requires { length path.now + length digits.now ≤ LINE_BYTES }
    ensures { option_map op_of result ≡ of_two append (path_of path.now) (bytes_of digits.now) }
{
    match scratch.path_and_bytes(path, digits) {
        Some((path, bytes)) => Some(Call::Append { path, bytes }),
        None => None,
    }
}

fn truncate_of<'a>(path: &[u8], len: &[u8], scratch: &'a mut Scratch) -> Option<Call<'a>>
    requires { length path.now ≤ LINE_BYTES }
    ensures { option_map op_of result ≡ of_two truncate (path_of path.now) (number_of len.now) }
{
    match (scratch.path(path), number_of(len)) {
        (Some(path), Some(len)) => Some(Call::Truncate { path, len }),
        (Some(_), None) => None,
        (None, _) => None,
    }
}

fn rename_of<'a>(path: &[u8], to: &[u8], scratch: &'a mut Scratch) -> Option<Call<'a>>
    requires { length path.now + length to.now ≤ LINE_BYTES }
    ensures { option_map op_of result ≡ of_two rename (path_of path.now) (path_of to.now) }
{
    match scratch.paths(path, to) {
        Some((path, to)) => Some(Call::Rename { path, to }),
        None => None,
    }
}

/// The calls of three words.
fn of_three_words<'a>(
    verb: Verb,
    path: &[u8],
    second: &[u8],
    third: &[u8],
    scratch: &'a mut Scratch,
) -> Option<Call<'a>>
    requires { length path.now + length third.now ≤ LINE_BYTES }
    ensures { option_map op_of result ≡ call_with verb (path.now ∷ second.now ∷ third.now ∷ []) }
{
    match verb {
        Verb::Write => write_of(path, second, third, scratch),
        Verb::Read => read_of(path, second, third, scratch),
        _ => None,
    }
}

fn write_of<'a>(
    path: &[u8],
    off: &[u8],
    digits: &[u8],
    scratch: &'a mut Scratch,
) -> Option<Call<'a>>
    requires { length path.now + length digits.now ≤ LINE_BYTES }
    ensures { option_map op_of result ≡ of_three write (path_of path.now) (number_of off.now) (bytes_of digits.now) }
{
    match (scratch.path_and_bytes(path, digits), number_of(off)) {
        (Some((path, bytes)), Some(off)) => Some(Call::Write { path, off, bytes }),
        (Some(_), None) => None,
        (None, _) => None,
    }
}

fn read_of<'a>(path: &[u8], off: &[u8], len: &[u8], scratch: &'a mut Scratch) -> Option<Call<'a>>
    requires { length path.now ≤ LINE_BYTES }
    ensures { option_map op_of result ≡ of_three read (path_of path.now) (number_of off.now) (number_of len.now) }
{
    let (off, len) = match (number_of(off), number_of(len)) {
        (Some(off), Some(len)) => (off, len),
        _ => return None,
    };
    match scratch.path(path) {
        Some(path) => Some(Call::Read { path, off, len }),
        None => None,
    }
}

/// The calls of more than three words.
fn of_more_words<'a>(
    verb: Verb,
    path: &[u8],
    second: &[u8],
    third: &[u8],
    rest: &[u8],
    scratch: &'a mut Scratch,
) -> Option<Call<'a>>
    requires { length path.now + length third.now ≤ LINE_BYTES }
    ensures { option_map op_of result ≡ call_with verb (path.now ∷ second.now ∷ third.now ∷ parts_at 32 rest.now) }
{
    match verb {
        Verb::Fill => fill_of(path, second, third, rest, scratch),
        Verb::Exchange => exchange_of(path, second, third, rest, scratch),
        _ => None,
    }
}

fn fill_of<'a>(
    path: &[u8],
    off: &[u8],
    len: &[u8],
    rest: &[u8],
    scratch: &'a mut Scratch,
) -> Option<Call<'a>>
    requires { length path.now ≤ LINE_BYTES }
    ensures { option_map op_of result ≡ call_with Fill (path.now ∷ off.now ∷ len.now ∷ parts_at 32 rest.now) }
{
    let (byte, more) = first_part(rest, b' ');
    match more {
        None => filled(path, off, len, byte, scratch),
        Some(_) => None,
    }
}

fn filled<'a>(
    path: &[u8],
    off: &[u8],
    len: &[u8],
    byte: &[u8],
    scratch: &'a mut Scratch,
) -> Option<Call<'a>>
    requires { length path.now ≤ LINE_BYTES }
    ensures { option_map op_of result ≡ call_with Fill (path.now ∷ off.now ∷ len.now ∷ byte.now ∷ []) }
{
    let (off, len, byte) = match (number_of(off), number_of(len), byte_of(byte)) {
        (Some(off), Some(len), Some(byte)) => (off, len, byte),
        _ => return None,
    };
    match scratch.path(path) {
        Some(path) => Some(Call::Fill {
            path,
            off,
            len,
            byte,
        }),
        None => None,
    }
}

fn exchange_of<'a>(
    path: &[u8],
    off: &[u8],
    other: &[u8],
    rest: &[u8],
    scratch: &'a mut Scratch,
) -> Option<Call<'a>>
    requires { length path.now + length other.now ≤ LINE_BYTES }
    ensures { option_map op_of result ≡ call_with Exchange (path.now ∷ off.now ∷ other.now ∷ parts_at 32 rest.now) }
{
    let (other_off, more) = first_part(rest, b' ');
    let rest = match more {
        None => return None,
        Some(rest) => rest,
    };
    let (len, more) = first_part(rest, b' ');
    match more {
        None => exchanged(path, off, other, other_off, len, scratch),
        Some(_) => None,
    }
}

fn exchanged<'a>(
    path: &[u8],
    off: &[u8],
    other: &[u8],
    other_off: &[u8],
    len: &[u8],
    scratch: &'a mut Scratch,
) -> Option<Call<'a>>
    requires { length path.now + length other.now ≤ LINE_BYTES }
    ensures { option_map op_of result ≡ call_with Exchange (path.now ∷ off.now ∷ other.now ∷ other_off.now ∷ len.now ∷ []) }
{
    let (off, other_off, len) = match (number_of(off), number_of(other_off), number_of(len)) {
        (Some(off), Some(other_off), Some(len)) => (off, other_off, len),
        _ => return None,
    };
    match scratch.paths(path, other) {
        Some((path, other)) => Some(Call::Exchange {
            path,
            off,
            other,
            other_off,
            len,
        }),
        None => None,
    }
}
