// Replies as lines.
ghost use Rattle.std.specs.Prelude.{◌≡◌, ◌≤◌, ◌++◌, [], ◌∷◌, codes, length, decimal};
ghost use Rattle.std.specs.List.{flat_map};
ghost use Rattle.hex.specs.Hex.{encode_lower};
ghost use Rattle.ct_base.specs.Bytes.{PutAppends};
ghost use Rattle.ct_base.specs.Causes.{HasCause};
ghost use Rattle.ct_script.specs.Shows.{reply_of};
ghost use Rattle.ct_script.specs.Texts.{reply_line, refusal_text, line_of, data_text, name_text};

use crate::quote::Quote;
use ct_base::{NAME_BYTES, Sink, WriteFault};
use ct_tree::Refusal;
use hex::encode_to_slice;
use itoa::Buffer;

/// A reply whose parts are at hand. The names of a directory are written by `put_names`, `put_name` and `put_end`.
#[derive(Clone, Copy)]
pub enum Shown<'a> {
    Done,

    /// The bytes that were read.
    Data(&'a [u8]),

    /// The size of a file in bytes.
    File(u64),

    /// How many entries a directory has.
    Dir(u64),

    /// Where a file lies.
    At { base: u64, level: u32 },

    Refused(Refusal),

    /// The answer to a line that is no call.
    BadLine,
}

/// Writes the line of a reply. After a fault a prefix of it was written.
pub fn put_reply<O: Sink>(out: &mut O, reply: &Shown<'_>) -> Result<(), WriteFault>
    ensures bytes { PutAppends (O.written out.old) (O.written out.new) result (reply_line (reply_of reply.now)) }
    ensures cause { HasCause (O.faults out.old) (O.faults out.new) result }
{
    match *reply {
        Shown::Done => out.put(b"ok\n"),
        Shown::Data(bytes) => put_data(out, bytes),
        Shown::File(size) => put_number(out, b"file ", size),
        Shown::Dir(count) => put_number(out, b"dir ", count),
        Shown::At { base, level } => put_place(out, base, level),
        Shown::Refused(refusal) => out.put(refusal_line(refusal)),
        Shown::BadLine => out.put(b"error line\n"),
    }
}

/// Begins the line of a directory's names.
pub fn put_names<O: Sink>(out: &mut O) -> Result<(), WriteFault>
    ensures bytes { PutAppends (O.written out.old) (O.written out.new) result (codes "names") }
    ensures cause { HasCause (O.faults out.old) (O.faults out.new) result }
{
    out.put(b"names")
}

/// Writes one name into the line of names, with the space before it at once.
pub fn put_name<O: Sink>(out: &mut O, quote: &mut Quote, name: &[u8]) -> Result<(), WriteFault>
    requires { length name.now ≤ NAME_BYTES }
    ensures bytes { PutAppends (O.written out.old) (O.written out.new) result (name_text name.now) }
    ensures cause { HasCause (O.faults out.old) (O.faults out.new) result }
{
    out.put(quote.spaced(name))
}

/// Ends the line of names.
pub fn put_end<O: Sink>(out: &mut O) -> Result<(), WriteFault>
    ensures bytes { PutAppends (O.written out.old) (O.written out.new) result (10 ∷ []) }
    ensures cause { HasCause (O.faults out.old) (O.faults out.new) result }
{
    out.put(b"\n")
}

/// Writes the parts one after another.
fn put_parts<O: Sink>(out: &mut O, parts: &[&[u8]]) -> Result<(), WriteFault>
    ensures bytes { PutAppends (O.written out.old) (O.written out.new) result (flat_map (λ part. part.now) parts.now) }
    ensures cause { HasCause (O.faults out.old) (O.faults out.new) result }
{
    for part in parts {
        match out.put(part) {
            Ok(()) => {}
            Err(fault) => return Err(fault),
        }
    }
    Ok(())
}

/// Writes a line of a word and a number.
fn put_number<O: Sink>(out: &mut O, word: &[u8], number: u64) -> Result<(), WriteFault>
    ensures bytes { PutAppends (O.written out.old) (O.written out.new) result (line_of (word.now ++ decimal number)) }
    ensures cause { HasCause (O.faults out.old) (O.faults out.new) result }
{
    let mut digits = Buffer::new();
    put_parts(out, &[word, digits.format(number).as_bytes(), b"\n"])
}

/// Writes the line of where a file lies.
fn put_place<O: Sink>(out: &mut O, base: u64, level: u32) -> Result<(), WriteFault>
    ensures bytes { PutAppends (O.written out.old) (O.written out.new) result (line_of (codes "at " ++ decimal base ++ 32 ∷ decimal level)) }
    ensures cause { HasCause (O.faults out.old) (O.faults out.new) result }
{
    let mut base_digits = Buffer::new();
    let mut level_digits = Buffer::new();
    let base = base_digits.format(base).as_bytes();
    let level = level_digits.format(level).as_bytes();
    put_parts(out, &[b"at ", base, b" ", level, b"\n"])
}

/// Writes the line of bytes that were read.
fn put_data<O: Sink>(out: &mut O, bytes: &[u8]) -> Result<(), WriteFault>
    ensures bytes { PutAppends (O.written out.old) (O.written out.new) result (line_of (data_text bytes.now)) }
    ensures cause { HasCause (O.faults out.old) (O.faults out.new) result }
{
    match bytes {
        [] => out.put(b"data\n"),
        [_, ..] => put_bytes(out, bytes),
    }
}

/// The same, where there are bytes.
fn put_bytes<O: Sink>(out: &mut O, bytes: &[u8]) -> Result<(), WriteFault>
    ensures bytes { PutAppends (O.written out.old) (O.written out.new) result (codes "data " ++ (encode_lower bytes.now ++ 10 ∷ [])) }
    ensures cause { HasCause (O.faults out.old) (O.faults out.new) result }
{
    match out.put(b"data ") {
        Ok(()) => {}
        Err(fault) => return Err(fault),
    }
    match put_digits(out, bytes) {
        Ok(()) => {}
        Err(fault) => return Err(fault),
    }
    out.put(b"\n")
}

/// How many bytes are turned into digits at a time.
const PIECE: usize = 16_384;

/// Writes the hexadecimal digits of bytes, in pieces.
fn put_digits<O: Sink>(out: &mut O, bytes: &[u8]) -> Result<(), WriteFault>
    ensures bytes { PutAppends (O.written out.old) (O.written out.new) result (encode_lower bytes.now) }
    ensures cause { HasCause (O.faults out.old) (O.faults out.new) result }
{
    let mut rest = bytes;
    'pieces: while !rest.is_empty() {
        let (piece, more) = rest.split_at(rest.len().min(PIECE));
        match put_piece(out, piece) {
            Ok(()) => {}
            Err(fault) => return Err(fault),
        }
        rest = more;
    }
    Ok(())
}

/// Writes the hexadecimal digits of a few bytes.
fn put_piece<O: Sink>(out: &mut O, piece: &[u8]) -> Result<(), WriteFault>
    requires { length piece.now ≤ PIECE }
    ensures bytes { PutAppends (O.written out.old) (O.written out.new) result (encode_lower piece.now) }
    ensures cause { HasCause (O.faults out.old) (O.faults out.new) result }
{
    let mut buffer = [0u8; 32_768];
    let digits = &mut buffer[..2 * piece.len()];
    match encode_to_slice(piece, digits) {
        Ok(()) => out.put(digits),
        Err(_) => unreachable!(),
    }
}

fn refusal_line(refusal: Refusal) -> &'static [u8]
    ensures { result.now ≡ line_of (refusal_text refusal) }
{
    match refusal {
        Refusal::BadPath => b"error bad path\n",
        Refusal::NotFound => b"error not found\n",
        Refusal::NotDir => b"error not a directory\n",
        Refusal::IsDir => b"error is a directory\n",
        Refusal::Exists => b"error exists\n",
        Refusal::NotEmpty => b"error not empty\n",
        Refusal::IntoSelf => b"error into itself\n",
        Refusal::IsRoot => b"error is the root\n",
        Refusal::TooBig => b"error too big\n",
        Refusal::BadRange => b"error bad range\n",
        Refusal::Overlap => b"error overlap\n",
        Refusal::TooLong => b"error too long\n",
        Refusal::NoInode => b"error no inode\n",
        Refusal::NoPartition { level: _ } => b"error no partition\n",
        Refusal::NoPages { free: _, need: _ } => b"error no pages\n",
    }
}
