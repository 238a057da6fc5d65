// The lines of a dump.
ghost use Rattle.std.specs.Prelude.{◌≡◌, ◌≤◌, ◌++◌, [], ◌∷◌, codes, length};
ghost use Rattle.std.specs.Fmt.{decimal};
ghost use Rattle.hex.specs.Hex.{encode_lower};
ghost use Rattle.ct_base.specs.Bytes.{PutAppends};
ghost use Rattle.ct_base.specs.Causes.{HasCause};
ghost use Rattle.ct_script.specs.Texts.{escaped, line_of};
ghost use Rattle.ct_dump.specs.Dumped.{head, number_text, create_line, mkdir_line, truncate_line, write_line};

use ct_base::{NAME_BYTES, PAGE_BYTES, Sink, WriteFault};
use ct_script::Quote;
use hex::encode_to_slice;
use itoa::Buffer;

/// How many bytes of a path are escaped at a time.
const PIECE: usize = NAME_BYTES;

/// Writes the line that makes a file.
pub fn put_create<O: Sink>(out: &mut O, quote: &mut Quote, path: &[u8]) -> Result<(), WriteFault>
    ensures bytes { PutAppends (O.written out.old) (O.written out.new) result (create_line path.now) }
    ensures cause { HasCause (O.faults out.old) (O.faults out.new) result }
{
    match put_head(out, quote, b"create ", path) {
        Ok(()) => out.put(b"\n"),
        Err(fault) => Err(fault),
    }
}

/// Writes the line that makes a directory.
pub fn put_mkdir<O: Sink>(out: &mut O, quote: &mut Quote, path: &[u8]) -> Result<(), WriteFault>
    ensures bytes { PutAppends (O.written out.old) (O.written out.new) result (mkdir_line path.now) }
    ensures cause { HasCause (O.faults out.old) (O.faults out.new) result }
{
    match put_head(out, quote, b"mkdir ", path) {
        Ok(()) => out.put(b"\n"),
        Err(fault) => Err(fault),
    }
}

/// Writes the line that lengthens a file to its size.
pub fn put_size<O: Sink>(
    out: &mut O,
    quote: &mut Quote,
    path: &[u8],
    size: u64,
) -> Result<(), WriteFault>
    ensures bytes { PutAppends (O.written out.old) (O.written out.new) result (truncate_line path.now size) }
    ensures cause { HasCause (O.faults out.old) (O.faults out.new) result }
{
    match put_head(out, quote, b"truncate ", path) {
        Ok(()) => put_number_line(out, size),
        Err(fault) => Err(fault),
    }
}

/// Writes the line that writes the bytes of a page.
pub fn put_page<O: Sink>(
    out: &mut O,
    quote: &mut Quote,
    path: &[u8],
    off: u64,
    bytes: &[u8],
) -> Result<(), WriteFault>
    requires { length bytes.now ≤ PAGE_BYTES }
    ensures bytes { PutAppends (O.written out.old) (O.written out.new) result (write_line path.now off bytes.now) }
    ensures cause { HasCause (O.faults out.old) (O.faults out.new) result }
{
    match put_head(out, quote, b"write ", path) {
        Ok(()) => put_content(out, off, bytes),
        Err(fault) => Err(fault),
    }
}

// Writes what follows the path in the line of a page.
fn put_content<O: Sink>(out: &mut O, off: u64, bytes: &[u8]) -> Result<(), WriteFault>
    requires { length bytes.now ≤ PAGE_BYTES }
    ensures bytes { PutAppends (O.written out.old) (O.written out.new) result (number_text off ++ 32 ∷ line_of (encode_lower bytes.now)) }
    ensures cause { HasCause (O.faults out.old) (O.faults out.new) result }
{
    match put_number(out, off) {
        Ok(()) => put_data(out, bytes),
        Err(fault) => Err(fault),
    }
}

// Writes a space, the hexadecimal digits of bytes and the end of the line.
fn put_data<O: Sink>(out: &mut O, bytes: &[u8]) -> Result<(), WriteFault>
    requires { length bytes.now ≤ PAGE_BYTES }
    ensures bytes { PutAppends (O.written out.old) (O.written out.new) result (32 ∷ line_of (encode_lower bytes.now)) }
    ensures cause { HasCause (O.faults out.old) (O.faults out.new) result }
{
    match out.put(b" ") {
        Ok(()) => put_digits_line(out, bytes),
        Err(fault) => Err(fault),
    }
}

fn put_digits_line<O: Sink>(out: &mut O, bytes: &[u8]) -> Result<(), WriteFault>
    requires { length bytes.now ≤ PAGE_BYTES }
    ensures bytes { PutAppends (O.written out.old) (O.written out.new) result (line_of (encode_lower bytes.now)) }
    ensures cause { HasCause (O.faults out.old) (O.faults out.new) result }
{
    match put_digits(out, bytes) {
        Ok(()) => out.put(b"\n"),
        Err(fault) => Err(fault),
    }
}

// Writes the hexadecimal digits of a page's bytes at once.
fn put_digits<O: Sink>(out: &mut O, bytes: &[u8]) -> Result<(), WriteFault>
    requires { length bytes.now ≤ PAGE_BYTES }
    ensures bytes { PutAppends (O.written out.old) (O.written out.new) result (encode_lower bytes.now) }
    ensures cause { HasCause (O.faults out.old) (O.faults out.new) result }
{
    let mut buffer = [0u8; 8192];
    let digits = &mut buffer[..2 * bytes.len()];
    match encode_to_slice(bytes, digits) {
        Ok(()) => out.put(digits),
        Err(_) => unreachable!(),
    }
}

fn put_number_line<O: Sink>(out: &mut O, number: u64) -> Result<(), WriteFault>
    ensures bytes { PutAppends (O.written out.old) (O.written out.new) result (line_of (number_text number)) }
    ensures cause { HasCause (O.faults out.old) (O.faults out.new) result }
{
    match put_number(out, number) {
        Ok(()) => out.put(b"\n"),
        Err(fault) => Err(fault),
    }
}

// Writes a space and a number.
fn put_number<O: Sink>(out: &mut O, number: u64) -> Result<(), WriteFault>
    ensures bytes { PutAppends (O.written out.old) (O.written out.new) result (number_text number) }
    ensures cause { HasCause (O.faults out.old) (O.faults out.new) result }
{
    match out.put(b" ") {
        Ok(()) => put_decimal(out, number),
        Err(fault) => Err(fault),
    }
}

fn put_decimal<O: Sink>(out: &mut O, number: u64) -> Result<(), WriteFault>
    ensures bytes { PutAppends (O.written out.old) (O.written out.new) result (decimal number) }
    ensures cause { HasCause (O.faults out.old) (O.faults out.new) result }
{
    let mut buffer = Buffer::new();
    out.put(buffer.format(number).as_bytes())
}

// Writes a verb and a path.
fn put_head<O: Sink>(
    out: &mut O,
    quote: &mut Quote,
    verb: &[u8],
    path: &[u8],
) -> Result<(), WriteFault>
    ensures bytes { PutAppends (O.written out.old) (O.written out.new) result (head verb.now path.now) }
    ensures cause { HasCause (O.faults out.old) (O.faults out.new) result }
{
    match out.put(verb) {
        Ok(()) => put_path(out, quote, path),
        Err(fault) => Err(fault),
    }
}

// Writes a path with its names escaped, in pieces.
fn put_path<O: Sink>(out: &mut O, quote: &mut Quote, path: &[u8]) -> Result<(), WriteFault>
    ensures bytes { PutAppends (O.written out.old) (O.written out.new) result (escaped path.now) }
    ensures cause { HasCause (O.faults out.old) (O.faults out.new) result }
{
    let mut rest = path;
    'pieces: while !rest.is_empty() {
        let (piece, more) = rest.split_at(rest.len().min(PIECE));
        match out.put(quote.escape(piece)) {
            Ok(()) => {}
            Err(fault) => return Err(fault),
        }
        rest = more;
    }
    Ok(())
}
