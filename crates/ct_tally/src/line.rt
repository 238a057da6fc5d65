// The line of a tally.
ghost use Rattle.std.specs.Prelude.{◌≡◌, ◌≤◌, ◌+◌, ◌++◌, length};
ghost use Rattle.std.specs.Fmt.{decimal};
ghost use Rattle.ct_base.specs.Bytes.{PutAppends};
ghost use Rattle.ct_base.specs.Causes.{HasCause};
ghost use Rattle.ct_tally.specs.Tallies.{tally_line};

use crate::tally::Tally;
use arrayvec::ArrayVec;
use ct_base::{Sink, WriteFault};
use itoa::Buffer;

/// The most bytes of the line: 42 of its words, and 20 of each of its six numbers.
const LINE_BYTES: usize = 162;

/// A buffer for the line.
type LineBuf = ArrayVec<u8, LINE_BYTES>;

/// Writes the line of a tally, by one put. After a fault a prefix of it was written.
///
/// # Errors
///
/// `WriteFault` where the sink failed.
pub fn put_tally<O: Sink>(out: &mut O, tally: &Tally) -> Result<(), WriteFault>
    ensures bytes { PutAppends (O.written out.old) (O.written out.new) result (tally_line tally.now) }
    ensures cause { HasCause (O.faults out.old) (O.faults out.new) result }
{
    let mut line = LineBuf::new();
    push_number(&mut line, b"calls ", tally.counts.calls);
    push_number(&mut line, b" done ", tally.counts.done);
    push_number(&mut line, b" data ", tally.counts.reads);
    push_number(&mut line, b" refused ", tally.counts.refused);
    push_number(&mut line, b" files ", tally.files);
    push_number(&mut line, b" bytes ", tally.bytes);
    line.push(b'\n');
    out.put(line.as_slice())
}

// Puts a word and a number at the end of a line.
fn push_number(line: &mut LineBuf, word: &[u8], number: u64)
    requires { length line.old.items + length word.now + 20 ≤ LINE_BYTES }
    ensures text { line.new.items ≡ line.old.items ++ (word.now ++ decimal number) }
    ensures length { length line.new.items ≤ length line.old.items + length word.now + 20 }
{
    let mut digits = Buffer::new();
    push_bytes(line, word);
    push_bytes(line, digits.format(number).as_bytes());
}

fn push_bytes(line: &mut LineBuf, bytes: &[u8])
    requires { length line.old.items + length bytes.now ≤ LINE_BYTES }
    ensures { line.new.items ≡ line.old.items ++ bytes.now }
{
    match line.try_extend_from_slice(bytes) {
        Ok(()) => {}
        Err(_) => unreachable!(),
    }
}
