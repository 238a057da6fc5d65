// Lines that are put together before they are written.
ghost use Rattle.std.specs.Prelude.{◌≡◌, ◌≤◌, ◌+◌, ◌++◌, length};
ghost use Rattle.std.specs.Fmt.{decimal};

use arrayvec::ArrayVec;
use itoa::Buffer;

/// The most bytes of a text that is written at once.
pub const TEXT_BYTES: usize = 1024;

/// A buffer for a text.
pub type TextBuf = ArrayVec<u8, TEXT_BYTES>;

/// Puts bytes at the end of a text.
pub fn push_bytes(text: &mut TextBuf, bytes: &[u8])
    requires { length text.old.items + length bytes.now ≤ TEXT_BYTES }
    ensures { text.new.items ≡ text.old.items ++ bytes.now }
{
    match text.try_extend_from_slice(bytes) {
        Ok(()) => {}
        Err(_) => unreachable!(),
    }
}

/// Puts words and a number at the end of a text.
pub fn push_number(text: &mut TextBuf, words: &[u8], number: u64)
    requires { length text.old.items + length words.now + 20 ≤ TEXT_BYTES }
    ensures text { text.new.items ≡ text.old.items ++ (words.now ++ decimal number) }
    ensures length { length text.new.items ≤ length text.old.items + length words.now + 20 }
{
    let mut digits = Buffer::new();
    push_bytes(text, words);
    push_bytes(text, digits.format(number).as_bytes());
}
