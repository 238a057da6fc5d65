// The statuses in words, for C.
ghost use Rattle.std.specs.Prelude.{◌≡◌, ◌≤◌, ◌++◌, drop, length, min, take};
ghost use Rattle.msa.specs.Texts.{TellsText, call_text, text_of};

use crate::codes::DAMAGE;
use crate::names::put_front;

/// The last mount rule.
const LAST_RULE: u32 = 20;

// What the number of a call's answer says.
fn call_words(status: u32) -> &'static [u8]
    ensures { result.now ≡ call_text status }
{
    match status {
        0 => b"ok",
        1 => b"bad path",
        2 => b"not found",
        3 => b"not a directory",
        4 => b"is a directory",
        5 => b"exists",
        6 => b"not empty",
        7 => b"into itself",
        8 => b"is the root",
        9 => b"too big",
        10 => b"bad range",
        11 => b"overlap",
        12 => b"too long",
        13 => b"no inode",
        14 => b"no partition",
        15 => b"no pages",
        64 => b"the medium failed, or memory for it ran out",
        65 => b"an earlier call met a fault",
        66 => b"the file cannot be read",
        67 => b"no memory",
        68 => b"the file is locked",
        69 => b"not open",
        70 => b"open already",
        71 => b"an argument is out of its range",
        _ => b"unknown status",
    }
}

// What a status says.
fn in_words(status: u32) -> &'static [u8]
    ensures { result.now ≡ text_of status }
{
    if status < DAMAGE {
        return call_words(status);
    }
    if status - DAMAGE > LAST_RULE {
        return b"unknown status";
    }
    b"no image, or a damaged one"
}

/// Puts a status in words at the front of a buffer, as much as fits, and tells how long they are.
#[unsafe(no_mangle)]
pub extern "C" fn msa_text(status: u32, text: &mut [u8]) -> usize
    ensures { TellsText (text_of status) text.old text.new result }
{
    let words = in_words(status);
    let count = words.len().min(text.len());
    put_front(&words[..count], text);
    words.len()
}
