// What the words of a line stand for, in one buffer.
ghost use Rattle.std.specs.Prelude.{◌≡◌, ◌+◌, ◌≤◌, ◌⊎◌, length, take, MatchOption, Some, None};
ghost use Rattle.percent_encoding.specs.Percent.{percent_decode};
ghost use Rattle.hex.specs.Hex.{decode_of};
ghost use Rattle.ct_script.specs.Grammar.{if_ok, path_of, bytes_of};
ghost use Rattle.ct_script.specs.declared.scratch.TheConstants.{LINE_BYTES};

use ct_base::NoMemory;
use hex::decode_to_slice;
use percent_encoding::percent_decode;
use std::alloc::Global;

/// The longest line that is a call, in bytes before its byte 10.
pub const LINE_BYTES: usize = 65536;

/// A buffer for the paths and bytes of one call.
#[derive(Drop)]
pub struct Scratch {
    bytes: Vec<u8>,
    ghost long: { length bytes.items ≡ LINE_BYTES },
}

impl Scratch {
    /// Takes memory for the longest line.
    pub fn new(alloc: Global) -> Result<Scratch, NoMemory> {
        match vec![in alloc; 0u8; LINE_BYTES] {
            Ok(bytes) => Ok(Scratch { bytes }),
            Err(_) => Err(NoMemory),
        }
    }

    /// The path that a word is.
    pub(crate) fn path(&mut self, word: &[u8]) -> Option<&[u8]>
        requires { length word.now ≤ LINE_BYTES }
        ensures { MatchOption result (path_of word.now ≡ None) (λ path. path_of word.now ≡ Some path.now) }
    {
        if word.is_empty() {
            return None;
        }
        let count = decode_onto(&mut self.bytes, word);
        Some(&self.bytes[..count])
    }

    /// The paths that two words are.
    pub(crate) fn paths(&mut self, first: &[u8], second: &[u8]) -> Option<(&[u8], &[u8])>
        requires { length first.now + length second.now ≤ LINE_BYTES }
        ensures { MatchOption result ((path_of first.now ≡ None) ⊎ (path_of second.now ≡ None)) (λ r. (path_of first.now ≡ Some r.0.now) × (path_of second.now ≡ Some r.1.now)) }
    {
        if first.is_empty() {
            return None;
        }
        if second.is_empty() {
            return None;
        }
        Some(decode_two(self.bytes.as_mut_slice(), first, second))
    }

    /// The path that a word is, and the bytes that digits stand for.
    pub(crate) fn path_and_bytes(&mut self, word: &[u8], digits: &[u8]) -> Option<(&[u8], &[u8])>
        requires { length word.now + length digits.now ≤ LINE_BYTES }
        ensures { MatchOption result ((path_of word.now ≡ None) ⊎ (bytes_of digits.now ≡ None)) (λ r. (path_of word.now ≡ Some r.0.now) × (bytes_of digits.now ≡ Some r.1.now)) }
    {
        if word.is_empty() {
            return None;
        }
        if digits.is_empty() {
            return None;
        }
        decode_bytes(self.bytes.as_mut_slice(), word, digits)
    }
}

/// Two words, percent-decoded.
fn decode_two<'a>(buffer: &'a mut [u8], first: &[u8], second: &[u8]) -> (&'a [u8], &'a [u8])
    requires { length first.now + length second.now ≤ length buffer.old }
    ensures first { result.0.now ≡ percent_decode first.now }
    ensures second { result.1.now ≡ percent_decode second.now }
{
    let (front, back) = buffer.split_at_mut(first.len());
    let one = decode_onto(front, first);
    let two = decode_onto(back, second);
    (&front[..one], &back[..two])
}

/// A word, percent-decoded, and the bytes that digits stand for.
fn decode_bytes<'a>(
    buffer: &'a mut [u8],
    word: &[u8],
    digits: &[u8],
) -> Option<(&'a [u8], &'a [u8])>
    requires { length word.now + length digits.now ≤ length buffer.old }
    ensures { MatchOption result (if_ok (decode_of digits.now) ≡ None) (λ r. (r.0.now ≡ percent_decode word.now) × (if_ok (decode_of digits.now) ≡ Some r.1.now)) }
{
    let (front, back) = buffer.split_at_mut(word.len());
    let count = decode_onto(front, word);
    let bytes = &mut back[..digits.len() / 2];
    match decode_to_slice(digits, bytes) {
        Ok(()) => Some((&front[..count], bytes)),
        Err(_) => None,
    }
}

/// Decodes a word to the front of a buffer, and answers how many bytes there are.
fn decode_onto(buffer: &mut [u8], word: &[u8]) -> usize
    requires { length word.now ≤ length buffer.old }
    ensures text { take result buffer.new ≡ percent_decode word.now }
    ensures fits { result ≤ length buffer.new }
{
    let mut bytes = percent_decode(word);
    let mut count: usize = 0;
    while let Some(byte) = bytes.next() {
        buffer[count] = byte;
        count += 1;
    }
    count
}
