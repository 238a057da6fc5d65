// A slot, and what its words say.
ghost use Rattle.std.specs.Prelude.{◌≡◌, ◌+◌, ◌*◌, ◌/◌, ◌%◌, ◌^◌, ◌<◌, ◌≤◌, ◌↔◌, ◌++◌, IsTrue, ℕ, length as length_of, slice_index};
ghost use Rattle.std.specs.Ordering.{nat_cmp, ordering_then};
ghost use Rattle.ct_base.specs.Slots.{bytes_from};
ghost use Rattle.ct_base.specs.Walk.{word};
ghost use Rattle.arrayvec.specs.ArrayVec.{array_vec_len};
ghost use Rattle.ct_dir.specs.Keys.{IsSpelled, byte_of, name_byte, word_after, words_cmp};

use crate::lookup::Found;
use crate::names::{Key, NAME_WORDS};
use ct_base::{ENTRY_BYTES, ENTRY_WORDS, NAME_BYTES, NameBuf, PAGE_BYTES, PAGE_WORDS, Page};
use ct_pm::Pm;
use std::cmp::Ordering;

/// A slot that was met, with its first word.
#[derive(Clone, Copy, Debug)]
pub struct Slot {
    /// The offset in the directory.
    pub offset: u64,

    /// The device word of its first word.
    pub place: u64,

    /// Its first word: the inode, and above it the length of the name.
    pub head: u64,
}

impl Slot {
    /// The slot in a page at an offset of the directory.
    pub fn read<D: Pm>(dev: &D, page: Page, offset: u64) -> Slot
        requires there { page * PAGE_WORDS + PAGE_WORDS ≤ length_of (D.words dev.now) }
        requires aligned { offset % ENTRY_BYTES ≡ 0 }
        ensures offset { result.offset ≡ offset }
        ensures place { result.place ≡ page * PAGE_WORDS + offset % PAGE_BYTES / 8 }
        ensures head { result.head ≡ word (D.words dev.now) result.place }
    {
        let place = page.number() * PAGE_WORDS + offset % PAGE_BYTES / 8;
        Slot {
            offset,
            place,
            head: dev.load(place),
        }
    }

    /// The entry of a slot that is used.
    pub fn found(self) -> Found
        ensures offset { result.offset ≡ self.offset }
        ensures inode { result.inode ≡ self.head % 2 ^ 32 }
    {
        Found {
            offset: self.offset,
            inode: self.head % (1 << 32),
        }
    }

    /// The length of its name.
    fn length(self) -> u64
        ensures value { result ≡ self.head / 2 ^ 32 }
        ensures bound { result < 2 ^ 32 }
    {
        self.head / (1 << 32)
    }

    /// Whether the slot has a name, by its length and as many words as that asks for.
    pub fn has_name<D: Pm>(self, dev: &D, key: &Key) -> bool
        requires inside { self.place + ENTRY_WORDS ≤ length_of (D.words dev.now) }
        requires short { key.now.length ≤ NAME_BYTES }
        ensures { IsTrue result ↔ IsSpelled (D.words dev.now) self key.now }
    {
        if self.length() != key.length {
            return false;
        }
        for k in 0..key.length.div_ceil(8) as usize {
            if dev.load(self.place + 1 + k as u64) != key.words[k] {
                return false;
            }
        }
        true
    }

    /// The slot's name against another: the words decide in byte order, and where all are the same the length does.
    pub fn compare<D: Pm>(self, dev: &D, key: &Key) -> Ordering
        requires inside { self.place + ENTRY_WORDS ≤ length_of (D.words dev.now) }
        ensures { result ≡ ordering_then (words_cmp (word_after (D.words dev.now) self) (slice_index key.now.words) 0 NAME_WORDS) (nat_cmp (self.head / 2 ^ 32) key.now.length) }
    {
        for k in 0..NAME_WORDS {
            let word = dev.load(self.place + 1 + k as u64).swap_bytes();
            match word.cmp(&key.words[k].swap_bytes()) {
                Ordering::Equal => {}
                order => return order,
            }
        }
        self.length().cmp(&key.length)
    }

    /// The slot's name, to compare others with it.
    pub fn key<D: Pm>(self, dev: &D) -> Key
        requires inside { self.place + ENTRY_WORDS ≤ length_of (D.words dev.now) }
        ensures size { length_of result.words ≡ NAME_WORDS }
        ensures words { (k : ℕ) → k < NAME_WORDS → slice_index result.words k ≡ word_after (D.words dev.now) self k }
        ensures length { result.length ≡ self.head / 2 ^ 32 }
    {
        let mut words = [0; NAME_WORDS];
        for k in 0..NAME_WORDS {
            words[k] = dev.load(self.place + 1 + k as u64);
        }
        Key {
            words,
            length: self.length(),
        }
    }

    /// The slot's name.
    pub fn name<D: Pm>(self, dev: &D) -> NameBuf
        requires inside { self.place + ENTRY_WORDS ≤ length_of (D.words dev.now) }
        requires short { self.head / 2 ^ 32 ≤ NAME_BYTES }
        ensures { result.items ≡ bytes_from (name_byte (D.words dev.now) self) 0 (self.head / 2 ^ 32) }
    {
        let length = self.length() as usize;
        let mut name = NameBuf::new();
        for k in 0..length.div_ceil(8) {
            let word = dev.load(self.place + 1 + k as u64);
            push_bytes(&mut name, word, (length - 8 * k).min(8));
        }
        name
    }
}

/// Appends the first bytes of a word, the lowest first.
fn push_bytes(name: &mut NameBuf, word: u64, count: usize)
    requires few { count ≤ 8 }
    requires room { array_vec_len name.old + count ≤ NAME_BYTES }
    ensures { name.new.items ≡ name.old.items ++ bytes_from (byte_of word) 0 count }
{
    let bytes = word.to_le_bytes();
    for i in 0..count {
        name.push(bytes[i]);
    }
}
