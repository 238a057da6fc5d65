// What staged pages hold: new bytes in a range of addresses, and the old ones around it.
ghost use Rattle.std.specs.Prelude.{◌≡◌, ℕ, ◌+◌, ◌-◌, ◌*◌, ◌/◌, ◌%◌, ◌<◌, ◌≤◌, length, replicate, slice_index, IsTrue};
ghost use Rattle.ct_base.specs.Inode.{little};
ghost use Rattle.ct_base.specs.View.{view};
ghost use Rattle.ct_base.specs.Walk.{AreTables, page_at, word};
ghost use Rattle.ct_stage.specs.Edited.{edited, given_at, AreThere, HasBytes, IsWordOf};
ghost use Rattle.ct_walk.specs.Pages.{some_page};
ghost use Rattle.ct_words.specs.Shown.{shown_word};

use ct_base::{ADDRESS_END, PAGE_BYTES, PAGE_WORDS, PARTITION_SLOT, Page, SLOT_SPAN, Vaddr};
use ct_pm::Pm;
use ct_walk::walk;

/// The words of a page, as the length of an array.
pub(crate) const WORDS: usize = PAGE_WORDS as usize;

/// The word whose eight bytes are 1.
const EACH_BYTE: u64 = 0x0101_0101_0101_0101;

/// New bytes.
#[derive(Clone, Copy, Debug, Drop)]
pub enum Given<'a> {
    /// Each is this one.
    Same(u8),
    /// They stand in this order.
    Listed(&'a [u8]),
}

/// New bytes at the addresses from `from` to `to - 1`; at each other address is what was there.
#[derive(Clone, Copy, Debug, Drop)]
pub struct Edit<'a> {
    pub from: u64,
    pub to: u64,
    pub given: Given<'a>,
}

// The byte at an address, once the edit is made.
fn edited_byte(edit: &Edit, a: u64, old: u8) -> u8
    requires { AreThere edit.now }
    ensures { (b : ℕ → ℕ) → old ≡ b a → result ≡ edited b edit.now a }
{
    if a < edit.from || edit.to <= a {
        return old;
    }
    match edit.given {
        Given::Same(byte) => byte,
        Given::Listed(bytes) => bytes[(a - edit.from) as usize],
    }
}

// The word of eight bytes of a slice.
fn listed_word(bytes: &[u8], at: usize) -> u64
    requires { at + 8 ≤ length bytes.now }
    ensures { result ≡ little (slice_index bytes.now) at 8 }
{
    u64::from_le_bytes([
        bytes[at],
        bytes[at + 1],
        bytes[at + 2],
        bytes[at + 3],
        bytes[at + 4],
        bytes[at + 5],
        bytes[at + 6],
        bytes[at + 7],
    ])
}

// The word of eight new bytes, number `at` and on.
fn given_word(given: &Given, at: u64) -> u64
    requires { HasBytes given.now (at + 8) }
    ensures { result ≡ little (given_at given.now) at 8 }
{
    match *given {
        Given::Same(byte) => byte as u64 * EACH_BYTE,
        Given::Listed(bytes) => listed_word(bytes, at as usize),
    }
}

// The word of the eight bytes from an address on, where the edit ends among them.
fn mixed_word(edit: &Edit, a: u64, old: u64) -> u64
    requires given { AreThere edit.now }
    requires high { a + 8 ≤ ADDRESS_END }
    ensures { (b : ℕ → ℕ) → IsWordOf b a old → result ≡ little (edited b edit.now) a 8 }
{
    let mut bytes = old.to_le_bytes();
    for i in 0..8usize {
        bytes[i] = edited_byte(edit, a + i as u64, bytes[i]);
    }
    u64::from_le_bytes(bytes)
}

// The word of the eight bytes from an address on, once the edit is made.
fn edited_word(edit: &Edit, a: u64, old: u64) -> u64
    requires given { AreThere edit.now }
    requires high { a + 8 ≤ ADDRESS_END }
    ensures { (b : ℕ → ℕ) → IsWordOf b a old → result ≡ little (edited b edit.now) a 8 }
{
    if a + 8 <= edit.from || edit.to <= a {
        return old;
    }
    if edit.from <= a && a + 8 <= edit.to {
        return given_word(&edit.given, a - edit.from);
    }
    mixed_word(edit, a, old)
}

// The words of a page of one byte.
fn same_page(byte: u8) -> [u64; WORDS]
    ensures { result ≡ replicate PAGE_WORDS (byte * 72340172838076673) }
{
    [byte as u64 * EACH_BYTE; WORDS]
}

// The words of a page of bytes of a slice.
fn listed_page(bytes: &[u8], at: usize) -> [u64; WORDS]
    requires { at + PAGE_BYTES ≤ length bytes.now }
    ensures length { length result ≡ PAGE_WORDS }
    ensures words { (k : ℕ) → k < PAGE_WORDS → slice_index result k ≡ little (slice_index bytes.now) (at + 8 * k) 8 }
{
    let mut words = [0; WORDS];
    for k in 0..WORDS {
        words[k] = listed_word(bytes, at + 8 * k);
    }
    words
}

// The words of a page of new bytes, number `at` and on.
fn given_page(given: &Given, at: u64) -> [u64; WORDS]
    requires { HasBytes given.now (at + PAGE_BYTES) }
    ensures length { length result ≡ PAGE_WORDS }
    ensures words { (k : ℕ) → k < PAGE_WORDS → slice_index result k ≡ little (given_at given.now) (at + 8 * k) 8 }
{
    match *given {
        Given::Same(byte) => same_page(byte),
        Given::Listed(bytes) => listed_page(bytes, at as usize),
    }
}

// The page at an address, `None` where there is none.
fn page_of<D: Pm>(dev: &D, at: u64) -> Option<Page>
    requires tables { AreTables (D.words dev.now) }
    requires high { at < ADDRESS_END }
    ensures { result ≡ some_page (page_at (D.words dev.now) 4 (at / PAGE_BYTES)) }
{
    walk(dev, Vaddr::new(at)?)
}

// The words of a page of the device.
fn loaded_page<D: Pm>(dev: &D, page: u64) -> [u64; WORDS]
    requires { page * PAGE_WORDS + PAGE_WORDS ≤ length (D.words dev.now) }
    ensures length { length result ≡ PAGE_WORDS }
    ensures words { (k : ℕ) → k < PAGE_WORDS → slice_index result k ≡ word (D.words dev.now) (page * PAGE_WORDS + k) }
{
    let mut words = [0; WORDS];
    for k in 0..WORDS {
        words[k] = dev.load(page * PAGE_WORDS + k as u64);
    }
    words
}

// The words of the page from an address on: one walk, and one load for each word.
fn old_page<D: Pm>(dev: &D, at: u64) -> [u64; WORDS]
    requires tables { AreTables (D.words dev.now) }
    requires high { at + PAGE_BYTES ≤ ADDRESS_END }
    requires aligned { at % PAGE_BYTES ≡ 0 }
    ensures length { length result ≡ PAGE_WORDS }
    ensures words { (k : ℕ) → k < PAGE_WORDS → slice_index result k ≡ shown_word (D.words dev.now) (at + 8 * k) }
{
    match page_of(dev, at) {
        Some(page) => loaded_page(dev, page.number()),
        None => [0; WORDS],
    }
}

// The words of a page in which the edit may end.
fn mixed_page<D: Pm>(dev: &D, edit: &Edit, at: u64) -> [u64; WORDS]
    requires tables { AreTables (D.words dev.now) }
    requires given { AreThere edit.now }
    requires low { PARTITION_SLOT * SLOT_SPAN ≤ at }
    requires high { at + PAGE_BYTES ≤ ADDRESS_END }
    requires aligned { at % PAGE_BYTES ≡ 0 }
    ensures length { length result ≡ PAGE_WORDS }
    ensures words { (k : ℕ) → k < PAGE_WORDS → slice_index result k ≡ little (edited (view (D.words dev.now)) edit.now) (at + 8 * k) 8 }
{
    let mut words = old_page(dev, at);
    for k in 0..WORDS {
        words[k] = edited_word(edit, at + 8 * k as u64, words[k]);
    }
    words
}

/// The words of the page from an address on, once the edit is made.
pub fn edited_page<D: Pm>(dev: &D, edit: &Edit, at: u64) -> [u64; WORDS]
    requires tables { AreTables (D.words dev.now) }
    requires given { AreThere edit.now }
    requires low { PARTITION_SLOT * SLOT_SPAN ≤ at }
    requires high { at + PAGE_BYTES ≤ ADDRESS_END }
    requires aligned { at % PAGE_BYTES ≡ 0 }
    ensures length { length result ≡ PAGE_WORDS }
    ensures words { (k : ℕ) → k < PAGE_WORDS → slice_index result k ≡ little (edited (view (D.words dev.now)) edit.now) (at + 8 * k) 8 }
{
    if edit.from <= at && at + PAGE_BYTES <= edit.to {
        return given_page(&edit.given, at - edit.from);
    }
    mixed_page(dev, edit, at)
}

// Whether the page from an address on has the words of the one before it, since one byte fills both.
fn repeats(edit: &Edit, at: u64) -> bool
    requires low { PAGE_BYTES ≤ at }
    requires high { at + PAGE_BYTES ≤ ADDRESS_END }
    ensures { IsTrue result → (b : ℕ → ℕ) → (k : ℕ) → k < PAGE_WORDS → little (edited b edit.now) (at - PAGE_BYTES + 8 * k) 8 ≡ little (edited b edit.now) (at + 8 * k) 8 }
{
    if at - PAGE_BYTES < edit.from || edit.to < at + PAGE_BYTES {
        return false;
    }
    match edit.given {
        Given::Same(_) => true,
        Given::Listed(_) => false,
    }
}

/// Makes the words of the page from an address on, once the edit is made, of those of the page before it: where one byte
/// fills both they stay. The first page of all is at `start`.
pub(crate) fn turn_page<D: Pm>(dev: &D, edit: &Edit, start: u64, at: u64, words: &mut [u64; WORDS])
    requires tables { AreTables (D.words dev.now) }
    requires given { AreThere edit.now }
    requires low { PARTITION_SLOT * SLOT_SPAN ≤ at }
    requires high { at + PAGE_BYTES ≤ ADDRESS_END }
    requires aligned { at % PAGE_BYTES ≡ 0 }
    requires before { start < at → (k : ℕ) → k < PAGE_WORDS → slice_index words.old k ≡ little (edited (view (D.words dev.now)) edit.now) (at - PAGE_BYTES + 8 * k) 8 }
    ensures { (k : ℕ) → k < PAGE_WORDS → slice_index words.new k ≡ little (edited (view (D.words dev.now)) edit.now) (at + 8 * k) 8 }
{
    if start < at && repeats(edit, at) {
        return;
    }
    *words = edited_page(dev, edit, at);
}
