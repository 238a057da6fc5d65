// Mount rule 15: the words of root slot 1 are the headers of the partitions. Each word that is not 0 agrees with the byte above
// it and with the words below it, the partitions are shown live, and no other range is.
ghost use Rattle.std.specs.Prelude.{◌≡◌, ◌≢◌, ◌↔◌, ℕ, ◌+◌, ◌-◌, ◌*◌, ◌/◌, ◌%◌, ◌^◌, ◌<◌, ◌≤◌, length, slice_index_or, Contains, IsTrue, true, IfOk, IfSome, IfNone};
ghost use Rattle.std.specs.List.Sorted.{IsNonDecreasingBy};
ghost use Rattle.ct_base.specs.Headers.{is_one};
ghost use Rattle.ct_base.specs.Rules.{AreHeaders, ArePartsApart, ArePlaced};
ghost use Rattle.ct_base.specs.View.{inode_count, view};
ghost use Rattle.ct_base.specs.Walk.{AreTables, page_count};
ghost use Rattle.ct_placing.specs.declared.extent.Extent.{Extent};
ghost use Rattle.ct_placing.specs.Extents.{AreExtents, EndsAt};
ghost use Rattle.ct_placing.specs.Heading.{AreHeaderWords, IsHeader, IsPartShown, IsRightBelow, IsRightByte, IsRightChild, IsRightHeader, byte_of as byte_in, parts_of, word_of};

use crate::extent::Extent;
use crate::extents::sorted_extents;
use crate::header::{TOP, byte_of, header, range_at};
use crate::inodes::bytes_of;
use crate::zeros::zero_up_to;
use ct_base::{
    MOST_INODES, NoMemory, PAGE_BYTES, PARTITION_SLOT, SLOT_SPAN, TABLE_ENTRIES, TOP_LEVEL,
};
use ct_header::summary_of;
use ct_inode::get;
use ct_pm::Pm;
use ct_words::load_word;
use std::alloc::Global;

/// The byte of a range that is live.
const LIVE: u8 = 16;

/// The byte of a root slot that holds no partition.
const OWN: u8 = 48;

/// The address past root slot 1.
const PAST: u64 = 2 * SLOT_SPAN;

/// Where the extent with a base ends, `None` where there is none.
fn end_of(extents: &Vec<Extent>, base: u64) -> Option<u64>
    requires sorted { IsNonDecreasingBy (λ e. e.base) extents.now.items }
    ensures some { IfSome result (λ end. EndsAt extents.now.items base end) }
    ensures none { IfNone result ((e : Extent) → Contains extents.now.items e → e.base ≢ base) }
{
    match extents.binary_search_by_key(&base, |e| e.base) {
        Ok(at) => Some(extents[at].end),
        Err(_) => None,
    }
}

/// Whether a range is the partition of a live inode.
fn is_part<D: Pm>(dev: &D, extents: &Vec<Extent>, level: u32, number: u64) -> bool
    requires level { level ≤ TOP_LEVEL }
    requires number { number < TABLE_ENTRIES * 8 ^ (TOP_LEVEL - level) }
    requires apart { ArePartsApart (view (D.words dev.now)) (inode_count (D.words dev.now)) }
    requires extents { AreExtents (view (D.words dev.now)) (inode_count (D.words dev.now)) extents.now.items }
    requires sorted { IsNonDecreasingBy (λ e. e.base) extents.now.items }
    ensures { IsTrue result ↔ (is_one (parts_of (D.words dev.now)) level number ≡ true) }
{
    let bytes = bytes_of(level as u64);
    let base = number * bytes;
    match end_of(extents, base) {
        Some(end) => end == base + bytes,
        None => false,
    }
}

/// Whether the byte of a range agrees with the word of its children.
fn is_right_byte<D: Pm>(dev: &D, level: u32, number: u64) -> bool
    requires tables { AreTables (D.words dev.now) }
    requires level { level ≤ TOP_LEVEL }
    requires number { number < TABLE_ENTRIES * 8 ^ (TOP_LEVEL - level) }
    ensures { IsTrue result ↔ IsRightByte (word_of (D.words dev.now)) level number }
{
    let byte = byte_of(dev, level, number);
    if level == 0 {
        return byte == 0 || byte == LIVE;
    }
    let word = header(dev, level, number);
    if byte == LIVE {
        return word == 0;
    }
    if level == TOP && number < PARTITION_SLOT {
        return true;
    }
    byte == summary_of(&word.to_le_bytes(), level - 1)
}

/// The same, and whether the range is a partition where the byte says so.
fn is_right_child<D: Pm>(dev: &D, extents: &Vec<Extent>, level: u32, number: u64) -> bool
    requires tables { AreTables (D.words dev.now) }
    requires level { level ≤ TOP_LEVEL }
    requires number { number < TABLE_ENTRIES * 8 ^ (TOP_LEVEL - level) }
    requires apart { ArePartsApart (view (D.words dev.now)) (inode_count (D.words dev.now)) }
    requires extents { AreExtents (view (D.words dev.now)) (inode_count (D.words dev.now)) extents.now.items }
    requires sorted { IsNonDecreasingBy (λ e. e.base) extents.now.items }
    ensures { IsTrue result ↔ IsRightChild (word_of (D.words dev.now)) (parts_of (D.words dev.now)) level number }
{
    if byte_of(dev, level, number) == LIVE && !is_part(dev, extents, level, number) {
        return false;
    }
    is_right_byte(dev, level, number)
}

/// Whether the word above eight ranges agrees with the byte above it.
fn is_right_below<D: Pm>(dev: &D, level: u32, number: u64) -> bool
    requires tables { AreTables (D.words dev.now) }
    requires level { level ≤ TOP_LEVEL }
    requires number { number < 64 * 8 ^ (TOP_LEVEL - level) }
    ensures { IsTrue result ↔ IsRightBelow (word_of (D.words dev.now)) level number }
{
    if level == TOP - 1 && number < PARTITION_SLOT {
        return false;
    }
    if level == TOP {
        return true;
    }
    let word = header(dev, level + 1, number);
    byte_of(dev, level + 1, number) == summary_of(&word.to_le_bytes(), level)
}

/// Whether the word above eight ranges agrees with what stands above and below it.
fn is_right_header<D: Pm>(dev: &D, extents: &Vec<Extent>, level: u32, number: u64) -> bool
    requires tables { AreTables (D.words dev.now) }
    requires level { level ≤ TOP_LEVEL }
    requires number { number < 64 * 8 ^ (TOP_LEVEL - level) }
    requires apart { ArePartsApart (view (D.words dev.now)) (inode_count (D.words dev.now)) }
    requires extents { AreExtents (view (D.words dev.now)) (inode_count (D.words dev.now)) extents.now.items }
    requires sorted { IsNonDecreasingBy (λ e. e.base) extents.now.items }
    ensures { IsTrue result ↔ IsRightHeader (word_of (D.words dev.now)) (parts_of (D.words dev.now)) level number }
{
    for child in 8 * number..8 * number + 8 {
        if !is_right_child(dev, extents, level, child) {
            return false;
        }
    }
    is_right_below(dev, level, number)
}

/// Whether the word at an address of root slot 1 is 0, or a header word that is right.
fn is_right_word<D: Pm>(dev: &D, extents: &Vec<Extent>, address: u64) -> bool
    requires tables { AreTables (D.words dev.now) }
    requires aligned { address % 8 ≡ 0 }
    requires first { SLOT_SPAN ≤ address }
    requires last { address < 2 * SLOT_SPAN }
    requires apart { ArePartsApart (view (D.words dev.now)) (inode_count (D.words dev.now)) }
    requires extents { AreExtents (view (D.words dev.now)) (inode_count (D.words dev.now)) extents.now.items }
    requires sorted { IsNonDecreasingBy (λ e. e.base) extents.now.items }
    ensures { IsTrue result ↔ (word_of (D.words dev.now) address ≢ 0 → IsHeader (word_of (D.words dev.now)) (parts_of (D.words dev.now)) address) }
{
    if load_word(dev, address) == 0 {
        return true;
    }
    match range_at(address) {
        Some(range) => is_right_header(dev, extents, range.0, range.1),
        None => false,
    }
}

/// An address up to which the words from one on are right, as far as one look tells; `None` where the word there is not.
fn right_up_to<D: Pm>(dev: &D, extents: &Vec<Extent>, address: u64) -> Option<u64>
    requires tables { AreTables (D.words dev.now) }
    requires aligned { address % 8 ≡ 0 }
    requires first { SLOT_SPAN ≤ address }
    requires last { address < 2 * SLOT_SPAN }
    requires apart { ArePartsApart (view (D.words dev.now)) (inode_count (D.words dev.now)) }
    requires extents { AreExtents (view (D.words dev.now)) (inode_count (D.words dev.now)) extents.now.items }
    requires sorted { IsNonDecreasingBy (λ e. e.base) extents.now.items }
    ensures next { IfSome result (λ e. (address < e) × (e ≤ 2 * SLOT_SPAN) × (e % 8 ≡ 0)) }
    ensures right { IfSome result (λ e. AreHeaderWords (word_of (D.words dev.now)) (parts_of (D.words dev.now)) address e) }
    ensures none { IfNone result (AreHeaderWords (word_of (D.words dev.now)) (parts_of (D.words dev.now)) SLOT_SPAN (2 * SLOT_SPAN) → ⊥) }
{
    if address % PAGE_BYTES == 0 {
        if let Some(end) = zero_up_to(dev, address, PAST) {
            return Some(end);
        }
    }
    if is_right_word(dev, extents, address) {
        Some(address + 8)
    } else {
        None
    }
}

/// Whether each word of root slot 1 is 0, or a header word that is right.
///
/// Its time grows with the words that are mapped there: one load for each word of a page of zeros.
fn are_right_words<D: Pm>(dev: &D, extents: &Vec<Extent>) -> bool
    requires tables { AreTables (D.words dev.now) }
    requires apart { ArePartsApart (view (D.words dev.now)) (inode_count (D.words dev.now)) }
    requires extents { AreExtents (view (D.words dev.now)) (inode_count (D.words dev.now)) extents.now.items }
    requires sorted { IsNonDecreasingBy (λ e. e.base) extents.now.items }
    ensures { IsTrue result ↔ AreHeaderWords (word_of (D.words dev.now)) (parts_of (D.words dev.now)) SLOT_SPAN (2 * SLOT_SPAN) }
{
    let mut address = SLOT_SPAN;
    while address < PAST {
        match right_up_to(dev, extents, address) {
            Some(next) => address = next,
            None => return false,
        }
    }
    true
}

/// Whether the root slots that hold no partition are shown so.
fn are_slots_shown<D: Pm>(dev: &D) -> bool
    requires tables { AreTables (D.words dev.now) }
    ensures { IsTrue result ↔ ((j : ℕ) → j < PARTITION_SLOT → byte_in (D.words dev.now) TOP_LEVEL j ≡ OWN) }
{
    for slot in 0..PARTITION_SLOT {
        if byte_of(dev, TOP, slot) != OWN {
            return false;
        }
    }
    true
}

/// Whether the byte of an inode's partition shows it live.
fn is_part_shown<D: Pm>(dev: &D, n: u64) -> bool
    requires tables { AreTables (D.words dev.now) }
    requires from { 1 ≤ n }
    requires to { n ≤ inode_count (D.words dev.now) }
    requires few { inode_count (D.words dev.now) ≤ MOST_INODES }
    requires placed { ArePlaced (view (D.words dev.now)) (inode_count (D.words dev.now)) }
    ensures { IsTrue result ↔ IsPartShown (D.words dev.now) n }
{
    let f = get(dev, n);
    if f.kind == 0 || f.level > TOP_LEVEL {
        return true;
    }
    byte_of(dev, f.level as u32, f.base / bytes_of(f.level)) == LIVE
}

/// Whether the bytes of the live inodes' partitions show these live.
fn are_parts_shown<D: Pm>(dev: &D) -> bool
    requires tables { AreTables (D.words dev.now) }
    requires few { inode_count (D.words dev.now) ≤ MOST_INODES }
    requires placed { ArePlaced (view (D.words dev.now)) (inode_count (D.words dev.now)) }
    ensures { IsTrue result ↔ ((i : ℕ) → 1 ≤ i → i ≤ inode_count (D.words dev.now) → IsPartShown (D.words dev.now) i) }
{
    for n in 1..dev.load(3) + 1 {
        if !is_part_shown(dev, n) {
            return false;
        }
    }
    true
}

/// Mount rule 15.
pub fn are_headers<D: Pm>(alloc: Global, dev: &D) -> Result<bool, NoMemory>
    requires tables { AreTables (D.words dev.now) }
    requires few { inode_count (D.words dev.now) ≤ MOST_INODES }
    requires placed { ArePlaced (view (D.words dev.now)) (inode_count (D.words dev.now)) }
    requires apart { ArePartsApart (view (D.words dev.now)) (inode_count (D.words dev.now)) }
    ensures { IfOk result (λ ok. IsTrue ok ↔ AreHeaders (view (D.words dev.now)) (inode_count (D.words dev.now))) }
{
    let extents = sorted_extents(alloc, dev)?;
    if !are_slots_shown(dev) {
        return Ok(false);
    }
    if !are_parts_shown(dev) {
        return Ok(false);
    }
    Ok(are_right_words(dev, &extents))
}
