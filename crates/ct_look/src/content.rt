// The bytes of a file, put into a buffer page by page and word by word.
ghost use Rattle.std.specs.Prelude.{◌≡◌, ◌≢◌, ℕ, ◌+◌, ◌-◌, ◌*◌, ◌/◌, ◌%◌, ◌^◌, ◌<◌, ◌≤◌, length};
ghost use Rattle.ct_base.specs.Settled.{HasPages};
ghost use Rattle.ct_base.specs.Walk.{byte, byte_in};
ghost use Rattle.ct_look.specs.Content.{Fills, byte_of_word};
ghost use Rattle.ct_look.specs.Looks.{IsOnDevice};

use crate::known::page_by;
use ct_base::{ADDRESS_END, PAGE_BYTES, PAGE_WORDS, Vaddr};
use ct_cache::Memory;
use ct_pm::Pm;

// Puts the eight bytes of a word into a buffer.
fn put_word(buf: &mut [u8], place: usize, word: u64)
    requires { place + 8 ≤ length buf.old }
    ensures { Fills buf.old buf.new place 8 (byte_of_word word) }
{
    buf[place..place + 8].copy_from_slice(&word.to_le_bytes());
}

/// Byte `o` of a page.
pub(crate) fn byte_in<D: Pm>(dev: &D, page: u64, o: u64) -> u8
    requires pages { HasPages (D.words dev.now) }
    requires page { IsOnDevice (D.words dev.now) page }
    requires inside { o < PAGE_BYTES }
    ensures { result ≡ byte_in (D.words dev.now) page o }
{
    let word = dev.load(page * PAGE_WORDS + o / 8);
    (word / 256u64.pow((o % 8) as u32) % 256) as u8
}

// Puts bytes of a page into a buffer, one by one.
fn put_bytes<D: Pm>(dev: &D, page: u64, from: u64, buf: &mut [u8], place: usize, count: usize)
    requires pages { HasPages (D.words dev.now) }
    requires page { IsOnDevice (D.words dev.now) page }
    requires inside { from + count ≤ PAGE_BYTES }
    requires room { place + count ≤ length buf.old }
    ensures { Fills buf.old buf.new place count (λ k. byte_in (D.words dev.now) page (from + k)) }
{
    for i in 0..count {
        buf[place + i] = byte_in(dev, page, from + i as u64);
    }
}

// Puts words of a page into a buffer.
fn put_words<D: Pm>(dev: &D, page: u64, first: u64, buf: &mut [u8], place: usize, count: usize)
    requires pages { HasPages (D.words dev.now) }
    requires page { IsOnDevice (D.words dev.now) page }
    requires inside { first + count ≤ PAGE_WORDS }
    requires room { place + 8 * count ≤ length buf.old }
    ensures { Fills buf.old buf.new place (8 * count) (λ k. byte_in (D.words dev.now) page (8 * first + k)) }
{
    for i in 0..count {
        put_word(
            buf,
            place + 8 * i,
            dev.load(page * PAGE_WORDS + first + i as u64),
        );
    }
}

// Puts bytes of a page into a buffer, the whole words among them by words.
fn put_run<D: Pm>(dev: &D, page: u64, from: u64, buf: &mut [u8], place: usize, count: usize)
    requires pages { HasPages (D.words dev.now) }
    requires page { IsOnDevice (D.words dev.now) page }
    requires inside { from + count ≤ PAGE_BYTES }
    requires room { place + count ≤ length buf.old }
    ensures { Fills buf.old buf.new place count (λ k. byte_in (D.words dev.now) page (from + k)) }
{
    let head = count.min(((8 - from % 8) % 8) as usize);
    let words = (count - head) / 8;
    let tail = (count - head) % 8;
    put_bytes(dev, page, from, buf, place, head);
    put_words(
        dev,
        page,
        (from + head as u64) / 8,
        buf,
        place + head,
        words,
    );
    let done = head + 8 * words;
    put_bytes(dev, page, from + done as u64, buf, place + done, tail);
}

// Puts zeros into a buffer.
fn put_zeros(buf: &mut [u8], place: usize, count: usize)
    requires { place + count ≤ length buf.old }
    ensures { Fills buf.old buf.new place count (λ k. 0) }
{
    buf[place..place + count].fill(0);
}

// Puts bytes that lie in one page into a buffer, zeros where there is no page.
fn put_page<D: Pm, M: Memory>(
    dev: &D,
    memory: &M,
    v: Vaddr,
    buf: &mut [u8],
    place: usize,
    count: usize,
)
    requires known { M.agrees memory.now (D.words dev.now) }
    requires pages { HasPages (D.words dev.now) }
    requires inside { v % PAGE_BYTES + count ≤ PAGE_BYTES }
    requires room { place + count ≤ length buf.old }
    ensures { Fills buf.old buf.new place count (λ k. byte (D.words dev.now) (v + k)) }
{
    match page_by(dev, memory, v) {
        Some(page) => put_run(dev, page, v.get() % PAGE_BYTES, buf, place, count),
        None => put_zeros(buf, place, count),
    }
}

/// Puts the bytes from an address on at the front of a buffer.
pub fn put_content<D: Pm, M: Memory>(dev: &D, memory: &M, from: u64, buf: &mut [u8], count: usize)
    requires known { M.agrees memory.now (D.words dev.now) }
    requires pages { HasPages (D.words dev.now) }
    requires high { from + count ≤ ADDRESS_END }
    requires room { count ≤ length buf.old }
    ensures { Fills buf.old buf.new 0 count (λ k. byte (D.words dev.now) (from + k)) }
{
    let mut done: usize = 0;
    'pages: while done < count {
        let here = from + done as u64;
        let more = (count - done).min((PAGE_BYTES - here % PAGE_BYTES) as usize);
        match Vaddr::new(here) {
            Some(v) => put_page(dev, memory, v, buf, done, more),
            None => unreachable!(),
        }
        done += more;
    }
}
