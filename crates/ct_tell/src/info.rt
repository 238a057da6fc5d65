// What an image is.
ghost use Rattle.std.specs.Prelude.{◌≡◌, ◌≤◌, IfOk, length, slice_index};
ghost use Rattle.ct_base.specs.Head.{HasHead};
ghost use Rattle.ct_base.specs.Settled.{open_pairs};
ghost use Rattle.ct_mount.specs.Mounting.{IsFirst};
ghost use Rattle.ct_tell.specs.Ends.{EndsAs, HasCause};
ghost use Rattle.ct_tell.specs.Looks.{info};
ghost use Rattle.ct_tell.specs.Texts.{head_line, held_line, info_text, record_line, state_text, words_line};
ghost use Rattle.ct_tell.specs.Told.{IsInfo, IsState, state_status};

use crate::copy::mounted_copy;
use crate::held::{Counts, count_inodes};
use crate::rules::push_rule;
use crate::status::Status;
use crate::text::{TextBuf, push_bytes, push_number};
use ct_base::{LONG_GATE, NoMemory, PAGE_WORDS, SHORT_GATE, Sink};
use ct_call::Mounted;
use ct_check::CheckFault;
use ct_pm::Pm;
use std::alloc::Global;

/// What an image is: the counts of its first page, and what stands beside them.
#[derive(Clone, Copy, Debug, PartialEq, Eq)]
pub struct Info {
    pub version: u64,
    pub pages: u64,
    pub inodes: u64,
    pub state: State,
}

/// Whether an image is one.
#[derive(Clone, Copy, Debug, PartialEq, Eq)]
pub enum State {
    /// One of mount rules 0 to 7 fails. Its first word and both gates are told as they are.
    Headless {
        magic: u64,
        long: u64,
        short: u64,
        rule: u32,
    },

    /// Another fails. The record has so many pairs that are open.
    Damaged {
        pairs: u64,
        rule: u32,
    },

    /// None fails.
    Sound {
        pairs: u64,
        counts: Counts,
        free: u64,
    },
}

// A word of a device, 0 past its end.
fn word_of<D: Pm>(dev: &D, word: u64) -> u64
    ensures { result ≡ slice_index (D.words dev.now) word }
{
    if word / PAGE_WORDS < dev.pages() {
        dev.load(word)
    } else {
        0
    }
}

// How many pairs the open record has, 0 where none is open.
fn pairs_of<D: Pm>(dev: &D) -> u64
    requires { HasHead (D.words dev.now) }
    ensures { result ≡ length (open_pairs (D.words dev.now)) }
{
    let long = dev.load(LONG_GATE);
    if long == 0 {
        return dev.load(SHORT_GATE);
    }
    long
}

// What stands beside the counts of an image on which a rule fails.
fn damage_of<D: Pm>(image: &D, rule: u32) -> State
    requires { IsFirst (D.words image.now) rule }
    ensures { IsState (D.words image.now) result }
{
    if rule < 8 {
        return State::Headless {
            magic: word_of(image, 0),
            long: word_of(image, LONG_GATE),
            short: word_of(image, SHORT_GATE),
            rule,
        };
    }
    State::Damaged {
        pairs: pairs_of(image),
        rule,
    }
}

// What stands beside the counts.
fn state_of<D: Pm>(alloc: Global, image: &D) -> Result<State, NoMemory>
    ensures { IfOk result (IsState (D.words image.now)) }
{
    let mounted = match mounted_copy(alloc, image) {
        Ok(mounted) => mounted,
        Err(CheckFault::Damage(rule)) => return Ok(damage_of(image, rule)),
        Err(CheckFault::Memory) => return Err(NoMemory),
    };
    let Mounted { dev, frames } = mounted;
    Ok(State::Sound {
        pairs: pairs_of(image),
        counts: count_inodes(&dev),
        free: frames.free(),
    })
}

// What an image is.
fn info_of<D: Pm>(alloc: Global, image: &D) -> Result<Info, NoMemory>
    ensures { IfOk result (IsInfo (D.words image.now)) }
{
    match state_of(alloc, image) {
        Ok(state) => Ok(Info {
            version: word_of(image, 1),
            pages: word_of(image, 2),
            inodes: word_of(image, 3),
            state,
        }),
        Err(fault) => Err(fault),
    }
}

// How a look at an image ends that is so.
fn state_status(state: State) -> Status
    ensures { result ≡ state_status state }
{
    match state {
        State::Headless {
            magic: _,
            long: _,
            short: _,
            rule,
        } => Status::NotImage(rule),
        State::Damaged { pairs: _, rule } => Status::NotImage(rule),
        State::Sound {
            pairs: _,
            counts: _,
            free: _,
        } => Status::Done,
    }
}

/// Writes what an image is.
pub fn put_info<D: Pm, O: Sink>(alloc: Global, image: &D, out: &mut O) -> Status
    ensures ends { EndsAs info (D.words image.now) result (O.written out.old) (O.written out.new) }
    ensures cause { HasCause result (O.faults out.old) (O.faults out.new) }
{
    let Ok(info) = info_of(alloc, image) else {
        return Status::NoMemory;
    };
    match out.put(info_text(&info).as_slice()) {
        Ok(()) => state_status(info.state),
        Err(_) => Status::WriteFault,
    }
}

// The text of an image.
fn info_text(info: &Info) -> TextBuf
    ensures { result.items ≡ info_text info.now }
{
    let mut text = head_line(info);
    push_bytes(&mut text, state_text(info.state).as_slice());
    text
}

// The line of the counts of the first page.
fn head_line(info: &Info) -> TextBuf
    ensures text { result.items ≡ head_line info.now }
    ensures short { length result.items ≤ 128 }
{
    let mut line = TextBuf::new();
    push_number(&mut line, b"version ", info.version);
    push_number(&mut line, b", pages ", info.pages);
    push_number(&mut line, b", inodes ", info.inodes);
    push_bytes(&mut line, b"\n");
    line
}

// The text of what stands beside the counts.
fn state_text(state: State) -> TextBuf
    ensures text { result.items ≡ state_text state }
    ensures short { length result.items ≤ 320 }
{
    match state {
        State::Headless {
            magic,
            long,
            short,
            rule,
        } => {
            let mut text = words_line(magic, long, short);
            push_rule(&mut text, rule);
            text
        }
        State::Damaged { pairs, rule } => {
            let mut text = record_line(pairs);
            push_rule(&mut text, rule);
            text
        }
        State::Sound {
            pairs,
            counts,
            free,
        } => {
            let mut text = record_line(pairs);
            push_bytes(&mut text, held_line(counts, free).as_slice());
            push_bytes(&mut text, b"sound\n");
            text
        }
    }
}

// The line of the words of a head that is not lawful.
fn words_line(magic: u64, long: u64, short: u64) -> TextBuf
    ensures text { result.items ≡ words_line magic long short }
    ensures short { length result.items ≤ 128 }
{
    let mut line = TextBuf::new();
    push_number(&mut line, b"first word ", magic);
    push_number(&mut line, b", gates ", long);
    push_number(&mut line, b" and ", short);
    push_bytes(&mut line, b"\n");
    line
}

// The line of the record.
fn record_line(pairs: u64) -> TextBuf
    ensures text { result.items ≡ record_line pairs }
    ensures short { length result.items ≤ 128 }
{
    let mut line = TextBuf::new();
    if pairs == 0 {
        push_bytes(&mut line, b"record closed\n");
        return line;
    }
    push_number(&mut line, b"record open, pairs ", pairs);
    push_bytes(
        &mut line,
        b": a call was cut off, and the next run completes it\n",
    );
    line
}

// The line of what a tree holds.
fn held_line(counts: Counts, free: u64) -> TextBuf
    ensures text { result.items ≡ held_line counts free }
    ensures short { length result.items ≤ 160 }
{
    let mut line = TextBuf::new();
    push_number(&mut line, b"files ", counts.files);
    push_number(&mut line, b", directories ", counts.directories);
    push_number(&mut line, b", bytes ", counts.bytes);
    push_number(&mut line, b", free pages ", free);
    push_bytes(&mut line, b"\n");
    line
}
