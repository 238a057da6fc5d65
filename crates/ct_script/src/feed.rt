// Lines of an input, one after another, in a buffer of one line.
ghost use Rattle.std.specs.Prelude.{◌≡◌, ◌≢◌, ◌+◌, ◌-◌, ◌<◌, ◌≤◌, ◌⊎◌, ◌++◌, [], ◌∷◌, true, false, List, length, take, drop, Err, IfOk, MatchOption, MatchResult, IsTrue, nat_lt, if◌then◌else◌};
ghost use Rattle.std.specs.Io.KnownBytes.{Consumes, IsAtEnd, Keeps};
ghost use Rattle.std.specs.Vec.{vec_len};
ghost use Rattle.ct_base.specs.Causes.{HasCause, Rose};
ghost use Rattle.ct_script.specs.Feed.{Advances, Fills, IsUnended, MakesRoom, TakesLine, last_next, unasked};
ghost use Rattle.ct_script.specs.declared.scratch.TheConstants.{LINE_BYTES};

use crate::scratch::LINE_BYTES;
use ct_base::{NoMemory, ReadFault, Source};
use memchr::memchr;
use std::alloc::Global;
use std::marker::Model;

/// The longest script, in bytes.
pub const SCRIPT_BYTES: usize = 16_777_216;

/// The longest line, with its byte 10.
const BUFFER_BYTES: usize = LINE_BYTES + 1;

/// Why no line came.
#[derive(Clone, Copy, Debug, PartialEq, Eq)]
pub enum ReadEnd {
    /// The input failed.
    Fault,

    /// It gave more than 16,777,216 bytes.
    TooLong,
}

/// What an input has next.
#[derive(Clone, Copy, Debug, PartialEq, Eq)]
pub enum Next {
    /// A line of at most 65,536 bytes, which the feed holds until it goes on.
    Line,

    /// A longer line, which was passed over.
    Overlong,

    /// No line: the input has ended.
    End,
}

/// The lines of an input, one after another. A line is found as soon as its byte 10 has come, before more is asked of the input.
#[derive(Drop)]
pub struct Feed {
    buffer: Vec<u8>,

    // where the line that was found last stands in the buffer
    line_begin: usize,
    line_len: usize,

    // where the bytes stand that came and are in no line yet, and how many of them were searched for a byte 10
    begin: usize,
    len: usize,
    searched: usize,

    given: usize,
    ended: bool,
}

impl Model for Feed {
    ghost use Rattle.std.specs.Prelude.{◌≡◌, ◌+◌, ◌≤◌, take, drop, length};
    ghost use Rattle.ct_script.specs.Feed.{FeedState, IsUnended};
    ghost use Rattle.ct_script.specs.declared.feed.TheConstants.{BUFFER_BYTES, SCRIPT_BYTES};

    ghost Value = { FeedState };

    ghost view = { λ f. record { line = take f.line_len (drop f.line_begin f.buffer.items); held = take f.len (drop f.begin f.buffer.items); given = f.given; ended = f.ended } };

    ghost invariant = { λ f. (length f.buffer.items ≡ BUFFER_BYTES) × (f.begin + f.len ≤ BUFFER_BYTES) × (f.line_begin + f.line_len ≤ BUFFER_BYTES)
        × (f.given ≤ SCRIPT_BYTES + 1) × (f.searched ≤ f.len) × IsUnended (take f.searched (drop f.begin f.buffer.items)) };
}

impl Feed {
    /// Takes memory for the longest line. Nothing was asked of an input yet.
    pub fn new(alloc: Global) -> Result<Feed, NoMemory>
        ensures { IfOk result (λ feed. feed ≡ unasked) }
    {
        match vec![in alloc; 0u8; BUFFER_BYTES] {
            Ok(buffer) => Ok(Feed {
                buffer,
                line_begin: 0,
                line_len: 0,
                begin: 0,
                len: 0,
                searched: 0,
                given: 0,
                ended: false,
            }),
            Err(_) => Err(NoMemory),
        }
    }

    /// The line that was found last, without its byte 10.
    pub fn line(&self) -> &[u8]
        ensures { result.now ≡ self.now.line }
    {
        &self.buffer[self.line_begin..self.line_begin + self.line_len]
    }

    /// Goes on to the next line. More is asked of the input only where no line is ended in what came, and no more than one byte
    /// past 16,777,216 in all.
    pub fn advance<S: Source>(&mut self, input: &mut S) -> Result<Next, ReadEnd>
        ensures advances { Advances self.old self.new (S.rest input.old) (S.rest input.new) result }
        ensures ready { ¬ IsUnended self.old.held → input.new ≡ input.old }
        ensures later { S.faults input.old ≤ S.faults input.new }
        ensures fault { result ≡ Err ReadEnd.Fault → Rose (S.faults input.old) (S.faults input.new) }
    {
        if self.given > SCRIPT_BYTES {
            return Err(ReadEnd::TooLong);
        }
        let mut passed = false;
        'pieces: loop {
            if self.take_line() {
                return Ok(found(passed));
            }
            passed = self.make_room(passed);
            match self.fill(input) {
                Ok(0) => return Ok(self.take_last(passed)),
                Ok(_) => {}
                Err(end) => return Err(end),
            }
        }
    }

    // Takes the first line that is ended, if there is one.
    fn take_line(&mut self) -> bool
        ensures line { TakesLine self.old self.new result }
        ensures given { self.new.given ≡ self.old.given }
        ensures ended { self.new.ended ≡ self.old.ended }
    {
        match line_end(&self.buffer[self.begin + self.searched..self.begin + self.len]) {
            None => {
                self.searched = self.len;
                false
            }
            Some(more) => {
                self.line_begin = self.begin;
                self.line_len = self.searched + more;
                self.begin += self.line_len + 1;
                self.len -= self.line_len + 1;
                self.searched = 0;
                true
            }
        }
    }

    // Drops what came of a line that is too long, and answers whether a part of one was passed over.
    fn make_room(&mut self, passed: bool) -> bool
        ensures room { MakesRoom self.old self.new passed result }
        ensures given { self.new.given ≡ self.old.given }
        ensures ended { self.new.ended ≡ self.old.ended }
    {
        if self.len <= LINE_BYTES {
            return passed;
        }
        self.len = 0;
        self.searched = 0;
        true
    }

    // What is left of an input that ended: a last line without its byte 10, where there is one.
    fn take_last(&mut self, passed: bool) -> Next
        ensures next { result ≡ last_next passed self.old.held }
        ensures held { self.new.held ≡ [] }
        ensures line { self.new.line ≡ self.old.held }
        ensures given { self.new.given ≡ self.old.given }
        ensures ended { self.new.ended ≡ self.old.ended }
    {
        self.line_begin = self.begin;
        self.line_len = self.len;
        self.len = 0;
        self.searched = 0;
        if passed {
            Next::Overlong
        } else if self.line_len == 0 {
            Next::End
        } else {
            Next::Line
        }
    }

    // Asks the input for one piece more, where no line is ended in what came.
    fn fill<S: Source>(&mut self, input: &mut S) -> Result<usize, ReadEnd>
        requires room { length self.old.held ≤ LINE_BYTES }
        requires unended { IsUnended self.old.held }
        requires below { self.old.given ≤ SCRIPT_BYTES }
        ensures fills { Fills self.old self.new (S.rest input.old) (S.rest input.new) result }
        ensures later { S.faults input.old ≤ S.faults input.new }
        ensures fault { result ≡ Err ReadEnd.Fault → Rose (S.faults input.old) (S.faults input.new) }
    {
        if self.ended {
            return Ok(0);
        }
        move_to_front(&mut self.buffer, self.begin, self.len);
        self.begin = 0;
        self.searched = self.len;
        let most = (BUFFER_BYTES - self.len).min(SCRIPT_BYTES + 1 - self.given);
        match read_at(&mut self.buffer, self.len, most, input) {
            Ok(0) => {
                self.ended = true;
                Ok(0)
            }
            Ok(count) => {
                self.len += count;
                self.given += count;
                if self.given > SCRIPT_BYTES {
                    return Err(ReadEnd::TooLong);
                }
                Ok(count)
            }
            Err(_) => Err(ReadEnd::Fault),
        }
    }
}

// What a line that is ended is, by whether a part of it was passed over.
fn found(passed: bool) -> Next
    ensures { result ≡ (if passed then Next.Overlong else Next.Line) }
{
    if passed { Next::Overlong } else { Next::Line }
}

// The place of the first byte 10.
fn line_end(bytes: &[u8]) -> Option<usize>
    ensures { MatchOption result (IsUnended bytes.now) (λ end. (bytes.now ≡ take end bytes.now ++ 10 ∷ drop (end + 1) bytes.now) × IsUnended (take end bytes.now) × (end < length bytes.now)) }
{
    memchr(b'\n', bytes)
}

// Moves bytes to the front of a buffer.
fn move_to_front(buffer: &mut Vec<u8>, begin: usize, len: usize)
    requires { begin + len ≤ length buffer.old.items }
    ensures front { take len buffer.new.items ≡ take len (drop begin buffer.old.items) }
    ensures length { length buffer.new.items ≡ length buffer.old.items }
{
    if begin > 0 {
        buffer.copy_within(begin..begin + len, 0);
    }
}

// Reads a piece of so many bytes at most to a place in a buffer.
fn read_at<S: Source>(
    buffer: &mut Vec<u8>,
    at: usize,
    most: usize,
    input: &mut S,
) -> Result<usize, ReadFault>
    requires some { 0 < most }
    requires within { at + most ≤ length buffer.old.items }
    ensures length { length buffer.new.items ≡ length buffer.old.items }
    ensures front { take at buffer.new.items ≡ take at buffer.old.items }
    ensures bound { IfOk result (λ n. n ≤ most) }
    ensures bytes { MatchResult result (λ n. Consumes (S.rest input.old) (S.rest input.new) (take n (drop at buffer.new.items)) × (n ≡ 0 → IsAtEnd (S.rest input.new)))
        (λ _. Keeps (S.rest input.old) (S.rest input.new)) }
    ensures cause { HasCause (S.faults input.old) (S.faults input.new) result }
{
    input.next(&mut buffer[at..at + most])
}
