// Ends in memory, whose faults are chosen by the number of the call.
ghost use Rattle.std.specs.Prelude.{◌≡◌, ◌+◌, ◌<◌, ◌≤◌, ◌↔◌, ◌⊎◌, length, [], Some, IfOk, IsErr, Contains, min};
ghost use Rattle.std.specs.Io.{ReadsAtMost};
ghost use Rattle.std.specs.Io.KnownBytes.{ReadConsumes};
ghost use Rattle.ct_base.specs.Causes.{HasCause};
ghost use Rattle.ct_base.specs.Bytes.{PutAppends};
ghost use Rattle.ct_base.specs.Ends.{after_next, after_put};

use crate::{NoMemory, ReadFault, Sink, Source, WriteFault};
use std::alloc::Global;
use std::marker::Model;

/// A source that gives the bytes of a list, at most `piece` a call.
#[derive(Drop)]
pub struct MemSource {
    bytes: Vec<u8>,
    at: usize,
    piece: usize,
    fail_at: Vec<u64>,
    calls: u64,
    faults: u64,
}

impl Model for MemSource {
    ghost use Rattle.std.specs.Prelude.{◌≤◌, length, drop};
    ghost use Rattle.ct_base.specs.Ends.{MemInput};

    ghost Value = { MemInput };

    ghost view = { λ s. record { rest = drop s.at s.bytes.items; piece = s.piece; fail_at = s.fail_at.items; calls = s.calls; faults = s.faults } };

    ghost invariant = { λ s. (1 ≤ s.piece) × (s.at ≤ length s.bytes.items) };
}

impl MemSource {
    /// Exactly the calls whose numbers, from 0, stand in `fail_at` fail.
    pub fn new(bytes: Vec<u8>, piece: usize, fail_at: Vec<u64>) -> MemSource
        requires { 1 ≤ piece }
        ensures { result ≡ record { rest = bytes.items; piece = piece; fail_at = fail_at.items; calls = 0; faults = 0 } }
    {
        MemSource {
            bytes,
            at: 0,
            piece,
            fail_at,
            calls: 0,
            faults: 0,
        }
    }
}

impl Source for MemSource {
    ghost use Rattle.std.specs.Prelude.{Some};

    ghost rest = { λ s. Some s.rest };

    ghost faults = { λ s. s.faults };

    fn next(&mut self, buf: &mut [u8]) -> Result<usize, ReadFault>
        requires { 0 < length buf.old }
        ensures bound { ReadsAtMost result buf.new }
        ensures bytes { ReadConsumes (Some self.old.rest) (Some self.new.rest) result buf.new }
        ensures cause { HasCause self.old.faults self.new.faults result }
        ensures chosen { IsErr result ↔ Contains self.old.fail_at self.old.calls }
        ensures count { IfOk result (λ n. n ≡ min (min (length self.old.rest) self.old.piece) (length buf.old)) }
        ensures after { self.new ≡ after_next self.old result }
    {
        let call = self.calls;
        self.calls = call.saturating_add(1);
        if self.fail_at.contains(&call) {
            self.faults = self.faults.saturating_add(1);
            return Err(ReadFault);
        }
        let left = self.bytes.len() - self.at;
        let count = left.min(self.piece).min(buf.len());
        buf[..count].copy_from_slice(&self.bytes[self.at..self.at + count]);
        self.at += count;
        Ok(count)
    }
}

/// A sink that keeps what is written, up to a room that it takes when it is made.
#[derive(Drop)]
pub struct MemSink {
    bytes: Vec<u8>,
    room: usize,
    fail_at: Vec<u64>,
    calls: u64,
    faults: u64,
}

impl Model for MemSink {
    ghost use Rattle.std.specs.Prelude.{◌≤◌, length};
    ghost use Rattle.std.specs.Vec.{vec_capacity};
    ghost use Rattle.ct_base.specs.Ends.{MemOutput};

    ghost Value = { MemOutput };

    ghost view = { λ s. record { written = s.bytes.items; room = s.room; fail_at = s.fail_at.items; calls = s.calls; faults = s.faults } };

    ghost invariant = { λ s. (s.room ≤ vec_capacity s.bytes) × (length s.bytes.items ≤ s.room) };
}

impl MemSink {
    /// Takes memory for `room` bytes. Exactly the calls whose numbers, from 0, stand in `fail_at` fail, and those whose bytes do
    /// not fit into what is left of the room.
    pub fn new(alloc: Global, room: u64, fail_at: Vec<u64>) -> Result<MemSink, NoMemory>
        requires { room ≤ 1073741824 }
        ensures { IfOk result (λ s. s ≡ record { written = []; room = room; fail_at = fail_at.items; calls = 0; faults = 0 }) }
    {
        let room = room as usize;
        match Vec::with_capacity(alloc, room) {
            Ok(bytes) => Ok(MemSink {
                bytes,
                room,
                fail_at,
                calls: 0,
                faults: 0,
            }),
            Err(_) => Err(NoMemory),
        }
    }

    /// The bytes written.
    pub fn bytes(&self) -> &[u8]
        ensures { result.now ≡ self.now.written }
    {
        self.bytes.as_slice()
    }
}

impl Sink for MemSink {
    ghost use Rattle.std.specs.Prelude.{Some};

    ghost written = { λ s. Some s.written };

    ghost faults = { λ s. s.faults };

    fn put(&mut self, bytes: &[u8]) -> Result<(), WriteFault>
        ensures bytes { PutAppends (Some self.old.written) (Some self.new.written) result bytes.now }
        ensures cause { HasCause self.old.faults self.new.faults result }
        ensures chosen { IsErr result ↔ (Contains self.old.fail_at self.old.calls ⊎ (self.old.room < length self.old.written + length bytes.now)) }
        ensures after { self.new ≡ after_put self.old bytes.now result }
    {
        let call = self.calls;
        self.calls = call.saturating_add(1);
        if self.fail_at.contains(&call) {
            self.faults = self.faults.saturating_add(1);
            return Err(WriteFault);
        }
        if self.room - self.bytes.len() < bytes.len() {
            self.faults = self.faults.saturating_add(1);
            return Err(WriteFault);
        }
        match self.bytes.extend_from_slice(bytes) {
            Ok(()) => Ok(()),
            Err(_) => unreachable!(),
        }
    }
}
