// Sources and sinks in memory. They move at most a piece for each call, and fail the calls whose numbers are
// listed.
ghost use Rattle.std.specs.Prelude.{◌≡◌, ◌≤◌, ◌<◌, ◌||◌, [], List, ℕ, drop, length, min, ◌-◌, Some, IfOk};
ghost use Rattle.std.specs.Prelude.{OnOk, OnErr, is_err, vec_capacity};
ghost use Rattle.std.specs.Io.{ReadsAtMost};
ghost use Rattle.std.specs.Io.KnownBytes.{ReadConsumes, WriteAppends};
ghost use Rattle.dup_io.specs.Causes.{HasCause, Rose, TakesSome};

use crate::ends::{Failed, Sink, Source};
use dup_names::NoMemory;
use std::alloc::Global;

/// A source over bytes in memory. It tells what is left.
#[derive(Drop)]
pub struct MemorySource {
    bytes: Vec<u8>,
    at: usize,
    piece: usize,
    fails: Vec<u64>,
    calls: u64,
    faults: u64,
    ghost in_range: { at ≤ length bytes.items },
    ghost some: { 0 < piece },
    pub ghost no_faults: { fails.items ≡ [] → faults ≡ 0 },
}

impl MemorySource {
    ghost use Rattle.dup_io.specs.Memory.{source_left, source_piece, source_fails, source_calls};
    ghost use Rattle.dup_io.specs.Memory.{source_faults};

    /// A source of these bytes. A read gives at most `piece` of them, and the reads whose numbers,
    /// counted from 1, are in `fails` fail.
    pub fn new(bytes: Vec<u8>, piece: usize, fails: Vec<u64>) -> Self
        requires { 0 < piece }
        ensures left { source_left result ≡ bytes.items }
        ensures piece { source_piece result ≡ piece }
        ensures fails { source_fails result ≡ fails.items }
        ensures calls { source_calls result ≡ 0 }
        ensures faults { source_faults result ≡ 0 }
    {
        MemorySource {
            bytes,
            at: 0,
            piece,
            fails,
            calls: 0,
            faults: 0,
        }
    }
}

impl Source for MemorySource {
    ghost use Rattle.dup_io.specs.Memory.{read_fails, source_calls, source_faults, source_left, source_piece};
    ghost use Rattle.dup_io.specs.Memory.{next_call, SameSource, SameSource-refl, SameSource-trans};

    ghost left = { λ s. Some (source_left s) };

    ghost faults = { source_faults };

    ghost beside = { SameSource };

    ghost stays = { SameSource-refl };

    ghost joins = { SameSource-trans };

    fn read(&mut self, into: &mut [u8]) -> Result<usize, Failed>
        ensures bound { ReadsAtMost result into.new }
        ensures bytes { ReadConsumes (Some (source_left self.old))
            (Some (source_left self.new)) result into.new }
        ensures cause { HasCause (source_faults self.old) (source_faults self.new) result }
        ensures beside { SameSource self.old self.new }
        ensures calls { source_calls self.new ≡ next_call (source_calls self.old) }
        ensures fails { is_err result ≡ read_fails self.old }
        ensures count { IfOk result (λ n.
            n ≡ min (min (length (source_left self.old)) (source_piece self.old)) (length into.old)) }
    {
        self.calls = self.calls.saturating_add(1);
        if self.fails.contains(&self.calls) {
            self.faults = self.faults.saturating_add(1);
            return Err(Failed);
        }
        let rest = self.bytes.len() - self.at;
        let count = rest.min(self.piece).min(into.len());
        into[..count].copy_from_slice(&self.bytes[self.at..self.at + count]);
        self.at += count;
        Ok(count)
    }
}

/// A sink into memory. It tells what was written.
#[derive(Drop)]
pub struct MemorySink {
    bytes: Vec<u8>,
    room: usize,
    piece: usize,
    fails: Vec<u64>,
    calls: u64,
    faults: u64,
    ghost some: { 0 < piece },
    ghost in_room: { length bytes.items ≤ room },
    ghost has_room: { room ≤ vec_capacity bytes },
    pub ghost no_faults: { fails.items ≡ [] → length bytes.items < room → faults ≡ 0 },
}

impl MemorySink {
    ghost use Rattle.dup_io.specs.Memory.{sink_written, sink_room, sink_piece, sink_fails, sink_calls};
    ghost use Rattle.dup_io.specs.Memory.{sink_faults};

    /// A sink with room for so many bytes, which is taken here. A write takes at most `piece` bytes;
    /// the writes whose numbers, counted from 1, are in `fails` fail, and so does one that finds the
    /// room full. `NoMemory` where the room can't be had.
    pub fn new(alloc: Global, room: usize, piece: usize, fails: Vec<u64>) -> Result<Self, NoMemory>
        requires { 0 < piece }
        ensures written { IfOk result (λ sink. sink_written sink ≡ []) }
        ensures room { IfOk result (λ sink. sink_room sink ≡ room) }
        ensures piece { IfOk result (λ sink. sink_piece sink ≡ piece) }
        ensures fails { IfOk result (λ sink. sink_fails sink ≡ fails.items) }
        ensures calls { IfOk result (λ sink. sink_calls sink ≡ 0) }
        ensures faults { IfOk result (λ sink. sink_faults sink ≡ 0) }
    {
        let bytes = Vec::with_capacity(alloc, room)?;
        Ok(MemorySink {
            bytes,
            room,
            piece,
            fails,
            calls: 0,
            faults: 0,
        })
    }

    /// The bytes that were written.
    pub fn written(&self) -> &[u8]
        ensures { result.now ≡ sink_written self.now }
    {
        &self.bytes
    }
}

impl Sink for MemorySink {
    ghost use Rattle.dup_io.specs.Memory.{next_call, sink_calls, sink_faults, sink_piece, sink_room};
    ghost use Rattle.dup_io.specs.Memory.{sink_written, write_fails, SameSink, SameSink-refl, SameSink-trans};

    ghost written = { λ s. Some (sink_written s) };

    ghost faults = { sink_faults };

    ghost beside = { SameSink };

    ghost stays = { SameSink-refl };

    ghost joins = { SameSink-trans };

    fn write(&mut self, from: &[u8]) -> Result<usize, Failed>
        ensures count { TakesSome result from.now }
        ensures bytes { WriteAppends (Some (sink_written self.old))
            (Some (sink_written self.new)) result from.now }
        ensures cause { HasCause (sink_faults self.old) (sink_faults self.new) result }
        ensures beside { SameSink self.old self.new }
        ensures calls { sink_calls self.new ≡ next_call (sink_calls self.old) }
        ensures fails { is_err result ≡ write_fails self.old }
        ensures exact { IfOk result (λ n.
            n ≡ min (min (sink_piece self.old) (length from.now))
            (sink_room self.old - length (sink_written self.old))) }
    {
        self.calls = self.calls.saturating_add(1);
        let room = self.room - self.bytes.len();
        let is_full = room == 0;
        let count = self.piece.min(from.len()).min(room);
        if is_full
            || self.fails.contains(&self.calls)
            || self.bytes.extend_from_slice(&from[..count]).is_err()
        {
            self.faults = self.faults.saturating_add(1);
            return Err(Failed);
        }
        Ok(count)
    }
}
