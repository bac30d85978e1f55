//! A source and a sink in memory, for tests: they give and take in pieces and fail at chosen calls.
ghost use Rattle.std.specs.Prelude.{◌≡◌, ◌<◌, ◌≤◌, ◌==◌, ◌++◌, ◌-◌, ◌^◌, ◌↔◌, ◌⊎◌, length, min, take, drop, []};
ghost use Rattle.std.specs.Prelude.{Some, IfOk, IsErr, IsTrue, MatchResult, OnOk, OnErr};
ghost use Rattle.std.specs.List.{list_any};
ghost use Rattle.std.specs.Io.{ReadsAtMost, WritesAtMost};
ghost use Rattle.std.specs.Io.KnownBytes.{ReadConsumes, WriteAppends};
ghost use Rattle.pcc_causes.specs.Causes.{HasCause, Rose};
ghost use Rattle.pcc_io.specs.Memory.{raised, fails_next};

use crate::{Failed, NoMemory, Sink, Source};
use std::alloc::Global;
use std::marker::Model;

// Whether a call with this number is to fail.
fn is_listed(fails: &[u32], call: u64) -> bool
    ensures { result ≡ list_any (λ f. f == call) fails.now }
{
    fails.iter().any(|f| u64::from(*f) == call)
}

// Copies the first n bytes to the front.
fn copy_front(to: &mut [u8], from: &[u8], n: usize)
    requires to_in { n ≤ length to.old }
    requires from_in { n ≤ length from.now }
    ensures { take n to.new ≡ take n from.now }
{
    to[..n].copy_from_slice(&from[..n]);
}

#[derive(Drop)]
pub struct MemSource {
    bytes: Vec<u8>,
    at: usize,
    give: usize,
    fails: Vec<u32>,
    calls: u64,
    faults: u64,
}

impl Model for MemSource {
    ghost use Rattle.std.specs.Prelude.{◌≤◌, ◌<◌, length, drop};
    ghost use Rattle.pcc_io.specs.Memory.{SourceState};

    ghost Value = { SourceState };

    ghost view = { λ s. record { left = drop s.at s.bytes.items; give = s.give; fails = s.fails.items; calls = s.calls; faults = s.faults } };

    ghost invariant = { λ s. (s.at ≤ length s.bytes.items) × (0 < s.give) };
}

impl MemSource {
    pub fn new(
        alloc: Global,
        bytes: &[u8],
        give: usize,
        fails: &[u32],
    ) -> Result<MemSource, NoMemory>
        requires { 0 < give }
        ensures { IfOk result (λ s. s ≡ record {
          left = bytes.now;
          give = give;
          fails = fails.now;
          calls = 0;
          faults = 0;
        }) }
    {
        Ok(MemSource {
            bytes: Vec::from_slice(alloc, bytes)?,
            at: 0,
            give,
            fails: Vec::from_slice(alloc, fails)?,
            calls: 0,
            faults: 0,
        })
    }

    pub fn bytes_left(&self) -> &[u8]
        ensures { result.now ≡ self.now.left }
    {
        &self.bytes[self.at..]
    }
}

impl Source for MemSource {
    ghost left = { λ s. Some s.left };

    ghost faults = { λ s. s.faults };

    #[tactic(auto, using(crate::proofs::Known::read_front))]
    fn read(&mut self, buf: &mut [u8]) -> Result<usize, Failed>
        ensures bound { ReadsAtMost result buf.new }
        ensures bytes { ReadConsumes (Some self.old.left) (Some self.new.left) result buf.new }
        ensures cause { HasCause self.old.faults self.new.faults result }
        ensures calm { IfOk result (λ _. self.new.faults ≡ self.old.faults) }
        ensures most { self.new.faults < 2 ^ 64 }

        // Which calls fail, how many bytes a call gives, and that a fault is counted once.
        ensures fails { IsErr result ↔ IsTrue (fails_next self.old.fails self.old.calls) }
        ensures counted { MatchResult result (λ _. self.new.faults ≡ self.old.faults) (λ _. self.new.faults ≡ raised self.old.faults) }
        ensures given { IfOk result (λ n. n ≡ min (length buf.old) (min self.old.give (length self.old.left))) }
        ensures fixed { (self.new.give ≡ self.old.give) × (self.new.fails ≡ self.old.fails) × (self.new.calls ≡ raised self.old.calls) }
    {
        self.calls = self.calls.saturating_add(1);
        let call = self.calls;
        if is_listed(&self.fails, call) {
            self.faults = self.faults.saturating_add(1);
            return Err(Failed);
        }
        let n = buf.len().min(self.give.min(self.bytes.len() - self.at));
        copy_front(buf, &self.bytes[self.at..], n);
        self.at += n;
        Ok(n)
    }
}

#[derive(Drop)]
pub struct MemSink {
    held: Vec<u8>,
    room: usize,
    take: usize,
    fails: Vec<u32>,
    calls: u64,
    faults: u64,
}

impl Model for MemSink {
    ghost use Rattle.std.specs.Prelude.{◌≤◌, ◌<◌, vec_len, vec_capacity};
    ghost use Rattle.pcc_io.specs.Memory.{SinkState};

    ghost Value = { SinkState };

    ghost view = { λ s. record { held = s.held.items; room = s.room; take = s.take; fails = s.fails.items; calls = s.calls; faults = s.faults } };

    ghost invariant = { λ s. (s.room ≤ vec_capacity s.held) × (vec_len s.held ≤ s.room) × (0 < s.take) };
}

impl MemSink {
    pub fn new(alloc: Global, room: usize, take: usize, fails: &[u32]) -> Result<MemSink, NoMemory>
        requires { 0 < take }
        ensures { IfOk result (λ s. s ≡ record {
          held = [];
          room = room;
          take = take;
          fails = fails.now;
          calls = 0;
          faults = 0;
        }) }
    {
        Ok(MemSink {
            held: Vec::with_capacity(alloc, room)?,
            room,
            take,
            fails: Vec::from_slice(alloc, fails)?,
            calls: 0,
            faults: 0,
        })
    }

    pub fn bytes_held(&self) -> &[u8]
        ensures { result.now ≡ self.now.held }
    {
        &self.held
    }
}

impl Sink for MemSink {
    ghost held = { λ s. Some s.held };

    ghost faults = { λ s. s.faults };

    fn write(&mut self, piece: &[u8]) -> Result<usize, Failed>
        ensures bound { WritesAtMost result piece.now }
        ensures bytes { WriteAppends (Some self.old.held) (Some self.new.held) result piece.now }
        ensures cause { HasCause self.old.faults self.new.faults result }
        ensures nothing { IfOk result (λ n. n ≡ 0 → 0 < length piece.now → Rose self.old.faults self.new.faults) }
        ensures calm { IfOk result (λ n. 0 < n → self.new.faults ≡ self.old.faults) }
        ensures calm_empty { IfOk result (λ _. length piece.now ≡ 0 → self.new.faults ≡ self.old.faults) }
        ensures most { self.new.faults < 2 ^ 64 }

        // Which calls fail, how many bytes a call takes, and that a fault is counted once.
        ensures fails { IsErr result ↔ (IsTrue (fails_next self.old.fails self.old.calls)
            ⊎ ((0 < length piece.now) × (length self.old.held ≡ self.old.room))) }
        ensures counted { MatchResult result (λ _. self.new.faults ≡ self.old.faults) (λ _. self.new.faults ≡ raised self.old.faults) }
        ensures taken { IfOk result (λ n. n ≡ min (length piece.now) (min self.old.take (self.old.room - length self.old.held))) }
        ensures fixed { (self.new.room ≡ self.old.room) × (self.new.take ≡ self.old.take) × (self.new.fails ≡ self.old.fails)
            × (self.new.calls ≡ raised self.old.calls) }
    {
        self.calls = self.calls.saturating_add(1);
        let call = self.calls;
        let left = self.room - self.held.len();
        let n = piece.len().min(self.take.min(left));
        if is_listed(&self.fails, call) {
            self.faults = self.faults.saturating_add(1);
            return Err(Failed);
        }
        if left == 0 && !piece.is_empty() {
            self.faults = self.faults.saturating_add(1);
            return Err(Failed);
        }
        match self.held.extend_from_slice(&piece[..n]) {
            Ok(()) => Ok(n),
            Err(_) => unreachable!(),
        }
    }
}
