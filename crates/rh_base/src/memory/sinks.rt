//! Sinks in memory.

ghost use Rattle.std.specs.Prelude.{◌≡◌, ◌≢◌, ◌≤◌, [], length, IsOk, true, false};
ghost use Rattle.std.specs.declared.option.Option.TheVariants.{Some};
ghost use Rattle.rh_base.specs.Sink.{PutGives};
ghost use Rattle.rh_base.specs.Kept.{is_failing, one_more, FailsHalfway, Appends, HasMemory};

use crate::memory::is_failing;
use crate::sink::{Sink, SinkFault};
use crate::text::NoMemory;
use std::alloc::Global;
use std::marker::Model;

/// Bytes in memory, of which the puts with the numbers in `failing`, counted from 1, fail. A put of an empty piece isn't
/// counted.
#[derive(Debug, Drop)]
pub struct MemorySink {
    bytes: Vec<u8>,
    failing: Vec<u64>,
    calls: u64,
    count: u64,
}

impl Model for MemorySink {
    ghost use Rattle.std.specs.Prelude.{◌-◌, vec_len, vec_capacity};
    ghost use Rattle.rh_base.specs.Kept.{SinkInMemory};

    ghost Value = { SinkInMemory };

    ghost view = { λ s. record { bytes = s.bytes.items; failing = s.failing.items; calls = s.calls; faults = s.count; spare = vec_capacity s.bytes - vec_len s.bytes } };
}

impl MemorySink {
    ghost use Rattle.std.specs.Prelude.{◌≡◌, ◌≤◌, [], OnOk};

    pub fn new(alloc: Global, failing: Vec<u64>) -> MemorySink
        ensures bytes { result.bytes ≡ [] }
        ensures counts { (result.failing ≡ failing.items) × (result.calls ≡ 0) × (result.faults ≡ 0) }
    {
        MemorySink {
            bytes: Vec::new(alloc),
            failing,
            calls: 0,
            count: 0,
        }
    }

    pub fn bytes(&self) -> &[u8]
        ensures { result.now ≡ self.now.bytes }
    {
        &self.bytes
    }

    /// Makes room for `n` more bytes.
    pub fn reserve(&mut self, n: usize) -> Result<(), NoMemory>
        ensures ok { OnOk result (n ≤ self.new.spare) }
        ensures grows { self.old.spare ≤ self.new.spare }
        ensures kept { (self.new.bytes ≡ self.old.bytes) × (self.new.failing ≡ self.old.failing)
            × (self.new.calls ≡ self.old.calls) × (self.new.faults ≡ self.old.faults) }
    {
        self.bytes.reserve(n)?;
        Ok(())
    }
}

impl Sink for MemorySink {
    ghost written = { λ s. Some s.bytes };

    ghost faults = { λ s. s.faults };

    fn put(&mut self, piece: &[u8]) -> Result<(), SinkFault>
        ensures later { self.old.faults ≤ self.new.faults }
        ensures gives { PutGives piece.now (Some self.old.bytes) self.old.faults result (Some self.new.bytes) self.new.faults }
        ensures empty { piece.now ≡ [] → IsOk result }
        ensures uncounted { piece.now ≡ [] → self.new ≡ self.old }
        ensures kept { self.new.failing ≡ self.old.failing }
        ensures failing { piece.now ≢ [] → is_failing self.old.failing (one_more self.old.calls) ≡ true
            → FailsHalfway piece.now self.old result self.new }
        ensures appends { piece.now ≢ [] → is_failing self.old.failing (one_more self.old.calls) ≡ false
            → Appends piece.now self.old result self.new }
        ensures room { length piece.now ≤ self.old.spare → HasMemory result }
    {
        if piece.is_empty() {
            return Ok(());
        }
        let call = self.calls.saturating_add(1);
        if is_failing(&self.failing, call) {
            let half = &piece[..piece.len() / 2];
            if self.bytes.extend_from_slice(half).is_err() {
                return Err(SinkFault::Memory(NoMemory));
            }
            self.calls = call;
            self.count = self.count.saturating_add(1);
            return Err(SinkFault::Failed);
        }
        if self.bytes.extend_from_slice(piece).is_err() {
            return Err(SinkFault::Memory(NoMemory));
        }
        self.calls = call;
        Ok(())
    }
}

/// Bytes in memory, of which no put fails.
#[derive(Debug, Drop)]
pub struct SureSink {
    bytes: Vec<u8>,
}

impl Model for SureSink {
    ghost use Rattle.std.specs.Prelude.{◌-◌, vec_len, vec_capacity};
    ghost use Rattle.rh_base.specs.Kept.{SureSinkInMemory};

    ghost Value = { SureSinkInMemory };

    ghost view = { λ s. record { bytes = s.bytes.items; spare = vec_capacity s.bytes - vec_len s.bytes } };
}

impl SureSink {
    ghost use Rattle.std.specs.Prelude.{◌≡◌, ◌≤◌, [], OnOk};

    pub fn new(alloc: Global) -> SureSink
        ensures { result.bytes ≡ [] }
    {
        SureSink {
            bytes: Vec::new(alloc),
        }
    }

    pub fn bytes(&self) -> &[u8]
        ensures { result.now ≡ self.now.bytes }
    {
        &self.bytes
    }

    /// Makes room for `n` more bytes.
    pub fn reserve(&mut self, n: usize) -> Result<(), NoMemory>
        ensures ok { OnOk result (n ≤ self.new.spare) }
        ensures grows { self.old.spare ≤ self.new.spare }
        ensures kept { self.new.bytes ≡ self.old.bytes }
    {
        self.bytes.reserve(n)?;
        Ok(())
    }
}

impl Sink for SureSink {
    ghost written = { λ s. Some s.bytes };

    ghost faults = { λ _. 0 };

    fn put(&mut self, piece: &[u8]) -> Result<(), SinkFault>
        ensures later { 0 ≤ 0 }
        ensures gives { PutGives piece.now (Some self.old.bytes) 0 result (Some self.new.bytes) 0 }
        ensures empty { piece.now ≡ [] → IsOk result }
        ensures room { length piece.now ≤ self.old.spare → HasMemory result }
    {
        match self.bytes.extend_from_slice(piece) {
            Ok(()) => Ok(()),
            Err(_) => Err(SinkFault::Memory(NoMemory)),
        }
    }
}
