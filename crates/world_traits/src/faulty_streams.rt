//! A source and a sink in memory whose calls fail by a plan, for tests.

ghost use Rattle.std.specs.Prelude.{◌≡◌, ◌≤◌, ◌++◌, ◌↔◌, []};
ghost use Rattle.std.specs.Prelude.{length, take, drop, min, OnOk, OnErr, IfOk, IsErr};
ghost use Rattle.world_traits.specs.Calls.{Rose};
ghost use Rattle.world_traits.specs.Counts.{unbegun, next_call, IsPlanned};
ghost use Rattle.world_traits.specs.Counts.{CountsFailure, FailsAsPlanned};

use crate::fail_plan::FailPlan;
use crate::{MemSink, MemSource, ReadFailed, Sink, Source, WriteFailed};
use std::alloc::Global;
use std::marker::Model;

/// A `MemSource` whose calls are numbered from 1, and fail exactly where their number is planned
/// to. A failure leaves all that was still to be read. A number stands still at 2^64 - 1.
#[derive(Drop)]
pub struct FaultySource {
    source: MemSource,
    plan: FailPlan,
    faults: u64,
}

impl Model for FaultySource {
    ghost use Rattle.world_traits.specs.Printed.{FaultyRest};

    ghost Value = { FaultyRest };

    ghost view = { λ faulty. record {
      rest = faulty.source;
      plan = faulty.plan;
      faults = faulty.faults;
    } };
}

impl FaultySource {
    /// A source of these bytes. The calls with these numbers fail. It takes no memory.
    pub fn new(bytes: Vec<u8>, fails: Vec<u64>) -> FaultySource
        ensures rest { result.rest ≡ bytes.items }
        ensures plan { result.plan ≡ unbegun fails.items }
        ensures faults { result.faults ≡ 0 }
    {
        FaultySource {
            source: MemSource::new(bytes),
            plan: FailPlan::new(fails),
            faults: 0,
        }
    }
}

impl Source for FaultySource {
    ghost tells = { Unit {0} };

    ghost rest = { λ faulty. faulty.rest };

    ghost source_faults = { λ faulty. faulty.faults };

    /// Takes as many bytes as there are and fit. It fails exactly where it is planned to.
    fn read(&mut self, into: &mut [u8]) -> Result<usize, ReadFailed>
        ensures value { IfOk result (λ n. n ≡ min (length into.old) (length self.old.rest)) }
        ensures bytes { IfOk result (λ n. take n into.new ≡ take n self.old.rest) }
        ensures rest { IfOk result (λ n. self.new.rest ≡ drop n self.old.rest) }
        ensures kept { OnErr result (self.new.rest ≡ self.old.rest) }
        ensures next { self.new.plan ≡ next_call self.old.plan }
        ensures exact { IsErr result ↔ IsPlanned self.new.plan }
        ensures faults { CountsFailure result self.old.faults self.new.faults }
        ensures count { self.old.faults ≤ self.new.faults }
        ensures cause { OnErr result (Rose self.old.faults self.new.faults) }
    {
        if self.plan.next() {
            self.faults = self.faults.saturating_add(1);
            return Err(ReadFailed);
        }
        self.source.read(into)
    }
}

/// A `MemSink` whose calls are numbered from 1, and fail exactly where their number is planned to
/// or they are refused room. A failure writes nothing. A number stands still at 2^64 - 1.
#[derive(Drop)]
pub struct FaultySink {
    sink: MemSink,
    plan: FailPlan,
    faults: u64,
}

impl Model for FaultySink {
    ghost use Rattle.world_traits.specs.Printed.{FaultyPrinted};

    ghost Value = { FaultyPrinted };

    ghost view = { λ faulty. record {
      sink = faulty.sink;
      plan = faulty.plan;
      faults = faulty.faults;
    } };
}

impl FaultySink {
    /// An empty one. The calls with these numbers fail. It takes no memory.
    pub fn new(alloc: Global, fails: Vec<u64>) -> FaultySink
        ensures sink { result.sink ≡ record { bytes = []; refused = 0 } }
        ensures plan { result.plan ≡ unbegun fails.items }
        ensures faults { result.faults ≡ 0 }
    {
        FaultySink {
            sink: MemSink::new(alloc),
            plan: FailPlan::new(fails),
            faults: 0,
        }
    }

    /// All that was written so far.
    pub fn bytes(&self) -> &[u8]
        ensures { result.now ≡ self.now.sink.bytes }
    {
        self.sink.bytes()
    }

    /// How many growths it was refused. The count never falls, and stays at 2^64 - 1, its last
    /// value. A planned failure isn't counted.
    pub fn refused(&self) -> u64
        ensures { result ≡ self.now.sink.refused }
    {
        self.sink.refused()
    }
}

impl Sink for FaultySink {
    ghost tells = { Unit {0} };

    ghost written = { λ faulty. faulty.sink.bytes };

    ghost sink_faults = { λ faulty. faulty.faults };

    /// Writes all the bytes. It fails exactly where it is planned to or is refused room, and then
    /// nothing was written.
    fn write(&mut self, bytes: &[u8]) -> Result<(), WriteFailed>
        ensures done { OnOk result (self.new.sink.bytes ≡ self.old.sink.bytes ++ bytes.now) }
        ensures failed { OnErr result (self.new.sink.bytes ≡ self.old.sink.bytes) }
        ensures next { self.new.plan ≡ next_call self.old.plan }
        ensures exact { FailsAsPlanned self.new.plan result
            (λ sink. sink.refused) self.old.sink self.new.sink }
        ensures faults { CountsFailure result self.old.faults self.new.faults }
        ensures count { self.old.faults ≤ self.new.faults }
        ensures cause { OnErr result (Rose self.old.faults self.new.faults) }
    {
        if self.plan.next() || self.sink.write(bytes).is_err() {
            self.faults = self.faults.saturating_add(1);
            return Err(WriteFailed);
        }
        Ok(())
    }
}
