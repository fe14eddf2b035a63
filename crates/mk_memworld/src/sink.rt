ghost use Rattle.std.specs.Prelude.{◌≡◌, ◌⊎◌, ◌↔◌, ◌+◌, ◌<◌, ◌≤◌, [], Some, Err, length, take};
ghost use Rattle.std.specs.Prelude.{vec_capacity, vec_len, IfOk, OnOk, OnErr};
ghost use Rattle.mk_world.specs.Causes.{HasCause};
ghost use Rattle.mk_world.specs.Sinks.{Gains};
ghost use Rattle.mk_world.specs.declared.fault.SinkFault.TheVariants.{Failed};
ghost use Rattle.mk_memworld.specs.Outages.{IsStruck, first_outages, made_of, with_call};
ghost use Rattle.mk_memworld.specs.Outages.{with_fault};
ghost use Rattle.mk_memworld.specs.declared.outage.CallKind.TheVariants.{Write};
ghost use Rattle.mk_memworld.specs.declared.sink.TheConstants.{ROOM};

use crate::outage::{CallKind, Fails, Outages};
use mk_bytes::NoMemory;
use mk_world::{Sink, SinkFault};
use std::alloc::Global;

/// For how many bytes a sink has room: 16 MiB.
pub const ROOM: usize = 16_777_216;

/// What was written, in memory. It tells all of it.
#[derive(Drop)]
pub struct MemSink {
    held: Vec<u8>,
    outages: Outages,
    ghost room: { (vec_len held ≤ ROOM) × (ROOM ≤ vec_capacity held) },
}

impl MemSink {
    /// An empty sink, in which these writes fail. Its room is taken at once.
    pub fn new(alloc: Global, fails: Fails) -> Result<MemSink, NoMemory>
        ensures held { IfOk result (λ sink. sink.held.items ≡ []) }
        ensures outages { IfOk result (λ sink. sink.outages ≡ first_outages fails) }
    {
        let held = Vec::with_capacity(alloc, ROOM)?;
        Ok(MemSink {
            held,
            outages: Outages::new(fails),
        })
    }

    /// The bytes that were written. Takes no memory.
    pub fn bytes(&self) -> &[u8]
        ensures { result.now ≡ self.now.held.items }
    {
        self.held.as_slice()
    }

    /// How many calls of a kind were made, all of them writes. Takes no memory.
    pub fn calls(&self, kind: CallKind) -> u64
        ensures { result ≡ made_of self.now.outages.made kind }
    {
        self.outages.calls(kind)
    }
}

impl Sink for MemSink {
    ghost held = { λ sink. Some sink.held.items };

    ghost faults = { λ sink. sink.outages.faults };

    /// Takes the whole piece. `Failed` comes exactly where this write is to fail or there is no
    /// room for the whole piece; then nothing is written.
    fn write(&mut self, bytes: &[u8]) -> Result<usize, SinkFault>
        requires { 0 < length bytes.now }
        ensures some { IfOk result (λ n. 0 < n) }
        ensures within { IfOk result (λ n. n ≤ length bytes.now) }
        ensures done { IfOk result
            (λ n. Gains (Some self.old.held.items) (Some self.new.held.items) (take n bytes.now)) }
        ensures refused { OnErr result
            (Gains (Some self.old.held.items) (Some self.new.held.items) []) }
        ensures cause { HasCause Failed self.old.outages.faults self.new.outages.faults result }
        ensures whole { IfOk result (λ n. n ≡ length bytes.now) }
        ensures exactly { (result ≡ Err Failed) ↔ (IsStruck self.old.outages Write
            ⊎ ROOM < vec_len self.old.held + length bytes.now) }
        ensures counted { OnOk result (self.new.outages ≡ with_call self.old.outages Write) }
        ensures failed { OnErr result
            (self.new.outages ≡ with_fault (with_call self.old.outages Write)) }
    {
        let struck = self.outages.strikes(CallKind::Write);
        if struck || bytes.len() > ROOM - self.held.len() {
            self.outages.fail();
            return Err(SinkFault::Failed);
        }
        self.held.extend_from_slice(bytes).unwrap();
        Ok(bytes.len())
    }
}
