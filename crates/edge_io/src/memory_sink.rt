ghost use Rattle.std.specs.Prelude.{◌≡◌, ◌≤◌, ◌<◌, ◌↔◌, ◌+◌, ◌++◌, ◌⊎◌, [], IsErr, IfOk, OnOk, OnErr, Contains, length, vec_len, vec_capacity};

use super::counts::{count_up, failure, is_listed};
use super::files::Failed;
use super::sink::Sink;
use lists::NoMemory;
use std::alloc::Global;

/// A sink in memory, of a fixed size: `with` takes all the memory that it will ever use.
#[derive(Drop)]
pub struct MemSink {
    pub written: Vec<u8>,
    /// How many bytes it takes in all.
    pub room: usize,
    /// The numbers of the calls that fail, counted from 0.
    pub fails: Vec<u64>,
    /// How many calls there were, as far as `u64` counts.
    pub calls: u64,
    /// How many calls failed, as far as `u64` counts.
    pub faults: u64,
    pub ghost within: { vec_len written ≤ room },
    pub ghost room_taken: { room ≤ vec_capacity written },
}

impl MemSink {
    /// A sink with room for so many bytes. The calls of `write` whose numbers are listed fail.
    pub fn with(alloc: Global, room: usize, fails: Vec<u64>) -> Result<MemSink, NoMemory>
        ensures written { IfOk result (λ sink. sink.written.items ≡ []) }
        ensures room { IfOk result (λ sink. sink.room ≡ room) }
        ensures fails { IfOk result (λ sink. sink.fails ≡ fails) }
        ensures calls { IfOk result (λ sink. sink.calls ≡ 0) }
        ensures faults { IfOk result (λ sink. sink.faults ≡ 0) }
    {
        Ok(MemSink {
            written: Vec::with_capacity(alloc, room)?,
            room,
            fails,
            calls: 0,
            faults: 0,
        })
    }
}

impl Sink for MemSink {
    ghost use Rattle.std.specs.Prelude.{Some};
    ghost use Rattle.edge_io.specs.FailureCounts.{Rose, one_more};
    ghost use Rattle.edge_io.specs.Held.{sure_room};

    ghost written = { λ s. Some s.written.items };

    ghost sure = { sure_room };

    ghost faults = { λ s. s.faults };

    /// A piece that fits into what is left of the room is taken whole. Of one that does not, nothing is taken, and the
    /// call fails.
    fn write(&mut self, piece: &[u8]) -> Result<usize, Failed>
        requires { 0 < length piece.now }
        ensures fails { IsErr result ↔ (Contains self.old.fails.items self.old.calls
            ⊎ (self.old.room < vec_len self.old.written + length piece.now)) }

        // A failure is counted, and leaves the rest.
        ensures err { OnErr result (self.new ≡ record self.old {
          calls = one_more self.old.calls;
          faults = one_more self.old.faults;
        }) }
        ensures rose { OnErr result (Rose self.old.faults self.new.faults) }

        ensures whole { IfOk result (λ count. count ≡ length piece.now) }
        ensures written { OnOk result (self.new.written.items ≡ self.old.written.items ++ piece.now) }
        ensures room_kept { OnOk result (self.new.room ≡ self.old.room) }
        ensures fails_kept { OnOk result (self.new.fails ≡ self.old.fails) }
        ensures calls { OnOk result (self.new.calls ≡ one_more self.old.calls) }
        ensures calm { OnOk result (self.new.faults ≡ self.old.faults) }
    {
        let listed = is_listed(&self.fails, self.calls);
        count_up(&mut self.calls);
        if listed || self.room - self.written.len() < piece.len() {
            return Err(failure(&mut self.faults));
        }
        match self.written.extend_from_slice(piece) {
            Ok(()) => Ok(piece.len()),
            Err(_) => unreachable!(),
        }
    }
}
