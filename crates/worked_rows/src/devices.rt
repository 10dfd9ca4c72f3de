//! Runs on devices that fail, at each call and behind each byte in turn, and on devices that give and take one byte a call.

use super::runs::{Ending, MEMORY, Outputs, ROOM, files_of, status_on, written};
use super::trials::{TRIALS, Trial, WIRE};
use edge_io::{Failed, Files, Sink};
use std::alloc::Global;
use std::process::Abort;
use std::thread::Threads;

/// An output that takes so many bytes a call, and fails once it is full, as a disk does.
#[derive(Drop)]
struct Filling {
    taken: Vec<u8>,
    step: usize,
    most: usize,
    faults: u64,
}

impl Filling {
    /// An output that has taken nothing.
    fn new(alloc: Global, step: usize, most: usize) -> Filling {
        Filling {
            taken: Vec::new(alloc),
            step,
            most,
            faults: 0,
        }
    }
}

impl Sink for Filling {
    ghost use Rattle.std.specs.Prelude.{Some};

    ghost written = { λ s. Some s.taken.items };

    ghost sure = { λ _. 0 };

    ghost faults = { λ s. s.faults };

    fn write(&mut self, piece: &[u8]) -> Result<usize, Failed> {
        let room = self.most.saturating_sub(self.taken.len()).min(self.step);
        let count = piece.len().min(room);
        if count == 0 || self.taken.extend_from_slice(&piece[..count]).is_err() {
            self.faults = self.faults.saturating_add(1);
            return Err(Failed);
        }
        Ok(count)
    }
}

/// Files of which each read gives one byte.
#[derive(Drop)]
struct Sipping<F> {
    files: F,
}

impl<F: Files> Files for Sipping<F> {
    ghost holds = { λ s. F.holds s.files };

    ghost rest = { λ s. F.rest s.files };

    ghost started = { λ s. F.started s.files };

    ghost starts = { λ s. F.starts s.files };

    ghost sure = { λ s. F.sure s.files };

    ghost steady = { λ s. F.steady s.files };

    ghost faults = { λ s. F.faults s.files };

    fn start(&mut self, name: &[u8]) -> Result<(), Failed> {
        self.files.start(name)
    }

    fn read(&mut self, buf: &mut [u8]) -> Result<usize, Failed> {
        self.files.read(&mut buf[..1])
    }
}

/// A run in which something failed before it wrote a byte.
const FAILED: Ending<'static> = Ending {
    status: 5,
    out: b"",
    err: b"",
};

/// The first so many bytes, or all.
fn first(bytes: &[u8], most: usize) -> &[u8] {
    &bytes[..most.min(bytes.len())]
}

impl Trial<'_> {
    /// How many bytes the outputs of the run take.
    fn need(&self) -> usize {
        self.whole.out.len().max(self.whole.err.len())
    }

    /// How the run ends if its outputs are full behind so many bytes.
    fn end_behind(&self, most: usize) -> Ending<'_> {
        let status = if most < self.need() {
            5
        } else {
            self.whole.status
        };
        Ending {
            status,
            out: first(self.whole.out, most),
            err: first(self.whole.err, most),
        }
    }

    /// Whether the run ends so on these files if its outputs take so many bytes a call and are full behind so many, and the error output
    /// is not called without need.
    fn fills<F: Files>(
        &self,
        rt: &(impl Abort + AllocGlobal + Threads + Sync),
        files: &mut F,
        step: usize,
        most: usize,
    ) -> bool {
        let mut out = Filling::new(rt.alloc(), step, most);
        let mut err = Filling::new(rt.alloc(), step, most);
        let status = status_on(rt, self.given.words, files, (&mut out, &mut err));
        let is_calm = err.faults == 0 || !self.whole.err.is_empty();
        let (out, err) = (out.taken.as_slice(), err.taken.as_slice());
        is_calm && self.end_behind(most).is(status, out, err)
    }

    /// Whether the run ends so if its outputs in memory, which take all of a text or nothing, have so much room, and this call of this
    /// device fails. Failures are counted on from `faults`.
    fn ends(
        &self,
        rt: &(impl Abort + AllocGlobal + Threads + Sync),
        room: usize,
        (device, call): (usize, u64),
        faults: u64,
        want: &Ending<'_>,
    ) -> bool {
        let mut files = files_of(rt, &self.given);
        let mut outputs = Outputs::new(rt, room);
        files.faults = faults;
        outputs.out.faults = faults;
        outputs.err.faults = faults;
        match device {
            0 => files.fails.push(call).expect(rt, MEMORY),
            1 => outputs.out.fails.push(call).expect(rt, MEMORY),
            _ => outputs.err.fails.push(call).expect(rt, MEMORY),
        }
        let both = (&mut outputs.out, &mut outputs.err);
        let status = status_on(rt, self.given.words, &mut files, both);
        outputs.are_left(status, want)
    }

    /// Checks that runs write a first part and fail if their outputs are full, behind each byte in turn, and end whole if there is room;
    /// and that they fail with nothing written if outputs in memory have so little room.
    fn check_room(&self, rt: &(impl Abort + AllocGlobal + Threads + Sync), step: usize) {
        let need = self.need();
        for most in 0..need.saturating_add(1) {
            let mut files = files_of(rt, &self.given);
            let want = if most < need { &FAILED } else { &self.whole };
            assert!(rt;
                self.fills(rt, &mut files, step, most),
                "room for {most} bytes"
            );
            assert!(rt;
                self.ends(rt, most, (0, u64::MAX), 0, want),
                "room for {most} bytes"
            );
        }
    }

    /// Checks that the run fails with nothing written if a call of a device fails, each of these in turn, and ends whole if the call
    /// behind the last would. Failures are counted on from `faults`.
    fn check_calls(
        &self,
        rt: &(impl Abort + AllocGlobal + Threads + Sync),
        device: usize,
        calls: u64,
        faults: u64,
    ) {
        for call in 0..calls.saturating_add(1) {
            let want = if call < calls { &FAILED } else { &self.whole };
            let holds = self.ends(rt, ROOM, (device, call), faults, want);
            assert!(rt; holds, "call {call} of device {device}");
        }
    }

    /// Checks all of this, and that the run ends whole if each read gives one byte and each write takes one.
    fn check(&self, rt: &(impl Abort + AllocGlobal + Threads + Sync)) {
        self.check_room(rt, 1);
        self.check_room(rt, ROOM);
        let files = files_of(rt, &self.given);
        assert!(rt;
            self.fills(rt, &mut Sipping { files }, 1, self.need()),
            "byte by byte"
        );
        for (device, calls) in self.calls.iter().enumerate() {
            self.check_calls(rt, device, *calls, 0);
            self.check_calls(rt, device, *calls, u64::MAX);
        }
    }
}

/// Devices fail at each call and behind each byte in turn. A count of failures that stands still changes nothing.
#[test]
fn devices_fail(rt: HostRuntime) {
    for trial in TRIALS {
        trial.check(&rt);
    }
}

/// The bytes of the region file of the wire. All runs that end whole write the same.
#[test]
fn devices_of_region_files_fail(rt: HostRuntime) {
    let mut files = files_of(&rt, &WIRE.given);
    let mut outputs = Outputs::new(&rt, ROOM);
    let both = (&mut outputs.out, &mut outputs.err);
    assert!(rt; status_on(&rt, WIRE.given.words, &mut files, both) == 0);
    let whole = written(outputs.out.written.as_slice());
    Trial { whole, ..WIRE }.check(&rt);
}
