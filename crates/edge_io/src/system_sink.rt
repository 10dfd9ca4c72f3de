ghost use Rattle.std.specs.Prelude.{◌≡◌, ◌≤◌, ◌<◌, None, IfSome, IfOk, OnOk, OnErr, length, take};
ghost use Rattle.std.specs.Io.KnownBytes.{Appends};
ghost use Rattle.edge_io.specs.FailureCounts.{Rose};

use super::counts::failure;
use super::files::Failed;
use super::sink::Sink;
use std::io::Write;

/// A writer of the operating system. What was written is not told. Each refusal of the system is a failure, and so is
/// a write that takes no byte.
#[derive(Drop)]
pub struct OsSink<W: Write> {
    /// What takes the bytes.
    pub writer: W,
    faults: u64,
}

impl<W: Write> OsSink<W> {
    /// A sink over the writer, of which no call has failed.
    pub fn new(writer: W) -> OsSink<W>
        ensures writer { result.writer ≡ writer }
        ensures faults { ⟦<OsSink<W> as Sink>⟧.faults result ≡ 0 }
    {
        OsSink { writer, faults: 0 }
    }
}

/// Writes bytes from the front of the piece, flushes the writer, and answers how many it took. `None` where it takes
/// none, or refuses.
fn write_and_flush<W: Write>(writer: &mut W, piece: &[u8]) -> Option<usize>
    ensures some { IfSome result (λ count. 1 ≤ count) }
    ensures within { IfSome result (λ count. count ≤ length piece.now) }
    ensures taken { IfSome result (λ count.
        Appends (W.contents writer.old) (W.contents writer.new) (take count piece.now)) }
{
    let count = match writer.write(piece) {
        Ok(count) if count > 0 => count,
        _ => return None,
    };
    match writer.flush() {
        Ok(()) => Some(count),
        Err(_) => None,
    }
}

impl<W: Write> Sink for OsSink<W> {
    ghost written = { λ _. None };

    ghost sure = { λ _. 0 };

    ghost faults = { λ s. s.faults };

    /// Writes bytes from the front of the piece, and flushes the writer.
    fn write(&mut self, piece: &[u8]) -> Result<usize, Failed>
        requires { 0 < length piece.now }
        ensures some { IfOk result (λ count. 1 ≤ count) }
        ensures within { IfOk result (λ count. count ≤ length piece.now) }
        // Where the writer tells what it holds, it holds those bytes now.
        ensures taken { IfOk result (λ count.
            Appends (W.contents self.old.writer) (W.contents self.new.writer) (take count piece.now)) }
        ensures calm { OnOk result (⟦<Self as Sink>⟧.faults self.new ≡ ⟦<Self as Sink>⟧.faults self.old) }
        ensures rose { OnErr result (Rose (⟦<Self as Sink>⟧.faults self.old) (⟦<Self as Sink>⟧.faults self.new)) }
    {
        match write_and_flush(&mut self.writer, piece) {
            Some(count) => Ok(count),
            None => Err(failure(&mut self.faults)),
        }
    }
}
