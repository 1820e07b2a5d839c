//! Sources and sinks over std's readers and writers, as over the standard streams of a program.

ghost use Rattle.std.specs.Result.{IsOk};
ghost use Rattle.std.specs.Prelude.{◌≡◌, ◌+◌, ◌^◌, ◌<◌, ◌≤◌, [], length, false, true, None, IfOk};
ghost use Rattle.std.specs.Io.{ReadsAtMost, WritesAtMost};
ghost use Rattle.std.specs.Io.KnownBytes.{ReadConsumes, WriteAppends};
ghost use Rattle.fp_ends.specs.Causes.{CountsFaults, HasCause};

use crate::{Failed, Sink, Source};
use std::io::{Read, Write};

/// Reads from a std reader, such as standard input. It tells nothing of content, and each error of
/// the reader is a fault.
#[derive(Drop)]
pub struct StdSource<R> {
    input: R,
    faults: u64,
    ghost in_range: { faults < 2 ^ 64 },
}

impl<R: Read> StdSource<R> {
    ghost use Rattle.fp_ends.specs.Standard.{read_faults, reader_of};

    /// A source that reads from `input` and has had no fault.
    pub fn new(input: R) -> StdSource<R>
        ensures reader { reader_of result ≡ input }
        ensures faults { read_faults result ≡ 0 }
    {
        StdSource { input, faults: 0 }
    }
}

impl<R: Read> Source for StdSource<R> {
    ghost left = { λ _. None };

    ghost faults = { λ s. s.faults };

    ghost is_sure = { λ _. false };

    ghost counted = { λ s. s.in_range };

    ghost use Rattle.fp_ends.specs.Standard.{read_faults, reader_of};

    fn read(&mut self, into: &mut [u8]) -> Result<usize, Failed>
        ensures bound { ReadsAtMost result into.new }
        ensures bytes { ReadConsumes None None result into.new }
        ensures cause { HasCause (read_faults self.old) (read_faults self.new) result }
        ensures sure { false ≡ true → IsOk result }
        ensures stays { false ≡ false }
        // The bytes are the reader's next ones, and the end is its end.
        ensures reader { ReadConsumes (R.remaining (reader_of self.old)) (R.remaining (reader_of self.new)) result into.new }
        ensures counts { CountsFaults (read_faults self.old) (read_faults self.new) result }
    {
        match self.input.read(into) {
            Ok(count) => Ok(count),
            Err(_) => {
                self.faults = self.faults.saturating_add(1);
                Err(Failed)
            }
        }
    }
}

/// Writes to a std writer, such as standard output. It tells nothing of content, and each error of
/// the writer is a fault, as is each call in which it takes nothing of a piece with bytes.
#[derive(Drop)]
pub struct StdSink<W> {
    output: W,
    faults: u64,
    ghost in_range: { faults < 2 ^ 64 },
}

impl<W: Write> StdSink<W> {
    ghost use Rattle.fp_ends.specs.Standard.{write_faults, writer_of};

    /// A sink that writes to `output` and has had no fault.
    pub fn new(output: W) -> StdSink<W>
        ensures writer { writer_of result ≡ output }
        ensures faults { write_faults result ≡ 0 }
    {
        StdSink { output, faults: 0 }
    }
}

impl<W: Write> Sink for StdSink<W> {
    ghost taken = { λ _. None };

    ghost faults = { λ s. s.faults };

    ghost sure_room = { λ _. 0 };

    ghost counted = { λ s. s.in_range };

    ghost use Rattle.fp_ends.specs.Standard.{write_faults, writer_of};

    fn write(&mut self, piece: &[u8]) -> Result<usize, Failed>
        ensures bound { WritesAtMost result piece.now }
        ensures bytes { WriteAppends None None result piece.now }
        ensures moves { IfOk result (λ n. n ≡ 0 → piece.now ≡ []) }
        ensures cause { HasCause (write_faults self.old) (write_faults self.new) result }
        ensures sure { 1 ≤ length piece.now → length piece.now ≤ 0 → IsOk result }
        ensures room { IfOk result (λ n. 0 ≤ 0 + n) }
        // The writer has the bytes that were taken, and no others.
        ensures writer { WriteAppends (W.contents (writer_of self.old)) (W.contents (writer_of self.new)) result piece.now }
        ensures counts { CountsFaults (write_faults self.old) (write_faults self.new) result }
    {
        if let Ok(count) = self.output.write(piece) {
            if count > 0 || piece.is_empty() {
                return Ok(count);
            }
        }
        self.faults = self.faults.saturating_add(1);
        Err(Failed)
    }
}
