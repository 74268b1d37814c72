// A reader and a writer of std as a source and a sink.
ghost use Rattle.std.specs.Prelude.{◌≡◌, ◌==◌, ℕ, ◌-◌, ◌^◌, ◌<◌, ◌≤◌, List, length, None, IfOk, IfSome, OnOk, OnErr, if◌then◌else◌};
ghost use Rattle.std.specs.Io.KnownBytes.{ReadConsumes};
ghost use Rattle.map_io.specs.Calls.{counted};
ghost use Rattle.map_io.specs.SinkTold.{CountsMore, TakesFront, TakesNone, told_by_faults};

use super::sink::Sink;
use super::source::{Failed, Source, count_fault};
use std::io::{Read, Write};
use std::marker::Model;

/// A reader of std as a source. Contracts see it as its count of faults.
///
/// It tells no bytes, and each `Err` of the reader is a fault, an interrupted read too. That the
/// bytes and errors of the reader are those of the outside is trusted, and so is the `match` in
/// `read` that hands them on.
#[derive(Drop)]
pub struct StdSource<R> {
    reader: R,
    faults: u64,
}

impl<R> Model for StdSource<R> {
    ghost use Rattle.std.specs.Prelude.{ℕ, ◌-◌, ◌^◌, ◌≤◌};

    ghost Value = { ℕ };

    ghost view = { λ s. s.faults };

    ghost invariant = { λ s. s.faults ≤ 2 ^ 64 - 1 };
}

impl<R: Read> StdSource<R> {
    /// Wraps a reader, with no fault so far.
    pub fn new(reader: R) -> StdSource<R>
        ensures { result ≡ 0 }
    {
        StdSource { reader, faults: 0 }
    }
}

impl<R: Read> Source for StdSource<R> {
    ghost rest = { λ _. None };

    ghost faults = { λ s. s };

    ghost filled = { λ _. None };

    /// Makes one call of the reader.
    fn read(&mut self, into: &mut [u8]) -> Result<usize, Failed>
        requires { 0 < length into.old }
        ensures bound { IfOk result (λ n. n ≤ length into.old) }
        ensures taken { ReadConsumes None None result into.new }
        ensures bounded { self.new ≤ 2 ^ 64 - 1 }
        ensures failed { OnErr result (self.new ≡ counted self.old) }
        ensures succeeded { OnOk result (self.new ≡ self.old) }
        ensures filled { IfOk result (λ n. CountsMore None None (if n == length into.old then 1 else 0)) }
        ensures unfilled { OnErr result (CountsMore None None 0) }
    {
        match self.reader.read(into) {
            Ok(given) => Ok(given),
            Err(_) => Err(count_fault(&mut self.faults)),
        }
    }
}

/// A writer of std as a sink. Contracts see it as its count of faults.
///
/// It tells no bytes. An `Err` of the writer, an `Ok(0)` and a flush that fails are faults. That
/// the writer and its flush do what they answer is trusted, and so are the lines that hand the
/// answers on.
#[derive(Drop)]
pub struct StdSink<W> {
    writer: W,
    faults: u64,
}

impl<W> Model for StdSink<W> {
    ghost use Rattle.std.specs.Prelude.{ℕ, ◌-◌, ◌^◌, ◌≤◌};

    ghost Value = { ℕ };

    ghost view = { λ s. s.faults };

    ghost invariant = { λ s. s.faults ≤ 2 ^ 64 - 1 };
}

impl<W: Write> StdSink<W> {
    /// Wraps a writer, with no fault so far.
    pub fn new(writer: W) -> StdSink<W>
        ensures { result ≡ 0 }
    {
        StdSink { writer, faults: 0 }
    }
}

impl<W: Write> Sink for StdSink<W> {
    ghost told = { told_by_faults };

    /// Makes one call of the writer's `write`, and a flush.
    ///
    /// Where the flush fails the writer may have taken bytes.
    fn write(&mut self, piece: &[u8]) -> Result<usize, Failed>
        requires { 0 < length piece.now }
        ensures bound { IfOk result (λ n. (1 ≤ n) × (n ≤ length piece.now)) }
        ensures taken { IfOk result (TakesFront (told_by_faults self.old) (told_by_faults self.new) piece.now) }
        ensures failed { OnErr result (TakesNone (told_by_faults self.old) (told_by_faults self.new)) }
        ensures bounded { self.new ≤ 2 ^ 64 - 1 }

        ensures refused { OnErr result (self.new ≡ counted self.old) }
    {
        match write_and_flush(&mut self.writer, piece) {
            Some(taken) => Ok(taken),
            None => Err(count_fault(&mut self.faults)),
        }
    }
}

// How many bytes the writer took and flushed, or `None` at a fault.
fn write_and_flush<W: Write>(writer: &mut W, piece: &[u8]) -> Option<usize>
    ensures { IfSome result (λ n. (1 ≤ n) × (n ≤ length piece.now)) }
{
    let taken = writer.write(piece).ok()?;
    if taken == 0 {
        return None;
    }
    writer.flush().ok()?;
    Some(taken)
}
