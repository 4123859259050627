//! The standard streams as a source and a sink. No clause says which bytes come or go there; how bytes pass through
//! is proved over readers and writers that tell them.
ghost use Rattle.std.specs.Prelude.{◌≡◌, ◌+◌, ◌-◌, ◌<◌, ◌≤◌, ℕ, length, take, min};
ghost use Rattle.std.specs.Prelude.{List, Option, None, OnOk};
ghost use Rattle.std.specs.Io.{ReadsAtMost};
ghost use Rattle.std.specs.Io.KnownBytes.{Consumes, IsAtEnd, Keeps, ReadConsumes};
ghost use Rattle.lsm_io.specs.Causes.{HasCause};
ghost use Rattle.lsm_io.specs.Takes.{Takes};
ghost use Rattle.lsm_io.specs.Buffer.{known_ahead};

use crate::counts::fault;
use crate::{Failed, Sink, Source};
use std::io;
use std::io::{Read, Write};
use std::marker::Model;

/// How many bytes of standard input are asked for at a time.
const BUFFER: usize = 16_384;

// A reader that gives from a buffer, and fills it by one read where it is empty.
#[derive(Drop)]
struct Buffered<R> {
    reader: R,
    buffer: [u8; BUFFER],
    at: usize,
    end: usize,
    ghost ordered: { at ≤ end },
    ghost within: { end ≤ length buffer },
}

impl<R: Read> Buffered<R> {
    // Fills an empty buffer by one read, and leaves one with bytes alone.
    fn fill(&mut self) -> Result<(), Failed>
        ensures same { Keeps
            (known_ahead self.old.buffer self.old.at self.old.end (R.remaining self.old.reader))
            (known_ahead self.new.buffer self.new.at self.new.end (R.remaining self.new.reader)) }
        ensures end { OnOk result (self.new.at ≡ self.new.end → IsAtEnd (R.remaining self.new.reader)) }
    {
        if self.at < self.end {
            return Ok(());
        }
        let count = self.reader.read(&mut self.buffer).map_err(|_| Failed)?;
        self.at = 0;
        self.end = count;
        Ok(())
    }

    // Gives what is buffered, as far as there is room.
    fn give(&mut self, into: &mut [u8]) -> usize
        ensures count { result ≡ min (length into.old) (self.old.end - self.old.at) }
        ensures bytes { (below : Option (List ℕ)) → Consumes
            (known_ahead self.old.buffer self.old.at self.old.end below)
            (known_ahead self.new.buffer self.new.at self.new.end below) (take result into.new) }
        ensures place { self.new.at ≡ self.old.at + result }
        ensures end { self.new.end ≡ self.old.end }
        ensures reader { self.new.reader ≡ self.old.reader }
    {
        let count = into.len().min(self.end - self.at);
        into[..count].copy_from_slice(&self.buffer[self.at..self.at + count]);
        self.at += count;
        count
    }

    // It never waits for more bytes while some are buffered, and loses none.
    fn read(&mut self, into: &mut [u8]) -> Result<usize, Failed>
        requires { 0 < length into.old }
        ensures bound { ReadsAtMost result into.new }
        ensures bytes { ReadConsumes
            (known_ahead self.old.buffer self.old.at self.old.end (R.remaining self.old.reader))
            (known_ahead self.new.buffer self.new.at self.new.end (R.remaining self.new.reader)) result into.new }
    {
        self.fill()?;
        Ok(self.give(into))
    }
}

/// Standard input. It reads ahead, so that one byte at a time is fast, but never waits for more while it has bytes. What
/// is read ahead is lost with it: make one a program. Contracts see its count of faults. A call that a signal
/// interrupts is a fault too.
///
/// Hand the runtime in by value. At a reference to one the check doesn't take the drop of this struct.
#[derive(Drop)]
pub struct StdSource<R: Input> {
    input: Buffered<R::Reader>,
    faults: u64,
}

impl<R: Input> Model for StdSource<R> {
    ghost use Rattle.std.specs.Prelude.{ℕ};

    ghost Value = { ℕ };

    ghost view = { λ s. s.faults };
}

impl<R: Input + Drop> StdSource<R> {
    /// Standard input of this runtime, from where it stands.
    pub fn new(rt: R) -> Self
        ensures { result ≡ 0 }
    {
        StdSource {
            input: Buffered {
                reader: rt.reader(),
                buffer: [0; BUFFER],
                at: 0,
                end: 0,
            },
            faults: 0,
        }
    }
}

impl<R: Input> Source for StdSource<R> {
    ghost left = { λ s. None };

    ghost faults = { λ s. s };

    fn read(&mut self, into: &mut [u8]) -> Result<usize, Failed> {
        match self.input.read(into) {
            Ok(count) => Ok(count),
            Err(_) => Err(fault(&mut self.faults)),
        }
    }
}

// Writes all the bytes, in as many writes as it takes. A write that takes nothing of some bytes is a failure.
fn write_whole<W: Write>(writer: &mut W, bytes: &[u8]) -> Result<(), Failed>
    ensures { Takes (W.contents writer.old) (W.contents writer.new) result bytes.now }
{
    let mut rest = bytes;
    while !rest.is_empty() {
        match writer.write(rest) {
            Ok(count) => {
                if count == 0 {
                    return Err(Failed);
                }
                rest = rest.split_at(count).1;
            }
            Err(_) => return Err(Failed),
        }
    }
    Ok(())
}

/// Standard output. Each write reaches the system before it is answered. Contracts see its count of faults.
#[derive(Drop)]
pub struct StdSink<R> {
    rt: R,
    faults: u64,
}

impl<R> Model for StdSink<R> {
    ghost use Rattle.std.specs.Prelude.{ℕ};

    ghost Value = { ℕ };

    ghost view = { λ s. s.faults };
}

impl<R: Print> StdSink<R> {
    /// Standard output of this runtime.
    pub fn new(rt: R) -> Self
        ensures { result ≡ 0 }
    {
        StdSink { rt, faults: 0 }
    }
}

impl<R: Print> Sink for StdSink<R> {
    ghost taken = { λ s. None };

    ghost faults = { λ s. s };

    fn write(&mut self, bytes: &[u8]) -> Result<(), Failed> {
        match write_whole(&mut io::writer(&self.rt), bytes) {
            Ok(()) => Ok(()),
            Err(_) => Err(fault(&mut self.faults)),
        }
    }
}
