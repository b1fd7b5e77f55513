//! Says where request bytes come from, and where reply bytes go.
ghost use Rattle.std.specs.Prelude.{◌≡◌, ◌<◌, ◌≤◌, [], ◌-◌, ◌^◌, ℕ, List, Option, Some};
ghost use Rattle.std.specs.Prelude.{IfOk, OnOk, OnErr, length, take, if◌then◌else◌};
ghost use Rattle.std.specs.Io.KnownBytes.{Appends, Consumes, IsAtEnd, Keeps};
ghost use Rattle.wire.specs.Devices.{Rises};
ghost use Rattle.wire.specs.Paged.{Puts};

use std::alloc::Global;
use std::io::{ErrorKind, Read, Write};

/// Says that a read or a write failed, or that a write took no byte.
#[derive(Clone, Copy, Debug, PartialEq, Eq)]
pub struct DeviceFailed;

/// Gives request bytes.
///
/// A source may show its bytes to contracts, as one over memory does. One over a reader shows them
/// if the reader does, so not over standard input or a connection.
pub trait Source {
    // The bytes that it gives up to its end, if it shows them.
    ghost left: { Self → Option (List ℕ) };

    // At most so many reads give bytes.
    ghost turns: { Self → ℕ };

    // How many reads have failed. The count stops when 64 bits are full.
    ghost failures: { Self → ℕ };

    /// Reads some bytes into the front of the buffer. Returns their number, which is 0 only at the
    /// end.
    ///
    /// # Errors
    /// `DeviceFailed` if the read failed.
    fn read(&mut self, buffer: &mut [u8]) -> Result<usize, DeviceFailed>
        requires room { 0 < length buffer.old }
        ensures count { IfOk result (λ n. n ≤ length buffer.new) }
        ensures bytes { IfOk result (λ n.
            Consumes (left self.old) (left self.new) (take n buffer.new)) }
        ensures end { IfOk result (λ n. n ≡ 0 → IsAtEnd (left self.old)) }
        ensures fewer { IfOk result (λ n. 0 < n → turns self.new < turns self.old) }
        ensures no_more { OnOk result (turns self.new ≤ turns self.old) }
        ensures ok { OnOk result (failures self.new ≡ failures self.old) }
        ensures failed { OnErr result (Rises (failures self.old) (failures self.new)) };
}

/// Takes reply bytes. Like a source it may show contracts the bytes that it took.
pub trait Sink {
    // The bytes that it has taken, if it shows them.
    ghost taken: { Self → Option (List ℕ) };

    // How many writes have failed. The count stops when 64 bits are full.
    ghost failures: { Self → ℕ };

    /// Takes some bytes from the front of these, at least one, and returns their number.
    ///
    /// # Errors
    /// `DeviceFailed` if the write failed; then it took none.
    fn write(&mut self, bytes: &[u8]) -> Result<usize, DeviceFailed>
        requires some { 0 < length bytes.now }
        ensures count { IfOk result (λ n. n ≤ length bytes.now) }
        ensures progress { IfOk result (λ n. 0 < n) }
        ensures bytes { IfOk result (λ n.
            Appends (taken self.old) (taken self.new) (take n bytes.now)) }
        ensures ok { OnOk result (failures self.new ≡ failures self.old) }
        ensures failed { OnErr result (Rises (failures self.old) (failures self.new)) }
        ensures kept { OnErr result (Keeps (taken self.old) (taken self.new)) };
}

/// Is a source over bytes in memory: those that are not yet read.
#[derive(Drop)]
pub struct MemorySource<'a> {
    /// Holds the bytes that are not yet read.
    pub bytes: &'a [u8],
}

impl<'a> MemorySource<'a> {
    /// Returns a source of these bytes.
    pub fn new(bytes: &'a [u8]) -> MemorySource<'a>
        ensures { result.bytes.now ≡ bytes.now }
    {
        MemorySource { bytes }
    }
}

impl Source for MemorySource<'_> {
    ghost left = { λ s. Some s.bytes.now };

    ghost turns = { λ s. length s.bytes.now };

    ghost failures = { λ _. 0 };

    fn read(&mut self, buffer: &mut [u8]) -> Result<usize, DeviceFailed> {
        let count = self.bytes.len().min(buffer.len());
        let (given, rest) = self.bytes.split_at(count);
        buffer[..count].copy_from_slice(given);
        self.bytes = rest;
        Ok(count)
    }
}

/// Is a sink over a list in memory: the bytes that it took. Out of memory is a failure.
#[derive(Drop)]
pub struct MemorySink {
    /// Holds the bytes that it took, in order.
    pub bytes: Vec<u8>,
    /// Counts the writes that failed; the count stops when 64 bits are full.
    pub failures: u64,
}

impl MemorySink {
    /// Returns a sink that has taken nothing. Takes no memory yet.
    pub fn new(alloc: Global) -> MemorySink
        ensures empty { result.bytes.items ≡ [] }
        ensures sound { result.failures ≡ 0 }
    {
        MemorySink {
            bytes: Vec::new(alloc),
            failures: 0,
        }
    }
}

impl Sink for MemorySink {
    ghost taken = { λ s. Some s.bytes.items };

    ghost failures = { λ s. s.failures };

    fn write(&mut self, bytes: &[u8]) -> Result<usize, DeviceFailed> {
        if self.bytes.extend_from_slice(bytes).is_err() {
            self.failures = self.failures.saturating_add(1);
            return Err(DeviceFailed);
        }
        Ok(bytes.len())
    }
}

/// Is a source over a reader, such as standard input or a `&TcpStream`. It shows its bytes if the
/// reader does, which these two do not.
#[derive(Drop)]
pub struct ReaderSource<R> {
    /// Holds what is read.
    reader: R,
    /// Counts how often the reader may still be read.
    turns: u64,
    /// Counts the reads that failed; the count stops when 64 bits are full.
    pub failures: u64,
}

impl<R: Read> ReaderSource<R> {
    /// Returns a source of what the reader reads.
    pub fn new(reader: R) -> ReaderSource<R>
        ensures reader { result.reader ≡ reader }
        ensures turns { result.turns ≡ 2 ^ 64 - 1 }
        ensures sound { result.failures ≡ 0 }
    {
        ReaderSource {
            reader,
            turns: u64::MAX,
            failures: 0,
        }
    }
}

impl<R> ReaderSource<R> {
    // Counts one more failed read.
    fn fail(&mut self) -> DeviceFailed
        ensures counted { Rises self.old.failures self.new.failures }
    {
        self.failures = self.failures.saturating_add(1);
        DeviceFailed
    }
}

impl<R: Read> Source for ReaderSource<R> {
    ghost left = { λ s. R.remaining s.reader };

    ghost turns = { λ s. s.turns };

    ghost failures = { λ s. s.failures };

    // A read that a signal interrupted is tried again. After 2^64 - 1 reads the next one fails.
    fn read(&mut self, buffer: &mut [u8]) -> Result<usize, DeviceFailed> {
        while self.turns > 0 {
            self.turns -= 1;
            match self.reader.read(buffer) {
                Ok(count) => return Ok(count),
                Err(error) => {
                    if error.kind() != ErrorKind::Interrupted {
                        return Err(self.fail());
                    }
                }
            }
        }
        Err(self.fail())
    }
}

/// Is a sink over a writer, such as standard output or a `&TcpStream`. It shows the bytes that it
/// took if the writer does, which these two do not.
#[derive(Drop)]
pub struct WriterSink<W> {
    /// Holds what is written to.
    writer: W,
    /// Counts the writes that failed; the count stops when 64 bits are full.
    pub failures: u64,
}

impl<W: Write> WriterSink<W> {
    /// Returns a sink that passes its bytes to the writer.
    pub fn new(writer: W) -> WriterSink<W>
        ensures writer { result.writer ≡ writer }
        ensures sound { result.failures ≡ 0 }
    {
        WriterSink {
            writer,
            failures: 0,
        }
    }
}

impl<W> WriterSink<W> {
    // Counts one more failed write.
    fn fail(&mut self) -> DeviceFailed
        ensures counted { Rises self.old.failures self.new.failures }
        ensures kept { self.new.writer ≡ self.old.writer }
    {
        self.failures = self.failures.saturating_add(1);
        DeviceFailed
    }
}

impl<W: Write> Sink for WriterSink<W> {
    ghost taken = { λ s. W.contents s.writer };

    ghost failures = { λ s. s.failures };

    fn write(&mut self, bytes: &[u8]) -> Result<usize, DeviceFailed> {
        for _ in 0..u64::MAX {
            match self.writer.write(bytes) {
                Ok(0) => return Err(self.fail()),
                Ok(count) => return Ok(count),
                Err(error) => {
                    if error.kind() != ErrorKind::Interrupted {
                        return Err(self.fail());
                    }
                }
            }
        }
        Err(self.fail())
    }
}

/// Writes all of these bytes, in one write if the sink takes them so.
///
/// # Errors
/// `DeviceFailed` if a write failed; then the sink has taken a prefix of them.
pub fn put<K: Sink>(sink: &mut K, bytes: &[u8]) -> Result<(), DeviceFailed>
    ensures { Puts (K.taken sink.old) (K.taken sink.new) (K.failures sink.old) (K.failures sink.new)
        result bytes.now }
{
    let mut rest = bytes;
    while !rest.is_empty() {
        let count = sink.write(rest)?;
        let (_, more) = rest.split_at(count);
        rest = more;
    }
    Ok(())
}
