//! Reads lines from a source that gives some bytes at a time.
ghost use Rattle.std.specs.Prelude.{◌≡◌, ◌<◌, ◌≤◌, ◌+◌, ◌-◌, ℕ, List, [], ◌++◌, IfOk};
ghost use Rattle.std.specs.Prelude.{OnOk, OnErr, IfSome, MatchOption, true, false};
ghost use Rattle.std.specs.Prelude.{length, take, slice_index, vec_len};
ghost use Rattle.std.specs.Prelude.{vec_capacity, Option};
ghost use Rattle.std.specs.Io.KnownBytes.{IsAtEnd, Consumes, Keeps as Same};
ghost use Rattle.wire.specs.Devices.{Rises};
ghost use Rattle.wire.specs.Lines.{longest_line};
ghost use Rattle.wire.specs.Reading.{EachOther, NoFeed, Keeps, BeginsWithLine};

use crate::device::{DeviceFailed, Source};
use crate::read::is_blank;
use std::alloc::{AllocError, Global};

const CHUNK: usize = 65_536;

/// Limits the bytes of a line, without its line feed.
pub(crate) const LONGEST_LINE: usize = 65_536;

const GROUP: usize = 64;

/// Holds the buffers of a reader of lines: the bytes that it has read ahead, and the line that it
/// read last.
#[derive(Drop)]
pub struct Lines {
    /// Holds 65,536 bytes, into which the source is read.
    chunk: Vec<u8>,
    /// Holds the place in `chunk` of the first byte that is read ahead.
    start: usize,
    /// Holds the place after the last byte that is read ahead.
    end: usize,
    /// Holds the line that was read last, without its line feed. There is room for 65,536 bytes. Of
    /// a longer line it has only a part.
    line: Vec<u8>,
    ghost ordered: { start ≤ end },
    ghost within: { end ≤ vec_len chunk },
    ghost size: { vec_len chunk ≡ 65536 },
    ghost room: { longest_line ≤ vec_capacity line },
}

/// Returns how many bytes in front have no line feed among them. It goes by whole groups of `GROUP`
/// bytes, which lanes look at together.
fn clear_front(bytes: &[u8]) -> usize
    ensures clear { EachOther bytes.now result }
    ensures within { result ≤ length bytes.now }
{
    let mut clear = 0;
    while bytes.len() - clear >= GROUP && !bytes[clear..clear + GROUP].contains(&b'\n') {
        clear += GROUP;
    }
    clear
}

/// Returns the place of the first line feed.
fn feed_at(bytes: &[u8]) -> Option<usize>
    ensures { MatchOption result (EachOther bytes.now (length bytes.now))
        (λ at. (at < length bytes.now) × (slice_index bytes.now at ≡ 10) × EachOther bytes.now at) }
{
    for at in clear_front(bytes)..bytes.len() {
        if bytes[at] == b'\n' {
            return Some(at);
        }
    }
    None
}

/// Returns whether the bytes have a line with its line feed that is not blank.
fn has_request(bytes: &[u8]) -> bool {
    let mut rest = bytes;
    while let Some(at) = feed_at(rest) {
        if !is_blank(&rest[..at]) {
            return true;
        }
        rest = &rest[at..][1..];
    }
    false
}

/// Adds a piece to what is kept of a line, and returns whether all of the line is kept.
fn keep(line: &mut Vec<u8>, fits: bool, piece: &[u8]) -> bool
    requires { longest_line ≤ vec_capacity line.old }
    ensures room { longest_line ≤ vec_capacity line.new }
    ensures kept { (seen : List ℕ) → Keeps fits line.old.items seen
        → Keeps result line.new.items (seen ++ piece.now) }
{
    if !fits || piece.len() > LONGEST_LINE - line.len().min(LONGEST_LINE) {
        return false;
    }
    line.extend_from_slice(piece).is_ok()
}

#[derive(Drop)]
struct Moved {
    /// Says whether a line feed ended the line.
    ended: bool,
    /// Says whether all bytes of the line are kept so far.
    fits: bool,
}

impl Lines {
    ghost use Rattle.wire.specs.Held.{pending, ahead, work, HoldsNothing, Moves, feed_len};

    /// Allocates the buffers. After that, reading lines takes no memory.
    ///
    /// # Errors
    /// `AllocError` when out of memory.
    pub fn new(alloc: Global) -> Result<Lines, AllocError>
        ensures { IfOk result (λ lines. pending lines ≡ []) }
    {
        let chunk = vec![in alloc; 0u8; CHUNK]?;
        let line = Vec::with_capacity(alloc, LONGEST_LINE)?;
        Ok(Lines {
            chunk,
            start: 0,
            end: 0,
            line,
        })
    }

    /// Returns the line that was read last, if it has at most 65,536 bytes.
    pub(crate) fn line(&self) -> &[u8]
        ensures { result.now ≡ self.now.line.items }
    {
        self.line.as_slice()
    }

    // Moves the pending bytes into the line, up to a line feed.
    fn move_piece(&mut self, fits: bool) -> Moved
        ensures piece { (piece : List ℕ) × NoFeed piece
            × Moves result.ended (pending self.old) (pending self.new) piece
            × (length piece + feed_len result.ended + (self.new.end - self.new.start)
            ≡ self.old.end - self.old.start)
            × ((seen : List ℕ) → Keeps fits self.old.line.items seen
            → Keeps result.fits self.new.line.items (seen ++ piece)) }
        ensures emptied { result.ended ≡ false → self.new.start ≡ self.new.end }
    {
        let piece = &self.chunk[self.start..self.end];
        match feed_at(piece) {
            Some(at) => {
                let fits = keep(&mut self.line, fits, &piece[..at]);
                self.start += at + 1;
                Moved { ended: true, fits }
            }
            None => {
                let fits = keep(&mut self.line, fits, piece);
                self.start = self.end;
                Moved { ended: false, fits }
            }
        }
    }

    /// Returns whether the bytes that are read ahead have a whole line that is not blank.
    pub(crate) fn holds_request(&self) -> bool {
        has_request(&self.chunk[self.start..self.end])
    }

    /// Takes the next line out of the bytes that are read ahead, if they have its line feed.
    /// Returns whether it has at most 65,536 bytes, which `line` then returns.
    pub(crate) fn held_line(&mut self) -> Option<bool>
        ensures line { (left : Option (List ℕ)) → MatchOption result (self.new ≡ self.old)
            (λ fits. BeginsWithLine (ahead self.old left) (ahead self.new left) fits
            self.new.line.items) }
        ensures fewer { (turns : ℕ) → IfSome result
            (λ _. work self.new turns < work self.old turns) }
    {
        let held = &self.chunk[self.start..self.end];
        let at = feed_at(held)?;
        self.line.clear();
        let fits = keep(&mut self.line, true, &held[..at]);
        self.start += at + 1;
        Some(fits)
    }

    // Reads more bytes, and returns whether there are any.
    fn fill<S: Source>(&mut self, source: &mut S) -> Result<bool, DeviceFailed>
        requires { self.old.start ≡ self.old.end }
        ensures bytes { OnOk result
            (Consumes (S.left source.old) (S.left source.new) (pending self.new)) }
        ensures end { IfOk result (λ more. more ≡ false → IsAtEnd (S.left source.old)
            × (self.new.start ≡ self.new.end)) }
        ensures some { IfOk result (λ more. more ≡ true → self.new.start < self.new.end) }
        ensures fewer { OnOk result (work self.new (S.turns source.new)
            ≤ work self.old (S.turns source.old)) }
        ensures kept { OnOk result (self.new.line ≡ self.old.line) }
        ensures ok { OnOk result (S.failures source.new ≡ S.failures source.old) }
        ensures failed { OnErr result (Rises (S.failures source.old) (S.failures source.new)) }
        ensures lost { OnErr result (HoldsNothing self.new) }
    {
        let count = source.read(&mut self.chunk)?;
        self.start = 0;
        self.end = count;
        Ok(count != 0)
    }

    // Reads if no bytes are pending, and returns whether there are any.
    fn ready<S: Source>(&mut self, source: &mut S) -> Result<bool, DeviceFailed>
        ensures same { OnOk result
            (Same (ahead self.old (S.left source.old)) (ahead self.new (S.left source.new))) }
        ensures end { IfOk result (λ more. more ≡ false
            → IsAtEnd (ahead self.old (S.left source.old))) }
        ensures some { IfOk result (λ more. more ≡ true → self.new.start < self.new.end) }
        ensures fewer { OnOk result (work self.new (S.turns source.new)
            ≤ work self.old (S.turns source.old)) }
        ensures kept { OnOk result (self.new.line ≡ self.old.line) }
        ensures ok { OnOk result (S.failures source.new ≡ S.failures source.old) }
        ensures failed { OnErr result (Rises (S.failures source.old) (S.failures source.new)) }
        ensures lost { OnErr result (HoldsNothing self.new) }
    {
        if self.start < self.end {
            return Ok(true);
        }
        let more = self.fill(source)?;
        Ok(more)
    }

    /// Reads the next line. Returns whether it has at most 65,536 bytes, which `line` then returns,
    /// or None at the end.
    pub(crate) fn next_line<S: Source>(
        &mut self,
        source: &mut S,
    ) -> Result<Option<bool>, DeviceFailed>
        ensures line { IfOk result (λ o. MatchOption o
            (IsAtEnd (ahead self.old (S.left source.old)))
            (λ fits. BeginsWithLine (ahead self.old (S.left source.old))
            (ahead self.new (S.left source.new)) fits self.new.line.items)) }
        ensures fewer { IfOk result (λ o. IfSome o
            (λ _. work self.new (S.turns source.new) < work self.old (S.turns source.old))) }
        ensures ok { OnOk result (S.failures source.new ≡ S.failures source.old) }
        ensures failed { OnErr result (Rises (S.failures source.old) (S.failures source.new)) }
        ensures lost { OnErr result (HoldsNothing self.new) }
    {
        self.line.clear();
        let mut fits = true;
        'pieces: loop {
            if !self.ready(source)? {
                if !fits {
                    return Ok(Some(false));
                }
                if self.line.is_empty() {
                    return Ok(None);
                }
                return Ok(Some(true));
            }
            let moved = self.move_piece(fits);
            fits = moved.fits;
            if moved.ended {
                return Ok(Some(fits));
            }
        }
    }
}
