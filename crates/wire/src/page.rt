//! Gathers lines on their way to a sink.
ghost use Rattle.std.specs.Prelude.{◌≡◌, ◌++◌, [], ◌∷◌, true, codes, decimal};
ghost use Rattle.std.specs.Fmt.{signed_decimal};
ghost use Rattle.wire.specs.Paged.{Writes};

use crate::device::{Sink, put};
use crate::digits::{MOST_BYTES, put_digits, put_next_number};
use arrayvec::ArrayVec;

/// Limits the bytes that a page holds. A reply of some thousand rows is one write.
const PAGE: usize = 65_536;

/// Holds the bytes of lines that the sink has not yet got, and whether no write has failed.
///
/// It is on the stack, so that a reply takes no memory. What fits in goes to the sink in one write.
#[derive(Drop)]
pub(crate) struct Page {
    /// Holds the bytes that wait for the next write, at most `PAGE`.
    pub(crate) bytes: ArrayVec<u8, PAGE>,
    /// Says whether no write has failed.
    pub(crate) is_sound: bool,
}

impl Page {
    pub(crate) fn new() -> Page
        ensures empty { result.bytes.items ≡ [] }
        ensures sound { result.is_sound ≡ true }
    {
        Page {
            bytes: ArrayVec::new(),
            is_sound: true,
        }
    }

    /// Writes what is held to the sink.
    pub(crate) fn flush<K: Sink>(&mut self, sink: &mut K)
        ensures writes { Writes (K.taken sink.old) (K.failures sink.old) self.old (K.taken sink.new)
            (K.failures sink.new) self.new [] }
        ensures empty { self.new.bytes.items ≡ [] }
    {
        if !self.is_sound {
            self.bytes.clear();
            return;
        }
        self.is_sound = put(sink, self.bytes.as_slice()).is_ok();
        self.bytes.clear();
    }

    // Adds bytes that do not fit after those that were held.
    fn add_to_empty<K: Sink>(&mut self, sink: &mut K, bytes: &[u8])
        requires { self.old.bytes.items ≡ [] }
        ensures { Writes (K.taken sink.old) (K.failures sink.old) self.old (K.taken sink.new)
            (K.failures sink.new) self.new bytes.now }
    {
        if !self.is_sound {
            return;
        }
        if self.bytes.try_extend_from_slice(bytes).is_ok() {
            return;
        }
        self.is_sound = put(sink, bytes).is_ok();
    }

    /// Writes what is held to the sink, and adds bytes that do not fit after it.
    #[inline(never)]
    fn add_anew<K: Sink>(&mut self, sink: &mut K, bytes: &[u8])
        ensures { Writes (K.taken sink.old) (K.failures sink.old) self.old (K.taken sink.new)
            (K.failures sink.new) self.new bytes.now }
    {
        self.flush(sink);
        self.add_to_empty(sink, bytes);
    }

    /// Adds bytes to a line. Nothing more is written once a write has failed.
    #[inline(always)]
    pub(crate) fn add<K: Sink>(&mut self, sink: &mut K, bytes: &[u8])
        ensures { Writes (K.taken sink.old) (K.failures sink.old) self.old (K.taken sink.new)
            (K.failures sink.new) self.new bytes.now }
    {
        if self.bytes.try_extend_from_slice(bytes).is_ok() {
            return;
        }
        self.add_anew(sink, bytes);
    }

    /// Adds the decimal digits of a number.
    pub(crate) fn add_digits<K: Sink>(&mut self, sink: &mut K, number: u64)
        ensures { Writes (K.taken sink.old) (K.failures sink.old) self.old (K.taken sink.new)
            (K.failures sink.new) self.new (decimal number) }
    {
        let mut text = [0u8; MOST_BYTES];
        let start = put_digits(number, &mut text);
        self.add(sink, &text[start..]);
    }

    /// Adds the decimal digits of a place.
    pub(crate) fn add_place<K: Sink>(&mut self, sink: &mut K, place: usize)
        ensures { Writes (K.taken sink.old) (K.failures sink.old) self.old (K.taken sink.new)
            (K.failures sink.new) self.new (decimal place) }
    {
        self.add_digits(sink, place as u64);
    }

    /// Adds a number in decimal.
    pub(crate) fn add_number<K: Sink>(&mut self, sink: &mut K, number: i64)
        ensures { Writes (K.taken sink.old) (K.failures sink.old) self.old (K.taken sink.new)
            (K.failures sink.new) self.new (signed_decimal number) }
    {
        if number < 0 {
            self.add(sink, b"-");
        }
        self.add_digits(sink, number.unsigned_abs());
    }

    /// Adds a comma and a number in decimal, both at once.
    pub(crate) fn add_next_number<K: Sink>(&mut self, sink: &mut K, number: i64)
        ensures { Writes (K.taken sink.old) (K.failures sink.old) self.old (K.taken sink.new)
            (K.failures sink.new) self.new (codes "," ++ signed_decimal number) }
    {
        let mut text = [0u8; MOST_BYTES];
        let start = put_next_number(number, &mut text);
        self.add(sink, &text[start..]);
    }

    /// Adds a byte to a line.
    pub(crate) fn add_byte<K: Sink>(&mut self, sink: &mut K, byte: u8)
        ensures { Writes (K.taken sink.old) (K.failures sink.old) self.old (K.taken sink.new)
            (K.failures sink.new) self.new (byte ∷ []) }
    {
        if self.bytes.try_push(byte).is_ok() {
            return;
        }
        self.add(sink, &[byte]);
    }
}
