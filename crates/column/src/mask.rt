//! Keeps lists of truths, 64 in a word.

ghost use Rattle.std.specs.Prelude.{◌≡◌, ◌≢◌, ◌<◌, ◌≤◌, ◌+◌, ◌++◌, ◌∷◌, ◌==◌, ◌/◌, ◌%◌, [], ℕ};
ghost use Rattle.std.specs.Prelude.{List, IfOk, OnOk, OnErr, IfErr, length, slice_index_or};
ghost use Rattle.std.specs.Prelude.{slice_range, slice_set, take, replicate, true, false, All};
ghost use Rattle.column.specs.Bits.{IsClear, at_places, bits, chosen, place, true_places};
ghost use Rattle.column.specs.Bits.{word_count};

use super::MAX_ROWS;
use super::words::Words;
use std::alloc::{AllocError, Global};
use std::marker::Model;

/// Holds at most `MAX_ROWS` truths, a bit each; the bits past the last are 0. Up to 64 of them lie
/// in the mask itself, and take no memory.
#[derive(Drop)]
pub struct Mask {
    /// Holds the truths, 64 to a word, the first one in the lowest bit.
    words: Words,
    /// Counts the truths.
    len: usize,
}

impl Model for Mask {
    ghost use Rattle.std.specs.Prelude.{List, Bool, ◌≤◌};
    ghost use Rattle.column.specs.Bits.{IsClear, bits};

    ghost Value = { List Bool };

    ghost view = { λ m. bits m.len m.words };

    ghost invariant = { λ m. IsClear m.len m.words × (m.len ≤ 1024) };
}

impl Mask {
    /// Makes a mask of no truths. Takes no memory.
    pub(crate) fn new(alloc: Global) -> Mask
        ensures { result ≡ [] }
    {
        Mask {
            words: Words::new(alloc),
            len: 0,
        }
    }

    /// Makes a mask of no truths, with room for `count`.
    ///
    /// # Errors
    /// `AllocError` when out of memory.
    pub fn with_capacity(alloc: Global, count: usize) -> Result<Mask, AllocError>
        ensures { IfOk result (λ m. m ≡ []) }
    {
        let words = Words::with_capacity(alloc, count.div_ceil(64))?;
        Ok(Mask { words, len: 0 })
    }

    /// Makes a mask of the first `len` bits of these words.
    ///
    /// # Errors
    /// `AllocError` when out of memory; then nothing has changed.
    pub fn from_words(alloc: Global, words: &[u64], len: usize) -> Result<Mask, AllocError>
        requires few { len ≤ MAX_ROWS }
        requires clear { IsClear len words.now }
        ensures { IfOk result (λ m. m ≡ bits len words.now) }
    {
        let words = Words::from_slice(alloc, words)?;
        Ok(Mask { words, len })
    }

    /// Makes a mask of `count` truths, all of them this one.
    ///
    /// # Errors
    /// `AllocError` when out of memory.
    pub fn filled(alloc: Global, truth: bool, count: usize) -> Result<Mask, AllocError>
        requires { count ≤ MAX_ROWS }
        ensures { IfOk result (λ m. m ≡ replicate count truth) }
    {
        if count == 0 {
            return Mask::with_capacity(alloc, 0);
        }
        if count > 64 {
            return Mask::filled_by_words(alloc, truth, count);
        }
        Mask::from_words(alloc, &[all_bits(truth, count)], count)
    }

    /// Does what `filled` does, for any number of words.
    fn filled_by_words(alloc: Global, truth: bool, count: usize) -> Result<Mask, AllocError>
        requires { count ≤ MAX_ROWS }
        ensures { IfOk result (λ m. m ≡ replicate count truth) }
    {
        let mut mask = Mask::with_capacity(alloc, count)?;
        let mut from = 0;
        while from < count {
            let more = (count - from).min(64);
            mask.push_word(all_bits(truth, more), more)?;
            from += more;
        }
        Ok(mask)
    }

    /// Appends the first `count` bits of a word, where the bits so far fill whole words.
    ///
    /// # Errors
    /// `AllocError` when out of memory; then nothing has changed.
    pub(crate) fn push_word(&mut self, word: u64, count: usize) -> Result<(), AllocError>
        requires whole { length self.old % 64 ≡ 0 }
        requires few { length self.old + count ≤ MAX_ROWS }
        requires clear { IsClear count (word ∷ []) }
        ensures ok { OnOk result (self.new ≡ self.old ++ bits count (word ∷ [])) }
        ensures err { OnErr result (self.new ≡ self.old) }
    {
        self.words.push(word)?;
        self.len += count;
        Ok(())
    }

    /// Appends a truth.
    ///
    /// # Errors
    /// `AllocError` when out of memory; then nothing has changed.
    pub fn push(&mut self, truth: bool) -> Result<(), AllocError>
        requires { length self.old < MAX_ROWS }
        ensures ok { OnOk result (self.new ≡ self.old ++ truth ∷ []) }
        ensures err { OnErr result (self.new ≡ self.old) }
    {
        push_bit(&mut self.words, self.len, truth)?;
        self.len += 1;
        Ok(())
    }

    /// Returns the number of truths.
    pub fn len(&self) -> usize
        ensures value { result ≡ length self.now }
        ensures few { result ≤ MAX_ROWS }
    {
        self.len
    }

    /// Returns whether there are no truths.
    pub fn is_empty(&self) -> bool
        ensures { result ≡ (length self.now == 0) }
    {
        self.len == 0
    }

    /// Returns the truth at a place.
    pub fn get(&self, i: usize) -> bool
        requires { i < length self.now }
        ensures { result ≡ slice_index_or self.now i false }
    {
        self.words.as_slice()[i / 64] >> (i % 64) & 1 == 1
    }

    /// Copies the truths from the place `from` to below the place `to`, as far as there are any.
    ///
    /// # Errors
    /// `AllocError` when out of memory; then nothing has changed.
    pub fn part(&self, alloc: Global, from: usize, to: usize) -> Result<Mask, AllocError>
        ensures { IfOk result (λ m. m ≡ slice_range self.now from to) }
    {
        if from % 64 == 0 {
            self.part_by_words(alloc, from, to)
        } else {
            self.part_by_bits(alloc, from, to)
        }
    }

    /// Does what `part` does where the part starts with a word.
    fn part_by_words(&self, alloc: Global, from: usize, to: usize) -> Result<Mask, AllocError>
        requires { from % 64 ≡ 0 }
        ensures { IfOk result (λ m. m ≡ slice_range self.now from to) }
    {
        let end = to.min(self.len);
        if end <= from {
            return Mask::with_capacity(alloc, 0);
        }
        let part = &self.words.as_slice()[from / 64..(end + 63) / 64];
        let mut words = Words::from_slice(alloc, part)?;
        clear_past(&mut words, end - from);
        Ok(Mask {
            words,
            len: end - from,
        })
    }

    /// Does what `part` does where the part starts within a word.
    fn part_by_bits(&self, alloc: Global, from: usize, to: usize) -> Result<Mask, AllocError>
        ensures { IfOk result (λ m. m ≡ slice_range self.now from to) }
    {
        let end = to.min(self.len());
        let mut mask = Mask::with_capacity(alloc, end.saturating_sub(from))?;
        for i in from..end {
            mask.push(self.get(i))?;
        }
        Ok(mask)
    }

    /// Copies the truths at these places, in their order.
    ///
    /// # Errors
    /// `AllocError` when out of memory; then nothing has changed.
    pub fn picked(&self, alloc: Global, places: &[usize]) -> Result<Mask, AllocError>
        requires few { length places.now ≤ MAX_ROWS }
        requires within { All (λ i. i < length self.now) places.now }
        ensures { IfOk result (λ m. m ≡ at_places false places.now self.now) }
    {
        let mut mask = Mask::with_capacity(alloc, places.len())?;
        for place in places {
            mask.push(self.get(*place))?;
        }
        Ok(mask)
    }

    /// Keeps the truths at the places where `mask` is true. Takes no memory.
    pub fn keep(&mut self, mask: &Mask)
        requires { length mask.now ≡ length self.old }
        ensures { self.new ≡ chosen mask.now self.old }
    {
        if let (Some(word), Some(choice)) = (self.words.only(), mask.words.only()) {
            let (kept, count) = kept_bits(word, choice, self.len);
            self.words.set(0, kept);
            self.words.truncate((count + 63) / 64);
            self.len = count;
            return;
        }
        self.keep_each(mask);
    }

    /// Does what `keep` does in any number of words, truth by truth.
    fn keep_each(&mut self, mask: &Mask)
        requires { length mask.now ≡ length self.old }
        ensures { self.new ≡ chosen mask.now self.old }
    {
        let mut kept = 0;
        for i in 0..self.len() {
            if mask.get(i) {
                let truth = self.get(i);
                self.set(kept, truth);
                kept += 1;
            }
        }
        self.truncate(kept);
    }

    /// Writes the truth at a place.
    fn set(&mut self, i: usize, truth: bool)
        requires { i < length self.old }
        ensures { self.new ≡ slice_set self.old i truth }
    {
        if self.get(i) != truth {
            flip_bit(&mut self.words, i);
        }
    }

    /// Keeps the first `count` truths.
    fn truncate(&mut self, count: usize)
        requires { count ≤ length self.old }
        ensures { self.new ≡ take count self.old }
    {
        self.words.truncate((count + 63) / 64);
        clear_past(&mut self.words, count);
        self.len = count;
    }

    /// Returns the places that are true, in order.
    ///
    /// # Errors
    /// `AllocError` when out of memory; then nothing has changed.
    pub fn places(&self, alloc: Global) -> Result<Vec<usize>, AllocError>
        ensures value { IfOk result (λ ps. ps.items ≡ true_places self.now) }
        ensures few { IfOk result (λ ps. length ps.items ≤ MAX_ROWS) }
        ensures within { IfOk result (λ ps. All (λ i. i < length self.now) ps.items) }
    {
        let mut places = Vec::new(alloc);
        for i in 0..self.len() {
            if self.get(i) {
                places.push(i)?;
            }
        }
        Ok(places)
    }

    /// Lends the words, for the lanes.
    pub fn words(&self) -> &[u64]
        ensures value { bits (length self.now) result.now ≡ self.now }
        ensures clear { IsClear (length self.now) result.now }
    {
        self.words.as_slice()
    }
}

/// Keeps those of the first `len` bits of a word where `choice` has a bit set, and moves them
/// together. Returns them in a word, and how many there are.
fn kept_bits(word: u64, choice: u64, len: usize) -> (u64, usize)
    requires { len ≤ 64 }
    ensures kept { bits result.1 (result.0 ∷ [])
        ≡ chosen (bits len (choice ∷ [])) (bits len (word ∷ [])) }
    ensures few { result.1 ≤ len }
    ensures clear { (i : ℕ) → result.1 ≤ i → place (result.0 ∷ []) i ≡ 0 }
{
    let mut kept = 0;
    let mut count = 0;
    for i in 0..len {
        if choice >> i & 1 == 1 {
            kept = with_truth(kept, count, word >> i & 1 == 1);
            count += 1;
        }
    }
    (kept, count)
}

/// Returns a word of `at` bits and one truth more.
fn with_truth(word: u64, at: usize, truth: bool) -> u64
    requires few { at < 64 }
    requires clear { (i : ℕ) → at ≤ i → place (word ∷ []) i ≡ 0 }
    ensures value { bits (at + 1) (result ∷ []) ≡ bits at (word ∷ []) ++ truth ∷ [] }
    ensures clear { (i : ℕ) → at + 1 ≤ i → place (result ∷ []) i ≡ 0 }
{
    if truth { with_bit(word, at) } else { word }
}

/// Appends a bit to the first `at`.
///
/// # Errors
/// `AllocError` when out of memory; then the words are unchanged.
fn push_bit(words: &mut Words, at: usize, truth: bool) -> Result<(), AllocError>
    requires few { at < MAX_ROWS }
    requires clear { IsClear at words.old }
    ensures clear { OnOk result (IsClear (at + 1) words.new) }
    ensures value { OnOk result (bits (at + 1) words.new
        ≡ bits at words.old ++ truth ∷ []) }
    ensures err { OnErr result (words.new ≡ words.old) }
{
    make_room(words, at)?;
    if truth {
        set_bit(words, at);
    }
    Ok(())
}

/// Adds a word for the bit `at`, where it has none.
///
/// # Errors
/// `AllocError` when out of memory; then the words are unchanged.
fn make_room(words: &mut Words, at: usize) -> Result<(), AllocError>
    requires { length words.old ≡ word_count at }
    ensures room { OnOk result (length words.new ≡ word_count (at + 1)) }
    ensures same { OnOk result ((i : ℕ) → place words.new i ≡ place words.old i) }
    ensures err { OnErr result (words.new ≡ words.old) }
{
    if at % 64 == 0 {
        words.push(0)?;
    }
    Ok(())
}

/// Sets the bit `at`.
fn set_bit(words: &mut Words, at: usize)
    requires { at / 64 < length words.old }
    ensures set { place words.new at ≡ 1 }
    ensures same { (i : ℕ) → i ≢ at → place words.new i ≡ place words.old i }
    ensures len { length words.new ≡ length words.old }
{
    let word = words.as_slice()[at / 64];
    words.set(at / 64, word | 1 << (at % 64));
}

/// Flips the bit `at`.
fn flip_bit(words: &mut Words, at: usize)
    requires { at / 64 < length words.old }
    ensures flipped { place words.new at + place words.old at ≡ 1 }
    ensures same { (i : ℕ) → i ≢ at → place words.new i ≡ place words.old i }
    ensures len { length words.new ≡ length words.old }
{
    let word = words.as_slice()[at / 64];
    words.set(at / 64, word ^ 1 << (at % 64));
}

/// Returns the word with the bit `at` set as well.
pub(crate) fn with_bit(word: u64, at: usize) -> u64
    requires { at < 64 }
    ensures set { place (result ∷ []) at ≡ 1 }
    ensures same { (i : ℕ) → i ≢ at → place (result ∷ []) i ≡ place (word ∷ []) i }
{
    word | 1 << at
}

/// Returns a word whose first `count` bits are all set, or none.
fn all_bits(truth: bool, count: usize) -> u64
    requires some { 1 ≤ count }
    requires few { count ≤ 64 }
    ensures value { bits count (result ∷ []) ≡ replicate count truth }
    ensures clear { IsClear count (result ∷ []) }
{
    if !truth {
        return 0;
    }
    if count == 64 {
        return u64::MAX;
    }
    (1 << count) - 1
}

/// Sets the bits from `len` on to 0, in as many words as `len` bits need.
fn clear_past(words: &mut Words, len: usize)
    requires { length words.old ≡ word_count len }
    ensures clear { IsClear len words.new }
    ensures same { (i : ℕ) → i < len → place words.new i ≡ place words.old i }
{
    if len % 64 != 0 {
        let word = words.as_slice()[len / 64];
        words.set(len / 64, word & ((1 << (len % 64)) - 1));
    }
}
