//! Rows of bits.

ghost use Rattle.std.specs.Prelude.{◌≡◌, ◌-◌, ◌^◌, ◌<◌, ◌≤◌, true, false, All, IfOk, length, replicate, slice_get, slice_set};
ghost use Rattle.fp_rows.specs.Bits.{and_bits, and_not_bits, with_range, are_all_false, first_true_from, count_true, added_bits};

use crate::NoMemory;
use crate::masks::{clear_words, fill_words, first_in, with_bit};
use crate::whole_rows::{add_words, any_bit, count_bits, keep_bits, lose_bits};
use std::alloc::Global;
use std::marker::Model;

/// Bits over words of 64. A contract sees them as a list of truth values.
///
/// No call but [`Row::new`] takes memory. A place is below the number of bits; a range is from
/// `from` up to and without `to`.
#[derive(Drop)]
pub struct Row {
    words: Vec<u64>,
    length: u32,
}

impl Model for Row {
    ghost use Rattle.std.specs.Prelude.{List, Bool};
    ghost use Rattle.fp_rows.specs.Words.{bits, IsTidy};

    ghost Value = { List Bool };

    ghost view = { λ r. bits r.words.items r.length };

    ghost invariant = { λ r. IsTidy r.words.items r.length };
}

impl Row {
    /// So many bits, all false. `NoMemory` only where no memory is found.
    pub fn new(alloc: Global, length: u32) -> Result<Row, NoMemory>
        ensures { IfOk result (λ r. r ≡ replicate length false) }
    {
        Ok(Row {
            words: vec![in alloc; 0; length.div_ceil(64) as usize]?,
            length,
        })
    }

    /// The bit at this place.
    pub fn get(&self, at: u32) -> bool
        requires { at < length self.now }
        ensures { slice_get self.now at ≡ Some result }
    {
        (self.words[(at / 64) as usize] >> (at % 64)) & 1 == 1
    }

    /// Makes the bit at this place `to`.
    pub fn set(&mut self, at: u32, to: bool)
        requires { at < length self.old }
        ensures bits { self.new ≡ slice_set self.old at to }
        ensures len { length self.new ≡ length self.old }
    {
        let place = (at / 64) as usize;
        self.words[place] = with_bit(self.words[place], at % 64, to);
    }

    /// Keeps the bits that the other row has too. It has as many bits.
    pub fn and_with(&mut self, other: &Row)
        requires { length self.old ≡ length other.now }
        ensures bits { self.new ≡ and_bits self.old other.now }
        ensures len { length self.new ≡ length self.old }
    {
        keep_bits(&mut self.words, &other.words);
    }

    /// Keeps the bits that the other row does not have. It has as many bits.
    pub fn and_not_with(&mut self, other: &Row)
        requires { length self.old ≡ length other.now }
        ensures bits { self.new ≡ and_not_bits self.old other.now }
        ensures len { length self.new ≡ length self.old }
    {
        lose_bits(&mut self.words, &other.words);
    }

    /// Makes the bits of the range true.
    pub fn fill_range(&mut self, from: u32, to: u32)
        requires order { from ≤ to }
        requires within { to ≤ length self.old }
        ensures bits { self.new ≡ with_range self.old from to true }
        ensures len { length self.new ≡ length self.old }
    {
        fill_words(&mut self.words, from, to);
    }

    /// Makes the bits of the range false.
    pub fn clear_range(&mut self, from: u32, to: u32)
        requires order { from ≤ to }
        requires within { to ≤ length self.old }
        ensures bits { self.new ≡ with_range self.old from to false }
        ensures len { length self.new ≡ length self.old }
    {
        clear_words(&mut self.words, from, to);
    }

    /// Whether no bit is true.
    pub fn is_zero(&self) -> bool
        ensures { result ≡ are_all_false self.now }
    {
        !any_bit(&self.words, self.length)
    }

    /// The least place from `at` on, which may be the number of bits, of a bit that is true; `None`
    /// exactly where there is none.
    pub fn first_from(&self, at: u32) -> Option<u32>
        requires { at ≤ length self.now }
        ensures { result ≡ first_true_from self.now at }
    {
        first_in(&self.words, at, self.length)
    }

    /// How many bits are true.
    pub fn count(&self) -> u32
        ensures { result ≡ count_true self.now }
    {
        count_bits(&self.words, self.length)
    }

    /// Adds one to each count whose bit is true. There are as many counts as bits, each with room
    /// for one more.
    pub fn add_to(&self, counts: &mut [u32])
        requires lengths { length counts.old ≡ length self.now }
        requires room { All (λ count. count < 2 ^ 32 - 1) counts.old }
        ensures { counts.new ≡ added_bits counts.old self.now }
    {
        add_words(&self.words, counts);
    }
}
