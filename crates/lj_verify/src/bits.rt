ghost use Rattle.std.specs.Prelude.{◌≡◌, ℕ, ◌+◌, ◌-◌, ◌*◌, ◌/◌, ◌%◌, ◌^◌, ◌<◌, ◌≤◌, bit_or, length, slice_index};
ghost use Rattle.std.specs.Int.{bit_at};
ghost use Rattle.lj_verify.specs.Marks.{IsAtBit, IsAtPrefix, IsBetween, Marks, shifted_word};

use crate::limits::{MAX_WORDS, RANK_LIMIT};

// Bits that are marked in the words of a range of ranks, of which the first has the ranks from `64 * start` on. What
// lies outside the range is passed over.

/// Marks the rank of each of the first bits of the string that is set, from the rank of bit 0. Cost: a step for each
/// word of the prefix that lies in the range.
#[inline(always)]
pub(crate) fn mark_prefix(words: &mut [u64], start: u64, rank: u64, string: &[u64], bits: u64)
    requires few_words { start + length words.old ≤ MAX_WORDS }
    requires fits { rank ≤ 2 * RANK_LIMIT }
    requires few { bits ≤ 64 * MAX_WORDS }
    requires room { bits ≤ 64 * length string.now }
    ensures { Marks start words.old words.new (IsAtPrefix rank string.now bits) }
{
    let place = rank / 64;
    let end = place + bits / 64 + 2;
    if place < start || end > start + words.len() as u64 {
        return mark_at_edge(words, start, rank, string, bits);
    }
    let part = &mut words[(place - start) as usize..(end - start) as usize];
    mark_each(part, place, rank, string, bits);
}

// Marks the prefix where a part of it may lie outside the range.
#[inline(never)]
fn mark_at_edge(words: &mut [u64], start: u64, rank: u64, string: &[u64], bits: u64)
    requires few_words { start + length words.old ≤ MAX_WORDS }
    requires fits { rank ≤ 2 * RANK_LIMIT }
    requires few { bits ≤ 64 * MAX_WORDS }
    requires room { bits ≤ 64 * length string.now }
    ensures { Marks start words.old words.new (IsAtPrefix rank string.now bits) }
{
    mark_each(words, start, rank, string, bits);
}

// Marks the prefix, word by word. In words that just hold it no test of a place is left after inlining.
#[inline(always)]
fn mark_each(words: &mut [u64], start: u64, rank: u64, string: &[u64], bits: u64)
    requires few_words { start + length words.old ≤ MAX_WORDS }
    requires fits { rank ≤ 2 * RANK_LIMIT }
    requires few { bits ≤ 64 * MAX_WORDS }
    requires room { bits ≤ 64 * length string.now }
    ensures { Marks start words.old words.new (IsAtPrefix rank string.now bits) }
{
    let full = bits / 64;
    let left = bits % 64;
    if full > 0 {
        mark_words(words, start, rank, &string[..full as usize]);
    }
    if left > 0 {
        let last = string[full as usize] & ((1 << left) - 1);
        mark_bits_at(words, start, rank / 64 + full, rank % 64, last);
    }
}

// Marks the rank of each bit of the string that is set.
#[inline(always)]
fn mark_words(words: &mut [u64], start: u64, rank: u64, string: &[u64])
    requires few_words { start + length words.old ≤ MAX_WORDS }
    requires fits { rank ≤ 2 * RANK_LIMIT }
    requires some { 0 < length string.now }
    requires few { length string.now ≤ MAX_WORDS }
    ensures { Marks start words.old words.new (IsAtPrefix rank string.now (64 * length string.now)) }
{
    let place = rank / 64;
    let shift = rank % 64;
    let len = string.len();
    mark_in_word(words, start, place, string[0] << shift);
    mark_between(words, start, place, shift, string);
    mark_in_word(
        words,
        start,
        place + len as u64,
        (string[len - 1] >> 1) >> (63 - shift),
    );
}

// Marks what lies in the words that have bits of two words of the string.
#[inline(always)]
fn mark_between(words: &mut [u64], start: u64, place: u64, shift: u64, string: &[u64])
    requires few_words { start + length words.old ≤ MAX_WORDS }
    requires fits { place ≤ 2 * RANK_LIMIT }
    requires shift { shift < 64 }
    requires few { length string.now ≤ MAX_WORDS }
    ensures { Marks start words.old words.new (IsBetween place shift string.now) }
{
    let from = (place + 1).max(start);
    let to = (place + string.len() as u64).min(start + words.len() as u64);
    if from < to {
        let upper = &string[(from - place) as usize..(to - place) as usize];
        let lower = &string[(from - place - 1) as usize..(to - place - 1) as usize];
        or_shifted(
            &mut words[(from - start) as usize..(to - start) as usize],
            upper,
            lower,
            shift,
        );
    }
}

// Each word gets the bits of `upper` that stay in it, and those that `lower`, the word before, shifts out.
#[inline(always)]
fn or_shifted(words: &mut [u64], upper: &[u64], lower: &[u64], shift: u64)
    requires shift { shift < 64 }
    requires upper { length upper.now ≡ length words.old }
    requires lower { length lower.now ≡ length words.old }
    ensures count { length words.new ≡ length words.old }
    ensures each { (i : ℕ) → i < length words.old →
        slice_index words.new i ≡ bit_or (slice_index words.old i) (shifted_word shift upper.now lower.now i) }
{
    for i in 0..words.len() {
        words[i] |= (upper[i] << shift) | ((lower[i] >> 1) >> (63 - shift));
    }
}

// Marks the rank of each bit that is set, from the rank of bit 0.
#[inline(always)]
pub(crate) fn mark_bits(words: &mut [u64], start: u64, rank: u64, bits: u64)
    requires few_words { start + length words.old ≤ MAX_WORDS }
    requires fits { rank ≤ 4 * RANK_LIMIT }
    ensures { Marks start words.old words.new (IsAtBit rank bits) }
{
    mark_bits_at(words, start, rank / 64, rank % 64, bits);
}

// Marks the rank of each bit that is set, where bit 0 has the rank of a bit of the word at a place.
#[inline(always)]
fn mark_bits_at(words: &mut [u64], start: u64, place: u64, shift: u64, bits: u64)
    requires few_words { start + length words.old ≤ MAX_WORDS }
    requires fits { place ≤ 2 ^ 40 }
    requires shift { shift < 64 }
    ensures { Marks start words.old words.new (IsAtBit (64 * place + shift) bits) }
{
    mark_in_word(words, start, place, bits << shift);
    mark_in_word(words, start, place + 1, (bits >> 1) >> (63 - shift));
}

// Marks the bits of the word at a place.
#[inline(always)]
fn mark_in_word(words: &mut [u64], start: u64, place: u64, bits: u64)
    requires few_words { start + length words.old ≤ MAX_WORDS }
    ensures { Marks start words.old words.new (λ r. (r / 64 ≡ place) × (bit_at bits (r % 64) ≡ 1)) }
{
    if start <= place && place - start < words.len() as u64 {
        words[(place - start) as usize] |= bits;
    }
}
