ghost use Rattle.std.specs.Prelude.{◌≡◌, ◌+◌, ◌-◌, ◌<◌, ◌≤◌, ◌^◌, ℕ, length, slice_index};
ghost use Rattle.std.specs.Bool.{OnTrue};
ghost use Rattle.lj_bitmap.specs.Words.{AreFull};

use std::simd::prelude::*;

// The number of words from the first on that have all bits set.
pub fn full_words(words: &[u64]) -> usize
    ensures within { result ≤ length words.now }
    ensures full { AreFull words.now 0 result }
    ensures stop { result < length words.now → slice_index words.now result < 2 ^ 64 - 1 }
{
    let mut i = full_groups(words);
    while i < words.len() && words[i] == u64::MAX {
        i += 1;
    }
    i
}

// A number of words from the first on that have all bits set: as many groups of eight as there are.
fn full_groups(words: &[u64]) -> usize
    ensures within { result ≤ length words.now }
    ensures full { AreFull words.now 0 result }
{
    let mut i = 0;
    while words.len() - i >= 8 && eight_are_full(words, i) {
        i += 8;
    }
    i
}

// Whether the eight words from a place on have all bits set.
#[inline(always)]
fn eight_are_full(words: &[u64], i: usize) -> bool
    requires { i + 8 ≤ length words.now }
    ensures { OnTrue result (AreFull words.now i (i + 8)) }
{
    u64x8::from_slice(&words[i..]).reduce_and() == u64::MAX
}
