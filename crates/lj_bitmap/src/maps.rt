ghost use Rattle.std.specs.Prelude.{◌≡◌, ◌+◌, ◌*◌, ◌/◌, ◌<◌, ◌≤◌, ◌^◌, not, true, false, length, replicate};
ghost use Rattle.std.specs.Prelude.{slice_index_or, slice_set, IfOk};
ghost use Rattle.std.specs.Borrow.{sem};
ghost use Rattle.std.specs.List.{position};
ghost use Rattle.lj_bitmap.specs.Marks.{marks_of, overwritten};
ghost use Rattle.lj_bitmap.specs.Lending.{LendsWords};

use crate::words::full_words;
use lj_base::{MAX_SETS, Memory};
use std::alloc::Global;
use std::marker::Model;

/// Which of the ranks below a limit are marked: one bit for each, seen as the list of their truth values.
#[derive(Debug, Drop)]
pub struct RankMap {
    words: Vec<u64>,
    len: u64,
}

impl Model for RankMap {
    ghost use Rattle.std.specs.Prelude.{◌≡◌, ◌≤◌, ◌+◌, ◌/◌, List, Bool, length};
    ghost use Rattle.lj_base.specs.declared.limits.TheConstants.{MAX_SETS};
    ghost use Rattle.lj_bitmap.specs.Marks.{marks_of};

    ghost Value = { List Bool };

    ghost view = { λ m. marks_of m.words.items m.len };

    ghost invariant = { λ m. (length m.words.items ≡ (m.len + 63) / 64) × (m.len ≤ MAX_SETS) };
}

impl RankMap {
    /// A map of the ranks below `len`, none of them marked. It takes a bit of memory for each, and is no larger than a
    /// check needs.
    pub fn new(alloc: Global, len: u64) -> Result<RankMap, Memory>
        requires { len ≤ MAX_SETS }
        ensures { IfOk result (λ marks. marks ≡ replicate len false) }
    {
        let words = vec![in alloc; 0; len.div_ceil(64) as usize]?;
        Ok(RankMap { words, len })
    }

    /// The number of ranks.
    pub fn len(&self) -> u64
        ensures { result ≡ length self.now }
    {
        self.len
    }

    /// Marks a rank.
    pub fn mark(&mut self, r: u64)
        requires { r < length self.old }
        ensures { self.new ≡ slice_set self.old r true }
    {
        self.words[(r / 64) as usize] |= 1 << (r % 64);
    }

    /// Takes the mark from a rank.
    pub fn unmark(&mut self, r: u64)
        requires { r < length self.old }
        ensures { self.new ≡ slice_set self.old r false }
    {
        self.words[(r / 64) as usize] &= !(1 << (r % 64));
    }

    /// Whether a rank is marked.
    pub fn has(&self, r: u64) -> bool
        requires { r < length self.now }
        ensures { result ≡ slice_index_or self.now r false }
    {
        (self.words[(r / 64) as usize] >> (r % 64)) & 1 == 1
    }

    /// The least rank that is not marked. Cost: a step for each eight words before it.
    pub fn first_clear(&self) -> Option<u64>
        ensures { result ≡ position not self.now }
    {
        let full = full_words(&self.words);
        if full == self.words.len() {
            return None;
        }
        let r = 64 * full as u64 + self.words[full].trailing_ones() as u64;
        if r < self.len { Some(r) } else { None }
    }

    /// The words: rank `r` is bit `r % 64` of word `r / 64`. The bits after those of the last rank have no meaning.
    pub fn words_mut(&mut self) -> &mut [u64]
        ensures* writes_back { sem 𝓛 (LendsWords self.entry result) }
        ensures count { length result.now ≡ (length self.old + 63) / 64 }
        ensures value { marks_of result.now (length self.old) ≡ self.old }
        ensures whole { (words : _) → length words ≡ (length self.old + 63) / 64
            → overwritten self.old words ≡ marks_of words (length self.old) }
    {
        self.words.as_mut_slice()
    }
}
