ghost use Rattle.std.specs.Prelude.{◌≡◌, ◌↔◌, ℕ, ◌-◌, ◌<◌, ◌≤◌, ◌^◌, IfErr, IfNone, IfOk, IfSome, IsTrue, List, []};
ghost use Rattle.std.specs.Prelude.{◌∷◌, ◌++◌, length, replicate, slice_index};
ghost use Rattle.lj_base.specs.Blocks.{AreBlocks, IsBlock};
ghost use Rattle.lj_base.specs.Cells.{IsCell};
ghost use Rattle.lj_base.specs.Colex.{choose};
ghost use Rattle.lj_excess.specs.Failures.{IsCountFail};
ghost use Rattle.lj_excess.specs.Multiplicities.{contains_set, excess_in, most_in, multiplicity, once_in, tally_of};

use crate::failures::CountFail;
use crate::laws::{multiplicity_law, set_laws, tally_law};
use crate::limits::MAX_COUNTS;
use crate::walks::{each_twice, shift_block};
use lj_base::{Block, Cell, Memory, binom, choose_law};
use lj_cover::Design;
use std::alloc::Global;
use std::marker::Model;

/// How many blocks of a list contain each set of a cell: 4 bytes for each set, in the order of the ranks.
#[derive(Debug, Drop)]
pub struct Counts {
    cell: Cell,
    counts: Vec<u32>,
}

impl Model for Counts {
    ghost use Rattle.std.specs.Prelude.{◌≡◌, ◌≤◌, length};
    ghost use Rattle.lj_base.specs.Colex.{choose};
    ghost use Rattle.lj_excess.specs.Multiplicities.{Tally};
    ghost use Rattle.lj_excess.specs.declared.limits.TheConstants.{MAX_COUNTS};

    ghost Value = { Tally };

    ghost view = { λ c. record { cell = c.cell; counts = c.counts.items } };

    ghost invariant = { λ c.
        (length c.counts.items ≡ choose c.cell.v c.cell.t) × (length c.counts.items ≤ MAX_COUNTS) };
}

impl Counts {
    /// The counts of no blocks.
    pub fn none(alloc: Global, cell: Cell) -> Result<Counts, CountFail>
        ensures counts { IfOk result (λ counts. counts ≡ tally_of [] cell) }
        ensures within { IfOk result (λ _. choose cell.v cell.t ≤ MAX_COUNTS) }
        ensures failed { IfErr result (IsCountFail cell) }
    {
        tally_law();
        let n = set_count(cell);
        if n > MAX_COUNTS {
            return Err(CountFail::TSets { n });
        }
        let Ok(counts) = zeros(alloc, n as usize) else {
            return Err(CountFail::Memory);
        };
        Ok(Counts { cell, counts })
    }

    /// The counts of a design's blocks. Cost: an addition for each set of `t` points of each block, and a few steps for
    /// each of `t - 1`.
    pub fn of(alloc: Global, d: &Design) -> Result<Counts, CountFail>
        requires { length d.now.blocks < 2 ^ 32 }
        ensures counts { IfOk result (λ counts. counts ≡ tally_of d.now.blocks d.now.cell) }
        ensures within { IfOk result (λ _. choose d.now.cell.v d.now.cell.t ≤ MAX_COUNTS) }
        ensures failed { IfErr result (IsCountFail d.now.cell) }
    {
        let mut counts = Counts::none(alloc, d.cell())?;
        counts.add_all(d.blocks());
        Ok(counts)
    }

    // Adds the blocks of a list to the counts of no blocks.
    pub(crate) fn add_all(&mut self, blocks: &[Block])
        requires none { self.old ≡ tally_of [] self.old.cell }
        requires blocks { AreBlocks self.old.cell.v self.old.cell.k blocks.now }
        requires few { length blocks.now < 2 ^ 32 }
        ensures { self.new ≡ tally_of blocks.now self.old.cell }
    {
        for block in blocks {
            self.add(block);
        }
    }

    /// Adds a block after the others. The counts are kept in 32 bits.
    pub fn add(&mut self, block: &Block)
        requires { IsBlock self.old.cell.v self.old.cell.k block.now }
        ensures cell { self.new.cell ≡ self.old.cell }
        ensures counts { (bs : List (List ℕ)) → length bs < 2 ^ 32 - 1 → self.old ≡ tally_of bs self.old.cell →
            self.new ≡ tally_of (bs ++ block.now ∷ []) self.old.cell }
    {
        choose_law();
        set_laws();
        multiplicity_law();
        tally_law();
        shift_block(&mut self.counts, block, set_size(self.cell), 1);
    }

    /// Takes away a block that is one of the list. The counts are kept in 32 bits.
    pub fn remove(&mut self, block: &Block)
        requires { IsBlock self.old.cell.v self.old.cell.k block.now }
        ensures cell { self.new.cell ≡ self.old.cell }
        ensures counts { (bs cs : List (List ℕ)) → length (bs ++ cs) < 2 ^ 32 - 1 →
            self.old ≡ tally_of (bs ++ block.now ∷ cs) self.old.cell → self.new ≡ tally_of (bs ++ cs) self.old.cell }
    {
        choose_law();
        set_laws();
        multiplicity_law();
        tally_law();
        shift_block(&mut self.counts, block, set_size(self.cell), u32::MAX);
    }

    /// Whether each set of a block that is one of the list is in another one too.
    pub fn is_spare(&self, block: &Block) -> bool
        requires { IsBlock self.now.cell.v self.now.cell.k block.now }
        ensures { (bs cs : List (List ℕ)) → self.now ≡ tally_of (bs ++ block.now ∷ cs) self.now.cell →
            (IsTrue result ↔ ((s : List ℕ) → IsBlock self.now.cell.v self.now.cell.t s →
            IsTrue (contains_set s block.now) → 1 ≤ multiplicity (bs ++ cs) s)) }
    {
        choose_law();
        set_laws();
        multiplicity_law();
        tally_law();
        each_twice(&self.counts, block, set_size(self.cell))
    }

    /// The cell whose sets are counted.
    pub fn cell(&self) -> Cell
        ensures cell { result ≡ self.now.cell }
        ensures limits { IsCell self.now.cell }
        ensures count { length self.now.counts ≡ choose self.now.cell.v self.now.cell.t }
        ensures few { length self.now.counts ≤ MAX_COUNTS }
    {
        // A cell is within the limits, as one of its numbers is read.
        let _points = self.cell.v;
        self.cell
    }

    /// The number of the cell's sets.
    pub fn sets(&self) -> u64
        ensures len { result ≡ length self.now.counts }
        ensures count { result ≡ choose self.now.cell.v self.now.cell.t }
    {
        self.counts.len() as u64
    }

    /// How many blocks contain the set of a rank.
    pub fn at(&self, r: u64) -> u32
        requires { r < length self.now.counts }
        ensures { result ≡ slice_index self.now.counts r }
    {
        self.counts[r as usize]
    }

    /// The least rank of a set that is in no block.
    pub fn first_uncovered(&self) -> Option<u64>
        ensures none { IfNone result ((r : ℕ) → r < length self.now.counts → 1 ≤ slice_index self.now.counts r) }
        ensures inside { IfSome result (λ r. r < length self.now.counts) }
        ensures zero { IfSome result (λ r. slice_index self.now.counts r ≡ 0) }
        ensures first { IfSome result (λ r. (q : ℕ) → q < r → 1 ≤ slice_index self.now.counts q) }
    {
        for r in 0..self.counts.len() {
            if self.counts[r] == 0 {
                return Some(r as u64);
            }
        }
        None
    }

    /// How many sets are in just one block.
    pub fn once(&self) -> u64
        ensures { result ≡ once_in self.now.counts }
    {
        let mut once = 0;
        for count in &self.counts {
            if *count == 1 {
                once += 1;
            }
        }
        once
    }

    /// The greatest number of blocks that contain one set.
    pub fn most(&self) -> u32
        ensures { result ≡ most_in self.now.counts }
    {
        let mut most = 0;
        for count in &self.counts {
            most = most.max(*count);
        }
        most
    }

    /// How many more than one block contain each set, added up.
    pub fn excess(&self) -> u64
        ensures { result ≡ excess_in self.now.counts }
    {
        let mut excess = 0;
        for count in &self.counts {
            excess += count.saturating_sub(1) as u64;
        }
        excess
    }
}

// A list of zeros.
fn zeros(alloc: Global, n: usize) -> Result<Vec<u32>, Memory>
    ensures { IfOk result (λ zeros. zeros.items ≡ replicate n 0) }
{
    Ok(vec![in alloc; 0; n]?)
}

// The number of points of a set.
fn set_size(cell: Cell) -> u64
    ensures value { result ≡ cell.t }
    ensures limits { IsCell cell }
{
    cell.t as u64
}

// The number of sets.
fn set_count(cell: Cell) -> u64
    ensures { result ≡ choose cell.v cell.t }
{
    binom(cell.v as u64, cell.t as u64)
}
