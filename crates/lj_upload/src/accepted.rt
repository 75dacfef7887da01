ghost use Rattle.std.specs.Prelude.{◌≡◌, ℕ, ◌^◌, ◌<◌, ◌≤◌, ◌⊎◌, ◌↔◌, [], ◌∷◌, IfOk, IsTrue, length, slice_index, sum};
ghost use Rattle.lj_cover.specs.Instances.{cut_counts};
ghost use Rattle.lj_upload.specs.Degrees.{IsLeastDegree, IsLeastPair};
ghost use Rattle.lj_upload.specs.Uploads.{IsAccepted};

use crate::names::Name;
use crate::summaries::Summary;
use crate::tables::cut_row;
use lj_base::{MAX_BLOCKS, Memory};
use lj_cover::Design;
use lj_cover::laws::rows_count_blocks;
use std::alloc::Global;
use std::marker::Model;

/// A design of at most `MAX_BLOCKS` blocks that a client has uploaded, with the summary of its blocks.
#[derive(Debug, Drop)]
pub struct Accepted {
    client: Name,
    ordinal: u64,
    design: Design,
    summary: Summary,
}

impl Model for Accepted {
    ghost use Rattle.std.specs.Prelude.{◌^◌, ◌<◌};
    ghost use Rattle.lj_cover.specs.Rules.{Upload};
    ghost use Rattle.lj_upload.specs.Uploads.{IsAccepted, IsSummary};

    ghost Value = { Upload };

    ghost view = { λ a. record {
      client = a.client;
      ordinal = a.ordinal;
      cell = a.design.cell;
      blocks = a.design.blocks;
    } };

    ghost invariant = { λ a. let upload : Upload = record {
      client = a.client;
      ordinal = a.ordinal;
      cell = a.design.cell;
      blocks = a.design.blocks;
    } in
        IsAccepted upload × (a.ordinal < 2 ^ 64) × IsSummary a.design.cell.v a.design.blocks a.summary };
}

impl Accepted {
    /// The summary is made here. Cost: for each block a step for each two of its points, and one for each point of the
    /// cell.
    pub fn new(
        alloc: Global,
        client: Name,
        ordinal: u64,
        design: Design,
    ) -> Result<Accepted, Memory>
        requires { length design.blocks ≤ MAX_BLOCKS }
        ensures { IfOk result (λ a. a
            ≡ record { client = client; ordinal = ordinal; cell = design.cell; blocks = design.blocks }) }
    {
        let summary = Summary::of(alloc, &design)?;
        Ok(Accepted {
            client,
            ordinal,
            design,
            summary,
        })
    }

    /// The name of the client that has uploaded it.
    pub fn client(&self) -> Name
        ensures { result ≡ self.now.client }
    {
        self.client
    }

    /// Which of the client's uploads it is, from 1.
    pub fn ordinal(&self) -> u64
        ensures { result ≡ self.now.ordinal }
    {
        self.ordinal
    }

    /// The cell and the blocks.
    pub fn design(&self) -> &Design
        ensures design { result.now ≡ record { cell = self.now.cell; blocks = self.now.blocks } }
        ensures accepted { IsAccepted self.now }
        ensures ordinal { self.now.ordinal < 2 ^ 64 }
    {
        &self.design
    }

    /// A copy, its summary included. Cost: a step for each block, and one for each point of the cell.
    pub fn copy(&self, alloc: Global) -> Result<Accepted, Memory>
        ensures { IfOk result (λ a. a ≡ self.now) }
    {
        self.copy_for(alloc, true)
    }

    /// A copy without the table of counts, for a place where `counts` is called seldom or never. Cost: a step for each
    /// block. It saves the table's rows, 104 bytes for each `w` from 0 to the cell's `v`; `counts` of the copy
    /// goes through the blocks.
    pub fn copy_without_counts(&self, alloc: Global) -> Result<Accepted, Memory>
        ensures { IfOk result (λ a. a ≡ self.now) }
    {
        self.copy_for(alloc, false)
    }

    // A copy, with the table of counts where that is asked for and the table is there.
    fn copy_for(&self, alloc: Global, with_counts: bool) -> Result<Accepted, Memory>
        ensures { IfOk result (λ a. a ≡ self.now) }
    {
        Ok(Accepted {
            client: self.client,
            ordinal: self.ordinal,
            design: self.design.copy(alloc)?,
            summary: self.summary.copy(alloc, with_counts)?,
        })
    }

    /// Whether the two have the same client, ordinal, cell and list of blocks. Cost: a step for each block.
    pub fn same(&self, other: &Accepted) -> bool
        ensures { IsTrue result ↔ (self.now ≡ other.now) }
    {
        self.client == other.client
            && self.ordinal == other.ordinal
            && self.design.cell() == other.design.cell()
            && self.design.blocks() == other.design.blocks()
    }

    /// The first point of least degree, and its degree.
    pub fn least(&self) -> (u8, u64)
        requires { 1 ≤ self.now.cell.t }
        ensures { IsLeastDegree self.now.cell.v self.now.blocks result.0 result.1 }
    {
        self.summary.least
    }

    /// The first pair of points with the fewest blocks through both, the lesser point first, and how many those are.
    pub fn least_pair(&self) -> (u8, u8, u64)
        requires t { 2 ≤ self.now.cell.t }
        requires v { 3 ≤ self.now.cell.v }
        ensures { IsLeastPair self.now.cell.v self.now.blocks result.0 result.1 result.2 }
    {
        match self.summary.least_pair {
            Some(pair) => pair,
            None => unreachable!(),
        }
    }

    /// How many blocks have `l` points below `w`, at each place `l`: in all as many as there are blocks, and none for
    /// an `l` above a block's size or above `w`. Cost: one look-up; in a copy without the table a step for each block
    /// and each of its points.
    pub fn counts(&self, w: u64) -> [u32; 26]
        requires { w ≤ self.now.cell.v }
        ensures counts { result ≡ cut_counts w self.now.blocks }
        ensures sum { sum result ≡ length self.now.blocks }
        ensures end { (l : ℕ) → (self.now.cell.k < l) ⊎ (w < l) → slice_index result l ≡ 0 }
    {
        rows_count_blocks();
        self.row(w)
    }

    // The row of the table, or what it would hold.
    fn row(&self, w: u64) -> [u32; 26]
        requires { w ≤ self.now.cell.v }
        ensures counts { result ≡ cut_counts w self.now.blocks }
        ensures accepted { IsAccepted self.now }
    {
        match &self.summary.counts {
            Some(table) => table[w as usize],
            None => cut_row(w, self.design.blocks()),
        }
    }
}

#[cfg(test)]
mod tests {
    use super::*;
    use lj_base::{Block, Cell};
    use lj_cover::laws;

    // The block of two points, the lesser first.
    fn pair(first: u8, second: u8) -> Block
        requires order { first < second }
        requires few { second < 99 }
        ensures { result ≡ first ∷ second ∷ [] }
    {
        let mut block = Block::empty();
        block.push(first);
        block.push(second);
        block
    }

    #[test]
    fn all_pairs_of_three_points_are_summed_up(rt: HostRuntime) -> Result<(), Memory> {
        let alloc = rt.alloc();
        laws::all_cover();
        let blocks = vec![in alloc; pair(0, 1), pair(0, 2), pair(1, 2)]?;
        let design = Design::of(Cell { v: 3, k: 2, t: 2 }, blocks);
        let name = Name::of(b"ann").expect(&rt, "a name");
        let upload = Accepted::new(alloc, name, 7, design)?;
        assert_eq!(rt; upload.least(), (0, 2));
        assert_eq!(rt; upload.least_pair(), (0, 1, 1));
        let counts = upload.counts(2);
        assert!(rt; &counts[..4] == [0, 2, 1, 0].as_slice());
        let again = upload.copy(alloc)?;
        assert!(rt; again.client().bytes() == b"ann".as_slice());
        assert_eq!(rt; again.ordinal(), 7);
        assert_eq!(rt; again.design().cell(), Cell { v: 3, k: 2, t: 2 });
        assert_eq!(rt; again.design().blocks().len(), 3);
        assert_eq!(rt; again.least(), (0, 2));
        assert_eq!(rt; again.least_pair(), (0, 1, 1));
        assert_eq!(rt; again.counts(2), counts);
        assert!(rt; again.same(&upload));
        Ok(())
    }
}
