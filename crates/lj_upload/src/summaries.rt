ghost use Rattle.std.specs.Prelude.{◌≡◌, ◌≤◌, IfOk, length};
ghost use Rattle.std.specs.Option.{MatchOption};
ghost use Rattle.lj_upload.specs.Uploads.{IsSummary};

use crate::least::{least_pair, least_point};
use crate::tables::{cut_table, pair_table};
use lj_base::{MAX_BLOCKS, Memory};
use lj_cover::Design;
use std::alloc::Global;

/// What the rules need of an upload's blocks, made once.
#[derive(Debug, Drop)]
pub(crate) struct Summary {
    /// The first point of least degree, and its degree.
    pub(crate) least: (u8, u64),
    /// The first pair of points with the fewest blocks through both, and how many those are. None where there is one
    /// point.
    pub(crate) least_pair: Option<(u8, u8, u64)>,
    /// In row `w` at place `l`: how many blocks have `l` points below `w`. None in a copy that was made without it.
    pub(crate) counts: Option<Vec<[u32; 26]>>,
}

impl Summary {
    pub(crate) fn of(alloc: Global, design: &Design) -> Result<Summary, Memory>
        requires { length design.now.blocks ≤ MAX_BLOCKS }
        ensures { IfOk result (λ summary. IsSummary design.now.cell.v design.now.blocks summary) }
    {
        let pairs = pair_table(alloc, design)?;
        let counts = cut_table(alloc, design.cell().v, design.blocks())?;
        Ok(Summary {
            least: least_point(&pairs),
            least_pair: least_pair(&pairs),
            counts: Some(counts),
        })
    }

    /// A copy, with the table of counts where it is wanted and there.
    pub(crate) fn copy(&self, alloc: Global, with_counts: bool) -> Result<Summary, Memory>
        ensures least { IfOk result (λ summary. summary.least ≡ self.now.least) }
        ensures least_pair { IfOk result (λ summary. summary.least_pair ≡ self.now.least_pair) }
        ensures counts { IfOk result (λ summary. MatchOption summary.counts (Unit {0})
            (λ table. MatchOption self.now.counts ⊥ (λ own. table.items ≡ own.items))) }
    {
        let counts = match &self.counts {
            Some(table) if with_counts => Some(table.iter().copied().collect(alloc)?),
            _ => None,
        };
        Ok(Summary {
            least: self.least,
            least_pair: self.least_pair,
            counts,
        })
    }
}
