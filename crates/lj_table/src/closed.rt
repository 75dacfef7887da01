ghost use Rattle.std.specs.Prelude.{◌≡◌, ◌<◌, ◌≤◌, false, true, length, replicate, slice_index_or, slice_set, IfOk};
ghost use Rattle.lj_base.specs.declared.limits.TheConstants.{MAX_SETS};
ghost use Rattle.lj_table.specs.Opening.{IsOpenAfter};

use lj_base::Memory;
use lj_bitmap::RankMap;
use std::alloc::Global;
use std::marker::Model;

/// Which cells are not open, seen as the list of their truth values, with a place after which each cell is open.
#[derive(Drop)]
pub struct ClosedMap {
    marks: RankMap,
    // No place after it is marked. It stays where a mark is taken away, so it may be too high.
    last: u64,
}

impl Model for ClosedMap {
    ghost use Rattle.std.specs.Prelude.{List, Bool};
    ghost use Rattle.lj_table.specs.Opening.{IsOpenAfter};

    ghost Value = { List Bool };

    ghost view = { λ m. m.marks };

    ghost invariant = { λ m. IsOpenAfter m.last m.marks };
}

impl ClosedMap {
    /// A map in which no cell is closed.
    pub fn new(alloc: Global, len: u64) -> Result<ClosedMap, Memory>
        requires { len ≤ MAX_SETS }
        ensures { IfOk result (λ marks. marks ≡ replicate len false) }
    {
        let marks = RankMap::new(alloc, len)?;
        Ok(ClosedMap { marks, last: 0 })
    }

    /// The marks alone.
    pub fn marks(&self) -> &RankMap
        ensures { result.now ≡ self.now }
    {
        &self.marks
    }

    /// A place after which no cell is closed.
    pub fn last(&self) -> u64
        ensures { IsOpenAfter result self.now }
    {
        self.last
    }

    /// Closes the cell at a place.
    pub fn mark(&mut self, r: u64)
        requires { r < length self.old }
        ensures { self.new ≡ slice_set self.old r true }
    {
        self.marks.mark(r);
        self.last = self.last.max(r);
    }

    /// Opens the cell at a place.
    pub fn unmark(&mut self, r: u64)
        requires { r < length self.old }
        ensures { self.new ≡ slice_set self.old r false }
    {
        self.marks.unmark(r);
    }

    /// Whether the cell at a place is closed.
    pub fn has(&self, r: u64) -> bool
        requires { r < length self.now }
        ensures { result ≡ slice_index_or self.now r false }
    {
        self.marks.has(r)
    }
}
