ghost use Rattle.std.specs.Prelude.{◌≡◌, ◌≤◌, IfOk};
ghost use Rattle.lj_base.specs.Colex.{choose};
ghost use Rattle.lj_cli.specs.CountOutput.{IsReadCovering};

use crate::verdicts::Verdict;
use lj_base::{Cell, Memory, binom};
use lj_blockfile::{BodyFault, read_blocks};
use lj_cover::Design;
use lj_excess::{Counted, Counts, MAX_COUNTS, check_counted};
use lj_verify::Refusal;
use std::alloc::Global;

// What is read of an input whose sets are to be counted.
#[derive(Debug, Drop)]
pub(crate) enum ReadCovering {
    /// Its blocks cover within the limits of a check, and there are few enough sets. The counts are those of its
    /// blocks.
    Covering { design: Design, counts: Counts },
    /// They do not, and this holds of them.
    NoCovering { verdict: Verdict },
}

// The blocks of an input and their counts, where there are few enough sets and the blocks cover within the limits of a
// check. The counts say it, so that no marks are made.
pub(crate) fn read_covering(alloc: Global, cell: Cell, bytes: &[u8]) -> Result<ReadCovering, Memory>
    requires { 1 ≤ cell.k }
    ensures { IfOk result (IsReadCovering cell bytes.now) }
{
    let blocks = match read_blocks(alloc, bytes, cell.v as u64, cell.k as u64) {
        Ok(blocks) => blocks,
        Err(BodyFault::Memory) => return Err(Memory),
        Err(fault) => return Ok(no_covering(Verdict::Fault { fault })),
    };
    let n = set_count(cell);
    if n > MAX_COUNTS {
        return Ok(no_covering(Verdict::Refused {
            refusal: Refusal::TSets { n },
        }));
    }
    match check_counted(alloc, cell, blocks) {
        Ok(Counted { design, counts }) => Ok(ReadCovering::Covering { design, counts }),
        Err(Refusal::Memory) => Err(Memory),
        Err(refusal) => Ok(no_covering(Verdict::Refused { refusal })),
    }
}

fn no_covering(verdict: Verdict) -> ReadCovering
    ensures { result ≡ ReadCovering.NoCovering verdict }
{
    ReadCovering::NoCovering { verdict }
}

// The number of sets.
fn set_count(cell: Cell) -> u64
    ensures { result ≡ choose cell.v cell.t }
{
    binom(cell.v as u64, cell.t as u64)
}
