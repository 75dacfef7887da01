ghost use Rattle.std.specs.Prelude.{◌≡◌, ℕ, List, IfOk, IsTrue};
ghost use Rattle.lj_base.specs.Blocks.{Covers};
ghost use Rattle.lj_base.specs.Cells.{Triple};
ghost use Rattle.lj_cover.specs.Rules.{triple};
ghost use Rattle.lj_samples.specs.Samples.{fano_lines, five_fives, four_triples, fourteen_planes};
ghost use Rattle.lj_samples.specs.Samples.{pairs_of_three, runs_of_two, three_fours};
ghost use Rattle.lj_samples.specs.Tested.{covers};

use crate::blocks::block;
use lj_base::{Block, Cell, Memory};
use lj_cover::{Design, laws};
use std::alloc::Global;

/// A list that passes the test covers.
pub fn covers_law()
    ensures { (bs : List (List ℕ)) (c : Triple) → IsTrue (covers bs c) → Covers bs c }
{
    laws::all_cover();
}

/// The design of blocks that pass the test.
pub fn covering(cell: Cell, blocks: Vec<Block>) -> Design
    requires { IsTrue (covers blocks.items cell) }
    ensures { result ≡ record { cell = cell; blocks = blocks.items } }
{
    covers_law();
    Design::of(cell, blocks)
}

/// Four blocks of three of five points, and each pair of points in one of them.
pub fn four_triples(alloc: Global) -> Result<Design, Memory>
    ensures { IfOk result (λ d. d ≡ record { cell = triple 5 3 2; blocks = four_triples }) }
{
    let blocks = vec![in alloc;
        block(&[0, 1, 2]),
        block(&[0, 3, 4]),
        block(&[1, 3, 4]),
        block(&[2, 3, 4]),
    ]?;
    Ok(covering(Cell { v: 5, k: 3, t: 2 }, blocks))
}

/// The seven lines of the Fano plane.
pub fn fano_plane(alloc: Global) -> Result<Design, Memory>
    ensures { IfOk result (λ d. d ≡ record { cell = triple 7 3 2; blocks = fano_lines }) }
{
    let blocks = vec![in alloc;
        block(&[0, 1, 3]),
        block(&[1, 2, 4]),
        block(&[2, 3, 5]),
        block(&[3, 4, 6]),
        block(&[0, 4, 5]),
        block(&[1, 5, 6]),
        block(&[0, 2, 6]),
    ]?;
    Ok(covering(Cell { v: 7, k: 3, t: 2 }, blocks))
}

/// The fourteen planes of the affine space of eight points: each three points lie in one of them.
pub fn fourteen_planes(alloc: Global) -> Result<Design, Memory>
    ensures { IfOk result (λ d. d ≡ record { cell = triple 8 4 3; blocks = fourteen_planes }) }
{
    let blocks = vec![in alloc;
        block(&[0, 1, 2, 3]),
        block(&[0, 1, 4, 5]),
        block(&[0, 1, 6, 7]),
        block(&[0, 2, 4, 6]),
        block(&[0, 2, 5, 7]),
        block(&[0, 3, 4, 7]),
        block(&[0, 3, 5, 6]),
        block(&[1, 2, 4, 7]),
        block(&[1, 2, 5, 6]),
        block(&[1, 3, 4, 6]),
        block(&[1, 3, 5, 7]),
        block(&[2, 3, 4, 5]),
        block(&[2, 3, 6, 7]),
        block(&[4, 5, 6, 7]),
    ]?;
    Ok(covering(Cell { v: 8, k: 4, t: 3 }, blocks))
}

/// Three blocks of four of six points, and each pair of points in one of them.
pub fn three_fours(alloc: Global) -> Result<Design, Memory>
    ensures { IfOk result (λ d. d ≡ record { cell = triple 6 4 2; blocks = three_fours }) }
{
    let blocks = vec![in alloc;
        block(&[0, 1, 2, 3]),
        block(&[0, 1, 4, 5]),
        block(&[2, 3, 4, 5]),
    ]?;
    Ok(covering(Cell { v: 6, k: 4, t: 2 }, blocks))
}

/// Five blocks of five of six points, and each four points in one of them.
pub fn five_fives(alloc: Global) -> Result<Design, Memory>
    ensures { IfOk result (λ d. d ≡ record { cell = triple 6 5 4; blocks = five_fives }) }
{
    let blocks = vec![in alloc;
        block(&[1, 2, 3, 4, 5]),
        block(&[0, 2, 3, 4, 5]),
        block(&[0, 1, 3, 4, 5]),
        block(&[0, 1, 2, 4, 5]),
        block(&[0, 1, 2, 3, 5]),
    ]?;
    Ok(covering(Cell { v: 6, k: 5, t: 4 }, blocks))
}

/// All pairs of three points.
pub fn pairs_of_three(alloc: Global) -> Result<Design, Memory>
    ensures { IfOk result (λ d. d ≡ record { cell = triple 3 2 2; blocks = pairs_of_three }) }
{
    let blocks = vec![in alloc; block(&[0, 1]), block(&[0, 2]), block(&[1, 2])]?;
    Ok(covering(Cell { v: 3, k: 2, t: 2 }, blocks))
}

/// Three blocks of two of five points, and each point in one of them.
pub fn runs_of_two(alloc: Global) -> Result<Design, Memory>
    ensures { IfOk result (λ d. d ≡ record { cell = triple 5 2 1; blocks = runs_of_two }) }
{
    let blocks = vec![in alloc; block(&[0, 1]), block(&[2, 3]), block(&[0, 4])]?;
    Ok(covering(Cell { v: 5, k: 2, t: 1 }, blocks))
}
