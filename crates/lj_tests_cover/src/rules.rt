ghost use Rattle.std.specs.Prelude.{◌≡◌, [], ◌∷◌, map, replicate};
ghost use Rattle.lj_cover.specs.Derivations.{IsDerivation, tree_cost, expand};
ghost use Rattle.lj_cover.specs.Instances.{counts_at, cut_counts, row_price};
ghost use Rattle.lj_cover.specs.Lower.{schonheim};
ghost use Rattle.lj_cover.specs.Rules.{triple};
ghost use Rattle.lj_tests_cover.specs.Examples.{five_fives, induced_example, interval_example, product_example};
ghost use Rattle.lj_tests_cover.specs.Examples.{runs_example, three_fours, two_points_example};

use crate::rules_on_lists;
use lj_base::{Block, Cell};
use lj_cover::{
    add_design, add_point, cut_first, degree, derive_design, derive2_design, drop_design,
    drop_last, fill, grow_design, join_blocks, lower_design, relabel, unite, without,
};
use lj_samples::{
    block, covering, covers_law, fano_plane, five_fives, four_triples, pairs_of_three, runs_of_two,
    three_fours,
};
use std::alloc::{AllocError, Global};
use std::test::Fail;

// Whether the list has just these blocks, in this order.
fn are(blocks: &[Block], want: &[&[u8]]) -> bool {
    blocks.len() == want.len()
        && blocks
            .iter()
            .zip(want)
            .all(|(b, points)| has_just(b, points))
}

fn has_just(b: &Block, points: &[u8]) -> bool {
    let mut same = b.len() == points.len() as u64;
    for i in 0..b.len() {
        same = same && points.get(i as usize) == Some(&b.at(i));
    }
    same
}

#[test]
fn operations_give_the_worked_blocks(rt: HostRuntime) {
    let rows = [
        (relabel(block(&[0, 2]), &block(&[1, 4, 6])), block(&[1, 6])),
        (without(block(&[0, 2, 5]), 2), block(&[0, 4])),
        (fill(block(&[1]), 5, 3), block(&[0, 1, 2])),
        (fill(block(&[2, 9]), 12, 5), block(&[0, 1, 2, 3, 9])),
        (drop_last(block(&[3, 4, 6]), 6), block(&[0, 3, 4])),
        (drop_last(block(&[3, 4, 5]), 6), block(&[3, 4, 5])),
        (add_point(block(&[0, 2]), 7), block(&[0, 2, 7])),
        (
            unite(block(&[0, 2]), block(&[0, 1]), 3),
            block(&[0, 2, 3, 4]),
        ),
        (cut_first(block(&[0, 2, 5, 7]), 5), block(&[0, 2])),
    ];
    for (result, want) in rows {
        assert_eq!(rt; result, want);
    }
}

#[test]
fn designs_by_drop_add_and_grow_have_the_worked_blocks(rt: HostRuntime) -> Result<(), Fail> {
    let alloc = rt.alloc();
    let plane = fano_plane(alloc)?;
    let dropped = drop_design(alloc, &plane)?;
    assert_eq!(rt; dropped.cell(), Cell { v: 6, k: 3, t: 2 });
    assert!(rt;
        are(
            dropped.blocks(),
            &[
                &[0, 1, 3],
                &[1, 2, 4],
                &[2, 3, 5],
                &[0, 3, 4],
                &[0, 4, 5],
                &[0, 1, 5],
                &[0, 1, 2]
            ]
        )
    );

    let pairs = pairs_of_three(alloc)?;
    let added = add_design(alloc, &pairs)?;
    assert_eq!(rt; added.cell(), Cell { v: 4, k: 3, t: 2 });
    assert!(rt; are(added.blocks(), &[&[0, 1, 3], &[0, 2, 3], &[1, 2, 3]]));

    let runs = runs_of_two(alloc)?;
    let grown = grow_design(alloc, &runs)?;
    assert_eq!(rt; grown.cell(), Cell { v: 5, k: 3, t: 1 });
    assert!(rt; are(grown.blocks(), &[&[0, 1, 2], &[0, 2, 3], &[0, 1, 4]]));
    Ok(())
}

#[test]
fn designs_by_lower_and_derive_have_the_worked_blocks(rt: HostRuntime) -> Result<(), Fail> {
    let alloc = rt.alloc();
    let triples = four_triples(alloc)?;
    let lowered = lower_design(alloc, &triples)?;
    assert_eq!(rt; lowered.cell(), Cell { v: 5, k: 3, t: 1 });
    assert!(rt;
        are(
            lowered.blocks(),
            &[&[0, 1, 2], &[0, 3, 4], &[1, 3, 4], &[2, 3, 4]]
        )
    );
    assert_eq!(rt; degree(&triples, 0), 2);
    assert_eq!(rt; degree(&triples, 4), 3);

    let derived = derive_design(alloc, &triples, 0)?;
    assert_eq!(rt; derived.cell(), Cell { v: 4, k: 2, t: 1 });
    assert!(rt; are(derived.blocks(), &[&[0, 1], &[2, 3]]));

    let five = five_fives(alloc)?;
    let twice = derive2_design(alloc, &five, 0, 1)?;
    assert_eq!(rt; twice.cell(), Cell { v: 4, k: 3, t: 2 });
    assert!(rt; are(twice.blocks(), &[&[1, 2, 3], &[0, 2, 3], &[0, 1, 3]]));

    let copy = triples.copy(alloc)?;
    assert_eq!(rt; copy.cell(), triples.cell());
    assert!(rt; copy.blocks() == triples.blocks());
    Ok(())
}

#[test]
fn joined_blocks_follow_those_that_are_there(rt: HostRuntime) -> Result<(), Fail> {
    let alloc = rt.alloc();
    let one = vec![in alloc; block(&[0, 1])]?;
    let singles = vec![in alloc; block(&[0]), block(&[1]), block(&[2])]?;
    let first = covering(Cell { v: 2, k: 2, t: 1 }, one);
    let second = covering(Cell { v: 3, k: 1, t: 1 }, singles);
    let mut joined = Vec::new(alloc);
    join_blocks(&mut joined, &first, &second, 2)?;
    assert!(rt; are(&joined, &[&[0, 1, 2], &[0, 1, 3], &[0, 1, 4]]));
    join_blocks(&mut joined, &second, &first, 3)?;
    assert!(rt; are(&joined[3..], &[&[0, 3, 4], &[1, 3, 4], &[2, 3, 4]]));
    Ok(())
}

// The definitions give the worked derivations' blocks and costs.
fn examples_expand()
    ensures runs { expand runs_example ≡ (0 ∷ 1 ∷ []) ∷ (2 ∷ 3 ∷ []) ∷ (0 ∷ 4 ∷ []) ∷ [] }
    ensures induced { expand induced_example
        ≡ (0 ∷ 1 ∷ 3 ∷ []) ∷ (0 ∷ 2 ∷ 3 ∷ []) ∷ (1 ∷ 2 ∷ 3 ∷ []) ∷ (0 ∷ 1 ∷ 4 ∷ []) ∷ (2 ∷ 3 ∷ 4 ∷ []) ∷ [] }
    ensures product { expand product_example
        ≡ (2 ∷ 3 ∷ 4 ∷ []) ∷ (0 ∷ 1 ∷ 2 ∷ []) ∷ (0 ∷ 1 ∷ 3 ∷ []) ∷ (0 ∷ 1 ∷ 4 ∷ []) ∷ (0 ∷ 1 ∷ 2 ∷ []) ∷ [] }
    ensures interval { expand interval_example
        ≡ (2 ∷ 3 ∷ 4 ∷ []) ∷ (0 ∷ 1 ∷ 2 ∷ []) ∷ (0 ∷ 1 ∷ 3 ∷ []) ∷ (0 ∷ 1 ∷ 4 ∷ []) ∷ [] }
    ensures two_points { expand two_points_example ≡ (1 ∷ 2 ∷ 3 ∷ []) ∷ (0 ∷ 2 ∷ 3 ∷ []) ∷ (0 ∷ 1 ∷ 3 ∷ []) ∷ [] }
{}

fn examples_cost()
    ensures runs { tree_cost runs_example ≡ 3 }
    ensures induced { tree_cost induced_example ≡ 5 }
    ensures product { tree_cost product_example ≡ 5 }
    ensures interval { tree_cost interval_example ≡ 4 }
    ensures two_points { tree_cost two_points_example ≡ 3 }
{}

// Schönheim's numbers of some cells.
fn examples_of_lower_numbers()
    ensures pairs { map (λ v. schonheim v 3 2) (4 ∷ 5 ∷ 6 ∷ 7 ∷ []) ≡ 3 ∷ 4 ∷ 6 ∷ 7 ∷ [] }
    ensures points { map (λ v. schonheim v 2 1) (3 ∷ 4 ∷ 5 ∷ 6 ∷ 7 ∷ []) ≡ 2 ∷ 2 ∷ 3 ∷ 3 ∷ 4 ∷ [] }
{}

// Of the three cuts to five points two have three points and one has four.
fn examples_of_rows()
    ensures counts { cut_counts 5 three_fours.blocks ≡ 0 ∷ 0 ∷ 0 ∷ 2 ∷ 1 ∷ replicate 21 0 }
    ensures rows { counts_at (three_fours ∷ five_fives ∷ []) (triple 5 3 2)
        ≡ cut_counts 5 three_fours.blocks ∷ [] }
    ensures none { counts_at (three_fours ∷ five_fives ∷ []) (triple 7 3 2) ≡ [] }
    ensures price { row_price (λ c. 3) (triple 5 3 2) (cut_counts 5 three_fours.blocks) ≡ 5 }
{}

#[test]
fn definitions_give_the_worked_examples(_rt: HostRuntime) {
    examples_expand();
    examples_cost();
    examples_of_rows();
    examples_of_lower_numbers();
}

// Whether the blocks are these lists of points.
fn agree(blocks: &[Block], want: &[Vec<u8>]) -> bool {
    blocks.len() == want.len()
        && blocks
            .iter()
            .zip(want)
            .all(|(b, points)| has_just(b, points))
}

// The blocks as plain lists of points.
fn plain(alloc: Global, blocks: &[Block]) -> Result<rules_on_lists::Blocks, AllocError> {
    let mut lists = Vec::new(alloc);
    for b in blocks {
        let mut points = Vec::new(alloc);
        for i in 0..b.len() {
            points.push(b.at(i))?;
        }
        lists.push(points)?;
    }
    Ok(lists)
}

fn lists_are(lists: &[Vec<u8>], want: &[&[u8]]) -> bool {
    lists.len() == want.len()
        && lists
            .iter()
            .zip(want)
            .all(|(b, points)| b.as_slice() == *points)
}

#[test]
fn plain_program_gives_the_worked_examples(rt: HostRuntime) -> Result<(), Fail> {
    let alloc = rt.alloc();
    let runs = rules_on_lists::runs(alloc, 5, 2)?;
    assert!(rt; lists_are(&runs, &[&[0, 1], &[2, 3], &[0, 4]]));

    let fours = three_fours(alloc)?;
    let from = plain(alloc, fours.blocks())?;
    let pairs = pairs_of_three(alloc)?;
    let added = add_design(alloc, &pairs)?;
    let mut children = Vec::new(alloc);
    for _ in 0..4 {
        children.push(Vec::new(alloc))?;
    }
    children.push(plain(alloc, added.blocks())?)?;
    let induced = rules_on_lists::induced(alloc, &from, 5, 3, 2, &children)?;
    assert!(rt;
        lists_are(
            &induced,
            &[&[0, 1, 3], &[0, 2, 3], &[1, 2, 3], &[0, 1, 4], &[2, 3, 4]]
        )
    );
    assert_eq!(rt;
        rules_on_lists::induced_cost(&from, 5, 3, 2, &[0, 0, 0, 0, 3]),
        5
    );

    let mut product = Vec::new(alloc);
    let all_three = rules_on_lists::one(alloc, 3)?;
    let first = rules_on_lists::one(alloc, 2)?;
    let none = rules_on_lists::one(alloc, 0)?;
    let singles = rules_on_lists::runs(alloc, 3, 1)?;
    let single = rules_on_lists::one(alloc, 1)?;
    rules_on_lists::joined(alloc, &mut product, &none, &all_three, 2)?;
    rules_on_lists::joined(alloc, &mut product, &first, &singles, 2)?;
    assert!(rt; lists_are(&product, &[&[2, 3, 4], &[0, 1, 2], &[0, 1, 3], &[0, 1, 4]]));
    rules_on_lists::joined(alloc, &mut product, &first, &single, 2)?;
    assert!(rt;
        lists_are(
            &product,
            &[&[2, 3, 4], &[0, 1, 2], &[0, 1, 3], &[0, 1, 4], &[0, 1, 2]]
        )
    );
    Ok(())
}

#[test]
fn plain_program_and_designs_agree(rt: HostRuntime) -> Result<(), Fail> {
    let alloc = rt.alloc();
    let plane = fano_plane(alloc)?;
    let lines = plain(alloc, plane.blocks())?;
    for x in 0..7 {
        let derived = derive_design(alloc, &plane, x)?;
        assert!(rt;
            agree(
                derived.blocks(),
                &rules_on_lists::derived(alloc, &lines, &[x])?
            )
        );
    }
    let dropped = drop_design(alloc, &plane)?;
    assert!(rt;
        agree(
            dropped.blocks(),
            &rules_on_lists::dropped(alloc, &lines, 6)?
        )
    );
    let grown = grow_design(alloc, &plane)?;
    assert!(rt; agree(grown.blocks(), &rules_on_lists::grown(alloc, &lines, 4)?));

    let five = five_fives(alloc)?;
    let fives = plain(alloc, five.blocks())?;
    for y in 1..6 {
        for x in 0..y {
            let twice = derive2_design(alloc, &five, x, y)?;
            assert!(rt;
                agree(
                    twice.blocks(),
                    &rules_on_lists::derived(alloc, &fives, &[x, y])?
                )
            );
        }
    }
    let pairs = pairs_of_three(alloc)?;
    assert!(rt; agree(pairs.blocks(), &rules_on_lists::all(alloc, 3, 2)?));
    Ok(())
}

// The worked derivations are derivations: their conditions hold, and their uploads cover.
fn examples_are_derivations()
    ensures runs { IsDerivation runs_example }
    ensures induced { IsDerivation induced_example }
    ensures product { IsDerivation product_example }
    ensures interval { IsDerivation interval_example }
    ensures two_points { IsDerivation two_points_example }
{
    covers_law();
}

#[test]
fn worked_examples_are_derivations(_rt: HostRuntime) {
    examples_are_derivations();
}
