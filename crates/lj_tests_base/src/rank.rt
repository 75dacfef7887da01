ghost use Rattle.std.specs.Prelude.{◌≡◌, ◌<◌, [], ◌∷◌};

use lj_base::Block;
use lj_rank::{TSet, next, rank, seek, unrank};

fn three(a: u8, b: u8, c: u8) -> TSet
    requires first { a < b }
    requires second { b < c }
    requires third { c < 99 }
    ensures { result ≡ a ∷ b ∷ c ∷ [] }
{
    let mut set = TSet::empty();
    set.push(a);
    set.push(b);
    set.push(c);
    set
}

#[test]
fn ranks_and_sets_belong_together(rt: HostRuntime) {
    assert_eq!(rt; rank(&three(2, 4, 7)), 43);
    assert_eq!(rt; unrank(8, 3, 43), three(2, 4, 7));
    assert_eq!(rt; rank(&three(0, 1, 2)), 0);
    assert_eq!(rt; rank(&three(96, 97, 98)), 156848);
    assert_eq!(rt; unrank(99, 3, 156848), three(96, 97, 98));
}

#[test]
fn the_empty_set_is_the_only_one_of_no_points(rt: HostRuntime) {
    let mut set = TSet::empty();
    assert_eq!(rt; rank(&set), 0);
    assert!(rt; !next(8, &mut set));
    assert!(rt; !next(0, &mut set));
    assert_eq!(rt; set, TSet::empty());
    assert_eq!(rt; unrank(8, 0, 0), TSet::empty());
}

#[test]
fn next_passes_through_all_sets_of_three_below_eight(rt: HostRuntime) {
    let mut set = three(0, 1, 2);
    for expected in 1..56 {
        assert!(rt; next(8, &mut set), "before {expected}");
        assert_eq!(rt; rank(&set), expected);
        assert_eq!(rt; unrank(8, 3, expected), set);
    }
    assert_eq!(rt; set, three(5, 6, 7));
    assert!(rt; !next(8, &mut set));
    assert_eq!(rt; set, three(5, 6, 7));
    let mut among_nine = three(5, 6, 7);
    assert!(rt; next(9, &mut among_nine));
    assert_eq!(rt; among_nine, three(0, 1, 8));
}

// The set of these points, of those below 99 that ascend.
fn set_of(points: &[u8]) -> TSet {
    let mut set = TSet::empty();
    for p in points {
        push(&mut set, *p);
    }
    set
}

// Adds a point that is above all others.
fn push(set: &mut TSet, p: u8) {
    let len = set.len();
    if p < 99 && len < 8 && (len == 0 || set.at(len - 1) < p) {
        set.push(p);
    }
}

#[test]
fn seek_finds_the_first_set_of_a_block_from_a_rank_on(rt: HostRuntime) {
    let mut block = Block::empty();
    block.push(0);
    block.push(2);
    block.push(5);
    // The number of points, the least rank, the set: the sets of two of these points have the ranks 1, 10 and 12.
    let rows: [(u64, u64, Option<&[u8]>); 12] = [
        (2, 0, Some(&[0, 2])),
        (2, 1, Some(&[0, 2])),
        (2, 2, Some(&[0, 5])),
        (2, 4, Some(&[0, 5])),
        (2, 10, Some(&[0, 5])),
        (2, 11, Some(&[2, 5])),
        (2, 12, Some(&[2, 5])),
        (2, 13, None),
        (3, 0, Some(&[0, 2, 5])),
        (4, 0, None),
        (0, 0, Some(&[])),
        (0, 1, None),
    ];
    for (t, least, want) in rows {
        assert_eq!(rt;
            seek(&block, t, least),
            want.map(set_of),
            "{t} from {least} on"
        );
    }
}
