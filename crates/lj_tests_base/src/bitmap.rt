ghost use Rattle.std.specs.Prelude.{◌≡◌, ◌+◌, ◌/◌, ◌≤◌, length};
ghost use Rattle.lj_bitmap.specs.Marks.{marks_of};

use lj_bitmap::RankMap;
use std::test::Fail;

// Marks the ranks from `first` up to `end` but one.
fn mark_but(map: &mut RankMap, first: u64, end: u64, left_out: u64)
    requires { end ≤ length map.old }
    ensures { length map.new ≡ length map.old }
{
    for r in first..end {
        if r != left_out {
            map.mark(r);
        }
    }
}

// Whether these are ranks of the map, marked as stated.
fn agrees(map: &RankMap, rows: &[(u64, bool)]) -> bool {
    for (r, marked) in rows {
        if *r >= map.len() || map.has(*r) != *marked {
            return false;
        }
    }
    true
}

#[test]
fn the_first_clear_ranks_come_in_order(rt: HostRuntime) -> Result<(), Fail> {
    let mut map = RankMap::new(rt.alloc(), 200)?;
    assert_eq!(rt; map.len(), 200);
    assert_eq!(rt; map.first_clear(), Some(0));
    mark_but(&mut map, 0, 199, 63);
    assert!(rt;
        agrees(
            &map,
            &[
                (62, true),
                (63, false),
                (64, true),
                (198, true),
                (199, false)
            ]
        )
    );
    assert_eq!(rt; map.first_clear(), Some(63));
    map.mark(63);
    assert_eq!(rt; map.first_clear(), Some(199));
    map.mark(199);
    assert_eq!(rt; map.first_clear(), None);
    map.unmark(64);
    assert_eq!(rt; map.first_clear(), Some(64));
    Ok(())
}

#[test]
fn maps_of_each_size_end_where_they_should(rt: HostRuntime) -> Result<(), Fail> {
    for len in [0, 1, 63, 64, 65, 511, 512, 513, 640, 700] {
        let mut map = RankMap::new(rt.alloc(), len)?;
        let first = if len == 0 { None } else { Some(0) };
        assert_eq!(rt; map.first_clear(), first, "of {len} ranks");
        mark_but(&mut map, 0, len, len);
        assert_eq!(rt; map.first_clear(), None, "of {len} ranks");
    }
    Ok(())
}

#[test]
fn each_rank_is_found_clear(rt: HostRuntime) -> Result<(), Fail> {
    for rank in 0..700 {
        let mut map = RankMap::new(rt.alloc(), 700)?;
        mark_but(&mut map, 0, 700, rank);
        assert_eq!(rt; map.first_clear(), Some(rank));
    }
    Ok(())
}

// Writes all words of a map.
fn write(map: &mut RankMap, words: &[u64])
    requires { length words.now ≡ (length map.old + 63) / 64 }
    ensures { map.new ≡ marks_of words.now (length map.old) }
{
    map.words_mut().copy_from_slice(words);
}

#[test]
fn the_words_of_a_map_are_written(rt: HostRuntime) -> Result<(), Fail> {
    let mut map = RankMap::new(rt.alloc(), 65)?;
    assert_eq!(rt; map.words_mut().len(), 2);
    // Of the bits of the second word the lowest alone has a rank.
    write(&mut map, &[5, u64::MAX]);
    assert!(rt;
        agrees(
            &map,
            &[(0, true), (1, false), (2, true), (3, false), (64, true)]
        )
    );
    assert_eq!(rt; map.first_clear(), Some(1));
    mark_but(&mut map, 0, 64, 64);
    assert_eq!(rt; map.first_clear(), None);
    Ok(())
}
