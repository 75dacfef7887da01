use crate::driven::{replies_to, script_of};
use lj_base::{Cell, Frame};
use lj_deriv::{Arena, Rule};
use lj_samples::{four_triples, upload};
use lj_session::offered;
use std::alloc::Global;
use std::test::Fail;

// Whether the sections of a script offer the upload of four triples with this ordinal by the client `ann`, which is the
// whole plan.
fn is_offered(alloc: Global, ordinal: u64, text: &[u8]) -> Result<bool, Fail> {
    let script = script_of(alloc, text)?;
    let mut arena = Arena::new(alloc, Frame::new(Cell { v: 7, k: 3, t: 2 }));
    let upload = arena.push_upload(upload(alloc, ordinal, four_triples(alloc)?)?)?;
    arena.reserve(1)?;
    let leaf = arena.add(Rule::Leaf { upload });
    let plan = arena.plan(alloc, leaf)?;
    Ok(offered(alloc, &plan, script.sections())?)
}

#[test]
fn an_upload_is_offered_by_the_client_that_sent_it(rt: HostRuntime) -> Result<(), Fail> {
    let alloc = rt.alloc();
    let text = b"frame 7 3 2
client bob
settle
client ann
bound 5 3 2
upload 5 3 2
1 2 3
1 4 5
2 4 5
3 4 5
end
";
    assert!(rt; is_offered(alloc, 1, text.as_slice())?);
    assert!(rt; !is_offered(alloc, 0, text.as_slice())?);
    assert!(rt; !is_offered(alloc, 2, text.as_slice())?);
    let of_bob = b"frame 7 3 2
client bob
upload 5 3 2
1 2 3
1 4 5
2 4 5
3 4 5
end
client ann
upload 5 3 2
1 2 3
end
";
    assert!(rt; !is_offered(alloc, 1, of_bob.as_slice())?);
    Ok(())
}

// Another covering, the same blocks in another order, and the blocks with another cell.
#[test]
fn other_blocks_are_not_offered(rt: HostRuntime) -> Result<(), Fail> {
    let alloc = rt.alloc();
    let plane = b"frame 7 3 2
client ann
upload 7 3 2
1 2 4
2 3 5
3 4 6
4 5 7
1 5 6
2 6 7
1 3 7
end
";
    assert!(rt; !is_offered(alloc, 1, plane.as_slice())?);
    let reordered = b"frame 7 3 2
client ann
upload 5 3 2
1 4 5
1 2 3
2 4 5
3 4 5
end
";
    assert!(rt; !is_offered(alloc, 1, reordered.as_slice())?);
    let lower = b"frame 7 3 2
client ann
upload 5 3 1
1 2 3
1 4 5
2 4 5
3 4 5
end
";
    assert!(rt; !is_offered(alloc, 1, lower.as_slice())?);
    Ok(())
}

// The cell and the blocks are those of a file, and a file without a header counts for the ordinals, but offers nothing.
#[test]
fn a_file_offers_what_follows_its_header(rt: HostRuntime) -> Result<(), Fail> {
    let alloc = rt.alloc();
    let text = b"frame 7 3 2
client ann
upload file
1 2 3
end
upload file

5 3 2 4
3 2 1

1 4 5
2 4 5
3 4 5
end
";
    assert!(rt; is_offered(alloc, 1, text.as_slice())?);
    assert!(rt; is_offered(alloc, 2, text.as_slice())?);
    assert!(rt; !is_offered(alloc, 3, text.as_slice())?);
    Ok(())
}

// One file announces another number of blocks, and the cell of the other upload is not in the frame.
#[test]
fn refused_uploads_are_offered_too(rt: HostRuntime) -> Result<(), Fail> {
    let alloc = rt.alloc();
    let arena = Arena::new(alloc, Frame::new(Cell { v: 7, k: 3, t: 2 }));
    let file = b"frame 7 3 2
client ann
upload file
5 3 2 5
1 2 3
1 4 5
2 4 5
3 4 5
end
";
    let replies = replies_to(&rt, alloc, &arena, file.as_slice())?;
    assert!(rt; replies.as_slice() == b"refused count 5 4\n".as_slice());
    assert!(rt; is_offered(alloc, 1, file.as_slice())?);
    let outside = b"frame 4 3 2
client ann
upload 5 3 2
1 2 3
1 4 5
2 4 5
3 4 5
end
";
    let replies = replies_to(&rt, alloc, &arena, outside.as_slice())?;
    assert!(rt; replies.as_slice() == b"refused outside frame\n".as_slice());
    assert!(rt; is_offered(alloc, 1, outside.as_slice())?);
    Ok(())
}
