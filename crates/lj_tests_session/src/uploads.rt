use crate::driven::replies_to;
use lj_base::{Cell, Frame};
use lj_deriv::Arena;
use std::alloc::Global;
use std::test::Fail;

// Appends bytes again and again.
fn repeat(text: &mut Vec<u8>, bytes: &[u8], times: u64) -> Result<(), Fail> {
    for _ in 0..times {
        text.extend_from_slice(bytes)?;
    }
    Ok(())
}

fn empty_arena(alloc: Global) -> Arena {
    Arena::new(alloc, Frame::new(Cell { v: 7, k: 3, t: 2 }))
}

// An upload is refused for the first reason that applies, the next command goes on, and only accepted uploads count.
#[test]
fn each_refusal_has_its_words(rt: HostRuntime) -> Result<(), Fail> {
    let alloc = rt.alloc();
    let text = b"frame 7 3 2
client ann
upload 8 4 3
x
end
upload 4 2 1
1 2

3
end
upload 4 2 1
1 2 3
end
upload 4 2 1
1 5
end
upload 4 2 1
1 1
end
upload 4 2 1
1  x
end
upload 4 2 1
1 2
end
upload 4 2 0
end
upload 4 2 1
4 3
1 2
end
upload 4 2 1
1 3
2 4
2 4
end
bound 8 3 2
plan 7 4 2
expand 7 3 3
bound 4 2 1
settle
";
    let want = b"refused outside frame
refused line 3 too few points 1
refused line 1 too many points 3
refused line 1 point 5 out of range
refused line 1 point 1 repeated
refused line 1 column 4 not a number
refused uncovered 3
refused uncovered
accepted 1 2
accepted 2 3
outside 8 3 2
outside 7 4 2
outside 7 3 3
bound 4 2 1 2
settled
";
    let replies = replies_to(&rt, alloc, &empty_arena(alloc), text.as_slice())?;
    assert!(rt; replies.as_slice() == want.as_slice());
    Ok(())
}

// A file's cell and its number of blocks are its header's, and lines are numbered within the whole body. A fault of a
// line comes before another number of blocks.
#[test]
fn files_are_read_after_their_header(rt: HostRuntime) -> Result<(), Fail> {
    let alloc = rt.alloc();
    let text = b"frame 5 3 2
client a
upload file
5 3 2 4
1 2 3
1 4 5
2 4 5
3 4 5
end
upload file
5 3 2 5
1 2 3
1 4 5
2 4 5
3 4 5
end
upload file
5 3
end
upload file
end
upload file
5 3 2 1
1 2
end
upload file
5 3 2 9
1 2
end
upload file

6 3 2 1
1 2
end
upload file

2 1 1 2

1
2 2
end
upload file
4 2 1 1
1 2
end
upload file
2 1 1 2
2
1
end
";
    let want = b"accepted 1 4
refused count 5 4
refused header
refused header
refused line 2 too few points 2
refused line 2 too few points 2
refused outside frame
refused line 5 too many points 2
refused uncovered 3
accepted 2 2
";
    let replies = replies_to(&rt, alloc, &empty_arena(alloc), text.as_slice())?;
    assert!(rt; replies.as_slice() == want.as_slice());
    Ok(())
}

// A fault of the text and another number of blocks come before the quota, and the quota before the limits of the check.
#[test]
fn uploads_and_blocks_have_their_quota(rt: HostRuntime) -> Result<(), Fail> {
    let alloc = rt.alloc();
    let mut text = Vec::new(alloc);
    text.extend_from_slice(b"frame 99 25 8\nclient a\n")?;
    for blocks in [100_000, 100_001, 100_000, 62_145, 62_144] {
        text.extend_from_slice(b"upload 1 1 1\n")?;
        repeat(&mut text, b"1\n", blocks)?;
        text.extend_from_slice(b"end\n")?;
    }
    text.extend_from_slice(b"upload file\n1 1 1 5\n1\nend\n")?;
    text.extend_from_slice(b"upload 99 8 8\n1 2 3 4 5 6 7 8\nend\nclient b\n")?;
    text.extend_from_slice(b"upload 99 8 8\nend\nupload 25 25 8\n")?;
    let all = b"1 2 3 4 5 6 7 8 9 10 11 12 13 14 15 16 17 18 19 20 21 22 23 24 25\n";
    repeat(&mut text, all.as_slice(), 1986)?;
    text.extend_from_slice(b"end\n")?;
    repeat(&mut text, b"upload 1 1 1\n1\nend\n", 257)?;
    text.extend_from_slice(
        b"upload 1 1 1\n2\nend\nupload 99 8 8\nend\nclient c\nupload 1 1 1\n1\nend\n",
    )?;
    let mut want = Vec::new(alloc);
    want.extend_from_slice(b"accepted 1 100000\nrefused blocks 100001\naccepted 2 100000\n")?;
    want.extend_from_slice(
        b"refused quota blocks 262145\naccepted 3 62144\nrefused count 5 1\nrefused quota blocks 262145\n",
    )?;
    want.extend_from_slice(b"refused tsets 171200862756\nrefused marks 2148007950\n")?;
    for ordinal in 1..257 {
        lj_text::put_named(&mut want, b"accepted", &[ordinal, 1])?;
        want.extend_from_slice(b"\n")?;
    }
    want.extend_from_slice(b"refused quota uploads 256\nrefused line 1 point 2 out of range\n")?;
    want.extend_from_slice(b"refused quota uploads 256\naccepted 1 1\n")?;
    let replies = replies_to(&rt, alloc, &empty_arena(alloc), &text)?;
    assert!(rt; replies.as_slice() == want.as_slice());
    Ok(())
}
