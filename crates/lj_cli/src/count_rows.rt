use crate::build_rows::{FANO_SEVEN, lines_in};
use crate::rows::{FOUR, repeated, run, run_into};
use lj_base::MemSink;
use std::test::Fail;

// The lines of the Fano plane, as a file.
const FANO: &[u8] = b"7 3 2 7\n1 2 3\n1 4 5\n2 4 6\n3 4 7\n2 5 7\n3 5 6\n1 6 7\n";

#[test]
fn coverings_are_counted(rt: HostRuntime) -> Result<(), Fail> {
    let rows: [(&str, &[u8], &[u8], u8); 6] = [
        (
            "excess 5 3 2",
            FOUR,
            b"blocks 4\nschonheim 4\ntsets 10\nmarks 12\nexcess 2\nonce 9\nmost 3\n",
            0,
        ),
        (
            "excess 7 3 2",
            FANO.split_at(8).1,
            b"blocks 7\nschonheim 7\ntsets 21\nmarks 21\nexcess 0\nonce 21\nmost 1\n",
            0,
        ),
        (
            "excess 4 2 0",
            b"1 2\n1 2\n",
            b"blocks 2\nschonheim 1\ntsets 1\nmarks 2\nexcess 1\nonce 0\nmost 2\n",
            0,
        ),
        ("excess 5 3 2", b"1 2 3\n", b"uncovered 1 4\n", 1),
        ("excess 4 2 0", b"", b"uncovered\n", 1),
        (
            "excess 99 6 6",
            b"1 2 3 4 5 6\n",
            b"fault tsets 1120529256\n",
            3,
        ),
    ];
    for (line, input, text, status) in rows {
        let (ended, sink) = run(&rt, rt.alloc(), line, input)?;
        assert_eq!(rt; sink.bytes(), text, "of {line}");
        assert_eq!(rt; ended, status, "of {line}");
    }
    Ok(())
}

#[test]
fn coverings_are_made_and_reduced(rt: HostRuntime) -> Result<(), Fail> {
    let rows: [(&str, &[u8], &[u8], u8); 6] = [
        (
            "greedy 5 3 2",
            b"",
            b"5 3 2 4\n1 2 3\n1 4 5\n2 3 4\n2 3 5\n",
            0,
        ),
        ("greedy 7 3 2", b"", FANO, 0),
        ("greedy 99 4 3", b"", b"fault tsets 156849\n", 3),
        (
            "reduce 4 2 1",
            b"1 2\n2 3\n3 4\n",
            b"4 2 1 2\n1 2\n3 4\n",
            0,
        ),
        ("reduce 4 2 1", b"1 2\n", b"uncovered 3\n", 1),
        (
            "reduce 99 6 6",
            b"1 2 3 4 5 6\n",
            b"fault tsets 1120529256\n",
            3,
        ),
    ];
    for (line, input, text, status) in rows {
        let (ended, sink) = run(&rt, rt.alloc(), line, input)?;
        assert_eq!(rt; sink.bytes(), text, "of {line}");
        assert_eq!(rt; ended, status, "of {line}");
    }
    Ok(())
}

#[test]
fn the_first_fault_of_blocks_is_printed(rt: HostRuntime) -> Result<(), Fail> {
    let alloc = rt.alloc();
    let many = repeated(alloc, b"1\n", 100_001)?;
    let block = b"1 2 3 4 5 6 7 8 9 10 11 12 13 14 15 16 17 18 19 20 21 22 23 24 25\n";
    let marks = repeated(alloc, block, 40_420)?;
    let rows: [(&str, &[u8], &[u8], u8); 4] = [
        (
            "excess 99 6 6",
            many.as_slice(),
            b"fault blocks 100001\n",
            3,
        ),
        (
            "reduce 99 6 6",
            b"1 2 3 4 5 6\n1 2\n",
            b"fault line 2 too few points 2\n",
            3,
        ),
        ("reduce 60 25 5", b"", b"uncovered 1 2 3 4 5\n", 1),
        (
            "excess 30 25 5",
            marks.as_slice(),
            b"fault marks 2147514600\n",
            3,
        ),
    ];
    for (line, input, text, status) in rows {
        let (ended, sink) = run(&rt, alloc, line, input)?;
        assert_eq!(rt; sink.bytes(), text, "of {line}");
        assert_eq!(rt; ended, status, "of {line}");
    }
    Ok(())
}

// The cells whose numbers of sets are next to 2^24, 16,108,764 below and 17,259,390 above, and cells with a few more
// than 100,000.
#[test]
fn sets_are_counted_up_to_their_limit(rt: HostRuntime) -> Result<(), Fail> {
    let rows: [(&str, &[u8], u8); 6] = [
        ("excess 74 25 5", b"uncovered 1 2 3 4 5\n", 1),
        ("excess 75 25 5", b"fault tsets 17259390\n", 3),
        ("reduce 74 25 5", b"uncovered 1 2 3 4 5\n", 1),
        ("reduce 75 25 5", b"fault tsets 17259390\n", 3),
        ("greedy 23 6 6", b"fault tsets 100947\n", 3),
        ("greedy 86 3 3", b"fault tsets 102340\n", 3),
    ];
    for (line, text, status) in rows {
        let (ended, sink) = run(&rt, rt.alloc(), line, b"")?;
        assert_eq!(rt; sink.bytes(), text, "of {line}");
        assert_eq!(rt; ended, status, "of {line}");
    }
    Ok(())
}

// With 98,770 sets just below the limit: each triple of 85 points is a block of its own.
#[test]
fn a_greedy_covering_of_blocks_as_small_as_the_sets_has_all(rt: HostRuntime) -> Result<(), Fail> {
    let alloc = rt.alloc();
    let sink = MemSink::new(alloc, 1 << 20, 65_536, Vec::new(alloc))?;
    let (status, sink) = run_into(&rt, alloc, "greedy 85 3 3", b"", sink)?;
    assert!(rt; sink.bytes().starts_with(b"85 3 3 98770\n1 2 3\n"));
    assert_eq!(rt; lines_in(sink.bytes()), 1 + 98_770);
    assert_eq!(rt; status, 0);
    Ok(())
}

#[test]
fn a_greedy_covering_is_accepted_as_a_file(rt: HostRuntime) -> Result<(), Fail> {
    let alloc = rt.alloc();
    let mut script = b"frame 7 3 2\nclient g\nupload file\n".to_vec(alloc)?;
    let (_, file) = run(&rt, alloc, "greedy 7 3 2", b"")?;
    script.extend_from_slice(file.bytes())?;
    script.extend_from_slice(b"end\n")?;
    let (status, sink) = run(&rt, alloc, "build", &script)?;
    assert_eq!(rt; status, 0);
    let mut text = b"client g\naccepted 1 7\n".to_vec(alloc)?;
    text.extend_from_slice(FANO_SEVEN)?;
    assert_eq!(rt; sink.bytes(), text.as_slice());
    Ok(())
}
