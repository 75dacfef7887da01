use crate::ljcr;
use lj_base::{MemSink, MemSource};
use lj_gate::FreeGate;
use std::alloc::Global;
use std::sync::Wait;
use std::test::Fail;
use std::thread::Threads;

// The parts between spaces as words, with none of them empty.
pub(crate) fn words_of(alloc: Global, line: &str) -> Result<Vec<String>, Fail> {
    let mut words = Vec::new(alloc);
    for word in line.split(' ') {
        if !word.is_empty() {
            words.push(String::from_str(alloc, word)?)?;
        }
    }
    Ok(words)
}

// The status of a run, and what was written.
pub(crate) fn run<R: Threads + Wait + Sync>(
    rt: &R,
    alloc: Global,
    line: &str,
    input: &[u8],
) -> Result<(u8, MemSink), Fail> {
    let sink = MemSink::new(alloc, 65_536, 7, Vec::new(alloc))?;
    run_into(rt, alloc, line, input, sink)
}

// The status of a run that writes to this sink, and the sink.
pub(crate) fn run_into<R: Threads + Wait + Sync>(
    rt: &R,
    alloc: Global,
    line: &str,
    input: &[u8],
    mut sink: MemSink,
) -> Result<(u8, MemSink), Fail> {
    let words = words_of(alloc, line)?;
    let mut source = MemSource::new(input.to_vec(alloc)?, 4096, Vec::new(alloc));
    let status = ljcr(rt, alloc, &words, &mut source, &mut sink, &FreeGate);
    Ok((status, sink))
}

pub(crate) const FOUR: &[u8] = b"1 2 3\n1 4 5\n2 4 5\n3 4 5\n";

#[test]
fn inputs_have_their_line_and_status(rt: HostRuntime) -> Result<(), Fail> {
    let seven: &[u8] = b"4\t2 1\r\n\r\n2 3 5\r\n6 4 3\n 4 5 7 \n1 5 6\n2 6 7\n1 3 7";
    let rows: [(&str, &[u8], &[u8], u8); 16] = [
        ("check 5 3 2", FOUR, b"covers 4\n", 0),
        (
            "check 5 3 2",
            b"1 2 3\n1 4 5\n2 4 5\n",
            b"uncovered 3 4\n",
            1,
        ),
        (
            "check 5 3 2",
            b"1 2 3\n1 4 5\n2 4 5\n3 4 5\n1 2 3",
            b"covers 5\n",
            0,
        ),
        ("check 7 3 2", seven, b"covers 7\n", 0),
        ("check 4 2 1", b"", b"uncovered 1\n", 1),
        ("check 4 2 0", b"", b"uncovered\n", 1),
        (
            "check 5 3 2",
            b"0 1 2\n",
            b"fault line 1 point 0 out of range\n",
            3,
        ),
        (
            "check 5 3 2",
            b"1 2 6\n",
            b"fault line 1 point 6 out of range\n",
            3,
        ),
        (
            "check 5 3 2",
            b"1 2 2\n",
            b"fault line 1 point 2 repeated\n",
            3,
        ),
        (
            "check 5 3 2",
            b"\n1 2\n",
            b"fault line 2 too few points 2\n",
            3,
        ),
        (
            "check 5 3 2",
            b"1 2 3 4\n",
            b"fault line 1 too many points 4\n",
            3,
        ),
        (
            "check 5 3 2",
            b"1 x 3\n",
            b"fault line 1 column 3 not a number\n",
            3,
        ),
        (
            "check 5 3 2",
            b"9 x 3\n",
            b"fault line 1 point 9 out of range\n",
            3,
        ),
        (
            "check 5 3 2",
            b"1 2\xff\n",
            b"fault line 1 column 3 not a number\n",
            3,
        ),
        (
            "check 5 3 2",
            b"1 2 \x00\n",
            b"fault line 1 column 5 not a number\n",
            3,
        ),
        (
            "check 99 8 8",
            b"1 2 3 4 5 6 7 8",
            b"fault tsets 171200862756\n",
            3,
        ),
    ];
    for (line, input, text, status) in rows {
        let (ended, sink) = run(&rt, rt.alloc(), line, input)?;
        assert_eq!(rt; sink.bytes(), text, "of {input:?}");
        assert_eq!(rt; ended, status, "of {input:?}");
    }
    Ok(())
}

// The line, `count` times.
pub(crate) fn repeated(alloc: Global, line: &[u8], count: u64) -> Result<Vec<u8>, Fail> {
    let mut bytes = Vec::new(alloc);
    for _ in 0..count {
        bytes.extend_from_slice(line)?;
    }
    Ok(bytes)
}

#[test]
fn limits_hold_to_the_last_block(rt: HostRuntime) -> Result<(), Fail> {
    let alloc = rt.alloc();
    let mut lines = repeated(alloc, b"1\n", 99_998)?;
    lines.extend_from_slice(b"2\n3\n")?;
    let (status, sink) = run(&rt, alloc, "check 3 1 1", &lines)?;
    assert_eq!(rt; sink.bytes(), b"covers 100000\n".as_slice());
    assert_eq!(rt; status, 0);
    lines.extend_from_slice(b"1\n")?;
    let (status, sink) = run(&rt, alloc, "check 3 1 1", &lines)?;
    assert_eq!(rt; sink.bytes(), b"fault blocks 100001\n".as_slice());
    assert_eq!(rt; status, 3);
    let block = b"1 2 3 4 5 6 7 8 9 10 11 12 13 14 15 16 17 18 19 20 21 22 23 24 25\n";
    let lines = repeated(alloc, block, 40_420)?;
    let (status, sink) = run(&rt, alloc, "check 30 25 5", &lines)?;
    assert_eq!(rt; sink.bytes(), b"fault marks 2147514600\n".as_slice());
    assert_eq!(rt; status, 3);
    Ok(())
}

#[test]
fn an_input_one_byte_too_long_is_refused(rt: HostRuntime) -> Result<(), Fail> {
    let alloc = rt.alloc();
    let bytes = vec![in alloc; b'\n'; (1 << 26) + 1]?;
    let mut source = MemSource::new(bytes, 1 << 20, Vec::new(alloc));
    let mut sink = MemSink::new(alloc, 64, 64, Vec::new(alloc))?;
    let words = words_of(alloc, "check 4 2 1")?;
    let status = ljcr(&rt, alloc, &words, &mut source, &mut sink, &FreeGate);
    assert_eq!(rt; status, 6);
    assert_eq!(rt; sink.bytes(), b"fault input too large\n".as_slice());
    Ok(())
}
