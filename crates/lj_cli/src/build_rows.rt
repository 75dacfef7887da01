use crate::rows::{repeated, run, run_into};
use lj_base::MemSink;
use std::alloc::Global;
use std::test::Fail;

pub(crate) const TRIPLES: &[u8] =
    b"frame 7 3 2\nclient ann\nupload 5 3 2\n1 2 3\n1 4 5\n2 4 5\n3 4 5\nend\n";

// What the least bounds of the frame (7,3,2) are without uploads.
pub(crate) const SEVEN: &[u8] = b"report
3 2 1 2 2 optimal
4 2 1 2 2 optimal
5 2 1 3 3 optimal
6 2 1 3 3 optimal
7 2 1 4 4 optimal
4 3 1 2 2 optimal
5 3 1 2 2 optimal
6 3 1 2 2 optimal
7 3 1 3 3 optimal
4 3 2 3 3 optimal
5 3 2 4 4 optimal
6 3 2 7 6
7 3 2 9 7
";

// What the least bounds of the frame (7,3,2) are with the Fano plane uploaded.
pub(crate) const FANO_SEVEN: &[u8] = b"report
3 2 1 2 2 optimal
4 2 1 2 2 optimal
5 2 1 3 3 optimal
6 2 1 3 3 optimal
7 2 1 4 4 optimal
4 3 1 2 2 optimal
5 3 1 2 2 optimal
6 3 1 2 2 optimal
7 3 1 3 3 optimal
4 3 2 3 3 optimal
5 3 2 4 4 optimal
6 3 2 7 6
7 3 2 7 7 optimal
";

const FIVE: &[u8] = b"report
3 2 1 2 2 optimal
4 2 1 2 2 optimal
5 2 1 3 3 optimal
4 3 1 2 2 optimal
5 3 1 2 2 optimal
4 3 2 3 3 optimal
5 3 2 4 4 optimal
";

const THREE: &[u8] = b"report\n3 2 1 2 2 optimal\n";

// All parts, one after the other.
fn joined(alloc: Global, parts: &[&[u8]]) -> Result<Vec<u8>, Fail> {
    let mut bytes = Vec::new(alloc);
    for part in parts {
        bytes.extend_from_slice(part)?;
    }
    Ok(bytes)
}

#[test]
fn reports_are_whole_as_text_and_as_json(rt: HostRuntime) -> Result<(), Fail> {
    let seven = b"{\"cells\":[[3,2,1,2,2,true],[4,2,1,2,2,true],[5,2,1,3,3,true],[6,2,1,3,3,true],\
        [7,2,1,4,4,true],[4,3,1,2,2,true],[5,3,1,2,2,true],[6,3,1,2,2,true],[7,3,1,3,3,true],\
        [4,3,2,3,3,true],[5,3,2,4,4,true],[6,3,2,7,6,false],[7,3,2,9,7,false]],\"frame\":[7,3,2]}\n";
    let three = b"{\"cells\":[[3,2,1,2,2,true]],\"frame\":[3,2,1]}\n";
    let rows: [(&str, &[u8], &[u8]); 4] = [
        ("build", b"frame 7 3 2\n", SEVEN),
        ("build", b"frame 3 2 1\n", THREE),
        ("build --json", b"frame 7 3 2\n", seven),
        ("build --json", b"frame 3 2 1", three),
    ];
    for (line, input, text) in rows {
        let (status, sink) = run(&rt, rt.alloc(), line, input)?;
        assert_eq!(rt; sink.bytes(), text, "of {input:?}");
        assert_eq!(rt; status, 0, "of {input:?}");
    }
    Ok(())
}

#[test]
fn clients_have_their_replies_and_the_report(rt: HostRuntime) -> Result<(), Fail> {
    let fano =
        b"frame 7 3 2\nclient ann\nupload 7 3 2\n4\t2 1\r\n\r\n2 3 5\r\n6 4 3\n 4 5 7 \n1 5 6\n\
        2 6 7\n1 3 7\nend\n";
    let thrice = b"frame 7 3 2\nclient ann\nupload 5 3 2\n1 2 3\n1 4 5\n2 4 5\n3 4 5\nend\n\
        upload 5 3 2\n1 2 3\n1 4 5\n2 4 5\n3 4 5\nend\n\
        client bob\nupload 5 3 2\n1 2 3\n1 4 5\n2 4 5\n3 4 5\nend\n";
    let refused = b"frame 7 3 2\nclient a\nupload 8 4 3\nend\nupload 4 2 1\n1 2\n1 2\n3 4\nend\n\
        upload 4 2 1\n1 2\n3\nend\nupload 4 2 1\n1 2\nend\nbound 8 3 2\nbound 4 2 1\n";
    let files = b"frame 5 3 2\nclient a\nupload file\n5 3 2 4\n1 2 3\n1 4 5\n2 4 5\n3 4 5\nend\n\
        upload file\n5 3 2 5\n1 2 3\n1 4 5\n2 4 5\n3 4 5\nend\nupload file\n5 3\nend\nupload file\nend\n\
        upload file\n5 3 2 1\n1 2\nend\n";
    let odd = b"\n frame\t5 3  2\r\n\r\nclient a\r\nsettle\r\nupload 5 3 2\r\n1 2 \0\r\nend\r\n\
        upload 5 3 2\n1 \xff 3\nend\nupload 5 3 2\n1 2 3\n1 4 5\n2 4 5\n3 4 5\nend";
    let rows: [(&[u8], &[&[u8]]); 9] = [
        (TRIPLES, &[b"client ann\naccepted 1 4\n", SEVEN]),
        (fano, &[b"client ann\naccepted 1 7\n", FANO_SEVEN]),
        (
            thrice,
            &[
                b"client ann\naccepted 1 4\naccepted 2 4\nclient bob\naccepted 1 4\n",
                SEVEN,
            ],
        ),
        (
            refused,
            &[
                b"client a\nrefused outside frame\naccepted 1 3\nrefused line 2 too few points 1\n",
                b"refused uncovered 3\noutside 8 3 2\nbound 4 2 1 2\n",
                SEVEN,
            ],
        ),
        (
            files,
            &[
                b"client a\naccepted 1 4\nrefused count 5 4\nrefused header\nrefused header\n",
                b"refused line 2 too few points 2\n",
                FIVE,
            ],
        ),
        (
            odd,
            &[
                b"client a\nsettled\nrefused line 1 column 5 not a number\n",
                b"refused line 1 column 3 not a number\naccepted 1 4\n",
                FIVE,
            ],
        ),
        (
            b"frame 5 3 2\nclient a\nbound 5 3 2\nbound 6 3 2\nclient b\nexpand 3 3 2\nexpand 5 4 2\n",
            &[
                b"client a\nbound 5 3 2 4\noutside 6 3 2\nclient b\nexpand 3 3 2 1\n1 2 3\noutside 5 4 2\n",
                FIVE,
            ],
        ),
        (
            b"frame 3 2 1\nclient a\nplan 2 2 1\nplan 3 3 1",
            &[
                b"client a\nplan 2 2 1 1\n1 one 2 2 1 1\nend\noutside 3 3 1\n",
                THREE,
            ],
        ),
        (
            b"frame 99 1 1\nclient a\nbound 99 1 1\n",
            &[b"client a\nbound 99 1 1 99\nreport\n"],
        ),
    ];
    for (input, parts) in rows {
        let text = joined(rt.alloc(), parts)?;
        let (status, sink) = run(&rt, rt.alloc(), "build", input)?;
        assert_eq!(rt; sink.bytes(), text.as_slice(), "of {input:?}");
        assert_eq!(rt; status, 0, "of {input:?}");
    }
    Ok(())
}

#[test]
fn scripts_with_a_fault_have_its_line(rt: HostRuntime) -> Result<(), Fail> {
    let rows: [(&[u8], &[u8]); 17] = [
        (b"", b"fault no frame\n"),
        (b"\n \t\r\n", b"fault no frame\n"),
        (b"client a\n", b"fault no frame\n"),
        (b"\xef\xbb\xbfframe 5 3 2\n", b"fault no frame\n"),
        (b"frame 5 6 2\n", b"fault line 1 bad frame\n"),
        (b"\n\nframe 5 3\n", b"fault line 3 bad frame\n"),
        (b"frame 100 3 2\n", b"fault line 1 bad frame\n"),
        (b"frame 99 26 2\n", b"fault line 1 bad frame\n"),
        (b"frame 99 9 9\n", b"fault line 1 bad frame\n"),
        (
            b"frame 1000000000000000000 3 2\n",
            b"fault line 1 bad frame\n",
        ),
        (b"frame 5 3 2\nbound 5 3 2\n", b"fault line 2 bad line\n"),
        (b"frame 5 3 2\nclient a\0\n", b"fault line 2 bad line\n"),
        (
            b"frame 5 3 2\nclient \xc3\xa4\n",
            b"fault line 2 bad line\n",
        ),
        (
            b"frame 5 3 2\rclient a\r\nsettle\r\n",
            b"fault line 1 bad frame\n",
        ),
        (
            b"frame 5 3 2\nclient a\nclient b\nclient a\n",
            b"fault line 4 bad line\n",
        ),
        (
            b"frame 5 3 2\nclient a\nupload 5 3 2\n1 2 3\n",
            b"fault line 3 no end\n",
        ),
        (
            b"frame 5 3 2\nclient a\nupload file\nend of it",
            b"fault line 3 no end\n",
        ),
    ];
    for (input, text) in rows {
        let (status, sink) = run(&rt, rt.alloc(), "build", input)?;
        assert_eq!(rt; sink.bytes(), text, "of {input:?}");
        assert_eq!(rt; status, 3, "of {input:?}");
    }
    Ok(())
}

// What a build of the first `n` bytes of the triples' script prints, where these have a fault.
fn cut_at(n: usize) -> &'static [u8] {
    match n {
        0..=4 => b"fault no frame\n",
        5..=10 => b"fault line 1 bad frame\n",
        13..=19 => b"fault line 2 bad line\n",
        24..=34 => b"fault line 3 bad line\n",
        35..=62 => b"fault line 3 no end\n",
        _ => b"",
    }
}

#[test]
fn a_script_that_is_cut_off_is_built_or_has_a_fault(rt: HostRuntime) -> Result<(), Fail> {
    assert_eq!(rt; TRIPLES.len(), 64);
    for n in 0..65 {
        let (status, sink) = run(&rt, rt.alloc(), "build --json", &TRIPLES[..n])?;
        let line = cut_at(n);
        if line.is_empty() {
            assert_eq!(rt; status, 0, "of {n} bytes");
            assert!(rt;
                sink.bytes().ends_with(b"\"frame\":[7,3,2]}\n"),
                "of {n} bytes"
            );
        } else {
            assert_eq!(rt; status, 3, "of {n} bytes");
            assert_eq!(rt; sink.bytes(), line, "of {n} bytes");
        }
    }
    Ok(())
}

#[test]
fn a_script_has_at_most_16_clients_of_4096_commands(rt: HostRuntime) -> Result<(), Fail> {
    let alloc = rt.alloc();
    let mut script = Vec::new(alloc);
    script.extend_from_slice(b"frame 3 2 1\n")?;
    for i in 0..15u8 {
        script.extend_from_slice(b"client ")?;
        script.push(b'b' + i)?;
        script.push(b'\n')?;
    }
    script.extend_from_slice(b"client a\n")?;
    let commands = repeated(alloc, b"settle\n", 4096)?;
    script.extend_from_slice(&commands)?;
    let (status, sink) = run(&rt, alloc, "build", &script)?;
    assert_eq!(rt; status, 0);
    assert!(rt;
        sink.bytes()
            .ends_with(b"settled\nsettled\nreport\n3 2 1 2 2 optimal\n")
    );
    let mut more = script.as_slice().to_vec(alloc)?;
    more.extend_from_slice(b"client q\n")?;
    let (_, sink) = run(&rt, alloc, "build", &more)?;
    assert_eq!(rt;
        sink.bytes(),
        b"fault line 4114 too many clients\n".as_slice()
    );
    script.extend_from_slice(b"settle\n")?;
    let (_, sink) = run(&rt, alloc, "build", &script)?;
    assert_eq!(rt;
        sink.bytes(),
        b"fault line 4114 too many commands\n".as_slice()
    );
    Ok(())
}

const POINT: &[u8] = b"upload 1 1 1\n1\nend\n";

#[test]
fn a_client_holds_at_most_256_uploads(rt: HostRuntime) -> Result<(), Fail> {
    let alloc = rt.alloc();
    let mut script = b"frame 3 1 1\nclient a\n".to_vec(alloc)?;
    script.extend_from_slice(&repeated(alloc, POINT, 257)?)?;
    script.extend_from_slice(b"client b\n")?;
    script.extend_from_slice(POINT)?;
    let (status, sink) = run(&rt, alloc, "build", &script)?;
    assert_eq!(rt; status, 0);
    let end = "accepted 256 1\nrefused quota uploads 256\nclient b\naccepted 1 1\nreport\n";
    assert!(rt;
        sink.bytes()
            .starts_with(b"client a\naccepted 1 1\naccepted 2 1\n")
    );
    assert!(rt; sink.bytes().ends_with(end.as_bytes()));
    Ok(())
}

// An upload of `count` blocks that cover the three points.
fn points_upload(alloc: Global, count: u64) -> Result<Vec<u8>, Fail> {
    let lines = repeated(alloc, b"1\n", count.saturating_sub(2))?;
    joined(alloc, &[b"upload 3 1 1\n", &lines, b"2\n3\nend\n"])
}

#[test]
fn a_client_holds_at_most_262144_blocks(rt: HostRuntime) -> Result<(), Fail> {
    let alloc = rt.alloc();
    let most = points_upload(alloc, 100_000)?;
    let rest = points_upload(alloc, 62_144)?;
    let one = b"upload 1 1 1\n1\nend\n";
    let script = joined(
        alloc,
        &[b"frame 3 1 1\nclient a\n", &most, &most, &rest, one],
    )?;
    let (status, sink) = run(&rt, alloc, "build", &script)?;
    let text = b"client a\naccepted 1 100000\naccepted 2 100000\naccepted 3 62144\n\
        refused quota blocks 262145\nreport\n";
    assert_eq!(rt; sink.bytes(), text.as_slice());
    assert_eq!(rt; status, 0);
    Ok(())
}

// How many lines there are.
pub(crate) fn lines_in(bytes: &[u8]) -> usize {
    bytes.iter().filter(|byte| **byte == b'\n').count()
}

#[test]
fn a_client_is_sent_at_most_a_million_blocks(rt: HostRuntime) -> Result<(), Fail> {
    let alloc = rt.alloc();
    let six = repeated(alloc, b"expand 99 3 3\n", 6)?;
    let others = b"expand 71 3 3\nexpand 59 2 2\nexpand 40 1 1\nexpand 1 1 1\nbound 1 1 1\n";
    let script = joined(alloc, &[b"frame 99 3 3\nclient a\n", &six, others])?;
    let sink = MemSink::new(alloc, 1 << 24, 65_536, Vec::new(alloc))?;
    let (status, sink) = run_into(&rt, alloc, "build", &script, sink)?;
    assert_eq!(rt; status, 0);
    let bytes = sink.bytes();
    assert!(rt; bytes.starts_with(b"client a\nexpand 99 3 3 156849\n1 2 3\n"));
    // The client's line, nine lines and a million blocks, two replies more, and the report of 289 cells.
    assert_eq!(rt; lines_in(bytes), 1 + 9 + 1_000_000 + 2 + 1 + 289);
    let text = str::from_utf8(bytes)?;
    assert!(rt; text.contains("\n40\ntoobig 1 1 1 1\nbound 1 1 1 1\nreport\n3 2 1 2 2 optimal\n"));
    Ok(())
}

#[test]
fn bounds_are_those_of_derived_coverings(rt: HostRuntime) -> Result<(), Fail> {
    let alloc = rt.alloc();
    let planes =
        b"frame 8 4 3\nclient x\nupload 8 4 3\n1 2 3 4\n1 2 5 6\n1 2 7 8\n1 3 5 7\n1 3 6 8\n1 4 5 8\n\
        1 4 6 7\n2 3 5 8\n2 3 6 7\n2 4 5 7\n2 4 6 8\n3 4 5 6\n3 4 7 8\n5 6 7 8\nend\nbound 8 4 3\nbound 7 3 2\n";
    let (_, gen_3) = run(&rt, alloc, "gen 3", b"")?;
    let (_, gen_4) = run(&rt, alloc, "gen 4", b"")?;
    let (_, gen_5) = run(&rt, alloc, "gen 5", b"")?;
    let rows: [(&[u8], &[u8]); 4] = [
        (
            planes,
            b"client x\naccepted 1 14\nbound 8 4 3 14\nbound 7 3 2 7\nreport\n",
        ),
        (
            gen_3.bytes(),
            b"client gen\naccepted 1 14\nsettled\nbound 8 4 3 14\nbound 7 3 2 7\nreport\n",
        ),
        (
            gen_4.bytes(),
            b"client gen\naccepted 1 140\nsettled\nbound 16 4 3 140\nbound 15 3 2 35\nreport\n",
        ),
        (
            gen_5.bytes(),
            b"client gen\naccepted 1 1240\nsettled\nbound 32 4 3 1240\nbound 31 3 2 155\nreport\n",
        ),
    ];
    for (input, start) in rows {
        let (status, sink) = run(&rt, alloc, "build", input)?;
        assert!(rt; sink.bytes().starts_with(start), "of {input:?}");
        assert_eq!(rt; status, 0, "of {input:?}");
    }
    Ok(())
}

#[test]
fn generated_scripts_are_whole(rt: HostRuntime) -> Result<(), Fail> {
    let least: &[u8] =
        b"frame 4 4 3\nclient gen\nupload 4 4 3\n1 2 3 4\nend\nsettle\nbound 4 4 3\nbound 3 3 2\n";
    let (status, sink) = run(&rt, rt.alloc(), "gen 2", b"")?;
    assert_eq!(rt; sink.bytes(), least);
    assert_eq!(rt; status, 0);
    let sink = MemSink::new(rt.alloc(), 1 << 20, 4096, Vec::new(rt.alloc()))?;
    let (status, sink) = run_into(&rt, rt.alloc(), "gen 6", b"", sink)?;
    assert_eq!(rt; lines_in(sink.bytes()), 3 + 10_416 + 4);
    assert_eq!(rt; status, 0);
    Ok(())
}

#[test]
fn an_expand_reply_covers(rt: HostRuntime) -> Result<(), Fail> {
    let script = b"frame 6 4 2\nclient x\nupload 6 4 2\n1 2 3 4\n1 2 5 6\n3 4 5 6\nend\nsettle\n\
        bound 5 3 2\nexpand 5 3 2\n";
    let (status, sink) = run(&rt, rt.alloc(), "build", script)?;
    assert_eq!(rt; status, 0);
    let text = str::from_utf8(sink.bytes())?;
    let (replies, rest) = text.split_once("\nexpand 5 3 2 4\n").ok_or("a reply")?;
    assert_eq!(rt; replies, "client x\naccepted 1 3\nsettled\nbound 5 3 2 4");
    let (blocks, _) = rest.split_once("report\n").ok_or("a report")?;
    let (status, sink) = run(&rt, rt.alloc(), "check 5 3 2", blocks.as_bytes())?;
    assert_eq!(rt; sink.bytes(), b"covers 4\n".as_slice());
    assert_eq!(rt; status, 0);
    Ok(())
}

#[test]
fn a_plan_reply_has_its_steps(rt: HostRuntime) -> Result<(), Fail> {
    let script = joined(rt.alloc(), &[TRIPLES, b"settle\nplan 6 3 2\n"])?;
    let (status, sink) = run(&rt, rt.alloc(), "build", &script)?;
    assert_eq!(rt; status, 0);
    let text = str::from_utf8(sink.bytes())?;
    let (replies, rest) = text.split_once("\nplan 6 3 2 7\n").ok_or("a reply")?;
    assert_eq!(rt; replies, "client ann\naccepted 1 4\nsettled");
    let (steps, report) = rest.split_once("end\n").ok_or("an end")?;
    assert_eq!(rt; report.as_bytes(), SEVEN);
    let last = steps.lines().last().ok_or("a step")?;
    assert!(rt; last.contains(" 6 3 2 7"), "of {last}");
    Ok(())
}
