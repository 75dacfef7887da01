use crate::rows::run;
use crate::word_rows::USAGE;
use crate::{big_run, serve_run};
use lj_base::{MemSink, MemSource};
use lj_gate::FreeGate;
use lj_gen::gen_script;
use std::alloc::Global;
use std::sync::Wait;
use std::test::Fail;
use std::thread::Threads;

// A client that uploads, reads, settles, and reads again.
pub(crate) const READER: &[u8] = b"frame 7 3 2
client ann
upload 5 3 2
1 2 3
1 4 5
2 4 5
3 4 5
end
bound 5 3 2
settle
bound 6 3 2
expand 3 3 2
";

const READ: &[u8] = b"client ann
accepted 1 4
bound 5 3 2 4
settled
bound 6 3 2 7
expand 3 3 2 1
1 2 3
report
3 2 1 2 2 optimal
4 2 1 2 2 optimal
5 2 1 3 3 optimal
6 2 1 3 3 optimal
7 2 1 4 4 optimal
4 3 1 2 2 optimal
5 3 1 2 2 optimal
6 3 1 2 2 optimal
7 3 1 3 3 optimal
4 3 2 3 3 optimal
5 3 2 4 4 optimal
6 3 2 7 6
7 3 2 9 7
rebuilt 0
";

const ANN: &[u8] = b"client ann\nupload 5 3 2\n1 2 3\n1 4 5\n2 4 5\n3 4 5\nend\n";

const BOB: &[u8] =
    b"client bob\nupload 7 3 2\n1 2 4\n2 3 5\n3 4 6\n4 5 7\n1 5 6\n2 6 7\n1 3 7\nend\n";

// The report of both uploads.
const BOTH: &[u8] = b"report
3 2 1 2 2 optimal
4 2 1 2 2 optimal
5 2 1 3 3 optimal
6 2 1 3 3 optimal
7 2 1 4 4 optimal
4 3 1 2 2 optimal
5 3 1 2 2 optimal
6 3 1 2 2 optimal
7 3 1 3 3 optimal
4 3 2 3 3 optimal
5 3 2 4 4 optimal
6 3 2 7 6
7 3 2 7 7 optimal
rebuilt 0
";

// The parts, one after the other.
fn joined(alloc: Global, parts: &[&[u8]]) -> Result<Vec<u8>, Fail> {
    let mut text = Vec::new(alloc);
    for part in parts {
        text.extend_from_slice(part)?;
    }
    Ok(text)
}

// Where the piece first stands in the text.
fn place_of(text: &[u8], piece: &[u8]) -> Option<usize> {
    for i in 0..text.len() {
        if text[i..].starts_with(piece) {
            return Some(i);
        }
    }
    None
}

// What stands in the text from the piece on.
fn from<'a>(text: &'a [u8], piece: &[u8]) -> &'a [u8] {
    match place_of(text, piece) {
        Some(i) => text.get(i..).unwrap_or(&[]),
        None => &[],
    }
}

#[test]
fn a_client_is_served(rt: HostRuntime) -> Result<(), Fail> {
    for line in [
        "serve --workers 1",
        "serve --workers=4",
        "serve --workers 64",
    ] {
        let (status, sink) = run(&rt, rt.alloc(), line, READER)?;
        assert_eq!(rt; sink.bytes(), READ, "of {line}");
        assert_eq!(rt; status, 0, "of {line}");
    }
    Ok(())
}

#[test]
fn a_plan_is_served(rt: HostRuntime) -> Result<(), Fail> {
    let input = joined(rt.alloc(), &[READER, b"plan 6 3 2\nbound 6 3 2\n"])?;
    for line in ["serve --workers 1", "serve --workers 4"] {
        let (status, sink) = run(&rt, rt.alloc(), line, &input)?;
        let plan = from(sink.bytes(), b"\nplan 6 3 2 7\n1 ");
        let end = from(plan, b" 6 3 2 7 ");
        assert!(rt; !end.is_empty(), "of {line}");
        assert!(rt;
            from(end, b"\nend\nbound 6 3 2 7\nreport\n").ends_with(b"\nrebuilt 0\n"),
            "of {line}"
        );
        assert_eq!(rt; status, 0, "of {line}");
    }
    Ok(())
}

#[test]
fn two_clients_are_served_in_both_orders(rt: HostRuntime) -> Result<(), Fail> {
    let alloc = rt.alloc();
    let rows: [[&[u8]; 4]; 2] = [
        [
            ANN,
            BOB,
            b"client ann\naccepted 1 4\n",
            b"client bob\naccepted 1 7\n",
        ],
        [
            BOB,
            ANN,
            b"client bob\naccepted 1 7\n",
            b"client ann\naccepted 1 4\n",
        ],
    ];
    for [first, second, one, other] in rows {
        let input = joined(alloc, &[b"frame 7 3 2\n", first, second])?;
        let text = joined(alloc, &[one, other, BOTH])?;
        let (status, sink) = run(&rt, alloc, "serve --workers 8", &input)?;
        assert_eq!(rt; sink.bytes(), text.as_slice());
        assert_eq!(rt; status, 0);
    }
    Ok(())
}

#[test]
fn odd_scripts_are_served(rt: HostRuntime) -> Result<(), Fail> {
    let json = b"client a\n{\"cells\":[[3,2,1,2,2,true]],\"frame\":[3,2,1]}\nrebuilt 0\n";
    let rows: [(&str, &[u8], &[u8], u8); 7] = [
        (
            "serve --workers 2",
            b"frame 1 1 1",
            b"report\nrebuilt 0\n",
            0,
        ),
        (
            "serve --workers 64",
            b"frame 3 2 1",
            b"report\n3 2 1 2 2 optimal\nrebuilt 0\n",
            0,
        ),
        (
            "serve --json --workers 2",
            b"frame 3 2 1\nclient a",
            json,
            0,
        ),
        (
            "serve --workers 2",
            b"frame 3 2 1\nclient a\nupload 2 1 1\n1\nend\nbound 4 2 1\nexpand 2 2 1\n",
            b"client a\nrefused uncovered 2\noutside 4 2 1\nexpand 2 2 1 1\n1 2\nreport\n3 2 1 2 2 optimal\n\
                rebuilt 0\n",
            0,
        ),
        ("serve --workers 2", b"", b"fault no frame\n", 3),
        (
            "serve --workers 2",
            b"frame 3 2 1\nsettle\n",
            b"fault line 2 bad line\n",
            3,
        ),
        (
            "serve --workers 2",
            b"frame 3 2 1\nclient a\nupload 3 2 1\n1 2\n",
            b"fault line 3 no end\n",
            3,
        ),
    ];
    for (line, input, text, status) in rows {
        let (ended, sink) = run(&rt, rt.alloc(), line, input)?;
        assert_eq!(rt; sink.bytes(), text, "of {input:?}");
        assert_eq!(rt; ended, status, "of {input:?}");
    }
    Ok(())
}

#[test]
fn words_that_serve_and_big_refuse(rt: HostRuntime) -> Result<(), Fail> {
    let lines = [
        "serve",
        "serve --workers",
        "serve --workers -- 1",
        "serve --workers 0",
        "serve --workers 65",
        "serve --workers 1 --workers 1",
        "serve --workers 1 --json --json",
        "serve --workers 1 5",
        "serve -- --workers 1",
        "big 2",
        "big 2 --workers",
        "big --workers 1",
        "big 1 --workers 1",
        "big 7 --workers 1",
        "big 2 --workers 65",
        "big 2 --workers 1 --json",
        "big 2 3 --workers 1",
    ];
    for line in lines {
        let (status, sink) = run(&rt, rt.alloc(), line, READER)?;
        assert_eq!(rt; sink.bytes(), USAGE, "of {line}");
        assert_eq!(rt; status, 2, "of {line}");
    }
    Ok(())
}

#[test]
fn generated_scripts_are_served(rt: HostRuntime) -> Result<(), Fail> {
    let two = b"big 2\nblocks 1\nbound 4 4 3 1\nbound 3 3 2 1\ncells 4\nsum 9\nrebuilt 0\n";
    let five =
        b"big 5\nblocks 1240\nbound 32 4 3 1240\nbound 31 3 2 155\ncells 331\nsum 32956\nrebuilt 0\n";
    let (status, sink) = run(&rt, rt.alloc(), "big 2 --workers 3", READER)?;
    assert_eq!(rt; sink.bytes(), two.as_slice());
    assert_eq!(rt; status, 0);
    let (status, sink) = run(&rt, rt.alloc(), "big 5 --workers 4", READER)?;
    assert_eq!(rt; sink.bytes(), five.as_slice());
    assert_eq!(rt; status, 0);
    let (_, other) = run(&rt, rt.alloc(), "big 5 --workers=1", READER)?;
    assert_eq!(rt; sink.bytes(), other.bytes());
    Ok(())
}

// Whether runs of `serve` on the input end with the report of this build, which begins with `mark`, and with whether
// the table was made anew; all with status 0.
fn ends_as<R: Threads + Wait + Sync>(
    rt: &R,
    alloc: Global,
    input: &[u8],
    build: &str,
    mark: &[u8],
    lines: [&str; 4],
) -> Result<bool, Fail> {
    let (status, sink) = run(rt, alloc, build, input)?;
    let report = from(sink.bytes(), mark);
    let text = joined(alloc, &[report, b"rebuilt 0\n"])?;
    let mut equal = status == 0 && report.len() > mark.len();
    for line in lines {
        let (ended, sink) = run(rt, alloc, line, input)?;
        equal = equal && ended == 0 && from(sink.bytes(), mark) == text.as_slice();
    }
    Ok(equal)
}

// Whether the reports of `build` and of `serve` on the input are equal, as text and as JSON.
fn reports_are_equal<R: Threads + Wait + Sync>(
    rt: &R,
    alloc: Global,
    input: &[u8],
) -> Result<bool, Fail> {
    let lines = [
        "serve --workers 1",
        "serve --workers 2",
        "serve --workers 8",
        "serve --workers 64",
    ];
    let as_json = [
        "serve --workers 1 --json",
        "serve --workers 2 --json",
        "serve --workers 8 --json",
        "serve --workers 64 --json",
    ];
    Ok(
        ends_as(rt, alloc, input, "build", b"report\n", lines)?
            && ends_as(rt, alloc, input, "build --json", b"{\"cells\":", as_json)?,
    )
}

#[test]
fn build_and_serve_print_one_report(rt: HostRuntime) -> Result<(), Fail> {
    let alloc = rt.alloc();
    let inputs = [
        joined(alloc, &[READER])?,
        joined(
            alloc,
            &[
                b"frame 8 4 3\n",
                ANN,
                BOB,
                b"client c\nsettle\nbound 8 4 3\n",
            ],
        )?,
        joined(
            alloc,
            &[
                b"frame 9 5 3\n",
                BOB,
                b"plan 9 5 3\nclient d\nclient e\nsettle\n",
                ANN,
            ],
        )?,
        gen_script(alloc, 3)?,
        gen_script(alloc, 4)?,
    ];
    for input in &inputs {
        assert!(rt; reports_are_equal(&rt, alloc, input)?, "of {input:?}");
    }
    Ok(())
}

// The status of a run on the client's script, whose given read and given write fail, and what was written, in pieces of
// 32 bytes.
fn run_failing<R: Threads + Wait + Sync>(
    rt: &R,
    alloc: Global,
    read: u64,
    write: u64,
) -> Result<(u8, MemSink), Fail> {
    let mut bytes = Vec::new(alloc);
    bytes.extend_from_slice(READER)?;
    let mut source = MemSource::new(bytes, 32, vec![in alloc; read]?);
    let mut sink = MemSink::new(alloc, 4096, 32, vec![in alloc; write]?)?;
    let status = serve_run(rt, alloc, 2, false, &mut source, &mut sink, &FreeGate);
    Ok((status, sink))
}

#[test]
fn each_read_may_fail(rt: HostRuntime) -> Result<(), Fail> {
    // The script has 108 bytes: four pieces, and then the end is read.
    for read in 1..6 {
        let (status, sink) = run_failing(&rt, rt.alloc(), read, 0)?;
        assert_eq!(rt; status, 4, "read {read} fails");
        assert!(rt; sink.bytes().is_empty(), "read {read} fails");
    }
    Ok(())
}

#[test]
fn each_write_may_fail(rt: HostRuntime) -> Result<(), Fail> {
    // The output has 316 bytes: ten pieces.
    for write in 1..11 {
        let (status, sink) = run_failing(&rt, rt.alloc(), 0, write)?;
        let (front, _) = READ.split_at((write as usize - 1) * 32);
        assert_eq!(rt; status, 5, "write {write} fails");
        assert_eq!(rt; sink.bytes(), front, "write {write} fails");
    }
    let (status, sink) = run_failing(&rt, rt.alloc(), 0, 11)?;
    assert_eq!(rt; status, 0);
    assert_eq!(rt; sink.bytes(), READ);
    Ok(())
}

#[test]
fn a_summary_may_fail_to_be_written(rt: HostRuntime) -> Result<(), Fail> {
    let alloc = rt.alloc();
    let mut sink = MemSink::new(alloc, 64, 4, vec![in alloc; 2]?)?;
    assert_eq!(rt; big_run(&rt, alloc, 2, 1, &mut sink, &FreeGate), 5);
    assert_eq!(rt; sink.bytes(), b"big ".as_slice());
    Ok(())
}
