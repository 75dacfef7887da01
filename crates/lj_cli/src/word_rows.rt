use crate::rows::{FOUR, run, words_of};
use crate::{BigCall, Call, CheckCall, ServeCall, read_words};
use lj_base::Cell;
use std::test::Fail;

#[test]
fn good_words_call_for_their_command(rt: HostRuntime) -> Result<(), Fail> {
    let cell = Cell::new(5, 3, 2)?;
    let check = |workers: u64| Call::Check(CheckCall { cell, workers });
    let serve = |workers: u64, json: bool| Call::Serve(ServeCall { workers, json });
    let big = |m: u64, workers: u64| Call::Big(BigCall { m, workers });
    let rows: [(&str, Call); 32] = [
        ("check 5 3 2", check(1)),
        ("check 05 003 2", check(1)),
        ("check 5 3 2 --workers 3", check(3)),
        ("check --workers 64 5 3 2", check(64)),
        ("check 5 --workers=2 3 2", check(2)),
        ("check --workers=04 5 3 2", check(4)),
        ("check --workers 1 -- 5 3 2", check(1)),
        ("check 5 3 2 --", check(1)),
        ("build", Call::Build { json: false }),
        ("build --", Call::Build { json: false }),
        ("build --json", Call::Build { json: true }),
        ("build --json --", Call::Build { json: true }),
        ("serve --workers 2", serve(2, false)),
        ("serve --json --workers=64", serve(64, true)),
        ("gen 2", Call::Gen { m: 2 }),
        ("gen 6", Call::Gen { m: 6 }),
        ("gen -- 5", Call::Gen { m: 5 }),
        ("gen 000004", Call::Gen { m: 4 }),
        ("gen 3 --", Call::Gen { m: 3 }),
        ("big 5 --workers 4", big(5, 4)),
        ("big --workers 1 -- 2", big(2, 1)),
        ("excess 5 3 2", Call::Excess { cell }),
        ("excess -- 05 3 2", Call::Excess { cell }),
        ("greedy 5 3 2", Call::Greedy { cell }),
        ("reduce 5 3 2", Call::Reduce { cell }),
        ("reduce 5 3 2 --", Call::Reduce { cell }),
        ("certify", Call::Certify),
        ("certify --", Call::Certify),
        ("audit", Call::Audit { workers: 1 }),
        ("audit --", Call::Audit { workers: 1 }),
        ("audit --workers 64", Call::Audit { workers: 64 }),
        ("audit --workers=02 --", Call::Audit { workers: 2 }),
    ];
    for (line, call) in rows {
        let words = words_of(rt.alloc(), line)?;
        assert_eq!(rt; read_words(&words), Some(call), "of {line}");
    }
    Ok(())
}

pub(crate) const USAGE: &[u8] =
    b"usage: ljcr check V K T [--workers N] | build [--json] | serve --workers N [--json] | gen M \
    | big M --workers N | excess V K T | greedy V K T | reduce V K T | certify | audit [--workers N]\n";

#[test]
fn other_words_end_with_the_usage_line(rt: HostRuntime) -> Result<(), Fail> {
    let rows = [
        "",
        "check",
        "chec 5 3 2",
        "checks 5 3 2",
        "5 3 2",
        "check 5 3",
        "check 5 3 2 1",
        "check 5 3 x",
        "check 5 3 4",
        "check 3 5 2",
        "check 5 0 0",
        "check 100 3 2",
        "check 5 3 0000000000000000002",
        "check 5 3 2 --workers",
        "check 5 3 2 --workers 0",
        "check 5 3 2 --workers 65",
        "check 5 3 2 --workers=",
        "check 5 3 2 --workers 1 --workers 1",
        "check 5 3 2 --json",
        "check 5 3 2 -w",
        "check -- 5 3 2 --workers 1",
        "check --workers -- 5 3 2",
        "check -- -- 5 3 2",
        "build 1",
        "build --workers 1",
        "build --json --json",
        "build --json=true",
        "build -- --json",
        "build -j",
        "Build",
        "gen",
        "gen 1",
        "gen 7",
        "gen 3 4",
        "gen -3",
        "gen 3 --json",
        "gen 3 --workers 1",
        "excess 5 3",
        "excess 5 3 2 1",
        "excess 5 0 0",
        "excess 5 3 2 --workers 1",
        "greedy 5 3 2 --json",
        "greedy 3 5 2",
        "reduce",
        "reduce 5 3 x",
        "certify 1",
        "certify --json",
        "certify --workers 1",
        "audit 3 2 1",
        "audit --workers",
        "audit --workers 0",
        "audit --workers 65",
        "audit --workers 1 --workers 1",
        "audit --json",
        "audit -- --workers 1",
        "--json build",
        "-- build",
        "--help",
        "-h",
    ];
    for line in rows {
        let words = words_of(rt.alloc(), line)?;
        assert!(rt; read_words(&words).is_none(), "of {line}");
        let (status, sink) = run(&rt, rt.alloc(), line, FOUR)?;
        assert_eq!(rt; sink.bytes(), USAGE, "of {line}");
        assert_eq!(rt; status, 2, "of {line}");
    }
    Ok(())
}
