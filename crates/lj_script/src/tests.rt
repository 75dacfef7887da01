use crate::{
    Body, Command, Commands, Script, ScriptFault, Section, Sections, read_script, script_law,
};
use lj_base::{Cell, Frame, Memory};
use lj_upload::Name;
use std::alloc::Global;
use std::process::Abort;
use std::test::Fail;

// A command's word, the numbers of its cell and its body.
fn parts<'a>(command: &'a Command) -> (&'static str, [u8; 3], &'a [u8]) {
    match command {
        Command::Upload { cell, body } => ("upload", numbers(cell), body.items()),
        Command::UploadFile { body } => ("upload file", [0; 3], body.items()),
        Command::Bound { cell } => ("bound", numbers(cell), b""),
        Command::Plan { cell } => ("plan", numbers(cell), b""),
        Command::Expand { cell } => ("expand", numbers(cell), b""),
        Command::Settle => ("settle", [0; 3], b""),
    }
}

fn numbers(cell: &Cell) -> [u8; 3] {
    [cell.v, cell.k, cell.t]
}

const WHOLE: &[u8] = b"frame 7 3 2\nclient ann\nupload 5 3 2\n1 2 3\nend\nsettle\nbound 5 3 2\n\
    client bob\nupload file\n5 3 2 1\n1 2 3\nend\nplan 5 3 2\nexpand 5 3 2\n";

// The section has this name and these commands.
fn expect_section(
    rt: &impl Abort,
    section: &Section,
    name: &[u8],
    commands: &[(&str, [u8; 3], &[u8])],
) {
    assert_eq!(rt; section.name().bytes(), name);
    assert_eq!(rt; section.commands.items().len(), commands.len());
    for (command, want) in section.commands().iter().zip(commands) {
        let (word, cell, body) = parts(command);
        assert_eq!(rt; word, want.0);
        assert_eq!(rt; cell, want.1);
        assert_eq!(rt; body, want.2);
    }
}

#[test]
fn a_script_is_read_whole(rt: HostRuntime) -> Result<(), Fail> {
    script_law();
    let ann: [(&str, [u8; 3], &[u8]); 3] = [
        ("upload", [5, 3, 2], b"1 2 3\n"),
        ("settle", [0; 3], b""),
        ("bound", [5, 3, 2], b""),
    ];
    let bob: [(&str, [u8; 3], &[u8]); 3] = [
        ("upload file", [0; 3], b"5 3 2 1\n1 2 3\n"),
        ("plan", [5, 3, 2], b""),
        ("expand", [5, 3, 2], b""),
    ];
    let script = read_script(rt.alloc(), WHOLE)?;
    assert_eq!(rt; numbers(&script.frame.top), [7, 3, 2]);
    let sections = script.clients.items();
    assert_eq!(rt; sections.len(), 2);
    expect_section(&rt, &sections[0], b"ann", &ann);
    expect_section(&rt, &sections[1], b"bob", &bob);
    Ok(())
}

#[test]
fn the_first_faulty_line_is_named(rt: HostRuntime) -> Result<(), Fail> {
    let bad_frame = Err(ScriptFault::BadFrame { line: 1 });
    let bad = |line| Err(ScriptFault::BadLine { line });
    // the text, how many clients it has or its fault
    let rows: [(&[u8], Result<usize, ScriptFault>); 36] = [
        (b"", Err(ScriptFault::NoFrame)),
        (b" \n\t\r\n", Err(ScriptFault::NoFrame)),
        (b"client a", Err(ScriptFault::NoFrame)),
        (b"frames 5 3 2", Err(ScriptFault::NoFrame)),
        (b"frame", bad_frame),
        (b"frame 5 3", bad_frame),
        (b"frame 5 3 2 1", bad_frame),
        (b"frame 5 6 2", bad_frame),
        (b"frame 100 3 2", bad_frame),
        (b"frame 99 26 2", bad_frame),
        (b"frame 99 9 9", bad_frame),
        (b"frame 5 0 0", bad_frame),
        (b"frame 1000000000000000000 3 2", bad_frame),
        (b"frame 000000000000000005 3 2", Ok(0)),
        (b"\n \nframe 5 x 2", Err(ScriptFault::BadFrame { line: 3 })),
        (b"frame 5 3 2\nbound 5 3 2", bad(2)),
        (b"frame 5 3 2\nupload 5 3 2", bad(2)),
        (b"frame 5 3 2\nclient", bad(2)),
        (b"frame 5 3 2\nclient a b", bad(2)),
        (b"frame 5 3 2\nclient a.b", bad(2)),
        (b"frame 5 3 2\nclient a\nclient b\nclient a", bad(4)),
        (b"frame 5 3 2\nclient a\nframe 5 3 2", bad(3)),
        (b"frame 5 3 2\nclient a\nend\nclient a", bad(3)),
        (b"frame 5 3 2\nclient a\nsettle now", bad(3)),
        (b"frame 5 3 2\nclient a\nupload file 5", bad(3)),
        (b"frame 5 3 2\nclient a\nplan 5 0 0", bad(3)),
        (b"frame 5 3 2\nclient a\nexpand 5 6 2", bad(3)),
        (b"frame 5 3 2\nclient a\nbound 5 3 x", bad(3)),
        (b"frame 5 3 2\n\n \t\nclient a\n\nbound 5 3", bad(6)),
        (b"frame 5 3 2\r\n\tclient\t a \r\n  settle\r\n", Ok(1)),
        (
            b"frame 5 3 2\nclient a\nupload 5 3 2\n1 2 3",
            Err(ScriptFault::Unended { line: 3 }),
        ),
        (
            b"frame 5 3 2\nclient a\nupload file\nend of it\nclient b",
            Err(ScriptFault::Unended { line: 3 }),
        ),
        (
            b"frame 5 3 2\nclient a\nupload file\nclient b\nsettle\nbound 5 3 2\nend of it\n  end \nplan 5 3 2",
            Ok(1),
        ),
        (b"frame 5 3 2\nclient a\nupload 5 3 2\nend\nend", bad(5)),
        (
            b"frame 5 3 2\nclient abcdefghijklmnopqrstuvwxyz012345",
            Ok(1),
        ),
        (
            b"frame 5 3 2\nclient abcdefghijklmnopqrstuvwxyz0123456",
            bad(2),
        ),
    ];
    for (text, want) in rows {
        let read = read_script(rt.alloc(), text);
        assert_eq!(rt;
            read.map(|script| script.sections().len()),
            want,
            "of {text:?}"
        );
    }
    Ok(())
}

const CUT: &[u8] = b"frame 7 3 2\nclient ann\nupload 5 3 2\n1 2 3\n1 4 5\n2 4 5\n3 4 5\nend\n";

// What is read of the first `n` bytes.
fn cut_at(n: usize) -> Result<usize, ScriptFault> {
    match n {
        0..=4 => Err(ScriptFault::NoFrame),
        5..=10 => Err(ScriptFault::BadFrame { line: 1 }),
        11..=12 => Ok(0),
        13..=19 => Err(ScriptFault::BadLine { line: 2 }),
        20..=23 => Ok(1),
        24..=34 => Err(ScriptFault::BadLine { line: 3 }),
        35..=62 => Err(ScriptFault::Unended { line: 3 }),
        _ => Ok(1),
    }
}

#[test]
fn a_script_that_is_cut_off_is_read_or_has_a_fault(rt: HostRuntime) -> Result<(), Fail> {
    assert_eq!(rt; CUT.len(), 64);
    for n in 0..65 {
        let read = read_script(rt.alloc(), &CUT[..n]);
        assert_eq!(rt;
            read.map(|script| script.sections().len()),
            cut_at(n),
            "of {n} bytes"
        );
    }
    Ok(())
}

// A frame and `count` clients with different names.
fn clients(alloc: Global, count: u8) -> Result<Vec<u8>, Memory> {
    let mut text = Vec::new(alloc);
    text.extend_from_slice(b"frame 5 3 2\n")?;
    for i in 0..count {
        text.extend_from_slice(b"client ")?;
        text.push(b'a' + i % 26)?;
        text.push(b'\n')?;
    }
    Ok(text)
}

#[test]
fn a_script_has_at_most_16_clients(rt: HostRuntime) -> Result<(), Fail> {
    let mut text = clients(rt.alloc(), 16)?;
    let most = read_script(rt.alloc(), &text);
    assert_eq!(rt; most.map(|script| script.sections().len()), Ok(16));
    let more = clients(rt.alloc(), 17)?;
    let more = read_script(rt.alloc(), &more);
    assert_eq!(rt; more.err(), Some(ScriptFault::TooManyClients { line: 18 }));
    text.extend_from_slice(b"client a\n")?;
    let used = read_script(rt.alloc(), &text);
    assert_eq!(rt; used.err(), Some(ScriptFault::BadLine { line: 18 }));
    Ok(())
}

#[test]
fn a_client_has_at_most_4096_commands(rt: HostRuntime) -> Result<(), Fail> {
    let mut text = clients(rt.alloc(), 1)?;
    for _ in 0..4096 {
        text.extend_from_slice(b"settle\n")?;
    }
    let most = read_script(rt.alloc(), &text);
    assert_eq!(rt; most.map(|script| script.sections().len()), Ok(1));
    let rows: [&[u8]; 2] = [b"settle\n", b"upload 5 3 2\n"];
    for line in rows {
        let mut more = Vec::from_slice(rt.alloc(), &text)?;
        more.extend_from_slice(line)?;
        let read = read_script(rt.alloc(), &more);
        assert_eq!(rt;
            read.err(),
            Some(ScriptFault::TooManyCommands { line: 4099 })
        );
    }
    Ok(())
}

#[test]
fn a_script_is_put_together_and_taken_apart(rt: HostRuntime) -> Result<(), Fail> {
    let body = Body::of(b"1\n".to_vec(rt.alloc())?);
    let commands = Commands::of(vec![in rt.alloc(); Command::UploadFile { body }]?);
    let name = Name::of(b"ann").ok_or("a name")?;
    let clients = Sections::of(vec![in rt.alloc(); Section { name, commands }]?);
    let frame = Frame::new(Cell::new(1, 1, 1)?);
    let script = Script { frame, clients };
    assert_eq!(rt; script.sections().len(), 1);
    for section in script.clients.into_vec() {
        let Section { name, commands } = section;
        assert_eq!(rt; name.bytes(), b"ann".as_slice());
        for command in commands.into_vec() {
            match command {
                Command::UploadFile { body } => {
                    assert_eq!(rt; body.into_vec().as_slice(), b"1\n".as_slice())
                }
                _ => assert!(rt; false),
            }
        }
    }
    Ok(())
}

#[test]
fn each_fault_has_a_text(rt: HostRuntime) -> Result<(), Fail> {
    let rows: [(ScriptFault, &str); 7] = [
        (ScriptFault::NoFrame, "no frame"),
        (ScriptFault::BadLine { line: 2 }, "line 2: bad line"),
        (ScriptFault::BadFrame { line: 1 }, "line 1: bad frame"),
        (ScriptFault::Unended { line: 3 }, "line 3: no end"),
        (
            ScriptFault::TooManyClients { line: 18 },
            "line 18: too many clients",
        ),
        (
            ScriptFault::TooManyCommands { line: 4099 },
            "line 4099: too many commands",
        ),
        (ScriptFault::Memory, "out of memory"),
    ];
    for (fault, want) in rows {
        let text = format!(in rt.alloc(); "{fault}")?;
        assert_eq!(rt; text.as_str(), want);
    }
    Ok(())
}
