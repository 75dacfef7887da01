use lj_base::Memory;
use lj_blockfile::{BodyFault, LineFault, put_body_fault, read_block, read_blocks, write_block};
use lj_samples::block_of;
use std::alloc::Global;
use std::test::Fail;

#[test]
fn a_line_has_its_first_fault(rt: HostRuntime) -> Result<(), Fail> {
    // Of five points, lines of three.
    let rows: [(&[u8], LineFault); 18] = [
        (b"1 2 10", LineFault::PointRange { value: 10 }),
        (b"1 2 3x", LineFault::NotNumber { column: 5 }),
        (b"1 2  ", LineFault::Short { count: 2 }),
        (b"0 1 2", LineFault::PointRange { value: 0 }),
        (b"1 2 6", LineFault::PointRange { value: 6 }),
        (b"1 2 2", LineFault::Repeat { point: 2 }),
        (b"1 2", LineFault::Short { count: 2 }),
        (b"1 2 3 4", LineFault::Long { count: 4 }),
        (b"1 2 3 x 0", LineFault::Long { count: 5 }),
        (b"1 x 3", LineFault::NotNumber { column: 3 }),
        (b"", LineFault::Short { count: 0 }),
        (b"6 x 3", LineFault::PointRange { value: 6 }),
        (b"1 1 x", LineFault::Repeat { point: 1 }),
        (b"2 2", LineFault::Repeat { point: 2 }),
        (
            b"1000000000000000000 2 3",
            LineFault::NotNumber { column: 1 },
        ),
        (
            b"999999999999999999 2 3",
            LineFault::PointRange {
                value: 999_999_999_999_999_999,
            },
        ),
        (b"-1 2 3", LineFault::NotNumber { column: 1 }),
        (b"1,2,3", LineFault::NotNumber { column: 1 }),
    ];
    for (line, fault) in rows {
        assert_eq!(rt; read_block(line, 5, 3), Err(fault), "of {line:?}");
    }
    assert_eq!(rt;
        read_block(b"1 2 x", 5, 2),
        Err(LineFault::Long { count: 3 })
    );
    Ok(())
}

#[test]
fn a_line_holds_a_block(rt: HostRuntime) -> Result<(), Fail> {
    let rows: [(&[u8], &[u8]); 6] = [
        (b"1 2 3", &[0, 1, 2]),
        (b"1 2 3 ", &[0, 1, 2]),
        (b"1 2  3", &[0, 1, 2]),
        (b" 3\t1  2 ", &[0, 1, 2]),
        (b"001 2 3", &[0, 1, 2]),
        (b"5 4 3", &[2, 3, 4]),
    ];
    for (line, points) in rows {
        assert_eq!(rt; read_block(line, 5, 3), Ok(block_of(points)), "of {line:?}");
    }
    assert_eq!(rt; read_block(b"99", 99, 1), Ok(block_of(&[98])));
    assert_eq!(rt; read_block(b"9 10 99", 99, 3), Ok(block_of(&[8, 9, 98])));
    Ok(())
}

const FANO: &[u8] = b"4\t2 1\r\n\r\n2 3 5\r\n6 4 3\n 4 5 7 \n1 5 6\n2 6 7\n1 3 7";

#[test]
fn a_text_holds_a_block_for_each_line(rt: HostRuntime) -> Result<(), Fail> {
    let rows: [&[u8]; 7] = [
        &[0, 1, 3],
        &[1, 2, 4],
        &[2, 3, 5],
        &[3, 4, 6],
        &[0, 4, 5],
        &[1, 5, 6],
        &[0, 2, 6],
    ];
    let blocks = match read_blocks(rt.alloc(), FANO, 7, 3) {
        Ok(blocks) => blocks,
        Err(_) => Vec::new(rt.alloc()),
    };
    assert_eq!(rt; blocks.len(), 7);
    for (block, points) in blocks.iter().zip(rows.iter()) {
        assert_eq!(rt; *block, block_of(points));
    }
    Ok(())
}

#[test]
fn the_first_faulty_line_is_named(rt: HostRuntime) -> Result<(), Fail> {
    // the text, how many blocks it holds or its fault
    let rows: [(&[u8], Result<usize, BodyFault>); 6] = [
        (b"", Ok(0)),
        (b" \n\t\r\n\n", Ok(0)),
        (b"1 2\n2 1\n1 2", Ok(3)),
        (
            b"1 2\n \n1 x\n1 1\n",
            Err(BodyFault::Line {
                number: 3,
                fault: LineFault::NotNumber { column: 3 },
            }),
        ),
        (
            b"1 2\n2 3\n4",
            Err(BodyFault::Line {
                number: 3,
                fault: LineFault::PointRange { value: 4 },
            }),
        ),
        (
            b"\n1\n1 2 3\n",
            Err(BodyFault::Line {
                number: 2,
                fault: LineFault::Short { count: 1 },
            }),
        ),
    ];
    for (text, want) in rows {
        let read = read_blocks(rt.alloc(), text, 3, 2);
        assert_eq!(rt; read.map(|blocks| blocks.len()), want, "of {text:?}");
    }
    Ok(())
}

#[test]
fn a_text_has_at_most_100000_lines(rt: HostRuntime) -> Result<(), Fail> {
    let mut text = Vec::new(rt.alloc());
    for _ in 0..100_000 {
        text.extend_from_slice(b"1\n")?;
    }
    let most = read_blocks(rt.alloc(), &text, 1, 1);
    assert_eq!(rt; most.map(|blocks| blocks.len()), Ok(100_000));
    text.extend_from_slice(b"\n \nx")?;
    let more = read_blocks(rt.alloc(), &text, 1, 1);
    assert_eq!(rt;
        more.map(|blocks| blocks.len()),
        Err(BodyFault::Blocks { n: 100_001 })
    );
    Ok(())
}

// A line with 7, and then the block's line.
fn line_after_7(alloc: Global, points: &[u8]) -> Result<Vec<u8>, Memory> {
    let block = block_of(points);
    let mut out = Vec::new(alloc);
    out.extend_from_slice(b"7\n")?;
    write_block(&block, &mut out)?;
    Ok(out)
}

#[test]
fn a_block_is_written_as_its_line(rt: HostRuntime) -> Result<(), Fail> {
    let rows: [(&[u8], &[u8]); 4] = [
        (&[9, 0, 1], b"7\n1 2 10\n"),
        (&[], b"7\n\n"),
        (&[98], b"7\n99\n"),
        (&[0], b"7\n1\n"),
    ];
    for (points, want) in rows {
        let out = line_after_7(rt.alloc(), points)?;
        assert_eq!(rt; out.as_slice(), want, "for {points:?}");
    }
    Ok(())
}

#[test]
fn faults_have_their_words(rt: HostRuntime) -> Result<(), Fail> {
    let line = |fault| BodyFault::Line { number: 3, fault };
    // the fault, as an error and as a check prints it
    let rows: [(BodyFault, &str, &[u8]); 7] = [
        (
            line(LineFault::NotNumber { column: 5 }),
            "line 3: column 5: not a number",
            b"line 3 column 5 not a number",
        ),
        (
            line(LineFault::PointRange { value: 0 }),
            "line 3: point 0 is out of range",
            b"line 3 point 0 out of range",
        ),
        (
            line(LineFault::Repeat { point: 2 }),
            "line 3: point 2 is repeated",
            b"line 3 point 2 repeated",
        ),
        (
            line(LineFault::Short { count: 2 }),
            "line 3: too few points: 2",
            b"line 3 too few points 2",
        ),
        (
            line(LineFault::Long { count: 4 }),
            "line 3: too many points: 4",
            b"line 3 too many points 4",
        ),
        (
            BodyFault::Blocks { n: 100_001 },
            "100001 blocks are too many",
            b"blocks 100001",
        ),
        (BodyFault::Memory, "out of memory", b""),
    ];
    for (fault, error, words) in rows {
        let text = format!(in rt.alloc(); "{fault}")?;
        assert_eq!(rt; text.as_str(), error);
        let mut out = Vec::new(rt.alloc());
        put_body_fault(&mut out, &fault)?;
        assert_eq!(rt; out.as_slice(), words);
    }
    Ok(())
}
