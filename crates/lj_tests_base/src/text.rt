ghost use Rattle.std.specs.Prelude.{◌≡◌, ◌<◌, ◌≤◌, length, None};

use lj_base::{Failed, Sink, Source};
use lj_text::{
    Line, Lines, NotNumber, ReadFail, Token, Tokens, WriteFault, number, put, put_field,
    put_joined, put_named, put_number, put_number_field, put_number_fields, read_all, write_all,
};
use std::test::Fail;

// A source of bytes that fails at one call, counted from 1. It reports nothing of its bytes.
#[derive(Drop)]
struct Feed<'a> {
    bytes: &'a [u8],
    piece: usize,
    calls: u64,
    fails: u64,
    faults: u64,
}

impl<'a> Source for Feed<'a> {
    ghost left = { λ _. None };

    ghost faults = { λ s. s.faults };

    fn read(&mut self, buf: &mut [u8]) -> Result<usize, Failed> {
        self.calls = self.calls.saturating_add(1);
        if self.calls == self.fails {
            self.faults = self.faults.saturating_add(1);
            return Err(Failed);
        }
        let count = self.piece.min(buf.len()).min(self.bytes.len());
        buf[..count].copy_from_slice(&self.bytes[..count]);
        self.bytes = &self.bytes[count..];
        Ok(count)
    }

    fn faults(&self) -> u64 {
        self.faults
    }
}

// A sink that takes at most two bytes a call and fails at one call, counted from 1.
#[derive(Drop)]
struct Store {
    bytes: Vec<u8>,
    calls: u64,
    fails: u64,
    faults: u64,
}

impl Sink for Store {
    ghost written = { λ _. None };

    ghost faults = { λ s. s.faults };

    fn write(&mut self, bytes: &[u8]) -> Result<usize, Failed> {
        if bytes.is_empty() {
            return Ok(0);
        }
        self.calls = self.calls.saturating_add(1);
        let count = bytes.len().min(2);
        if self.calls == self.fails || self.bytes.extend_from_slice(&bytes[..count]).is_err() {
            self.faults = self.faults.saturating_add(1);
            return Err(Failed);
        }
        Ok(count)
    }

    fn faults(&self) -> u64 {
        self.faults
    }
}

const TEXT: &[u8] = b"4\t2 1\r\n\r\n2 3 5\r\n6 4 3\n 4 5 7 \n1 5 6";

#[test]
fn lines_are_numbered_with_the_blank_ones(rt: HostRuntime) -> Result<(), Fail> {
    let mut lines = Lines::of(TEXT);
    let rows: [(u64, &[u8]); 5] = [
        (1, b"4\t2 1"),
        (3, b"2 3 5"),
        (4, b"6 4 3"),
        (5, b" 4 5 7 "),
        (6, b"1 5 6"),
    ];
    for (number, text) in rows {
        let line = lines.next().unwrap_or(Line {
            number: 0,
            start: 0,
            stop: 0,
        });
        assert_eq!(rt; line.number, number);
        assert_eq!(rt;
            TEXT.get(line.start as usize..line.stop as usize),
            Some(text),
            "line {number}"
        );
    }
    assert!(rt; lines.next().is_none());
    assert!(rt; lines.next().is_none());
    Ok(())
}

#[test]
fn ends_and_blanks_decide_what_a_line_is(rt: HostRuntime) -> Result<(), Fail> {
    let rows: [(&[u8], Option<(u64, u64, u64)>); 8] = [
        (b"", None),
        (b"\n\n", None),
        (b" \t\r\n", None),
        (b"a\n", Some((1, 0, 1))),
        (b"\r\r\n", Some((1, 0, 1))),
        (b"a\rb", Some((1, 0, 3))),
        (b"\n \n\tb\r", Some((3, 3, 5))),
        (b"\n\r\nab", Some((3, 3, 5))),
    ];
    for (text, want) in rows {
        let mut lines = Lines::of(text);
        let line = lines
            .next()
            .map(|line| (line.number, line.start, line.stop));
        assert_eq!(rt; line, want, "in {text:?}");
        assert!(rt; lines.next().is_none(), "after the first of {text:?}");
    }
    Ok(())
}

#[test]
fn tokens_stand_between_spaces_and_tabs(rt: HostRuntime) -> Result<(), Fail> {
    let rows: [(&[u8], &[(u64, u64, u64)]); 4] = [
        (b" 4 5\t7 ", &[(2, 1, 2), (4, 3, 4), (6, 5, 6)]),
        (b"frame  12", &[(1, 0, 5), (8, 7, 9)]),
        (b"\t ", &[]),
        (b"", &[]),
    ];
    for (line, want) in rows {
        let mut tokens = Tokens::of(line);
        for (column, start, stop) in want {
            let token = Token {
                column: *column,
                start: *start,
                stop: *stop,
            };
            assert_eq!(rt; tokens.next(), Some(token), "in {line:?}");
        }
        assert!(rt; tokens.next().is_none(), "in {line:?}");
    }
    Ok(())
}

#[test]
fn numbers_have_1_to_18_digits(rt: HostRuntime) -> Result<(), Fail> {
    let rows: [(&[u8], Result<u64, NotNumber>); 9] = [
        (b"0", Ok(0)),
        (b"007", Ok(7)),
        (b"999999999999999999", Ok(999_999_999_999_999_999)),
        (b"", Err(NotNumber)),
        (b"1000000000000000000", Err(NotNumber)),
        (b"+1", Err(NotNumber)),
        (b"1x", Err(NotNumber)),
        (b"-1", Err(NotNumber)),
        (b"1 2", Err(NotNumber)),
    ];
    for (token, want) in rows {
        assert_eq!(rt; number(token), want, "of {token:?}");
    }
    Ok(())
}

#[test]
fn a_source_is_read_up_to_the_limit(rt: HostRuntime) -> Result<(), Fail> {
    // piece, the call that fails, limit, the bytes or the error
    let rows: [(usize, u64, u64, Result<&[u8], ReadFail>); 5] = [
        (2, 0, 5, Ok(b"bytes")),
        (100, 0, 5, Ok(b"bytes")),
        (2, 0, 4, Err(ReadFail::TooLarge)),
        (2, 2, 5, Err(ReadFail::ReadFault { count: 1 })),
        (5, 2, 4, Err(ReadFail::TooLarge)),
    ];
    for (piece, fails, limit, want) in rows {
        let mut source = Feed {
            bytes: b"bytes",
            piece,
            calls: 0,
            fails,
            faults: 0,
        };
        let read = read_all(rt.alloc(), &mut source, limit);
        let shown = match &read {
            Ok(bytes) => Ok(bytes.as_slice()),
            Err(error) => Err(*error),
        };
        assert_eq!(rt; shown, want, "in pieces of {piece} up to {limit}");
    }
    Ok(())
}

#[test]
fn a_text_is_written_up_to_the_fault(rt: HostRuntime) -> Result<(), Fail> {
    // the call that fails, the result, what was written
    let rows: [(u64, Result<(), WriteFault>, &[u8]); 3] = [
        (0, Ok(()), b"seven 7"),
        (3, Err(WriteFault { count: 1 }), b"seve"),
        (1, Err(WriteFault { count: 1 }), b""),
    ];
    let mut text = Vec::new(rt.alloc());
    put(&mut text, b"seven ")?;
    put_number(&mut text, 7)?;
    for (fails, want, written) in rows {
        let mut sink = Store {
            bytes: Vec::new(rt.alloc()),
            calls: 0,
            fails,
            faults: 0,
        };
        assert_eq!(rt;
            write_all(&mut sink, &text),
            want,
            "where call {fails} fails"
        );
        assert_eq!(rt; sink.bytes.as_slice(), written, "where call {fails} fails");
    }
    Ok(())
}

#[test]
fn numbers_are_written_in_decimal_digits(rt: HostRuntime) -> Result<(), Fail> {
    let rows: [(u64, &[u8]); 4] = [
        (0, b"n 0"),
        (99, b"n 99"),
        (1_299_709, b"n 1299709"),
        (u64::MAX, b"n 18446744073709551615"),
    ];
    for (n, want) in rows {
        let mut text = b"n ".to_vec(rt.alloc())?;
        put_number(&mut text, n)?;
        assert_eq!(rt; text.as_slice(), want);
    }
    Ok(())
}

#[test]
fn fields_are_written_after_what_is_there(rt: HostRuntime) -> Result<(), Fail> {
    let mut text = b"7".to_vec(rt.alloc())?;
    put_field(&mut text, b"drop")?;
    put_number_field(&mut text, 5)?;
    put_number_fields(&mut text, &[3, 2])?;
    put(&mut text, b"\n")?;
    put_named(&mut text, b"covers", &[12])?;
    put(&mut text, b"\n")?;
    put_joined(&mut text, b':', &[0, 1, 20])?;
    assert_eq!(rt;
        text.as_slice(),
        b"7 drop 5 3 2\ncovers 12\n0:1:20".as_slice()
    );
    Ok(())
}
