ghost use Rattle.std.specs.Prelude.{◌≡◌, ◌+◌, ◌<◌, ◌≤◌, ◌∷◌, drop, length};
ghost use Rattle.std.specs.Iterator.{YieldsFirst, item_count};
ghost use Rattle.std.specs.List.{AllByRecursion, list_all};
ghost use Rattle.lj_text.specs.Lines.{IsLineOf, StandFrom, after_line, cut_lines, is_blank, text_lines, without_return};

use memchr::memchr;
use std::marker::Model;

/// Where a line stands in a text: its text is `bytes[start..stop]`. Lines are numbered from 1, blank ones too.
#[derive(Clone, Copy, Debug, PartialEq, Eq)]
pub struct Line {
    pub number: u64,
    pub start: u64,
    pub stop: u64,
}

/// A walk through the lines of a text that are not blank, seen as those that are left. It goes over each byte once or
/// twice in all.
#[derive(Drop)]
pub struct Lines<'a> {
    bytes: &'a [u8],
    at: usize,
    number: u64,
}

impl<'a> Model for Lines<'a> {
    ghost use Rattle.std.specs.Prelude.{◌+◌, ◌≤◌, List, drop, length};
    ghost use Rattle.lj_text.specs.Lines.{cut_lines, lines_from};
    ghost use Rattle.lj_text.specs.declared.lines.Line.{Line};

    ghost Value = { List Line };

    ghost view = { λ w. lines_from w.number w.at (cut_lines (drop w.at w.bytes.now)) };

    ghost invariant = { λ w. (w.number ≤ w.at + 1) × (w.at ≤ length w.bytes.now + 1) };
}

impl<'a> Lines<'a> {
    pub fn of(bytes: &'a [u8]) -> Lines<'a>
        ensures walk { result ≡ text_lines bytes.now }
        ensures inside { AllByRecursion (IsLineOf bytes.now) result }
        ensures order { StandFrom bytes.now 0 result }
        ensures len { length result ≤ length bytes.now }
    {
        Lines {
            bytes,
            at: 0,
            number: 1,
        }
    }
}

impl<'a> Iterator for Lines<'a> {
    type Item = Line;

    ghost next_gives = { YieldsFirst (λ left. left) };

    ghost remaining = { item_count (λ left. left) };

    fn next(&mut self) -> Option<Line> {
        while self.at < self.bytes.len() {
            let line = first_line(&self.bytes[self.at..]);
            let text = without_return(line);
            let found = Line {
                number: self.number,
                start: self.at as u64,
                stop: (self.at + text.len()) as u64,
            };
            self.at += line.len() + 1;
            self.number += 1;
            if !is_blank_line(text) {
                return Some(found);
            }
        }
        None
    }
}

/// The place after the LF that ends a line of the text, or the end of the text where none does.
pub fn after_line(bytes: &[u8], line: &Line) -> u64
    requires inside { IsLineOf bytes.now line.now }
    ensures place { result ≡ after_line bytes.now line.now }
    ensures later { line.now.stop ≤ result }
    ensures within { result ≤ length bytes.now }
{
    let stop = line.stop as usize;
    match memchr(b'\n', &bytes[stop..]) {
        Some(rest) => (stop + rest + 1) as u64,
        None => bytes.len() as u64,
    }
}

// What stands before the first LF, or all where there is none.
fn first_line(bytes: &[u8]) -> &[u8]
    requires { 0 < length bytes.now }
    ensures cut { cut_lines bytes.now ≡ result.now ∷ cut_lines (drop (length result.now + 1) bytes.now) }
    ensures within { length result.now ≤ length bytes.now }
{
    match memchr(b'\n', bytes) {
        Some(len) => &bytes[..len],
        None => bytes,
    }
}

fn without_return(line: &[u8]) -> &[u8]
    ensures text { result.now ≡ without_return line.now }
    ensures within { length result.now ≤ length line.now }
{
    line.strip_suffix(b"\r").unwrap_or(line)
}

fn is_blank_line(text: &[u8]) -> bool
    ensures { result ≡ list_all is_blank text.now }
{
    text.iter().all(|byte| is_blank(*byte))
}

// A space or a tab.
pub(crate) fn is_blank(byte: u8) -> bool
    ensures { result ≡ is_blank byte }
{
    byte == b' ' || byte == b'\t'
}
