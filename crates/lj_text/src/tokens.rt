ghost use Rattle.std.specs.Prelude.{◌≡◌, ◌≤◌, [], ◌∷◌, IfSome, IsNone, drop, length, not};
ghost use Rattle.std.specs.Iterator.{YieldsFirst, item_count};
ghost use Rattle.std.specs.List.{AllByRecursion, position_or_len};
ghost use Rattle.lj_text.specs.Lines.{is_blank};
ghost use Rattle.lj_text.specs.Tokens.{IsTokenOf, tokens_from, tokens_of};

use crate::lines::is_blank;
use std::marker::Model;

/// Where a token stands in its line: its text is `line[start..stop]`. `column` is `start + 1`.
#[derive(Clone, Copy, Debug, PartialEq, Eq)]
pub struct Token {
    pub column: u64,
    pub start: u64,
    pub stop: u64,
}

/// A walk through the tokens of a line, the longest runs of bytes other than space and tab, seen as those that are
/// left. It goes over each byte once in all.
#[derive(Drop)]
pub struct Tokens<'a> {
    line: &'a [u8],
    at: usize,
}

impl<'a> Model for Tokens<'a> {
    ghost use Rattle.std.specs.Prelude.{◌≤◌, List, drop, length};
    ghost use Rattle.lj_text.specs.Tokens.{tokens_from};
    ghost use Rattle.lj_text.specs.declared.tokens.Token.{Token};

    ghost Value = { List Token };

    ghost view = { λ w. tokens_from w.at (drop w.at w.line.now) };

    ghost invariant = { λ w. w.at ≤ length w.line.now };
}

impl<'a> Tokens<'a> {
    pub fn of(line: &'a [u8]) -> Tokens<'a>
        ensures walk { result ≡ tokens_of line.now }
        ensures inside { AllByRecursion (IsTokenOf line.now) result }
        ensures len { length result ≤ length line.now }
    {
        Tokens { line, at: 0 }
    }
}

impl<'a> Iterator for Tokens<'a> {
    type Item = Token;

    ghost next_gives = { YieldsFirst (λ left. left) };

    ghost remaining = { item_count (λ left. left) };

    fn next(&mut self) -> Option<Token> {
        let token = token_from(self.line, self.at)?;
        self.at = token.stop as usize;
        Some(token)
    }
}

// The first token of a line from a place on.
fn token_from(line: &[u8], at: usize) -> Option<Token>
    requires { at ≤ length line.now }
    ensures none { IsNone result → tokens_from at (drop at line.now) ≡ [] }
    ensures first { IfSome result (λ token.
        tokens_from at (drop at line.now) ≡ token ∷ tokens_from token.stop (drop token.stop line.now)) }
    ensures inside { IfSome result (IsTokenOf line.now) }
{
    let start = at + blanks(&line[at..]);
    let stop = start + token_len(&line[start..]);
    if start == stop {
        return None;
    }
    Some(Token {
        column: start as u64 + 1,
        start: start as u64,
        stop: stop as u64,
    })
}

// How many blanks the bytes begin with.
fn blanks(bytes: &[u8]) -> usize
    ensures count { result ≡ position_or_len (λ byte. not (is_blank byte)) bytes.now }
    ensures within { result ≤ length bytes.now }
{
    let first = bytes.iter().position(|byte| !is_blank(*byte));
    first.unwrap_or(bytes.len())
}

// How many bytes stand before the first blank.
fn token_len(bytes: &[u8]) -> usize
    ensures count { result ≡ position_or_len is_blank bytes.now }
    ensures within { result ≤ length bytes.now }
{
    let first = bytes.iter().position(|byte| is_blank(*byte));
    first.unwrap_or(bytes.len())
}
