ghost use Rattle.std.specs.Prelude.{◌≡◌};
ghost use Rattle.std.specs.Iterator.{YieldsFirstRef, item_count};
ghost use Rattle.lj_text.specs.Tokens.{words_of};

use crate::tokens::Tokens;
use std::marker::Model;

/// A walk through the words of a line, the texts of its tokens, seen as those that are left. It goes over each byte
/// once in all.
#[derive(Drop)]
pub struct Words<'a> {
    line: &'a [u8],
    tokens: Tokens<'a>,
}

impl<'a> Model for Words<'a> {
    ghost use Rattle.std.specs.Prelude.{ℕ, List, map};
    ghost use Rattle.std.specs.List.{AllByRecursion};
    ghost use Rattle.lj_text.specs.Tokens.{IsTokenOf, token_text};

    ghost Value = { List (List ℕ) };

    ghost view = { λ w. map (token_text w.line.now) w.tokens };

    ghost invariant = { λ w. AllByRecursion (IsTokenOf w.line.now) w.tokens };
}

impl<'a> Words<'a> {
    pub fn of(line: &'a [u8]) -> Words<'a>
        ensures { result ≡ words_of line.now }
    {
        Words {
            line,
            tokens: Tokens::of(line),
        }
    }
}

impl<'a> Iterator for Words<'a> {
    type Item = &'a [u8];

    ghost next_gives = { YieldsFirstRef (λ left. left) };

    ghost remaining = { item_count (λ left. left) };

    fn next(&mut self) -> Option<&'a [u8]> {
        let token = self.tokens.next()?;
        Some(&self.line[token.start as usize..token.stop as usize])
    }
}
