ghost use Rattle.std.specs.Prelude.{◌≡◌, ◌⊎◌, ◌↔◌, ◌≤◌, [], ◌∷◌, IfErr, IfNone, IfOk, IfSome, IsTrue};
ghost use Rattle.std.specs.Prelude.{codes, length, slice_range};
ghost use Rattle.std.specs.List.{AllByRecursion};
ghost use Rattle.lj_text.specs.Lines.{IsLineOf, StandFrom, after_line, line_text};
ghost use Rattle.lj_text.specs.Tokens.{words_of};
ghost use Rattle.lj_script.specs.LineForms.{IsEnd};
ghost use Rattle.lj_script.specs.Scripts.{IsBody, ReachesEnd};

use crate::faults::ScriptFault;
use crate::forms::is_word;
use crate::scripts::Body;
use lj_text::{Line, Lines, Words, after_line, line_order_law};
use std::alloc::Global;

// The body of the upload that a line begins, with the later lines up to the one that ends it taken from `rest`.
pub(crate) fn read_body(
    alloc: Global,
    bytes: &[u8],
    line: &Line,
    rest: &mut Lines,
) -> Result<Body, ScriptFault>
    requires line { IsLineOf bytes.now line.now }
    requires rest { StandFrom bytes.now (after_line bytes.now line.now) rest.old }
    ensures body { IfOk result (λ body. IsBody bytes.now line.now rest.old body rest.new) }
    ensures fault { IfErr result (λ fault. (fault ≡ ScriptFault.Memory)
        ⊎ ((fault ≡ ScriptFault.Unended line.now.number)
        × AllByRecursion (λ later. IsEnd bytes.now later → ⊥) rest.old)) }
{
    line_order_law();
    let Some(end) = find_end(bytes, rest) else {
        return Err(ScriptFault::Unended { line: line.number });
    };
    match between(bytes, line, &end).to_vec(alloc) {
        Ok(body) => Ok(Body::of(body)),
        Err(_) => Err(ScriptFault::Memory),
    }
}

// The bytes after a line and before a later one.
fn between<'a>(bytes: &'a [u8], line: &Line, later: &Line) -> &'a [u8]
    requires line { IsLineOf bytes.now line.now }
    requires later { IsLineOf bytes.now later.now }
    requires order { after_line bytes.now line.now ≤ later.now.start }
    ensures { result.now ≡ slice_range bytes.now (after_line bytes.now line.now) later.now.start }
{
    &bytes[after_line(bytes, line) as usize..later.start as usize]
}

// Takes the lines up to the first that ends a body.
fn find_end(bytes: &[u8], lines: &mut Lines) -> Option<Line>
    requires { AllByRecursion (IsLineOf bytes.now) lines.old }
    ensures found { IfSome result (λ end. ReachesEnd bytes.now end lines.old lines.new) }
    ensures inside { IfSome result (IsLineOf bytes.now) }
    ensures none { IfNone result (AllByRecursion (λ line. IsEnd bytes.now line → ⊥) lines.old) }
{
    while let Some(line) = lines.next() {
        if is_end(text_of(bytes, &line)) {
            return Some(line);
        }
    }
    None
}

pub(crate) fn text_of<'a>(bytes: &'a [u8], line: &Line) -> &'a [u8]
    requires { IsLineOf bytes.now line.now }
    ensures { result.now ≡ line_text bytes.now line.now }
{
    &bytes[line.start as usize..line.stop as usize]
}

// At most two words are looked at.
fn is_end(line: &[u8]) -> bool
    ensures { IsTrue result ↔ (words_of line.now ≡ codes "end" ∷ []) }
{
    let mut words = Words::of(line);
    match words.next() {
        Some(word) => is_word(word, b"end") && words.next().is_none(),
        None => false,
    }
}
