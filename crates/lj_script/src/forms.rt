ghost use Rattle.std.specs.Prelude.{◌≡◌, ◌↔◌, ℕ, List, [], ◌∷◌, IsTrue, IfNone, IfSome, codes};
ghost use Rattle.lj_base.specs.Cells.{Triple};
ghost use Rattle.lj_text.specs.Tokens.{words_of};
ghost use Rattle.lj_script.specs.LineForms.{NamesCell, Says};
ghost use Rattle.lj_script.specs.declared.forms.Form.{Form};

use crate::scripts::Command;
use lj_base::Cell;
use lj_text::{Words, number};
use lj_upload::Name;

// What a line after the frame's says. `Ask` is a command of one line.
#[derive(Debug, Drop)]
pub(crate) enum Form {
    Client(Name),
    Upload(Cell),
    UploadFile,
    Ask(Command),
}

// The form of a line, where it has one.
pub(crate) fn form_of(line: &[u8]) -> Option<Form>
    ensures some { IfSome result (Says (words_of line.now)) }
    ensures none { IfNone result ((form : Form) → Says (words_of line.now) form → ⊥) }
{
    let mut words = Words::of(line);
    let first = words.next()?;
    let Some(second) = words.next() else {
        return is_word(first, b"settle").then_some(Form::Ask(Command::Settle));
    };
    if is_word(first, b"client") {
        return client_form(second, words);
    }
    if is_word(first, b"upload") && is_word(second, b"file") {
        return words.next().is_none().then_some(Form::UploadFile);
    }
    let cell = read_cell(second, words)?;
    cell_form(first, cell)
}

pub(crate) fn is_word(word: &[u8], text: &[u8]) -> bool
    ensures { IsTrue result ↔ (word.now ≡ text.now) }
{
    word == text
}

// The form of a line that begins with `client`.
fn client_form(second: &[u8], mut words: Words) -> Option<Form>
    ensures some { IfSome result (Says (codes "client" ∷ second.now ∷ words.entry)) }
    ensures none { IfNone result ((form : Form) → Says (codes "client" ∷ second.now ∷ words.entry) form → ⊥) }
{
    if words.next().is_some() {
        return None;
    }
    Name::of(second).map(Form::Client)
}

// The cell that the remaining words name: three numbers and nothing else.
pub(crate) fn rest_cell(mut words: Words) -> Option<Cell>
    ensures some { IfSome result (λ c. (first : List ℕ) → NamesCell first (first ∷ words.entry) c) }
    ensures none { IfNone result ((first : List ℕ) (c : Triple) → NamesCell first (first ∷ words.entry) c → ⊥) }
{
    let v = words.next()?;
    read_cell(v, words)
}

// The cell that a number and the remaining words name.
fn read_cell(v: &[u8], mut words: Words) -> Option<Cell>
    ensures some { IfSome result (λ c. (first : List ℕ) → NamesCell first (first ∷ v.now ∷ words.entry) c) }
    ensures none { IfNone result ((first : List ℕ) (c : Triple)
        → NamesCell first (first ∷ v.now ∷ words.entry) c → ⊥) }
{
    let k = words.next()?;
    let t = words.next()?;
    if words.next().is_some() {
        return None;
    }
    cell_of(v, k, t)
}

// The cell that three words name.
fn cell_of(v: &[u8], k: &[u8], t: &[u8]) -> Option<Cell>
    ensures some { IfSome result (λ c. (first : List ℕ) → NamesCell first (first ∷ v.now ∷ k.now ∷ t.now ∷ []) c) }
    ensures none { IfNone result ((first : List ℕ) (c : Triple)
        → NamesCell first (first ∷ v.now ∷ k.now ∷ t.now ∷ []) c → ⊥) }
{
    let cell = Cell::new(number(v).ok()?, number(k).ok()?, number(t).ok()?).ok()?;
    (cell.k > 0).then_some(cell)
}

// The form of a line of a first word and a cell.
fn cell_form(first: &[u8], cell: Cell) -> Option<Form>
    ensures some { IfSome result (λ form. (words : List (List ℕ))
        → NamesCell first.now words cell → Says words form) }
    ensures none { IfNone result ((words : List (List ℕ)) (form : Form)
        → NamesCell first.now words cell → Says words form → ⊥) }
{
    if is_word(first, b"upload") {
        Some(Form::Upload(cell))
    } else if is_word(first, b"bound") {
        Some(Form::Ask(Command::Bound { cell }))
    } else if is_word(first, b"plan") {
        Some(Form::Ask(Command::Plan { cell }))
    } else if is_word(first, b"expand") {
        Some(Form::Ask(Command::Expand { cell }))
    } else {
        None
    }
}
