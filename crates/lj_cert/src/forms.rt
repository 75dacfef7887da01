ghost use Rattle.std.specs.Prelude.{◌≡◌, ◌↔◌, ◌^◌, ◌<◌, ◌≤◌, ◌∷◌, [], IfNone, IfSome, IsTrue, length, slice_get, Some};
ghost use Rattle.lj_base.specs.Cells.{Triple};
ghost use Rattle.lj_base.specs.Frames.{Top};
ghost use Rattle.lj_cover.specs.Rules.{Upload};
ghost use Rattle.lj_cert.specs.LineForms.{IsBoundLine, IsFrameLine, IsUploadLine, IsWord, NamesOffered};
ghost use Rattle.lj_cert.specs.declared.certs.CertBound.{CertBound};

use crate::certs::{CertBound, CertUpload};
use crate::fields::{five_numbers, next_name, next_number, three_numbers};
use crate::lists::CertBlocks;
use lj_base::{Cell, Frame};
use lj_text::Words;
use lj_upload::Name;
use std::alloc::Global;

pub(crate) fn is_word(word: &[u8], text: &[u8]) -> bool
    ensures { IsTrue result ↔ (word.now ≡ text.now) }
{
    word == text
}

/// Whether a line is one word. At most two words are looked at.
pub(crate) fn is_one_word(text: &[u8], word: &[u8]) -> bool
    ensures { IsTrue result ↔ IsWord text.now word.now }
{
    let mut words = Words::of(text);
    match words.next() {
        Some(first) => is_word(first, word) && words.next().is_none(),
        None => false,
    }
}

/// The frame that the first line names.
pub(crate) fn frame_of(text: &[u8]) -> Option<Frame>
    ensures some { IfSome result (IsFrameLine text.now) }
    ensures none { IfNone result ((frame : Top) → IsFrameLine text.now frame → ⊥) }
{
    let mut words = Words::of(text);
    if !is_word(words.next()?, b"cert") {
        return None;
    }
    let [v, k, t] = three_numbers(words)?;
    Cell::with_blocks(v, k, t).map(Frame::new)
}

/// The upload that a line begins, without blocks. It takes no memory.
pub(crate) fn upload_of(alloc: Global, frame: Frame, text: &[u8]) -> Option<CertUpload>
    ensures some { IfSome result (IsUploadLine frame text.now) }
    ensures none { IfNone result ((u : Upload) → IsUploadLine frame text.now u → ⊥) }
{
    let mut words = Words::of(text);
    if !is_word(words.next()?, b"upload") {
        return None;
    }
    let client = next_name(&mut words)?;
    let ordinal = next_number(&mut words)?;
    let cell = offered_cell(frame, words)?;
    if ordinal < 1 {
        return None;
    }
    Some(new_upload(alloc, client, ordinal, cell))
}

// The cell of the frame that the words name, where its blocks have points.
fn offered_cell(frame: Frame, words: Words) -> Option<Cell>
    ensures some { IfSome result (NamesOffered frame words.entry) }
    ensures none { IfNone result ((c : Triple) → NamesOffered frame words.entry c → ⊥) }
{
    let [v, k, t] = three_numbers(words)?;
    let cell = Cell::with_blocks(v, k, t)?;
    if !frame.has(cell) {
        return None;
    }
    Some(cell)
}

// An upload without blocks.
fn new_upload(alloc: Global, client: Name, ordinal: u64, cell: Cell) -> CertUpload
    requires first { 1 ≤ ordinal }
    requires short { ordinal < 10 ^ 18 }
    requires points { 1 ≤ cell.k }
    ensures { result ≡ record { client = client; ordinal = ordinal; cell = cell; blocks = [] } }
{
    CertUpload {
        client,
        ordinal,
        cell,
        blocks: CertBlocks::of(Vec::new(alloc)),
    }
}

/// The bound that a line states.
pub(crate) fn bound_of(text: &[u8]) -> Option<CertBound>
    ensures some { IfSome result (IsBoundLine text.now) }
    ensures none { (b : CertBound) → IsBoundLine text.now b → result ≡ Some b }
{
    let [v, k, t, bound, node] = five_numbers(Words::of(text))?;
    let cell = Cell::new(v, k, t).ok()?;
    Some(CertBound { cell, bound, node })
}
