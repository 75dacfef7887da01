ghost use Rattle.std.specs.Prelude.{◌≡◌, ℕ, List, [], ◌∷◌, ◌++◌, IfErr, IfNone, IfOk, IfSome, OnOk};
ghost use Rattle.std.specs.List.{AllZip};
ghost use Rattle.lj_base.specs.Cells.{Triple};
ghost use Rattle.lj_cert.specs.Faults.{IsBadOr};
ghost use Rattle.lj_cert.specs.LineForms.{AreFields, AreInducedFields, AreProductFields, HasList, IsChildField, IsHead};
ghost use Rattle.lj_cert.specs.LineForms.{IsNodeLine, IsPartField, IsRule, NamesUpload, rule_kind};
ghost use Rattle.lj_cert.specs.declared.certs.CertChild.{CertChild};
ghost use Rattle.lj_cert.specs.declared.certs.CertNode.{CertNode};
ghost use Rattle.lj_cert.specs.declared.certs.CertPart.{CertPart};
ghost use Rattle.lj_cert.specs.declared.certs.CertRule.{CertRule};

use crate::certs::{CertChild, CertNode, CertPart, CertRule};
use crate::faults::CertFault;
use crate::fields::{
    child_of, next_name, next_number, one_number, part_of, three_numbers, two_numbers,
};
use crate::kinds::{Kind, kind_of};
use crate::lists::{CertChildren, CertParts};
use lj_base::Cell;
use lj_text::Words;
use std::alloc::Global;

// What stands before a node's fields.
struct Head<'a> {
    word: &'a [u8],
    cell: Cell,
    cost: u64,
}

/// The node that a line states, which has to have this number.
pub(crate) fn read_node(
    alloc: Global,
    number: u64,
    text: &[u8],
    line: u64,
) -> Result<CertNode, CertFault>
    ensures ok { IfOk result (IsNodeLine number text.now) }
    ensures fault { IfErr result (IsBadOr line ((n : CertNode) → IsNodeLine number text.now n → ⊥)) }
{
    let mut words = Words::of(text);
    let Some(Head { word, cell, cost }) = read_head(number, &mut words) else {
        return Err(CertFault::BadLine { line });
    };
    let rule = read_rule(alloc, word, words, line)?;
    Ok(CertNode { cell, cost, rule })
}

// What stands before the fields of the node with this number.
fn read_head<'a>(number: u64, words: &mut Words<'a>) -> Option<Head<'a>>
    ensures some { IfSome result (λ head.
        IsHead number words.old head.word.now head.cell head.cost words.new) }
    ensures none { IfNone result ((word : List ℕ) (c : Triple) (cost : ℕ) (fields : List (List ℕ))
        → IsHead number words.old word c cost fields → ⊥) }
{
    let first = next_number(words)?;
    if first != number {
        return None;
    }
    let word = words.next()?;
    let v = next_number(words)?;
    let k = next_number(words)?;
    let t = next_number(words)?;
    let cost = next_number(words)?;
    let cell = Cell::new(v, k, t).ok()?;
    Some(Head { word, cell, cost })
}

// The rule of this word and these fields.
fn read_rule(alloc: Global, word: &[u8], words: Words, line: u64) -> Result<CertRule, CertFault>
    ensures ok { IfOk result (IsRule word.now words.entry) }
    ensures fault { IfErr result (IsBadOr line ((r : CertRule) → IsRule word.now words.entry r → ⊥)) }
{
    match kind_of(word) {
        Some(Kind::Product) => read_product(alloc, words, line),
        Some(Kind::Induced) => read_induced(alloc, words, line),
        Some(kind) => match plain_rule(kind, words) {
            Some(rule) => Ok(rule),
            None => Err(CertFault::BadLine { line }),
        },
        None => Err(CertFault::BadLine { line }),
    }
}

// A rule of a kind other than the two that have a list of fields.
fn plain_rule(kind: Kind, words: Words) -> Option<CertRule>
    ensures some { IfSome result (λ r. (rule_kind r ≡ kind) × AreFields words.entry r) }
    ensures none { IfNone result ((r : CertRule) → rule_kind r ≡ kind → AreFields words.entry r → HasList kind) }
{
    match kind {
        Kind::One => no_field(words, CertRule::One),
        Kind::Runs => no_field(words, CertRule::Runs),
        Kind::All => no_field(words, CertRule::All),
        Kind::Leaf => leaf(words),
        Kind::Derived => derived(words),
        Kind::Derived2 => derived2(words),
        Kind::Drop => Some(CertRule::Drop {
            child: one_number(words)?,
        }),
        Kind::Add => Some(CertRule::Add {
            child: one_number(words)?,
        }),
        Kind::Grow => Some(CertRule::Grow {
            child: one_number(words)?,
        }),
        Kind::Lower => Some(CertRule::Lower {
            child: one_number(words)?,
        }),
        Kind::Product | Kind::Induced => None,
    }
}

// The rule, where no field follows.
fn no_field(mut words: Words, rule: CertRule) -> Option<CertRule>
    ensures some { IfSome result (λ r. (r ≡ rule) × (words.entry ≡ [])) }
    ensures none { IfNone result (words.entry ≡ [] → ⊥) }
{
    match words.next() {
        Some(_) => None,
        None => Some(rule),
    }
}

fn leaf(mut words: Words) -> Option<CertRule>
    ensures some { IfSome result (λ r. (rule_kind r ≡ Kind.Leaf) × AreFields words.entry r) }
    ensures none { IfNone result ((client : List ℕ) (o : ℕ) → NamesUpload words.entry client (o ∷ []) → ⊥) }
{
    let client = next_name(&mut words)?;
    let ordinal = one_number(words)?;
    Some(CertRule::Leaf { client, ordinal })
}

fn derived(mut words: Words) -> Option<CertRule>
    ensures some { IfSome result (λ r. (rule_kind r ≡ Kind.Derived) × AreFields words.entry r) }
    ensures none { IfNone result ((client : List ℕ) (o x : ℕ) → NamesUpload words.entry client (o ∷ x ∷ []) → ⊥) }
{
    let client = next_name(&mut words)?;
    let [ordinal, point] = two_numbers(words)?;
    Some(CertRule::Derived {
        client,
        ordinal,
        point,
    })
}

fn derived2(mut words: Words) -> Option<CertRule>
    ensures some { IfSome result (λ r. (rule_kind r ≡ Kind.Derived2) × AreFields words.entry r) }
    ensures none { IfNone result ((client : List ℕ) (o x y : ℕ)
        → NamesUpload words.entry client (o ∷ x ∷ y ∷ []) → ⊥) }
{
    let client = next_name(&mut words)?;
    let [ordinal, first, second] = three_numbers(words)?;
    Some(CertRule::Derived2 {
        client,
        ordinal,
        first,
        second,
    })
}

// A product's first field is `v1`, and each other one a part, of which there are some.
fn read_product(alloc: Global, mut words: Words, line: u64) -> Result<CertRule, CertFault>
    ensures ok { IfOk result (λ r. (rule_kind r ≡ Kind.Product) × AreFields words.entry r) }
    ensures fault { IfErr result (IsBadOr line
        ((v1 : ℕ) (parts : List CertPart) → AreProductFields words.entry v1 parts → ⊥)) }
{
    let Some(v1) = next_number(&mut words) else {
        return Err(CertFault::BadLine { line });
    };
    let parts = read_parts(alloc, words, line)?;
    if parts.items().is_empty() {
        return Err(CertFault::BadLine { line });
    }
    Ok(CertRule::Product { v1, parts })
}

// An induced rule's first two fields name an upload, and each other one is a child.
fn read_induced(alloc: Global, mut words: Words, line: u64) -> Result<CertRule, CertFault>
    ensures ok { IfOk result (λ r. (rule_kind r ≡ Kind.Induced) × AreFields words.entry r) }
    ensures fault { IfErr result (IsBadOr line ((client : List ℕ) (o : ℕ) (children : List CertChild)
        → AreInducedFields words.entry client o children → ⊥)) }
{
    let Some(client) = next_name(&mut words) else {
        return Err(CertFault::BadLine { line });
    };
    let Some(ordinal) = next_number(&mut words) else {
        return Err(CertFault::BadLine { line });
    };
    let children = read_children(alloc, words, line)?;
    Ok(CertRule::Induced {
        client,
        ordinal,
        children,
    })
}

fn read_parts(alloc: Global, words: Words, line: u64) -> Result<CertParts, CertFault>
    ensures ok { IfOk result (AllZip IsPartField words.entry) }
    ensures fault { IfErr result (IsBadOr line ((ps : List CertPart) → AllZip IsPartField words.entry ps → ⊥)) }
{
    let mut parts = Vec::new(alloc);
    for word in words {
        push_part(&mut parts, word, line)?;
    }
    Ok(CertParts::of(parts))
}

// Adds the part of one field.
fn push_part(parts: &mut Vec<CertPart>, field: &[u8], line: u64) -> Result<(), CertFault>
    ensures ok { OnOk result
        ((p : CertPart) × IsPartField field.now p × (parts.new.items ≡ parts.old.items ++ p ∷ [])) }
    ensures fault { IfErr result (IsBadOr line ((p : CertPart) → IsPartField field.now p → ⊥)) }
{
    let Some(part) = part_of(field) else {
        return Err(CertFault::BadLine { line });
    };
    match parts.push(part) {
        Ok(()) => Ok(()),
        Err(_) => Err(CertFault::Memory),
    }
}

fn read_children(alloc: Global, words: Words, line: u64) -> Result<CertChildren, CertFault>
    ensures ok { IfOk result (AllZip IsChildField words.entry) }
    ensures fault { IfErr result (IsBadOr line ((cs : List CertChild) → AllZip IsChildField words.entry cs → ⊥)) }
{
    let mut children = Vec::new(alloc);
    for word in words {
        push_child(&mut children, word, line)?;
    }
    Ok(CertChildren::of(children))
}

// Adds the child of one field.
fn push_child(children: &mut Vec<CertChild>, field: &[u8], line: u64) -> Result<(), CertFault>
    ensures ok { OnOk result
        ((p : CertChild) × IsChildField field.now p × (children.new.items ≡ children.old.items ++ p ∷ [])) }
    ensures fault { IfErr result (IsBadOr line ((p : CertChild) → IsChildField field.now p → ⊥)) }
{
    let Some(child) = child_of(field) else {
        return Err(CertFault::BadLine { line });
    };
    match children.push(child) {
        Ok(()) => Ok(()),
        Err(_) => Err(CertFault::Memory),
    }
}
