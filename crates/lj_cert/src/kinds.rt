ghost use Rattle.std.specs.Prelude.{◌≡◌, IfNone, IfSome};
ghost use Rattle.lj_cert.specs.LineForms.{IsBare, NamesNoNode, kind_word};
ghost use Rattle.lj_cert.specs.declared.kinds.Kind.{Kind};

use crate::forms::is_word;

// The rules, without what they name.
#[derive(Clone, Copy, Debug, PartialEq, Eq)]
pub(crate) enum Kind {
    One,
    Runs,
    All,
    Leaf,
    Derived,
    Derived2,
    Drop,
    Add,
    Grow,
    Lower,
    Product,
    Induced,
}

/// The kind of rule that a word names.
pub(crate) fn kind_of(word: &[u8]) -> Option<Kind>
    ensures some { IfSome result (λ kind. word.now ≡ kind_word kind) }
    ensures none { IfNone result ((kind : Kind) → word.now ≡ kind_word kind → ⊥) }
{
    if is_word(word, b"one") {
        Some(Kind::One)
    } else if is_word(word, b"runs") {
        Some(Kind::Runs)
    } else if is_word(word, b"all") {
        Some(Kind::All)
    } else {
        named_kind(word)
    }
}

// The kind of a rule that names an upload or nodes.
fn named_kind(word: &[u8]) -> Option<Kind>
    ensures some { IfSome result (λ kind. word.now ≡ kind_word kind) }
    ensures none { IfNone result ((kind : Kind) → word.now ≡ kind_word kind → IsBare kind) }
{
    if is_word(word, b"leaf") {
        Some(Kind::Leaf)
    } else if is_word(word, b"derived") {
        Some(Kind::Derived)
    } else if is_word(word, b"derived2") {
        Some(Kind::Derived2)
    } else if is_word(word, b"induced") {
        Some(Kind::Induced)
    } else {
        node_kind(word)
    }
}

// The kind of a rule that names nodes alone.
fn node_kind(word: &[u8]) -> Option<Kind>
    ensures some { IfSome result (λ kind. word.now ≡ kind_word kind) }
    ensures none { IfNone result ((kind : Kind) → word.now ≡ kind_word kind → NamesNoNode kind) }
{
    if is_word(word, b"drop") {
        Some(Kind::Drop)
    } else if is_word(word, b"add") {
        Some(Kind::Add)
    } else if is_word(word, b"grow") {
        Some(Kind::Grow)
    } else if is_word(word, b"lower") {
        Some(Kind::Lower)
    } else if is_word(word, b"product") {
        Some(Kind::Product)
    } else {
        None
    }
}
