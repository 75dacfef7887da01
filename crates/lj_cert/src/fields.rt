ghost use Rattle.std.specs.Prelude.{◌≡◌, ℕ, ◌^◌, ◌<◌, List, [], ◌∷◌, IfNone, IfSome, None, Some};
ghost use Rattle.lj_text.specs.Numbers.{number_of};
ghost use Rattle.lj_upload.specs.Names.{IsName};
ghost use Rattle.lj_cert.specs.LineForms.{AreNumbers, BeginsWith, IsChildField, IsJoined, IsPartField};
ghost use Rattle.lj_cert.specs.declared.certs.CertChild.{CertChild};
ghost use Rattle.lj_cert.specs.declared.certs.CertPart.{CertPart};

use crate::certs::{CertChild, CertPart};
use lj_text::{Words, number};
use lj_upload::Name;
use memchr::memchr;

/// The number that the next word spells.
pub(crate) fn next_number(words: &mut Words) -> Option<u64>
    ensures some { IfSome result (λ n. (ns : List ℕ) → AreNumbers words.new ns → AreNumbers words.old (n ∷ ns)) }
    ensures none { (n : ℕ) (ns : List ℕ) → AreNumbers words.old (n ∷ ns) →
        (result ≡ Some n) × AreNumbers words.new ns }
    ensures small { IfSome result (λ n. n < 10 ^ 18) }
    ensures first { IfSome result (λ n. (w : List ℕ) × (words.old ≡ w ∷ words.new) × (number_of w ≡ Some n)) }
    ensures no_first { IfNone result ((w : List ℕ) (ws : List (List ℕ)) (n : ℕ) → words.old ≡ w ∷ ws →
        number_of w ≡ Some n → ⊥) }
{
    number(words.next()?).ok()
}

/// The name that the next word is.
pub(crate) fn next_name(words: &mut Words) -> Option<Name>
    ensures some { IfSome result (λ name. (words.old ≡ name ∷ words.new) × IsName name) }
    ensures none { IfNone result ((name : List ℕ) (ws : List (List ℕ)) → words.old ≡ name ∷ ws → IsName name → ⊥) }
{
    Name::of(words.next()?)
}

/// The number that the one word that is left spells.
pub(crate) fn one_number(mut words: Words) -> Option<u64>
    ensures some { IfSome result (λ n. AreNumbers words.entry (n ∷ [])) }
    ensures none { (n : ℕ) → AreNumbers words.entry (n ∷ []) → result ≡ Some n }
{
    let n = next_number(&mut words)?;
    match words.next() {
        Some(_) => None,
        None => Some(n),
    }
}

pub(crate) fn two_numbers(mut words: Words) -> Option<[u64; 2]>
    ensures some { IfSome result (AreNumbers words.entry) }
    ensures none { (a b : ℕ) → AreNumbers words.entry (a ∷ b ∷ []) → result ≡ Some (a ∷ b ∷ []) }
{
    let a = next_number(&mut words)?;
    let b = one_number(words)?;
    Some([a, b])
}

pub(crate) fn three_numbers(mut words: Words) -> Option<[u64; 3]>
    ensures some { IfSome result (AreNumbers words.entry) }
    ensures none { (a b c : ℕ) → AreNumbers words.entry (a ∷ b ∷ c ∷ []) → result ≡ Some (a ∷ b ∷ c ∷ []) }
{
    let a = next_number(&mut words)?;
    let [b, c] = two_numbers(words)?;
    Some([a, b, c])
}

pub(crate) fn four_numbers(mut words: Words) -> Option<[u64; 4]>
    ensures some { IfSome result (AreNumbers words.entry) }
    ensures none { (a b c d : ℕ) → AreNumbers words.entry (a ∷ b ∷ c ∷ d ∷ []) →
        result ≡ Some (a ∷ b ∷ c ∷ d ∷ []) }
{
    let a = next_number(&mut words)?;
    let [b, c, d] = three_numbers(words)?;
    Some([a, b, c, d])
}

pub(crate) fn five_numbers(mut words: Words) -> Option<[u64; 5]>
    ensures some { IfSome result (AreNumbers words.entry) }
    ensures none { (a b c d e : ℕ) → AreNumbers words.entry (a ∷ b ∷ c ∷ d ∷ e ∷ []) →
        result ≡ Some (a ∷ b ∷ c ∷ d ∷ e ∷ []) }
{
    let a = next_number(&mut words)?;
    let [b, c, d, e] = four_numbers(words)?;
    Some([a, b, c, d, e])
}

/// A part of a product, as a field has it.
pub(crate) fn part_of(field: &[u8]) -> Option<CertPart>
    ensures some { IfSome result (IsPartField field.now) }
    ensures none { IfNone result ((p : CertPart) → IsPartField field.now p → ⊥) }
{
    let (a, rest) = cut_number(field)?;
    let (b, l, first, second) = four_joined(rest)?;
    Some(CertPart {
        a,
        b,
        l,
        first,
        second,
    })
}

/// A size of cut with its node, as a field has them.
pub(crate) fn child_of(field: &[u8]) -> Option<CertChild>
    ensures some { IfSome result (IsChildField field.now) }
    ensures none { IfNone result ((c : CertChild) → IsChildField field.now c → ⊥) }
{
    let (l, child) = two_joined(field)?;
    Some(CertChild { l, child })
}

// The numbers of a field, with a colon between each two.
fn four_joined(field: &[u8]) -> Option<(u64, u64, u64, u64)>
    ensures some { IfSome result (λ r. IsJoined field.now (r.0 ∷ r.1 ∷ r.2 ∷ r.3 ∷ [])) }
    ensures none { IfNone result ((a b d e : ℕ) → IsJoined field.now (a ∷ b ∷ d ∷ e ∷ []) → ⊥) }
{
    let (a, rest) = cut_number(field)?;
    let (b, d, e) = three_joined(rest)?;
    Some((a, b, d, e))
}

fn three_joined(field: &[u8]) -> Option<(u64, u64, u64)>
    ensures some { IfSome result (λ r. IsJoined field.now (r.0 ∷ r.1 ∷ r.2 ∷ [])) }
    ensures none { IfNone result ((a b d : ℕ) → IsJoined field.now (a ∷ b ∷ d ∷ []) → ⊥) }
{
    let (a, rest) = cut_number(field)?;
    let (b, d) = two_joined(rest)?;
    Some((a, b, d))
}

fn two_joined(field: &[u8]) -> Option<(u64, u64)>
    ensures some { IfSome result (λ r. IsJoined field.now (r.0 ∷ r.1 ∷ [])) }
    ensures none { IfNone result ((a b : ℕ) → IsJoined field.now (a ∷ b ∷ []) → ⊥) }
{
    let (a, rest) = cut_number(field)?;
    let b = last_number(rest)?;
    Some((a, b))
}

// The number before the first colon, and what follows it.
fn cut_number(field: &[u8]) -> Option<(u64, &[u8])>
    ensures some { IfSome result (λ r. BeginsWith field.now r.0 r.1.now) }
    ensures none { IfNone result ((n : ℕ) (rest : List ℕ) → BeginsWith field.now n rest → ⊥) }
{
    let colon = memchr(b':', field)?;
    let n = number(&field[..colon]).ok()?;
    Some((n, &field[colon + 1..]))
}

// The number that a whole field spells.
fn last_number(field: &[u8]) -> Option<u64>
    ensures some { IfSome result (λ n. number_of field.now ≡ Some n) }
    ensures none { IfNone result ((n : ℕ) → number_of field.now ≡ Some n → ⊥) }
{
    number(field).ok()
}
