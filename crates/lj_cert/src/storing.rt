ghost use Rattle.std.specs.Prelude.{◌≡◌, ◌+◌, ◌<◌, ◌≤◌, ◌↔◌, IsTrue, List, length, take};
ghost use Rattle.std.specs.List.{AllByRecursion, AllZip};
ghost use Rattle.std.specs.Option.{MatchOption};
ghost use Rattle.lj_base.specs.Blocks.{Ascends};
ghost use Rattle.lj_base.specs.Cells.{Triple};
ghost use Rattle.lj_cover.specs.Rules.{Upload};
ghost use Rattle.lj_cert.specs.Places.{AreEntries};
ghost use Rattle.lj_cert.specs.Storing.{IsNoUse, IsPlainPart, IsStored, IsStoredChild, IsStoredPart, child_sizes};
ghost use Rattle.lj_cert.specs.Values.{AreDistinct};
ghost use Rattle.lj_cert.specs.declared.certs.CertRule.TheVariants.{Leaf, Derived, Derived2, Product, Induced};

use crate::certs::{CertChild, CertPart, CertRule};
use crate::places::{Entry, place_of};
use lj_base::Cell;
use lj_cover::laws::sizes_of_cuts;
use lj_deriv::{Part, Rule, cut_sizes};
use lj_upload::{Accepted, Name};

/// The rule of a node's line over these uploads, with nodes numbered from 0. `None` where no rule may be used so,
/// whatever stands before it. Whether the rule may be used is not tried otherwise.
pub(crate) fn stored_rule(
    uploads: &[Accepted],
    places: &[Entry],
    cell: Cell,
    rule: &CertRule,
) -> Option<Rule>
    requires places { AreEntries uploads.now places.now }
    requires distinct { AreDistinct uploads.now }
    ensures { MatchOption result (IsNoUse uploads.now cell rule.now) (IsStored uploads.now cell rule.now) }
{
    match rule {
        CertRule::One => Some(Rule::One { cell }),
        CertRule::Runs => Some(Rule::Runs { cell }),
        CertRule::All => Some(Rule::All { cell }),
        CertRule::Leaf { client, ordinal } => leaf_rule(places, client, *ordinal),
        CertRule::Derived {
            client,
            ordinal,
            point,
        } => derived_rule(places, client, *ordinal, *point),
        CertRule::Derived2 {
            client,
            ordinal,
            first,
            second,
        } => derived2_rule(places, client, *ordinal, *first, *second),
        CertRule::Drop { child } => Some(Rule::Drop {
            child: child.checked_sub(1)?,
        }),
        CertRule::Add { child } => Some(Rule::Add {
            child: child.checked_sub(1)?,
        }),
        CertRule::Grow { child } => Some(Rule::Grow {
            child: child.checked_sub(1)?,
        }),
        CertRule::Lower { child } => Some(Rule::Lower {
            child: child.checked_sub(1)?,
        }),
        CertRule::Product { v1, parts } => product_rule(cell, *v1, parts.items()),
        CertRule::Induced {
            client,
            ordinal,
            children,
        } => induced_rule(uploads, places, cell, client, *ordinal, children.items()),
    }
}

fn leaf_rule(places: &[Entry], client: &Name, ordinal: u64) -> Option<Rule>
    ensures { (uploads : List Upload) (c : Triple) → AreEntries uploads places.now
        → MatchOption result (IsNoUse uploads c (Leaf client.now ordinal))
        (IsStored uploads c (Leaf client.now ordinal)) }
{
    let upload = place_of(places, client, ordinal)?;
    Some(Rule::Leaf { upload })
}

fn derived_rule(places: &[Entry], client: &Name, ordinal: u64, point: u64) -> Option<Rule>
    ensures { (uploads : List Upload) (c : Triple) → AreEntries uploads places.now
        → MatchOption result (IsNoUse uploads c (Derived client.now ordinal point))
        (IsStored uploads c (Derived client.now ordinal point)) }
{
    let upload = place_of(places, client, ordinal)?;
    let point = point_of(point)?;
    Some(Rule::Derived { upload, point })
}

fn derived2_rule(
    places: &[Entry],
    client: &Name,
    ordinal: u64,
    first: u64,
    second: u64,
) -> Option<Rule>
    ensures { (uploads : List Upload) (c : Triple) → AreEntries uploads places.now
        → MatchOption result (IsNoUse uploads c (Derived2 client.now ordinal first second))
        (IsStored uploads c (Derived2 client.now ordinal first second)) }
{
    let upload = place_of(places, client, ordinal)?;
    let first = point_of(first)?;
    let second = point_of(second)?;
    Some(Rule::Derived2 {
        upload,
        first,
        second,
    })
}

// The point with this number from 1, numbered from 0: no cell has more than 99.
fn point_of(number: u64) -> Option<u8>
    ensures { MatchOption result (1 ≤ number → 99 < number) (λ point. point + 1 ≡ number) }
{
    let point = number.checked_sub(1)?;
    if point > 99 {
        return None;
    }
    Some(point as u8)
}

const NO_PART: Part = Part {
    a: 0,
    b: 0,
    l: 0,
    first: 0,
    second: 0,
};

// At most nine parts have a meaning: each serves some number of points of a set, which is at most 8.
fn product_rule(cell: Cell, v1: u64, parts: &[CertPart]) -> Option<Rule>
    ensures { (uploads : List Upload) → MatchOption result (IsNoUse uploads cell (Product v1 parts.now))
        (IsStored uploads cell (Product v1 parts.now)) }
{
    if parts.len() > 9 {
        return None;
    }
    Some(Rule::Product {
        cell,
        v1: small(v1)?,
        parts: stored_parts(parts)?,
        count: parts.len() as u8,
    })
}

fn stored_parts(parts: &[CertPart]) -> Option<[Part; 9]>
    requires { length parts.now ≤ 9 }
    ensures { MatchOption result (AllByRecursion IsPlainPart parts.now → ⊥)
        (λ stored. AllZip IsStoredPart parts.now (take (length parts.now) stored)) }
{
    let mut stored = [NO_PART; 9];
    for i in 0..parts.len() {
        stored[i] = stored_part(&parts[i])?;
    }
    Some(stored)
}

fn stored_part(part: &CertPart) -> Option<Part>
    ensures { MatchOption result (IsPlainPart part.now → ⊥) (IsStoredPart part.now) }
{
    Some(Part {
        a: small(part.a)?,
        b: small(part.b)?,
        l: small(part.l)?,
        first: part.first.checked_sub(1)?,
        second: part.second.checked_sub(1)?,
    })
}

// A number of points: no cell has more than 99.
fn small(n: u64) -> Option<u8>
    ensures { MatchOption result (99 < n) (λ m. m ≡ n) }
{
    if n > 99 {
        return None;
    }
    Some(n as u8)
}

fn induced_rule(
    uploads: &[Accepted],
    places: &[Entry],
    cell: Cell,
    client: &Name,
    ordinal: u64,
    children: &[CertChild],
) -> Option<Rule>
    requires places { AreEntries uploads.now places.now }
    requires distinct { AreDistinct uploads.now }
    ensures { MatchOption result (IsNoUse uploads.now cell (Induced client.now ordinal children.now))
        (IsStored uploads.now cell (Induced client.now ordinal children.now)) }
{
    sizes_of_cuts();
    let upload = place_of(places, client, ordinal)?;
    let up = &uploads[upload as usize];
    if cell.v > up.design().cell().v || !have_sizes(children, cut_sizes(up, cell).as_slice()) {
        return None;
    }
    Some(Rule::Induced {
        cell,
        upload,
        children: stored_children(children)?,
    })
}

// The children are those for these sizes, in their order.
fn have_sizes(children: &[CertChild], sizes: &[u64]) -> bool
    ensures { IsTrue result ↔ (child_sizes children.now ≡ sizes.now) }
{
    if children.len() != sizes.len() {
        return false;
    }
    for (i, child) in children.iter().enumerate() {
        if child.l != sizes[i] {
            return false;
        }
    }
    true
}

fn stored_children(children: &[CertChild]) -> Option<[u64; 26]>
    requires { Ascends 0 26 (child_sizes children.now) }
    ensures { MatchOption result (AllByRecursion (λ c. 1 ≤ c.child) children.now → ⊥)
        (λ stored. AllByRecursion (IsStoredChild stored) children.now) }
{
    let mut stored = [0; 26];
    for child in children {
        stored[child.l as usize] = child.child.checked_sub(1)?;
    }
    Some(stored)
}
