ghost use Rattle.std.specs.Prelude.{◌≡◌, List, ◌≤◌, IfOk, length};
ghost use Rattle.std.specs.Option.{MatchOption};
ghost use Rattle.lj_cover.specs.Rules.{Upload};
ghost use Rattle.lj_deriv.specs.declared.limits.TheConstants.{MAX_ARENA_UPLOADS};
ghost use Rattle.lj_cert.specs.Places.{AreEntries, HasEntries, IsPlaceOf, name_cmp, name_of};
ghost use Rattle.lj_cert.specs.Unfolding.{IsNamed};

use lj_base::Memory;
use lj_upload::{Accepted, Name};
use std::alloc::Global;
use std::cmp::Ordering;

// An upload's name and ordinal, and its place from 0.
#[derive(Clone, Copy, Debug, Drop)]
pub(crate) struct Entry {
    pub client: Name,
    pub ordinal: u64,
    pub place: u32,
}

impl Entry {
    // How the entry's name and ordinal stand to others: by the names' bytes, and then by the ordinals.
    fn order(&self, client: &Name, ordinal: u64) -> Ordering
        ensures { result ≡ name_cmp (name_of self.now) (client.now, ordinal) }
    {
        self.client
            .bytes()
            .cmp(client.bytes())
            .then(self.ordinal.cmp(&ordinal))
    }
}

/// The entries of these uploads in order, so that they can be looked up.
pub(crate) fn entries_of(alloc: Global, uploads: &[Accepted]) -> Result<Vec<Entry>, Memory>
    requires { length uploads.now ≤ MAX_ARENA_UPLOADS }
    ensures { IfOk result (λ entries. AreEntries uploads.now entries.items) }
{
    let mut entries = listed(alloc, uploads)?;
    entries.sort_by(
        |a: &Entry, b: &Entry| -> Ordering
            ensures { result ≡ name_cmp (name_of a.now) (name_of b.now) }
        { a.order(&b.client, b.ordinal) },
    )?;
    Ok(entries)
}

// The entries in the uploads' order.
fn listed(alloc: Global, uploads: &[Accepted]) -> Result<Vec<Entry>, Memory>
    requires { length uploads.now ≤ MAX_ARENA_UPLOADS }
    ensures { IfOk result (λ entries. HasEntries uploads.now (length uploads.now) entries.items) }
{
    let mut entries = Vec::with_capacity(alloc, uploads.len())?;
    for i in 0..uploads.len() {
        let up = &uploads[i];
        entries.push(Entry {
            client: up.client(),
            ordinal: up.ordinal(),
            place: i as u32,
        })?;
    }
    Ok(entries)
}

/// The place of the upload with this name and ordinal.
pub(crate) fn place_of(entries: &[Entry], client: &Name, ordinal: u64) -> Option<u32>
    ensures { (uploads : List Upload) → AreEntries uploads entries.now
        → MatchOption result ((u : Upload) → IsNamed uploads client.now ordinal u → ⊥)
        (IsPlaceOf uploads client.now ordinal) }
{
    let found = entries.binary_search_by(
        |e: &Entry| -> Ordering
            ensures { result ≡ name_cmp (name_of e.now) (client.entry.now, ordinal) }
        { e.order(client, ordinal) },
    );
    match found {
        Ok(i) => Some(entries[i].place),
        Err(_) => None,
    }
}
