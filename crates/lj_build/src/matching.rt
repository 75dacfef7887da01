ghost use Rattle.std.specs.Prelude.{◌≡◌, ◌↔◌, ◌<◌, ◌≤◌, All, IfOk, IsPermutation, IsTrue, MatchOption, length};
ghost use Rattle.std.specs.Prelude.{slice_index};
ghost use Rattle.std.specs.List.{range_with_len};
ghost use Rattle.lj_deriv.specs.Nodes.{upload_at};
ghost use Rattle.lj_build.specs.Matching.{IsAt, LacksIn, TakesOutAll};
ghost use Rattle.lj_build.specs.Runs.{uploads_of};

use lj_base::Memory;
use lj_session::SessionEnd;
use lj_upload::Accepted;
use std::alloc::Global;

// Whether these uploads are those of the ends, each as often, in whatever order. The places of the uploads that are not
// matched yet are kept in a list. The search for an upload begins where the one before it stood: a table has the
// uploads of one client in their order, with those of others among them, so that all places are gone through about
// once for each end.
pub(crate) fn are_same(
    alloc: Global,
    held: &[Accepted],
    ends: &[SessionEnd],
) -> Result<bool, Memory>
    ensures { IfOk result (λ same. IsTrue same ↔ IsPermutation held.now (uploads_of ends.now)) }
{
    let mut places = all_places(alloc, held.len())?;
    for end in ends {
        if !take_out_all(held, &mut places, end.accepted.items()) {
            return Ok(false);
        }
    }
    Ok(places.is_empty())
}

// The numbers below n.
fn all_places(alloc: Global, n: usize) -> Result<Vec<usize>, Memory>
    ensures { IfOk result (λ places. places.items ≡ range_with_len 0 n) }
{
    let mut places = Vec::with_capacity(alloc, n)?;
    for i in 0..n {
        places.push(i)?;
    }
    Ok(places)
}

// Takes out a place of each of the uploads, one after the other, up to one that is at none of the places left.
fn take_out_all(held: &[Accepted], places: &mut Vec<usize>, uploads: &[Accepted]) -> bool
    requires { All (λ i. i < length held.now) places.old.items }
    ensures places { All (λ i. i < length held.now) places.new.items }
    ensures takes { TakesOutAll held.now places.old.items places.new.items uploads.now result }
{
    let mut from = 0;
    for up in uploads {
        match place_of(held, places, from, up) {
            Some(j) => {
                places.remove(j);
                from = j;
            }
            None => return false,
        }
    }
    true
}

// Where a place of the upload stands among the places: the first from `from` on, or else the first before it.
fn place_of(held: &[Accepted], places: &[usize], from: usize, up: &Accepted) -> Option<usize>
    requires places { All (λ i. i < length held.now) places.now }
    requires from { from ≤ length places.now }
    ensures { MatchOption result (LacksIn held.now places.now 0 (length places.now) up.now)
        (λ j. (j < length places.now) × IsAt held.now places.now j up.now) }
{
    match place_between(held, places, from, places.len(), up) {
        Some(j) => Some(j),
        None => place_between(held, places, 0, from, up),
    }
}

fn place_between(
    held: &[Accepted],
    places: &[usize],
    from: usize,
    until: usize,
    up: &Accepted,
) -> Option<usize>
    requires places { All (λ i. i < length held.now) places.now }
    requires until { until ≤ length places.now }
    ensures { MatchOption result (LacksIn held.now places.now from until up.now)
        (λ j. (j < length places.now) × IsAt held.now places.now j up.now) }
{
    for j in from..until {
        if upload_at(held, places, j).same(up) {
            return Some(j);
        }
    }
    None
}

// The upload at the j-th of the places.
fn upload_at<'a>(held: &'a [Accepted], places: &[usize], j: usize) -> &'a Accepted
    requires places { All (λ i. i < length held.now) places.now }
    requires within { j < length places.now }
    ensures { result.now ≡ upload_at held.now (slice_index places.now j) }
{
    &held[places[j]]
}
