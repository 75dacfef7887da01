ghost use Rattle.std.specs.Prelude.{◌≡◌, ◌⊎◌, ◌<◌, ◌≤◌, ◌↔◌, ◌∷◌, [], ◌++◌, IfErr, IfOk, IsTrue, MatchResult, OnOk};
ghost use Rattle.std.specs.Prelude.{length, map};
ghost use Rattle.std.specs.Bool.{OnFalse, OnTrue};
ghost use Rattle.std.specs.List.{AllByRecursion};
ghost use Rattle.lj_base.specs.Cells.{IsCell};
ghost use Rattle.lj_base.specs.Frames.{InFrame};
ghost use Rattle.lj_cover.specs.Derivations.{Tree};
ghost use Rattle.lj_deriv.specs.Nodes.{trees_of};
ghost use Rattle.lj_deriv.specs.declared.limits.TheConstants.{MAX_ARENA_UPLOADS};
ghost use Rattle.lj_verify.specs.declared.limits.TheConstants.{MAX_WORKERS};
ghost use Rattle.lj_cert.specs.Good.{IsChecked, IsGood, IsMet, bounds_of};
ghost use Rattle.lj_cert.specs.Holding.{Holds, IsBoundsNo, IsHeld, IsNodesNo, IsUploadNo, IsUploadsNo};
ghost use Rattle.lj_cert.specs.Places.{AreEntries};
ghost use Rattle.lj_cert.specs.Refusals.{IsNo};
ghost use Rattle.lj_cert.specs.Unfolding.{Unfold, UnfoldsTo};
ghost use Rattle.lj_cert.specs.Values.{AreDistinct, IsFormed};
ghost use Rattle.lj_cert.specs.declared.limits.TheConstants.{MAX_CERT_UPLOADS};
ghost use Rattle.lj_cert.specs.declared.refusals.No.{No};

use crate::certs::{Cert, CertBound, CertNode, CertUpload};
use crate::laws::{good_certificates_are_least, refusals_law};
use crate::lowest::{LowCell, first_low};
use crate::places::{Entry, entries_of};
use crate::refusals::No;
use crate::rests::Rest;
use crate::storing::stored_rule;
use lj_base::{Cell, Frame, Memory, binom, cells_law, index_law};
use lj_deriv::Arena;
use lj_deriv::laws::trees_law;
use lj_upload::Accepted;
use lj_verify::{MAX_WORKERS, Refusal, check};
use std::alloc::Global;
use std::thread::Threads;

/// Whether a certificate is good: its uploads cover, its nodes are derivations in its frame and from its uploads, each
/// bound is the cost of its node, and no rule costs less at a cell than its bound. The parts are tried in this order.
/// The cells of the last are shared out among the workers, as are the blocks of an upload with many sets; the result
/// does not depend on how many they are.
pub fn audit<R: Threads + Sync>(rt: &R, alloc: Global, cert: Cert, workers: u64) -> Result<Rest, No>
    requires some_workers { 1 ≤ workers }
    requires few_workers { workers ≤ MAX_WORKERS }
    ensures good { IfOk result (λ _. IsGood cert) }
    ensures rest { IfOk result (λ rest. rest
        ≡ record { frame = cert.frame; uploads = cert.uploads; bounds = bounds_of cert }) }
    ensures refused { IfErr result (λ no. (no ≡ No.Memory) ⊎ IsNo cert no) }

    // A good certificate is not refused, and one that is not good is refused for the reason that it has, unless memory
    // runs out.
    ensures complete { IsGood cert → IfErr result (λ no. no ≡ No.Memory) }
    ensures exact { (no : No) → IsNo cert no
        → MatchResult result (λ _. ⊥) (λ found. (found ≡ no) ⊎ (found ≡ No.Memory)) }
{
    refusals_law();
    tried(rt, alloc, cert, workers)
}

// Tries the four parts in order.
fn tried<R: Threads + Sync>(rt: &R, alloc: Global, cert: Cert, workers: u64) -> Result<Rest, No>
    requires some_workers { 1 ≤ workers }
    requires few_workers { workers ≤ MAX_WORKERS }
    ensures good { IfOk result (λ _. IsGood cert) }
    ensures rest { IfOk result (λ rest. rest
        ≡ record { frame = cert.frame; uploads = cert.uploads; bounds = bounds_of cert }) }
    ensures refused { IfErr result (λ no. (no ≡ No.Memory) ⊎ IsNo cert no) }
    ensures distinct { AreDistinct cert.uploads }
{
    good_certificates_are_least();
    cells_law();
    index_law();
    let (arena, numbers) = hold(rt, alloc, cert, workers)?;
    match first_low(rt, alloc, &arena, &numbers, workers) {
        Ok(None) => Ok(Rest::of(arena, numbers)),
        Ok(Some(LowCell { cell, cost, .. })) => Err(No::Low { cell, cost }),
        Err(Memory) => Err(No::Memory),
    }
}

// Tries the uploads, the nodes and the bounds: an arena that holds the uploads and the nodes, and the bounds' numbers.
// The nodes' lines are freed before the bounds are tried.
fn hold<R: Threads + Sync>(
    rt: &R,
    alloc: Global,
    cert: Cert,
    workers: u64,
) -> Result<(Arena, Vec<u64>), No>
    requires some_workers { 1 ≤ workers }
    requires few_workers { workers ≤ MAX_WORKERS }
    ensures held { IfOk result (λ made. IsHeld cert made.0 made.1.items) }
    ensures refused { IfErr result (λ no. (no ≡ No.Memory) ⊎ IsNo cert no) }
    ensures formed { IsFormed cert.frame cert.uploads cert.bounds }
    ensures limits { IsCell cert.frame.top }
{
    let Cert {
        frame,
        uploads,
        nodes,
        bounds,
    } = cert;
    top_law(frame);
    let mut arena = hold_uploads(rt, alloc, frame, uploads.into_vec(), workers)?;
    hold_nodes(alloc, &mut arena, nodes.items())?;
    drop(nodes);
    let numbers = met_bounds(alloc, &arena, bounds.items())?;
    Ok((arena, numbers))
}

// The greatest numbers of a frame are those of a cell.
fn top_law(frame: Frame)
    ensures { IsCell frame.top }
{
    let _ = frame.top.v;
}

// Checks the uploads in order; an arena that holds them.
fn hold_uploads<R: Threads + Sync>(
    rt: &R,
    alloc: Global,
    frame: Frame,
    uploads: Vec<CertUpload>,
    workers: u64,
) -> Result<Arena, No>
    requires inside { AllByRecursion (λ u. InFrame frame u.cell) uploads.items }
    requires few { length uploads.items ≤ MAX_CERT_UPLOADS }
    requires some_workers { 1 ≤ workers }
    requires few_workers { workers ≤ MAX_WORKERS }
    ensures arena { IfOk result (λ a. a
        ≡ record { frame = frame; uploads = uploads.items; rules = []; spare = 0 }) }
    ensures checked { IfOk result (λ _. AllByRecursion IsChecked uploads.items) }
    ensures refused { IfErr result (IsUploadsNo uploads.items) }
{
    let mut arena = Arena::new(alloc, frame);
    let mut place = 0;
    for upload in uploads {
        hold_upload(rt, alloc, &mut arena, upload, workers, place)?;
        place += 1;
    }
    Ok(arena)
}

// Checks an upload, and holds it.
fn hold_upload<R: Threads + Sync>(
    rt: &R,
    alloc: Global,
    arena: &mut Arena,
    upload: CertUpload,
    workers: u64,
    place: u64,
) -> Result<(), No>
    requires inside { InFrame arena.old.frame upload.cell }
    requires few { length arena.old.uploads < MAX_ARENA_UPLOADS }
    requires some_workers { 1 ≤ workers }
    requires few_workers { workers ≤ MAX_WORKERS }
    ensures held { OnOk result (arena.new ≡ record arena.old { uploads = arena.old.uploads ++ upload ∷ [] }) }
    ensures checked { IfOk result (λ _. IsChecked upload) }
    ensures refused { IfErr result (IsUploadNo place upload) }
{
    let CertUpload {
        client,
        ordinal,
        cell,
        blocks,
    } = upload;
    let blocks = blocks.into_vec();
    let design = match check(rt, alloc, cell, blocks, workers) {
        Ok(design) => design,
        Err(Refusal::Memory) => return Err(No::Memory),
        Err(refusal) => return Err(No::Upload { place, refusal }),
    };
    let Ok(accepted) = Accepted::new(alloc, client, ordinal, design) else {
        return Err(No::Memory);
    };
    match arena.push_upload(accepted) {
        Ok(_) => Ok(()),
        Err(_) => Err(No::Memory),
    }
}

// Adds the nodes in order, each where its line is a derivation.
fn hold_nodes(alloc: Global, arena: &mut Arena, nodes: &[CertNode]) -> Result<(), No>
    requires distinct { AreDistinct arena.old.uploads }
    requires empty { arena.old.rules ≡ [] }
    ensures frame { OnOk result (arena.new.frame ≡ arena.old.frame) }
    ensures uploads { OnOk result (arena.new.uploads ≡ arena.old.uploads) }
    ensures unfold { OnOk result (Unfold arena.old.frame arena.old.uploads [] nodes.now
        (trees_of arena.new.uploads arena.new.rules)) }
    ensures refused { IfErr result (IsNodesNo arena.old.frame arena.old.uploads nodes.now) }
{
    trees_law();
    let count = nodes.len();
    let Ok(places) = entries_of(alloc, arena.uploads()) else {
        return Err(No::Memory);
    };
    if arena.reserve(count as u64).is_err() {
        return Err(No::Memory);
    }
    for i in 0..count {
        if !hold_node(arena, &places, &nodes[i]) {
            return Err(No::Node {
                number: i as u64 + 1,
            });
        }
    }
    Ok(())
}

// Adds a node, where its line is a derivation, of the cell and cost that it states.
fn hold_node(arena: &mut Arena, places: &[Entry], node: &CertNode) -> bool
    requires places { AreEntries arena.old.uploads places.now }
    requires distinct { AreDistinct arena.old.uploads }
    requires room { 1 ≤ arena.old.spare }
    ensures held { OnTrue result (Holds arena.old arena.new node.now) }
    ensures loose { OnFalse result ((d : Tree) → UnfoldsTo arena.old.frame arena.old.uploads
        (trees_of arena.old.uploads arena.old.rules) node.now d → ⊥) }
{
    trees_law();
    let Some(rule) = stored_rule(arena.uploads(), places, node.cell, &node.rule) else {
        return false;
    };
    if !arena.admits(&rule) {
        return false;
    }
    let number = arena.add(rule);
    arena.cell(number) == node.cell && arena.cost(number) == node.cost
}

// The bounds, where each is met by its node.
fn met_bounds(alloc: Global, arena: &Arena, bounds: &[CertBound]) -> Result<Vec<u64>, No>
    ensures numbers { IfOk result (λ numbers. numbers.items ≡ map (λ b. b.bound) bounds.now) }
    ensures met { IfOk result (λ _. AllByRecursion (IsMet (trees_of arena.now.uploads arena.now.rules)) bounds.now) }
    ensures some { IfOk result (λ numbers. AllByRecursion (λ n. 1 ≤ n) numbers.items) }
    ensures refused { IfErr result (IsBoundsNo (trees_of arena.now.uploads arena.now.rules) bounds.now) }
{
    let Ok(mut numbers) = Vec::with_capacity(alloc, bounds.len()) else {
        return Err(No::Memory);
    };
    for bound in bounds {
        if !is_met(arena, bound) {
            return Err(No::Bound { cell: bound.cell });
        }
        if numbers.push(bound.bound).is_err() {
            return Err(No::Memory);
        }
    }
    Ok(numbers)
}

// The bound's node is there, of its cell and of this cost, which is at most the number of sets.
fn is_met(arena: &Arena, bound: &CertBound) -> bool
    ensures met { IsTrue result ↔ IsMet (trees_of arena.now.uploads arena.now.rules) bound.now }
    ensures some { IsTrue result → 1 ≤ bound.now.bound }
{
    trees_law();
    if bound.node < 1 || bound.node > arena.len() {
        return false;
    }
    let node = bound.node - 1;
    let cell = bound.cell;
    arena.cell(node) == cell
        && arena.cost(node) == bound.bound
        && bound.bound <= binom(u64::from(cell.v), u64::from(cell.t))
}
