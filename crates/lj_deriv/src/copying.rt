ghost use Rattle.std.specs.Prelude.{◌≡◌, ℕ, ◌+◌, ◌<◌, ◌≤◌, ◌⊎◌, ◌↔◌, true, false, [], ◌∷◌, length, map};
ghost use Rattle.std.specs.Prelude.{IfOk, OnOk, slice_index, slice_index_or};
ghost use Rattle.std.specs.List.{AllByRecursion, Contains};
ghost use Rattle.lj_base.specs.Blocks.{Ascends};
ghost use Rattle.lj_deriv.specs.Copies.{AreAscending, AreNamedBy, HasUploads, IsClosed, IsCopyOf, IsCopying};
ghost use Rattle.lj_deriv.specs.Copies.{IsMarked, IsMarkedFrom, IsNamedAmong, IsNextCopy, IsReach};
ghost use Rattle.lj_deriv.specs.Copies.{node_children, node_uploads, place_in};
ghost use Rattle.lj_deriv.specs.Forests.{IsForestOf};
ghost use Rattle.lj_deriv.specs.Nodes.{steps_of};
ghost use Rattle.lj_deriv.specs.Plans.{IsPlanOf, IsWhole};
ghost use Rattle.lj_deriv.specs.Trees.{uploads_of};

use crate::arena::Arena;
use crate::forests::Forest;
use crate::limits::MAX_NODES;
use crate::renumbering::{place_in, renumbered};
use crate::rules::Rule;
use lj_base::Memory;
use lj_cover::laws::sizes_of_cuts;
use lj_upload::Accepted;
use std::alloc::Global;

// A copy in the making: what is copied, and the new number of each upload.
#[derive(Drop)]
struct Copying {
    plan: Arena,
    uploads: Vec<u32>,
}

/// Copies the nodes that the root reaches, in order, and the uploads that they name, in order. Besides these it takes
/// memory for one mark for each node up to the root, and for two marks and a number for each upload. A child's new
/// number is found by halving. An upload is copied without its table of counts where no induced node names it.
pub fn copy_reached(arena: &Arena, alloc: Global, root: u64) -> Result<Arena, Memory>
    requires there { root < length arena.now.rules }
    requires few { length arena.now.rules ≤ MAX_NODES }
    ensures plan { IfOk result (λ p. IsPlanOf arena.now root (steps_of p)) }
    ensures whole { IfOk result (λ p. IsWhole (steps_of p)) }
{
    let numbers = reached(arena, alloc, &[root], root + 1)?;
    copied(arena, alloc, &numbers)
}

/// Copies the nodes that the roots reach, in order, and the uploads that they name, in order, and finds the roots among
/// them. Besides these it takes memory for one mark for each node, and for two marks and a number for each upload.
pub fn copy_roots(arena: &Arena, alloc: Global, roots: &[u64]) -> Result<Forest, Memory>
    requires there { AllByRecursion (λ i. i < length arena.now.rules) roots.now }
    requires few { length arena.now.rules ≤ MAX_NODES }
    ensures { IfOk result (IsForestOf arena.now roots.now) }
{
    let numbers = reached(arena, alloc, roots, arena.len())?;
    let nodes = copied(arena, alloc, &numbers)?;
    let places = places_of(alloc, &numbers, roots)?;
    Ok(Forest::of(nodes, places))
}

// The place of each root among the numbers.
fn places_of(alloc: Global, numbers: &[u64], roots: &[u64]) -> Result<Vec<u64>, Memory>
    requires { AreAscending numbers.now }
    ensures { IfOk result (λ v. v.items ≡ map (place_in numbers.now) roots.now) }
{
    let mut places = Vec::new(alloc);
    for root in roots {
        places.push(place_in(numbers, *root))?;
    }
    Ok(places)
}

// Copies these nodes, and the uploads that they name.
fn copied(arena: &Arena, alloc: Global, numbers: &[u64]) -> Result<Arena, Memory>
    requires { IsClosed arena.now numbers.now }
    ensures { IfOk result (λ p. IsCopyOf arena.now numbers.now p) }
{
    let named = uploads_named(arena, alloc, numbers)?;
    let counted = uploads_counted(arena, alloc, numbers)?;
    let mut copying = copied_uploads(arena, alloc, &named, &counted)?;
    copying.plan.reserve(numbers.len() as u64)?;
    for _node in 0..numbers.len() {
        copying.push_next(arena, numbers, &named);
    }
    let count = copying.plan.len();
    prove_eq!(count, numbers.len() as u64);
    let Copying { plan, .. } = copying;
    Ok(plan)
}

// Copies these uploads, in order, with their counts where that is marked.
fn copied_uploads(
    arena: &Arena,
    alloc: Global,
    named: &[u64],
    counted: &[bool],
) -> Result<Copying, Memory>
    requires named { Ascends 0 (length arena.now.uploads) named.now }
    requires marks { length counted.now ≡ length arena.now.uploads }
    ensures uploads { IfOk result (λ c. HasUploads arena.now named.now c.uploads.items c.plan) }
    ensures all { IfOk result (λ c. length c.plan.uploads ≡ length named.now) }
    ensures no_nodes { IfOk result (λ c. c.plan.rules ≡ []) }
{
    let mut copying = Copying {
        plan: Arena::new(alloc, arena.frame()),
        uploads: vec![in alloc; 0; arena.uploads().len()]?,
    };
    for u in named {
        let is_counted = counted[*u as usize];
        copying.push_upload(arena, alloc, *u, named, is_counted)?;
    }
    Ok(copying)
}

impl Copying {
    // Copies the first of these uploads that is not copied, and keeps its place.
    fn push_upload(
        &mut self,
        arena: &Arena,
        alloc: Global,
        u: u64,
        named: &[u64],
        is_counted: bool,
    ) -> Result<(), Memory>
        requires ascends { Ascends 0 (length arena.now.uploads) named.now }
        requires more { length self.old.plan.uploads < length named.now }
        requires there { u < length arena.now.uploads }
        requires next { u ≡ slice_index named.now (length self.old.plan.uploads) }
        requires uploads { HasUploads arena.now named.now self.old.uploads.items self.old.plan }
        ensures uploads { OnOk result (HasUploads arena.now named.now self.new.uploads.items self.new.plan) }
        ensures len { OnOk result (length self.new.plan.uploads ≡ length self.old.plan.uploads + 1) }
        ensures rules { OnOk result (self.new.plan.rules ≡ self.old.plan.rules) }
    {
        let held = arena.uploads();
        let copy = copy_of(&held[u as usize], alloc, is_counted)?;
        self.uploads[u as usize] = self.plan.push_upload(copy)?;
        Ok(())
    }

    // Copies the first of these nodes that is not copied.
    fn push_next(&mut self, arena: &Arena, numbers: &[u64], named: &[u64])
        requires more { length self.old.plan.rules < length numbers.now }
        requires copying { IsCopying arena.now numbers.now named.now self.old.plan self.old.uploads.items }
        ensures copying { IsCopying arena.now numbers.now named.now self.new.plan self.new.uploads.items }
        ensures len { length self.new.plan.rules ≡ length self.old.plan.rules + 1 }
    {
        let node = numbers[self.plan.len() as usize];
        let copy = self.next_copy(arena, node, numbers, named);
        self.plan.add(copy);
    }

    // The node under its new numbers.
    fn next_copy(&self, arena: &Arena, node: u64, numbers: &[u64], named: &[u64]) -> Rule
        requires there { node < length arena.now.rules }
        requires more { length self.now.plan.rules < length numbers.now }
        requires next { node ≡ slice_index numbers.now (length self.now.plan.rules) }
        requires copying { IsCopying arena.now numbers.now named.now self.now.plan self.now.uploads.items }
        ensures { IsNextCopy arena.now self.now.plan numbers.now named.now node result }
    {
        sizes_of_cuts();
        let rule = arena.rule(node);
        let upload = self.place_of_upload(rule);
        renumbered(rule, numbers, upload)
    }

    // The place of the copy of the upload that the rule names, and 0 where it names none.
    fn place_of_upload(&self, rule: &Rule) -> u32
        requires { AllByRecursion (λ u. u < length self.now.uploads.items) (uploads_of rule.now) }
        ensures { AllByRecursion (λ u. result ≡ slice_index self.now.uploads.items u) (uploads_of rule.now) }
    {
        match rule.upload() {
            Some(u) => self.uploads[u as usize],
            None => 0,
        }
    }
}

// A copy of the upload, with its counts or without them.
fn copy_of(up: &Accepted, alloc: Global, is_counted: bool) -> Result<Accepted, Memory>
    ensures { IfOk result (λ a. a ≡ up.now) }
{
    if is_counted {
        up.copy(alloc)
    } else {
        up.copy_without_counts(alloc)
    }
}

// The nodes that the roots reach, in order.
fn reached(arena: &Arena, alloc: Global, roots: &[u64], end: u64) -> Result<Vec<u64>, Memory>
    requires roots { AllByRecursion (λ i. i < end) roots.now }
    requires there { end ≤ length arena.now.rules }
    requires few { length arena.now.rules ≤ MAX_NODES }
    ensures { IfOk result (λ v. IsReach arena.now roots.now end v.items) }
{
    let marks = marked(arena, alloc, roots, end)?;
    numbers_of(alloc, &marks)
}

// Marks what the roots reach, from the last node below the end downwards.
fn marked(arena: &Arena, alloc: Global, roots: &[u64], end: u64) -> Result<Vec<bool>, Memory>
    requires roots { AllByRecursion (λ i. i < end) roots.now }
    requires there { end ≤ length arena.now.rules }
    requires few { length arena.now.rules ≤ MAX_NODES }
    ensures { IfOk result (λ v. IsMarkedFrom arena.now roots.now end 0 v.items) }
{
    let mut marks = vec![in alloc; false; end as usize]?;
    mark_each(&mut marks, roots);
    let mut node = end;
    while node > 0 {
        node -= 1;
        if marks[node as usize] {
            mark_children(arena, node, &mut marks);
        }
    }
    Ok(marks)
}

fn mark_children(arena: &Arena, node: u64, marks: &mut Vec<bool>)
    requires there { node < length arena.now.rules }
    requires within { node < length marks.old.items }
    ensures len { length marks.new.items ≡ length marks.old.items }
    ensures earlier { AllByRecursion (λ i. i < node) (node_children arena.now node) }
    ensures marks { (i : ℕ) → IsMarked marks.new.items i
        ↔ (IsMarked marks.old.items i ⊎ Contains (node_children arena.now node) i) }
{
    let children = arena.rule(node).children(arena.uploads());
    mark_each(marks, children.as_slice());
}

// Marks these places.
fn mark_each(marks: &mut Vec<bool>, places: &[u64])
    requires { AllByRecursion (λ i. i < length marks.old.items) places.now }
    ensures len { length marks.new.items ≡ length marks.old.items }
    ensures marks { (i : ℕ) → IsMarked marks.new.items i ↔ (IsMarked marks.old.items i ⊎ Contains places.now i) }
{
    for place in places {
        marks[*place as usize] = true;
    }
}

// The uploads that these nodes name, in order.
fn uploads_named(arena: &Arena, alloc: Global, numbers: &[u64]) -> Result<Vec<u64>, Memory>
    requires { IsClosed arena.now numbers.now }
    ensures { IfOk result (λ v. AreNamedBy arena.now numbers.now v.items) }
{
    let marks = marked_uploads(arena, alloc, numbers)?;
    numbers_of(alloc, &marks)
}

// Marks the uploads that these nodes name.
fn marked_uploads(arena: &Arena, alloc: Global, numbers: &[u64]) -> Result<Vec<bool>, Memory>
    requires { AllByRecursion (λ i. i < length arena.now.rules) numbers.now }
    ensures len { IfOk result (λ v. length v.items ≡ length arena.now.uploads) }
    ensures marks { IfOk result (λ v. (u : ℕ) → IsMarked v.items u ↔ IsNamedAmong arena.now numbers.now u) }
{
    let mut marks = vec![in alloc; false; arena.uploads().len()]?;
    for node in numbers {
        mark_upload(arena, *node, &mut marks);
    }
    Ok(marks)
}

fn mark_upload(arena: &Arena, node: u64, marks: &mut Vec<bool>)
    requires there { node < length arena.now.rules }
    requires within { length marks.old.items ≡ length arena.now.uploads }
    ensures len { length marks.new.items ≡ length marks.old.items }
    ensures marks { (u : ℕ) → IsMarked marks.new.items u
        ↔ (IsMarked marks.old.items u ⊎ Contains (node_uploads arena.now node) u) }
{
    if let Some(u) = arena.rule(node).upload() {
        marks[u as usize] = true;
    }
}

// Marks the uploads that an induced node of these names, whose counts are looked up for its cost.
fn uploads_counted(arena: &Arena, alloc: Global, numbers: &[u64]) -> Result<Vec<bool>, Memory>
    requires { IsClosed arena.now numbers.now }
    ensures { IfOk result (λ v. length v.items ≡ length arena.now.uploads) }
{
    let mut counted = vec![in alloc; false; arena.uploads().len()]?;
    for node in numbers {
        if let Rule::Induced { .. } = arena.rule(*node) {
            mark_upload(arena, *node, &mut counted);
        }
    }
    Ok(counted)
}

// The places that are marked, in order.
fn numbers_of(alloc: Global, marks: &[bool]) -> Result<Vec<u64>, Memory>
    ensures ascends { IfOk result (λ v. Ascends 0 (length marks.now) v.items) }
    ensures has { IfOk result (λ v. (i : ℕ) → Contains v.items i ↔ IsMarked marks.now i) }
{
    let mut numbers = Vec::new(alloc);
    for (i, mark) in marks.iter().enumerate() {
        if *mark {
            numbers.push(i as u64)?;
        }
    }
    Ok(numbers)
}
