ghost use Rattle.std.specs.Prelude.{◌≡◌, ℕ, ◌^◌, ◌<◌, ◌≤◌, ◌++◌, length, map, slice_index, OnErr, OnOk};
ghost use Rattle.std.specs.List.{AllByRecursion};
ghost use Rattle.lj_text.specs.Lines.{text_lines};
ghost use Rattle.lj_text.specs.Tokens.{words};
ghost use Rattle.lj_base.specs.Frames.{InFrame};
ghost use Rattle.lj_cover.specs.Derivations.{root_cell, tree_cost};
ghost use Rattle.lj_cover.specs.Rules.{IsCovering};
ghost use Rattle.lj_deriv.specs.Forests.{IsWhole, forest_of, forest_tree, steps_in};
ghost use Rattle.lj_deriv.specs.Nodes.{IsDerivedIn};
ghost use Rattle.lj_deriv.specs.Texts.{plan_text, plan_words};
ghost use Rattle.lj_deriv.specs.Validity.{AreValid, IsNode};
ghost use Rattle.lj_upload.specs.Uploads.{IsAccepted};

use crate::arena::Arena;
use crate::limits::MAX_NODES;
use crate::rules::Rule;
use lj_base::{Cell, Frame, Memory};
use lj_upload::Accepted;
use std::marker::Model;

/// The derivations of some nodes, the roots, which stand alone. Its nodes are numbered from 0, each is reached from a
/// root, children stand before parents, and the uploads are those that its rules name.
#[derive(Drop)]
pub struct Forest {
    arena: Arena,
    roots: Vec<u64>,
}

impl Model for Forest {
    ghost use Rattle.lj_deriv.specs.Forests.{ForestValue, IsWhole, forest_of};

    ghost Value = { ForestValue };

    ghost view = { λ f. forest_of f.arena f.roots.items };

    ghost invariant = { λ f. IsWhole (forest_of f.arena f.roots.items) };
}

impl Forest {
    /// Takes nodes that stand alone, and the numbers of the roots.
    pub(crate) fn of(arena: Arena, roots: Vec<u64>) -> Forest
        requires { IsWhole (forest_of arena roots.items) }
        ensures { result ≡ forest_of arena roots.items }
    {
        Forest { arena, roots }
    }

    /// The frame in which all its cells lie.
    pub fn frame(&self) -> Frame
        ensures { result ≡ self.now.frame }
    {
        self.arena.frame()
    }

    /// The number of its nodes. Each is a derivation in the frame and from the uploads.
    pub fn len(&self) -> u64
        ensures len { result ≡ length self.now.rules }
        ensures few { result ≤ MAX_NODES }
        ensures valid { AreValid self.now.uploads self.now.rules }
        ensures whole { IsWhole self.now }
        ensures derive { (i : ℕ) → i < length self.now.rules
            → IsDerivedIn self.now.frame self.now.uploads (forest_tree self.now i) }
    {
        self.arena.nodes_derive();
        self.arena.len()
    }

    /// The number of the roots.
    pub fn roots(&self) -> u64
        ensures { result ≡ length self.now.roots }
    {
        self.roots.len() as u64
    }

    /// The number of the i-th root, from 0.
    pub fn root(&self, i: u64) -> u64
        requires { i < length self.now.roots }
        ensures root { result ≡ slice_index self.now.roots i }
        ensures there { result < length self.now.rules }
    {
        self.roots[i as usize]
    }

    /// A node's rule. The children and the upload that it names are numbers of this forest.
    pub fn rule(&self, i: u64) -> &Rule
        requires { i < length self.now.rules }
        ensures { IsNode self.now.uploads self.now.rules i result.now }
    {
        self.arena.rule(i)
    }

    /// The cell of a node's derivation.
    pub fn cell_of(&self, i: u64) -> Cell
        requires { i < length self.now.rules }
        ensures { result ≡ root_cell (forest_tree self.now i) }
    {
        self.arena.cell(i)
    }

    /// The cost of a node's derivation, in blocks.
    pub fn cost_of(&self, i: u64) -> u64
        requires { i < length self.now.rules }
        ensures { result ≡ tree_cost (forest_tree self.now i) }
    {
        self.arena.cost(i)
    }

    /// The uploads that its rules name. Each is named by a rule of a node.
    pub fn uploads(&self) -> &[Accepted]
        ensures uploads { result.now ≡ self.now.uploads }
        ensures covering { AllByRecursion IsCovering self.now.uploads }
        ensures accepted { AllByRecursion IsAccepted self.now.uploads }
        ensures ordinals { AllByRecursion (λ u. u.ordinal < 2 ^ 64) self.now.uploads }
        ensures inside { AllByRecursion (λ u. InFrame self.now.frame u.cell) self.now.uploads }
    {
        self.arena.uploads()
    }

    /// Appends a line for each node: its number from 1, its rule, the cell and the cost of its derivation, and what the
    /// rule names. Children stand before parents. The words of each line read back. It takes time for each byte.
    pub fn text(&self, out: &mut Vec<u8>) -> Result<(), Memory>
        ensures ok { OnOk result (out.new.items ≡ out.old.items ++ plan_text (steps_in self.now)) }
        ensures err { OnErr result (out.new.items ≡ out.old.items) }
        ensures reads_back { map (words (plan_text (steps_in self.now))) (text_lines (plan_text (steps_in self.now)))
            ≡ plan_words (steps_in self.now) }
    {
        self.arena.text(out)
    }
}
