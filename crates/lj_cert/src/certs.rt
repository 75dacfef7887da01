use crate::lists::{CertBlocks, CertBounds, CertChildren, CertNodes, CertParts, CertUploads};
use lj_base::{Cell, Frame};
use lj_upload::Name;
use std::marker::Model;

/// An upload, with at least one point in each block.
#[derive(Debug, Drop)]
pub struct CertUpload {
    pub client: Name,
    pub ordinal: u64,
    pub cell: Cell,
    pub blocks: CertBlocks,
}

impl Model for CertUpload {
    ghost use Rattle.lj_cover.specs.Rules.{Upload};
    ghost use Rattle.lj_cert.specs.Values.{IsOffer};

    ghost Value = { Upload };

    ghost view = { λ u. record { client = u.client; ordinal = u.ordinal; cell = u.cell; blocks = u.blocks } };

    ghost invariant = { λ u. IsOffer u.ordinal u.cell u.blocks };
}

/// One part of a product, as a line has it: it serves the sets that have from `a` to `b` points on the first side, its
/// blocks have `l` points there, and its factors are nodes, numbered from 1.
#[derive(Clone, Copy, Debug, PartialEq, Eq)]
pub struct CertPart {
    pub a: u64,
    pub b: u64,
    pub l: u64,
    pub first: u64,
    pub second: u64,
}

/// The node, numbered from 1, for the cuts of `l` points.
#[derive(Clone, Copy, Debug, PartialEq, Eq)]
pub struct CertChild {
    pub l: u64,
    pub child: u64,
}

/// A node's rule, as its line has it: points and nodes are numbered from 1, and an upload is named by its client and
/// its ordinal. Nothing is known of whether the rule may be used.
#[derive(Debug, Drop)]
pub enum CertRule {
    One,
    Runs,
    All,
    Leaf {
        client: Name,
        ordinal: u64,
    },
    Derived {
        client: Name,
        ordinal: u64,
        point: u64,
    },
    Derived2 {
        client: Name,
        ordinal: u64,
        first: u64,
        second: u64,
    },
    Drop {
        child: u64,
    },
    Add {
        child: u64,
    },
    Grow {
        child: u64,
    },
    Lower {
        child: u64,
    },
    Product {
        v1: u64,
        parts: CertParts,
    },
    Induced {
        client: Name,
        ordinal: u64,
        children: CertChildren,
    },
}

/// A node: its cell and the cost that its line states, in blocks, and its rule.
#[derive(Debug, Drop)]
pub struct CertNode {
    pub cell: Cell,
    pub cost: u64,
    pub rule: CertRule,
}

/// The bound of a cell, and the node, numbered from 1, that is to have this cost.
#[derive(Clone, Copy, Debug, PartialEq, Eq)]
pub struct CertBound {
    pub cell: Cell,
    pub bound: u64,
    pub node: u64,
}

/// What a certificate's text says: a frame, at most [`MAX_CERT_UPLOADS`](crate::MAX_CERT_UPLOADS) uploads of its cells,
/// of which no two have the same client and ordinal, nodes, and a bound for each cell of the frame, in index order.
#[derive(Debug, Drop)]
pub struct Cert {
    pub frame: Frame,
    pub uploads: CertUploads,
    pub nodes: CertNodes,
    pub bounds: CertBounds,
}

impl Model for Cert {
    ghost use Rattle.lj_cert.specs.Values.{CertValue, IsFormed};

    ghost Value = { CertValue };

    ghost view = { λ c. record { frame = c.frame; uploads = c.uploads; nodes = c.nodes; bounds = c.bounds } };

    ghost invariant = { λ c. IsFormed c.frame c.uploads c.bounds };
}
