ghost use Rattle.std.specs.Prelude.{◌≡◌, [], ◌∷◌, ◌++◌, OnErr, OnOk};

use crate::certs::{CertBound, CertChild, CertNode, CertPart, CertUpload};
use lj_base::{Block, Memory};
use std::marker::Model;

/// The blocks of an upload in order, seen as their list.
#[derive(Debug, Drop)]
pub struct CertBlocks {
    blocks: Vec<Block>,
}

impl Model for CertBlocks {
    ghost use Rattle.std.specs.Prelude.{ℕ, List};

    ghost Value = { List (List ℕ) };

    ghost view = { λ c. c.blocks.items };
}

impl CertBlocks {
    /// These blocks, in their order.
    pub fn of(items: Vec<Block>) -> CertBlocks
        ensures { result ≡ items.items }
    {
        CertBlocks { blocks: items }
    }

    /// The blocks in order.
    pub fn items(&self) -> &[Block]
        ensures { result.now ≡ self.now }
    {
        &self.blocks
    }

    /// The list of the blocks, which is used up.
    pub fn into_vec(self) -> Vec<Block>
        ensures { result.items ≡ self }
    {
        let CertBlocks { blocks } = self;
        blocks
    }

    pub(crate) fn push(&mut self, item: Block) -> Result<(), Memory>
        ensures ok { OnOk result (self.new ≡ self.old ++ item ∷ []) }
        ensures err { OnErr result (self.new ≡ self.old) }
    {
        self.blocks.push(item)?;
        Ok(())
    }
}

/// The parts of a product in order, seen as their list.
#[derive(Debug, Drop)]
pub struct CertParts {
    parts: Vec<CertPart>,
}

impl Model for CertParts {
    ghost use Rattle.std.specs.Prelude.{List};
    ghost use Rattle.lj_cert.specs.declared.certs.CertPart.{CertPart};

    ghost Value = { List CertPart };

    ghost view = { λ c. c.parts.items };
}

impl CertParts {
    /// These parts, in their order.
    pub fn of(items: Vec<CertPart>) -> CertParts
        ensures { result ≡ items.items }
    {
        CertParts { parts: items }
    }

    /// The parts in order.
    pub fn items(&self) -> &[CertPart]
        ensures { result.now ≡ self.now }
    {
        &self.parts
    }

    /// The list of the parts, which is used up.
    pub fn into_vec(self) -> Vec<CertPart>
        ensures { result.items ≡ self }
    {
        let CertParts { parts } = self;
        parts
    }
}

/// The children of an induced rule in order, seen as their list.
#[derive(Debug, Drop)]
pub struct CertChildren {
    children: Vec<CertChild>,
}

impl Model for CertChildren {
    ghost use Rattle.std.specs.Prelude.{List};
    ghost use Rattle.lj_cert.specs.declared.certs.CertChild.{CertChild};

    ghost Value = { List CertChild };

    ghost view = { λ c. c.children.items };
}

impl CertChildren {
    /// These children, in their order.
    pub fn of(items: Vec<CertChild>) -> CertChildren
        ensures { result ≡ items.items }
    {
        CertChildren { children: items }
    }

    /// The children in order.
    pub fn items(&self) -> &[CertChild]
        ensures { result.now ≡ self.now }
    {
        &self.children
    }

    /// The list of the children, which is used up.
    pub fn into_vec(self) -> Vec<CertChild>
        ensures { result.items ≡ self }
    {
        let CertChildren { children } = self;
        children
    }
}

/// The uploads of a certificate in order, seen as their list.
#[derive(Debug, Drop)]
pub struct CertUploads {
    uploads: Vec<CertUpload>,
}

impl Model for CertUploads {
    ghost use Rattle.std.specs.Prelude.{List};
    ghost use Rattle.lj_cover.specs.Rules.{Upload};

    ghost Value = { List Upload };

    ghost view = { λ c. c.uploads.items };
}

impl CertUploads {
    /// These uploads, in their order.
    pub fn of(items: Vec<CertUpload>) -> CertUploads
        ensures { result ≡ items.items }
    {
        CertUploads { uploads: items }
    }

    /// The uploads in order.
    pub fn items(&self) -> &[CertUpload]
        ensures { result.now ≡ self.now }
    {
        &self.uploads
    }

    /// The list of the uploads, which is used up.
    pub fn into_vec(self) -> Vec<CertUpload>
        ensures { result.items ≡ self }
    {
        let CertUploads { uploads } = self;
        uploads
    }
}

/// The nodes of a certificate in order, seen as their list.
#[derive(Debug, Drop)]
pub struct CertNodes {
    nodes: Vec<CertNode>,
}

impl Model for CertNodes {
    ghost use Rattle.std.specs.Prelude.{List};
    ghost use Rattle.lj_cert.specs.declared.certs.CertNode.{CertNode};

    ghost Value = { List CertNode };

    ghost view = { λ c. c.nodes.items };
}

impl CertNodes {
    /// These nodes, in their order.
    pub fn of(items: Vec<CertNode>) -> CertNodes
        ensures { result ≡ items.items }
    {
        CertNodes { nodes: items }
    }

    /// The nodes in order.
    pub fn items(&self) -> &[CertNode]
        ensures { result.now ≡ self.now }
    {
        &self.nodes
    }

    /// The list of the nodes, which is used up.
    pub fn into_vec(self) -> Vec<CertNode>
        ensures { result.items ≡ self }
    {
        let CertNodes { nodes } = self;
        nodes
    }
}

/// The bounds of a certificate in order, seen as their list.
#[derive(Debug, Drop)]
pub struct CertBounds {
    bounds: Vec<CertBound>,
}

impl Model for CertBounds {
    ghost use Rattle.std.specs.Prelude.{List};
    ghost use Rattle.lj_cert.specs.declared.certs.CertBound.{CertBound};

    ghost Value = { List CertBound };

    ghost view = { λ c. c.bounds.items };
}

impl CertBounds {
    /// These bounds, in their order.
    pub fn of(items: Vec<CertBound>) -> CertBounds
        ensures { result ≡ items.items }
    {
        CertBounds { bounds: items }
    }

    /// The bounds in order.
    pub fn items(&self) -> &[CertBound]
        ensures { result.now ≡ self.now }
    {
        &self.bounds
    }

    /// The list of the bounds, which is used up.
    pub fn into_vec(self) -> Vec<CertBound>
        ensures { result.items ≡ self }
    {
        let CertBounds { bounds } = self;
        bounds
    }
}
