ghost use Rattle.std.specs.Prelude.{◌≡◌, ◌↔◌, ◌⊎◌, ℕ, ◌<◌, ◌≤◌, List, [], ◌∷◌, Some, IfErr, IfNone, IfOk, IfSome};
ghost use Rattle.std.specs.Prelude.{IsTrue, MatchResult, OnErr, OnOk, length, slice_get};
ghost use Rattle.std.specs.List.{AllByRecursion};
ghost use Rattle.lj_base.specs.Blocks.{IsBlock};
ghost use Rattle.lj_base.specs.Frames.{InFrame, cells_of, size_of};
ghost use Rattle.lj_blockfile.specs.BlockLines.{IsBlockLine};
ghost use Rattle.lj_text.specs.Lines.{IsLineOf, line_text};
ghost use Rattle.lj_cert.specs.Certificates.{IsCert, IsStage, TakesAt, TakesFrame, progress, with_block, with_bound};
ghost use Rattle.lj_cert.specs.Certificates.{with_upload};
ghost use Rattle.lj_cert.specs.Faults.{IsCertFault, IsFaultyOr, IsFrameFault};
ghost use Rattle.lj_cert.specs.LineForms.{IsBoundLine};
ghost use Rattle.lj_cert.specs.Values.{CertValue, IsFresh, SharesName};
ghost use Rattle.lj_cert.specs.declared.certs.CertBound.{CertBound};
ghost use Rattle.lj_cert.specs.declared.faults.CertFault.{CertFault};
ghost use Rattle.lj_cert.specs.declared.limits.TheConstants.{MAX_CERT_UPLOADS};
ghost use Rattle.lj_cert.specs.declared.reading.Stage.{Stage};

use crate::certs::{Cert, CertBound, CertNode, CertUpload};
use crate::faults::CertFault;
use crate::forms::{bound_of, frame_of, is_one_word, is_word, upload_of};
use crate::laws::cert_law;
use crate::limits::MAX_CERT_UPLOADS;
use crate::lists::{CertBounds, CertNodes, CertUploads};
use crate::nodes::read_node;
use lj_base::{Block, Cell, Frame, Memory};
use lj_blockfile::read_block;
use lj_text::{Line, Lines};
use std::alloc::Global;
use std::marker::Model;

/// Reads a certificate: a line `cert V K T`; for each upload a line `upload NAME O V K T`, its blocks and `end`;
/// `nodes` and a line for each node, as plans have them; `bounds` and a line `V K T B NODE` for each cell of the frame,
/// in index order; and `end`. The first line that has not the form of its place decides. It goes over the bytes twice.
pub fn read_cert(alloc: Global, bytes: &[u8]) -> Result<Cert, CertFault>
    ensures cert { IfOk result (IsCert bytes.now) }
    ensures fault { IfErr result (λ fault. (fault ≡ CertFault.Memory) ⊎ IsCertFault bytes.now fault) }

    // The certificate that the bytes spell is returned, or the fault that they have, unless memory runs out.
    ensures complete { (cert : CertValue) → IsCert bytes.now cert
        → MatchResult result (λ read. read ≡ cert) (λ fault. fault ≡ CertFault.Memory) }
    ensures exact { (fault : CertFault) → IsCertFault bytes.now fault
        → MatchResult result (λ _. ⊥) (λ found. (found ≡ fault) ⊎ (found ≡ CertFault.Memory)) }
{
    cert_law();
    let mut lines = Lines::of(bytes);
    let frame = read_frame(bytes, &mut lines)?;
    let mut reading = Reading::of(alloc, frame);
    let mut stage = Stage::Uploads;
    while let Some(line) = lines.next() {
        stage = reading.take(alloc, stage, text_of(bytes, &line), line.number)?;
    }
    reading.finish(stage)
}

// The frame that the first line names.
fn read_frame(bytes: &[u8], lines: &mut Lines) -> Result<Frame, CertFault>
    requires { AllByRecursion (IsLineOf bytes.now) lines.old }
    ensures frame { IfOk result (λ frame. TakesFrame bytes.now frame lines.old lines.new) }
    ensures fault { IfErr result (IsFrameFault bytes.now lines.old) }
{
    let Some(line) = lines.next() else {
        return Err(CertFault::Unended);
    };
    match frame_of(text_of(bytes, &line)) {
        Some(frame) => Ok(frame),
        None => Err(CertFault::BadLine { line: line.number }),
    }
}

fn text_of<'a>(bytes: &'a [u8], line: &Line) -> &'a [u8]
    requires { IsLineOf bytes.now line.now }
    ensures { result.now ≡ line_text bytes.now line.now }
{
    &bytes[line.start as usize..line.stop as usize]
}

// What is to come at a place of a certificate: an upload or the nodes; blocks of the upload that has begun, or its end;
// a node or the bounds; a bound or the end; nothing.
#[derive(Debug, Drop)]
pub(crate) enum Stage {
    Uploads,
    Blocks(CertUpload),
    Nodes,
    Bounds,
    Ended,
}

// What the lines up to a place of a certificate say.
#[derive(Drop)]
struct Reading {
    frame: Frame,
    uploads: Vec<CertUpload>,
    nodes: Vec<CertNode>,
    bounds: Vec<CertBound>,
}

impl Model for Reading {
    ghost use Rattle.lj_cert.specs.Certificates.{IsReading};
    ghost use Rattle.lj_cert.specs.Values.{CertValue};

    ghost Value = { CertValue };

    ghost view = { λ r. record {
      frame = r.frame;
      uploads = r.uploads.items;
      nodes = r.nodes.items;
      bounds = r.bounds.items;
    } };

    ghost invariant = { λ r. IsReading r.frame r.uploads.items r.bounds.items };
}

impl Reading {
    fn of(alloc: Global, frame: Frame) -> Reading
        ensures { result ≡ record { frame = frame; uploads = []; nodes = []; bounds = [] } }
    {
        Reading {
            frame,
            uploads: Vec::new(alloc),
            nodes: Vec::new(alloc),
            bounds: Vec::new(alloc),
        }
    }

    // Takes one line, and returns the stage after it.
    fn take(
        &mut self,
        alloc: Global,
        stage: Stage,
        text: &[u8],
        line: u64,
    ) -> Result<Stage, CertFault>
        requires stage { IsStage self.old stage }
        ensures next { IfOk result (IsStage self.new) }
        ensures ok { IfOk result (λ next. TakesAt stage self.old text.now (progress self.new next)) }
        ensures fault { IfErr result (IsFaultyOr (progress self.old stage) text.now line) }
    {
        match stage {
            Stage::Uploads => self.take_upload(alloc, text, line),
            Stage::Blocks(upload) => self.take_block(upload, text, line),
            Stage::Nodes => self.take_node(alloc, text, line),
            Stage::Bounds => self.take_bound(text, line),
            Stage::Ended => Err(CertFault::BadLine { line }),
        }
    }

    // A line where an upload or the nodes may begin.
    fn take_upload(&mut self, alloc: Global, text: &[u8], line: u64) -> Result<Stage, CertFault>
        ensures next { IfOk result (IsStage self.new) }
        ensures ok { IfOk result (λ next. TakesAt Stage.Uploads self.old text.now (progress self.new next)) }
        ensures fault { IfErr result (IsFaultyOr (progress self.old Stage.Uploads) text.now line) }
    {
        if is_one_word(text, b"nodes") {
            return Ok(Stage::Nodes);
        }
        let Some(upload) = upload_of(alloc, self.frame, text) else {
            return Err(CertFault::BadLine { line });
        };
        if !is_fresh(&self.uploads, &upload) {
            return Err(CertFault::BadLine { line });
        }
        if self.uploads.len() >= MAX_CERT_UPLOADS {
            return Err(CertFault::TooManyUploads { line });
        }
        Ok(Stage::Blocks(upload))
    }

    // A line after those of some blocks of an upload.
    fn take_block(
        &mut self,
        mut upload: CertUpload,
        text: &[u8],
        line: u64,
    ) -> Result<Stage, CertFault>
        requires stage { IsStage self.old (Stage.Blocks upload) }
        ensures next { IfOk result (IsStage self.new) }
        ensures ok { IfOk result (λ next. TakesAt (Stage.Blocks upload) self.old text.now (progress self.new next)) }
        ensures fault { IfErr result (IsFaultyOr (progress self.old (Stage.Blocks upload)) text.now line) }
    {
        if is_one_word(text, b"end") {
            return match self.push_upload(upload) {
                Ok(()) => Ok(Stage::Uploads),
                Err(_) => Err(CertFault::Memory),
            };
        }
        let Some(block) = block_of(&upload, text) else {
            return Err(CertFault::BadLine { line });
        };
        match push_block(&mut upload, block) {
            Ok(()) => Ok(Stage::Blocks(upload)),
            Err(_) => Err(CertFault::Memory),
        }
    }

    // A line where a node or the bounds may begin.
    fn take_node(&mut self, alloc: Global, text: &[u8], line: u64) -> Result<Stage, CertFault>
        ensures next { IfOk result (IsStage self.new) }
        ensures ok { IfOk result (λ next. TakesAt Stage.Nodes self.old text.now (progress self.new next)) }
        ensures fault { IfErr result (IsFaultyOr (progress self.old Stage.Nodes) text.now line) }
    {
        if is_one_word(text, b"bounds") {
            return Ok(Stage::Bounds);
        }
        let node = read_node(alloc, self.nodes.len() as u64 + 1, text, line)?;
        match self.nodes.push(node) {
            Ok(()) => Ok(Stage::Nodes),
            Err(_) => Err(CertFault::Memory),
        }
    }

    // A line where a bound or the end may stand.
    fn take_bound(&mut self, text: &[u8], line: u64) -> Result<Stage, CertFault>
        ensures next { IfOk result (IsStage self.new) }
        ensures ok { IfOk result (λ next. TakesAt Stage.Bounds self.old text.now (progress self.new next)) }
        ensures fault { IfErr result (IsFaultyOr (progress self.old Stage.Bounds) text.now line) }
    {
        if self.bounds.len() as u64 >= self.frame.size() {
            if is_one_word(text, b"end") {
                return Ok(Stage::Ended);
            }
            return Err(CertFault::BadLine { line });
        }
        let Some(bound) = next_bound(self.frame, self.bounds.len() as u64, text) else {
            return Err(CertFault::BadLine { line });
        };
        match self.push_bound(bound) {
            Ok(()) => Ok(Stage::Bounds),
            Err(_) => Err(CertFault::Memory),
        }
    }

    fn push_upload(&mut self, upload: CertUpload) -> Result<(), Memory>
        requires room { length self.old.uploads < MAX_CERT_UPLOADS }
        requires inside { InFrame self.old.frame upload.cell }
        requires fresh { IsFresh self.old.uploads upload }
        ensures ok { OnOk result (self.new ≡ with_upload self.old upload) }
    {
        self.uploads.push(upload)?;
        Ok(())
    }

    fn push_bound(&mut self, bound: CertBound) -> Result<(), Memory>
        requires next { slice_get (cells_of self.old.frame) (length self.old.bounds) ≡ Some bound.cell }
        ensures ok { OnOk result (self.new ≡ with_bound self.old bound) }
    {
        self.bounds.push(bound)?;
        Ok(())
    }

    // The certificate, where its last line was taken.
    fn finish(self, stage: Stage) -> Result<Cert, CertFault>
        requires stage { IsStage self stage }
        ensures ok { IfOk result (λ cert. (stage ≡ Stage.Ended) × (cert ≡ self)) }
        ensures fault { IfErr result (λ fault. (fault ≡ CertFault.Unended) × (stage ≡ Stage.Ended → ⊥)) }
    {
        let Reading {
            frame,
            uploads,
            nodes,
            bounds,
        } = self;
        match stage {
            Stage::Ended => Ok(Cert {
                frame,
                uploads: CertUploads::of(uploads),
                nodes: CertNodes::of(nodes),
                bounds: CertBounds::of(bounds),
            }),
            _ => Err(CertFault::Unended),
        }
    }
}

// The block of a line, as one of the upload's.
fn block_of(upload: &CertUpload, text: &[u8]) -> Option<Block>
    ensures some { IfSome result (IsBlockLine text.now upload.now.cell.v upload.now.cell.k) }
    ensures none { IfNone result ((b : List ℕ) → IsBlockLine text.now upload.now.cell.v upload.now.cell.k b → ⊥) }
{
    block_in(upload.cell, text)
}

fn block_in(cell: Cell, text: &[u8]) -> Option<Block>
    requires points { 1 ≤ cell.k }
    ensures some { IfSome result (IsBlockLine text.now cell.v cell.k) }
    ensures none { IfNone result ((b : List ℕ) → IsBlockLine text.now cell.v cell.k b → ⊥) }
{
    match read_block(text, u64::from(cell.v), u64::from(cell.k)) {
        Ok(block) => Some(block),
        Err(_) => None,
    }
}

fn push_block(upload: &mut CertUpload, block: Block) -> Result<(), Memory>
    requires { IsBlock upload.old.cell.v upload.old.cell.k block }
    ensures ok { OnOk result (upload.new ≡ with_block upload.old block) }
    ensures err { OnErr result (upload.new ≡ upload.old) }
{
    upload.blocks.push(block)
}

// The bound that a line states, where it is that of the cell at a place.
fn next_bound(frame: Frame, place: u64, text: &[u8]) -> Option<CertBound>
    requires { place < size_of frame }
    ensures some { IfSome result (λ b. IsBoundLine text.now b × (slice_get (cells_of frame) place ≡ Some b.cell)) }
    ensures none { IfNone result ((b : CertBound) → IsBoundLine text.now b
        → slice_get (cells_of frame) place ≡ Some b.cell → ⊥) }
{
    let bound = bound_of(text)?;
    if bound.cell != frame.cell(place) {
        return None;
    }
    Some(bound)
}

// No upload has the name and ordinal of this one.
fn is_fresh(uploads: &[CertUpload], upload: &CertUpload) -> bool
    ensures { IsTrue result ↔ IsFresh uploads.now upload.now }
{
    uploads.iter().all(|other| !shares_name(other, upload))
}

fn shares_name(upload: &CertUpload, other: &CertUpload) -> bool
    ensures { IsTrue result ↔ SharesName upload.now other.now }
{
    upload.ordinal == other.ordinal && is_word(upload.client.bytes(), other.client.bytes())
}
