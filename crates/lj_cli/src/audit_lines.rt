ghost use Rattle.std.specs.Prelude.{◌≡◌, List, [], ◌∷◌, ◌++◌, IfOk, OnOk, length, map};
ghost use Rattle.lj_base.specs.Frames.{size_of};
ghost use Rattle.lj_cover.specs.Rules.{Upload};
ghost use Rattle.lj_cli.specs.AuditOutput.{IsThere, cert_fault_line, cert_fault_text, no_line, rest_line};
ghost use Rattle.lj_cli.specs.AuditOutput.{upload_name, upload_words};

use crate::script_faults::put_at_line;
use lj_base::{Cell, Memory};
use lj_cert::{CertFault, CertUpload, No, Rest};
use lj_text::{put, put_named};
use lj_upload::Name;
use std::alloc::Global;

// The client's name and the ordinal of an upload.
#[derive(Clone, Copy, Debug, PartialEq, Eq)]
pub(crate) struct UploadName {
    pub client: Name,
    pub ordinal: u64,
}

// The names of uploads.
pub(crate) fn upload_names(alloc: Global, uploads: &[CertUpload]) -> Result<Vec<UploadName>, Memory>
    ensures { IfOk result (λ names. names.items ≡ map upload_name uploads.now) }
{
    let mut names = Vec::with_capacity(alloc, uploads.len())?;
    for upload in uploads {
        names.push(UploadName {
            client: upload.client,
            ordinal: upload.ordinal,
        })?;
    }
    Ok(names)
}

// The line for bounds that are the least.
pub(crate) fn rest_line(alloc: Global, rest: &Rest) -> Result<Vec<u8>, Memory>
    ensures { IfOk result (λ line. line.items ≡ rest_line (length rest.now.uploads) (size_of rest.now.frame)) }
{
    let mut line = Vec::new(alloc);
    put_named(&mut line, b"rest", &[rest.uploads(), rest.cells()])?;
    put(&mut line, b"\n")?;
    Ok(line)
}

// The line for why a certificate is not good, whose uploads have these names.
pub(crate) fn no_line(alloc: Global, names: &[UploadName], why: &No) -> Result<Vec<u8>, Memory>
    requires { IsThere (length names.now) why.now }
    ensures { (uploads : List Upload) → names.now ≡ map upload_name uploads
        → IfOk result (λ line. line.items ≡ no_line uploads why.now) }
{
    let mut line = Vec::new(alloc);
    match why {
        No::Upload { place, .. } => put_upload(&mut line, &names[*place as usize])?,
        No::Node { number } => put_named(&mut line, b"no node", &[*number])?,
        No::Bound { cell } => {
            let [v, k, t] = cell_numbers(*cell);
            put_named(&mut line, b"no bound", &[v, k, t])?;
        }
        No::Low { cell, cost } => {
            let [v, k, t] = cell_numbers(*cell);
            put_named(&mut line, b"no rest", &[v, k, t, *cost])?;
        }
        No::Memory => {}
    }
    put(&mut line, b"\n")?;
    Ok(line)
}

// Appends the words for an upload that is refused.
fn put_upload(out: &mut Vec<u8>, name: &UploadName) -> Result<(), Memory>
    ensures { OnOk result (out.new.items ≡ out.old.items ++ upload_words name.now) }
{
    put(out, b"no upload ")?;
    put_named(out, name.client.bytes(), &[name.ordinal])
}

// The line for why bytes are no certificate.
pub(crate) fn cert_fault_line(alloc: Global, fault: &CertFault) -> Result<Vec<u8>, Memory>
    ensures { IfOk result (λ line. line.items ≡ cert_fault_line fault.now) }
{
    let mut line = Vec::new(alloc);
    put(&mut line, b"fault ")?;
    put_cert_fault(&mut line, fault)?;
    put(&mut line, b"\n")?;
    Ok(line)
}

// Appends the words for why bytes are no certificate. That memory ran out has no words.
fn put_cert_fault(out: &mut Vec<u8>, fault: &CertFault) -> Result<(), Memory>
    ensures { OnOk result (out.new.items ≡ out.old.items ++ cert_fault_text fault.now) }
{
    match fault {
        CertFault::BadLine { line } => put_at_line(out, *line, b" bad line"),
        CertFault::TooManyUploads { line } => put_at_line(out, *line, b" too many uploads"),
        CertFault::Unended => put(out, b"no end"),
        CertFault::Memory => Ok(()),
    }
}

fn cell_numbers(cell: Cell) -> [u64; 3]
    ensures { result ≡ cell.v ∷ cell.k ∷ cell.t ∷ [] }
{
    [u64::from(cell.v), u64::from(cell.k), u64::from(cell.t)]
}
