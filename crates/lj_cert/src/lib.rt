//! Certificates: uploads, derivations and bounds as text, and the check that no rule lowers a bound further.
#![tactic(auto)]

mod auditing;
mod certs;
mod faults;
mod fields;
mod forms;
mod kinds;
mod laws;
mod limits;
mod lists;
mod lowest;
mod nodes;
mod places;
mod reading;
mod refusals;
mod rests;
mod storing;
mod writing;
mod written;

pub use auditing::audit;
pub use certs::{Cert, CertBound, CertChild, CertNode, CertPart, CertRule, CertUpload};
pub use faults::CertFault;
pub use laws::{cert_law, good_certificates_are_least, refusals_law};
pub use limits::MAX_CERT_UPLOADS;
pub use lists::{CertBlocks, CertBounds, CertChildren, CertNodes, CertParts, CertUploads};
pub use reading::read_cert;
pub use refusals::No;
pub use rests::Rest;
pub use writing::write_cert;
pub use written::{forests_are_writable, written_certificates_are_good, written_law};

#[cfg(test)]
mod audit_tests;
#[cfg(test)]
mod tests;
