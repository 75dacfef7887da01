ghost use Rattle.std.specs.Prelude.{◌≡◌, ◌⊎◌, ℕ, List};
ghost use Rattle.lj_cert.specs.Certificates.{IsCert};
ghost use Rattle.lj_cert.specs.Faults.{IsCertFault};
ghost use Rattle.lj_cert.specs.Good.{IsGood};
ghost use Rattle.lj_cert.specs.Refusals.{IsNo};
ghost use Rattle.lj_script.specs.Faults.{IsScriptFault};
ghost use Rattle.lj_script.specs.Scripts.{IsScript};
ghost use Rattle.lj_cli.specs.AuditOutput.{IsAuditOutput, IsRested, cert_fault_line, no_line};
ghost use Rattle.lj_cli.specs.BuildOutput.{IsBuildCommandOutput, script_fault_line};
ghost use Rattle.lj_cli.specs.CertifyOutput.{EndsWithBounds, IsCertifyOutput, IsScriptCertificate};
ghost use Rattle.lj_cli.specs.Ends.{Ends, EndsWithin, IsComplete, IsCompleteWithin};

use crate::limits::MAX_CERT_INPUT;
use crate::status::{DONE, FAULTY, NOT_GOOD};
use lj_build::one_report_law;
use lj_cert::{cert_law, refusals_law};
use lj_script::script_law;
use lj_session::one_outcome_law;

/// The bytes of an input have one text and one status for an audit. A good certificate has its line, and with it bounds
/// that are the least; one that is not good has the reason; and bytes that are no certificate have their fault.
pub fn audit_output_law()
    ensures one { (bytes text other : List ℕ) (status ended : ℕ) → IsAuditOutput bytes text status →
        IsAuditOutput bytes other ended → (text ≡ other) × (status ≡ ended) }
    ensures good { (bytes text : List ℕ) (status : ℕ) (cert : _) → IsAuditOutput bytes text status →
        IsCert bytes cert → IsGood cert → IsRested cert text status }
    ensures refused { (bytes text : List ℕ) (status : ℕ) (cert : _) (why : _) → IsAuditOutput bytes text status →
        IsCert bytes cert → IsNo cert why → (status ≡ NOT_GOOD) × (text ≡ no_line cert.uploads why) }
    ensures fault { (bytes text : List ℕ) (status : ℕ) (fault : _) → IsAuditOutput bytes text status →
        IsCertFault bytes fault → (status ≡ FAULTY) × (text ≡ cert_fault_line fault) }
{
    cert_law();
    refusals_law();
}

/// What is printed of bytes that spell a script is a certificate of its frame and of its accepted uploads, and of bytes
/// with a fault it is the fault's line. A certificate that is printed is good when it is audited, and its bounds are
/// those of the report of each build of the script.
pub fn certify_output_law()
    ensures script { (bytes text : List ℕ) (status : ℕ) (script : _) → IsCertifyOutput bytes text status →
        IsScript bytes script → (status ≡ DONE) × IsScriptCertificate script text }
    ensures fault { (bytes text : List ℕ) (status : ℕ) (fault : _) → IsCertifyOutput bytes text status →
        IsScriptFault bytes fault → (status ≡ FAULTY) × (text ≡ script_fault_line fault) }
    ensures audited { (bytes text other : List ℕ) (ended : ℕ) → IsCertifyOutput bytes text DONE →
        IsAuditOutput text other ended → ended ≡ DONE }
    ensures report { (json : _) (bytes text built : List ℕ) → IsCertifyOutput bytes text DONE →
        IsBuildCommandOutput json bytes built DONE → EndsWithBounds json bytes text built }
{
    audit_output_law();
    one_outcome_law();
    one_report_law();
    script_law();
}

/// Where no read and no write fails, a certificate and an audit of an input that its source reports print an output
/// that belongs to the input, or refuse it as too large; or memory runs out. An audit reads at most 2^27 bytes.
pub fn cert_complete_law()
    ensures certified { (i : _) (o : _) (ended : _) → Ends IsCertifyOutput i o ended →
        IsComplete IsCertifyOutput i o ended }
    ensures audited { (i : _) (o : _) (ended : _) → EndsWithin MAX_CERT_INPUT IsAuditOutput i o ended →
        IsCompleteWithin MAX_CERT_INPUT IsAuditOutput i o ended }
    ensures limit { MAX_CERT_INPUT ≡ 134217728 }
{}
