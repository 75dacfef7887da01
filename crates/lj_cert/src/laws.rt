ghost use Rattle.std.specs.Prelude.{◌≡◌, ℕ, List};
ghost use Rattle.lj_base.specs.Cells.{IsCell};
ghost use Rattle.lj_cert.specs.Certificates.{IsCert};
ghost use Rattle.lj_cert.specs.Faults.{IsCertFault};
ghost use Rattle.lj_cert.specs.Good.{IsGood, bounds_of};
ghost use Rattle.lj_cert.specs.Refusals.{IsNo};
ghost use Rattle.lj_cert.specs.Rests.{AreLeast};
ghost use Rattle.lj_cert.specs.Values.{AreDistinct, CertValue, IsFormed};
ghost use Rattle.lj_cert.specs.declared.faults.CertFault.{CertFault};
ghost use Rattle.lj_cert.specs.declared.refusals.No.{No};

use crate::limits::MAX_CERT_UPLOADS;
use lj_base::{cells_law, index_law};
use lj_blockfile::one_reading_law;
use lj_relax::laws::rest_is_least;
use lj_verify::outcome_law;

/// Bytes spell at most one certificate, or else have at most one fault. A certificate has at most 4,096 uploads.
pub fn cert_law()
    ensures cert { (bytes : List ℕ) (a b : CertValue) → IsCert bytes a → IsCert bytes b → a ≡ b }
    ensures fault { (bytes : List ℕ) (f g : CertFault) → IsCertFault bytes f → IsCertFault bytes g → f ≡ g }
    ensures either { (bytes : List ℕ) (cert : CertValue) (fault : CertFault)
        → IsCert bytes cert → IsCertFault bytes fault → ⊥ }
    ensures limit { MAX_CERT_UPLOADS ≡ 4096 }
{
    one_reading_law();
}

/// Each bound of a good certificate is the least cost of any derivation in its frame from its uploads.
pub fn good_certificates_are_least()
    ensures { (cert : CertValue) → IsCell cert.frame.top → IsFormed cert.frame cert.uploads cert.bounds → IsGood cert
        → AreLeast (record { frame = cert.frame; uploads = cert.uploads; bounds = bounds_of cert }) }
{
    cells_law();
    index_law();
    rest_is_least();
}

/// A certificate in which each upload has a name and ordinal of its own is refused for one reason at most, and for none
/// where it is good.
pub fn refusals_law()
    ensures one { (cert : CertValue) (a b : No) → AreDistinct cert.uploads → IsNo cert a → IsNo cert b → a ≡ b }
    ensures none { (cert : CertValue) (no : No) → AreDistinct cert.uploads → IsGood cert → IsNo cert no → ⊥ }
{
    index_law();
    outcome_law();
}
