ghost use Rattle.std.specs.Prelude.{◌≡◌, ◌+◌, ◌≤◌, ◌↔◌, IfErr, IsOk};
ghost use Rattle.lj_upload.specs.Quotas.{Admits, IsQuotaCause};

use lj_base::MAX_BLOCKS;
use std::marker::Model;
use thiserror::Error;

/// The most uploads that are held.
pub const QUOTA_UPLOADS: u64 = 256;

/// The most blocks that the uploads held have in all.
pub const QUOTA_BLOCKS: u64 = 262_144;

/// How many uploads and blocks are held: at most `QUOTA_UPLOADS` uploads, with at most `QUOTA_BLOCKS` blocks in all.
#[derive(Debug, Drop)]
pub struct Quota {
    uploads: u64,
    blocks: u64,
}

impl Model for Quota {
    ghost use Rattle.std.specs.Prelude.{◌≤◌};
    ghost use Rattle.lj_upload.specs.Quotas.{Held};
    ghost use Rattle.lj_upload.specs.declared.quotas.TheConstants.{QUOTA_BLOCKS, QUOTA_UPLOADS};

    ghost Value = { Held };

    ghost view = { λ q. record { uploads = q.uploads; blocks = q.blocks } };

    ghost invariant = { λ q. (q.uploads ≤ QUOTA_UPLOADS) × (q.blocks ≤ QUOTA_BLOCKS) };
}

/// Why an upload is not admitted.
#[derive(Clone, Copy, Debug, PartialEq, Eq, Error)]
pub enum QuotaFull {
    /// As many uploads as can be, `n`, are held.
    #[error("{n} uploads are held already")]
    Uploads { n: u64 },
    /// With the upload `n` blocks would be held.
    #[error("{n} blocks are too many to hold")]
    Blocks { n: u64 },
}

impl Quota {
    /// Nothing is held.
    pub fn new() -> Quota
        ensures { result ≡ record { uploads = 0; blocks = 0 } }
    {
        Quota {
            uploads: 0,
            blocks: 0,
        }
    }

    /// How many uploads are held.
    pub fn uploads(&self) -> u64
        ensures uploads { result ≡ self.now.uploads }
        ensures few { result ≤ QUOTA_UPLOADS }
    {
        self.uploads
    }

    /// Whether one more upload, of `n` blocks, may be held.
    pub fn admit(&self, n: u64) -> Result<(), QuotaFull>
        requires { n ≤ MAX_BLOCKS }
        ensures ok { IsOk result ↔ Admits self.now n }
        ensures cause { IfErr result (IsQuotaCause self.now n) }
    {
        if self.uploads >= QUOTA_UPLOADS {
            return Err(QuotaFull::Uploads { n: self.uploads });
        }
        let blocks = self.blocks + n;
        if blocks > QUOTA_BLOCKS {
            return Err(QuotaFull::Blocks { n: blocks });
        }
        Ok(())
    }

    /// Holds one more upload, of `n` blocks.
    pub fn take(&mut self, n: u64)
        requires { Admits self.old n }
        ensures { self.new ≡ record { uploads = self.old.uploads + 1; blocks = self.old.blocks + n } }
    {
        self.uploads += 1;
        self.blocks += n;
    }
}

#[cfg(test)]
mod tests {
    use super::*;

    #[test]
    fn a_quota_is_full_of_blocks_or_of_uploads(rt: HostRuntime) {
        let mut quota = Quota::new();
        assert_eq!(rt; quota.admit(100_000), Ok(()));
        for n in [100_000, 100_000, 62_144] {
            if quota.admit(n).is_ok() {
                quota.take(n);
            }
        }
        assert_eq!(rt; quota.admit(1), Err(QuotaFull::Blocks { n: 262_145 }));
        for _upload in 3..256 {
            assert_eq!(rt; quota.admit(0), Ok(()));
            if quota.admit(0).is_ok() {
                quota.take(0);
            }
        }
        assert_eq!(rt; quota.uploads(), 256);
        assert_eq!(rt; quota.admit(0), Err(QuotaFull::Uploads { n: 256 }));
    }
}
