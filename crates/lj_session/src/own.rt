ghost use Rattle.std.specs.Prelude.{◌≡◌, ◌≤◌, ◌∷◌, ◌++◌, [], OnErr, OnOk, length};
ghost use Rattle.lj_session.specs.Outcomes.{held};
ghost use Rattle.lj_upload.specs.Quotas.{Admits};

use lj_base::Memory;
use lj_upload::{Accepted, QUOTA_UPLOADS, Quota};
use std::alloc::Global;
use std::marker::Model;

// The uploads of a client that were accepted, with the quota that holds them, seen as their list.
#[derive(Debug, Drop)]
pub(crate) struct Own {
    uploads: Vec<Accepted>,
    quota: Quota,
}

impl Model for Own {
    ghost use Rattle.std.specs.Prelude.{◌≡◌, List};
    ghost use Rattle.lj_cover.specs.Rules.{Upload};
    ghost use Rattle.lj_session.specs.Outcomes.{held};

    ghost Value = { List Upload };

    ghost view = { λ o. o.uploads.items };

    ghost invariant = { λ o. o.quota ≡ held o.uploads.items };
}

impl Own {
    pub(crate) fn new(alloc: Global) -> Own
        ensures { result ≡ [] }
    {
        Own {
            uploads: Vec::new(alloc),
            quota: Quota::new(),
        }
    }

    pub(crate) fn items(&self) -> &[Accepted]
        ensures items { result.now ≡ self.now }
        ensures few { length result.now ≤ QUOTA_UPLOADS }
    {
        let _held = self.quota.uploads();
        &self.uploads
    }

    pub(crate) fn quota(&self) -> &Quota
        ensures { result.now ≡ held self.now }
    {
        &self.quota
    }

    // Adds an upload that the quota admits.
    pub(crate) fn push(&mut self, up: Accepted) -> Result<(), Memory>
        requires { Admits (held self.old) (length up.blocks) }
        ensures ok { OnOk result (self.new ≡ self.old ++ up ∷ []) }
        ensures err { OnErr result (self.new ≡ self.old) }
    {
        let blocks = up.design().blocks().len() as u64;
        self.uploads.push(up)?;
        self.quota.take(blocks);
        Ok(())
    }

    pub(crate) fn into_vec(self) -> Vec<Accepted>
        ensures items { result.items ≡ self }
        ensures few { length result.items ≤ QUOTA_UPLOADS }
    {
        let _few = self.items().len();
        let Own { uploads, .. } = self;
        uploads
    }
}
