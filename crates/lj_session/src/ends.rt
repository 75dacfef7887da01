use lj_upload::Accepted;
use std::marker::Model;

/// The text of all replies of a session, seen as its bytes.
#[derive(Debug, Drop)]
pub struct Replies {
    bytes: Vec<u8>,
}

impl Model for Replies {
    ghost use Rattle.std.specs.Prelude.{ℕ, List};

    ghost Value = { List ℕ };

    ghost view = { λ r. r.bytes.items };
}

impl Replies {
    ghost use Rattle.std.specs.Prelude.{◌≡◌};

    pub fn of(items: Vec<u8>) -> Replies
        ensures { result ≡ items.items }
    {
        Replies { bytes: items }
    }

    pub fn items(&self) -> &[u8]
        ensures { result.now ≡ self.now }
    {
        &self.bytes
    }

    pub fn into_vec(self) -> Vec<u8>
        ensures { result.items ≡ self }
    {
        let Replies { bytes } = self;
        bytes
    }
}

/// Accepted uploads in order, seen as their list.
#[derive(Debug, Drop)]
pub struct Uploads {
    uploads: Vec<Accepted>,
}

impl Model for Uploads {
    ghost use Rattle.std.specs.Prelude.{List};
    ghost use Rattle.lj_cover.specs.Rules.{Upload};

    ghost Value = { List Upload };

    ghost view = { λ u. u.uploads.items };
}

impl Uploads {
    ghost use Rattle.std.specs.Prelude.{◌≡◌};

    pub fn of(items: Vec<Accepted>) -> Uploads
        ensures { result ≡ items.items }
    {
        Uploads { uploads: items }
    }

    pub fn items(&self) -> &[Accepted]
        ensures { result.now ≡ self.now }
    {
        &self.uploads
    }

    pub fn into_vec(self) -> Vec<Accepted>
        ensures { result.items ≡ self }
    {
        let Uploads { uploads } = self;
        uploads
    }
}

/// What a session ends with: its replies, and the client's uploads that were accepted.
#[derive(Debug, Drop)]
pub struct SessionEnd {
    pub replies: Replies,
    pub accepted: Uploads,
}
