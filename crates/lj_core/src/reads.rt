use std::marker::Model;

/// Bounds in the order in which they were read, seen as their list.
#[derive(Debug, Drop)]
pub struct Reads {
    bounds: Vec<u64>,
}

impl Model for Reads {
    ghost use Rattle.std.specs.Prelude.{List, ℕ};

    ghost Value = { List ℕ };

    ghost view = { λ r. r.bounds.items };
}

impl Reads {
    ghost use Rattle.std.specs.Prelude.{◌≡◌};

    pub fn of(items: Vec<u64>) -> Reads
        ensures { result ≡ items.items }
    {
        Reads { bounds: items }
    }

    pub fn items(&self) -> &[u64]
        ensures { result.now ≡ self.now }
    {
        &self.bounds
    }

    pub fn into_vec(self) -> Vec<u64>
        ensures { result.items ≡ self }
    {
        let Reads { bounds } = self;
        bounds
    }
}
