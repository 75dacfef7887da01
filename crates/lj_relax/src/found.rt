ghost use Rattle.std.specs.Prelude.{◌≡◌};
ghost use Rattle.lj_relax.specs.Found.{found_cost};

use lj_induced::InducedChoice;
use lj_product::ProductChoice;
use lj_rules::Choice;

/// An instance of least price at a cell, by its kind; `Nothing` where the cell has no instance.
#[derive(Clone, Copy, Debug, PartialEq, Eq)]
pub enum Found {
    Elementary { choice: Choice },
    Product { choice: ProductChoice },
    Induced { choice: InducedChoice },
    Nothing,
}

impl Found {
    /// The price, where there is an instance.
    pub fn cost(&self) -> Option<u64>
        ensures { result ≡ found_cost self.now }
    {
        match self {
            Found::Elementary { choice } => Some(choice.cost),
            Found::Product { choice } => Some(choice.cost),
            Found::Induced { choice } => Some(choice.cost),
            Found::Nothing => None,
        }
    }
}
