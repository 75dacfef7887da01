use std::marker::Brand;

/// Names one run: the frame on which it works, which uploads it allows, and which history its table has. All three
/// exist in proofs alone.
pub trait Setting {
    ghost use Rattle.lj_base.specs.Frames.{Top};
    ghost use Rattle.lj_cover.specs.Rules.{Upload};
    ghost use Rattle.atomic_table.specs.Seated.{TableId};

    ghost frame: { Top };

    ghost allowed: { Upload → Type 0 };

    ghost history: { TableId };
}

// A call at `Brand` chooses the members in its proof, and so names any run, whatever they are here.
impl Setting for Brand {
    ghost use Rattle.lj_board.specs.Seen.{any_history};

    ghost frame = { record { top = record { v = 1; k = 1; t = 0 } } };

    ghost allowed = { λ upload. ⊥ };

    ghost history = { any_history };
}
