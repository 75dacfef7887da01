use lj_board::Setting;
use std::marker::{Brand, PhantomData};

/// Names what one run serves: the sections of a script, its frame, and the history of the run's table. They exist in
/// proofs alone, and each caller chooses them.
pub trait Serving {
    ghost use Rattle.std.specs.Prelude.{List};
    ghost use Rattle.atomic_table.specs.Seated.{TableId};
    ghost use Rattle.lj_base.specs.Frames.{Top};
    ghost use Rattle.lj_script.specs.Values.{SectionValue};

    ghost frame: { Top };

    ghost sections: { List SectionValue };

    ghost history: { TableId };
}

// A call at `Brand` chooses the members in its proof, and so names a run of any script, whatever they are here.
impl Serving for Brand {
    ghost use Rattle.std.specs.Prelude.{[]};
    ghost use Rattle.lj_board.specs.Seen.{any_history};

    ghost frame = { record { top = record { v = 1; k = 1; t = 0 } } };

    ghost sections = { [] };

    ghost history = { any_history };
}

/// The setting of such a run: it allows the uploads that are accepted of its sections.
pub struct Accepting<S> {
    serving: PhantomData<S>,
}

impl<S: Serving> Setting for Accepting<S> {
    ghost use Rattle.lj_session.specs.AcceptedUploads.{IsAcceptedIn};

    ghost frame = { S.frame };

    ghost allowed = { IsAcceptedIn S.frame S.sections };

    ghost history = { S.history };
}
