use lj_session::SessionEnd;
use std::marker::Model;

/// The ends of sessions in order, seen as their list.
#[derive(Debug, Drop)]
pub struct Ends {
    ends: Vec<SessionEnd>,
}

impl Model for Ends {
    ghost use Rattle.std.specs.Prelude.{List};
    ghost use Rattle.lj_session.specs.declared.ends.SessionEnd.{SessionEnd};

    ghost Value = { List SessionEnd };

    ghost view = { λ e. e.ends.items };
}

impl Ends {
    ghost use Rattle.std.specs.Prelude.{◌≡◌};

    pub fn of(items: Vec<SessionEnd>) -> Ends
        ensures { result ≡ items.items }
    {
        Ends { ends: items }
    }

    pub fn items(&self) -> &[SessionEnd]
        ensures { result.now ≡ self.now }
    {
        &self.ends
    }

    pub fn into_vec(self) -> Vec<SessionEnd>
        ensures { result.items ≡ self }
    {
        let Ends { ends } = self;
        ends
    }
}
