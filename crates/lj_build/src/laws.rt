ghost use Rattle.std.specs.Prelude.{◌≡◌, Bool, ℕ, List};
ghost use Rattle.lj_base.specs.Cells.{IsCell};
ghost use Rattle.lj_base.specs.Frames.{Top};
ghost use Rattle.lj_cover.specs.Rules.{Upload};
ghost use Rattle.lj_script.specs.Values.{SectionValue};
ghost use Rattle.lj_session.specs.AcceptedUploads.{AreAcceptedOfAll};
ghost use Rattle.lj_session.specs.declared.ends.SessionEnd.{SessionEnd};
ghost use Rattle.lj_table.specs.Tables.{Contents};
ghost use Rattle.lj_build.specs.Closing.{IsClosed};
ghost use Rattle.lj_build.specs.Runs.{AreBuilt, IsReport, report_of, uploads_of};

use lj_base::cells_law;
use lj_cover::laws::least_is_one;

/// The closing report of given uploads is one text, however the bounds were found. The uploads of sections that were
/// built are those that are accepted of the sections; and a table with which a run is closed has the bounds of its
/// report.
pub fn one_report_law()
    ensures text { (f : Top) (us : List Upload) (json : Bool) (a b : List ℕ) → IsCell f.top
        → IsReport f us json a → IsReport f us json b → a ≡ b }
    ensures accepted { (f : Top) (earlier : List Upload) (sections : List SectionValue) (ends : List SessionEnd)
        → AreBuilt f earlier sections ends → AreAcceptedOfAll f sections (uploads_of ends) }
    ensures closed { (f : Top) (us : List Upload) (t : Contents) (json : Bool) → IsClosed f us t
        → IsReport f us json (report_of f json t.bounds) }
{
    cells_law();
    least_is_one();
}
