ghost use Rattle.std.specs.Prelude.{◌≡◌, ◌⊎◌, ℕ, List, ◌≤◌, IfSome, length};
ghost use Rattle.lj_base.specs.Streams.{Appends, Rose};
ghost use Rattle.lj_script.specs.Faults.{IsScriptFault};
ghost use Rattle.lj_script.specs.Scripts.{IsScript};
ghost use Rattle.lj_cli.specs.BigOutput.{IsBigCommandOutput};
ghost use Rattle.lj_cli.specs.BuildOutput.{IsBuildCommandOutput, script_fault_line};
ghost use Rattle.lj_cli.specs.Ends.{Ends, EndsUnread, EndsWithOutput, IsComplete};
ghost use Rattle.lj_cli.specs.Headline.{HasHeadline, IsHeadline};
ghost use Rattle.lj_cli.specs.Running.{HasServed};
ghost use Rattle.lj_cli.specs.ServeOutput.{HaveOneReport, IsServeCommandOutput, IsServeOutput};

use crate::status::{DONE, FAULTY, NO_MEMORY};
use lj_base::MAX_INPUT;
use lj_blockfile::one_reading_law;
use lj_build::one_report_law;
use lj_cover::laws::expansion_covers;
use lj_script::script_law;
use lj_session::{accepted_law, one_outcome_law};
use lj_verify::outcome_law;

/// What `serve` prints of a script keeps the promises of the headline; so a run that ends with status 0 does.
pub fn headline_law()
    ensures output { (bytes text : List ℕ) (script : _) (json : _) → IsScript bytes script →
        IsServeOutput script json text → IsHeadline script json text }
    ensures run { (json : _) (i : _) (o : _) (ended : ℕ) → Ends (IsServeCommandOutput json) i o ended →
        HasHeadline json i o ended }
{
    one_reading_law();
    outcome_law();
    one_outcome_law();
    accepted_law();
    expansion_covers();
    one_report_law();
}

/// What `serve` and `build` print of the same bytes ends, but for the line of whether the table was made anew, in the
/// same report, byte by byte.
pub fn equal_reports_law()
    ensures { (json : _) (bytes text other : List ℕ) → IsServeCommandOutput json bytes text DONE →
        IsBuildCommandOutput json bytes other DONE → HaveOneReport json bytes text other }
{
    one_outcome_law();
    one_report_law();
    script_law();
}

/// Where no read and no write fails, a run of `serve` on an input that its source reports prints an output that belongs
/// to the input, or refuses it as too large, and the summary of a generated script is printed whole; or memory runs
/// out.
pub fn served_whole_law()
    ensures serve { (json : _) (i : _) (o : _) (ended : _) → Ends (IsServeCommandOutput json) i o ended →
        IsComplete (IsServeCommandOutput json) i o ended }
    ensures big { (m : ℕ) (i : _) (o : _) (ended : _) → EndsUnread (EndsWithOutput (IsBigCommandOutput m)) i o ended →
        (Rose o.faults o.faults_now → ⊥) →
        ((text : List ℕ) × IsBigCommandOutput m text ended × Appends o.written o.written_now text)
        ⊎ (ended ≡ NO_MEMORY) }
{}

/// A run of `serve` on bytes that spell a script has one of the script's outputs, and one on bytes with a fault has the
/// fault's line. Of an input within the limit that its source reports, where no read and no write fails, it is printed
/// whole; or memory runs out.
pub fn serve_complete_law()
    ensures script { (json : _) (i : _) (o : _) (ended : _) (script : _) →
        Ends (IsServeCommandOutput json) i o ended → IfSome i.left (λ all. length all ≤ MAX_INPUT →
        IsScript all script →
        (Rose i.faults i.faults_now → ⊥) → (Rose o.faults o.faults_now → ⊥) →
        HasServed script json o ended ⊎ (ended ≡ NO_MEMORY)) }
    ensures fault { (json : _) (i : _) (o : _) (ended : _) (fault : _) →
        Ends (IsServeCommandOutput json) i o ended → IfSome i.left (λ all. length all ≤ MAX_INPUT →
        IsScriptFault all fault →
        (Rose i.faults i.faults_now → ⊥) → (Rose o.faults o.faults_now → ⊥) →
        ((ended ≡ FAULTY) × Appends o.written o.written_now (script_fault_line fault)) ⊎ (ended ≡ NO_MEMORY)) }
{
    script_law();
}
