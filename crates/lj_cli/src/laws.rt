ghost use Rattle.std.specs.Prelude.{◌≡◌, ◌⊎◌, ℕ, List, ◌≤◌, IfSome, length};
ghost use Rattle.lj_base.specs.Cells.{IsCell};
ghost use Rattle.lj_base.specs.Streams.{Appends, Rose};
ghost use Rattle.lj_build.specs.Runs.{IsBuildOutput};
ghost use Rattle.lj_greedy.specs.Greedy.{greedy_list};
ghost use Rattle.lj_greedy.specs.Reduced.{reduced};
ghost use Rattle.lj_script.specs.Faults.{IsScriptFault};
ghost use Rattle.lj_script.specs.Scripts.{IsScript};
ghost use Rattle.lj_cli.specs.BuildOutput.{EndsWithReport, IsBuildCommandOutput, script_fault_line};
ghost use Rattle.lj_cli.specs.CheckOutput.{IsCheckOutput};
ghost use Rattle.lj_cli.specs.CountOutput.{AreNeeded, HasReduced, HasSums, IsExcessOutput, IsGreedyOutput};
ghost use Rattle.lj_cli.specs.CountOutput.{IsReduceOutput, reduced_text};
ghost use Rattle.lj_cli.specs.Ends.{Ends, EndsUnread, EndsWithOutput, EndsWithText, EndsWithUsage, IsComplete};
ghost use Rattle.lj_cli.specs.Ends.{usage_text};
ghost use Rattle.lj_cli.specs.GoodWords.{GoodWords};
ghost use Rattle.lj_cli.specs.Running.{HasBuilt};

use crate::status::{BAD_WORDS, DONE, FAULTY, NO_MEMORY};
use lj_base::MAX_INPUT;
use lj_blockfile::one_reading_law;
use lj_build::one_report_law;
use lj_cover::laws::schonheim_bounds;
use lj_excess::excess_law;
use lj_greedy::{greedy_law, reduced_law};
use lj_script::script_law;
use lj_session::one_outcome_law;
use lj_verify::outcome_law;

/// A list of words calls for at most one command.
pub fn words_law()
    ensures { (words : _) (c d : _) → GoodWords words c → GoodWords words d → c ≡ d }
{}

/// Where no read and no write fails: a command that reads an input, which its source reports, prints an output that
/// belongs to the input, or refuses it as too large; a generated script and a greedy covering are printed whole; or
/// memory runs out. Words that call for nothing end with the usage line.
pub fn complete_law()
    ensures check { (c : _) (i : _) (o : _) (ended : _) → Ends (IsCheckOutput c) i o ended →
        IsComplete (IsCheckOutput c) i o ended }
    ensures build { (json : _) (i : _) (o : _) (ended : _) → Ends (IsBuildCommandOutput json) i o ended →
        IsComplete (IsBuildCommandOutput json) i o ended }
    ensures excess { (c : _) (i : _) (o : _) (ended : _) → Ends (IsExcessOutput c) i o ended →
        IsComplete (IsExcessOutput c) i o ended }
    ensures reduced { (c : _) (i : _) (o : _) (ended : _) → Ends (IsReduceOutput c) i o ended →
        IsComplete (IsReduceOutput c) i o ended }
    ensures generated { (text : List ℕ) (i : _) (o : _) (ended : _) → EndsUnread (EndsWithText text) i o ended →
        (Rose o.faults o.faults_now → ⊥) →
        ((ended ≡ DONE) × Appends o.written o.written_now text) ⊎ (ended ≡ NO_MEMORY) }
    ensures greedy { (c : _) (i : _) (o : _) (ended : _) → EndsUnread (EndsWithOutput (IsGreedyOutput c)) i o ended →
        (Rose o.faults o.faults_now → ⊥) →
        ((text : List ℕ) × IsGreedyOutput c text ended × Appends o.written o.written_now text)
        ⊎ (ended ≡ NO_MEMORY) }
    ensures usage { (i : _) (o : _) (ended : _) → EndsWithUsage i o ended → (Rose o.faults o.faults_now → ⊥) →
        (ended ≡ BAD_WORDS) × Appends o.written o.written_now usage_text }
{}

/// The bytes of an input have one text and one status for each command that counts the sets of a covering, and a cell
/// has one for its greedy covering.
pub fn count_output_law()
    ensures excess { (c : _) (bytes text other : List ℕ) (status ended : ℕ) → IsExcessOutput c bytes text status →
        IsExcessOutput c bytes other ended → (text ≡ other) × (status ≡ ended) }
    ensures reduced { (c : _) (bytes text other : List ℕ) (status ended : ℕ) → IsReduceOutput c bytes text status →
        IsReduceOutput c bytes other ended → (text ≡ other) × (status ≡ ended) }
    ensures greedy { (c : _) (text other : List ℕ) (status ended : ℕ) → IsGreedyOutput c text status →
        IsGreedyOutput c other ended → (text ≡ other) × (status ≡ ended) }
{
    one_reading_law();
    outcome_law();
}

/// What is printed with status 0: sums by which the blocks exceed a covering of each set once, and no fewer blocks than
/// Schönheim's number; blocks of the input, or of the greedy covering, that cover, and do not without any one of them.
pub fn count_law()
    ensures excess { (c : _) (bytes text : List ℕ) → IsCell c → IsExcessOutput c bytes text DONE →
        HasSums c bytes text }
    ensures reduced { (c : _) (bytes text : List ℕ) → IsReduceOutput c bytes text DONE → HasReduced c bytes text }
    ensures greedy { (c : _) (text : List ℕ) → IsCell c → IsGreedyOutput c text DONE →
        (text ≡ reduced_text c (greedy_list c)) × AreNeeded c (reduced c (greedy_list c)) }
{
    excess_law();
    schonheim_bounds();
    reduced_law();
    greedy_law();
}

/// The bytes of an input have one text and one status for a check of a cell.
pub fn output_law()
    ensures { (c : _) (bytes text other : List ℕ) (status ended : ℕ) → IsCheckOutput c bytes text status →
        IsCheckOutput c bytes other ended → (text ≡ other) × (status ≡ ended) }
{
    one_reading_law();
    outcome_law();
}

/// A build of bytes that spell a script has the script's output, and one of bytes with a fault has the fault's line.
/// Two builds of a script end with one report, that of the uploads which are accepted of it.
pub fn build_output_law()
    ensures script { (json : _) (bytes text : List ℕ) (status : ℕ) (script : _) →
        IsBuildCommandOutput json bytes text status → IsScript bytes script →
        (status ≡ DONE) × IsBuildOutput script json text }
    ensures fault { (json : _) (bytes text : List ℕ) (status : ℕ) (fault : _) →
        IsBuildCommandOutput json bytes text status → IsScriptFault bytes fault →
        (status ≡ FAULTY) × (text ≡ script_fault_line fault) }
    ensures report { (script : _) (json : _) (bytes text other : List ℕ) (status ended : ℕ) → IsScript bytes script →
        IsBuildCommandOutput json bytes text status → IsBuildCommandOutput json bytes other ended →
        (report : List ℕ) × EndsWithReport script json text report × EndsWithReport script json other report }
{
    script_law();
    one_report_law();
    one_outcome_law();
}

/// Of an input within the limit that its source reports, where no read and no write fails: a build of a script ends
/// well and prints what the script comes to, and one of bytes with a fault prints the fault's line; or memory runs out.
pub fn build_complete_law()
    ensures script { (json : _) (i : _) (o : _) (ended : _) (script : _) →
        Ends (IsBuildCommandOutput json) i o ended → IfSome i.left (λ all. length all ≤ MAX_INPUT →
        IsScript all script →
        (Rose i.faults i.faults_now → ⊥) → (Rose o.faults o.faults_now → ⊥) →
        HasBuilt script json o ended ⊎ (ended ≡ NO_MEMORY)) }
    ensures fault { (json : _) (i : _) (o : _) (ended : _) (fault : _) →
        Ends (IsBuildCommandOutput json) i o ended → IfSome i.left (λ all. length all ≤ MAX_INPUT →
        IsScriptFault all fault →
        (Rose i.faults i.faults_now → ⊥) → (Rose o.faults o.faults_now → ⊥) →
        ((ended ≡ FAULTY) × Appends o.written o.written_now (script_fault_line fault)) ⊎ (ended ≡ NO_MEMORY)) }
{
    script_law();
}
