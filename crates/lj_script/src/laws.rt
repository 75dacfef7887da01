ghost use Rattle.std.specs.Prelude.{◌≡◌, ℕ, List};
ghost use Rattle.lj_script.specs.Faults.{IsScriptFault};
ghost use Rattle.lj_script.specs.Scripts.{IsScript};
ghost use Rattle.lj_script.specs.Values.{ScriptValue};
ghost use Rattle.lj_script.specs.declared.faults.ScriptFault.{ScriptFault};

/// Bytes spell at most one script, or else have at most one fault.
pub fn script_law()
    ensures script { (bytes : List ℕ) (a b : ScriptValue) → IsScript bytes a → IsScript bytes b → a ≡ b }
    ensures fault { (bytes : List ℕ) (f g : ScriptFault) → IsScriptFault bytes f → IsScriptFault bytes g → f ≡ g }
    ensures either { (bytes : List ℕ) (script : ScriptValue) (fault : ScriptFault)
        → IsScript bytes script → IsScriptFault bytes fault → ⊥ }
{}
