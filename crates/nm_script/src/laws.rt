//! What follows from the definitions alone.

ghost use Rattle.std.specs.Prelude.{◌≡◌, ℕ, List};
ghost use Rattle.nm_rounds.specs.declared.step.WorldStep.{WorldStep as AStep};
ghost use Rattle.nm_script.specs.Script.{IsScript};

/// A text is the script of one list of steps at most.
pub fn a_text_says_one_script()
    ensures { (text : List ℕ) (one other : List AStep)
        → IsScript text one → IsScript text other → one ≡ other }
{}
