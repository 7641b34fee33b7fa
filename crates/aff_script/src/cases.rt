//! The definitions, computed on small inputs: each function is a law, and does nothing.
ghost use Rattle.std.specs.Prelude.{◌≡◌, ◌∷◌, [], codes};
ghost use Rattle.aff_script.specs.Line.{IsLine};
ghost use Rattle.aff_script.specs.Script.{said_by, script_lines};
ghost use Rattle.aff_script.specs.declared.line.Said.TheVariants.{Ask, Begin};
ghost use Rattle.aff_script.specs.declared.script.Request.TheVariants.{After, Await, Raise, Read};

/// The lines of a script, where the first one is the fifth of the text: comments and empty lines count.
pub fn lines_have_numbers()
    ensures { script_lines 5 (codes "session\n# x\n\nafter\n") ≡ (5, codes "session") ∷ (8, codes "after") ∷ [] }
{}

/// What the lines of two sessions say, the second of which asks nothing.
pub fn sessions_say()
    ensures { said_by ((Read 446 66 ∷ After ∷ []) ∷ [] ∷ []) ≡ Begin ∷ Ask (Read 446 66) ∷ Ask After ∷ Begin ∷ [] }
{}

/// What each form of a line says.
pub fn lines_say()
    ensures session { IsLine (codes "session") Begin }
    ensures read { IsLine (codes "read 4 6") (Ask (Read 4 6)) }
    ensures raise { IsLine (codes "raise 0 9") (Ask (Raise 0 9)) }
    ensures waits { IsLine (codes "await 2") (Ask (Await 2)) }
    ensures after { IsLine (codes "after") (Ask After) }
{}
