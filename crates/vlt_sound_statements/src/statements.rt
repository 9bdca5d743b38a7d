//! The laws of all statements and of bodies.

ghost use Rattle.std.specs.Prelude.{◌≡◌, ℕ, false, []};
ghost use Rattle.vlt_core.specs.Core.{Stmts, Func};
ghost use Rattle.vlt_core.specs.Derives.{start_map, IsAcceptedFunc};
ghost use Rattle.vlt_core.specs.KindedBodies.{first_ids, body_rows, end_broken};
ghost use Rattle.vlt_meaning.specs.World.{World, Frame};
ghost use Rattle.vlt_meaning.specs.Run.{Setup, Meaning, does_stmts, out_of_fuel};
ghost use Rattle.vlt_sound_worlds.specs.Agrees.{Context, Agrees};
ghost use Rattle.vlt_sound_worlds.specs.Safe.{Safe};
ghost use Rattle.vlt_sound_worlds.specs.Scoped.{IsScoped};
ghost use Rattle.vlt_sound_calls.specs.Returned.{IsEntered, returns_to};
ghost use Rattle.vlt_sound_statements.specs.Kinded.{BreakNone};
ghost use Rattle.vlt_sound_statements.specs.Statements.{AreSafe, RestIsSafe};
ghost use Rattle.vlt_sound_statements.specs.Parts.{HasSafeParts};

/// Statements are safe where what they are made of is, and what comes after a unit of fuel was spent; where there is no fuel,
/// nothing comes.
pub fn statements_are_safe()
    ensures all { (r : Setup) (rest_of : Meaning) (f : Func) → HasSafeParts r rest_of f →
        RestIsSafe r rest_of f → (ss : Stmts) → AreSafe r f ss (does_stmts r rest_of f ss) }
    ensures none { (r : Setup) (f : Func) → RestIsSafe r out_of_fuel f }
{}

/// An accepted body that breaks no rule on names and types leaves what its clause says.
pub fn bodies_are_safe()
    ensures { (r : Setup) (rest_of : Meaning) (f : Func) (c : Context) (frame : Frame)
        (w : World) → HasSafeParts r rest_of f → RestIsSafe r rest_of f → f.external ≡ false →
        IsAcceptedFunc r.program f → BreakNone (body_rows r.program f) →
        end_broken r.program f ≡ [] → IsEntered r.program f c →
        IsScoped f c (first_ids r.program f) →
        Agrees r.program f c (start_map r.program f)
        (first_ids r.program f) [] frame w.objects →
        Safe (returns_to r.program f c) (does_stmts r rest_of f f.body frame w) }
{}
