//! Laws on the C programs of accepted programs, and of those of trees: nothing goes in and nothing comes out.
//! Read `specs/Promise.antt` first, then `specs/Accepted.antt` and `specs/Texts.antt`.
//! Used by: the command `emit`, which promises them.
#![tactic(auto)]

ghost use Rattle.c_lower_accepted.specs.Accepted.{AcceptedRunAlike, AcceptedAreDefined};
ghost use Rattle.c_lower_accepted.specs.Texts.{TreesRunAlike, TreesAreDefined};

use vlt_fit_laws::programs_are_fit;

/// A run of an accepted program and that of its C program have the same outcome, event text and fuel left, and the second
/// breaks no rule of C.
pub fn accepted_programs_are_lowered_rightly()
    ensures alike { AcceptedRunAlike }
    ensures defined { AcceptedAreDefined }
{}

/// So do a run of the program of an accepted tree, as texts have them, and that of its C program, and the second breaks no
/// rule of C.
pub fn trees_are_lowered_rightly()
    ensures alike { TreesRunAlike }
    ensures defined { TreesAreDefined }
{
    programs_are_fit();
}
