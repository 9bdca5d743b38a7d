//! What all faults of a program are, and the laws on them: nothing goes in and nothing comes out.
//! Read `specs/Each.antt` first, then `specs/Laws.antt`.
//! Used by: `vlt_all_faults`, which lists them, and the replies of `faults` and `paths`.
#![tactic(auto)]

ghost use Rattle.std.specs.Prelude.{List};
ghost use Rattle.vlt_core.specs.Core.{Func, Program};
ghost use Rattle.vlt_core.specs.Derives.{IsAccepted};
ghost use Rattle.vlt_core_laws.specs.Fit.{IsWellFormed};
ghost use Rattle.vlt_all_faults_laws.specs.Each.{Finding, AreAllFindings};
ghost use Rattle.vlt_all_faults_laws.specs.Laws.{HasOneList, HasOneListing, AreNone, BeginsWithFirst};

/// A function has one list of faults.
pub fn a_function_has_one_list()
    ensures { (p : Program) (f : Func) → HasOneList p f }
{}

/// A program has one listing of faults.
pub fn a_program_has_one_listing()
    ensures { (p : Program) → HasOneListing p }
{}

/// The first fault that is listed is the first fault of the program.
pub fn listings_begin_with_the_first_fault()
    ensures { (p : Program) → BeginsWithFirst p }
{}

/// A program that is accepted has no fault that is listed.
pub fn accepted_programs_have_none()
    ensures { (p : Program) (all : List (List Finding)) → IsWellFormed p → IsAccepted p →
        AreAllFindings p all → AreNone all }
{}
