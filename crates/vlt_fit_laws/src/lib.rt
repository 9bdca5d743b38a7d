//! Laws on the core programs of texts: they are all that the check and the law on runs ask for. Nothing goes in and nothing comes out.
//! Read `specs/Fit.antt` first.
//! Used by: verdicts, and through them the promise of `check`; the laws on modules, on certificates and on C programs.
#![tactic(auto)]

mod narrow;
mod sizes;
mod texts;

ghost use Rattle.vlt_fit_laws.specs.Fit.{ProgramsAreFit};
ghost use Rattle.vlt_fit_laws.specs.Unfit.{OnlyBodiesAreUnfit};

pub use narrow::declared_externals_are_narrow;
pub use sizes::{declared_sets_are_small, declared_structs_are_small};
pub use texts::texts_have_text_trees;
use vlt_resolve_laws::{
    elaborated_programs_are_kinded, elaborated_programs_have_arms,
    elaborated_programs_have_blank_externals, elaborated_programs_have_few_functions,
    elaborated_programs_have_few_keys, elaborated_programs_have_few_variables,
    elaborated_programs_have_proper_bodies, elaborated_programs_have_sets,
    elaborated_programs_have_states,
};

/// The core program of a tree that a text has is all that the check and the law on runs ask for.
pub fn programs_are_fit()
    ensures { ProgramsAreFit }
{
    elaborated_programs_are_kinded();
    elaborated_programs_have_states();
    elaborated_programs_have_arms();
    elaborated_programs_have_proper_bodies();
    elaborated_programs_have_sets();
    elaborated_programs_have_few_variables();
    elaborated_programs_have_few_keys();
    elaborated_programs_have_few_functions();
    elaborated_programs_have_blank_externals();
    declared_sets_are_small();
    declared_structs_are_small();
    declared_externals_are_narrow();
}

/// Where a program of the code that the check may be asked of is unfit for it, one of its bodies is: a row of it names states
/// of which there is no set, it has 2^62 statements or more, or it is refused and something in it has no number.
pub fn only_bodies_are_unfit()
    ensures { OnlyBodiesAreUnfit }
{}
