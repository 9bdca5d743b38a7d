//! The lines of all faults: a program and its text go in; the line of each fault comes out, with paths that show it if they
//! are asked for.
//! Read `specs/Lines.antt` first.
//! Used by: the replies of `faults` and `paths`.
#![tactic(auto)]

ghost use Rattle.vlt_core.specs.Core.{Program};
ghost use Rattle.vlt_all_faults_lines.specs.Laws.{HasOneFaultsText, FaultsBeginWithFirst, PathsBeginWithFirst, AcceptedHaveNoFaults};

mod faults;
mod paths;

pub use faults::all_faults;
pub use paths::all_paths;
use vlt_all_faults_laws::{
    a_program_has_one_listing, accepted_programs_have_none, listings_begin_with_the_first_fault,
};

/// A program has one text of all its faults.
pub fn a_program_has_one_faults_text()
    ensures { (p : Program) → HasOneFaultsText p }
{
    a_program_has_one_listing();
}

/// The text of all faults begins with the line that `check` writes.
pub fn faults_begin_with_the_first()
    ensures { (p : Program) → FaultsBeginWithFirst p }
{
    listings_begin_with_the_first_fault();
}

/// The text of all paths begins with the lines that `explain` writes, of a witness of the first fault.
pub fn paths_begin_with_the_first()
    ensures { (p : Program) → PathsBeginWithFirst p }
{
    listings_begin_with_the_first_fault();
}

/// The text of all faults of an accepted program tells none.
pub fn accepted_programs_have_no_faults()
    ensures { (p : Program) → AcceptedHaveNoFaults p }
{
    accepted_programs_have_none();
}
