//! Paths by their choices: a program, a fault and choices go in, and whether they are paths that show the fault comes out.
//! Read of vlt_core `specs/Witness.antt` first, then `specs/Along.antt` and `specs/Shown.antt`.
//! Used by: whoever is handed a witness, which is tested here without the search that found it and without memory.
#![tactic(auto)]

ghost use Rattle.std.specs.Prelude.{◌↔◌, IsTrue, None};
ghost use Rattle.std.specs.Option.{option_map};
ghost use Rattle.vlt_core.specs.FaultView.{choices_of};
ghost use Rattle.vlt_core.specs.View.{program_of};
ghost use Rattle.vlt_core.specs.Witness.{IsWitness};
ghost use Rattle.vlt_paths.specs.Shown.{fault_view};

mod along;
mod comes;
mod judge;
mod numbers;
mod pair;
mod passing;
mod point;
mod together;

use crate::judge::{func_at, is_join_witness, is_shown_in};
use vlt_core::{Choice, FlowFault, Program, Witness};

/// Whether one path alone is a witness of the fault: it comes to a row of the fault's place, token and wanted status, which
/// refuses what comes. It takes no memory.
pub fn is_row_witness(p: &Program, fault: &FlowFault, path: &[Choice]) -> bool
    ensures { IsTrue result ↔ IsWitness (program_of p.now) (fault_view fault.now)
        (choices_of path.now) None }
{
    match func_at(p, fault.fn_id) {
        None => false,
        Some(f) => is_shown_in(p, f, fault, path),
    }
}

/// Whether the choices are those of a witness of the fault: one path to a row that refuses, or two to one join that
/// disagree there. It takes no memory.
pub fn is_witness(p: &Program, w: &Witness) -> bool
    ensures { IsTrue result ↔ IsWitness (program_of p.now) (fault_view w.now.fault)
        (choices_of w.now.first) (option_map choices_of w.now.second) }
{
    match &w.second {
        None => is_row_witness(p, &w.fault, w.first.as_slice()),
        Some(second) => is_join_witness(p, &w.fault, w.first.as_slice(), second.as_slice()),
    }
}
