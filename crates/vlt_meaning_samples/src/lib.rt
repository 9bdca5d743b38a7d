//! Worked programs, written as core programs: what their runs are told, and the rows of their statements.
//! Read `specs/Told.antt` first, then any of the programs, each below its text.
//! Used by: `c_lower_accepted`, for one program. Each is a theorem that is proved by computing.
#![tactic(auto)]

ghost use Rattle.vlt_core.specs.Derives.{IsAccepted};
ghost use Rattle.vlt_meaning_samples.specs.Told.{AreTold};
ghost use Rattle.vlt_meaning_samples.specs.Shown.{HaveRows};
ghost use Rattle.vlt_meaning_samples.specs.Sockets as sockets;
ghost use Rattle.vlt_meaning_samples.specs.Loops as loops;
ghost use Rattle.vlt_meaning_samples.specs.Adoption as adoption;
ghost use Rattle.vlt_meaning_samples.specs.Lists as lists;
ghost use Rattle.vlt_meaning_samples.specs.Locks as locks;
ghost use Rattle.vlt_meaning_samples.specs.Requests as requests;
ghost use Rattle.vlt_meaning_samples.specs.Levels as levels;
ghost use Rattle.vlt_meaning_samples.specs.Numbers as numbers;
ghost use Rattle.vlt_meaning_samples.specs.Damaged as damaged;
ghost use Rattle.vlt_meaning_samples.specs.Rows as rows;

/// Externals: sockets, locks and requests.
pub fn externals_are_told()
    ensures sockets { AreTold sockets.program sockets.runs }
    ensures locks { AreTold locks.program locks.runs }
    ensures requests { AreTold requests.program requests.runs }
    ensures levels { AreTold levels.program levels.runs }
    ensures raised { AreTold levels.program_raised levels.runs_raised }
    ensures read { levels.AreRead }
{}

/// A program with a bound entry is accepted: each instance of each body has a derivation.
pub fn levels_are_accepted()
    ensures { IsAccepted levels.program }
{}

/// An instance of a body breaks the rules on keys where another one doesn't.
pub fn levels_are_refused()
    ensures { levels.BreaksTheRules }
{}

/// Objects in one another, adopted and in focus.
pub fn owners_are_told()
    ensures adoption { AreTold adoption.program adoption.runs }
    ensures focus { AreTold adoption.program_focus adoption.runs_focus }
    ensures states { AreTold adoption.program_states adoption.runs_states }
    ensures lists { AreTold lists.program lists.runs }
{}

/// Loops and calls, numbers and budgets.
pub fn numbers_are_told()
    ensures loops { AreTold loops.program loops.runs }
    ensures traps { AreTold numbers.program_traps numbers.runs_traps }
    ensures zero { AreTold numbers.program_zero numbers.runs_zero }
    ensures depth { AreTold numbers.program_depth numbers.runs_depth }
    ensures input { AreTold numbers.program_input numbers.runs_input }
    ensures names { AreTold numbers.program_names numbers.runs_names }
{}

/// Programs that break the rules on keys end in a fault.
pub fn faults_are_told()
    ensures again { AreTold damaged.program_again damaged.runs_again }
    ensures kept { AreTold damaged.program_kept damaged.runs_kept }
    ensures raw { AreTold damaged.program_raw damaged.runs_raw }
    ensures field { AreTold damaged.program_field damaged.runs_field }
    ensures turn { AreTold damaged.program_turn damaged.runs_turn }
    ensures stale { AreTold damaged.program_stale damaged.runs_stale }
    ensures lent { AreTold damaged.program_lent damaged.runs_lent }
    ensures unfocused { AreTold damaged.program_unfocused damaged.runs_unfocused }
    ensures itself { AreTold damaged.program_itself damaged.runs_itself }
    ensures parted { AreTold damaged.program_parted damaged.runs_parted }
    ensures callee { AreTold damaged.program_callee damaged.runs_callee }
    ensures twice { AreTold damaged.program_twice damaged.runs_twice }
    ensures filled { AreTold damaged.program_filled damaged.runs_filled }
{}

/// The rows of statements.
pub fn statements_have_rows()
    ensures sockets { HaveRows sockets.program 4 rows.rows_of_sockets_main }
    ensures states { HaveRows adoption.program_states 0 rows.rows_of_states_main }
    ensures lists { HaveRows lists.program 0 rows.rows_of_lists_main }
    ensures handling { HaveRows requests.program 3 rows.rows_of_requests_handle }
    ensures requests { HaveRows requests.program 4 rows.rows_of_requests_main }
{}
