//! A C program and budgets in; what its run is out: events, fuel and outcome. Definitions alone.
//! Read `specs/Run.antt` (c_run) first, then `specs/Primitives.antt` and `specs/Blocks.antt`.
//! Used by: `c_interp::CMachine::go`, which is this run.
#![tactic(auto)]
