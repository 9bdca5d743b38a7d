//! Runs: a core program, with budgets, input and answers, to events and an outcome; no code.
//! Read `specs/Run.antt` last: the modules of `specs/Lib.antt` are in reading order.
//! Used by: the machine, and the laws that no run of an accepted program ends in a fault.
#![tactic(auto)]
