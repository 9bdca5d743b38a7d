//! The lowering: from a core program to the C program that stands for it; no code.
//! Read `specs/Slots.antt` first; the modules of `specs/Lib.antt` are in reading order.
//! Used by: `c_lower_runs::programs_are_lowered_rightly`.
#![tactic(auto)]
