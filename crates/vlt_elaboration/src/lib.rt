//! Elaboration: from a tree with the table of its kinds to the core program, or to what refuses a body; no code.
//! Read `specs/Elaboration.antt` first, then `Walk`; the modules of `specs/Lib.antt` are in an order in which each names those before it.
//! Used by: the code of elaboration, and the laws on elaborated programs, which name no code.
#![tactic(auto)]
