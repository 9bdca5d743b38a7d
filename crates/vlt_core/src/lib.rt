//! Core: a program whose names are numbers, and what the rules on keys say of it; no code but look-ups.
//! Read `specs/Core.antt` first, then the modules of `specs/Lib.antt` in their order.
//! Used by: the check, the runs, the lowering and the certificate.
#![tactic(auto)]

mod held;
mod lookups;
mod notes;
mod program;
pub mod rules;

pub use held::{After, FaultKind, FlowFault, Row, Status, Tok, Wanted};
pub use lookups::{Bound, Reference, VariantOf};
pub use notes::{Annotation, Choice, Note, Pick, TokMap, Witness};
pub use program::{
    Arm, Block, CaseDecl, Entry, Expr, FieldDecl, Form, Func, KeyDecl, Link, Mode, Operand,
    Program, SetDecl, Stmt, Ty, TypeDecl, VarDecl,
};
