//! A C text as it is written.

use c_syntax::{CName, CResult, CStmt, CVar};
use vlt_base::Items;

/// A name that is declared, with its type: `vr_ref` or else `long long`.
#[derive(Clone, Copy, Debug, PartialEq, Eq)]
pub struct Declaration {
    pub reference: bool,
    pub variable: CVar,
}

/// The head of a function.
#[derive(Drop)]
pub struct Head {
    pub result: CResult,
    pub name: CName,
    pub params: Items<Declaration>,
}

/// A function with its body.
#[derive(Drop)]
pub struct Body {
    pub head: Head,
    pub vars: Items<Declaration>,
    pub stmts: Items<CStmt>,
}

/// Heads, and then functions with their bodies.
#[derive(Drop)]
pub struct Unit {
    /// The number of the function that VR_MAIN stands for.
    pub main: u64,
    pub heads: Vec<Head>,
    pub bodies: Vec<Body>,
}
