//! What is left to do.

use c_syntax::{CFunc, CResult, CStmt, CVar};

/// A caller: where its values begin, its function, whether this is glue, the number of the call, its target, and what the
/// callee gives.
#[derive(Clone, Copy)]
pub struct Caller<'a> {
    pub base: usize,
    pub func: &'a CFunc,
    pub is_glue: bool,
    pub n: u32,
    pub target: Option<CVar>,
    pub given: CResult,
}

/// What is left to do.
#[derive(Clone, Copy)]
pub enum Task<'a> {
    /// Statements, of which the first has that number.
    List(u32, &'a [CStmt]),
    /// A loop, of which a turn comes next.
    Again(u32, &'a [CStmt]),
    Back(Caller<'a>),
    /// The function that the run began with.
    Bottom(CResult),
}
