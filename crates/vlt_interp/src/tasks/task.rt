//! What is left to do.

use vlt_acts::{Focus, Host, Values, Waiting};
use vlt_core::{Block, Expr, Func, Program, Stmt};
use vlt_heap::Heap;

/// What is left to do.
#[derive(Clone, Copy)]
pub enum Task<'a> {
    List(&'a [Stmt]),
    /// The end of a block.
    Closing,
    /// A loop, whose body was begun.
    Turn(&'a Expr, &'a Block),
    /// The end of a focus.
    Unfocus(Focus),
    Back(Waiting<'a>),
}

/// Where the last statement came to.
#[derive(Clone, Copy)]
pub enum At {
    /// The next statement.
    Goes,
    /// The next turn or the end of a loop.
    Jumps { continues: bool },
    /// The function's end; the value that it gives stands at the end of the table.
    Leaves,
}

/// What a run keeps as it is.
#[derive(Clone, Copy)]
pub struct Rules<'a> {
    pub program: &'a Program,
    pub depth: u32,
}

/// A run under way: the running function with what is left to do, the next task last, and the tables.
#[derive(Drop)]
pub struct Run<'a, 'h> {
    pub func: &'a Func,
    pub tasks: Vec<Task<'a>>,
    pub at: At,
    /// How many functions are running.
    pub depth: u32,
    pub fuel: u64,
    pub values: Values,
    pub heap: Heap,
    pub host: Host<'h>,
}
