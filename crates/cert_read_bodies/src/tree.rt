//! Statements as rows give them: a block says how many it has, and may break off before.

use cert_read_rows::PlainRow;
use vlt_base::{Boxed, Items, VarId};
use vlt_core::{Expr, Tok, TokMap};

/// A statement as its rows give it.
#[cycle(drafts)]
#[derive(Drop)]
pub enum Draft {
    /// A statement without blocks.
    Plain(Boxed<PlainRow>),
    /// The maps after it are one for each instance; without them the row has 0.
    If(Boxed<Expr>, Block, Block, Option<Items<TokMap>>),
    While(Boxed<Expr>, Block, Items<TokMap>, Items<TokMap>),
    Switch(VarId, Items<Arm>, Option<Items<TokMap>>),
    Focus(VarId, VarId, Block),
    Scope(Block),
}

/// An arm of a switch.
#[cycle(drafts)]
#[derive(Drop)]
pub struct Arm {
    pub case: u8,
    pub vars: Items<VarId>,
    pub body: Block,
}

/// A block: how many statements it is to have, the tokens bound in it, and the statements that are there.
#[cycle(drafts)]
#[derive(Drop)]
pub struct Block {
    pub count: u32,
    pub bound: Items<Tok>,
    pub stmts: Items<Draft>,
}
