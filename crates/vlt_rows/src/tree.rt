//! The flow of a body: its statements with the rows of each.

use vlt_base::Items;
use vlt_core::{Row, Tok};

/// A statement at its place.
#[cycle(flow)]
#[derive(Drop)]
pub struct FlowStmt {
    pub at: u32,
    pub flow: Flow,
}

/// Statements, with the tokens that they bind and the place of the closing brace.
#[cycle(flow)]
#[derive(Drop)]
pub struct FlowBlock {
    pub stmts: Items<FlowStmt>,
    pub bound: Items<Tok>,
    pub end: u32,
}

#[cycle(flow)]
#[derive(Drop)]
pub struct FlowArm {
    pub rows: Items<Row>,
    pub body: FlowBlock,
}

/// A statement by its rows.
#[cycle(flow)]
#[derive(Drop)]
pub enum Flow {
    /// A statement without blocks that goes on to the next one.
    Step {
        rows: Items<Row>,
    },
    If {
        rows: Items<Row>,
        then_block: FlowBlock,
        else_block: FlowBlock,
    },
    While {
        rows: Items<Row>,
        body: FlowBlock,
    },
    /// `end` is the place of the closing brace.
    Switch {
        rows: Items<Row>,
        arms: Items<FlowArm>,
        end: u32,
    },
    Scope {
        body: FlowBlock,
    },
    /// With the rows after its body.
    Focus {
        rows: Items<Row>,
        body: FlowBlock,
        after: Items<Row>,
    },
    Return {
        rows: Items<Row>,
    },
    /// With the tokens of the scopes that it leaves.
    Jump {
        continues: bool,
        left: Items<Tok>,
    },
}
