//! Places of statements, whether they end, and where blocks close.

ghost use Rattle.std.specs.Prelude.{◌≡◌};
ghost use Rattle.vlt_syntax.specs.View as tree;
ghost use Rattle.vlt_elaboration.specs.Blocks as b;
ghost use Rattle.vlt_elaboration.specs.Walk as w;

use vlt_core::rules::AFTER_END;
use vlt_kinds_types::LeastRefusal;
use vlt_syntax::{Arm, Block, Else, If, Stmt};

/// The place of a statement: its first byte.
pub fn stmt_place(stmt: &Stmt) -> u32
    ensures { result ≡ b.stmt_place (tree.stmt_of stmt.now) }
{
    match stmt {
        Stmt::Block(block) => block.at.from,
        Stmt::If(choice) => choice.at.from,
        Stmt::Declare { at, .. }
        | Stmt::Assign { at, .. }
        | Stmt::Put { at, .. }
        | Stmt::Call(_, at)
        | Stmt::Print(_, at)
        | Stmt::While { at, .. }
        | Stmt::Break(at)
        | Stmt::Continue(at)
        | Stmt::Return(_, at)
        | Stmt::Switch { at, .. }
        | Stmt::Release(_, at)
        | Stmt::Become { at, .. }
        | Stmt::Swap { at, .. }
        | Stmt::Open { at, .. }
        | Stmt::Focus { at, .. } => at.from,
    }
}

/// Whether a statement ends.
#[cycle(ends)]
pub fn ends(stmt: &Stmt) -> bool
    ensures { result ≡ b.ends (tree.stmt_of stmt.now) }
{
    match stmt {
        Stmt::Break(_) | Stmt::Continue(_) | Stmt::Return(..) => true,
        Stmt::Block(block) => block_ends(block),
        Stmt::If(choice) => if_ends(choice),
        Stmt::Switch { arms, .. } => arms_end(arms.as_slice()),
        _ => false,
    }
}

/// Whether a block's last statement ends.
#[cycle(ends)]
pub fn block_ends(block: &Block) -> bool
    ensures { result ≡ b.block_ends (tree.block_of block.now) }
{
    let mut last = false;
    for stmt in block.stmts.as_slice() {
        last = ends(stmt);
    }
    last
}

#[cycle(ends)]
fn if_ends(choice: &If) -> bool
    ensures { result ≡ b.if_ends (tree.if_of choice.now) }
{
    block_ends(&choice.then_block) && else_ends(&choice.otherwise)
}

#[cycle(ends)]
fn else_ends(other: &Else) -> bool
    ensures { result ≡ b.else_ends (tree.else_of other.now) }
{
    match other {
        Else::Nothing => false,
        Else::Last(block) => block_ends(block),
        Else::Chained(choice) => if_ends(choice.get()),
    }
}

#[cycle(ends)]
fn arms_end(arms: &[Arm]) -> bool
    ensures { result ≡ b.arms_end (tree.arms_of arms.now) }
{
    for arm in arms {
        if !block_ends(&arm.body) {
            return false;
        }
    }
    true
}

/// The place of a block's closing brace.
pub fn closing(block: &Block) -> u32
    ensures { result ≡ b.closing (tree.block_of block.now) }
{
    block.at.to.saturating_sub(1)
}

#[cycle(closing)]
fn if_closing(choice: &If) -> u32
    ensures { result ≡ b.if_closing (tree.if_of choice.now) }
{
    else_closing(closing(&choice.then_block), &choice.otherwise)
}

/// The place of the last closing brace of an `if`.
#[cycle(closing)]
pub fn else_closing(before: u32, other: &Else) -> u32
    ensures { result ≡ b.else_closing before (tree.else_of other.now) }
{
    match other {
        Else::Nothing => before,
        Else::Last(block) => closing(block),
        Else::Chained(choice) => if_closing(choice.get()),
    }
}

/// A statement after one that ends is refused.
#[tactic(auto, unfolding(vlt_elaboration::specs::Walk::late))]
pub fn late(ended: bool, stmt: &Stmt) -> LeastRefusal
    ensures { result.least ≡ w.late ended (tree.stmt_of stmt.now) }
{
    let mut found = LeastRefusal { least: None };
    found.add_if(ended, AFTER_END, stmt_place(stmt));
    found
}
