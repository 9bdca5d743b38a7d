//! Statements. `indent` is what each line of the block around begins with.

ghost use Rattle.std.specs.Prelude.{◌≡◌, OnOk, IfOk};
ghost use Rattle.vlt_syntax.specs.View.{stmt_of, stmts_of, block_of, if_of, else_of, arms_of, name_of};
ghost use Rattle.vlt_syntax.specs.Tree.{switch as a_switch};
ghost use Rattle.vlt_base.specs.declared.places.Span.{Span};
ghost use Rattle.vlt_printer.specs.Layout.{deeper as one_deeper, stmt_after, stmts_after, block_after, if_after, else_after, arms_after};

use crate::exprs::write_expr;
use crate::lists::{write_enclosed, write_text};
use crate::rights::{write_call, write_returned};
use crate::simple::{
    write_assign, write_become, write_declare, write_focus, write_open, write_print, write_put,
    write_release, write_swap,
};
use crate::types::write_name;
use std::alloc::Global;
use vlt_base::Memory;
use vlt_syntax::{Arm, Block, Else, If, Name, Stmt};

/// What each line of a block in this one begins with.
fn deeper(alloc: Global, indent: &[u8]) -> Result<Vec<u8>, Memory>
    ensures { IfOk result (λ d. d.items ≡ one_deeper indent.now) }
{
    let mut inside = Vec::new(alloc);
    inside.extend_from_slice(indent)?;
    inside.extend_from_slice(b"    ")?;
    Ok(inside)
}

#[cycle(statements)]
pub fn write_block(
    alloc: Global,
    out: &mut Vec<u8>,
    indent: &[u8],
    block: &Block,
) -> Result<(), Memory>
    ensures { OnOk result (out.new.items ≡ block_after indent.now (block_of block.now)
        out.old.items) }
{
    if block.stmts.as_slice().is_empty() {
        return write_text(out, b"{}");
    }
    write_text(out, b"{\n")?;
    let inside = deeper(alloc, indent)?;
    write_stmts(alloc, out, inside.as_slice(), block.stmts.as_slice())?;
    write_text(out, indent)?;
    write_text(out, b"}")
}

/// Writes each statement on a line of its own.
#[cycle(statements)]
fn write_stmts(
    alloc: Global,
    out: &mut Vec<u8>,
    indent: &[u8],
    stmts: &[Stmt],
) -> Result<(), Memory>
    ensures { OnOk result (out.new.items ≡ stmts_after indent.now (stmts_of stmts.now)
        out.old.items) }
{
    for stmt in stmts {
        write_text(out, indent)?;
        write_stmt(alloc, out, indent, stmt)?;
        write_text(out, b"\n")?;
    }
    Ok(())
}

/// Writes a statement, without its indentation and its line feed.
#[cycle(statements)]
fn write_stmt(alloc: Global, out: &mut Vec<u8>, indent: &[u8], stmt: &Stmt) -> Result<(), Memory>
    ensures { OnOk result (out.new.items ≡ stmt_after indent.now (stmt_of stmt.now)
        out.old.items) }
{
    match stmt {
        Stmt::Declare {
            ty,
            name,
            value,
            ..
        } => write_declare(out, ty, name, value),
        Stmt::Assign { name, value, .. } => write_assign(out, name, value),
        Stmt::Put {
            base,
            field,
            value,
            ..
        } => write_put(out, base, field, value),
        Stmt::Call(call, _) => {
            write_call(out, call)?;
            write_text(out, b";")
        }
        Stmt::Print(value, _) => write_print(out, value),
        Stmt::Block(body) => write_block(alloc, out, indent, body),
        Stmt::If(choice) => write_if(alloc, out, indent, choice),
        Stmt::While {
            condition,
            body,
            ..
        } => {
            write_text(out, b"while (")?;
            write_expr(out, condition)?;
            write_text(out, b") ")?;
            write_block(alloc, out, indent, body)
        }
        Stmt::Break(_) => write_text(out, b"break;"),
        Stmt::Continue(_) => write_text(out, b"continue;"),
        Stmt::Return(returned, _) => {
            write_text(out, b"return")?;
            write_returned(out, returned)?;
            write_text(out, b";")
        }
        Stmt::Switch { variable, arms, .. } => {
            write_switch(alloc, out, indent, variable, arms.as_slice())
        }
        Stmt::Release(name, _) => write_release(out, name),
        Stmt::Become {
            variable,
            state,
            ..
        } => write_become(out, variable, state),
        Stmt::Swap {
            base,
            field,
            variable,
            ..
        } => write_swap(out, base, field, variable),
        Stmt::Open {
            variable,
            parts,
            ..
        } => write_open(out, variable, parts.as_slice()),
        Stmt::Focus {
            variable,
            key,
            alias,
            body,
            ..
        } => {
            write_focus(out, variable, key, alias)?;
            write_block(alloc, out, indent, body)
        }
    }
}

#[cycle(statements)]
fn write_if(alloc: Global, out: &mut Vec<u8>, indent: &[u8], choice: &If) -> Result<(), Memory>
    ensures { OnOk result (out.new.items ≡ if_after indent.now (if_of choice.now) out.old.items) }
{
    write_text(out, b"if (")?;
    write_expr(out, &choice.condition)?;
    write_text(out, b") ")?;
    write_block(alloc, out, indent, &choice.then_block)?;
    write_else(alloc, out, indent, &choice.otherwise)
}

#[cycle(statements)]
fn write_else(
    alloc: Global,
    out: &mut Vec<u8>,
    indent: &[u8],
    otherwise: &Else,
) -> Result<(), Memory>
    ensures { OnOk result (out.new.items ≡ else_after indent.now (else_of otherwise.now)
        out.old.items) }
{
    match otherwise {
        Else::Nothing => Ok(()),
        Else::Last(body) => {
            write_text(out, b" else ")?;
            write_block(alloc, out, indent, body)
        }
        Else::Chained(choice) => {
            write_text(out, b" else ")?;
            write_if(alloc, out, indent, choice.get())
        }
    }
}

/// `switch (v) { case 'A: { } }`
#[cycle(statements)]
fn write_switch(
    alloc: Global,
    out: &mut Vec<u8>,
    indent: &[u8],
    variable: &Name,
    arms: &[Arm],
) -> Result<(), Memory>
    ensures { (at : Span) → OnOk result (out.new.items
        ≡ stmt_after indent.now (a_switch (name_of variable.now) (arms_of arms.now) at)
        out.old.items) }
{
    write_text(out, b"switch (")?;
    write_name(out, variable)?;
    if arms.is_empty() {
        return write_text(out, b") {}");
    }
    write_text(out, b") {\n")?;
    let inside = deeper(alloc, indent)?;
    write_arms(alloc, out, inside.as_slice(), arms)?;
    write_text(out, indent)?;
    write_text(out, b"}")
}

/// Writes each arm on lines of its own.
#[cycle(statements)]
fn write_arms(alloc: Global, out: &mut Vec<u8>, indent: &[u8], arms: &[Arm]) -> Result<(), Memory>
    ensures { OnOk result (out.new.items ≡ arms_after indent.now (arms_of arms.now)
        out.old.items) }
{
    for arm in arms {
        write_text(out, indent)?;
        write_text(out, b"case ")?;
        write_name(out, &arm.case)?;
        write_enclosed(out, b"(", b")", arm.variables.as_slice())?;
        write_text(out, b": ")?;
        write_block(alloc, out, indent, &arm.body)?;
        write_text(out, b"\n")?;
    }
    Ok(())
}
