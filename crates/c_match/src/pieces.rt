//! A C program in pieces, in the order of its text.

ghost use Rattle.std.specs.Prelude.{◌≡◌, ◌++◌, map, length, IfOk, OnOk};
ghost use Rattle.std.specs.List.{flat_map};
ghost use Rattle.c_syntax.specs.View.{func_of, stmt_of, stmts_of};
ghost use Rattle.c_match.specs.Pieces as p;
ghost use Rattle.c_match.specs.Seen.{piece_seen};

use c_syntax::{CExpr, CFunc, CStmt, CVar};
use std::alloc::Global;
use vlt_base::{Items, Memory};

/// A piece of a C program.
#[derive(Clone, Copy)]
pub enum Piece<'a> {
    /// The function that a run begins with, and the functions whose heads come first: those of externals, and the others.
    Heads(u64, &'a [CFunc], &'a [CFunc]),
    /// The variables that a function declares.
    Variables(&'a [CVar]),
    /// A statement without blocks.
    Plain(&'a CStmt),
    If(&'a CExpr),
    Else,
    Loop,
    /// The brace that closes a block or a function.
    End,
}

#[cycle(laying)]
fn add_stmt<'a>(stmt: &'a CStmt, out: &mut Items<Piece<'a>>) -> Result<(), Memory>
    ensures { OnOk result (map piece_seen out.new
        ≡ map piece_seen out.old ++ p.stmt_pieces (stmt_of stmt.now)) }
{
    match stmt {
        CStmt::If(test, body) => {
            out.push(Piece::If(test))?;
            add_stmts(body.as_slice(), out)?;
            out.push(Piece::End)?;
        }
        CStmt::IfElse(test, body, other) => {
            out.push(Piece::If(test))?;
            add_stmts(body.as_slice(), out)?;
            out.push(Piece::End)?;
            out.push(Piece::Else)?;
            add_stmts(other.as_slice(), out)?;
            out.push(Piece::End)?;
        }
        CStmt::While(body) => {
            out.push(Piece::Loop)?;
            add_stmts(body.as_slice(), out)?;
            out.push(Piece::End)?;
        }
        _ => out.push(Piece::Plain(stmt))?,
    }
    Ok(())
}

#[cycle(laying)]
fn add_stmts<'a>(stmts: &'a [CStmt], out: &mut Items<Piece<'a>>) -> Result<(), Memory>
    ensures { OnOk result (map piece_seen out.new
        ≡ map piece_seen out.old ++ p.list_pieces (stmts_of stmts.now)) }
{
    for stmt in stmts {
        add_stmt(stmt, out)?;
    }
    Ok(())
}

fn add_func<'a>(func: &'a CFunc, out: &mut Items<Piece<'a>>) -> Result<(), Memory>
    ensures { OnOk result (map piece_seen out.new
        ≡ map piece_seen out.old ++ p.func_pieces (func_of func.now)) }
{
    out.push(Piece::Variables(func.vars.as_slice()))?;
    add_stmts(func.body.as_slice(), out)?;
    out.push(Piece::End)?;
    Ok(())
}

fn add_funcs<'a>(funcs: &'a [CFunc], out: &mut Items<Piece<'a>>) -> Result<(), Memory>
    ensures { OnOk result (map piece_seen out.new
        ≡ map piece_seen out.old ++ flat_map p.func_pieces (map func_of funcs.now)) }
{
    for func in funcs {
        add_func(func, out)?;
    }
    Ok(())
}

/// All pieces of a program.
pub fn program_pieces<'a>(
    alloc: Global,
    main: u64,
    glue: &'a [CFunc],
    fns: &'a [CFunc],
) -> Result<Items<Piece<'a>>, Memory>
    ensures { IfOk result (λ out. map piece_seen out ≡ p.program_pieces (record {
      glue = map func_of glue.now;
      fns = map func_of fns.now;
      main = main;
    })) }
{
    let mut out = Items::new(alloc);
    out.push(Piece::Heads(main, glue, fns))?;
    add_funcs(glue, &mut out)?;
    add_funcs(fns, &mut out)?;
    Ok(out)
}

/// How many pieces statements are.
pub fn count_code(alloc: Global, code: &[CStmt]) -> Result<usize, Memory>
    ensures { IfOk result (λ n. n ≡ length (p.list_pieces (stmts_of code.now))) }
{
    let mut out = Items::new(alloc);
    add_stmts(code, &mut out)?;
    Ok(out.len())
}

/// How many pieces functions are, without their heads.
pub fn count_funcs(alloc: Global, funcs: &[CFunc]) -> Result<usize, Memory>
    ensures { IfOk result (λ n. n ≡ length (flat_map p.func_pieces (map func_of funcs.now))) }
{
    let mut out = Items::new(alloc);
    add_funcs(funcs, &mut out)?;
    Ok(out.len())
}
