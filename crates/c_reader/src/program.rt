//! The program that a text stands for.

ghost use Rattle.std.specs.Prelude.{◌≡◌, None, false, true, map, IfOk, IfSome};
ghost use Rattle.std.specs.List.Sorted.{IsPermutation, IsSorted};
ghost use Rattle.c_syntax.specs.Kinds.{has_main, heads_of, names_of};
ghost use Rattle.c_syntax.specs.Programs.{variable_order, IsFuncOf, AreFuncsOf, bodies_of, IsProgramOf};
ghost use Rattle.c_syntax.specs.View.{func_of, program_of};
ghost use Rattle.c_parser.specs.View.{body_of, declaration_of, unit_of};
ghost use Rattle.c_reader.specs.Found.{has_number, IsNumberedAt};

use c_parser::{Body, Declaration, Unit};
use c_syntax::{CFunc, CProgram, CVar};
use std::alloc::Global;
use vlt_base::{Items, Memory};

/// The names that are declared.
fn names(alloc: Global, declarations: &[Declaration]) -> Result<Vec<CVar>, Memory>
    ensures { IfOk result (λ names. names.items
        ≡ names_of (map declaration_of declarations.now)) }
{
    let mut names = Vec::with_capacity(alloc, declarations.len())?;
    for declaration in declarations {
        names.push(declaration.variable)?;
    }
    Ok(names)
}

/// The names that are declared, in order.
fn sorted_names(alloc: Global, declarations: &[Declaration]) -> Result<Vec<CVar>, Memory>
    ensures declares { IfOk result (λ names. IsPermutation
        (names_of (map declaration_of declarations.now)) names.items) }
    ensures sorted { IfOk result (λ names. IsSorted variable_order names.items) }
{
    let mut names = names(alloc, declarations)?;
    names.sort_unstable();
    Ok(names)
}

/// A function of the program.
fn func(alloc: Global, body: Body) -> Result<CFunc, Memory>
    ensures { IfOk result (λ f. IsFuncOf (body_of body) (func_of f)) }
{
    let Body { head, vars, stmts } = body;
    Ok(CFunc {
        number: head.name.number,
        result: head.result,
        params: Items::from_vec(names(alloc, head.params.as_slice())?),
        vars: Items::from_vec(sorted_names(alloc, vars.as_slice())?),
        body: stmts,
    })
}

/// The functions of glue, and the others.
#[derive(Drop)]
struct Funcs {
    glue: Items<CFunc>,
    fns: Items<CFunc>,
}

/// The functions of a text, in the order of their bodies, those of glue apart.
fn split_glue(alloc: Global, bodies: Vec<Body>) -> Result<Funcs, Memory>
    ensures glue { IfOk result (λ x. AreFuncsOf (bodies_of true (map body_of bodies.items))
        (map func_of x.glue)) }
    ensures fns { IfOk result (λ x. AreFuncsOf (bodies_of false (map body_of bodies.items))
        (map func_of x.fns)) }
{
    let mut glue = Items::new(alloc);
    let mut fns = Items::new(alloc);
    for body in bodies {
        if body.head.name.glue {
            glue.push(func(alloc, body)?)?;
        } else {
            fns.push(func(alloc, body)?)?;
        }
    }
    Ok(Funcs { glue, fns })
}

/// The position of the first function of that number.
fn position(number: u64, fns: &[CFunc]) -> Option<usize>
    ensures found { IfSome result (IsNumberedAt number (map func_of fns.now)) }
    ensures none { result ≡ None → has_number number (map func_of fns.now) ≡ false }
{
    for at in 0..fns.len() {
        if fns[at].number == number {
            return Some(at);
        }
    }
    None
}

/// The program of a text that has the function which VR_MAIN stands for.
pub fn program(alloc: Global, unit: Unit) -> Result<CProgram, Memory>
    requires main { has_main (unit_of unit).main (heads_of (unit_of unit).bodies) ≡ true }
    ensures { IfOk result (λ p. IsProgramOf (unit_of unit) (program_of p)) }
{
    let Unit {
        main,
        heads,
        bodies,
    } = unit;
    drop(heads);
    let Funcs { glue, fns } = split_glue(alloc, bodies)?;
    let Some(position) = position(main, fns.as_slice()) else {
        unreachable!();
    };
    let Ok(main) = u32::try_from(position) else {
        return Err(Memory);
    };
    Ok(CProgram { glue, fns, main })
}
