//! The names of functions in C: those with a body and externals are numbered apart.

ghost use Rattle.std.specs.Prelude.{◌≡◌, IfOk};
ghost use Rattle.vlt_core.specs.View.{program_of};
ghost use Rattle.c_lower.specs.Statements as s;
ghost use Rattle.c_lower_exprs.specs.Names.{AreNames};

use crate::numbers::successor;
use c_syntax::CName;
use std::alloc::Global;
use vlt_base::{FnId, Items, Memory};
use vlt_core::Program;

/// The name of each function, by its number, and how many functions have a body.
#[derive(Drop)]
pub struct Names {
    pub names: Items<CName>,
    pub bodies: u64,
}

/// The names of a program's functions.
pub fn names_of(alloc: Global, program: &Program) -> Result<Names, Memory>
    ensures { IfOk result (λ x. AreNames (program_of program.now) x) }
{
    let mut names = Items::new(alloc);
    let mut bodies = 0;
    let mut glue = 0;
    for func in program.fns.as_slice() {
        if func.external {
            names.push(CName {
                glue: true,
                number: glue,
            })?;
            glue = successor(glue)?;
        } else {
            names.push(CName {
                glue: false,
                number: bodies,
            })?;
            bodies = successor(bodies)?;
        }
    }
    Ok(Names { names, bodies })
}

/// The name of a function. A number that no function has gets the name after the last body's.
pub fn name_of(program: &Program, names: &Names, f: FnId) -> CName
    requires { AreNames (program_of program.now) names.now }
    ensures { result ≡ s.name_of (program_of program.now) f.0 }
{
    let _fns = program.fns.len();
    match names.names.get(f.0 as usize) {
        Some(name) => *name,
        None => CName {
            glue: false,
            number: names.bodies,
        },
    }
}
