//! What has a value without code.

ghost use Rattle.std.specs.Prelude.{◌≡◌};
ghost use Rattle.c_syntax.specs.View.{arg_of, expr_of};
ghost use Rattle.c_lower.specs.Expressions.{atom_arg, atom_expr};
ghost use Rattle.c_lower_exprs.specs.Coded.{atom_of};

use c_syntax::{CArg, CExpr, CVar};

/// What has a value without code.
#[derive(Clone, Copy)]
pub enum Atom {
    Number(i64),
    Var(CVar),
    Null,
}

impl Atom {
    pub fn expr(self) -> CExpr
        ensures { expr_of result ≡ atom_expr (atom_of self) }
    {
        match self {
            Atom::Number(value) => CExpr::Number(value),
            Atom::Var(variable) => CExpr::Var(variable),
            Atom::Null => CExpr::Null,
        }
    }

    pub fn arg(self) -> CArg
        ensures { arg_of result ≡ atom_arg (atom_of self) }
    {
        match self {
            Atom::Number(value) => CArg::Number(value),
            Atom::Var(variable) => CArg::Var(variable),
            Atom::Null => CArg::Null,
        }
    }
}
