//! Assignments.

ghost use Rattle.std.specs.Prelude.{◌≡◌};
ghost use Rattle.c_syntax.specs.View.{expr_of};
ghost use Rattle.c_meaning.specs.Primitives.{set_does, put_does, base_of};

use crate::halt::{Halt, done};
use crate::world::World;
use c_memory::Ref;
use c_syntax::rules::UNSET;
use c_syntax::{CCell, CExpr};
use c_values::{Value, Vars, base, eval};

/// The number of the `p` variable of a cell.
fn base_number(x: CCell) -> u64
    ensures { result ≡ base_of x }
{
    match x {
        CCell::Number { base, .. } => base,
        CCell::Reference { base, .. } => base,
    }
}

impl World<'_> {
    ghost use Rattle.c_primitives.specs.Shown.{IsReady, DoesSilently, DoesWrite};

    /// The value that is assigned to a variable.
    pub fn set(&mut self, e: &CExpr, vars: Vars) -> Result<Option<Value>, Halt>
        requires ready { IsReady self.old }
        ensures { DoesSilently self.old self.new vars.entry result (set_does (expr_of e.now)) }
    {
        match eval(e, vars, &self.blocks) {
            Ok(a) => Ok(Some(a)),
            Err(rule) => Err(Halt::Broken(rule)),
        }
    }

    /// Writes a value to a cell of a block.
    fn write(&mut self, x: CCell, b: Option<Ref>, a: Value) -> Result<Option<Value>, Halt>
        requires ready { IsReady self.old }
        ensures { DoesWrite x b a self.old self.new result }
    {
        match x {
            CCell::Number { index, .. } => match a {
                Value::Number(z) => done(self.blocks.write_n(b, index, z)),
                Value::Reference(_) => Err(Halt::Broken(UNSET)),
            },
            CCell::Reference { index, .. } => match a {
                Value::Reference(p) => done(self.blocks.write_r(b, index, p)),
                Value::Number(_) => Err(Halt::Broken(UNSET)),
            },
        }
    }

    /// Assigns a value to a cell of a block.
    pub fn put(&mut self, x: CCell, e: &CExpr, vars: Vars) -> Result<Option<Value>, Halt>
        requires ready { IsReady self.old }
        ensures { DoesSilently self.old self.new vars.entry result (put_does x (expr_of e.now)) }
    {
        match base(base_number(x), vars) {
            Ok(b) => match eval(e, vars, &self.blocks) {
                Ok(a) => self.write(x, b, a),
                Err(rule) => Err(Halt::Broken(rule)),
            },
            Err(rule) => Err(Halt::Broken(rule)),
        }
    }
}
