//! Statements without blocks.

ghost use Rattle.std.specs.Prelude.{◌≡◌, OnOk};
ghost use Rattle.vlt_syntax.specs.View.{name_of, names_of, ty_of, expr_of, right_of};
ghost use Rattle.vlt_base.specs.Layout.{◌▹◌, text};
ghost use Rattle.vlt_printer.specs.Lists.{listed_after};
ghost use Rattle.vlt_printer.specs.Layout.{name_after, ty_after, expr_after, right_after};

use crate::exprs::write_expr;
use crate::lists::{write_listed, write_text};
use crate::rights::write_right;
use crate::types::{write_name, write_ty};
use vlt_base::Memory;
use vlt_syntax::{Expr, Name, Right, Ty};

/// `x = 1;`
pub fn write_assign(out: &mut Vec<u8>, name: &Name, value: &Right) -> Result<(), Memory>
    ensures { OnOk result (out.new.items
        ≡ (name_after (name_of name.now) ▹ text " = "
        ▹ right_after (right_of value.now) ▹ text ";") out.old.items) }
{
    write_name(out, name)?;
    write_text(out, b" = ")?;
    write_right(out, value)?;
    write_text(out, b";")
}

/// `int x = 1;`
pub fn write_declare(out: &mut Vec<u8>, ty: &Ty, name: &Name, value: &Right) -> Result<(), Memory>
    ensures { OnOk result (out.new.items
        ≡ (ty_after (ty_of ty.now) ▹ text " " ▹ name_after (name_of name.now)
        ▹ text " = " ▹ right_after (right_of value.now) ▹ text ";") out.old.items) }
{
    write_ty(out, ty)?;
    write_text(out, b" ")?;
    write_assign(out, name, value)
}

/// `x.f = 1;`
pub fn write_put(out: &mut Vec<u8>, base: &Name, field: &Name, value: &Expr) -> Result<(), Memory>
    ensures { OnOk result (out.new.items
        ≡ (name_after (name_of base.now) ▹ text "." ▹ name_after (name_of field.now)
        ▹ text " = " ▹ expr_after (expr_of value.now) ▹ text ";") out.old.items) }
{
    write_name(out, base)?;
    write_text(out, b".")?;
    write_name(out, field)?;
    write_text(out, b" = ")?;
    write_expr(out, value)?;
    write_text(out, b";")
}

/// `print(1);`
pub fn write_print(out: &mut Vec<u8>, value: &Expr) -> Result<(), Memory>
    ensures { OnOk result (out.new.items
        ≡ (text "print(" ▹ expr_after (expr_of value.now) ▹ text ");") out.old.items) }
{
    write_text(out, b"print(")?;
    write_expr(out, value)?;
    write_text(out, b");")
}

/// `release x;`
pub fn write_release(out: &mut Vec<u8>, name: &Name) -> Result<(), Memory>
    ensures { OnOk result (out.new.items
        ≡ (text "release " ▹ name_after (name_of name.now) ▹ text ";") out.old.items) }
{
    write_text(out, b"release ")?;
    write_name(out, name)?;
    write_text(out, b";")
}

/// `become x@s;`
pub fn write_become(out: &mut Vec<u8>, variable: &Name, state: &Name) -> Result<(), Memory>
    ensures { OnOk result (out.new.items
        ≡ (text "become " ▹ name_after (name_of variable.now)
        ▹ text "@" ▹ name_after (name_of state.now) ▹ text ";") out.old.items) }
{
    write_text(out, b"become ")?;
    write_name(out, variable)?;
    write_text(out, b"@")?;
    write_name(out, state)?;
    write_text(out, b";")
}

/// `swap x.f, v;`
pub fn write_swap(
    out: &mut Vec<u8>,
    base: &Name,
    field: &Name,
    variable: &Name,
) -> Result<(), Memory>
    ensures { OnOk result (out.new.items
        ≡ (text "swap " ▹ name_after (name_of base.now)
        ▹ text "." ▹ name_after (name_of field.now)
        ▹ text ", " ▹ name_after (name_of variable.now) ▹ text ";") out.old.items) }
{
    write_text(out, b"swap ")?;
    write_name(out, base)?;
    write_text(out, b".")?;
    write_name(out, field)?;
    write_text(out, b", ")?;
    write_name(out, variable)?;
    write_text(out, b";")
}

/// `open x into (v, w);`
pub fn write_open(out: &mut Vec<u8>, variable: &Name, parts: &[Name]) -> Result<(), Memory>
    ensures { OnOk result (out.new.items
        ≡ (text "open " ▹ name_after (name_of variable.now)
        ▹ text " into (" ▹ listed_after name_after (names_of parts.now)
        ▹ text ");") out.old.items) }
{
    write_text(out, b"open ")?;
    write_name(out, variable)?;
    write_text(out, b" into (")?;
    write_listed(out, parts)?;
    write_text(out, b");")
}

/// `focus y as tracked(K) z`, with a space after it.
pub fn write_focus(
    out: &mut Vec<u8>,
    variable: &Name,
    key: &Name,
    alias: &Name,
) -> Result<(), Memory>
    ensures { OnOk result (out.new.items
        ≡ (text "focus " ▹ name_after (name_of variable.now)
        ▹ text " as tracked(" ▹ name_after (name_of key.now)
        ▹ text ") " ▹ name_after (name_of alias.now) ▹ text " ") out.old.items) }
{
    write_text(out, b"focus ")?;
    write_name(out, variable)?;
    write_text(out, b" as tracked(")?;
    write_name(out, key)?;
    write_text(out, b") ")?;
    write_name(out, alias)?;
    write_text(out, b" ")
}
