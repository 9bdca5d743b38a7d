//! Rows of functions and externals, without their statements.

ghost use Rattle.std.specs.Prelude.{◌≡◌, if◌then◌else◌, true, OnOk};
ghost use Rattle.vlt_core.specs.View.{func_of};
ghost use Rattle.cert_rows.specs.Values.{tagged_list};
ghost use Rattle.cert_rows.specs.Rows as row;
ghost use Rattle.cert_rows.specs.Rows.{fn_fields};
ghost use Rattle.cert_format.specs.Certificate.{fn_row};
ghost use Rattle.cert_values.specs.Heads.{plain_data};
ghost use Rattle.cert_values.specs.Laid.{laid};
ghost use Rattle.cert_values.specs.Declarations.Names.{HasTextFunc, IsNamed};

use crate::CertText;
use crate::declarations::heads::{put_clause, put_keys, put_result, put_vars};
use crate::declarations::names::{Unwritten, put_name};
use vlt_core::Func;

#[tactic(auto, using(crate::proofs::OfDeclarations::Counts::count_made))]
fn put_tagged(out: &mut CertText, tag: &str, f: &Func) -> Result<(), Unwritten>
    ensures value { OnOk result (out.new ≡ laid (tagged_list tag.now ((fn_fields true).items
        (fn_row (func_of f.now)))) out.old) }
    ensures named { HasTextFunc (func_of f.now) → IsNamed result }
{
    out.tag(tag)?;
    put_name(out, f.name.as_slice())?;
    put_result(out, &f.result)?;
    out.number(f.params as u64)?;
    put_clause(out, f.clause.as_slice())?;
    put_keys(out, f.keys.as_slice())?;
    put_vars(out, f.vars.as_slice())?;
    out.number(f.body.len() as u64)?;
    out.end()?;
    Ok(())
}

/// Writes the row of a function or an external, without its statements.
pub fn put_fn(out: &mut CertText, f: &Func) -> Result<(), Unwritten>
    ensures value { OnOk result (out.new ≡ laid (plain_data (if f.now.external
        then row.external (fn_row (func_of f.now)) else row.function (fn_row (func_of f.now))))
        out.old) }
    ensures named { HasTextFunc (func_of f.now) → IsNamed result }
{
    if f.external {
        put_tagged(out, "extern", f)
    } else {
        put_tagged(out, "fn", f)
    }
}
