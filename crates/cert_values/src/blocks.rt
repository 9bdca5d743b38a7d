//! Heads of blocks and arms, and rows of statements with one block.

ghost use Rattle.std.specs.Prelude.{◌≡◌, ◌∷◌, [], map, OnOk};
ghost use Rattle.vlt_core.specs.View.{block_of, arms_of, vars_of, tok_of};
ghost use Rattle.cert_rows.specs.Parts.{list, nat};
ghost use Rattle.cert_rows.specs.Values.{token};
ghost use Rattle.cert_rows.specs.Rows as row;
ghost use Rattle.cert_rows.specs.Rows.{head, arm};
ghost use Rattle.cert_values.specs.Heads.{head_of, heads_of, arm_head, plain_data};
ghost use Rattle.cert_values.specs.Laid.{laid};

use crate::parts::{put_toks, put_vars};
use crate::text::CertText;
use std::alloc::AllocError;
use vlt_base::VarId;
use vlt_core::{Arm, Block, Tok};

fn put_counted(out: &mut CertText, count: usize, bound: &[Tok]) -> Result<(), AllocError>
    ensures { OnOk result (out.new ≡ laid (list (nat count
        ∷ list (map token.data_of (map tok_of bound.now)) ∷ [])) out.old) }
{
    out.begin()?;
    out.number(count as u64)?;
    put_toks(out, bound)?;
    out.end()
}

/// Writes how many statements a block has, and the tokens that it binds.
pub fn put_head(out: &mut CertText, block: &Block) -> Result<(), AllocError>
    ensures { OnOk result (out.new ≡ laid (head.data_of (head_of (block_of block.now))) out.old) }
{
    put_counted(out, block.stmts.len(), block.bound.as_slice())
}

fn put_arm_row(
    out: &mut CertText,
    case: u8,
    vars: &[VarId],
    count: usize,
    bound: &[Tok],
) -> Result<(), AllocError>
    ensures { OnOk result (out.new ≡ laid (arm.data_of (
      case,
      vars_of vars.now,
      count,
      map tok_of bound.now,
    )) out.old) }
{
    out.begin()?;
    out.number(case as u64)?;
    put_vars(out, vars)?;
    out.number(count as u64)?;
    put_toks(out, bound)?;
    out.end()
}

fn put_arm(out: &mut CertText, item: &Arm) -> Result<(), AllocError>
    ensures { OnOk result (out.new ≡ laid (arm.data_of (arm_head item.now)) out.old) }
{
    put_arm_row(
        out,
        item.case,
        item.vars.as_slice(),
        item.body.stmts.len(),
        item.body.bound.as_slice(),
    )
}

fn put_each_arm(out: &mut CertText, arms: &[Arm]) -> Result<(), AllocError>
    ensures { OnOk result (out.new
        ≡ laid (list (map arm.data_of (map arm_head arms.now))) out.old) }
{
    out.begin()?;
    for item in arms {
        put_arm(out, item)?;
    }
    out.end()
}

/// Writes the heads of the arms.
pub fn put_arms(out: &mut CertText, arms: &[Arm]) -> Result<(), AllocError>
    ensures { OnOk result (out.new
        ≡ laid (list (map arm.data_of (heads_of (arms_of arms.now)))) out.old) }
{
    put_each_arm(out, arms)
}

/// Writes the row of a `focus`.
pub fn put_focus(out: &mut CertText, y: VarId, z: VarId, body: &Block) -> Result<(), AllocError>
    ensures { OnOk result (out.new
        ≡ laid (plain_data (row.focus y.0 z.0 (head_of (block_of body.now)))) out.old) }
{
    out.tag("focus")?;
    out.number(y.0 as u64)?;
    out.number(z.0 as u64)?;
    put_head(out, body)?;
    out.end()
}

/// Writes the row of a block that stands as a statement.
pub fn put_scope(out: &mut CertText, body: &Block) -> Result<(), AllocError>
    ensures { OnOk result (out.new
        ≡ laid (plain_data (row.scope (head_of (block_of body.now)))) out.old) }
{
    out.tag("scope")?;
    put_head(out, body)?;
    out.end()
}
