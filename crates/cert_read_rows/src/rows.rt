//! Rows of statements.

ghost use Rattle.std.specs.Prelude.{◌≡◌, map, option_map, IfOk, [], ◌∷◌, Some, None};
ghost use Rattle.serde_json.specs.View.{view};
ghost use Rattle.cert_read_rows.specs.Statements.{stmt_of, stmt_of_tag, stmt_of_data};

use crate::blocks::{BlockRow, block_row};
use crate::plain::{PlainRow, plain_row};
use cert_read_parts::{array, text};
use serde_json::Value;
use std::alloc::{AllocError, Global};
use vlt_base::Boxed;

/// A row of a statement.
#[derive(Drop)]
pub enum StmtRow {
    Plain(Boxed<PlainRow>),
    Block(BlockRow),
}

fn row_of_tag(
    alloc: Global,
    instances: Option<u32>,
    tag: &str,
    items: &[Value],
) -> Result<Option<StmtRow>, AllocError>
    ensures { IfOk result (λ r. option_map stmt_of r
        ≡ stmt_of_tag instances tag.now (map view items.now)) }
{
    if let Some(plain) = plain_row(alloc, tag, items)? {
        return Ok(Some(StmtRow::Plain(Boxed::new(alloc, plain)?)));
    }
    match block_row(alloc, instances, tag, items)? {
        Some(block) => Ok(Some(StmtRow::Block(block))),
        None => Ok(None),
    }
}

/// The row of a statement, if the value is one.
pub fn stmt_row(
    alloc: Global,
    instances: Option<u32>,
    v: &Value,
) -> Result<Option<StmtRow>, AllocError>
    ensures { IfOk result (λ r. option_map stmt_of r ≡ stmt_of_data instances (view v.now)) }
{
    let Some(items) = array(v) else {
        return Ok(None);
    };
    match items {
        [] => Ok(None),
        [t, rest @ ..] => match text(t) {
            Some(tag) => row_of_tag(alloc, instances, tag, rest),
            None => Ok(None),
        },
    }
}
