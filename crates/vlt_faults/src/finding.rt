//! What paths find of one token: from a body's flow to tables of single statuses, swept until nothing grows.
//! Read `vlt_core/specs/Found.antt` first, then `vlt_core_laws/specs/Sweep.antt`.
//! Used by: `judge`. What is found at each join and before each row decides the first fault.

ghost use Rattle.std.specs.Prelude.{◌≡◌, ◌<◌, ◌^◌, IfOk, length};
ghost use Rattle.vlt_core.specs.Flow.{size_block};
ghost use Rattle.vlt_core.specs.View.{tok_of};
ghost use Rattle.vlt_rows.specs.FlowView.{block_view};
ghost use Rattle.vlt_core_laws.specs.Sweep.{In, IsFoundIn};
ghost use Rattle.vlt_faults.specs.Finding.Ones.{many_of};
ghost use Rattle.vlt_faults.specs.Finding.Marks.{stock_of};

mod ones;
mod pass;
mod singles;
mod sweep;
mod tables;

use crate::finding::sweep::spread;
pub use ones::Ones;
pub use pass::{pass_gone, pass_row, pass_rows};
pub use singles::{is_empty, made, nothing};
use std::alloc::{AllocError, Global};
pub use tables::Tables;
use vlt_core::Tok;
use vlt_rows::FlowBlock;

/// What paths find of a token that comes to the body with these: at each loop's head, and after each loop and choice.
/// `count` is how many statements the body has.
pub fn find_statuses(
    alloc: Global,
    tok: Tok,
    body: &FlowBlock,
    count: usize,
    m: Ones,
) -> Result<Tables, AllocError>
    requires count { count ≡ size_block (block_view body.now) }
    requires few { count < 2 ^ 63 }
    ensures found { IfOk result (λ k. IsFoundIn (tok_of tok) (block_view body.now)
        (In (many_of m)) (stock_of k)) }
    ensures around { IfOk result (λ k. length k.around ≡ count) }
    ensures following { IfOk result (λ k. length k.following ≡ count) }
{
    let mut kept = Tables::open(alloc, count)?;
    spread(&mut kept, tok, body, m);
    Ok(kept)
}
