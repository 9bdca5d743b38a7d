//! Where two lists of pieces first differ.

ghost use Rattle.std.specs.Prelude.{◌≡◌, map, Decides, MatchOption};
ghost use Rattle.c_syntax.specs.View.{func_of};
ghost use Rattle.c_match.specs.Pieces.{head_of};
ghost use Rattle.c_match.specs.Seen.{heads_seen, piece_seen, PartAt};

use crate::pieces::Piece;
use crate::same::{same_expr, same_result, same_stmt, same_vars};
use c_syntax::CFunc;

#[tactic(auto, using(crate::proofs::Parts::heads_from))]
fn same_head(a: &CFunc, b: &CFunc) -> bool
    ensures { Decides result (head_of (func_of a.now) ≡ head_of (func_of b.now)) }
{
    if a.number != b.number {
        return false;
    }
    if !same_result(a.result, b.result) {
        return false;
    }
    same_vars(a.params.as_slice(), b.params.as_slice())
}

fn same_heads(a: &[CFunc], b: &[CFunc]) -> bool
    ensures { Decides result (heads_seen a.now ≡ heads_seen b.now) }
{
    let mut left = b;
    for x in a {
        let Some((y, rest)) = left.split_first() else {
            return false;
        };
        if !same_head(x, y) {
            return false;
        }
        left = rest;
    }
    left.is_empty()
}

fn same_piece(a: Piece<'_>, b: Piece<'_>) -> bool
    ensures { Decides result (piece_seen a.entry ≡ piece_seen b.entry) }
{
    match (a, b) {
        (Piece::Heads(main, glue, fns), Piece::Heads(other, externals, bodies)) => {
            main == other && same_heads(glue, externals) && same_heads(fns, bodies)
        }
        (Piece::Variables(xs), Piece::Variables(ys)) => same_vars(xs, ys),
        (Piece::Plain(x), Piece::Plain(y)) => same_stmt(x, y),
        (Piece::If(x), Piece::If(y)) => same_expr(x, y),
        (Piece::Else, Piece::Else) => true,
        (Piece::Loop, Piece::Loop) => true,
        (Piece::End, Piece::End) => true,
        _ => false,
    }
}

/// The first place at which pieces differ or one of the lists has ended.
pub fn first_apart(a: &[Piece<'_>], b: &[Piece<'_>]) -> Option<usize>
    ensures { MatchOption result (map piece_seen a.now ≡ map piece_seen b.now)
        (PartAt (map piece_seen a.now) (map piece_seen b.now)) }
{
    let both = a.len().min(b.len());
    for at in 0..both {
        if !same_piece(a[at], b[at]) {
            return Some(at);
        }
    }
    if a.len() == b.len() {
        return None;
    }
    Some(both)
}
