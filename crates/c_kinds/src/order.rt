//! Heads in the order of their names: none has the name of one before it, and each is found where its number says.

ghost use Rattle.std.specs.Prelude.{◌≡◌, ◌≤◌, length, map, true};
ghost use Rattle.c_syntax.specs.Kinds as k;
ghost use Rattle.c_parser.specs.View.{body_of, head_of};
ghost use Rattle.c_kinds.specs.Order.{AreOrderedIf, ascend, is_before};

use crate::types::same_bool;
use c_parser::{Body, Head};
use c_syntax::CName;

/// The heads before the bodies.
#[derive(Clone, Copy)]
pub struct Heads<'a> {
    pub list: &'a [Head],
    /// Whether they are known to be in the order of their names.
    pub in_order: bool,
    /// How many of glue come first.
    pub glue: usize,
    ghost ordered: { AreOrderedIf in_order (map head_of list.now) },
}

impl<'a> Heads<'a> {
    pub fn new(list: &'a [Head]) -> Heads<'a>
        ensures { result.list.now ≡ list.now }
    {
        Heads {
            list,
            in_order: are_heads_in_order(list),
            glue: glue_first(list),
        }
    }
}

/// Whether the first name comes before the second.
fn is_before(name: CName, other: CName) -> bool
    ensures { result ≡ is_before name other }
{
    if same_bool(name.glue, other.glue) {
        name.number < other.number
    } else {
        name.glue
    }
}

/// Whether the names of these heads ascend.
fn are_heads_in_order(heads: &[Head]) -> bool
    ensures { result ≡ ascend (map head_of heads.now) }
{
    let Some((first, rest)) = heads.split_first() else {
        return true;
    };
    let mut last = first.name;
    for head in rest {
        if !is_before(last, head.name) {
            return false;
        }
        last = head.name;
    }
    true
}

/// Whether the names of these functions with a body ascend.
pub fn are_bodies_in_order(bodies: &[Body]) -> bool
    ensures { result ≡ ascend (k.heads_of (map body_of bodies.now)) }
{
    let Some((first, rest)) = bodies.split_first() else {
        return true;
    };
    let mut last = first.head.name;
    for body in rest {
        if !is_before(last, body.head.name) {
            return false;
        }
        last = body.head.name;
    }
    true
}

/// How many heads of glue there are before the first of another function.
fn glue_first(heads: &[Head]) -> usize
    ensures { result ≤ length heads.now }
{
    for at in 0..heads.len() {
        if !heads[at].name.glue {
            return at;
        }
    }
    heads.len()
}
