//! What a file declares.

ghost use Rattle.vlt_kinds_queries.specs.Small.{AreSmallSets};

use crate::names::Globals;
use crate::shapes::Shape;
use vlt_base::Items;
use vlt_core::SetDecl;

/// The names of a file, its state sets, and the shapes of its types, numbered in the order of their declarations.
#[derive(Drop)]
pub struct File<'a> {
    pub globals: Globals<'a>,
    pub sets: Items<SetDecl>,
    pub shapes: Items<Shape>,
    ghost small: { AreSmallSets sets },
}
