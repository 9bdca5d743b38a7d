//! What declared types say.

ghost use Rattle.std.specs.Prelude.{All, length};
ghost use Rattle.vlt_kinds_queries.specs.Known.{HasKnownSet};
ghost use Rattle.vlt_kinds_queries.specs.Small.{AreSmallSets};

use vlt_base::Items;
use vlt_core::{SetDecl, TypeDecl};

/// The sets and the types of a file.
#[derive(Clone, Copy)]
pub struct Declared<'a> {
    pub sets: &'a [SetDecl],
    pub types: &'a [TypeDecl],
    ghost small: { AreSmallSets sets.now },
    ghost known: { All (HasKnownSet (length sets.now)) types.now },
}
