//! What the rules on types and heads leave for bodies.

ghost use Rattle.std.specs.Prelude.{map, length, All};
ghost use Rattle.vlt_core.specs.View.{set_of, type_of};
ghost use Rattle.vlt_kinds_queries.specs.Known.{HasKnownSet};
ghost use Rattle.vlt_kinds_queries.specs.Types.{program_with};
ghost use Rattle.vlt_kinds_queries.specs.Marks.{AreMarks};

use crate::file::File;
use vlt_base::Items;
use vlt_core::{Func, TypeDecl};

/// What a file declares, as it stands in the core. Sets, types and functions are numbered in the order of their
/// declarations.
#[derive(Drop)]
pub struct Kinds<'a> {
    /// The names, the state sets, and what the names of types stand for.
    pub file: File<'a>,
    pub types: Items<TypeDecl>,
    /// The functions with empty bodies. Their variables are the parameters.
    pub heads: Items<Func>,
    /// For each type whether a part is reached from it that no release may reach.
    pub marks: Items<bool>,
    ghost known: { All (HasKnownSet (length file.sets)) types },
    ghost marked: { AreMarks (program_with (map set_of file.sets) (map type_of types)) marks },
}
