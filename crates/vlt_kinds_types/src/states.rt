//! The names of a type's states.

ghost use Rattle.vlt_kinds_queries.specs.Small.{AreSmallNames};

use vlt_base::Items;

/// The names of the states of a type, where it has a set: 1 to 32.
#[derive(Clone, Copy)]
pub struct StateNames<'a> {
    pub names: Option<&'a [Items<u8>]>,
    ghost small: { AreSmallNames names },
}
