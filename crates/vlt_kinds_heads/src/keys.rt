//! The table of a head's keys.

use crate::facts::Facts;
use indexmap::IndexMap;

/// The keys of a head in the order of their first places.
#[derive(Drop)]
pub struct HeadKeys<'a> {
    pub table: IndexMap<&'a [u8], Facts>,
}
