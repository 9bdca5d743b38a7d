//! The keys in a type.

use crate::shapes::Wanted;

/// A key that stands in a type: of which type its object has to be there, and whether it stands as `tracked(K)`.
#[derive(Clone, Copy)]
pub struct KeyUse<'a> {
    pub key: &'a [u8],
    /// The place, as a byte of the source counted from 0.
    pub at: u32,
    pub wanted: Wanted,
    pub tracked: bool,
}
