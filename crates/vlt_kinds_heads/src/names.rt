//! The names that stand in a head.

/// A name of a key or of a parameter.
#[derive(Clone, Copy)]
pub struct HeadName<'a> {
    pub text: &'a [u8],
    /// The place, as a byte of the source counted from 0.
    pub at: u32,
    pub is_key: bool,
}
