//! Parts of a declared type.

/// What a type is in a declaration.
#[derive(Clone, Copy)]
pub enum Part {
    Field,
    Payload,
}
