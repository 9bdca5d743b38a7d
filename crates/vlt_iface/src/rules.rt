//! The rules on what a module gives for an interface, by number.

/// An interface has a function with a body.
pub const INTERFACE_BODY: u8 = 47;

/// The head of a given function isn't the external's, token by token.
pub const GIVEN_HEAD: u8 = 48;

/// A given struct has a header, or not the abstract type's state set.
pub const GIVEN_STRUCT: u8 = 49;

/// An external that a module itself declares gives what stays abstract of the interface.
pub const ABSTRACT_RESULT: u8 = 50;
