//! What a function gives to a host.

/// What a function gives to a host: a number, where a bool is 0 or 1, or an object by its position, from 0 in the order in which
/// objects were made.
#[derive(Clone, Copy, Debug, PartialEq, Eq)]
pub enum HostValue {
    Number(i64),
    Object(u64),
}
