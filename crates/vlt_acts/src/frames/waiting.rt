//! Functions that wait.

use vlt_base::{KeyId, VarId};
use vlt_core::Func;

/// A function that waits for a call's return: where its frame begins and how many variables it has; and of the call the
/// variable that takes the value, and for each key of the callee's head the caller's key.
#[derive(Clone, Copy)]
pub struct Waiting<'a> {
    pub base: usize,
    pub vars: u32,
    pub func: &'a Func,
    pub target: Option<VarId>,
    pub keys: &'a [KeyId],
}
