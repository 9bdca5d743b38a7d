//! A function with its program.

use vlt_core::{Func, Program};

/// A function of a program, with the marks of `cert_kinds_types::marks` on the program's types.
#[derive(Clone, Copy)]
pub struct Scope<'a> {
    pub program: &'a Program,
    pub marks: &'a [bool],
    pub func: &'a Func,
}
