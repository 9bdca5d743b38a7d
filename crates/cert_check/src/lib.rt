//! Whether the notes of a certificate hold in the bodies of its program, or the first test that they fail; nothing is searched for.
//! Read `specs/Tests.antt` first, then `specs/Whole.antt` and `specs/Unfit.antt`.
//! Used by: `cert_verify`, which asks it of the program and the notes of a C file.
#![tactic(auto)]

ghost use Rattle.cert_check.specs.Laws.{TestsSayLocal, TestsSayLocalCertificate, NoneFails, FailsInOneWay, NoneIsRefused, RefusedInOneWay, EndsDontPass};

mod bodies;
mod dense;
mod errors;
mod finding;
mod given;
mod ordered;
mod passing;
mod points;
mod side;
mod walking;
mod whole;

pub use whole::{LocalError, LocalRefusal, local};

/// Notes hold exactly where their tests do: those of a body, and those of a program.
pub fn tests_say_local()
    ensures body { TestsSayLocal }
    ensures program { TestsSayLocalCertificate }
{}

/// Tests that hold fail in no way, and others first fail in one way at most; so a program has one first refusal at most, and
/// none where its notes hold.
pub fn refused_in_one_way()
    ensures none { NoneFails }
    ensures one { FailsInOneWay }
    ensures none_of_program { NoneIsRefused }
    ensures one_of_program { RefusedInOneWay }
{}

/// A statement that ends, as the rules on the core's form have it, has no way on.
pub fn ends_dont_pass()
    ensures { EndsDontPass }
{}
