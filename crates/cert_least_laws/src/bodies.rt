//! That accepted programs have least certificates: nothing goes in and nothing comes out.
//! Read `specs/Bodies/Programs.antt`, then `Notes`.
//! Used by: `cert_least_texts`, whose laws are on texts.

ghost use Rattle.cert_least_laws.specs.Bodies.Programs.{AcceptedProgramsHaveOne};
ghost use Rattle.cert_least_laws.specs.Bodies.Notes.{AcceptedBodiesHaveNotes};

/// It can't be that an accepted program within the limits has no least certificate.
pub fn accepted_programs_have_one()
    ensures { AcceptedProgramsHaveOne }
{}

/// The walk of an accepted body of fewer than 2^32 statements has notes.
pub fn accepted_bodies_have_notes()
    ensures { AcceptedBodiesHaveNotes }
{}
