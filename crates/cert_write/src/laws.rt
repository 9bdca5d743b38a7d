//! What the definitions of notes say of those that `vlt_flow` lists.

ghost use Rattle.cert_write.specs.Notes.{NotesAreKept};

/// Notes that are just those of a function's statements, in order, are written as they are.
pub fn notes_are_kept()
    ensures { NotesAreKept }
{}
