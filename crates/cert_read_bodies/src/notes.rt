//! Notes: the maps of loops and choices, by the numbers of their statements.

ghost use Rattle.std.specs.Prelude.{◌≡◌, ◌≤◌, ◌<◌, ◌+◌, ◌++◌, option_map, OnOk, [], ◌∷◌};
ghost use Rattle.cert_format.specs.Notes.{at_loop, join_note};
ghost use Rattle.cert_read_parts.specs.Maps.{maps_of};
ghost use Rattle.cert_read_bodies.specs.Notes.{Adds};

use std::alloc::AllocError;
use vlt_base::Items;
use vlt_core::TokMap;

/// The maps of a statement, one for each instance of the function.
#[derive(Drop)]
pub enum MapsNote {
    /// At a loop's head, and after it.
    Loop {
        /// The statement's number, counted from 0 in the function.
        stmt: usize,
        around: Items<TokMap>,
        exit: Items<TokMap>,
    },
    /// After an `if` or a `switch`.
    Join {
        /// The statement's number, counted from 0 in the function.
        stmt: usize,
        maps: Items<TokMap>,
    },
}

/// The notes of the statements before the one of this number.
#[derive(Drop)]
pub struct Notes {
    pub next: usize,
    pub list: Items<MapsNote>,
}

/// A statement without maps.
pub(crate) fn pass(notes: &mut Notes)
    requires { notes.old.next < 18446744073709551615 }
    ensures { Adds notes.old notes.new [] 1 }
{
    notes.next += 1;
}

pub(crate) fn note_loop(
    notes: &mut Notes,
    around: Items<TokMap>,
    exit: Items<TokMap>,
) -> Result<(), AllocError>
    requires { notes.old.next < 18446744073709551615 }
    ensures { OnOk result (Adds notes.old notes.new
        (at_loop notes.old.next (maps_of around) (maps_of exit) ∷ []) 1) }
{
    let stmt = notes.next;
    notes.list.push(MapsNote::Loop { stmt, around, exit })?;
    notes.next = stmt + 1;
    Ok(())
}

/// The maps after a choice; none where it ends.
pub(crate) fn note_join(notes: &mut Notes, maps: Option<Items<TokMap>>) -> Result<(), AllocError>
    requires { notes.old.next < 18446744073709551615 }
    ensures { OnOk result (Adds notes.old notes.new
        (join_note notes.old.next (option_map maps_of maps)) 1) }
{
    let stmt = notes.next;
    if let Some(maps) = maps {
        notes.list.push(MapsNote::Join { stmt, maps })?;
    }
    notes.next = stmt + 1;
    Ok(())
}
