//! Laws of core programs whose declarations get other numbers: nothing goes in and nothing comes out.
//! Read `specs/CoreMoves/Moves.antt` first, then `Keeps`, `Knows` and `MoveLaws`.
//! Used by: the laws on modules. A body that is accepted in a view is accepted in the joined program.

ghost use Rattle.vlt_link_laws.specs.CoreMoves.MoveLaws.{MovedBodiesFlowAlike, MovedFunctionsHaveTheSameInstances, MovedBodiesAreAccepted, DroppableStructsStaySo, UnbrokenFunctionsKnow};

/// A body whose declarations get other numbers has the same rows.
pub fn moved_bodies_flow_alike()
    ensures { MovedBodiesFlowAlike }
{}

/// An instance of a moved function is the function's instance, moved, and has the same origins.
pub fn moved_functions_have_the_same_instances()
    ensures { MovedFunctionsHaveTheSameInstances }
{}

/// A function that is accepted in each instance still is, in each instance, after it was moved.
pub fn moved_bodies_are_accepted()
    ensures { MovedBodiesAreAccepted }
{}

/// A struct that may be dropped still may where more is declared.
pub fn droppable_structs_stay_so()
    ensures { DroppableStructsStaySo }
{}

/// A function with a body whose rows break no rule knows what its rows look at, whatever else the program breaks.
pub fn unbroken_functions_know()
    ensures { UnbrokenFunctionsKnow }
{}
