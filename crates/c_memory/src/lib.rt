//! Blocks of cells that own one another: references in, cells and references out, with the rule that is broken.
//! Read `c_meaning/specs/Blocks.antt` first, then `specs/Shown.antt`: the blocks that are shown to be there.
//! Used by: `c_interp::CMachine::go`, which takes no memory.
#![tactic(auto)]

mod blocks;
mod cells;

pub use blocks::Blocks;
pub use cells::Ref;
