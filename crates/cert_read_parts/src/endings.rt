//! Whether a statement ends, as far as its rows tell; and maps, or 0 in their place, against that.

ghost use Rattle.std.specs.Prelude.{◌≡◌, option_map, if◌then◌else◌, Some};
ghost use Rattle.cert_format.specs.Endings.{unsure, both, agrees, or_else};
ghost use Rattle.cert_read_parts.specs.Maps.{maps_of};
ghost use Rattle.cert_read_parts.specs.Endings.{ending_of};

use vlt_base::Items;
use vlt_core::TokMap;

/// Whether a statement ends, as far as its rows tell.
#[derive(Clone, Copy)]
pub enum Ending {
    Sure,
    Never,
    Unsure,
}

/// Whether a statement ends that takes one of two blocks, which end so.
pub fn both(a: Ending, b: Ending) -> Ending
    ensures { ending_of result ≡ both (ending_of a) (ending_of b) }
{
    match a {
        Ending::Never => Ending::Never,
        Ending::Sure => b,
        Ending::Unsure => match b {
            Ending::Never => Ending::Never,
            _ => Ending::Unsure,
        },
    }
}

fn agrees(ends: Ending, maps: &Option<Items<TokMap>>) -> bool
    ensures { result ≡ agrees (ending_of ends) (option_map maps_of maps.now) }
{
    match ends {
        Ending::Sure => maps.is_none(),
        Ending::Never => maps.is_some(),
        Ending::Unsure => true,
    }
}

/// The first wrong row of two parts: that of the first part where it has one.
pub fn or_else(a: Option<usize>, b: Option<usize>) -> Option<usize>
    ensures { result ≡ or_else a b }
{
    match a {
        Some(row) => Some(row),
        None => b,
    }
}

/// The first wrong row of a statement at row `at`: itself, if its maps don't fit how it `ends`, or else the one `inside` it.
pub fn at_odds(
    ends: Ending,
    maps: &Option<Items<TokMap>>,
    at: usize,
    inside: Option<usize>,
) -> Option<usize>
    ensures { result
        ≡ if agrees (ending_of ends) (option_map maps_of maps.now) then inside else Some at }
{
    if agrees(ends, maps) { inside } else { Some(at) }
}

/// Whether a block ends after a statement that breaks off: as that one where it is the last.
pub fn cut_ending(is_last: bool, ends: Ending) -> Ending
    ensures { ending_of result ≡ if is_last then ending_of ends else unsure }
{
    if is_last { ends } else { Ending::Unsure }
}
