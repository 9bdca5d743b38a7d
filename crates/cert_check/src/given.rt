//! What a test of one body has at hand.

use cert_read_bodies::MapsNote;
use std::alloc::Global;

/// The annotation that is tested: of each note the map of one instance of the function.
#[derive(Clone, Copy)]
pub struct Given<'n> {
    pub alloc: Global,
    pub notes: &'n [MapsNote],
    /// The instance's number, by which each note has its map.
    pub instance: usize,
}
