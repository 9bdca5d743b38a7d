//! The bytes that a writer took, which only proofs read.

ghost use Rattle.std.specs.Prelude.{◌≡◌, ◌++◌, ℕ, List, []};
ghost use Rattle.std.specs.Coded.{coded_list, coded_ℕ};
ghost use Rattle.std.specs.Borrow.{ftrue};

use std::marker::Model;

/// Bytes that proofs alone know. It takes no memory, and its methods do nothing at run time.
#[derive(Drop)]
pub struct Handed {
    pub ghost bytes: { List ℕ } by { coded_list coded_ℕ },
}

impl Model for Handed {
    ghost also_owns = { λ _. ftrue };
}

impl Handed {
    pub fn new() -> Handed
        ensures { result.bytes ≡ [] }
    {
        Handed {}
    }

    /// These bytes, and the piece after them.
    pub fn and(&self, _piece: &&[u8]) -> Handed
        ensures { result.bytes ≡ self.now.bytes ++ _piece.now.now }
    {
        Handed {}
    }
}
