//! The outside: names go in and bytes come out of a store, and bytes go into a sink.
//! Read `specs/Outside.antt` first.
//! Used by: the clauses of `vaultc_core::vaultc`, which hold for every store and every sink.
#![tactic(auto)]

mod calls;
mod dir_store;
mod faults;
mod handed;
mod logged;
mod mem_sink;
mod mem_store;
mod out_sink;
mod sink;
mod store;

pub use dir_store::DirStore;
pub use logged::Logged;
pub use mem_sink::MemSink;
pub use mem_store::MemStore;
pub use out_sink::OutSink;
pub use sink::{Sink, SinkFailed};
pub use store::{Store, StoreError};
