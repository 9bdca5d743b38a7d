//! What is written at the end of a command, and its status.

ghost use Rattle.std.specs.Prelude.{◌≡◌, ◌≢◌, ◌⊎◌};
ghost use Rattle.vaultc_runs.specs.Lines.{reply};
ghost use Rattle.vaultc_runs.specs.Finishes.{Finishes};
ghost use Rattle.vaultc_runs.specs.Shown.{IsReplyOf};

use crate::reply::Reply;
use crate::status::{NO_MEMORY, SINK_FAILED};
use std::alloc::AllocError;
use vlt_io::{Sink, SinkFailed};

/// Writes the text, and gives the status, or that the sink failed.
pub fn finish<K: Sink>(out: &mut K, status: u8, text: &[u8]) -> u8
    requires sink { status ≢ SINK_FAILED }
    requires memory { status ≢ NO_MEMORY }
    ensures finishes { Finishes K.Sink (λ r. r ≡ reply status text.now) out.old out.new result }
    ensures status { (result ≡ status) ⊎ (result ≡ SINK_FAILED) }
{
    match out.write(text) {
        Ok(()) => status,
        Err(SinkFailed) => SINK_FAILED,
    }
}

/// Writes a reply, where there was memory for it.
pub fn finish_reply<K: Sink>(out: &mut K, reply: Result<Reply, AllocError>) -> u8
    ensures { Finishes K.Sink (IsReplyOf reply) out.old out.new result }
{
    match reply {
        Ok(reply) => finish(out, reply.status, reply.text.as_slice()),
        Err(AllocError) => NO_MEMORY,
    }
}
