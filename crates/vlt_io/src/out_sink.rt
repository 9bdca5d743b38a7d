//! A real writer, as standard output.

ghost use Rattle.std.specs.Prelude.{◌≡◌, ◌≤◌, [], Some, OnOk, OnErr};
ghost use Rattle.std.specs.Io.KnownBytes.{Appends};
ghost use Rattle.vlt_io.specs.Outside.{Rose, Grew, GrewByPart};

use crate::faults::Faults;
use crate::handed::Handed;
use crate::{Sink, SinkFailed};
use std::io::Write;

/// A writer. It tells how often writing failed, and the pieces of all writes that came back; what a write that failed put out
/// isn't told.
#[derive(Drop)]
pub struct OutSink<W: Write> {
    writer: W,
    faults: Faults,
    handed: Handed,
}

impl<W: Write> OutSink<W> {
    ghost use Rattle.vlt_io.specs.Real.{handed_to, writer_faults};

    /// A sink that has written nothing yet.
    pub fn new(writer: W) -> OutSink<W>
        ensures faults { writer_faults result ≡ 0 }
        ensures handed { handed_to result ≡ [] }
    {
        OutSink {
            writer,
            faults: Faults::new(),
            handed: Handed::new(),
        }
    }
}

impl<W: Write> Sink for OutSink<W> {
    ghost use Rattle.vlt_io.specs.Real.{writer_of, handed_to, writer_faults};

    ghost faults = { writer_faults };

    ghost written = { λ sink. Some (handed_to sink) };

    fn write(&mut self, piece: &[u8]) -> Result<(), SinkFailed>
        ensures ok { OnOk result (Grew (Some (handed_to self.old)) (Some (handed_to self.new))
            piece.now) }
        ensures part { OnErr result (GrewByPart (Some (handed_to self.old))
            (Some (handed_to self.new)) piece.now) }
        ensures failed { OnErr result (Rose (writer_faults self.old) (writer_faults self.new)) }
        ensures counted { writer_faults self.old ≤ writer_faults self.new }
        ensures taken { OnOk result (Appends (W.contents (writer_of self.old))
            (W.contents (writer_of self.new)) piece.now) }
    {
        if self.writer.write_all(piece).is_err() {
            self.faults.add();
            return Err(SinkFailed);
        }
        self.handed = self.handed.and(&piece);
        Ok(())
    }
}

#[cfg(test)]
mod tests {
    use super::*;
    use std::io;

    /// A writer that takes one byte a call, and none once it has taken as many as it may.
    #[derive(Drop)]
    struct Trickle {
        left: usize,
    }

    impl Write for Trickle {
        fn write(&mut self, bytes: &[u8]) -> io::Result<usize> {
            if bytes.is_empty() || self.left == 0 {
                return Ok(0);
            }
            self.left -= 1;
            Ok(1)
        }

        fn flush(&mut self) -> io::Result<()> {
            Ok(())
        }
    }

    #[test]
    fn whole_pieces_or_failures(rt: HostRuntime) {
        let mut sink = OutSink::new(Trickle { left: 5 });
        for (piece, ok) in [("abc", true), ("", true), ("def", false), ("", true)] {
            assert_eq!(rt; sink.write(piece.as_bytes()).is_ok(), ok, "{piece}");
        }
        assert_eq!(rt; sink.writer.left, 0);
    }
}
