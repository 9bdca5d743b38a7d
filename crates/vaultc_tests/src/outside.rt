//! What a command meets outside: files in memory, a sink, and what of them fails.

use crate::series::{Replies, Series};
use std::alloc::Global;
use std::io::{self, ErrorKind};
use vaultc_core::vaultc;
use vaultq_core::vaultq;
use vlt_io::{MemSink, MemStore};

/// The program whose public call a command is.
#[derive(Clone, Copy)]
pub enum Program {
    Vaultc,
    Vaultq,
}

impl Program {
    /// Calls it, and gives its status.
    fn call(self, alloc: Global, words: &[String], store: &mut MemStore, sink: &mut MemSink) -> u8 {
        match self {
            Program::Vaultc => vaultc(alloc, words, store, sink),
            Program::Vaultq => vaultq(alloc, words, store, sink),
        }
    }
}

/// A file by its name.
#[derive(Drop)]
pub struct File {
    pub name: String,
    pub bytes: Vec<u8>,
}

/// The bytes of the file of this name: those that it was given last.
pub fn find_bytes<'a>(files: &'a [File], name: &str) -> Option<&'a [u8]> {
    let mut found = None;
    for file in files {
        if file.name.as_str() == name {
            found = Some(file.bytes.as_slice());
        }
    }
    found
}

/// The line of a status.
pub fn status_line(alloc: Global, status: u8) -> io::Result<Vec<u8>> {
    Ok(format!(in alloc; "= {status}\n")?.into_bytes())
}

/// What a command writes, and its status.
#[derive(Drop)]
pub struct Reply {
    pub written: Vec<u8>,
    pub status: u8,
}

impl Reply {
    /// What is written, and the line of the status.
    pub fn lines(&self, alloc: Global) -> io::Result<Vec<u8>> {
        let mut lines = Vec::from_slice(alloc, self.written.as_slice())?;
        lines.extend_from_slice(status_line(alloc, self.status)?.as_slice())?;
        Ok(lines)
    }
}

/// What the next command meets, and the program that it calls. What fails: a read by its number, from 1; a write by its number, and the bytes
/// of its piece that go out; and how many bytes the sink takes.
#[derive(Clone, Copy)]
pub struct Outside {
    pub program: Program,
    failing_read: u64,
    failing_write: (u64, usize),
    room: usize,
    /// The texts that the command is run over in place of its file's.
    pub series: Option<Series>,
}

/// An outside where nothing fails: no call has the number 0.
pub const SOUND: Outside = Outside {
    program: Program::Vaultc,
    failing_read: 0,
    failing_write: (0, 0),
    room: 131_072,
    series: None,
};

fn number(text: &str) -> io::Result<u64> {
    Ok(text.parse().map_err(|_| ErrorKind::InvalidData)?)
}

impl Outside {
    /// Takes `read N`, `write N`, `write N after M`, `room N`, `prefixes` or `digits`.
    pub fn set(&mut self, line: &str) -> io::Result<()> {
        let (what, rest) = line.split_once(' ').unwrap_or((line, ""));
        match what {
            "read" => self.failing_read = number(rest)?,
            "write" => {
                let (call, most) = rest.split_once(" after ").unwrap_or((rest, "0"));
                self.failing_write = (number(call)?, number(most)? as usize);
            }
            "room" => self.room = number(rest)? as usize,
            "prefixes" => self.series = Some(Series::Prefixes),
            "digits" => self.series = Some(Series::Digits),
            _ => return Err(ErrorKind::InvalidData.into()),
        }
        Ok(())
    }

    /// The files that the words name.
    fn store(&self, alloc: Global, files: &[File], words: &[String]) -> io::Result<MemStore> {
        let failing = [self.failing_read];
        let mut store = MemStore::new(alloc, &failing).map_err(|_| ErrorKind::OutOfMemory)?;
        for word in words {
            if let Some(bytes) = find_bytes(files, word.as_str()) {
                let added = store.add(word.as_str(), bytes);
                added.map_err(|_| ErrorKind::OutOfMemory)?;
            }
        }
        Ok(store)
    }

    /// What a command writes over a store.
    fn reply_over(
        &self,
        alloc: Global,
        mut store: MemStore,
        words: &[String],
    ) -> io::Result<Reply> {
        let failing = [self.failing_write];
        let mut sink = MemSink::with_parts(alloc, self.room, &failing).map_err(
            |_| ErrorKind::OutOfMemory,
        )?;
        let status = self.program.call(alloc, words, &mut store, &mut sink);
        Ok(Reply {
            written: Vec::from_slice(alloc, sink.bytes())?,
            status,
        })
    }

    /// What a command writes over the files.
    pub fn reply(&self, alloc: Global, files: &[File], words: &[String]) -> io::Result<Reply> {
        let store = self.store(alloc, files, words)?;
        self.reply_over(alloc, store, words)
    }

    /// What a command writes over each text of a series, and how many there are.
    pub fn replies(
        &self,
        alloc: Global,
        files: &[File],
        words: &[String],
        series: Series,
    ) -> io::Result<Vec<u8>> {
        let name = words.get(1).ok_or(ErrorKind::InvalidData)?;
        let bytes = find_bytes(files, name.as_str()).ok_or(ErrorKind::InvalidData)?;
        let mut replies = Replies::new(alloc);
        for place in 0..bytes.len() {
            let Some(text) = series.text(alloc, bytes, place)? else {
                continue;
            };
            let mut store = self.store(alloc, files, words)?;
            let added = store.add(name.as_str(), text.as_slice());
            added.map_err(|_| ErrorKind::OutOfMemory)?;
            let reply = self.reply_over(alloc, store, words)?;
            replies.take(alloc, place, reply.lines(alloc)?)?;
        }
        replies.finish(alloc)
    }
}
