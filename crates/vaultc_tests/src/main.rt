//! Transcripts: files and commands come in, with what each command writes and its status; where it is something else, that goes out.
//! Read `stdin` first. The last line tells how many commands were run.
//! Used by: nothing. `vaultc_core::vaultc` and `vaultq_core::vaultq` have the clauses.
#![tactic(auto)]

mod outside;
mod pieces;
mod series;

use outside::{File, Outside, Program, Reply, SOUND, find_bytes, status_line};
use pieces::{push_changed, push_piece};
use std::alloc::Global;
use std::io::{self, BufRead, BufReader, ErrorKind, Write};

/// What the next line of a transcript is.
#[derive(Clone, Copy)]
enum Part {
    /// A heading or a remark, what fails, a command, or where a file begins.
    Text,
    /// A line of a file, up to `---`.
    File,
    /// A line that a command writes, up to its status.
    Reply,
}

/// The words of a command: each has a space before it.
fn words_of(alloc: Global, command: &str) -> io::Result<Vec<String>> {
    let mut words = Vec::new(alloc);
    for word in command.split(' ').skip(1) {
        words.push(String::from_str(alloc, word)?)?;
    }
    Ok(words)
}

/// The files so far, and what was read last.
#[derive(Drop)]
struct Transcript {
    files: Vec<File>,
    /// What fails in the next command.
    outside: Outside,
    part: Part,
    /// The name of the file that is being read, or the words of the command.
    title: String,
    /// The name of the file that what the command writes goes into; empty where it is in the transcript.
    target: String,
    /// The bytes of the file so far, or those of the reply.
    bytes: Vec<u8>,
    commands: u32,
}

impl Transcript {
    fn new(alloc: Global) -> Transcript {
        Transcript {
            files: Vec::new(alloc),
            outside: SOUND,
            part: Part::Text,
            title: String::new(alloc),
            target: String::new(alloc),
            bytes: Vec::new(alloc),
            commands: 0,
        }
    }

    /// Begins a file or a command, where the line does so, or says what fails in the next command.
    fn begin(&mut self, alloc: Global, line: &str) -> io::Result<()> {
        let (part, title) = if let Some(name) = line.strip_prefix("--- ") {
            (Part::File, name)
        } else if let Some(words) = line.strip_prefix("$") {
            (Part::Reply, words)
        } else if let Some(words) = line.strip_prefix("?") {
            self.outside.program = Program::Vaultq;
            (Part::Reply, words)
        } else if let Some(fails) = line.strip_prefix("! ") {
            return self.outside.set(fails);
        } else if let Some(change) = line.strip_prefix("~ ") {
            return self.change(alloc, change);
        } else {
            return Ok(());
        };
        let (title, target) = title.split_once(" > ").unwrap_or((title, ""));
        self.part = part;
        self.title = String::from_str(alloc, title)?;
        self.target = String::from_str(alloc, target)?;
        self.bytes = Vec::new(alloc);
        Ok(())
    }

    /// Keeps a line of a file or of a reply, or what it stands for.
    fn keep(&mut self, alloc: Global, line: &str) -> io::Result<()> {
        if let Some(piece) = line.strip_prefix("* ") {
            return push_piece(alloc, &mut self.bytes, piece);
        }
        let line = line.strip_prefix("| ").unwrap_or(line);
        self.bytes.extend_from_slice(line.as_bytes())?;
        self.bytes.push(b'\n')?;
        Ok(())
    }

    /// Adds a file.
    fn add(&mut self, name: String, bytes: Vec<u8>) -> io::Result<()> {
        self.files.push(File { name, bytes })?;
        Ok(())
    }

    /// The file is whole.
    fn end_file(&mut self, alloc: Global) -> io::Result<()> {
        self.part = Part::Text;
        let name = String::from_str(alloc, self.title.as_str())?;
        let bytes = Vec::from_slice(alloc, self.bytes.as_slice())?;
        self.add(name, bytes)
    }

    /// Adds a file that is another one but for a change: takes `FROM NAME OLD => NEW`.
    fn change(&mut self, alloc: Global, line: &str) -> io::Result<()> {
        let (from, rest) = line.split_once(' ').ok_or(ErrorKind::InvalidData)?;
        let (name, change) = rest.split_once(' ').ok_or(ErrorKind::InvalidData)?;
        let old = find_bytes(self.files.as_slice(), from).ok_or(ErrorKind::InvalidData)?;
        let mut bytes = Vec::new(alloc);
        push_changed(alloc, &mut bytes, old, change)?;
        self.add(String::from_str(alloc, name)?, bytes)
    }

    /// What the command writes, and the line of its status; only that line where what it writes goes into a file.
    fn found(&mut self, alloc: Global) -> io::Result<Vec<u8>> {
        let words = words_of(alloc, self.title.as_str())?;
        if let Some(series) = self.outside.series {
            return self
                .outside
                .replies(alloc, self.files.as_slice(), words.as_slice(), series);
        }
        let reply = self
            .outside
            .reply(alloc, self.files.as_slice(), words.as_slice())?;
        if self.target.is_empty() {
            return reply.lines(alloc);
        }
        let Reply { written, status } = reply;
        let name = String::from_str(alloc, self.target.as_str())?;
        self.add(name, written)?;
        status_line(alloc, status)
    }

    /// The reply is whole: prints what the command writes, where that is another one.
    fn end_reply<R: Print>(&mut self, rt: &R, alloc: Global) -> io::Result<()> {
        self.part = Part::Text;
        self.commands = self.commands.saturating_add(1);
        let found = self.found(alloc)?;
        self.outside = SOUND;
        if found.as_slice() != self.bytes.as_slice() {
            println!(rt; "command {}: ${}", self.commands, self.title)?;
            io::writer(rt).write_all(found.as_slice())?;
        }
        Ok(())
    }

    /// Takes one line.
    fn take<R: Print>(&mut self, rt: &R, alloc: Global, line: &str) -> io::Result<()> {
        match self.part {
            Part::Text => self.begin(alloc, line),
            Part::File if line == "---" => self.end_file(alloc),
            Part::File => self.keep(alloc, line),
            Part::Reply => {
                self.keep(alloc, line)?;
                if line.starts_with("= ") {
                    self.end_reply(rt, alloc)?;
                }
                Ok(())
            }
        }
    }
}

fn main(rt: HostRuntime) -> io::Result<()> {
    let alloc = rt.alloc();
    let mut transcript = Transcript::new(alloc);
    for line in BufReader::new(alloc, rt.reader())?.lines(alloc) {
        let line = line?;
        transcript.take(&rt, alloc, line.as_str())?;
    }
    println!(rt; "{} commands", transcript.commands)
}
