//! Words in, a command out; then the names of its files in, and their bytes out.
//! Read `specs/Commands.antt` (command_of) first, then `specs/Sources.antt`.
//! Used by: `vaultc_core::vaultc`, which carries the command out.
#![tactic(auto)]

mod files;
mod generated;
mod words;

pub use files::{
    FileError, HostFiles, LinkFiles, ModuleFiles, RunFiles, read_file, read_host_files,
    read_link_files, read_module_files, read_run_files,
};
pub use generated::{Functions, Generated, generate};
pub use words::{Command, Taken, TextCommand, default_budgets, read_command};
