//! The words `PATH=DIR` of a command line, the Go files of a folder, files by their names, files that are read or
//! written whole, what a run takes of its process, and what can go wrong outside the judgement.
#![tactic(auto)]

mod fault;
mod files;
mod go_modules;
mod listed;
mod names;
mod package;
mod surroundings;
mod unit_files;
mod whole_files;

pub use fault::{Fault, fail, words_fault};
pub use files::read_folder;
pub use go_modules::module_above;
pub use listed::{read_files, shown_name};
pub use names::{escaped, is_printable, push_escaped};
pub use package::split_word;
pub use surroundings::{Surroundings, current_folder, named_folder, own_file, read_file_or_input};
pub use unit_files::{folder_of, picked_files};
pub use whole_files::{
    Reach, ReadFile, UnwrittenFile, WrittenFile, read_file, write_file, write_file_without_sync,
};
