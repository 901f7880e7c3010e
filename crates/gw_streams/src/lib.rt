//! The program's input and output: all bytes of a reader up to a bound, whole texts to a writer, and files by name.
#![tactic(auto)]

mod files;
mod input;
mod no_files;
mod output;

pub use crate::files::Files;
pub use crate::input::{InputFault, read_input};
pub use crate::no_files::NoFiles;
pub use crate::output::{WriteFault, write_output};
