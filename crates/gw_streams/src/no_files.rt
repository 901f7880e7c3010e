//! A place with no files.

ghost use Rattle.std.specs.Prelude.{◌≡◌, None, IsErr, IfErr};
ghost use Rattle.std.specs.IoError.{error_kind};
ghost use Rattle.std.specs.declared.io.ErrorKind.TheVariants.{NotFound};

use crate::files::Files;
use std::io;
use std::io::{Empty, Error, ErrorKind};

/// A place with no files: whatever a word names can't be opened.
#[derive(Clone, Copy, Debug, PartialEq, Eq)]
pub struct NoFiles;

impl Files for NoFiles {
    ghost contents = { λ _ _. None };

    type File = Empty;

    fn open(&self, _path: &str) -> io::Result<Empty>
        ensures fails { IsErr result }
        ensures kind { IfErr result (λ e. error_kind e ≡ NotFound) }
    {
        Err(Error::from(ErrorKind::NotFound))
    }
}
