//! The files of the host.

ghost use Rattle.std.specs.Prelude.{None};

use gw_tool::Files;
use std::fs::File;
use std::io;

/// The files of the host. What they hold isn't known to a proof.
#[derive(Clone, Copy)]
pub struct HostFiles<'a>(pub &'a HostRuntime);

impl Files for HostFiles<'_> {
    ghost contents = { λ _ _. None };

    type File = File;

    fn open(&self, path: &str) -> io::Result<File> {
        File::open(self.0, path)
    }
}
