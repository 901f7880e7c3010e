//! The files that words name.

ghost use Rattle.std.specs.Prelude.{◌≡◌, List, ℕ, Option, IfOk};

use std::io;
use std::io::Read;

/// Where the files are that words name.
pub trait Files {
    // what a file of this name holds, where that is known
    ghost contents: { Self → List ℕ → Option (List ℕ) };

    /// A file that is open.
    type File: Read + Drop;

    /// Opens a file, to be read from its beginning.
    fn open(&self, path: &str) -> io::Result<Self::File>
        ensures { IfOk result (λ file. Self.File.remaining file ≡ contents self.now path.now) };
}
