//! The calls that open files, of whose results no contract of [`Files`] speaks.

use std::fs::{Files, OpenOptions};
use std::io::{self, Read, Write};

/// The calls that open files. Every [`Files`] has them.
///
/// The ghost members `outputs` and `inputs` relate a path and the file that was opened there, to be
/// written or to be read, or the error of that; `inputs` also the file to be written, which was
/// opened before. Code that is generic over this trait knows nothing of them: only a call shows that
/// a file was opened.
pub trait FileCalls {
    ghost use Rattle.std.specs.Prelude.{ℕ, List, Result};
    ghost use Rattle.std.specs.declared.io.Error.{Error};

    /// An open file.
    type Stream: Read + Write + Drop;

    ghost outputs: { List ℕ → Result Self.Stream Error → Type 0 };

    ghost inputs: { Self.Stream → List ℕ → Result Self.Stream Error → Type 0 };

    /// Opens the file of the path to write to it.
    ///
    /// # Errors
    ///
    /// The file's own error.
    fn open_output(&self, path: &str) -> io::Result<Self::Stream>
        ensures { outputs path.now result };

    /// Opens the file of the path to read it, once `output` is open.
    ///
    /// # Errors
    ///
    /// The file's own error.
    fn open_input(&self, path: &str, output: &Self::Stream) -> io::Result<Self::Stream>
        ensures { inputs output.now path.now result };
}

impl<R: Files> FileCalls for R {
    type Stream = R::File;

    ghost outputs = { λ _ _. Unit {0} };

    ghost inputs = { λ _ _ _. Unit {0} };

    fn open_output(&self, path: &str) -> io::Result<R::File> {
        OpenOptions::new().write(true).open(self, path)
    }

    fn open_input(&self, path: &str, _output: &R::File) -> io::Result<R::File> {
        OpenOptions::new().read(true).open(self, path)
    }
}
