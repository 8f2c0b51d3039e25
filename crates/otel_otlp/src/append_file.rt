//! A file that is appended to.
ghost use Rattle.std.specs.Prelude.{◌≡◌, None, IsOk, OnOk, true, false, slice_get, string_bytes};
ghost use Rattle.std.specs.Prelude.{option_copied};
ghost use Rattle.std.specs.Io.{WritesAtMost};
ghost use Rattle.std.specs.Io.KnownBytes.{Keeps, WriteAppends};
ghost use Rattle.otel_otlp.specs.AppendFile as spec;
ghost use Rattle.otel_otlp.specs.AppendFile.{initial, begins_line, after_write, AppendsLine, UnderLock};

use std::fs::{self, File, Files, OpenOptions};
use std::io::{self, Read, Seek, SeekFrom, Write};
use std::marker::Model;

/// The calls that append to a file, whose bytes no contract of [`Files`] sees. Every [`Files`] that
/// opens files of the system has them.
///
/// The ghost member `locks` relates a path and the file that was opened there and locked, `ends` an
/// open file and its last byte, and `appends` an open file, bytes and an answer. Code that is
/// generic over this trait knows nothing of them: only a call shows an answer.
pub trait AppendCalls {
    ghost use Rattle.std.specs.Prelude.{ℕ, List, Option, Result};
    ghost use Rattle.std.specs.declared.io.Error.{Error};

    /// An open file. Its lock ends when it is dropped.
    type Locked: Drop;

    ghost locks: { List ℕ → Result Self.Locked Error → Type 0 };

    ghost ends: { Self.Locked → Option ℕ → Type 0 };

    ghost appends: { Self.Locked → List ℕ → Result ℕ Error → Type 0 };

    /// Opens the file of the path to append to it, or creates it, and takes its exclusive advisory
    /// lock. Waits while another open file holds one. A pipe or a device isn't locked, nor is a file
    /// whose file system has no locks.
    ///
    /// # Errors
    ///
    /// The file's own error. No file is open.
    fn lock(&self, path: &str) -> io::Result<Self::Locked>
        ensures { locks path.now result };

    /// Returns the last byte of the file. Returns `None` if the file is empty, no regular file, such
    /// as a pipe or a device, or can't be read.
    fn last_byte(&self, file: &Self::Locked) -> Option<u8>
        ensures { ends file.now result };

    /// Appends the bytes in one write of the system. Returns how many it took.
    ///
    /// # Errors
    ///
    /// The file's own error. Nothing was written.
    fn append(&self, file: &Self::Locked, bytes: &[u8]) -> io::Result<usize>
        ensures bound { WritesAtMost result bytes.now }
        ensures answered { appends file.now bytes.now result };
}

impl<R: Files<File = File>> AppendCalls for R {
    type Locked = File;

    ghost locks = { λ _ _. Unit {0} };

    ghost ends = { λ _ _. Unit {0} };

    ghost appends = { λ _ _ _. Unit {0} };

    fn lock(&self, path: &str) -> io::Result<File> {
        let mut options = OpenOptions::new();
        options.append(true).create(true);
        // A pipe that is open to be read would wait for its own writer, and to read a device may
        // take what is there.
        if fs::metadata(self, path).is_ok_and(|it| !it.is_file()) {
            return options.open(self, path);
        }
        let file = match options.read(true).open(self, path) {
            Ok(file) => file,
            Err(_) => options.read(false).open(self, path)?,
        };
        let _ = file.lock();
        Ok(file)
    }

    fn last_byte(&self, file: &File) -> Option<u8> {
        let mut file = file;
        file.seek(SeekFrom::End(-1)).ok()?;
        let mut last = [0];
        file.read_exact(&mut last).ok()?;
        Some(last[0])
    }

    fn append(&self, file: &File, bytes: &[u8]) -> io::Result<usize> {
        let mut file = file;
        file.write(bytes)
    }
}

// Returns whether a line with this last byte lacks its newline.
fn is_torn(last: Option<u8>) -> bool
    ensures { result ≡ spec.is_torn last }
{
    match last {
        Some(byte) => byte != b'\n',
        None => false,
    }
}

/// A file of lines that each write opens and appends to. A write creates it if it doesn't exist, so
/// that it may be moved away meanwhile, or its folder made. Not in the Rust crates.
///
/// Use it as the writer of an [`crate::OtlpJsonExporter`], so that several processes can append to
/// one file.
///
/// If the file's last line has no newline, since another program was killed or its disk was full, a
/// newline is written before the next line: so the fragment is a line by itself. If the file can be
/// written but not read, its end isn't seen, and lines are appended as they are.
///
/// A write locks the file (`flock`), so that the end that it sees isn't within the write of another
/// process, and waits for each other lock.
///
/// Contracts see the path, and whether the last line that was written here lacks its newline.
pub struct AppendFile<R> {
    files: R,
    path: String,
    is_within_line: bool,
}

// Written out, so that a caller's proof has one call here, and not the drops of all parts.
impl<R: Drop> Drop for AppendFile<R> {
    fn drop(self) {
        let AppendFile {
            files: _,
            path: _,
            is_within_line: _,
        } = self;
    }
}

impl<R> Model for AppendFile<R> {
    ghost use Rattle.std.specs.Prelude.{string_bytes};
    ghost use Rattle.otel_otlp.specs.AppendFile.{Appending};

    ghost Value = { Appending };

    ghost view = { λ f. record {
      path = string_bytes f.path;
      is_within_line = f.is_within_line;
    } };
}

impl<R> AppendFile<R> {
    /// Returns the file of the path. Doesn't open it.
    pub fn new(files: R, path: String) -> AppendFile<R>
        ensures { result ≡ initial (string_bytes path) }
    {
        AppendFile {
            files,
            path,
            is_within_line: false,
        }
    }
}

impl<R: AppendCalls> AppendFile<R> {
    // Appends the bytes to the open file, after a newline if its last line lacks its own. Returns 0
    // if the newline wasn't taken.
    fn append_line(&self, file: &R::Locked, bytes: &[u8]) -> io::Result<usize>
        ensures bound { WritesAtMost result bytes.now }
        ensures appended { AppendsLine R.ends R.appends bytes.now result file.now }
    {
        if is_torn(self.files.last_byte(file)) && self.files.append(file, b"\n")? == 0 {
            return Ok(0);
        }
        self.files.append(file, bytes)
    }
}

impl<R: AppendCalls> Write for AppendFile<R> {
    /// Opens and locks the file, and appends the bytes in one write of the system. Bytes that begin
    /// a line are appended after a newline, if the file's last line lacks its own.
    ///
    /// # Errors
    ///
    /// The file's own error. None of the bytes was written.
    fn write(&mut self, bytes: &[u8]) -> io::Result<usize>
        ensures bound { WritesAtMost result bytes.now }
        ensures bytes { WriteAppends None None result bytes.now }
        ensures line { begins_line self.old bytes.now ≡ true
            → UnderLock R.locks self.old.path result
            (AppendsLine R.ends R.appends bytes.now result) }
        ensures within { begins_line self.old bytes.now ≡ false
            → UnderLock R.locks self.old.path result (λ file. R.appends file bytes.now result) }
        ensures after { self.new ≡ after_write self.old bytes.now result }
    {
        let begins_line = !self.is_within_line && is_torn(bytes.first().copied());
        let file = self.files.lock(self.path.as_str())?;
        let count = match begins_line {
            true => self.append_line(&file, bytes)?,
            false => self.files.append(&file, bytes)?,
        };
        if count > 0 {
            self.is_within_line = is_torn(bytes.get(count - 1).copied());
        }
        Ok(count)
    }

    /// Does nothing, since no bytes wait.
    fn flush(&mut self) -> io::Result<()>
        ensures bytes { Keeps None None }
        ensures ok { IsOk result }
        ensures same { self.new ≡ self.old }
    {
        Ok(())
    }
}
