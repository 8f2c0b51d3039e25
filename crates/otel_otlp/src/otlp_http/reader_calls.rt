//! The calls on readers whose results no contract sees.
ghost use Rattle.std.specs.Prelude.{◌≡◌, ◌<◌, ◌++◌, List, ℕ, length, IfOk, OnErr};
ghost use Rattle.std.specs.Io.KnownBytes.{Keeps, Consumes};

use bytes::BytesMut;
use std::io::{self, Read};

/// The calls on a reader. Every [`Read`] has them.
///
/// No contract says what a reader answers. So the call ensures a ghost member of which code that is
/// generic over this trait knows nothing: only the call shows it. A contract that cites it says
/// that the reader answered so.
pub trait ReaderCalls: Read {
    ghost use Rattle.std.specs.Prelude.{ℕ, Result};
    ghost use Rattle.std.specs.declared.io.Error.{Error};

    ghost may_read: { Result ℕ Error → Type 0 };

    /// Reads once into the spare room, as [`BytesMut::read_from`]. An answer is shown only if there
    /// was room.
    fn read_into(&mut self, bytes: &mut BytesMut) -> io::Result<usize>
        ensures ok { IfOk result (λ count. (more : List ℕ) × (length more ≡ count)
            × (bytes.new.items ≡ bytes.old.items ++ more)
            × Consumes (Self.remaining self.old) (Self.remaining self.new) more) }
        ensures err { OnErr result ((bytes.new ≡ bytes.old)
            × Keeps (Self.remaining self.old) (Self.remaining self.new)) }
        ensures answered { 0 < bytes.old.spare → may_read result };
}

impl<R: Read> ReaderCalls for R {
    ghost may_read = { λ _. Unit {0} };

    fn read_into(&mut self, bytes: &mut BytesMut) -> io::Result<usize> {
        bytes.read_from(self)
    }
}
