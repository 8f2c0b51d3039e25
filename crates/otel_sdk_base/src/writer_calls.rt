//! The calls on writers whose results no contract sees.
ghost use Rattle.std.specs.Io.KnownBytes.{Keeps, WriteAppends};
ghost use Rattle.std.specs.Io.{WritesAtMost};
ghost use Rattle.otel_sdk_base.specs.Writers.{FlushesNever, FlushesOnce};

use std::io::{self, Write};

/// The calls on a writer. Every [`Write`] has them.
///
/// No contract says what a writer answers. So each call ensures ghost members of which code that is
/// generic over this trait knows nothing: only the call shows them. A contract that cites
/// `may_write` says that the writer answered so to a write of these bytes. `flushed` relates a
/// writer and its answers to the flushes so far, in order: a contract says that it has one more.
pub trait WriterCalls: Write {
    ghost use Rattle.std.specs.Prelude.{ℕ, Bool, List, Result};
    ghost use Rattle.std.specs.declared.io.Error.{Error};

    ghost may_write: { List ℕ → Result ℕ Error → Type 0 };

    ghost flushed: { Self → List Bool → Type 0 };

    /// Writes some of the bytes, as [`Write::write`].
    fn write_some(&mut self, bytes: &[u8]) -> io::Result<usize>
        ensures bound { WritesAtMost result bytes.now }
        ensures bytes { WriteAppends (Self.contents self.old) (Self.contents self.new) result
            bytes.now }
        ensures answered { may_write bytes.now result }
        ensures unflushed { FlushesNever flushed self.old self.new };

    /// Flushes the writer. Returns `true` if that succeeded.
    fn flush_all(&mut self) -> bool
        ensures bytes { Keeps (Self.contents self.old) (Self.contents self.new) }
        ensures once { FlushesOnce flushed result self.old self.new };
}

impl<W: Write> WriterCalls for W {
    ghost may_write = { λ _ _. Unit {0} };

    ghost flushed = { λ _ _. Unit {0} };

    fn write_some(&mut self, bytes: &[u8]) -> io::Result<usize> {
        self.write(bytes)
    }

    fn flush_all(&mut self) -> bool {
        self.flush().is_ok()
    }
}
