//! A message that is written from its end to its start, so that the length of each message is known
//! when it is written. The same code counts the bytes first, and then writes them.
ghost use Rattle.std.specs.Prelude.{◌≡◌, ◌<◌, ◌^◌, length, Some, IfOk, OnOk};
ghost use Rattle.otel_proto.specs.Output as spec;
ghost use Rattle.otel_proto.specs.Output.{put_bytes, counting, writing};

use std::alloc::{AllocError, Global};
use std::marker::Model;

/// The end of a message.
///
/// Contracts see the number of its bytes and, unless they are only counted, the bytes.
#[derive(Drop)]
pub struct Output {
    // The number of bytes that were put.
    count: usize,
    // The buffer, whose last `count` bytes were put, or `None` to count only.
    buffer: Option<Vec<u8>>,
}

impl Model for Output {
    ghost use Rattle.std.specs.Prelude.{◌≤◌, ◌-◌, length, drop, option_map};
    ghost use Rattle.std.specs.Option.{ForSome};
    ghost use Rattle.otel_proto.specs.Output as spec;

    ghost Value = { spec.Output };

    ghost view = { λ o. record {
      count = o.count;
      bytes = option_map (λ v. drop (length v.items - o.count) v.items) o.buffer;
    } };

    ghost invariant = { λ o. ForSome o.buffer (λ v. o.count ≤ length v.items) };
}

impl Output {
    /// Creates an output that counts.
    pub fn counting() -> Output
        ensures { result ≡ counting }
    {
        Output {
            count: 0,
            buffer: None,
        }
    }

    /// Creates an output with a buffer of the size.
    ///
    /// # Errors
    ///
    /// `AllocError` if out of memory.
    pub fn with_size(alloc: Global, size: usize) -> Result<Output, AllocError>
        ensures { IfOk result (λ o. o ≡ writing) }
    {
        Ok(Output {
            count: 0,
            buffer: Some(vec![in alloc; 0; size]?),
        })
    }

    /// Returns the number of bytes that were put.
    pub fn count(&self) -> usize
        ensures { result ≡ self.now.count }
    {
        self.count
    }

    /// Puts the bytes before the others.
    ///
    /// # Errors
    ///
    /// `AllocError` if they don't fit the buffer, or if more than `usize::MAX` are counted. Nothing
    /// changes.
    pub fn put(&mut self, bytes: &[u8]) -> Result<(), AllocError>
        ensures { OnOk result (self.new ≡ put_bytes bytes.now self.old) }
    {
        let Some(count) = self.count.checked_add(bytes.len()) else {
            return Err(AllocError);
        };
        if let Some(buffer) = &mut self.buffer {
            let size = buffer.len();
            if size < count {
                return Err(AllocError);
            }
            buffer[size - count..size - self.count].copy_from_slice(bytes);
        }
        self.count = count;
        Ok(())
    }

    /// Returns the bytes.
    ///
    /// # Errors
    ///
    /// `AllocError` if they were only counted, or don't fill the buffer.
    pub fn into_bytes(self) -> Result<Vec<u8>, AllocError>
        ensures bytes { IfOk result (λ v. self.bytes ≡ Some v.items) }
        ensures short { IfOk result (λ v. length v.items < 2 ^ 64) }
    {
        let Output { count, buffer } = self;
        match buffer {
            Some(buffer) if buffer.len() == count => Ok(buffer),
            _ => Err(AllocError),
        }
    }
}
