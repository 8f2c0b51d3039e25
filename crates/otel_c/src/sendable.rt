//! Texts that headers can carry.
ghost use Rattle.std.specs.Prelude.{◌≡◌, true, OnOk, IfErr};
ghost use Rattle.http_header.specs.FieldValue.{is_visible_text};
ghost use Rattle.otel_c.specs.Status.{IsUnsendable};

use crate::status::Status;

/// Returns `true` if a header can carry the text.
fn is_sendable(text: &str) -> bool
    ensures { result ≡ is_visible_text text.now }
{
    let bytes = text.as_bytes();
    bytes
        .iter()
        .all(|b| *b == b'\t' || (*b >= b' ' && *b < 0x7f))
}

/// Checks that a header can carry the text.
///
/// # Errors
///
/// `Unsendable` if it has a byte other than tabs and the ASCII characters from space to `~`.
pub fn check(text: &str) -> Result<(), Status>
    ensures sendable { OnOk result (is_visible_text text.now ≡ true) }
    ensures refused { IfErr result (λ status. IsUnsendable text.now status) }
{
    if is_sendable(text) {
        Ok(())
    } else {
        Err(Status::Unsendable)
    }
}
