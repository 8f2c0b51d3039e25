//! The keys that a baggage accepts.
ghost use Rattle.std.specs.Prelude.{◌≡◌};
ghost use Rattle.std.specs.List.{list_all};
ghost use Rattle.otel_context.specs.BaggageText.{is_delimiter, is_key_byte, is_key};

/// The delimiters of RFC 7230, section 3.2.6, which a key may not contain.
const DELIMITERS: &[u8] = b"(),/:;<=>?@[\\]{}\"";

fn is_delimiter(byte: u8) -> bool
    ensures { result ≡ is_delimiter byte }
{
    DELIMITERS.iter().any(|delimiter| *delimiter == byte)
}

fn is_key_byte(byte: u8) -> bool
    ensures { result ≡ is_key_byte byte }
{
    byte.is_ascii_graphic() && !is_delimiter(byte)
}

fn are_key_bytes(key: &str) -> bool
    ensures { result ≡ list_all is_key_byte key.now }
{
    key.as_bytes().iter().all(|byte| is_key_byte(*byte))
}

/// Returns `true` if a new key may be inserted: one or more visible ASCII characters, without
/// delimiters.
pub(super) fn is_key_valid(key: &str) -> bool
    ensures { result ≡ is_key key.now }
{
    !key.is_empty() && are_key_bytes(key)
}
