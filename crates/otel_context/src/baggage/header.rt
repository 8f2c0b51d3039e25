//! The `baggage` header.
ghost use Rattle.std.specs.Prelude.{◌≡◌};
ghost use Rattle.std.specs.Fmt.{WritesOnOk};
ghost use Rattle.percent_encoding.specs.Iter.{encoded_text};
ghost use Rattle.otel_context.specs.BaggageHeader.{header, member_text};
ghost use Rattle.otel_context.specs.BaggageText.{escaped};
ghost use Rattle.otel_context.specs.BaggageView.{entry_member, entry_members};

use super::members::Members;
use super::metadata::BaggageMetadata;
use otel_base::{Key, StringValue};
use percent_encoding::{AsciiSet, NON_ALPHANUMERIC, PercentEncode, ascii_set, utf8_percent_encode};
use std::fmt;

/// The bytes to escape: all except A-Z, a-z, 0-9 and . - _ ~ (RFC 3986, section 2.3).
const ESCAPED: AsciiSet = ascii_set!(
    NON_ALPHANUMERIC
        .remove(b'.')
        .remove(b'-')
        .remove(b'_')
        .remove(b'~')
);

fn encode(value: &str) -> PercentEncode<'_>
    ensures { encoded_text result ≡ escaped value.now }
{
    utf8_percent_encode(value, ESCAPED)
}

fn write_member<W: fmt::Write>(
    key: &Key,
    pair: &(StringValue, BaggageMetadata),
    f: &mut fmt::Formatter<W>,
) -> fmt::Result
    ensures { let m = entry_member (key.now, pair.now) in
        WritesOnOk W.write_str_gives f.old result (member_text m) f.new }
{
    let value = encode(pair.0.as_str());
    let metadata = pair.1.as_str();
    if metadata.is_empty() {
        write!(f, "{key}={value}")
    } else {
        write!(f, "{key}={value};{metadata}")
    }
}

/// Writes the members in order, joined by commas, in one pass.
pub(super) fn write_header<W: fmt::Write>(held: &Members, f: &mut fmt::Formatter<W>) -> fmt::Result
    ensures { let ms = entry_members held.now in
        WritesOnOk W.write_str_gives f.old result (header ms) f.new }
{
    let mut comma = "";
    for (key, pair) in held.iter() {
        f.write_str(comma)?;
        write_member(key, pair, f)?;
        comma = ",";
    }
    Ok(())
}
