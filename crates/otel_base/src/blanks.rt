//! Blanks: spaces and tabs (RFC 7230, section 3.2.3, `OWS`).
ghost use Rattle.std.specs.Prelude.{◌≡◌};
ghost use Rattle.otel_base.specs.Blanks.{cut_front, cut_end, cut_blanks};

const BLANKS: [char; 2] = [' ', '\t'];

fn cut_front(text: &str) -> &str
    ensures { result.now ≡ cut_front text.now }
{
    text.trim_start_matches(BLANKS)
}

fn cut_end(text: &str) -> &str
    ensures { result.now ≡ cut_end text.now }
{
    text.trim_end_matches(BLANKS)
}

/// Returns the text without the spaces and tabs at its ends. Unlike `str::trim`, it keeps other
/// white space. Not in the Rust crate.
pub fn cut_blanks(text: &str) -> &str
    ensures { result.now ≡ cut_blanks text.now }
{
    cut_end(cut_front(text))
}
