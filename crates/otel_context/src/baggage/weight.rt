//! The size of a baggage in bytes, and whether a member is accepted.
ghost use Rattle.std.specs.Prelude.{◌≡◌, ◌+◌, ◌≤◌, length, ◌&&◌, nat_le, nat_lt, Some, None};
ghost use Rattle.std.specs.Prelude.{if◌then◌else◌, option_copied};
ghost use Rattle.otel_context.specs.Baggage.{IsBaggage, max_key_value_pairs, max_len_of_all_pairs};
ghost use Rattle.otel_context.specs.Baggage.{get_with_metadata, weight};
ghost use Rattle.otel_context.specs.BaggageMember.{member_of, weight_of};
ghost use Rattle.otel_context.specs.BaggageText.{is_key};
ghost use Rattle.otel_context.specs.BaggageView.{entry_member, entry_members};
ghost use Rattle.otel_context.specs.BaggageWeight.{weight_of_others, weight_after};

use super::key::is_key_valid;
use super::members::Members;
use super::metadata::BaggageMetadata;
use otel_base::StringValue;

/// The maximum number of members of a baggage (W3C baggage, "Limits").
pub const MAX_KEY_VALUE_PAIRS: usize = 64;

/// The maximum number of bytes of all keys, values and metadata of a baggage together (W3C baggage,
/// "Limits").
pub const MAX_LEN_OF_ALL_PAIRS: usize = 8192;

/// Returns the number of bytes of a member.
pub(super) fn weight_of(key: &str, pair: &(StringValue, BaggageMetadata)) -> usize
    requires { weight_of (entry_member (key.now, pair.now)) ≤ max_len_of_all_pairs }
    ensures { result ≡ weight_of (entry_member (key.now, pair.now)) }
{
    key.len() + pair.0.as_str().len() + pair.1.as_str().len()
}

/// Returns `others` plus the number of bytes of a member, or `None` if the sum is more than 8192.
fn weight_with(others: usize, key: &str, value: &str, metadata: &str) -> Option<usize>
    ensures { let total = others + (length key.now + (length value.now + length metadata.now)) in
        result ≡ (if nat_le total max_len_of_all_pairs then Some total else None) }
{
    let left = MAX_LEN_OF_ALL_PAIRS
        .checked_sub(others)?
        .checked_sub(key.len())?
        .checked_sub(value.len())?
        .checked_sub(metadata.len())?;
    Some(MAX_LEN_OF_ALL_PAIRS - left)
}

/// Returns `true` if a member with this new key may be added: the key is valid, and there are fewer
/// than 64 members.
fn takes_new_key(held: &Members, key: &str) -> bool
    ensures { let few = nat_lt (length held.now) max_key_value_pairs in
        result ≡ (is_key key.now && few) }
{
    is_key_valid(key) && held.len() < MAX_KEY_VALUE_PAIRS
}

/// Returns the number of bytes of the members with other keys, or `None` if this key isn't
/// accepted. `pair` is the present value and metadata of the key. A present key isn't checked
/// again.
fn weight_of_others(
    held: &Members,
    total: usize,
    key: &str,
    pair: Option<&(StringValue, BaggageMetadata)>,
) -> Option<usize>
    requires baggage { IsBaggage (entry_members held.now) }
    requires sum { total ≡ weight (entry_members held.now) }
    requires pair { option_copied pair
        ≡ get_with_metadata (entry_members held.now) key.now }
    ensures { result ≡ weight_of_others (entry_members held.now) key.now }
{
    match pair {
        Some(pair) => Some(total - weight_of(key, pair)),
        None => {
            if takes_new_key(held, key) {
                Some(total)
            } else {
                None
            }
        }
    }
}

/// Returns the number of bytes of all members after inserting this one, or `None` if it isn't
/// accepted. `pair` is the present value and metadata of the key.
pub(super) fn weight_after(
    held: &Members,
    total: usize,
    key: &str,
    pair: Option<&(StringValue, BaggageMetadata)>,
    value: &str,
    metadata: &str,
) -> Option<usize>
    requires baggage { IsBaggage (entry_members held.now) }
    requires sum { total ≡ weight (entry_members held.now) }
    requires pair { option_copied pair
        ≡ get_with_metadata (entry_members held.now) key.now }
    ensures { let m = member_of key.now value.now metadata.now in
        result ≡ weight_after (entry_members held.now) m }
{
    let others = weight_of_others(held, total, key, pair)?;
    weight_with(others, key, value, metadata)
}
