//! Members of objects.
ghost use Rattle.std.specs.Prelude.{◌≡◌, ◌≢◌, IfSome, IsSomeAnd, MatchOption, string_bytes};

use serde_json::Value;

/// The value of the member, if it has this key.
pub(crate) fn value_of<'a>(member: Option<(&'a String, &'a Value)>, key: &str) -> Option<&'a Value>
    ensures { MatchOption result (IfSome member.entry (λ pair. string_bytes pair.0.now ≢ key.now))
        (λ value. IsSomeAnd member.entry (λ pair. (string_bytes pair.0.now ≡ key.now) × (value ≡ pair.1))) }
{
    match member {
        Some((found, value)) if found.as_str() == key => Some(value),
        _ => None,
    }
}
