//! Looking into a JSON value.

ghost use Rattle.std.specs.Prelude.{◌≡◌, is_some, option_map};
ghost use Rattle.std.specs.List.{list_all};
ghost use Rattle.serde_json.specs.View.{items_view, view};
ghost use Rattle.json_log.specs.Look.{has_exactly as is_exactly, items_at as items_found, member_count, text_at as text_found, value_at as value_found, whole as whole_in, whole_at as whole_found};

use crate::key::Key;
use serde_json::Value;

// The value at a key of an object.
fn value_at(value: &Value, key: Key) -> Option<&Value>
    ensures { option_map (λ v. view v.now) result ≡ value_found key (view value.now) }
{
    value.get(key.word())
}

// How many members an object has.
fn members(value: &Value) -> usize
    ensures { result ≡ member_count (view value.now) }
{
    match value.as_object() {
        Some(members) => members.len(),
        None => 0,
    }
}

fn has(value: &Value, key: Key) -> bool
    ensures { result ≡ is_some (value_found key (view value.now)) }
{
    value_at(value, key).is_some()
}

fn has_all(value: &Value, keys: &[Key]) -> bool
    ensures { result ≡ list_all (λ key. is_some (value_found key (view value.now))) keys.now }
{
    keys.iter().all(|key| has(value, *key))
}

/// Whether a value is an object with exactly these keys.
pub fn has_exactly(value: &Value, keys: &[Key]) -> bool
    ensures { result ≡ is_exactly keys.now (view value.now) }
{
    members(value) == keys.len() && has_all(value, keys)
}

/// The string at a key.
pub fn text_at(value: &Value, key: Key) -> Option<&str>
    ensures { option_map (λ text. text.now) result ≡ text_found key (view value.now) }
{
    value_at(value, key)?.as_str()
}

/// The items of the array at a key.
pub fn items_at(value: &Value, key: Key) -> Option<&Vec<Value>>
    ensures { option_map (λ items. items_view items.now.items) result ≡ items_found key (view value.now) }
{
    value_at(value, key)?.as_array()
}

/// The whole number that a value is: one of 64 bits, with a sign or without.
pub fn whole(value: &Value) -> Option<i128>
    ensures { result ≡ whole_in (view value.now) }
{
    match value.as_i64() {
        Some(n) => Some(n as i128),
        None => Some(value.as_u64()? as i128),
    }
}

/// The whole number at a key.
pub fn whole_at(value: &Value, key: Key) -> Option<i128>
    ensures { result ≡ whole_found key (view value.now) }
{
    whole(value_at(value, key)?)
}
