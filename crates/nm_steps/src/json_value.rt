//! JSON values, however they are kept in memory.

ghost use Rattle.std.specs.Prelude.{◌≡◌, option_map, option_and_then};
ghost use Rattle.serde_json.specs.Data.{Data};
ghost use Rattle.serde_json.specs.Find.{get, as_number, as_u64, as_bool, as_str, as_array};
ghost use Rattle.nm_steps.specs.Lists.{list_seen};

/// The items of a list.
#[derive(Drop)]
pub enum JsonList<'v, V> {
    /// Whole numbers below 2^64.
    Numbers(&'v [u64]),
    /// Any values.
    Values(&'v [V]),
}

/// A JSON value that steps can be read from: `serde_json::Value`, or the tree of a text (`value_of`), which owns no
/// strings. Contracts see the value that it is, `as_data`.
pub trait JsonValue {
    ghost as_data: { Self → Data };

    /// The value at a key. None if the key is missing, or this is not an object.
    fn get(&self, key: &str) -> Option<&Self>
        ensures { option_map (λ v. as_data v.now) result ≡ get key.now (as_data self.now) };

    /// A whole number below 2^64, or None if this is not one. `1.0` and `1e3` are not.
    fn as_u64(&self) -> Option<u64>
        ensures { result ≡ option_and_then as_u64 (as_number (as_data self.now)) };

    /// A string, or None if this is not a string.
    fn as_str(&self) -> Option<&str>
        ensures { option_map (λ s. s.now) result ≡ as_str (as_data self.now) };

    /// The items of a list, or None if this is not a list.
    fn as_list(&self) -> Option<JsonList<'_, Self>>
        ensures { option_map (list_seen as_data) result ≡ as_array (as_data self.now) };

    /// True or false, or None if this is neither.
    fn as_bool(&self) -> Option<bool>
        ensures { result ≡ as_bool (as_data self.now) };
}
