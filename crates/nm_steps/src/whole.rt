//! Whole numbers below 2^64, as JSON values. A list of nothing else is kept as such.

ghost use Rattle.nm_steps.specs.Lists.{whole};

use crate::json_value::{JsonList, JsonValue};

impl JsonValue for u64 {
    ghost as_data = { whole };

    fn get(&self, _key: &str) -> Option<&u64> {
        None
    }

    fn as_u64(&self) -> Option<u64> {
        Some(*self)
    }

    fn as_str(&self) -> Option<&str> {
        None
    }

    fn as_list(&self) -> Option<JsonList<'_, u64>> {
        None
    }

    fn as_bool(&self) -> Option<bool> {
        None
    }
}
