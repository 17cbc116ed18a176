//! The values of serde_json, as values that steps are read from.

ghost use Rattle.serde_json.specs.View.{view};

use crate::json_value::{JsonList, JsonValue};
use serde_json::Value;

impl JsonValue for Value {
    ghost as_data = { view };

    fn get(&self, key: &str) -> Option<&Value> {
        self.get(key)
    }

    fn as_u64(&self) -> Option<u64> {
        self.as_u64()
    }

    fn as_str(&self) -> Option<&str> {
        self.as_str()
    }

    fn as_list(&self) -> Option<JsonList<'_, Value>> {
        match self.as_array() {
            Some(items) => Some(JsonList::Values(items.as_slice())),
            None => None,
        }
    }

    fn as_bool(&self) -> Option<bool> {
        self.as_bool()
    }
}
