// JSON values out of bytes.
ghost use Rattle.std.specs.Prelude.{◌≡◌, Some, None, IfOk, IfErr, option_map};
ghost use Rattle.serde_json.specs.View.{view};
ghost use Rattle.host_tiny.specs.Json.{json_of, whole_in as whole_of};

use serde_json::Value;
use std::alloc::Global;

/// Why there is no value.
#[derive(Clone, Copy, PartialEq, Eq)]
pub enum NoValue {
    NotJson,
    NoMemory,
}

/// The JSON value that the bytes are.
pub fn read_value(alloc: Global, text: &[u8]) -> Result<Value, NoValue>
    ensures ok { IfOk result (λ v. json_of text.now ≡ Some (view v)) }
    ensures err { IfErr result (λ e. e ≡ NoValue.NotJson → json_of text.now ≡ None) }
{
    match Value::from_slice(alloc, text) {
        Ok(value) => Ok(value),
        Err(e) if e.is_memory() => Err(NoValue::NoMemory),
        Err(_) => Err(NoValue::NotJson),
    }
}

/// The whole number that the value is, if it lies from `least` to `most`.
pub fn whole_in(value: Option<&Value>, least: u64, most: u64) -> Option<u64>
    ensures { result ≡ whole_of least most (option_map (λ v. view v.now) value.entry) }
{
    value
        .and_then(Value::as_u64)
        .filter(|n| least <= *n && *n <= most)
}
