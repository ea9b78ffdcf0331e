//! A value of JSON as text on one line, and a value with one member more. `Err` says that there is no memory.

ghost use Rattle.std.specs.Prelude.{◌≡◌, IfOk, string_bytes};
ghost use Rattle.serde_json.specs.View.{view};
ghost use Rattle.ucl_json.specs.Lines.{IsFlat, IsLineOf};
ghost use Rattle.ucl_json.specs.Values.{with_member};

use serde_json::{Value, put};
use std::alloc::{AllocError, Global};

/// Returns `value` with `member` under this name, if it is an object, and else `value` as it is.
pub(crate) fn with_member(
    alloc: Global,
    value: Value,
    name: &str,
    member: Value,
) -> Result<Value, AllocError>
    ensures { IfOk result (λ with. view with ≡ with_member name.now (view member) (view value)) }
{
    match value {
        Value::Object(map) => {
            let mut map = map;
            put(&mut map, alloc, name, member)?;
            Ok(Value::Object(map))
        }
        other => Ok(other),
    }
}

/// Formats a value of JSON as text on one line, which ends with a line feed. The value has no float, and is nested no deeper than can be
/// read back.
#[tactic(auto, using(crate::proofs::OneLine::line_is_one))]
pub(crate) fn format_line(alloc: Global, value: &Value) -> Result<String, AllocError>
    requires { IsFlat (view value.now) }
    ensures { IfOk result (λ line. IsLineOf (view value.now) (string_bytes line)) }
{
    let mut line = value.to_string(alloc)?;
    line.push('\n')?;
    Ok(line)
}
