ghost use Rattle.std.specs.Prelude.{◌≡◌, IfOk};
ghost use Rattle.serde_json.specs.View.{view};
ghost use Rattle.sd_run_streams.specs.TableMembers.{object_by};

use serde_json::{Map, Value, put};
use std::alloc::{AllocError, Global};

/// The object with these members. One `json!` of many costs its proof far more, since each of its members may fail.
pub(crate) fn object_of(alloc: Global, members: Vec<(&str, Value)>) -> Result<Value, AllocError>
    ensures { IfOk result (λ value. view value ≡ object_by members.entry.items) }
{
    let mut object = Map::new(alloc);
    for (key, value) in members {
        put(&mut object, alloc, key, value)?;
    }
    Ok(Value::Object(object))
}
