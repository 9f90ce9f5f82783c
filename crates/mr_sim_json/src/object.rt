//! An object of JSON, as it is put together, and lines of JSON.
ghost use Rattle.std.specs.Prelude.{◌≡◌, ◌++◌, OnOk, map, false};
ghost use Rattle.serde_json.specs.Data.{boolean, object, put as with_member, string};
ghost use Rattle.serde_json.specs.View.{members_view, view};
ghost use Rattle.serde_json.specs.Written.{has_float};
ghost use Rattle.mr_sim_json.specs.Members.{count, line_of, list, text};

use serde_json::{Map, Value, put};
use std::alloc::{AllocError, Global};

/// The members of an object by their keys, as it is put together.
pub type Object = Map<String, Value>;

/// A word at a key.
pub fn put_word(object: &mut Object, alloc: Global, key: &str, word: &str) -> Result<(), AllocError>
    ensures { OnOk result (members_view object.new.entries ≡ with_member key.now (string word.now) (members_view object.old.entries)) }
{
    put(object, alloc, key, Value::try_from_str(alloc, word)?)
}

/// Words at a key. Bytes of them that are no UTF-8 are replaced.
pub fn put_text(
    object: &mut Object,
    alloc: Global,
    key: &str,
    words: &[u8],
) -> Result<(), AllocError>
    ensures { OnOk result (members_view object.new.entries ≡ with_member key.now (text words.now) (members_view object.old.entries)) }
{
    let text = String::from_utf8_lossy(alloc, words)?;
    put_word(object, alloc, key, text.as_str())
}

/// A number at a key.
pub fn put_count(
    object: &mut Object,
    alloc: Global,
    key: &str,
    number: u64,
) -> Result<(), AllocError>
    ensures { OnOk result (members_view object.new.entries ≡ with_member key.now (count number) (members_view object.old.entries)) }
{
    put(object, alloc, key, Value::from(number))
}

/// Yes or no at a key.
pub fn put_flag(object: &mut Object, alloc: Global, key: &str, flag: bool) -> Result<(), AllocError>
    ensures { OnOk result (members_view object.new.entries ≡ with_member key.now (boolean flag) (members_view object.old.entries)) }
{
    put(object, alloc, key, Value::from(flag))
}

/// A list of values at a key.
pub fn put_list(
    object: &mut Object,
    alloc: Global,
    key: &str,
    values: Vec<Value>,
) -> Result<(), AllocError>
    ensures { OnOk result (members_view object.new.entries ≡ with_member key.now (list (map view values.items)) (members_view object.old.entries)) }
{
    put(object, alloc, key, Value::from(values))
}

/// The object as a value. It takes no memory.
pub fn into_value(members: Object) -> Value
    ensures { view result ≡ object (members_view members.entries) }
{
    Value::from(members)
}

/// A value as a line of compact JSON.
pub fn put_line(out: &mut Vec<u8>, alloc: Global, value: &Value) -> Result<(), AllocError>
    requires { has_float (view value.now) ≡ false }
    ensures { OnOk result (out.new.items ≡ out.old.items ++ line_of (view value.now)) }
{
    let text = value.to_string(alloc)?;
    out.extend_from_slice(text.as_bytes())?;
    out.extend_from_slice(b"\n")
}
