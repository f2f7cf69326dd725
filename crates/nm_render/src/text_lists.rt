//! Texts as lines, or as a JSON array of strings, for `items` and `summary_json`.

ghost use Rattle.std.specs.Prelude.{◌≡◌, ◌≤◌, ◌++◌, map, false, true, IfOk, OnOk, Some};
ghost use Rattle.serde_json.specs.Data.{array, depth, string};
ghost use Rattle.serde_json.specs.Read.{max_depth, read};
ghost use Rattle.serde_json.specs.View.{items_of, view};
ghost use Rattle.serde_json.specs.Written.{compact_text, has_float};
ghost use Rattle.nm_model_answer.specs.Search.{item_line, lines_text, strings_json, texts_printed};
ghost use Rattle.nm_render.specs.ReadBack.{ReadsBack};

use nm_base::{Many, NoMemory, Text};
use serde_json::Value;
use std::alloc::Global;

/// The texts in the form that is asked; in lines each comes after `before`.
pub(crate) fn texts_printed(
    alloc: Global,
    json: bool,
    before: &[u8],
    texts: &[Text],
) -> Result<Many<u8>, NoMemory>
    ensures text { IfOk result (λ text. text ≡ texts_printed json before.now texts.now) }
    ensures reads_back { json ≡ true → IfOk result (λ text. ReadsBack (map string texts.now) text) }
{
    if json {
        return strings_json(alloc, texts);
    }
    lines_text(alloc, before, texts)
}

fn lines_text(alloc: Global, before: &[u8], texts: &[Text]) -> Result<Many<u8>, NoMemory>
    ensures { IfOk result (λ text. text ≡ lines_text before.now texts.now) }
{
    let mut lines = Many::new(alloc);
    'texts: for text in texts {
        push_line(&mut lines, before, text)?;
    }
    Ok(lines)
}

fn push_line(lines: &mut Many<u8>, before: &[u8], text: &Text) -> Result<(), NoMemory>
    ensures { OnOk result (lines.new ≡ lines.old ++ item_line before.now text.now) }
{
    lines.extend_from_slice(before)?;
    lines.extend_from_slice(text.as_bytes())?;
    lines.push(b'\n')?;
    Ok(())
}

/// The texts as an array of strings, and LF. The library reads the array as these strings.
pub(crate) fn strings_json(alloc: Global, texts: &[Text]) -> Result<Many<u8>, NoMemory>
    ensures text { IfOk result (λ json. json ≡ strings_json texts.now) }
    ensures reads_back { IfOk result (λ json. ReadsBack (map string texts.now) json) }
{
    let strings = strings(alloc, texts)?;
    let mut json = array_text(alloc, strings)?;
    json.push(b'\n')?;
    Ok(json)
}

/// Values as an array.
pub(crate) fn array_text(alloc: Global, values: Vec<Value>) -> Result<Many<u8>, NoMemory>
    ensures text { IfOk result (λ json. has_float (array (items_of (map view values.items))) ≡ false → json ≡ compact_text (array (items_of (map view values.items)))) }
    ensures reads_back { IfOk result (λ json. depth (array (items_of (map view values.items))) ≤ max_depth → read json ≡ Some (array (items_of (map view values.items)))) }
{
    let array = Value::Array(values);
    Ok(Many::from_vec(array.to_vec(alloc)?))
}

/// Texts as strings.
pub(crate) fn strings(alloc: Global, texts: &[Text]) -> Result<Vec<Value>, NoMemory>
    ensures { IfOk result (λ values. map view values.items ≡ map string texts.now) }
{
    let mut values = Vec::new(alloc);
    'texts: for text in texts {
        values.push(Value::try_from_str(alloc, text.as_str())?)?;
    }
    Ok(values)
}
