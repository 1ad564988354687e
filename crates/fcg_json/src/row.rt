//! The values of rows and lists.
ghost use Rattle.std.specs.Prelude.{◌≡◌, IfOk, map};
ghost use Rattle.serde_json.specs.Data.{array, string};
ghost use Rattle.serde_json.specs.View.{view, items_of};
ghost use Rattle.fcg_grammar.specs.Spell.{IsBytes};
ghost use Rattle.fcg_views.specs.Uri.{Spells};
ghost use Rattle.fcg_json.specs.Reply.{pair_data, node_data};

use fcg_views::{Coordinate, MethodUri, NoMemory};
use percent_encoding::ascii_str;
use serde_json::{Value, json};
use std::alloc::{AllocError, Global};

// A pair.
fn pair_value(alloc: Global, pair: &(u32, u32)) -> Result<Value, AllocError>
    ensures { IfOk result (λ v. view v ≡ pair_data pair.now) }
{
    json!(in alloc; [pair.0, pair.1])
}

// The list of these pairs.
pub(crate) fn pairs_value(alloc: Global, rows: &[(u32, u32)]) -> Result<Value, AllocError>
    ensures { IfOk result (λ v. view v ≡ array (items_of (map pair_data rows.now))) }
{
    let mut list = Vec::with_capacity(alloc, rows.len())?;
    for row in rows {
        serde_json::push(&mut list, pair_value(alloc, row)?)?;
    }
    Ok(Value::Array(list))
}

// The text of a coordinate, which is ASCII.
pub(crate) fn text_of(coordinate: &Coordinate) -> &str
    ensures { result.now ≡ coordinate.now }
{
    ascii_str(coordinate.text())
}

// The list of the texts of these coordinates.
pub(crate) fn texts_value(alloc: Global, releases: &[Coordinate]) -> Result<Value, AllocError>
    ensures { IfOk result (λ v. view v ≡ array (items_of (map string releases.now))) }
{
    let mut list = Vec::with_capacity(alloc, releases.len())?;
    for release in releases {
        serde_json::push(&mut list, Value::try_from_str(alloc, text_of(release))?)?;
    }
    Ok(Value::Array(list))
}

// A name as it is. That each item of the slice is a byte is what callers learn by it.
fn held(name: &[u8]) -> &[u8]
    ensures is { result.now ≡ name.now }
    ensures bytes { IsBytes name.now }
{
    name
}

// The text that a method's URI is spelled by, which is ASCII, since each byte of the names that isn't is escaped.
fn ascii_uri<'a>(method: &MethodUri, text: &'a [u8]) -> &'a str
    requires { Spells text.now method.now }
    ensures { result.now ≡ text.now }
{
    let _class = held(method.class.as_slice());
    let _name = held(method.name.as_slice());
    let _desc = held(method.desc.as_slice());
    ascii_str(text)
}

// A method's URI.
fn node_value(alloc: Global, method: &MethodUri) -> Result<Value, NoMemory>
    ensures { IfOk result (λ v. view v ≡ node_data method.now) }
{
    let text = method.print(alloc)?;
    Ok(Value::try_from_str(alloc, ascii_uri(method, text.as_slice()))?)
}

// The list of the URIs of these methods.
pub(crate) fn nodes_value(alloc: Global, rows: &[MethodUri]) -> Result<Value, NoMemory>
    ensures { IfOk result (λ v. view v ≡ array (items_of (map node_data rows.now))) }
{
    let mut list = Vec::with_capacity(alloc, rows.len())?;
    for row in rows {
        serde_json::push(&mut list, node_value(alloc, row)?)?;
    }
    Ok(Value::Array(list))
}
