//! The values of refusals.
ghost use Rattle.std.specs.Prelude.{◌≡◌, IfOk, codes};
ghost use Rattle.serde_json.specs.View.{view};
ghost use Rattle.fcg_json.specs.Reply.{refusal_data, field_refusal_data, before_data, after_data, coordinate_data, uri_data, bundle_data, class_data, absent_data, record_data};

use crate::name::{
    bad_byte_place, bundle_rule_name, class_rule_name, coordinate_rule_name, record_rule_name,
    uri_rule_name,
};
use crate::query::FieldName;
use crate::row::text_of;
use fcg_views::{Coordinate, CoordinateFault, UriFault};
use serde_json::{Value, json};
use std::alloc::{AllocError, Global};

// A refusal without further fields.
pub(crate) fn refusal(alloc: Global, fault: &str) -> Result<Value, AllocError>
    ensures { IfOk result (λ v. view v ≡ refusal_data fault.now) }
{
    json!(in alloc; {"fault": fault})
}

// A refusal that names a field.
pub(crate) fn with_name(alloc: Global, fault: &str, name: FieldName) -> Result<Value, AllocError>
    ensures { IfOk result (λ v. view v ≡ field_refusal_data fault.now name) }
{
    let name = name.name();
    json!(in alloc; {"fault": fault, "name": name})
}

// Refusals that tell the length of the log, a number of bytes, a count, a number of entries, an entry, a limit, and the
// number of a record.

pub(crate) fn with_at(alloc: Global, at: u64, fault: &str) -> Result<Value, AllocError>
    ensures { IfOk result (λ v. view v ≡ before_data (codes "at") at fault.now) }
{
    json!(in alloc; {"at": at, "fault": fault})
}

pub(crate) fn with_bytes(alloc: Global, bytes: u64, fault: &str) -> Result<Value, AllocError>
    ensures { IfOk result (λ v. view v ≡ before_data (codes "bytes") bytes fault.now) }
{
    json!(in alloc; {"bytes": bytes, "fault": fault})
}

pub(crate) fn with_count(alloc: Global, count: u32, fault: &str) -> Result<Value, AllocError>
    ensures { IfOk result (λ v. view v ≡ before_data (codes "count") count fault.now) }
{
    json!(in alloc; {"count": count, "fault": fault})
}

pub(crate) fn with_entries(alloc: Global, entries: u64, fault: &str) -> Result<Value, AllocError>
    ensures { IfOk result (λ v. view v ≡ before_data (codes "entries") entries fault.now) }
{
    json!(in alloc; {"entries": entries, "fault": fault})
}

pub(crate) fn with_entry(alloc: Global, entry: u64, fault: &str) -> Result<Value, AllocError>
    ensures { IfOk result (λ v. view v ≡ before_data (codes "entry") entry fault.now) }
{
    json!(in alloc; {"entry": entry, "fault": fault})
}

pub(crate) fn with_limit(alloc: Global, fault: &str, limit: u64) -> Result<Value, AllocError>
    ensures { IfOk result (λ v. view v ≡ after_data fault.now (codes "limit") limit) }
{
    json!(in alloc; {"fault": fault, "limit": limit})
}

pub(crate) fn with_seq(alloc: Global, fault: &str, seq: u64) -> Result<Value, AllocError>
    ensures { IfOk result (λ v. view v ≡ after_data fault.now (codes "seq") seq) }
{
    json!(in alloc; {"fault": fault, "seq": seq})
}

// A text that is no coordinate.
pub(crate) fn bad_coordinate(
    alloc: Global,
    index: u32,
    fault: CoordinateFault,
) -> Result<Value, AllocError>
    ensures { IfOk result (λ v. view v ≡ coordinate_data index fault) }
{
    let offset = bad_byte_place(fault);
    let rule = coordinate_rule_name(fault);
    json!(in alloc; {"fault": "BadCoordinate", "index": index, "offset": offset, "rule": rule})
}

// A text that is no method URI.
pub(crate) fn bad_uri(alloc: Global, fault: UriFault) -> Result<Value, AllocError>
    ensures { IfOk result (λ v. view v ≡ uri_data fault) }
{
    let offset = fault.offset;
    let rule = uri_rule_name(fault.rule);
    json!(in alloc; {"fault": "BadUri", "offset": offset, "rule": rule})
}

// A bundle that breaks a rule.
pub(crate) fn bad_bundle(
    alloc: Global,
    entry: u32,
    offset: u32,
    rule: u8,
) -> Result<Value, AllocError>
    ensures { IfOk result (λ v. view v ≡ bundle_data entry offset rule) }
{
    let rule = bundle_rule_name(rule);
    json!(in alloc; {"entry": entry, "fault": "BadBundle", "offset": offset, "rule": rule})
}

// A class file that breaks a rule.
pub(crate) fn bad_class(
    alloc: Global,
    entry: u32,
    index: u16,
    offset: u32,
    rule: u8,
) -> Result<Value, AllocError>
    ensures { IfOk result (λ v. view v ≡ class_data entry index offset rule) }
{
    let rule = class_rule_name(rule);
    json!(in alloc; {"entry": entry, "fault": "BadClass", "index": index, "offset": offset, "rule": rule})
}

// A release that isn't live.
pub(crate) fn absent_release(
    alloc: Global,
    at: u64,
    coordinate: &Coordinate,
) -> Result<Value, AllocError>
    ensures { IfOk result (λ v. view v ≡ absent_data at coordinate.now) }
{
    let coordinate = text_of(coordinate);
    json!(in alloc; {"at": at, "coordinate": coordinate, "fault": "AbsentRelease"})
}

// A record that breaks a rule.
pub(crate) fn bad_record(alloc: Global, rule: u8, seq: u64) -> Result<Value, AllocError>
    ensures { IfOk result (λ v. view v ≡ record_data rule seq) }
{
    let rule = record_rule_name(rule);
    json!(in alloc; {"fault": "BadRecord", "rule": rule, "seq": seq})
}
