//! The names that are printed.
ghost use Rattle.std.specs.Prelude.{◌≡◌, map, get_or, []};
ghost use Rattle.fcg_json.specs.Names.{outcome_name, field_name, coordinate_rule_name, uri_rule_name, bundle_rule_name, class_rule_name, record_rule_name, allow_text, bad_byte_place};

use crate::query::FieldName;
use crate::reply::{Allow, CommandOutcome};
use fcg_views::{CoordinateFault, UriRule};

// The rules of bundles, each at its number.
const BUNDLE_RULES: [&str; 7] = [
    "",
    "Magic",
    "Version",
    "Cut",
    "Path",
    "Trailing",
    "ManySites",
];

// The rules of class files, each at its number.
const CLASS_RULES: [&str; 20] = [
    "",
    "Magic",
    "Version",
    "Cut",
    "BadTag",
    "BadUtf8",
    "BadIndex",
    "WrongKind",
    "Descriptor",
    "EmptyName",
    "DoubleMethod",
    "DoubleCode",
    "CodeLength",
    "CodeCut",
    "BadOpcode",
    "BadSwitch",
    "BadWide",
    "Bootstrap",
    "Trailing",
    "ManySites",
];

// The rules of records and the graphs in them, each at its number.
const RECORD_RULES: [&str; 16] = [
    "",
    "Magic",
    "Version",
    "Cut",
    "Order",
    "Index",
    "Kind",
    "DoubleMethod",
    "ManySites",
    "Trailing",
    "Unused",
    "Coordinate",
    "Number",
    "Withdraw",
    "Limit",
    "Command",
];

// The name at a number, or the empty text past the last.
fn name_at(names: &'static [&'static str], number: u8) -> &'static str
    ensures { result.now ≡ get_or (map (λ name. name.now) names.now) number [] }
{
    match names.get(usize::from(number)) {
        Some(name) => name,
        None => "",
    }
}

// A rule of bundles.
#[tactic(auto, unfolding(crate::specs::Names::bundle_rule_name))]
pub(crate) fn bundle_rule_name(rule: u8) -> &'static str
    ensures { result.now ≡ bundle_rule_name rule }
{
    name_at(&BUNDLE_RULES, rule)
}

// A rule of class files.
#[tactic(auto, unfolding(crate::specs::Names::class_rule_name))]
pub(crate) fn class_rule_name(rule: u8) -> &'static str
    ensures { result.now ≡ class_rule_name rule }
{
    name_at(&CLASS_RULES, rule)
}

// A rule of records.
#[tactic(auto, unfolding(crate::specs::Names::record_rule_name))]
pub(crate) fn record_rule_name(rule: u8) -> &'static str
    ensures { result.now ≡ record_rule_name rule }
{
    name_at(&RECORD_RULES, rule)
}

// A rule of coordinates.
pub(crate) fn coordinate_rule_name(fault: CoordinateFault) -> &'static str
    ensures { result.now ≡ coordinate_rule_name fault }
{
    match fault {
        CoordinateFault::Colons => "Colons",
        CoordinateFault::EmptyPart => "EmptyPart",
        CoordinateFault::BadByte { .. } => "BadByte",
        CoordinateFault::TooLong => "TooLong",
    }
}

// The place of a byte that a coordinate may not have, and 0 where another rule is broken.
pub(crate) fn bad_byte_place(fault: CoordinateFault) -> u32
    ensures { result ≡ bad_byte_place fault }
{
    match fault {
        CoordinateFault::BadByte { offset } => offset,
        _ => 0,
    }
}

// A rule of method URIs.
pub(crate) fn uri_rule_name(rule: UriRule) -> &'static str
    ensures { result.now ≡ uri_rule_name rule }
{
    match rule {
        UriRule::Scheme => "Scheme",
        UriRule::Coordinate => "Coordinate",
        UriRule::Shape => "Shape",
        UriRule::Escape => "Escape",
        UriRule::Descriptor => "Descriptor",
    }
}

impl CommandOutcome {
    // Its name in a reply.
    pub(crate) fn name(self) -> &'static str
        ensures { result.now ≡ outcome_name self }
    {
        match self {
            CommandOutcome::Entered => "entered",
            CommandOutcome::Repeated => "repeated",
            CommandOutcome::Standing => "standing",
        }
    }
}

impl FieldName {
    // The field's name.
    pub(crate) fn name(self) -> &'static str
        ensures { result.now ≡ field_name self }
    {
        match self {
            FieldName::Body => "body",
            FieldName::Releases => "releases",
            FieldName::Target => "target",
            FieldName::Part => "part",
            FieldName::From => "from",
            FieldName::Count => "count",
            FieldName::Min => "min",
        }
    }
}

impl Allow {
    /// The methods, as the header `allow` lists them. Takes no memory.
    pub fn text(self) -> &'static str
        ensures { result.now ≡ allow_text self }
    {
        match self {
            Allow::Get => "GET",
            Allow::PutDelete => "PUT, DELETE",
            Allow::Post => "POST",
        }
    }
}
