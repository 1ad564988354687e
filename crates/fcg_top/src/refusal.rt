//! The lines of refusals.
ghost use Rattle.std.specs.Prelude.{◌≡◌, ◌++◌, IfOk, OnOk, string_bytes};
ghost use Rattle.fcg_top.specs.Text.{line};
ghost use Rattle.fcg_top.specs.Refused.{bundle_rule_name, class_rule_name, bad_bundle, bad_class, bad_path, body_of};

use crate::status::Refusal;
use fcg_class::BundleRule;
use fcg_classfile::{ClassFault, ClassRule};
use fcg_views::{Bytes, NoMemory};
use std::alloc::{AllocError, Global};

fn name_of_bundle_rule(rule: BundleRule) -> &'static str
    ensures { result.now ≡ bundle_rule_name rule }
{
    match rule {
        BundleRule::Magic => "Magic",
        BundleRule::Version => "Version",
        BundleRule::Cut => "Cut",
        BundleRule::Path => "Path",
        BundleRule::Trailing => "Trailing",
        BundleRule::ManySites => "ManySites",
    }
}

fn name_of_class_rule(rule: ClassRule) -> &'static str
    ensures { result.now ≡ class_rule_name rule }
{
    match rule {
        ClassRule::Magic => "Magic",
        ClassRule::Version => "Version",
        ClassRule::Cut => "Cut",
        ClassRule::BadTag => "BadTag",
        ClassRule::BadUtf8 => "BadUtf8",
        ClassRule::BadIndex => "BadIndex",
        ClassRule::WrongKind => "WrongKind",
        ClassRule::Descriptor => "Descriptor",
        ClassRule::EmptyName => "EmptyName",
        ClassRule::DoubleMethod => "DoubleMethod",
        ClassRule::DoubleCode => "DoubleCode",
        ClassRule::CodeLength => "CodeLength",
        ClassRule::CodeCut => "CodeCut",
        ClassRule::BadOpcode => "BadOpcode",
        ClassRule::BadSwitch => "BadSwitch",
        ClassRule::BadWide => "BadWide",
        ClassRule::Bootstrap => "Bootstrap",
        ClassRule::Trailing => "Trailing",
        ClassRule::ManySites => "ManySites",
    }
}

fn push_bad_bundle(
    out: &mut String,
    entry: u32,
    offset: u32,
    rule: BundleRule,
) -> Result<(), AllocError>
    ensures { OnOk result (string_bytes out.new ≡ string_bytes out.old ++ bad_bundle entry offset rule) }
{
    let name = name_of_bundle_rule(rule);
    write!(
        out,
        "{{\"entry\":{entry},\"fault\":\"BadBundle\",\"offset\":{offset},\"rule\":\"{name}\"}}"
    )?;
    Ok(())
}

fn push_bad_class(out: &mut String, entry: u32, fault: ClassFault) -> Result<(), AllocError>
    ensures { OnOk result (string_bytes out.new ≡ string_bytes out.old ++ bad_class entry fault) }
{
    let index = fault.index;
    let offset = fault.offset;
    let name = name_of_class_rule(fault.rule);
    write!(
        out,
        "{{\"entry\":{entry},\"fault\":\"BadClass\",\"index\":{index},\"offset\":{offset},\"rule\":\"{name}\"}}"
    )?;
    Ok(())
}

fn push_bad_path(out: &mut String, entry: u32) -> Result<(), AllocError>
    ensures { OnOk result (string_bytes out.new ≡ string_bytes out.old ++ bad_path entry) }
{
    write!(out, "{{\"entry\":{entry},\"fault\":\"BadPath\"}}")?;
    Ok(())
}

fn push_refusal(out: &mut String, refusal: Refusal) -> Result<(), AllocError>
    ensures { OnOk result (string_bytes out.new ≡ string_bytes out.old ++ body_of refusal) }
{
    match refusal {
        Refusal::BodyTooLong => out.push_str("{\"fault\":\"BodyTooLong\",\"limit\":67108864}"),
        Refusal::Jar => out.push_str("{\"fault\":\"Jar\"}"),
        Refusal::BadBundle {
            entry,
            offset,
            rule,
        } => push_bad_bundle(out, entry, offset, rule),
        Refusal::BadClass { entry, fault } => push_bad_class(out, entry, fault),
        Refusal::Absent => out.push_str("{\"fault\":\"Absent\"}"),
        Refusal::TooLong => out.push_str("{\"fault\":\"TooLong\"}"),
        Refusal::BadPath { entry } => push_bad_path(out, entry),
    }
}

/// The line of a refusal: a JSON object with its keys in the order of their letters, numbers in decimal digits, and a
/// line feed. A rule has its name in [`BundleRule`] or [`ClassRule`].
pub fn print_refusal(alloc: Global, refusal: Refusal) -> Result<Bytes, NoMemory>
    ensures { IfOk result (λ text. text ≡ line (body_of refusal)) }
{
    let mut out = String::new(alloc);
    push_refusal(&mut out, refusal)?;
    out.push('\n')?;
    Ok(Bytes::from(out.into_bytes()))
}
