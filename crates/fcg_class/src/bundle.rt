//! Bundles of class files.
ghost use Rattle.std.specs.Prelude.{◌≡◌, ◌≤◌, ◌<◌, ◌^◌, ◌↔◌, ◌++◌, ℕ, List, [], length, OnOk, IfOk, IsTrue, IsErrOf};
ghost use Rattle.std.specs.List.{All};
ghost use Rattle.fcg_grammar.specs.Reading.{seen, Gives};
ghost use Rattle.fcg_grammar.specs.Rows.{rows};
ghost use Rattle.fcg_views.specs.declared.view.View.{View};
ghost use Rattle.fcg_views.specs.Valid.{IsValid, left_of, name_count};
ghost use Rattle.fcg_class.specs.Internal.Entries.{error_in_entry, entries_before, before_first, ArePaths, GivesEntry, GivesEntries};
ghost use Rattle.fcg_class.specs.Bundle.{Content, broken, some_of, shown, sites_in, held, path_at, body_at, entry_at, entries_of, bundle_of, is_jar};
ghost use Rattle.fcg_class.specs.Path.{is_class_path};

use crate::path::{is_class_path, is_path, is_path_length, is_versioned};
use fcg_classfile::ClassFault;
use fcg_grammar::{ReadError, read_part, read_u2, read_u4};
use fcg_reader::read_numbered;
use fcg_views::{NumberedView, Views, sites_left};
use std::alloc::{AllocError, Global};
use std::collections::BTreeSet;

// The most sites of the views of a bundle.
const MOST_SITES: usize = 4_000_000;

/// A rule of bundles that bytes break.
#[derive(Clone, Copy, Debug, PartialEq, Eq)]
pub enum BundleRule {
    /// The first four bytes aren't `FCGB`.
    Magic,
    /// The version isn't 1.
    Version,
    /// A number or a string of bytes passes the end of the bytes.
    Cut,
    /// A path has no byte or more than 1,024, a byte or a part that it may not have, or is equal to an earlier one.
    Path,
    /// Bytes stand after the last entry.
    Trailing,
    /// The class files of the entries read so far have more than 4,000,000 sites.
    ManySites,
}

/// Why bytes are refused as a bundle: the first fault in the order in which they are read.
#[derive(Clone, Copy, Debug, PartialEq, Eq)]
pub enum BundleFault {
    /// The bytes begin as a jar does, with `504b0304`.
    Jar,
    /// A rule of bundles is broken.
    Bundle {
        /// The place of the item that breaks the rule, in bytes from the start. A place that is too large is given as
        /// the last value.
        offset: u32,
        /// The number of the entry that was in hand, from 0; 0 before the first, and the number of entries after the
        /// last.
        entry: u32,
        rule: BundleRule,
    },
    /// An entry's class file has a fault.
    Class {
        /// The number of the entry, from 0.
        entry: u32,
        /// The fault, with its place in the entry's bytes.
        fault: ClassFault,
    },
}

impl From<BundleFault> for ReadError<BundleFault> {
    ghost use Rattle.fcg_grammar.specs.declared.error.ReadError.TheVariants as errors;

    ghost from_gives = { λ f e. e ≡ errors.Fault f };

    fn from(fault: BundleFault) -> ReadError<BundleFault> {
        ReadError::Fault(fault)
    }
}

// The fault of a rule that is broken at a place, in the entry in hand.
fn fault_at(at: usize, entry: u32, rule: BundleRule) -> BundleFault
    ensures { result ≡ broken at entry rule }
{
    BundleFault::Bundle {
        offset: u32::try_from(at).unwrap_or(u32::MAX),
        entry,
        rule,
    }
}

// The error of a bundle where reading an entry's class file ended in an error.
fn in_entry(entry: u32, error: ReadError<ClassFault>) -> ReadError<BundleFault>
    ensures { result ≡ error_in_entry entry error }
{
    match error {
        ReadError::NoMemory => ReadError::NoMemory,
        ReadError::Fault(fault) => ReadError::Fault(BundleFault::Class { entry, fault }),
    }
}

// The path of the entry that stands at a place, and the place after it.
#[tactic(auto, unfolding(crate::specs::Bundle::path_at))]
fn read_path(bytes: &[u8], entry: u32, at: usize) -> Result<(&[u8], usize), BundleFault>
    requires { at ≤ length bytes.now }
    ensures value { seen (λ x. (x.0.now, x.1)) result ≡ path_at bytes.now entry at }
    ensures inside { IfOk result (λ x. x.1 ≤ length bytes.now) }
{
    let len = usize::from(read_u2(bytes, at, fault_at(at, entry, BundleRule::Cut))?);
    if !is_path_length(len) {
        return Err(fault_at(at, entry, BundleRule::Path));
    }
    let path = read_part(bytes, at + 2, len, fault_at(at + 2, entry, BundleRule::Cut))?;
    if !is_path(path) {
        return Err(fault_at(at + 2, entry, BundleRule::Path));
    }
    Ok((path, at + 2 + len))
}

// The view of the class file that an entry's bytes are. A module has none, nor has what is no class file.
fn read_held(
    alloc: Global,
    entry: u32,
    path: &[u8],
    body: &[u8],
) -> Result<Option<NumberedView>, ReadError<BundleFault>>
    ensures { Gives (λ x. x) result (held entry (is_class_path path.now) body.now) }
{
    if !is_class_path(path) {
        return Ok(None);
    }
    match read_numbered(alloc, body) {
        Ok(view) => Ok(view),
        Err(error) => Err(in_entry(entry, error)),
    }
}

// The view of the entry whose bytes' length stands at a place, where it has one, and the place after it.
#[tactic(auto, unfolding(crate::specs::Bundle::body_at))]
fn read_body(
    alloc: Global,
    bytes: &[u8],
    entry: u32,
    path: &[u8],
    at: usize,
) -> Result<(Option<NumberedView>, usize), ReadError<BundleFault>>
    requires { at ≤ length bytes.now }
    ensures value { Gives (λ x. (x.0, x.1)) result (body_at bytes.now entry path.now at) }
    ensures inside { IfOk result (λ x. x.1 ≤ length bytes.now) }
{
    let len = read_u4(bytes, at, fault_at(at, entry, BundleRule::Cut))? as usize;
    let body = read_part(bytes, at + 4, len, fault_at(at + 4, entry, BundleRule::Cut))?;
    let view = read_held(alloc, entry, path, body)?;
    Ok((view, at + 4 + len))
}

// What is ahead of the entries that were read: the place of the next, and how many sites the class files may still
// have.
#[derive(Clone, Copy)]
struct Ahead {
    at: usize,
    room: usize,
}

// How many sites the class files may still have after this one, or `None` where it has more than that. What has no view
// has none.
fn room_after(room: usize, view: &Option<NumberedView>) -> Option<usize>
    ensures { result ≡ left_of room (sites_in view.now) }
{
    match view {
        Some(numbered) => sites_left(room, numbered.view().methods.as_slice()),
        None => Some(room),
    }
}

// The view of an entry, where it is shown.
fn show(path: &[u8], view: Option<NumberedView>) -> Option<NumberedView>
    ensures { result ≡ shown path.now view }
{
    if is_versioned(path) { None } else { view }
}

// The view that the next entry shows, and what is ahead after it. Its path is added to those before it.
#[tactic(auto, unfolding(crate::specs::Bundle::entry_at))]
fn read_entry<'a>(
    alloc: Global,
    bytes: &'a [u8],
    entry: u32,
    paths: &mut BTreeSet<&'a [u8]>,
    ahead: Ahead,
) -> Result<(Option<NumberedView>, Ahead), ReadError<BundleFault>>
    requires { ahead.at ≤ length bytes.now }
    ensures value { (before : List (List ℕ)) → ArePaths paths.old before → GivesEntry result paths.new before (entry_at bytes.now entry (entries_before ahead before)) }
    ensures inside { IfOk result (λ x. x.1.at ≤ length bytes.now) }
{
    let (path, after) = read_path(bytes, entry, ahead.at)?;
    if !paths.insert(path)? {
        return Err(ReadError::Fault(fault_at(ahead.at + 2, entry, BundleRule::Path)));
    }
    let (view, at) = read_body(alloc, bytes, entry, path, after)?;
    match room_after(ahead.room, &view) {
        Some(room) => Ok((show(path, view), Ahead { at, room })),
        None => Err(ReadError::Fault(fault_at(after + 4, entry, BundleRule::ManySites))),
    }
}

// Adds a view, where there is one.
fn push_view(views: &mut Views, view: Option<NumberedView>) -> Result<(), AllocError>
    ensures { OnOk result (views.new ≡ views.old ++ some_of view) }
{
    if let Some(view) = view {
        views.push(view)?;
    }
    Ok(())
}

// The views that so many entries show, and the place after them.
fn read_entries(
    alloc: Global,
    bytes: &[u8],
    count: u32,
    at: usize,
) -> Result<(Views, usize), ReadError<BundleFault>>
    requires { at ≤ length bytes.now }
    ensures value { GivesEntries result (rows (entry_at bytes.now) count 0 (before_first at)) }
    ensures inside { IfOk result (λ x. x.1 ≤ length bytes.now) }
{
    let mut views = Views::new(alloc);
    let mut paths = BTreeSet::new(alloc);
    let mut ahead = Ahead {
        at,
        room: MOST_SITES,
    };
    for entry in 0..count {
        let (view, after) = read_entry(alloc, bytes, entry, &mut paths, ahead)?;
        push_view(&mut views, view)?;
        ahead = after;
    }
    Ok((views, ahead.at))
}

// The views of a bundle that is no jar.
#[tactic(auto, unfolding(crate::specs::Bundle::entries_of))]
fn read_plain(alloc: Global, bytes: &[u8]) -> Result<Views, ReadError<BundleFault>>
    ensures { Gives (λ views. views) result (entries_of bytes.now) }
{
    if read_u4(bytes, 0, fault_at(0, 0, BundleRule::Cut))? != 0x4643_4742 {
        return Err(ReadError::Fault(fault_at(0, 0, BundleRule::Magic)));
    }
    if read_u2(bytes, 4, fault_at(4, 0, BundleRule::Cut))? != 1 {
        return Err(ReadError::Fault(fault_at(4, 0, BundleRule::Version)));
    }
    let count = read_u4(bytes, 6, fault_at(6, 0, BundleRule::Cut))?;
    let (views, end) = read_entries(alloc, bytes, count, 10)?;
    if bytes.len() != end {
        return Err(ReadError::Fault(fault_at(end, count, BundleRule::Trailing)));
    }
    Ok(views)
}

#[tactic(auto, unfolding(crate::specs::Bundle::bundle_of))]
fn read_whole(alloc: Global, bytes: &[u8]) -> Result<Views, ReadError<BundleFault>>
    ensures exact { Gives (λ views. views) result (bundle_of bytes.now) }
    ensures jar { IsErrOf result (ReadError.Fault BundleFault.Jar) ↔ IsTrue (is_jar bytes.now) }
{
    if bytes.starts_with(&[0x50, 0x4b, 0x03, 0x04]) {
        return Err(ReadError::Fault(BundleFault::Jar));
    }
    read_plain(alloc, bytes)
}

/// The views that a bundle shows, in the bundle's order. A bundle begins with `FCGB`, the version 1 in two bytes and the
/// number of its entries in four. An entry is a path of two bytes' length, and a body of four bytes' length. No two paths
/// are equal. The body of a path that ends `.class` is a class file (JVMS 4); all others are passed over. A class file
/// below `META-INF/versions/` is read as any other, but not shown.
///
/// The error is the first fault in the order of reading: [`BundleFault::Jar`] for bytes that begin as a jar does, else
/// [`BundleFault::Bundle`] for a broken rule of the bundle, with its place in bytes from the start and the number of the
/// entry in hand, or [`BundleFault::Class`] for a fault of an entry's class file, with its place in bytes from the start
/// of the entry's body. It is [`ReadError::NoMemory`] where memory ran out.
///
/// It makes one pass over the bytes. For each entry it makes some comparisons of paths more, about the logarithm of the
/// number of entries, and likewise for each Utf8 that names a method and, of indexes, for each method. The names of a
/// view share one copy of its class file, and are kept by the numbers of their texts too. Beside the views it takes memory
/// for one class file's pool and for a set of the paths, which stay in the bytes.
pub fn read_bundle(alloc: Global, bytes: &[u8]) -> Result<Views, ReadError<BundleFault>>
    // What is read is a bundle with this content.
    ensures found { IfOk result (Content bytes.now) }
    // A bundle is read with its content, unless memory runs out.
    ensures only { (views : List View) → Content bytes.now views → Gives (λ v. v) result (Ok views) }
    // Which fault it is.
    ensures exact { Gives (λ views. views) result (bundle_of bytes.now) }
    // A jar is told from all else.
    ensures jar { IsErrOf result (ReadError.Fault BundleFault.Jar) ↔ IsTrue (is_jar bytes.now) }
    // Each view is one that a class file could have.
    ensures valid { IfOk result (All IsValid) }
    // The views of at most 64 MB fit: their names can be numbered by four bytes.
    ensures fits { length bytes.now ≤ 67108864 → IfOk result (λ views. name_count views < 2 ^ 32) }
{
    read_whole(alloc, bytes)
}
