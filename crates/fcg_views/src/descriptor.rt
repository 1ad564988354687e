//! Field and method descriptors (JVMS 4.3.2, 4.3.3), read byte by byte, but each class at once.
ghost use Rattle.std.specs.Prelude.{◌≡◌, ◌-◌, ◌^◌, ◌≤◌, ◌<◌, length, min, Some, IfSome, IfOk, IfErr, IsOk, is_ok};
ghost use Rattle.fcg_views.specs.Internal.DescriptorBounds.{IsSmall};
ghost use Rattle.fcg_views.specs.Internal.ClassSteps.{class_step, LeadsTo};
ghost use Rattle.fcg_views.specs.Descriptor.{Spans, FaultAt, IsFieldDescriptor, FieldFaultAt, is_letter, letter_units};
ghost use Rattle.fcg_views.specs.DescriptorSteps.{taken, parameter_step, array_step, name_step, result_step, result_array_step, result_name_step, step, fault_at, ended, scan_from, result_of_scan, descriptor_of, begins_with_void, field_descriptor_of, is_field_descriptor};

use crate::parting::find_byte;

/// What a method descriptor says of its parameters.
#[derive(Clone, Copy, Debug, PartialEq, Eq)]
pub struct DescSpan {
    /// How many parameters there are.
    pub parameters: u16,
    /// Their units: two for a `long` and for a `double`, one for any other (JVMS 4.3.3).
    pub units: u16,
    /// The place of the first byte of the result. A place that is too large is given as the last value.
    pub result_at: u32,
}

/// Where a text stops to be the front of a descriptor.
#[derive(Clone, Copy, Debug, PartialEq, Eq)]
pub struct DescFault {
    /// How many bytes of the text are the front of some descriptor of the kind that was read, at most. A number that is
    /// too large is given as the last value.
    pub offset: u32,
}

// What the front of a descriptor leaves open.
#[derive(Clone, Copy)]
enum DescState {
    // Nothing was read.
    Start,
    // A parameter or `)` follows: the parameters so far, and their units.
    Parameters(u16, u16),
    // In an array: besides, how many `[` were read.
    Array(u16, u16, u16),
    // In the name of a class: besides, whether it has a byte.
    Name(u16, u16, bool),
    // The result follows.
    Returned(DescSpan),
    ReturnedArray(DescSpan, u16),
    ReturnedName(DescSpan, bool),
    // The descriptor is complete.
    Done(DescSpan),
}

// The most units of the parameters.
const MOST_UNITS: u16 = 255;

// The most dimensions of an array.
const MOST_DIMENSIONS: u16 = 255;

// A field descriptor is read as a result, after no parameters.
const NO_PARAMETERS: DescSpan = DescSpan {
    parameters: 0,
    units: 0,
    result_at: 0,
};

// Whether a byte is the letter of a base type.
fn is_letter(byte: u8) -> bool
    ensures { result ≡ is_letter byte }
{
    matches!(byte, b'B' | b'C' | b'D' | b'F' | b'I' | b'J' | b'S' | b'Z')
}

// The units of a parameter of a base type.
fn letter_units(byte: u8) -> u16
    ensures { result ≡ letter_units byte }
{
    if byte == b'J' || byte == b'D' { 2 } else { 1 }
}

// A place, or the last value.
fn place_of(at: usize) -> u32
    ensures { result ≡ min at (2 ^ 32 - 1) }
{
    u32::try_from(at).unwrap_or(u32::MAX)
}

// A parameter that takes so many more units, where they fit.
fn taken(count: u16, units: u16, more: u16) -> Option<DescState>
    requires small { (count ≤ units) × (units ≤ 255) }
    requires more { (0 < more) × (more ≤ 2) }
    ensures value { result ≡ taken count units more }
    ensures small { IfSome result IsSmall }
{
    if units + more <= MOST_UNITS {
        Some(DescState::Parameters(count + 1, units + more))
    } else {
        None
    }
}

// The `)`, or the first byte of a parameter.
fn parameter_step(count: u16, units: u16, at: usize, byte: u8) -> Option<DescState>
    requires { (count ≤ units) × (units ≤ 255) }
    ensures value { result ≡ parameter_step count units at byte }
    ensures small { IfSome result IsSmall }
{
    if byte == b')' {
        Some(DescState::Returned(DescSpan {
            parameters: count,
            units,
            result_at: place_of(at).saturating_add(1),
        }))
    } else if is_letter(byte) {
        taken(count, units, letter_units(byte))
    } else if units >= MOST_UNITS {
        None
    } else if byte == b'[' {
        Some(DescState::Array(count, units, 1))
    } else if byte == b'L' {
        Some(DescState::Name(count, units, false))
    } else {
        None
    }
}

fn array_step(count: u16, units: u16, dimensions: u16, byte: u8) -> Option<DescState>
    requires { (count ≤ units) × (units ≤ 255) × (dimensions ≤ 255) }
    ensures value { result ≡ array_step count units dimensions byte }
    ensures small { IfSome result IsSmall }
{
    if is_letter(byte) {
        taken(count, units, 1)
    } else if byte == b'L' {
        Some(DescState::Name(count, units, false))
    } else if byte == b'[' && dimensions < MOST_DIMENSIONS {
        Some(DescState::Array(count, units, dimensions + 1))
    } else {
        None
    }
}

fn name_step(count: u16, units: u16, filled: bool, byte: u8) -> Option<DescState>
    requires { (count ≤ units) × (units ≤ 255) }
    ensures value { result ≡ name_step count units filled byte }
    ensures small { IfSome result IsSmall }
{
    if byte != b';' {
        Some(DescState::Name(count, units, true))
    } else if filled {
        taken(count, units, 1)
    } else {
        None
    }
}

// The first byte of the result.
fn result_step(span: DescSpan, byte: u8) -> Option<DescState>
    ensures value { result ≡ result_step span byte }
    ensures small { IfSome result IsSmall }
{
    if byte == b'V' || is_letter(byte) {
        Some(DescState::Done(span))
    } else if byte == b'[' {
        Some(DescState::ReturnedArray(span, 1))
    } else if byte == b'L' {
        Some(DescState::ReturnedName(span, false))
    } else {
        None
    }
}

fn result_array_step(span: DescSpan, dimensions: u16, byte: u8) -> Option<DescState>
    requires { dimensions ≤ 255 }
    ensures value { result ≡ result_array_step span dimensions byte }
    ensures small { IfSome result IsSmall }
{
    if is_letter(byte) {
        Some(DescState::Done(span))
    } else if byte == b'L' {
        Some(DescState::ReturnedName(span, false))
    } else if byte == b'[' && dimensions < MOST_DIMENSIONS {
        Some(DescState::ReturnedArray(span, dimensions + 1))
    } else {
        None
    }
}

fn result_name_step(span: DescSpan, filled: bool, byte: u8) -> Option<DescState>
    ensures value { result ≡ result_name_step span filled byte }
    ensures small { IfSome result IsSmall }
{
    if byte != b';' {
        Some(DescState::ReturnedName(span, true))
    } else if filled {
        Some(DescState::Done(span))
    } else {
        None
    }
}

// The state after one more byte, which stands at a place; none where no descriptor goes on so.
fn step(state: DescState, at: usize, byte: u8) -> Option<DescState>
    requires { IsSmall state }
    ensures value { result ≡ step state at byte }
    ensures small { IfSome result IsSmall }
{
    match state {
        DescState::Start if byte == b'(' => Some(DescState::Parameters(0, 0)),
        DescState::Start => None,
        DescState::Parameters(count, units) => parameter_step(count, units, at, byte),
        DescState::Array(count, units, dimensions) => array_step(count, units, dimensions, byte),
        DescState::Name(count, units, filled) => name_step(count, units, filled, byte),
        DescState::Returned(span) => result_step(span, byte),
        DescState::ReturnedArray(span, dimensions) => result_array_step(span, dimensions, byte),
        DescState::ReturnedName(span, filled) => result_name_step(span, filled, byte),
        DescState::Done(_) => None,
    }
}

// The fault at a place.
fn fault_at(at: usize) -> DescFault
    ensures { result ≡ fault_at at }
{
    DescFault {
        offset: place_of(at),
    }
}

// What a text says that leads to a state and ends at a place.
fn ended(state: DescState, at: usize) -> Result<DescSpan, DescFault>
    ensures { result ≡ ended state at }
{
    match state {
        DescState::Done(span) => Ok(span),
        _ => Err(fault_at(at)),
    }
}

// The state after a whole class, from its `L` to its `;`; none where no class can stand.
fn class_step(state: DescState) -> Option<DescState>
    requires { IsSmall state }
    ensures value { result ≡ class_step state }
    ensures small { IfSome result IsSmall }
{
    match state {
        DescState::Parameters(count, units) | DescState::Array(count, units, _) => {
            taken(count, units, 1)
        }
        DescState::Returned(span) | DescState::ReturnedArray(span, _) => {
            Some(DescState::Done(span))
        }
        _ => None,
    }
}

// The state after a whole class that stands at a place, and the place after it; none where no class stands there.
fn pass_class(state: DescState, text: &[u8], at: usize) -> Option<(DescState, usize)>
    requires small { IsSmall state }
    requires within { at < length text.now }
    ensures { IfSome result (LeadsTo text.now state at) }
{
    if text[at] != b'L' {
        return None;
    }
    let next = class_step(state)?;
    let size = find_byte(&text[at + 1..], b';')?;
    if size > 0 {
        Some((next, at + size + 2))
    } else {
        None
    }
}

// The state that a text leads to from a first one, or the place of the first byte without a step. A whole class is one
// step.
fn scan_from(start: DescState, text: &[u8]) -> Result<DescState, usize>
    requires { IsSmall start }
    ensures { result ≡ scan_from 0 start text.now }
{
    let mut state = start;
    let mut at = 0;
    while at < text.len() {
        (state, at) = match pass_class(state, text, at) {
            Some(passed) => passed,
            None => match step(state, at, text[at]) {
                Some(next) => (next, at + 1),
                None => return Err(at),
            },
        };
    }
    Ok(state)
}

// What a text says that is read from a state on.
fn read_from(start: DescState, text: &[u8]) -> Result<DescSpan, DescFault>
    requires { IsSmall start }
    ensures { result ≡ result_of_scan (length text.now) (scan_from 0 start text.now) }
{
    match scan_from(start, text) {
        Ok(state) => ended(state, text.len()),
        Err(at) => Err(fault_at(at)),
    }
}

/// Reads a method descriptor: `(`, field descriptors whose units are at most 255, `)`, and a field descriptor or `V`.
/// A field descriptor is a letter of `BCDFIJSZ`, or `L`, one or more bytes other than `;`, and `;`, or 1 to 255 times
/// `[` before one of these (JVMS 4.3.2, 4.3.3). Whether the name of a class is well formed is no question here.
///
/// Takes one pass over the text, and no memory.
pub fn read_descriptor(text: &[u8]) -> Result<DescSpan, DescFault>
    ensures found { IfOk result (λ span. Spans text.now span) }
    ensures breaks { IfErr result (λ fault. FaultAt text.now fault) }
    ensures exact { result ≡ descriptor_of text.now }
{
    read_from(DescState::Start, text)
}

// Whether a text begins with `V`.
fn begins_with_void(text: &[u8]) -> bool
    ensures { result ≡ begins_with_void text.now }
{
    matches!(text.first(), Some(b'V'))
}

/// Reads a field descriptor: a letter of `BCDFIJSZ`, or `L`, one or more bytes other than `;`, and `;`, or 1 to 255
/// times `[` before one of these (JVMS 4.3.2). Whether the name of a class is well formed is no question here.
///
/// Takes one pass over the text, and no memory.
pub fn read_field_descriptor(text: &[u8]) -> Result<(), DescFault>
    ensures found { IsOk result → IsFieldDescriptor text.now }
    ensures breaks { IfErr result (λ fault. FieldFaultAt text.now fault) }
    ensures exact { result ≡ field_descriptor_of text.now }
    ensures test { is_ok result ≡ is_field_descriptor text.now }
{
    if begins_with_void(text) {
        return Err(fault_at(0));
    }
    read_from(DescState::Returned(NO_PARAMETERS), text)?;
    Ok(())
}
