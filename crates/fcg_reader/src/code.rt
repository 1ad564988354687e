//! The code of a method (JVMS 4.7.3).
ghost use Rattle.std.specs.Prelude.{◌≡◌, ◌≤◌, ◌<◌, ◌+◌, ◌^◌, ◌++◌, ℕ, length, slice_index, OnOk, IfOk};
ghost use Rattle.fcg_grammar.specs.Reading.{seen, Gives};
ghost use Rattle.fcg_grammar.specs.Rows.{rows, ended};
ghost use Rattle.fcg_classfile.specs.Breaks.Fault.{at_opcode};
ghost use Rattle.fcg_classfile.specs.Breaks.Instructions.{next_at, operand_at};
ghost use Rattle.fcg_classfile.specs.Breaks.Attributes.{over};
ghost use Rattle.fcg_classfile.specs.Breaks.Code.{found_of, handler_at, handlers_at, code_at};
ghost use Rattle.fcg_reader.specs.Internal.Calls.{ArePlaced, found_in};

use crate::attributes::pass_attributes;
use crate::calls::CodeCalls;
use crate::names::ClassTexts;
use crate::number::{read_part, read_u2, read_u4};
use crate::rows::{SiteRow, SiteRows};
use crate::site::{CodeSpan, push_site_or_call};
use fcg_classfile::{ClassFault, ClassRule, DynamicCall, at_opcode, fault_at};
use fcg_grammar::ReadError;
use fcg_pool::{Instruction, next_instruction, plain_len};
use std::alloc::Global;
use std::marker::Model;

/// What a method's attribute Code says: the sites of its instructions, and its calls of bootstrap methods.
#[derive(Drop)]
pub struct MethodCode {
    sites: SiteRows,
    calls: CodeCalls,
}

// It is seen with the place of the attribute, 14 bytes before the code.
impl Model for MethodCode {
    ghost use Rattle.std.specs.Prelude.{ℕ, ◌≤◌};
    ghost use Rattle.fcg_reader.specs.Internal.Calls.{FoundRows, code_in};

    ghost Value = { ℕ × FoundRows };

    ghost view = { λ c. code_in c.sites c.calls };

    ghost invariant = { λ c. 14 ≤ c.calls.begin };
}

impl MethodCode {
    /// The sites, and the calls.
    pub fn into_parts(self) -> (SiteRows, CodeCalls)
        ensures { result ≡ (self.1.sites, record { begin = self.0 + 14; calls = self.1.calls }) }
    {
        (self.sites, self.calls)
    }
}

// The place after the row of the exception table that stands at a place.
#[tactic(auto, unfolding(fcg_classfile::specs::Breaks::Code::handler_at))]
fn pass_handler(bytes: &[u8], at: usize) -> Result<usize, ClassFault>
    requires { at ≤ length bytes.now }
    ensures value { (k : ℕ) → seen (λ after. (tt, after)) result ≡ handler_at bytes.now k at }
    ensures inside { IfOk result (λ after. after ≤ length bytes.now) }
{
    read_part(bytes, at, 8, 0)?;
    Ok(at + 8)
}

// The place after so many rows.
fn pass_rows(bytes: &[u8], count: u16, at: usize) -> Result<usize, ClassFault>
    requires { at ≤ length bytes.now }
    ensures value { result ≡ ended (rows (handler_at bytes.now) count 0 at) }
    ensures inside { IfOk result (λ after. after ≤ length bytes.now) }
{
    let mut place = at;
    for _ in 0..count {
        place = pass_handler(bytes, place)?;
    }
    Ok(place)
}

// The place after the exception table whose count stands at a place.
#[tactic(auto, unfolding(fcg_classfile::specs::Breaks::Code::handlers_at))]
fn pass_handlers(bytes: &[u8], at: usize) -> Result<usize, ClassFault>
    requires { at ≤ length bytes.now }
    ensures value { result ≡ handlers_at bytes.now at }
    ensures inside { IfOk result (λ after. after ≤ length bytes.now) }
{
    let count = read_u2(bytes, at, 0)?;
    pass_rows(bytes, count, at + 2)
}

// The instruction whose opcode stands at a place of a code.
fn read_instruction(code: CodeSpan<'_>, pc: u16) -> Result<Instruction, ClassFault>
    requires within { pc < length code.bytes.now }
    requires short { length code.bytes.now ≤ 65535 }
    requires place { code.begin + length code.bytes.now < 2 ^ 64 }
    ensures value { seen (λ i. i.next) result ≡ at_opcode (code.entry.begin + pc) (next_at code.entry.bytes.now pc) }
    ensures opcode { IfOk result (λ i. i.opcode ≡ slice_index code.entry.bytes.now pc) }
    ensures operand { IfOk result (λ i. i.operand ≡ operand_at code.entry.bytes.now pc) }
    ensures inside { IfOk result (λ i. (pc < i.next) × (i.next ≤ length code.entry.bytes.now)) }
{
    at_opcode(
        code.begin + usize::from(pc),
        next_instruction(code.bytes, pc),
    )
}

// What the instructions of a code have, where so many sites of the class are before. Most have nothing, and are passed
// over.
fn read_found(
    alloc: Global,
    names: &mut ClassTexts<'_>,
    code: CodeSpan<'_>,
    count: usize,
) -> Result<(Vec<SiteRow>, Vec<DynamicCall>), ReadError<ClassFault>>
    requires short { length code.bytes.now ≤ 65535 }
    requires place { code.begin + length code.bytes.now < 2 ^ 64 }
    requires few { count ≤ 1000000 }
    ensures value { Gives (λ x. found_in names.old (record { sites = x.0.items; calls = x.1.items })) result (found_of names.old code.entry.begin code.entry.bytes.now count) }
    ensures few { IfOk result (λ x. count + length x.0.items ≤ 1000000) }
    ensures placed { IfOk result (λ x. ArePlaced code.entry.begin x.1.items) }
    ensures same { names.new ≡ names.old }
{
    // most codes have fewer
    let mut sites = Vec::with_capacity(alloc, code.bytes.len() / 8)?;
    let mut calls = Vec::new(alloc);
    let mut pc = 0;
    while pc < code.bytes.len() {
        let plain = plain_len(code.bytes, pc);
        if plain > 0 {
            pc += plain;
        } else {
            let instruction = read_instruction(code, pc as u16)?;
            let before = count + sites.len();
            push_site_or_call(
                names,
                code,
                pc as u16,
                instruction,
                before,
                &mut sites,
                &mut calls,
            )?;
            pc = instruction.next as usize;
        }
    }
    Ok((sites, calls))
}

/// What a method's attribute Code (JVMS 4.7.3) says, which stands at a place. `bytes` are the file up to the end of its
/// content; `count` sites of the class are before those of its instructions, and with these there are at most
/// 1,000,000.
///
/// The first fault in reading order is one of these: a number or a table passes the content's end; the length of the
/// code is 0 or above 65,535 bytes; an instruction breaks a rule, or its site or its operand does, at the place of its
/// opcode in the file; the name of an attribute of the code is no text; bytes stand after the last attribute.
///
/// Makes one pass over the code, and passes over the exception table by its rows and over the attributes by their
/// lengths. It takes memory for the sites and the calls; that of the sites is for one of 12 bytes for each eight bytes of
/// the code, or for twice as many as there are where these are more.
#[tactic(auto, unfolding(fcg_classfile::specs::Breaks::Code::code_at), using(crate::proofs::SiteLemmas::found_over))]
pub fn read_code(
    alloc: Global,
    names: &mut ClassTexts<'_>,
    bytes: &[u8],
    at: usize,
    count: usize,
) -> Result<MethodCode, ReadError<ClassFault>>
    requires place { at + 6 ≤ length bytes.now }
    requires few { count ≤ 1000000 }
    ensures value { Gives (λ code. found_in names.old code.1) result (code_at count (over bytes.now names.old) (at + 6)) }
    ensures place { IfOk result (λ code. code.0 ≡ at) }
    ensures few { IfOk result (λ code. count + length code.1.sites ≤ 1000000) }
    ensures same { names.new ≡ names.old }
{
    let content = at + 6;
    read_u2(bytes, content, 0)?;
    read_u2(bytes, content + 2, 0)?;
    let len = read_u4(bytes, content + 4, 0)? as usize;
    if len < 1 || len > 65535 {
        return Err(ReadError::Fault(fault_at(content + 4, 0, ClassRule::CodeLength)));
    }
    let code = CodeSpan {
        begin: content + 8,
        bytes: read_part(bytes, content + 8, len, 0)?,
    };
    let (sites, calls) = read_found(alloc, names, code, count)?;
    let handlers_end = pass_handlers(bytes, content + 8 + len)?;
    let end = pass_attributes(names.pool(), bytes, handlers_end)?;
    if bytes.len() != end {
        return Err(ReadError::Fault(fault_at(end, 0, ClassRule::Trailing)));
    }
    Ok(MethodCode {
        sites: SiteRows::from(sites),
        calls: CodeCalls::new(content + 8, calls),
    })
}
