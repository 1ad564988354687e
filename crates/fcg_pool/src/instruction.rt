//! One instruction at a time.
ghost use Rattle.std.specs.Prelude.{◌≡◌, ◌+◌, ◌<◌, ◌≤◌, ◌^◌, ℕ, length, slice_index, false, None, Some, Ok, IfOk, IfSome};
ghost use Rattle.fcg_grammar.specs.Reading.{seen};
ghost use Rattle.fcg_classfile.specs.Instructions.{form_of, Fixed, wide_of, moved_up, pad_of};
ghost use Rattle.fcg_classfile.specs.Sites.{site_form, is_dynamic};
ghost use Rattle.fcg_classfile.specs.Breaks.Instructions.{passed, table_at, lookup_at, wide_at, formed_at, next_at, operand_in, operand_at};
ghost use Rattle.fcg_pool.specs.CodeValues.{place_given};
ghost use Rattle.fcg_pool.specs.Internal.Layout.{form_if_any, form_of_number, least_after};
ghost use Rattle.fcg_pool.specs.declared.instruction.TheConstants.{LAYOUTS};

use crate::constant::u2_in;
use fcg_classfile::CodeRule;
use fcg_grammar::{read_part, read_u1, read_u4};

/// An instruction of a method's code.
#[derive(Clone, Copy, Debug, PartialEq, Eq)]
pub struct Instruction {
    pub opcode: u8,
    /// The number of the two bytes after the opcode: of a `tableswitch` or `lookupswitch` the first of its padding or of its
    /// default, of `wide` the opcode that is made wide and the first byte of its operands. It is 0 where an instruction has
    /// fewer than two bytes after its opcode.
    pub operand: u16,
    /// The place of the next instruction, in bytes from the code's start; after the last one the code's length. A place
    /// that is too large is given as the last value.
    pub next: u32,
}

// What follows an opcode: so many bytes, what a tableswitch has, what a lookupswitch has, or an instruction that is made
// wide.
#[derive(Clone, Copy)]
enum Layout {
    Fixed(usize),
    Table,
    Lookup,
    Wide,
}

// What follows an opcode, by a number: so many bytes from 0 to 4, what a tableswitch has by 5, what a lookupswitch has
// by 6, an instruction that is made wide by 7. Nothing has the opcodes from 202 on, by 8. Those with a site or a call of
// a bootstrap method have a number of their own: 9 for two bytes, 10 for four.
static LAYOUTS: [u8; 256] = [
    0, 0, 0, 0, 0, 0, 0, 0, 0, 0, 0, 0, 0, 0, 0, 0, 1, 2, 1, 2, 2, 1, 1, 1, 1, 1, 0, 0, 0, 0, 0, 0,
    0, 0, 0, 0, 0, 0, 0, 0, 0, 0, 0, 0, 0, 0, 0, 0, 0, 0, 0, 0, 0, 0, 1, 1, 1, 1, 1, 0, 0, 0, 0, 0,
    0, 0, 0, 0, 0, 0, 0, 0, 0, 0, 0, 0, 0, 0, 0, 0, 0, 0, 0, 0, 0, 0, 0, 0, 0, 0, 0, 0, 0, 0, 0, 0,
    0, 0, 0, 0, 0, 0, 0, 0, 0, 0, 0, 0, 0, 0, 0, 0, 0, 0, 0, 0, 0, 0, 0, 0, 0, 0, 0, 0, 0, 0, 0, 0,
    0, 0, 0, 0, 2, 0, 0, 0, 0, 0, 0, 0, 0, 0, 0, 0, 0, 0, 0, 0, 0, 0, 0, 0, 0, 2, 2, 2, 2, 2, 2, 2,
    2, 2, 2, 2, 2, 2, 2, 2, 2, 1, 5, 6, 0, 0, 0, 0, 0, 0, 9, 9, 2, 2, 9, 9, 9, 10, 10, 9, 1, 2, 0,
    0, 2, 2, 0, 0, 7, 3, 2, 2, 4, 4, 8, 8, 8, 8, 8, 8, 8, 8, 8, 8, 8, 8, 8, 8, 8, 8, 8, 8, 8, 8, 8,
    8, 8, 8, 8, 8, 8, 8, 8, 8, 8, 8, 8, 8, 8, 8, 8, 8, 8, 8, 8, 8, 8, 8, 8, 8, 8, 8, 8, 8, 8, 8, 8,
    8,
];

// The number of what follows an opcode.
fn layout_number(opcode: u8) -> u8
    ensures { result ≡ slice_index LAYOUTS opcode }
{
    LAYOUTS[usize::from(opcode)]
}

// What a number of the table tells.
fn layout_of_number(number: u8) -> Option<Layout>
    ensures { form_if_any result ≡ form_of_number number }
{
    match number {
        0..=4 => Some(Layout::Fixed(usize::from(number))),
        5 => Some(Layout::Table),
        6 => Some(Layout::Lookup),
        7 => Some(Layout::Wide),
        9 => Some(Layout::Fixed(2)),
        10 => Some(Layout::Fixed(4)),
        _ => None,
    }
}

// What follows an opcode. It is asked for each instruction, and a table tells it in the fewest steps.
#[tactic(auto, using(crate::proofs::Layouts::layout_of_number))]
fn layout_of(opcode: u8) -> Option<Layout>
    ensures { form_if_any result ≡ form_of opcode }
{
    layout_of_number(layout_number(opcode))
}

// How many bytes follow an opcode that is made wide.
fn wide_operands(opcode: u8) -> Option<usize>
    ensures value { result ≡ wide_of opcode }
    ensures some { IfSome result (λ n. 2 ≤ n) }
{
    match opcode {
        21..=25 | 54..=58 | 169 => Some(2),
        132 => Some(4),
        _ => None,
    }
}

// A signed number, moved up so that all are from 0 on and in their order.
fn move_up(number: u32) -> u32
    ensures { result ≡ moved_up number }
{
    number.wrapping_add(0x8000_0000)
}

// The place after so many bytes.
#[tactic(auto, unfolding(fcg_classfile::specs::Breaks::Instructions::passed))]
fn pass(code: &[u8], at: usize, n: usize) -> Result<usize, CodeRule>
    requires { at ≤ length code.now }
    ensures value { result ≡ passed code.now at n }
    ensures inside { IfOk result (λ next. (next ≡ at + n) × (next ≤ length code.now)) }
{
    read_part(code, at, n, CodeRule::CodeCut)?;
    Ok(at + n)
}

// The place after the padding of a switch whose opcode stands at a place.
fn pass_padding(code: &[u8], at: usize) -> Result<usize, CodeRule>
    requires { at < length code.now }
    ensures value { result ≡ passed code.now (at + 1) (pad_of at) }
    ensures inside { IfOk result (λ next. (at < next) × (next ≤ length code.now)) }
{
    pass(code, at + 1, 3 - at % 4)
}

// The place after a tableswitch whose default stands at a place.
#[tactic(auto, unfolding(fcg_classfile::specs::Breaks::Instructions::table_at))]
fn pass_table(code: &[u8], at: usize) -> Result<usize, CodeRule>
    requires { at ≤ length code.now }
    ensures value { result ≡ table_at code.now at }
    ensures inside { IfOk result (λ next. (at + 2 ≤ next) × (next ≤ length code.now)) }
{
    read_u4(code, at, CodeRule::CodeCut)?;
    let low = move_up(read_u4(code, at + 4, CodeRule::CodeCut)?);
    let high = move_up(read_u4(code, at + 8, CodeRule::CodeCut)?);
    if high < low {
        return Err(CodeRule::BadSwitch);
    }
    let offsets = (high - low) as usize + 1;
    pass(code, at + 12, 4 * offsets)
}

// The place after a lookupswitch whose default stands at a place.
#[tactic(auto, unfolding(fcg_classfile::specs::Breaks::Instructions::lookup_at))]
fn pass_lookup(code: &[u8], at: usize) -> Result<usize, CodeRule>
    requires { at ≤ length code.now }
    ensures value { result ≡ lookup_at code.now at }
    ensures inside { IfOk result (λ next. (at + 2 ≤ next) × (next ≤ length code.now)) }
{
    read_u4(code, at, CodeRule::CodeCut)?;
    let count = read_u4(code, at + 4, CodeRule::CodeCut)?;
    if count >= 0x8000_0000 {
        return Err(CodeRule::BadSwitch);
    }
    pass(code, at + 8, 8 * count as usize)
}

// The place after an opcode that is made wide, and its operands.
#[tactic(auto, unfolding(fcg_classfile::specs::Breaks::Instructions::wide_at))]
fn pass_widened(code: &[u8], at: usize) -> Result<usize, CodeRule>
    requires { at ≤ length code.now }
    ensures value { result ≡ wide_at code.now at }
    ensures inside { IfOk result (λ next. (at + 2 ≤ next) × (next ≤ length code.now)) }
{
    let opcode = read_u1(code, at, CodeRule::CodeCut)?;
    match wide_operands(opcode) {
        Some(n) => pass(code, at + 1, n),
        None => Err(CodeRule::BadWide),
    }
}

// The place after an instruction whose opcode stands at a place, by what follows the opcode.
fn pass_layout(code: &[u8], at: usize, layout: Layout) -> Result<usize, CodeRule>
    requires { at < length code.now }
    ensures value { result ≡ formed_at code.now at (form_if_any (Some layout)) }
    ensures inside { IfOk result (λ next. (at + least_after layout < next) × (next ≤ length code.now)) }
{
    match layout {
        Layout::Fixed(n) => pass(code, at + 1, n),
        Layout::Table => {
            let default = pass_padding(code, at)?;
            pass_table(code, default)
        }
        Layout::Lookup => {
            let default = pass_padding(code, at)?;
            pass_lookup(code, default)
        }
        Layout::Wide => pass_widened(code, at + 1),
    }
}

// The number of the two bytes after an opcode that stands at a place, where the instruction has so many.
fn operand_after(code: &[u8], at: usize, layout: Layout) -> u16
    requires { at + least_after layout < length code.now }
    ensures { result ≡ operand_in code.now at (form_if_any (Some layout)) }
{
    match layout {
        Layout::Fixed(n) if n < 2 => 0,
        Layout::Fixed(_) => u2_in(code, at + 1),
        Layout::Table | Layout::Lookup | Layout::Wide => u2_in(code, at + 1),
    }
}

/// The instruction whose opcode stands at a place of a method's code, or the first rule that it breaks: `CodeCut` where it
/// passes the code's end, `BadOpcode` for an opcode from 202 on, `BadSwitch` for a `tableswitch` whose low is above its
/// high or a `lookupswitch` of fewer than 0 pairs, `BadWide` for `wide` before an opcode that can't be made wide. It takes
/// no memory and constant time.
#[tactic(auto, using(fcg_classfile::proofs::InstructionPlaces::next_at_is))]
pub fn next_instruction(code: &[u8], pc: u16) -> Result<Instruction, CodeRule>
    requires within { pc < length code.now }
    ensures exact { seen (λ i. i.next) result ≡ seen place_given (next_at code.now pc) }
    // No place of a shorter code is too large, and each code of a class file is shorter.
    ensures short { length code.now < 2 ^ 32 → seen (λ i. i.next) result ≡ next_at code.now pc }
    ensures opcode { IfOk result (λ i. i.opcode ≡ slice_index code.now pc) }
    ensures operand { IfOk result (λ i. i.operand ≡ operand_at code.now pc) }
    ensures inside { IfOk result (λ i. (pc < i.next) × (i.next ≤ length code.now)) }
{
    let at = usize::from(pc);
    let opcode = code[at];
    let Some(layout) = layout_of(opcode) else {
        return Err(CodeRule::BadOpcode);
    };
    let next = pass_layout(code, at, layout)?;
    let operand = operand_after(code, at, layout);
    Ok(Instruction {
        opcode,
        operand,
        next: u32::try_from(next).unwrap_or(u32::MAX),
    })
}

/// How many bytes the instruction has whose opcode stands at a place of a method's code, where the opcode tells it, and
/// where it has neither a site nor a call of a bootstrap method: with most instructions it is so. It is 0 for any other,
/// and where the instruction passes the code's end. It takes no memory and a few steps.
#[tactic(auto, using(crate::proofs::Layouts::plain_next, crate::proofs::Layouts::plain_site, crate::proofs::Layouts::plain_call))]
pub fn plain_len(code: &[u8], at: usize) -> usize
    requires { at < length code.now }
    ensures next { 0 < result → next_at code.now at ≡ Ok (at + result) }
    ensures site { 0 < result → site_form (slice_index code.now at) ≡ None }
    ensures call { 0 < result → is_dynamic (slice_index code.now at) ≡ false }
    ensures inside { at + result ≤ length code.now }
    ensures told { (n : ℕ) → form_of (slice_index code.now at) ≡ Some (Fixed n) → site_form (slice_index code.now at) ≡ None → is_dynamic (slice_index code.now at) ≡ false → at + n < length code.now → result ≡ n + 1 }
{
    let operands = usize::from(layout_number(code[at]));
    if operands < 5 && operands < code.len() - at {
        operands + 1
    } else {
        0
    }
}
