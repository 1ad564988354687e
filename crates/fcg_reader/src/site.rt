//! The sites of a method's code, and its calls of bootstrap methods: the instructions that name a method, a field, a
//! type or a bootstrap method (JVMS 6.5).
ghost use Rattle.std.specs.Prelude.{◌≡◌, ◌+◌, ◌<◌, ◌^◌, ℕ, ◌∷◌, [], Ok, OnOk, IfOk, IfSome, slice_index};
ghost use Rattle.fcg_grammar.specs.Reading.{seen};
ghost use Rattle.fcg_classfile.specs.Sites.{ToType, site_form, is_dynamic};
ghost use Rattle.fcg_views.specs.DescriptorSteps.{is_descriptor, is_field_descriptor};
ghost use Rattle.fcg_classfile.specs.Breaks.Fault.{at_place};
ghost use Rattle.fcg_classfile.specs.Breaks.Pool.{Entries, reference_of};
ghost use Rattle.fcg_classfile.specs.Breaks.Instructions.{operand_at};
ghost use Rattle.fcg_classfile.specs.Breaks.Code.{member_of, target_of, site_of, found_at};
ghost use Rattle.fcg_pool.specs.CodeValues.{AreRefTexts, reference_texts};
ghost use Rattle.fcg_reader.specs.Internal.Names.{is_of_kind, method_tag};
ghost use Rattle.fcg_reader.specs.Internal.Calls.{ArePlaced};
ghost use Rattle.fcg_reader.specs.Internal.Rows.{ref_in, site_in};
ghost use Rattle.fcg_reader.specs.Internal.Sites.{GivesFound, form_in, form_if_any, target_in, ref_of};

use crate::names::{ClassTexts, DescKind};
use crate::rows::{RefRow, SiteRow};
use crate::text::find_type_of;
use fcg_classfile::{ClassFault, ClassRule, DynamicCall, at_index, fault_at};
use fcg_grammar::ReadError;
use fcg_pool::{Instruction, Pool, RefTexts, is_one_of};
use fcg_views::SiteKind;

/// How many sites a class may have.
pub const MOST_SITES: usize = 1_000_000;

/// The code of a method (JVMS 4.7.3): its bytes, and where the first of them stands.
#[derive(Clone, Copy)]
pub struct CodeSpan<'a> {
    /// In bytes from the file's start.
    pub begin: usize,
    pub bytes: &'a [u8],
}

/// What a site names.
#[derive(Clone, Copy)]
pub enum Target {
    /// A method, by a constant of one of these tags: 10 is a Methodref, 11 an InterfaceMethodref (JVMS 4.4.2).
    Method(&'static [u8]),
    Field,
    /// A type alone.
    Type,
}

/// What the sites of an opcode or of a kind of method handles have: their kind, and what they name.
#[derive(Clone, Copy)]
pub struct SiteForm {
    pub kind: SiteKind,
    pub target: Target,
}

// What the sites of an opcode have, or `None` where it has none.
fn form_of(opcode: u8) -> Option<SiteForm>
    ensures { form_if_any result ≡ site_form opcode }
{
    let (kind, target) = match opcode {
        178 | 179 => (SiteKind::StaticField, Target::Field),
        182 => (SiteKind::Virtual, Target::Method(&[10])),
        183 => (SiteKind::Special, Target::Method(&[10, 11])),
        184 => (SiteKind::Static, Target::Method(&[10, 11])),
        185 => (SiteKind::Interface, Target::Method(&[11])),
        187 => (SiteKind::New, Target::Type),
        _ => return None,
    };
    Some(SiteForm { kind, target })
}

// Whether an opcode is `invokedynamic`.
fn is_dynamic(opcode: u8) -> bool
    ensures { result ≡ is_dynamic opcode }
{
    opcode == 186
}

// What a reference names, as texts. A fault is at the given place of the file.
#[inline(always)]
fn find_texts<'a>(pool: &Pool<'a>, at: usize, index: u16) -> Result<RefTexts<'a>, ClassFault>
    ensures value { seen reference_texts result ≡ at_place at index (reference_of pool.now index) }
    ensures named { IfOk result (AreRefTexts pool.now) }
    ensures found { IfOk result (λ texts. reference_of pool.now index ≡ Ok (reference_texts texts)) }
{
    match pool.reference_texts(index) {
        Ok(texts) => Ok(texts),
        Err(rule) => Err(fault_at(at, index, rule.class_rule())),
    }
}

// The member of a type that an index names, by a constant of one of these tags and with a descriptor of a kind. A fault
// is at the given place of the file.
#[inline(always)]
#[tactic(auto, unfolding(fcg_classfile::specs::Breaks::Code::member_of))]
fn find_member<'a>(
    names: &mut ClassTexts<'a>,
    kind: DescKind,
    tags: &[u8],
    at: usize,
    index: u16,
) -> Result<RefTexts<'a>, ClassFault>
    ensures value { seen ref_of result ≡ member_of names.old (is_of_kind kind) tags.now at index }
    ensures named { IfOk result (AreRefTexts names.old) }
    ensures found { IfOk result (λ member. reference_of names.old index ≡ Ok (reference_texts member)) }
    ensures same { names.new ≡ names.old }
{
    let member = find_texts(names.pool(), at, index)?;
    if !is_one_of(tags, member.tag) {
        return Err(fault_at(at, index, ClassRule::WrongKind));
    }
    if member.owner.bytes.is_empty() || member.name.bytes.is_empty() {
        return Err(fault_at(at, 0, ClassRule::EmptyName));
    }
    if !names.is_descriptor(kind, &member.desc) {
        return Err(fault_at(at, 0, ClassRule::Descriptor));
    }
    Ok(member)
}

// A member of a type.
#[inline(always)]
fn row_of(member: &RefTexts<'_>) -> RefRow
    ensures { (pool : Entries) → AreRefTexts pool member.now → ref_in pool result ≡ ref_of member.now }
{
    RefRow {
        owner: member.owner.index,
        owner_is_interface_ref: member.tag == 11,
        name: member.name.index,
        desc: member.desc.index,
    }
}

// The field that an index names.
fn read_field(names: &mut ClassTexts<'_>, at: usize, index: u16) -> Result<RefRow, ClassFault>
    ensures value { seen (ref_in names.old) result ≡ member_of names.old is_field_descriptor (9 ∷ []) at index }
    ensures same { names.new ≡ names.old }
{
    let member = find_member(names, DescKind::Field, &[9], at, index)?;
    Ok(row_of(&member))
}

// The tag of the reference that names a method.
#[inline(always)]
fn method_tag(method: &RefRow) -> u8
    ensures { result ≡ method_tag method.now }
{
    if method.owner_is_interface_ref {
        11
    } else {
        10
    }
}

// The method that an index was found to name before, by a constant of one of these tags.
#[inline(always)]
fn find_again(names: &ClassTexts<'_>, tags: &[u8], index: u16) -> Option<RefRow>
    ensures { IfSome result (λ row. (at : ℕ) → member_of names.now is_descriptor tags.now at index ≡ Ok (ref_in names.now row)) }
{
    match names.found_method(index) {
        Some(row) if is_one_of(tags, method_tag(row)) => Some(*row),
        _ => None,
    }
}

// The method that an index names, by a constant of one of these tags, which is looked up once.
fn read_method(
    names: &mut ClassTexts<'_>,
    tags: &[u8],
    at: usize,
    index: u16,
) -> Result<RefRow, ClassFault>
    ensures value { seen (ref_in names.old) result ≡ member_of names.old is_descriptor tags.now at index }
    ensures same { names.new ≡ names.old }
{
    if let Some(row) = find_again(names, tags, index) {
        return Ok(row);
    }
    let member = find_member(names, DescKind::Method, tags, at, index)?;
    let row = row_of(&member);
    if method_tag(&row) == member.tag {
        names.keep_method(index, row);
    }
    Ok(row)
}

// The type that an index names, without a member.
#[tactic(auto, using(crate::proofs::RowLemmas::no_text))]
fn read_type_ref(pool: &Pool<'_>, at: usize, index: u16) -> Result<RefRow, ClassFault>
    ensures { seen (ref_in pool.now) result ≡ target_of pool.now ToType at index }
{
    let owner = find_type_of(pool, at, index)?;
    Ok(RefRow {
        owner: owner.index,
        owner_is_interface_ref: false,
        name: 0,
        desc: 0,
    })
}

// What a site names by an index. A fault is at the given place of the file.
#[inline(always)]
fn read_target(
    names: &mut ClassTexts<'_>,
    target: Target,
    at: usize,
    index: u16,
) -> Result<RefRow, ClassFault>
    ensures value { seen (ref_in names.old) result ≡ target_of names.old (target_in target) at index }
    ensures same { names.new ≡ names.old }
{
    match target {
        Target::Method(tags) => read_method(names, tags, at, index),
        Target::Field => read_field(names, at, index),
        Target::Type => read_type_ref(names.pool(), at, index),
    }
}

/// The site of a form that has an index at a pc. `count` is the number of sites of the class before it.
///
/// A fault is at the place `at` of the file. It is the first of these: the index, which is the fault's own, names
/// nothing that the form may have, as a method reference, a field reference or a type; the name of the type, the method
/// or the field is empty; the descriptor of a method is no method descriptor, or that of a field no field descriptor;
/// the class has as many sites before as it may have.
///
/// Takes constant time, but where a descriptor is needed for the first time: then it is read.
#[inline(always)]
#[tactic(auto, unfolding(fcg_classfile::specs::Breaks::Code::site_of))]
pub fn read_site_of(
    names: &mut ClassTexts<'_>,
    form: SiteForm,
    at: usize,
    pc: u16,
    index: u16,
    count: usize,
) -> Result<SiteRow, ClassFault>
    ensures value { seen (site_in names.old) result ≡ site_of names.old (form_in form) at pc index count }
    ensures same { names.new ≡ names.old }
{
    let target = read_target(names, form.target, at, index)?;
    if count >= MOST_SITES {
        return Err(fault_at(at, 0, ClassRule::ManySites));
    }
    Ok(SiteRow {
        pc,
        kind: form.kind,
        target,
    })
}

/// Adds the site or the call of a bootstrap method that the instruction whose opcode stands at a place of the code has.
/// `count` is the number of sites of the class before it.
///
/// A fault is at the place of the opcode in the file: that of the site, or of the operand of `invokedynamic`, which
/// names no InvokeDynamic.
#[tactic(auto, unfolding(fcg_classfile::specs::Breaks::Code::found_at))]
pub fn push_site_or_call(
    names: &mut ClassTexts<'_>,
    code: CodeSpan<'_>,
    pc: u16,
    instruction: Instruction,
    count: usize,
    sites: &mut Vec<SiteRow>,
    calls: &mut Vec<DynamicCall>,
) -> Result<(), ReadError<ClassFault>>
    requires place { code.begin + pc < 2 ^ 64 }
    requires opcode { instruction.opcode ≡ slice_index code.bytes.now pc }
    requires operand { instruction.operand ≡ operand_at code.bytes.now pc }
    ensures value { GivesFound names.old result sites.old.items sites.new.items calls.old.items calls.new.items (found_at names.old code.entry.begin code.entry.bytes.now pc count) }
    ensures placed { ArePlaced code.entry.begin calls.old.items → OnOk result (ArePlaced code.entry.begin calls.new.items) }
    ensures same { names.new ≡ names.old }
{
    let at = code.begin + usize::from(pc);
    let operand = instruction.operand;
    if is_dynamic(instruction.opcode) {
        let bootstrap = at_index(at, operand, names.pool().dynamic(operand))?;
        calls.push(DynamicCall { pc, bootstrap })?;
        return Ok(());
    }
    if let Some(form) = form_of(instruction.opcode) {
        let site = read_site_of(names, form, at, pc, operand, count)?;
        sites.push(site)?;
    }
    Ok(())
}
