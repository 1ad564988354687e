//! Why bytes are no class file.
ghost use Rattle.std.specs.Prelude.{◌≡◌};
ghost use Rattle.fcg_classfile.specs.Breaks.Pool.{pool_fault};
ghost use Rattle.fcg_classfile.specs.Breaks.Fault.{fault, rule_of, fault_of, at_place, code_rule_of, at_opcode};

use crate::code::CodeRule;
use fcg_grammar::ReadError;

/// A rule of constant pools that bytes break.
#[derive(Clone, Copy, Debug, PartialEq, Eq)]
pub enum PoolRule {
    /// A number or a string of bytes passes the file's end.
    Cut,
    /// A tag that no constant has (JVMS 4.4, table 4.4-A).
    BadTag,
    /// A Utf8 isn't modified UTF-8 (JVMS 4.4.7).
    BadUtf8,
    /// An index is 0, past the pool, or the second of a Long or Double, or a Long or Double has no second index.
    BadIndex,
    /// An index names a constant of another kind than is asked, or a method handle has a kind outside 1 to 9.
    WrongKind,
}

/// The first rule that is broken, in the order in which a constant pool is read.
#[derive(Clone, Copy, Debug, PartialEq, Eq)]
pub struct PoolFault {
    /// The place of the item that breaks the rule, in bytes from the file's start; of a broken index, that of its
    /// constant's tag. A place that is too large is given as the last value.
    pub offset: u32,
    /// The index of the constant that was read or checked; 0 of an item that is cut.
    pub index: u16,
    pub rule: PoolRule,
}

/// A rule of class files that bytes break.
#[derive(Clone, Copy, Debug, PartialEq, Eq)]
pub enum ClassRule {
    /// The first four bytes aren't `cafebabe`.
    Magic,
    /// The major version is below 45 or above 65.
    Version,
    /// A number or a string of bytes passes the end of the file, or of the attribute Code or BootstrapMethods that it
    /// stands in.
    Cut,
    /// A tag that no constant has.
    BadTag,
    /// A Utf8 isn't modified UTF-8 (JVMS 4.4.7).
    BadUtf8,
    /// An index names nothing.
    BadIndex,
    /// An index names a constant of another kind than is asked.
    WrongKind,
    /// A descriptor is outside the grammar (JVMS 4.3).
    Descriptor,
    /// The name of a type, a field or a method is empty.
    EmptyName,
    /// An earlier method of the class has the same name and descriptor.
    DoubleMethod,
    /// A method has a second attribute Code.
    DoubleCode,
    /// The length of a code is 0 or above 65,535.
    CodeLength,
    /// An instruction passes the code's end.
    CodeCut,
    /// An opcode is above 201.
    BadOpcode,
    /// The bounds of a `tableswitch` or the number of pairs of a `lookupswitch` are out of range.
    BadSwitch,
    /// A `wide` stands before an opcode that can't be made wide.
    BadWide,
    /// The class has a second attribute BootstrapMethods, or an `invokedynamic` whose bootstrap method isn't there.
    Bootstrap,
    /// Bytes stand after what an attribute Code or BootstrapMethods holds, or after the class file.
    Trailing,
    /// The class has more than 1,000,000 sites.
    ManySites,
}

/// The first rule that is broken, in the order in which a class file is read.
#[derive(Clone, Copy, Debug, PartialEq, Eq)]
pub struct ClassFault {
    /// The place of the item that breaks the rule, in bytes from the file's start. A place that is too large is
    /// given as the last value.
    pub offset: u32,
    /// The index of the pool that was in hand, or 0.
    pub index: u16,
    pub rule: ClassRule,
}

/// The fault at a place.
pub fn fault_at(at: usize, index: u16, rule: ClassRule) -> ClassFault
    ensures { result ≡ fault at index rule }
{
    ClassFault {
        offset: u32::try_from(at).unwrap_or(u32::MAX),
        index,
        rule,
    }
}

impl PoolRule {
    /// The same rule of class files.
    pub fn class_rule(self) -> ClassRule
        ensures { result ≡ rule_of self }
    {
        match self {
            PoolRule::Cut => ClassRule::Cut,
            PoolRule::BadTag => ClassRule::BadTag,
            PoolRule::BadUtf8 => ClassRule::BadUtf8,
            PoolRule::BadIndex => ClassRule::BadIndex,
            PoolRule::WrongKind => ClassRule::WrongKind,
        }
    }
}

/// A rule that the index at a place broke, as a fault at that place.
pub fn at_index<T>(at: usize, index: u16, found: Result<T, PoolRule>) -> Result<T, ClassFault>
    ensures { result ≡ at_place at index found }
{
    match found {
        Ok(value) => Ok(value),
        Err(rule) => Err(fault_at(at, index, rule.class_rule())),
    }
}

impl CodeRule {
    /// The same rule of class files.
    pub fn class_rule(self) -> ClassRule
        ensures { result ≡ code_rule_of self }
    {
        match self {
            CodeRule::CodeCut => ClassRule::CodeCut,
            CodeRule::BadOpcode => ClassRule::BadOpcode,
            CodeRule::BadSwitch => ClassRule::BadSwitch,
            CodeRule::BadWide => ClassRule::BadWide,
        }
    }
}

/// A rule that an instruction broke, as a fault at the place of its opcode.
pub fn at_opcode<T>(at: usize, found: Result<T, CodeRule>) -> Result<T, ClassFault>
    ensures { result ≡ at_opcode at found }
{
    match found {
        Ok(value) => Ok(value),
        Err(rule) => Err(fault_at(at, 0, rule.class_rule())),
    }
}

/// The fault of a constant whose place and index are given.
pub fn pool_fault_at(at: usize, index: u16, rule: PoolRule) -> PoolFault
    ensures { result ≡ pool_fault at index rule }
{
    PoolFault {
        offset: u32::try_from(at).unwrap_or(u32::MAX),
        index,
        rule,
    }
}

impl From<PoolFault> for ClassFault {
    ghost from_gives = { λ f e. e ≡ fault_of f };

    fn from(fault: PoolFault) -> ClassFault {
        ClassFault {
            offset: fault.offset,
            index: fault.index,
            rule: fault.rule.class_rule(),
        }
    }
}

impl From<PoolFault> for ReadError<PoolFault> {
    ghost use Rattle.fcg_grammar.specs.declared.error.ReadError.TheVariants as errors;

    ghost from_gives = { λ f e. e ≡ errors.Fault f };

    fn from(fault: PoolFault) -> ReadError<PoolFault> {
        ReadError::Fault(fault)
    }
}

impl From<ClassFault> for ReadError<ClassFault> {
    ghost use Rattle.fcg_grammar.specs.declared.error.ReadError.TheVariants as errors;

    ghost from_gives = { λ f e. e ≡ errors.Fault f };

    fn from(fault: ClassFault) -> ReadError<ClassFault> {
        ReadError::Fault(fault)
    }
}
