//! The code of a method: its calls of bootstrap methods, and why bytes are none.

/// A rule of a method's code that an instruction breaks (JVMS 6), told at the place of its opcode.
#[derive(Clone, Copy, Debug, PartialEq, Eq)]
pub enum CodeRule {
    /// The instruction passes the code's end.
    CodeCut,
    /// The opcode is above 201.
    BadOpcode,
    /// The low bound of a `tableswitch` is above its high one, or the number of pairs of a `lookupswitch` is negative.
    BadSwitch,
    /// A `wide` stands before an opcode that can't be made wide.
    BadWide,
}

/// An `invokedynamic` of a method's code (JVMS 6.5).
#[derive(Clone, Copy)]
pub struct DynamicCall {
    /// The place of its opcode in the code, in bytes.
    pub pc: u16,
    /// The number of its bootstrap method, from 0: a row of BootstrapMethods (JVMS 4.7.23).
    pub bootstrap: u16,
}
