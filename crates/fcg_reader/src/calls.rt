//! The calls of bootstrap methods that the code of a method has (JVMS 6.5, `invokedynamic`).
ghost use Rattle.std.specs.Prelude.{◌≡◌, []};
ghost use Rattle.fcg_reader.specs.Internal.Calls.{ArePlaced};

use crate::rows::MethodRow;
use fcg_classfile::DynamicCall;
use std::alloc::Global;
use std::marker::Model;

/// The calls of bootstrap methods of a method's code, and where the code begins, in bytes from the file's start.
#[derive(Drop)]
pub struct CodeCalls {
    begin: usize,
    calls: Vec<DynamicCall>,
}

/// A method with the sites of its instructions, and its calls of bootstrap methods.
pub type Unfinished = (MethodRow, CodeCalls);

impl Model for CodeCalls {
    ghost use Rattle.fcg_classfile.specs.Breaks.Members.{Calls};
    ghost use Rattle.fcg_reader.specs.Internal.Calls.{ArePlaced};

    ghost Value = { Calls };

    ghost view = { λ c. record { begin = c.begin; calls = c.calls.items } };

    ghost invariant = { λ c. ArePlaced c.begin c.calls.items };
}

impl CodeCalls {
    /// A method without code has no call.
    pub fn none(alloc: Global) -> CodeCalls
        ensures { result ≡ record { begin = 0; calls = [] } }
    {
        CodeCalls {
            begin: 0,
            calls: Vec::new(alloc),
        }
    }

    /// The calls of the code that begins at a place of the file.
    pub fn new(begin: usize, calls: Vec<DynamicCall>) -> CodeCalls
        requires { ArePlaced begin calls.items }
        ensures { result ≡ record { begin = begin; calls = calls.items } }
    {
        CodeCalls { begin, calls }
    }

    /// Where the code begins, in bytes from the file's start.
    pub fn begin(&self) -> usize
        ensures { result ≡ self.now.begin }
    {
        self.begin
    }

    /// The calls, in the order of the code. The opcode of each has a place in the file.
    pub fn calls(&self) -> &[DynamicCall]
        ensures calls { result.now ≡ self.now.calls }
        ensures placed { ArePlaced self.now.begin result.now }
    {
        &self.calls
    }
}
