//! The readers of constant pools (JVMS 4.4) and of instructions (JVMS 6). They answer exactly what the definitions of
//! fcg_classfile give: the value, or the first fault. The crate stands on the words of formats, on the values that every
//! layer speaks of, and on what a class file is.
#![tactic(auto)]

mod check;
mod constant;
mod entries;
mod groups;
mod instruction;
mod number;
mod pool;

pub use check::is_one_of;
pub use fcg_classfile::{CodeRule, PoolFault, PoolRule};
pub use groups::find_bad_group;
pub use instruction::{Instruction, next_instruction, plain_len};
pub use pool::{Pool, RefSpan, RefTexts, Text};
