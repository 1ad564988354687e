//! What a class file is, and which first fault other bytes have. The grammar of class files and the order in which they
//! are read are two definitions: laws say that both speak of the same files, with the same views, and that each view is
//! valid. Where a pool, a table of methods or a code is broken, they say that all before the first fault is spelled by the
//! grammar. The only code that runs makes faults. The crate stands on the words of formats and on the views.
#![tactic(auto)]

mod code;
mod fault;
mod laws;

pub use code::{CodeRule, DynamicCall};
pub use fault::{
    ClassFault, ClassRule, PoolFault, PoolRule, at_index, at_opcode, fault_at, pool_fault_at,
};
pub use laws::{
    class_files_are_valid, first_fault_of_code, first_fault_of_methods, first_fault_of_pool,
    first_fault_of_sites, one_code, one_name, one_verdict, opcodes_have_one_form,
    pool_check_is_first, pools_hold_constants,
};
