//! Laws of the definitions.
ghost use Rattle.std.specs.Prelude.{◌≡◌, ◌↔◌, ℕ, ◌<◌, ◌≤◌, List, Option, Some, Ok, Err, count_by, is_some, nat_lt, if◌then◌else◌};
ghost use Rattle.fcg_grammar.specs.Rows.{each};
ghost use Rattle.fcg_grammar.specs.Spell.{IsBytes};
ghost use Rattle.fcg_grammar.specs.First.{BreaksFirst, AllKept};
ghost use Rattle.fcg_views.specs.declared.view.View.{View};
ghost use Rattle.fcg_classfile.specs.declared.code.CodeRule.{CodeRule};
ghost use Rattle.fcg_classfile.specs.declared.fault.PoolFault.{PoolFault};
ghost use Rattle.fcg_classfile.specs.declared.fault.ClassFault.{ClassFault};
ghost use Rattle.fcg_classfile.specs.ClassFile.{Constant};
ghost use Rattle.fcg_classfile.specs.Constants.{NamesUtf8, NamesClass, NamesReference, NamesHandle, NamesDynamic};
ghost use Rattle.fcg_classfile.specs.Reads.{IsPool, Reads, Verdict};
ghost use Rattle.fcg_views.specs.Valid.{IsValid};
ghost use Rattle.fcg_classfile.specs.Breaks.Pool.{Placed, Entries, Reference, text_of, name_of, reference_of, handle_of, dynamic_of, slot_kept, pool_at};
ghost use Rattle.fcg_classfile.specs.Breaks.Members.{methods_at};
ghost use Rattle.fcg_classfile.specs.Instructions.{is_in_any, forms, form_of, starts, Instruction, IsCode};
ghost use Rattle.fcg_classfile.specs.Breaks.Instructions.{starts_of};
ghost use Rattle.fcg_classfile.specs.Breaks.Code.{found_of};
ghost use Rattle.fcg_classfile.specs.Tables.{Holds};
ghost use Rattle.fcg_classfile.specs.Faults.{BrokenPool, BrokenMethods, BrokenCode, BrokenSites};

/// Each string of bytes is a class file, with one view or, as a module, none, or has one first fault, and never both.
pub fn one_verdict()
    ensures { (bytes : List ℕ) → IsBytes bytes → Verdict bytes }
{}

/// The view of a class file is valid.
pub fn class_files_are_valid()
    ensures { (bytes : List ℕ) (v : View) → Reads bytes (Some v) → IsValid v }
{}

/// The check of a pool's own indexes finds nothing only where each slot keeps its rule, and else the first slot that
/// breaks one.
pub fn pool_check_is_first()
    ensures kept { (pool : Entries) (slots : List (Option Placed)) → each (slot_kept pool) 1 slots ≡ Ok tt → AllKept (slot_kept pool) 1 slots }
    ensures broken { (pool : Entries) (slots : List (Option Placed)) (f : PoolFault) → each (slot_kept pool) 1 slots ≡ Err f → BreaksFirst (slot_kept pool) 1 slots f }
{}

/// What stands in a pool before its first fault.
pub fn first_fault_of_pool()
    ensures { (bytes : List ℕ) (at : ℕ) (f : PoolFault) → IsBytes bytes → pool_at bytes at ≡ Err f → BrokenPool bytes at f }
{}

/// A pool that is read holds the constants of a pool of the grammar.
pub fn pools_hold_constants()
    ensures { (bytes : List ℕ) (at : ℕ) (pool : Entries) (after : ℕ) → IsBytes bytes → pool_at bytes at ≡ Ok (pool, after) → (constants : List Constant) × Holds pool constants × IsPool constants }
{}

/// What an index names where a pool is read, and what it names in the constants that the pool holds, are one.
pub fn one_name()
    ensures utf8 { (pool : Entries) (constants : List Constant) → Holds pool constants → (index : ℕ) (text : List ℕ) → (text_of pool index ≡ Ok text) ↔ NamesUtf8 constants index text }
    ensures class { (pool : Entries) (constants : List Constant) → Holds pool constants → (index : ℕ) (name : List ℕ) → ((i : ℕ) × (name_of pool index ≡ Ok i) × (text_of pool i ≡ Ok name)) ↔ NamesClass constants index name }
    ensures reference { (pool : Entries) (constants : List Constant) → Holds pool constants → (index : ℕ) (r : Reference) → (reference_of pool index ≡ Ok r) ↔ NamesReference constants index r.tag r.owner r.name r.desc }
    ensures handle { (pool : Entries) (constants : List Constant) → Holds pool constants → (index kind : ℕ) (r : Reference) → (handle_of pool index ≡ Ok (kind, r)) ↔ NamesHandle constants index kind r.tag r.owner r.name r.desc }
    ensures dynamic { (pool : Entries) (constants : List Constant) → Holds pool constants → (index i : ℕ) → (dynamic_of pool index ≡ Ok i) ↔ NamesDynamic constants index i }
{}

/// What stands in the methods before their first fault, where the pool has these constants.
pub fn first_fault_of_methods()
    ensures { (pool : Entries) (constants : List Constant) (at : ℕ) (f : ClassFault) → IsBytes pool.bytes → Holds pool constants → methods_at pool at ≡ Err f → BrokenMethods pool constants at f }
{}

/// The instructions of a method's code: bytes that are read are some, at the places that are read; some are read at
/// their places; and bytes that have a first fault are none.
pub fn one_code()
    ensures found { (code places : List ℕ) → IsBytes code → starts_of code ≡ Ok places → (is : List Instruction) × IsCode code is × (starts 0 is ≡ places) }
    ensures only { (code : List ℕ) (is : List Instruction) → IsCode code is → starts_of code ≡ Ok (starts 0 is) }
    ensures broken { (code : List ℕ) (f : ℕ × CodeRule) (is : List Instruction) → starts_of code ≡ Err f → IsCode code is → ⊥ }
{}

/// What stands in a code before its first fault.
pub fn first_fault_of_code()
    ensures { (code : List ℕ) (f : ℕ × CodeRule) → IsBytes code → starts_of code ≡ Err f → BrokenCode code f }
{}

/// What stands in a code before its first fault, with the sites and the calls of its instructions. The code begins at a
/// place of the file, so many sites of the class are before it, and the pool has these constants.
pub fn first_fault_of_sites()
    ensures { (pool : Entries) (constants : List Constant) (begin : ℕ) (code : List ℕ) (count : ℕ) (f : ClassFault) → Holds pool constants → IsBytes code → count ≤ 1000000 → found_of pool begin code count ≡ Err f → BrokenSites pool constants begin code count f }
{}

/// Each opcode up to 201 stands in one row of the table of forms, and no other stands in any.
pub fn opcodes_have_one_form()
    ensures rows { (op : ℕ) → op < 256 → count_by (λ r. is_in_any r.1 op) forms ≡ (if nat_lt op 202 then 1 else 0) }
    ensures form { (op : ℕ) → op < 256 → is_some (form_of op) ≡ nat_lt op 202 }
{}
