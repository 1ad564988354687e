//! The reader of one class file. It answers exactly what the definitions of fcg_classfile give: the view, or the first
//! fault. The crate stands on the words of formats, on the values that every layer speaks of, on what a class file is, and
//! on the reader of constant pools.
#![tactic(auto)]

mod attributes;
mod bootstrap;
mod calls;
mod class;
mod code;
mod declared;
mod fields;
mod finish;
mod firsts;
mod handles;
mod kept;
mod members;
mod methods;
mod names;
mod naming;
mod number;
mod rows;
mod site;
mod text;

pub use class::{read_class, read_numbered};
