//! The methods of a class file, no two of which have one name and descriptor.
ghost use Rattle.std.specs.Prelude.{◌≡◌, ◌≤◌, ◌+◌, ◌++◌, ◌∷◌, [], length, sum_by, Ok, OnOk, IfOk};
ghost use Rattle.std.specs.List.{list_any};
ghost use Rattle.fcg_classfile.specs.Breaks.Pool.{text_of};
ghost use Rattle.fcg_views.specs.Valid.{site_count};
ghost use Rattle.fcg_reader.specs.Internal.Calls.{unfinished_in, all_unfinished_in};
ghost use Rattle.fcg_reader.specs.Internal.Methods.{is_signature, methods_of};

use crate::calls::Unfinished;
use crate::firsts::FirstTexts;
use fcg_pool::{Pool, Text};
use std::alloc::{AllocError, Global};
use std::collections::BTreeSet;
use std::marker::Model;

/// Methods in the order in which they were read, each with its calls of bootstrap methods. Their names and descriptors
/// are kept as indexes of the constant pool, so that texts are compared once for each Utf8 and not for each method.
#[derive(Drop)]
pub struct MethodTable<'a> {
    methods: Vec<Unfinished>,
    // the names and the descriptors of the methods
    texts: FirstTexts<'a>,
    // of each method the first indexes of its name and its descriptor
    signatures: BTreeSet<(u16, u16)>,
    // how many sites the methods have
    sites: usize,
}

impl<'a> Model for MethodTable<'a> {
    ghost use Rattle.fcg_reader.specs.Internal.Calls.{all_unfinished_in};
    ghost use Rattle.fcg_reader.specs.Internal.Methods.{Table, table, IsTable};

    ghost Value = { Table };

    ghost view = { λ t. table t.texts.pool.now t.methods.items };

    ghost invariant = { λ t. IsTable (all_unfinished_in t.texts.pool.now t.methods.items) t.texts.pool.now t.texts.known t.texts.firsts.items t.signatures t.sites };
}

impl<'a> MethodTable<'a> {
    /// No method yet, and memory for so many. It takes memory for each index of the pool too.
    pub fn new(alloc: Global, pool: &'a Pool<'a>, count: u16) -> Result<MethodTable<'a>, AllocError>
        ensures { IfOk result (λ table. table ≡ record { pool = pool.now; methods = [] }) }
    {
        Ok(MethodTable {
            methods: Vec::with_capacity(alloc, usize::from(count))?,
            texts: FirstTexts::new(alloc, pool)?,
            signatures: BTreeSet::new(alloc),
            sites: 0,
        })
    }

    /// The constant pool.
    pub fn pool(&self) -> &'a Pool<'a>
        ensures { result.now ≡ self.now.pool }
    {
        self.texts.pool
    }

    /// How many sites the methods have.
    pub fn site_count(&self) -> usize
        ensures value { result ≡ site_count (methods_of self.now.methods) }
        ensures few { result ≤ 1000000 }
    {
        self.sites
    }

    /// Whether a method has this name and descriptor. Compares a logarithm of the number of methods of indexes, and where
    /// a Utf8 is asked for the first time a logarithm of their number of texts.
    pub fn has(&mut self, name: &Text<'a>, desc: &Text<'a>) -> Result<bool, AllocError>
        requires name { text_of self.old.pool name.now.index ≡ Ok name.now.bytes.now }
        requires desc { text_of self.old.pool desc.now.index ≡ Ok desc.now.bytes.now }
        ensures value { IfOk result (λ has. has ≡ list_any (is_signature name.now.bytes.now desc.now.bytes.now) (methods_of self.old.methods)) }
        ensures same { self.new ≡ self.old }
    {
        let signature = self.texts.add_both(name, desc)?;
        Ok(self.signatures.contains(&signature))
    }

    /// Adds a method of this name and descriptor. The methods have at most 1,000,000 sites with its own.
    pub fn push(
        &mut self,
        method: Unfinished,
        name: &Text<'a>,
        desc: &Text<'a>,
    ) -> Result<(), AllocError>
        requires name { (text_of self.old.pool name.now.index ≡ Ok name.now.bytes.now) × (method.0.name ≡ name.now.index) }
        requires desc { (text_of self.old.pool desc.now.index ≡ Ok desc.now.bytes.now) × (method.0.desc ≡ desc.now.index) }
        requires few { site_count (methods_of self.old.methods) + length method.0.sites ≤ 1000000 }
        ensures ok { OnOk result (self.new.methods ≡ self.old.methods ++ unfinished_in self.old.pool method ∷ []) }
        ensures same { self.new.pool ≡ self.old.pool }
    {
        self.methods.reserve(1)?;
        let signature = self.texts.add_both(name, desc)?;
        self.signatures.insert(signature)?;
        self.sites += method.0.sites.as_slice().len();
        self.methods.push(method).unwrap();
        Ok(())
    }

    /// The methods.
    pub fn into_methods(self) -> Vec<Unfinished>
        ensures methods { all_unfinished_in self.entry.pool result.items ≡ self.entry.methods }
        ensures few { sum_by (λ m. length m.0.sites) result.items ≤ 1000000 }
    {
        self.methods
    }
}
