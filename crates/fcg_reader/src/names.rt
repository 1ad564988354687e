//! The texts of a class file, of which a descriptor is read once, and its references, of which a method is found once.
ghost use Rattle.std.specs.Prelude.{◌≡◌, ℕ, None, Ok, IfOk, IfSome, slice_index_or};
ghost use Rattle.fcg_classfile.specs.Breaks.Pool.{text_of};
ghost use Rattle.fcg_reader.specs.Internal.Names.{AllUntyped, IsMethodAt, is_of_kind, descs};

use crate::kept::{find_kept, keep};
use crate::rows::RefRow;
use fcg_pool::{Pool, Text};
use fcg_views::{read_descriptor, read_field_descriptor};
use std::alloc::{AllocError, Global};
use std::marker::Model;

/// A kind of descriptors.
#[derive(Clone, Copy)]
pub enum DescKind {
    /// A field descriptor (JVMS 4.3.2).
    Field,
    /// A method descriptor (JVMS 4.3.3).
    Method,
}

/// The constant pool of a class file, with what was found of it: which texts are field descriptors and which are method
/// descriptors, and the methods that references name.
#[derive(Drop)]
pub struct ClassTexts<'a> {
    pool: &'a Pool<'a>,
    fields: FoundDescs<'a>,
    methods: FoundDescs<'a>,
    // by the index of a reference the method that it names, where it was found
    found: Vec<Option<RefRow>>,
}

impl<'a> Model for ClassTexts<'a> {
    ghost use Rattle.fcg_classfile.specs.Breaks.Pool.{Entries};
    ghost use Rattle.fcg_reader.specs.Internal.Names.{IsKnown};

    ghost Value = { Entries };

    ghost view = { λ n. n.pool.now };

    ghost invariant = { λ n. IsKnown n.pool.now n.fields n.methods n.found.items };
}

impl<'a> ClassTexts<'a> {
    /// No descriptor is read and no method is found yet. It takes memory for each index of the pool.
    pub fn new(alloc: Global, pool: &'a Pool<'a>) -> Result<ClassTexts<'a>, AllocError>
        ensures { IfOk result (λ names. names ≡ pool.now) }
    {
        let fields = FoundDescs::new(alloc, pool, DescKind::Field)?;
        let methods = FoundDescs::new(alloc, pool, DescKind::Method)?;
        let found = none_found(alloc, pool.len() + 1)?;
        Ok(ClassTexts {
            pool,
            fields,
            methods,
            found,
        })
    }

    /// The constant pool.
    pub fn pool(&self) -> &'a Pool<'a>
        ensures { result.now ≡ self.now }
    {
        self.pool
    }

    /// Whether a text is a descriptor of a kind. One that is is read once, however often it is asked for.
    #[inline(always)]
    pub fn is_descriptor(&mut self, kind: DescKind, text: &Text<'_>) -> bool
        requires { text_of self.old text.now.index ≡ Ok text.now.bytes.now }
        ensures value { result ≡ is_of_kind kind text.now.bytes.now }
        ensures same { self.new ≡ self.old }
    {
        match kind {
            DescKind::Field => self.fields.has(text),
            DescKind::Method => self.methods.has(text),
        }
    }

    /// The method that a reference was found to name.
    #[inline(always)]
    pub fn found_method(&self, index: u16) -> Option<&RefRow>
        ensures { IfSome result (λ row. IsMethodAt self.now index row.now) }
    {
        find_kept(&self.found, index)
    }

    /// Keeps the method that a reference names.
    #[inline(always)]
    pub fn keep_method(&mut self, index: u16, method: RefRow)
        requires { IsMethodAt self.old index method }
        ensures same { self.new ≡ self.old }
    {
        keep(&mut self.found, index, method);
    }
}

// The texts of a pool that were found to be descriptors of a kind.
#[derive(Drop)]
struct FoundDescs<'a> {
    pool: &'a Pool<'a>,
    kind: DescKind,
    // by the index of the Utf8, whether it was found to be one
    typed: Vec<bool>,
}

impl<'a> Model for FoundDescs<'a> {
    ghost use Rattle.fcg_reader.specs.Internal.Names.{Descs, descs, AreTyped};

    ghost Value = { Descs };

    ghost view = { λ d. descs d.pool.now d.kind };

    ghost invariant = { λ d. AreTyped d.pool.now d.kind d.typed.items };
}

impl<'a> FoundDescs<'a> {
    // None was found yet.
    fn new(alloc: Global, pool: &'a Pool<'a>, kind: DescKind) -> Result<FoundDescs<'a>, AllocError>
        ensures { IfOk result (λ found. found ≡ descs pool.now kind) }
    {
        let typed = untyped(alloc, pool.len() + 1)?;
        Ok(FoundDescs { pool, kind, typed })
    }

    // Whether a text is a descriptor of the kind. One that is is read once.
    fn has(&mut self, text: &Text<'_>) -> bool
        requires { text_of self.old.pool text.now.index ≡ Ok text.now.bytes.now }
        ensures value { result ≡ is_of_kind self.old.kind text.now.bytes.now }
        ensures same { self.new ≡ self.old }
    {
        let index = usize::from(text.index);
        if let Some(true) = self.typed.get(index) {
            return true;
        }
        let found = is_of_kind(self.kind, text.bytes);
        if found && let Some(typed) = self.typed.get_mut(index) {
            *typed = true;
        }
        found
    }
}

// Whether the bytes are a descriptor of a kind.
fn is_of_kind(kind: DescKind, bytes: &[u8]) -> bool
    ensures { result ≡ is_of_kind kind bytes.now }
{
    match kind {
        DescKind::Field => read_field_descriptor(bytes).is_ok(),
        DescKind::Method => read_descriptor(bytes).is_ok(),
    }
}

// So many texts that weren't found to be descriptors.
fn untyped(alloc: Global, count: usize) -> Result<Vec<bool>, AllocError>
    ensures { IfOk result (λ typed. AllUntyped typed.items) }
{
    Ok(vec![in alloc; false; count]?)
}

// So many references, whose methods weren't found.
fn none_found(alloc: Global, count: usize) -> Result<Vec<Option<RefRow>>, AllocError>
    ensures { IfOk result (λ found. (i : ℕ) → slice_index_or found.items i None ≡ None) }
{
    Ok(vec![in alloc; None; count]?)
}
