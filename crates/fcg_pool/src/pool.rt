//! The constant pool of a class file (JVMS 4.4).
ghost use Rattle.std.specs.Prelude.{◌≡◌, ◌≤◌, ◌<◌, ◌+◌, ◌∷◌, [], length, IfOk};
ghost use Rattle.fcg_grammar.specs.Number.{part};
ghost use Rattle.fcg_grammar.specs.Reading.{seen, Gives};
ghost use Rattle.fcg_grammar.specs.Rows.{each};

use crate::check::check_slot;
use crate::constant::{Entry, find_constant, find_tag, find_text, name_at, pair_at, part_in};
use crate::entries::read_slots;
use crate::number::read_u2;
use fcg_classfile::{PoolFault, PoolRule};
use fcg_grammar::ReadError;
use std::alloc::Global;
use std::marker::Model;

/// What a Fieldref, Methodref or InterfaceMethodref names (JVMS 4.4.2): the name of its Class, and the name and the
/// descriptor of its NameAndType. They are slices of the file.
#[derive(Clone, Copy)]
pub struct RefSpan<'a> {
    /// The tag of the reference: 9, 10 or 11.
    pub tag: u8,
    pub owner: &'a [u8],
    pub name: &'a [u8],
    pub desc: &'a [u8],
}

/// The text of a Utf8 (JVMS 4.4.7): the index of the constant, the bytes, which are a slice of the file, and a place of
/// the file where they stand.
#[derive(Clone, Copy)]
pub struct Text<'a> {
    pub index: u16,
    /// In bytes from the file's start.
    pub at: usize,
    pub bytes: &'a [u8],
}

/// What a Fieldref, Methodref or InterfaceMethodref names, as `RefSpan`, with the indexes and the places of its texts.
#[derive(Clone, Copy)]
pub struct RefTexts<'a> {
    /// The tag of the reference: 9, 10 or 11.
    pub tag: u8,
    pub owner: Text<'a>,
    pub name: Text<'a>,
    pub desc: Text<'a>,
}

/// The two indexes of a constant, and its tag.
#[derive(Clone, Copy)]
pub struct Indexes {
    pub tag: u8,
    pub first: u16,
    pub second: u16,
}

/// The constant pool of a class file (JVMS 4.4): the file's bytes, and where the constant of each index stands.
/// Nothing of the file is copied, and an accessor takes no memory and a few loads.
#[derive(Drop)]
pub struct Pool<'a> {
    bytes: &'a [u8],
    // by the index less 1; the second index of a Long or Double has no constant
    places: Vec<Option<usize>>,
}

impl<'a> Model for Pool<'a> {
    ghost use Rattle.std.specs.Prelude.{map};
    ghost use Rattle.fcg_classfile.specs.Breaks.Pool.{Entries};
    ghost use Rattle.fcg_pool.specs.Internal.ConstantAt.{slot_in, IsPool};

    ghost Value = { Entries };

    ghost view = { λ p. record { bytes = p.bytes.now; slots = map (slot_in p.bytes.now) p.places.items } };

    ghost invariant = { λ p. IsPool p.bytes.now p.places.items };
}

impl<'a> Pool<'a> {
    ghost use Rattle.fcg_classfile.specs.Breaks.Pool.{Entries, constant_of, text_of, name_of, pair_of, reference_of, handle_of, dynamic_of, slot_kept, pool_at};
    ghost use Rattle.fcg_classfile.specs.ClassFile.{tag_of};
    ghost use Rattle.fcg_pool.specs.Internal.Entry.{entry_constant};
    ghost use Rattle.fcg_pool.specs.Internal.ConstantAt.{constant_in, Lies};
    ghost use Rattle.fcg_pool.specs.CodeValues.{span_of, reference_texts, IsTextOf, AreRefTexts, class_name_of, handle_pair_of, handle_indexes_of};
    ghost use Rattle.fcg_pool.specs.Internal.Entry.{indexes_of};

    /// The bytes of the file.
    pub fn bytes(&self) -> &'a [u8]
        ensures { result.now ≡ self.now.bytes }
    {
        self.bytes
    }

    /// How many indexes there are.
    pub fn len(&self) -> usize
        ensures len { result ≡ length self.now.slots }
        ensures few { result < 65535 }
    {
        self.places.len()
    }

    // The place of the constant at an index.
    #[tactic(auto, unfolding(fcg_classfile::specs::Breaks::Pool::constant_of))]
    fn place(&self, index: u16) -> Result<usize, PoolRule>
        ensures value { seen (constant_in self.now.bytes) result ≡ constant_of self.now index }
        ensures lies { IfOk result (Lies self.now.bytes) }
    {
        if index == 0 {
            return Err(PoolRule::BadIndex);
        }
        match self.places.get(usize::from(index) - 1) {
            None => Err(PoolRule::BadIndex),
            Some(None) => Err(PoolRule::BadIndex),
            Some(Some(at)) => Ok(*at),
        }
    }

    // The constant at an index.
    pub(crate) fn constant(&self, index: u16) -> Result<Entry<'a>, PoolRule>
        ensures { seen entry_constant result ≡ constant_of self.now index }
    {
        let at = self.place(index)?;
        Ok(find_constant(self.bytes(), at))
    }

    // The tag of the constant at an index.
    pub(crate) fn tag(&self, index: u16) -> Result<u8, PoolRule>
        ensures { result ≡ seen tag_of (constant_of self.now index) }
    {
        let at = self.place(index)?;
        Ok(find_tag(self.bytes(), at))
    }

    /// The text of the Utf8 at an index (JVMS 4.4.7).
    #[inline(always)]
    #[tactic(auto, unfolding(fcg_classfile::specs::Breaks::Pool::text_of))]
    pub fn text(&self, index: u16) -> Result<Text<'a>, PoolRule>
        ensures value { seen (λ text. text.bytes.now) result ≡ text_of self.now index }
        ensures named { IfOk result (IsTextOf self.now) }
    {
        let at = self.place(index)?;
        let (begin, len) = find_text(self.bytes(), at)?;
        let bytes = part_in(self.bytes(), begin, len);
        Ok(Text {
            index,
            at: begin,
            bytes,
        })
    }

    /// The bytes of the Utf8 at an index (JVMS 4.4.7), which are a slice of the file.
    pub fn utf8(&self, index: u16) -> Result<&'a [u8], PoolRule>
        ensures { seen (λ text. text.now) result ≡ text_of self.now index }
    {
        let text = self.text(index)?;
        Ok(text.bytes)
    }

    /// The index of the name of the Class at an index (JVMS 4.4.1).
    #[tactic(auto, unfolding(fcg_classfile::specs::Breaks::Pool::name_of))]
    pub fn class_index(&self, index: u16) -> Result<u16, PoolRule>
        ensures { result ≡ name_of self.now index }
    {
        let at = self.place(index)?;
        name_at(self.bytes(), at)
    }

    /// The name of the Class at an index (JVMS 4.4.1).
    pub fn class_name(&self, index: u16) -> Result<&'a [u8], PoolRule>
        ensures { seen (λ text. text.now) result ≡ class_name_of self.now index }
    {
        let name = self.class_index(index)?;
        self.utf8(name)
    }

    // The two indexes of the constant at an index, which is of one of these tags.
    #[tactic(auto, unfolding(fcg_classfile::specs::Breaks::Pool::pair_of))]
    fn pair(&self, tags: &[u8], index: u16) -> Result<Indexes, PoolRule>
        ensures { seen indexes_of result ≡ pair_of self.now tags.now index }
    {
        let at = self.place(index)?;
        pair_at(self.bytes(), at, tags)
    }

    /// What the Fieldref, Methodref or InterfaceMethodref at an index names (JVMS 4.4.2), as texts. The error is the
    /// rule that the first of its indexes breaks: those of the owner come before those of the name and the descriptor.
    #[inline(always)]
    #[tactic(auto, unfolding(fcg_classfile::specs::Breaks::Pool::reference_of))]
    pub fn reference_texts(&self, index: u16) -> Result<RefTexts<'a>, PoolRule>
        ensures value { seen reference_texts result ≡ reference_of self.now index }
        ensures named { IfOk result (AreRefTexts self.now) }
    {
        let pair = self.pair(&[9, 10, 11], index)?;
        let class = self.class_index(pair.first)?;
        let owner = self.text(class)?;
        let member = self.pair(&[12], pair.second)?;
        let name = self.text(member.first)?;
        let desc = self.text(member.second)?;
        Ok(RefTexts {
            tag: pair.tag,
            owner,
            name,
            desc,
        })
    }

    /// What the Fieldref, Methodref or InterfaceMethodref at an index names (JVMS 4.4.2).
    pub fn reference(&self, index: u16) -> Result<RefSpan<'a>, PoolRule>
        ensures { seen span_of result ≡ reference_of self.now index }
    {
        let texts = self.reference_texts(index)?;
        Ok(RefSpan {
            tag: texts.tag,
            owner: texts.owner.bytes,
            name: texts.name.bytes,
            desc: texts.desc.bytes,
        })
    }

    /// The kind of the MethodHandle at an index (JVMS 4.4.8), and the index of what it names.
    pub fn handle_pair(&self, index: u16) -> Result<(u8, u16), PoolRule>
        ensures { result ≡ handle_pair_of self.now index }
    {
        match self.constant(index)? {
            Entry::Utf8(_) => Err(PoolRule::WrongKind),
            Entry::Plain(_, _) => Err(PoolRule::WrongKind),
            Entry::Named(_, _) => Err(PoolRule::WrongKind),
            Entry::Pair(_, _, _) => Err(PoolRule::WrongKind),
            Entry::Handle(kind, reference) => Ok((kind, reference)),
        }
    }

    /// The kind of the MethodHandle at an index (JVMS 4.4.8), and the index of what it names; `None` where a constant of
    /// another tag is. An index without a constant is the error `BadIndex`.
    pub fn handle_indexes(&self, index: u16) -> Result<Option<(u8, u16)>, PoolRule>
        ensures { result ≡ handle_indexes_of self.now index }
    {
        match self.constant(index)? {
            Entry::Utf8(_) => Ok(None),
            Entry::Plain(_, _) => Ok(None),
            Entry::Named(_, _) => Ok(None),
            Entry::Pair(_, _, _) => Ok(None),
            Entry::Handle(kind, reference) => Ok(Some((kind, reference))),
        }
    }

    /// The kind of the MethodHandle at an index (JVMS 4.4.8), and what it names.
    #[tactic(auto, unfolding(fcg_classfile::specs::Breaks::Pool::handle_of))]
    pub fn handle(&self, index: u16) -> Result<(u8, RefSpan<'a>), PoolRule>
        ensures { seen (λ x. (x.0, span_of x.1)) result ≡ handle_of self.now index }
    {
        let (kind, named) = self.handle_pair(index)?;
        let reference = self.reference(named)?;
        Ok((kind, reference))
    }

    /// The index of the bootstrap method of the InvokeDynamic at an index (JVMS 4.4.10).
    #[tactic(auto, unfolding(fcg_classfile::specs::Breaks::Pool::dynamic_of))]
    pub fn dynamic(&self, index: u16) -> Result<u16, PoolRule>
        ensures { result ≡ dynamic_of self.now index }
    {
        let pair = self.pair(&[18], index)?;
        Ok(pair.first)
    }

    // The indexes of each constant.
    fn check(&self) -> Result<(), PoolFault>
        ensures { result ≡ each (slot_kept self.now) 1 self.now.slots }
    {
        for (i, place) in self.places.iter().enumerate() {
            check_slot(self, i as u16 + 1, *place)?;
        }
        Ok(())
    }

    /// The pool whose count stands at a place, and the place after it; or its first fault in reading order. Takes one
    /// pass over the constants, and one more over what their indexes name. It takes memory for one place for each index.
    #[tactic(auto, unfolding(fcg_classfile::specs::Breaks::Pool::pool_at))]
    pub fn read(
        alloc: Global,
        bytes: &'a [u8],
        at: usize,
    ) -> Result<(Pool<'a>, usize), ReadError<PoolFault>>
        requires { at ≤ length bytes.now }
        ensures value { Gives (λ x. (x.0, x.1)) result (pool_at bytes.now at) }
        ensures inside { IfOk result (λ x. (x.1 ≤ length x.0.bytes) × (x.0.bytes ≡ bytes.now)) }
    {
        let count = read_u2(bytes, at)?;
        let (places, next) = read_slots(alloc, bytes, count, at + 2)?;
        let pool = Pool { bytes, places };
        pool.check()?;
        Ok((pool, next.at))
    }
}
