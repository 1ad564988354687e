//! Names by the numbers of their texts.
ghost use Rattle.std.specs.Prelude.{◌≡◌, ◌<◌, ◌≤◌, ◌+◌, ◌++◌, ◌∷◌, [], All, length, OnOk, OnErr, IfOk};
ghost use Rattle.fcg_grammar.specs.Number.{part};
ghost use Rattle.fcg_views.specs.NamesIn.{text_in};

use crate::name::Name;
use std::alloc::{AllocError, Global};
use std::marker::Model;

/// Names, of which each is kept as the number of its text. The texts are parts of one block, as those of a class file are
/// of its bytes, so that a text that stands often has to be looked at once.
#[derive(Drop)]
pub struct NameList {
    block: Name,
    // of each text where it begins in the block, and its length
    texts: Vec<(u32, u32)>,
    // of each name the number of its text
    numbers: Vec<u16>,
}

impl Model for NameList {
    ghost use Rattle.std.specs.Prelude.{◌<◌, ◌≤◌, ◌+◌, All, length, map};
    ghost use Rattle.fcg_grammar.specs.Number.{part};
    ghost use Rattle.fcg_views.specs.NamesIn.{TextNumbers};
    ghost use Rattle.fcg_views.specs.Internal.Spans.{text_at, IsSpan};

    ghost Value = { TextNumbers };

    ghost view = { λ l. record { block = l.block; texts = map (text_at l.block) l.texts.items; numbers = l.numbers.items } };

    ghost invariant = { λ l. (All (IsSpan l.block) l.texts.items) × (All (λ n. n < length l.texts.items) l.numbers.items) };
}

impl NameList {
    /// No text and no name yet. The texts will be parts of this name's bytes.
    pub fn new(alloc: Global, block: Name) -> NameList
        ensures { result ≡ record { block = block; texts = []; numbers = [] } }
    {
        NameList {
            block,
            texts: Vec::new(alloc),
            numbers: Vec::new(alloc),
        }
    }

    /// Adds a text, which begins at a place of the block, and gives its number. There is no memory for more than 65,536
    /// texts.
    pub fn add_text(&mut self, begin: usize, len: usize) -> Result<u16, AllocError>
        requires { begin + len ≤ length self.old.block }
        ensures number { IfOk result (λ n. n ≡ length self.old.texts) }
        ensures ok { OnOk result (self.new ≡ record { block = self.old.block; texts = self.old.texts ++ part self.old.block begin len ∷ []; numbers = self.old.numbers }) }
        ensures err { OnErr result (self.new ≡ self.old) }
    {
        let Ok(number) = u16::try_from(self.texts.len()) else {
            return Err(AllocError);
        };
        let (Ok(begin), Ok(len)) = (u32::try_from(begin), u32::try_from(len)) else {
            return Err(AllocError);
        };
        self.texts.push((begin, len))?;
        Ok(number)
    }

    /// Adds the name that is the text of a number.
    pub fn push(&mut self, number: u16) -> Result<(), AllocError>
        requires { number < length self.old.texts }
        ensures ok { OnOk result (self.new ≡ record { block = self.old.block; texts = self.old.texts; numbers = self.old.numbers ++ number ∷ [] }) }
        ensures err { OnErr result (self.new ≡ self.old) }
    {
        self.numbers.push(number)?;
        Ok(())
    }

    /// Makes room for more texts and names, so that adding as many takes no more memory.
    pub fn reserve(&mut self, texts: usize, names: usize) -> Result<(), AllocError>
        ensures { self.new ≡ self.old }
    {
        self.texts.reserve(texts)?;
        self.numbers.reserve(names)?;
        Ok(())
    }

    /// Gives back the memory that was taken for more texts and names.
    pub fn shrink_to_fit(&mut self)
        ensures { self.new ≡ self.old }
    {
        self.texts.shrink_to_fit();
        self.numbers.shrink_to_fit();
    }

    /// How many texts it has.
    pub fn text_count(&self) -> usize
        ensures { result ≡ length self.now.texts }
    {
        self.texts.len()
    }

    /// The text of a number. Copies no byte.
    pub fn text(&self, number: usize) -> Result<Name, AllocError>
        requires { number < length self.now.texts }
        ensures { IfOk result (λ text. text ≡ text_in self.now.texts number) }
    {
        let (begin, len) = self.texts[number];
        self.block.part(begin as usize, len as usize)
    }

    /// Of each name the number of its text.
    pub fn numbers(&self) -> &[u16]
        ensures numbers { result.now ≡ self.now.numbers }
        ensures below { All (λ n. n < length self.now.texts) result.now }
    {
        self.numbers.as_slice()
    }
}
