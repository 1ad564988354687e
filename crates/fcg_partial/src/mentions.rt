//! The names that are collected of some views, each as often as it stands.
ghost use Rattle.std.specs.Prelude.{◌≡◌, ◌<◌, ◌^◌, ◌++◌, ◌∷◌, [], length, map, OnOk, OnErr, IfOk, IfSome};
ghost use Rattle.fcg_grammar.specs.Table.{table, place, Rises};
ghost use Rattle.fcg_views.specs.NamesIn.{text_in, names_by};
ghost use Rattle.fcg_partial.specs.Internal.Mentions.{IsTextOf, Extends, AreKnown};

use crate::intern::{is_text, number_of};
use fcg_views::{Name, NameList};
use std::alloc::{AllocError, Global};
use std::hash::{DefaultHasher, Hash, Hasher};
use std::marker::Model;

// The most rows of the table by hashes.
const MOST_ROWS: usize = 524_288;

// The texts of names. A text is looked for in a table by a hash of its bytes, where another text may have taken its row,
// and is compared with what is found. So it may stand more than once: at worst as often as it is looked for, so that the
// time has a bound also where a stranger chooses the texts.
#[derive(Drop)]
struct Texts {
    items: Vec<Name>,
    by_hash: Vec<u32>,
}

fn hash_of(name: &Name) -> u64 {
    let mut hasher = DefaultHasher::new();
    name.hash(&mut hasher);
    hasher.finish()
}

impl Texts {
    // The row of a hash in its table.
    fn row_of_hash(&self, hash: u64) -> usize {
        (hash % (self.by_hash.len() as u64).max(1)) as usize
    }

    // The number of a text with the hash of its bytes, unless another text took its row.
    fn find(&self, name: &Name, hash: u64) -> Option<u32>
        ensures { IfSome result (λ n. IsTextOf self.now.items.items n name.now) }
    {
        let number = *self.by_hash.get(self.row_of_hash(hash))?;
        if is_text(&self.items, number, name) {
            Some(number)
        } else {
            None
        }
    }

    // Adds a text with the hash of its bytes. There is no memory for more texts than numbers of four bytes.
    fn add(&mut self, name: &Name, hash: u64) -> Result<u32, AllocError>
        ensures ok { IfOk result (λ n. Extends self.old.items.items self.new.items.items name.now n) }
        ensures err { OnErr result (self.new.items.items ≡ self.old.items.items) }
    {
        let Ok(number) = u32::try_from(self.items.len()) else {
            return Err(AllocError);
        };
        let copy = name.clone()?;
        self.items.push(copy)?;
        let row = self.row_of_hash(hash);
        if let Some(last) = self.by_hash.get_mut(row) {
            *last = number;
        }
        Ok(number)
    }

    // The number of a name's text, which is added where it isn't found.
    fn number(&mut self, name: &Name) -> Result<u32, AllocError>
        ensures ok { IfOk result (λ n. Extends self.old.items.items self.new.items.items name.now n) }
        ensures err { OnErr result (self.new.items.items ≡ self.old.items.items) }
    {
        let hash = hash_of(name);
        match self.find(name, hash) {
            Some(number) => Ok(number),
            None => self.add(name, hash),
        }
    }

    // The number of a text of a list: the known one, or else it is looked for, and known from then on.
    fn number_listed(
        &mut self,
        list: &NameList,
        text: u16,
        known: &mut [Option<u32>],
    ) -> Result<u32, AllocError>
        requires below { text < length list.now.texts }
        requires known { AreKnown self.old.items.items list.now.texts known.old }
        ensures ok { IfOk result (λ n. Extends self.old.items.items self.new.items.items (text_in list.now.texts text) n) }
        ensures err { OnErr result (self.new.items.items ≡ self.old.items.items) }
        ensures known { OnOk result (AreKnown self.new.items.items list.now.texts known.new) }
    {
        let at = usize::from(text);
        if let Some(number) = known[at] {
            return Ok(number);
        }
        let name = list.text(at)?;
        let number = self.number(&name)?;
        known[at] = Some(number);
        Ok(number)
    }

    // For each text the number that it probably has in a table.
    fn guess_numbers(&self, alloc: Global, names: &[Name]) -> Result<Vec<u32>, AllocError>
        requires { length names.now < 2 ^ 32 }
    {
        let mut numbers = vec![in alloc; u32::MAX; self.items.len()]?;
        for i in 0..names.len() {
            let text = self.find(&names[i], hash_of(&names[i])).unwrap_or(u32::MAX);
            if let Some(number) = numbers.get_mut(text as usize) {
                *number = i as u32;
            }
        }
        Ok(numbers)
    }

    // For each text its number in a table.
    fn numbers_in(&self, alloc: Global, names: &[Name]) -> Result<Vec<u32>, AllocError>
        requires rises { Rises names.now }
        requires few { length names.now < 2 ^ 32 }
        ensures { IfOk result (λ numbers. numbers.items ≡ map (place names.now) self.now.items.items) }
    {
        let texts = self.items.as_slice();
        let guesses = self.guess_numbers(alloc, names)?;
        let mut numbers = Vec::with_capacity(alloc, texts.len())?;
        for text in texts {
            let guess = guesses.get(numbers.len()).copied().unwrap_or(u32::MAX);
            numbers.push(number_of(names, text, guess))?;
        }
        Ok(numbers)
    }
}

// The names that were collected, each by the number of a text, in their order.
#[derive(Drop)]
pub(crate) struct Mentions {
    texts: Texts,
    numbers: Vec<u32>,
}

impl Model for Mentions {
    ghost use Rattle.std.specs.Prelude.{ℕ, List, map};
    ghost use Rattle.fcg_partial.specs.Views.{name_in};
    ghost use Rattle.fcg_partial.specs.Internal.Mentions.{AreMentions};

    ghost Value = { List (List ℕ) };

    ghost view = { λ m. map (name_in m.texts.items.items) m.numbers.items };

    ghost invariant = { λ m. AreMentions m.texts.items.items m.numbers.items };
}

impl Mentions {
    // Without a name, for names of so many texts.
    pub(crate) fn new(alloc: Global, texts: usize) -> Result<Mentions, AllocError>
        ensures { IfOk result (λ names. names ≡ []) }
    {
        let by_hash = vec![in alloc; 0; texts.min(MOST_ROWS)]?;
        Ok(Mentions {
            texts: Texts {
                items: Vec::new(alloc),
                by_hash,
            },
            numbers: Vec::new(alloc),
        })
    }

    pub(crate) fn push(&mut self, name: &Name) -> Result<(), AllocError>
        ensures { OnOk result (self.new ≡ self.old ++ name.now ∷ []) }
    {
        self.numbers.reserve(1)?;
        let number = self.texts.number(name)?;
        self.numbers.push(number).unwrap();
        Ok(())
    }

    // Adds the names of a list. Each of its texts is hashed and compared once.
    pub(crate) fn push_list(&mut self, alloc: Global, list: &NameList) -> Result<(), AllocError>
        ensures { OnOk result (self.new ≡ self.old ++ names_by list.now) }
    {
        let names = list.numbers();
        let mut known = vec![in alloc; None; list.text_count()]?;
        self.numbers.reserve(names.len())?;
        for text in names {
            self.numbers.reserve(1)?;
            let number = self.texts.number_listed(list, *text, known.as_mut_slice())?;
            self.numbers.push(number).unwrap();
        }
        Ok(())
    }

    // A copy of the texts, which are those of the names.
    pub(crate) fn copy_texts(&self, alloc: Global) -> Result<Vec<Name>, AllocError>
        ensures { IfOk result (λ texts. table texts.items ≡ table self.now) }
    {
        let texts = self.texts.items.as_slice();
        let mut copy = Vec::with_capacity(alloc, texts.len())?;
        for text in texts {
            copy.push(text.clone()?)?;
        }
        Ok(copy)
    }

    // For each name its number in a table. Each text is looked for in the table once.
    pub(crate) fn numbers_in(&self, alloc: Global, names: &[Name]) -> Result<Vec<u32>, AllocError>
        requires rises { Rises names.now }
        requires few { length names.now < 2 ^ 32 }
        ensures { IfOk result (λ numbers. numbers.items ≡ map (place names.now) self.now) }
    {
        let mentions = self.numbers.as_slice();
        let texts = self.texts.numbers_in(alloc, names)?;
        let mut numbers = Vec::with_capacity(alloc, mentions.len())?;
        for text in mentions {
            numbers.push(texts[*text as usize])?;
        }
        Ok(numbers)
    }
}
