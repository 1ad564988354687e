//! The words of numbers and queries.
ghost use Rattle.std.specs.Prelude.{◌≡◌, ◌≤◌, map, length, string_bytes};
ghost use Rattle.std.specs.List.{list_all};
ghost use Rattle.std.specs.Char.{is_ascii_digit};
ghost use Rattle.fcg_grammar.specs.Reading.{Gives};
ghost use Rattle.fcg_commands.specs.Words.{number_of, number_or, coordinates_from, releases_of_words, part_of, most_rows, count_of, query_of_words};
ghost use Rattle.fcg_json.specs.declared.query.FieldName.TheVariants as fields;
ghost use Rattle.fcg_json.specs.declared.reply.Reply.TheVariants as replies;

use fcg_grammar::ReadError;
use fcg_json::{FieldName, GraphQuery, Page, Reply};
use fcg_views::{Coordinate, Set};
use std::alloc::Global;

fn are_digits(word: &[u8]) -> bool
    ensures { result ≡ list_all is_ascii_digit word.now }
{
    word.iter().all(|byte| byte.is_ascii_digit())
}

/// The number that a word is: 1 to 20 digits, within 64 bits. Takes no memory.
pub fn read_number(word: &str) -> Option<u64>
    ensures { result ≡ number_of word.now }
{
    if word.len() > 20 || !are_digits(word.as_bytes()) {
        return None;
    }
    word.parse().ok()
}

// The coordinates of texts, or the first text that is none.
fn read_coordinates(alloc: Global, texts: &[String]) -> Result<Vec<Coordinate>, ReadError<Reply>>
    requires { length texts.now ≤ 512 }
    ensures { Gives (λ list. list.items) result (coordinates_from 0 (map string_bytes texts.now)) }
{
    let mut list = Vec::new(alloc);
    for text in texts {
        match Coordinate::parse(alloc, text.as_bytes()) {
            Ok(coordinate) => list.push(coordinate)?,
            Err(ReadError::NoMemory) => return Err(ReadError::NoMemory),
            Err(ReadError::Fault(fault)) => {
                let index = list.len() as u32;
                return Err(ReadError::Fault(Reply::BadCoordinate { index, fault }));
            }
        }
    }
    Ok(list)
}

// The releases that texts name.
#[tactic(auto, unfolding(crate::specs::Words::releases_of_words))]
fn read_releases(alloc: Global, texts: &[String]) -> Result<Vec<Coordinate>, ReadError<Reply>>
    ensures { Gives (λ list. list.items) result (releases_of_words (map string_bytes texts.now)) }
{
    if texts.len() > 512 {
        let count = u32::try_from(texts.len()).unwrap_or(u32::MAX);
        return Err(ReadError::Fault(Reply::TooManyReleases { count }));
    }
    read_coordinates(alloc, texts)
}

fn read_part(word: &str) -> Result<Page, Reply>
    ensures { result ≡ part_of word.now }
{
    match word {
        "nodes" => Ok(Page::Nodes),
        "edges" => Ok(Page::Edges),
        _ => Err(Reply::BadField {
            name: FieldName::Part,
        }),
    }
}

fn read_from(word: &str) -> Result<u64, Reply>
    ensures { result ≡ number_or (replies.BadField fields.From) (number_of word.now) }
{
    match read_number(word) {
        Some(from) => Ok(from),
        None => Err(Reply::BadField {
            name: FieldName::From,
        }),
    }
}

// The most rows of a page.
fn most_rows(part: Page) -> u64
    ensures { result ≡ most_rows part }
{
    match part {
        Page::Nodes => 1_000,
        Page::Edges => 100_000,
    }
}

fn read_count(part: Page, word: &str) -> Result<u32, Reply>
    ensures { result ≡ count_of part word.now }
{
    match read_number(word) {
        Some(count) if 0 < count && count <= most_rows(part) => Ok(count as u32),
        _ => Err(Reply::BadField {
            name: FieldName::Count,
        }),
    }
}

/// The query that words ask, of the part, the first row, how many rows, and the releases, or the refusal of the first of
/// these that is wrong: the releases are looked at first.
#[tactic(auto, unfolding(crate::specs::Words::query_of_words))]
pub fn read_query(
    alloc: Global,
    part: &str,
    from: &str,
    count: &str,
    releases: &[String],
) -> Result<GraphQuery, ReadError<Reply>>
    ensures { Gives (λ query. query) result (query_of_words part.now from.now count.now (map string_bytes releases.now)) }
{
    let releases = read_releases(alloc, releases)?;
    let part = match read_part(part) {
        Ok(part) => part,
        Err(refusal) => return Err(ReadError::Fault(refusal)),
    };
    let from = match read_from(from) {
        Ok(from) => from,
        Err(refusal) => return Err(ReadError::Fault(refusal)),
    };
    let count = match read_count(part, count) {
        Ok(count) => count,
        Err(refusal) => return Err(ReadError::Fault(refusal)),
    };
    Ok(GraphQuery {
        releases: Set::from(releases),
        part,
        from,
        count,
        min: 0,
    })
}
