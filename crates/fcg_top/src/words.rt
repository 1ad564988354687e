//! The words of the command line.
ghost use Rattle.std.specs.Prelude.{◌≡◌, map, string_bytes};
ghost use Rattle.std.specs.Option.{option_map};
ghost use Rattle.fcg_top.specs.Words.{asked_by, command_of, is_argument, listing_named};

/// What is printed of a bundle.
#[derive(Clone, Copy, Debug, PartialEq, Eq)]
pub enum Listing {
    /// Its types and their methods.
    List,
    /// Its call sites.
    Sites,
}

/// A command of the program.
#[derive(Clone, Copy)]
pub enum Command<'a> {
    /// Prints a listing of the bundle that the input is.
    Print(Listing),
    /// Writes the bundle of the class files of a folder.
    Pack(&'a str),
}

// The command that prints a listing of this name.
fn listing_named<'a>(word: &str) -> Option<Command<'a>>
    ensures { option_map asked_by result ≡ listing_named word.now }
{
    match word {
        "list" => Some(Command::Print(Listing::List)),
        "sites" => Some(Command::Print(Listing::Sites)),
        _ => None,
    }
}

// Whether a word can be an argument of a command: it isn't empty, and begins with no hyphen.
fn is_argument(word: &str) -> bool
    ensures { result ≡ is_argument word.now }
{
    !word.is_empty() && !word.starts_with('-')
}

/// The command that the words after the program's name give, or `None` for words of no command.
pub fn parse_words(words: &[String]) -> Option<Command<'_>>
    ensures { option_map asked_by result ≡ command_of (map string_bytes words.now) }
{
    match words {
        [word] => listing_named(word.as_str()),
        [word, folder] if word.as_str() == "pack" && is_argument(folder.as_str()) => {
            Some(Command::Pack(folder.as_str()))
        }
        _ => None,
    }
}
