//! What the words of the command line start.
ghost use Rattle.std.specs.Prelude.{◌≡◌, ◌<◌, ℕ, List, ◌∷◌, length, map, string_bytes, MatchOption};
ghost use Rattle.mint.specs.Starts.{IsFeed, IsStore, IsStart};

use crate::words::first_word;

/// What the program does with the words of the command line.
#[derive(Clone, Copy)]
pub enum Start<'a> {
    /// There are too few words: it writes the usage.
    Usage,
    /// It runs the command of these words over the store, and tells the feed at this path, where there
    /// is one.
    Command {
        store: Store<'a>,
        feed: Option<&'a str>,
        words: &'a [String],
    },
}

/// Where the records of a command are kept.
#[derive(Clone, Copy)]
pub enum Store<'a> {
    /// In memory. There are none at its start, and they end with the program.
    Memory,
    /// In the database file at this path, and its log.
    Path(&'a str),
}

/// What the words of the command line start. They are the program's name, the store, which is a path
/// or `:memory:`, the feed, which is a path or `-` for none, and the words of a command.
pub fn start_of(words: &[String]) -> Start<'_>
    ensures { IsStart (map string_bytes words.now) result }
{
    match store_and_feed(words) {
        None => Start::Usage,
        Some((store, feed, words)) => Start::Command {
            store: store_of(store),
            feed: feed_path(feed),
            words,
        },
    }
}

// The store of its word.
fn store_of(word: &str) -> Store<'_>
    ensures { IsStore word.now result }
{
    if word == ":memory:" {
        Store::Memory
    } else {
        Store::Path(word)
    }
}

// The path of the feed, or none for `-`.
fn feed_path(word: &str) -> Option<&str>
    ensures { IsFeed word.now result }
{
    if word == "-" { None } else { Some(word) }
}

// The store, the feed and the words behind them.
fn store_and_feed(words: &[String]) -> Option<(&str, &str, &[String])>
    ensures { MatchOption result (length (map string_bytes words.now) < 3)
        (λ r. (program : List ℕ) × (map string_bytes words.now
        ≡ program ∷ r.0.now ∷ r.1.now ∷ map string_bytes r.2.now)) }
{
    let (_, words) = first_word(words)?;
    let (store, words) = first_word(words)?;
    let (feed, words) = first_word(words)?;
    Some((store, feed, words))
}
