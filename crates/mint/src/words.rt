//! The words of the command line.
ghost use Rattle.std.specs.Prelude.{◌≡◌, ◌≢◌, ℕ, ◌^◌, ◌<◌, ◌++◌, ◌∷◌, [], decimal, map, string_bytes, List, MatchOption, IsSome, IsTrue, ◌↔◌};
ghost use Rattle.mt_cells.specs.declared.bounds.Bounds.{Bounds};
ghost use Rattle.mt_cells.specs.declared.asks.Ask.{Ask};
ghost use Rattle.mint.specs.declared.words.Task.{Task};
ghost use Rattle.mint.specs.declared.words.Command.{Command};
ghost use Rattle.mint.specs.Words.{bounds_word, IsSizes, IsAskFor, AreTwo, AreThree, AreSeedAndCount, ArePortAndCounts, IsTask, IsCommand};

use mt_cells::{Ask, Bounds, Kind, Question, plain_number};

/// The most claims that one command generates.
pub const MOST_GENERATED: u32 = 1024;

/// The most workers that serve side by side.
pub const MOST_WORKERS: u32 = 16;

/// The most connections that a worker serves.
pub const MOST_CONNECTIONS: u64 = 1_000_000;

/// A command, and the bounds of the table.
#[derive(Clone, Copy, PartialEq, Eq, Debug)]
pub struct Command {
    pub bounds: Bounds,
    pub task: Task,
}

/// What is to be done.
#[derive(Clone, Copy, PartialEq, Eq, Debug)]
pub enum Task {
    /// Check one import text from the input.
    Check,
    /// Answer a question.
    Ask(Question),
    /// Import one text from the input: an import text, or a withdrawal text.
    Import,
    /// Write Niederreiter's matrices over the field of q elements, of m columns, for s coordinates.
    Niederreiter {
        q: u64,
        m: u64,
        s: u64,
    },
    /// Import so many claims that follow from the seed: 1 to [`MOST_GENERATED`].
    Generate {
        seed: u64,
        count: u32,
    },
    /// Serve at the port, by so many workers, each for so many connections.
    Serve {
        port: u16,
        workers: u32,
        connections: u64,
    },
}

/// The command of these words, or `None` where they have no form:
///
/// - `M,S check`;
/// - `M,S value KIND Q M S` for KIND `net`, `oa` or `seq`, and `M,S value ooa Q M S DEPTH`;
/// - the same with `tree` or `matrix` in place of `value`;
/// - `M,S table Q M`;
/// - `M,S export`;
/// - `M,S import`;
/// - `M,S niederreiter Q M S`;
/// - `M,S generate SEED COUNT`, COUNT being 1 to [`MOST_GENERATED`];
/// - `M,S serve PORT WORKERS CONNECTIONS`, PORT being 1 to 65,535, WORKERS 1 to [`MOST_WORKERS`], and
///   CONNECTIONS 1 to [`MOST_CONNECTIONS`].
///
/// `M,S` are bounds. A number is decimal, without sign and without a zero in front but for `0`
/// itself, and is below 2^64.
pub fn read_words(words: &[String]) -> Option<Command>
    ensures { MatchOption result
        ((c : Command) → ¬ IsCommand (map string_bytes words.now) c)
        (IsCommand (map string_bytes words.now)) }
{
    let (word, words) = first_word(words)?;
    let bounds = read_bounds(word)?;
    let task = read_task(words)?;
    Some(Command { bounds, task })
}

/// The first word, and the others.
pub(crate) fn first_word(words: &[String]) -> Option<(&str, &[String])>
    ensures { MatchOption result (map string_bytes words.now ≡ [])
        (λ r. map string_bytes words.now ≡ r.0.now ∷ map string_bytes r.1.now) }
{
    let (word, words) = words.split_first()?;
    Some((word.as_str(), words))
}

// The bounds of the word `M,S`.
fn read_bounds(word: &str) -> Option<Bounds>
    ensures { MatchOption result ((b : Bounds) → word.now ≢ bounds_word b)
        (λ b. word.now ≡ bounds_word b) }
{
    let (m, s) = word.split_once(',')?;
    Bounds::new(plain_number(m)?, plain_number(s)?)
}

// What the words behind the bounds ask for.
fn read_task(words: &[String]) -> Option<Task>
    ensures { MatchOption result ((t : Task) → ¬ IsTask (map string_bytes words.now) t)
        (IsTask (map string_bytes words.now)) }
{
    let (word, words) = first_word(words)?;
    match word {
        "check" => {
            at_end(words)?;
            Some(Task::Check)
        }
        "value" => Some(Task::Ask(Question::Value(read_asked(words)?))),
        "tree" => Some(Task::Ask(Question::Tree(read_asked(words)?))),
        "matrix" => Some(Task::Ask(Question::Matrix(read_asked(words)?))),
        "table" => {
            let (q, m) = read_two(words)?;
            Some(Task::Ask(Question::Table { q, m }))
        }
        "export" => {
            at_end(words)?;
            Some(Task::Ask(Question::Export))
        }
        "import" => {
            at_end(words)?;
            Some(Task::Import)
        }
        "niederreiter" => {
            let (q, m, s) = read_three(words)?;
            Some(Task::Niederreiter { q, m, s })
        }
        "generate" => {
            let (seed, count) = read_seed_and_count(words)?;
            Some(Task::Generate { seed, count })
        }
        "serve" => {
            let (port, workers, connections) = read_port_and_counts(words)?;
            Some(Task::Serve {
                port,
                workers,
                connections,
            })
        }
        _ => None,
    }
}

// Nothing, where no word is left.
fn at_end(words: &[String]) -> Option<()>
    ensures { IsSome result ↔ (map string_bytes words.now ≡ []) }
{
    if words.is_empty() { Some(()) } else { None }
}

// The two numbers that the words are.
fn read_two(words: &[String]) -> Option<(u64, u64)>
    ensures { MatchOption result ((q m : ℕ) → ¬ AreTwo (map string_bytes words.now) q m)
        (λ r. AreTwo (map string_bytes words.now) r.0 r.1) }
{
    let (q, words) = first_number(words)?;
    let (m, words) = first_number(words)?;
    at_end(words)?;
    Some((q, m))
}

// The three numbers that the words are.
fn read_three(words: &[String]) -> Option<(u64, u64, u64)>
    ensures { MatchOption result ((q m s : ℕ) → ¬ AreThree (map string_bytes words.now) q m s)
        (λ r. AreThree (map string_bytes words.now) r.0 r.1 r.2) }
{
    let (q, words) = first_number(words)?;
    let (m, s) = read_two(words)?;
    Some((q, m, s))
}

// The seed and the count that the words are.
fn read_seed_and_count(words: &[String]) -> Option<(u64, u32)>
    ensures { MatchOption result
        ((seed count : ℕ) → ¬ AreSeedAndCount (map string_bytes words.now) seed count)
        (λ r. AreSeedAndCount (map string_bytes words.now) r.0 r.1) }
{
    let (seed, count) = read_two(words)?;
    if count == 0 || count > MOST_GENERATED as u64 {
        return None;
    }
    Some((seed, count as u32))
}

// The port, the workers and the connections that the words are.
fn read_port_and_counts(words: &[String]) -> Option<(u16, u32, u64)>
    ensures { MatchOption result
        ((port workers connections : ℕ) → ¬ ArePortAndCounts (map string_bytes words.now) port workers connections)
        (λ r. ArePortAndCounts (map string_bytes words.now) r.0 r.1 r.2) }
{
    let (port, workers, connections) = read_three(words)?;
    if port == 0 || port > u16::MAX as u64 {
        return None;
    }
    if workers == 0 || workers > MOST_WORKERS as u64 {
        return None;
    }
    if connections == 0 || connections > MOST_CONNECTIONS {
        return None;
    }
    Some((port as u16, workers as u32, connections))
}

// The kind and the sizes of a question.
fn read_asked(words: &[String]) -> Option<Ask>
    ensures { MatchOption result ((a : Ask) → ¬ IsAskFor (map string_bytes words.now) a)
        (IsAskFor (map string_bytes words.now)) }
{
    let (word, words) = first_word(words)?;
    read_ask(Kind::of_word(word)?, words)
}

// The question of this kind with these sizes.
fn read_ask(kind: Kind, words: &[String]) -> Option<Ask>
    ensures { MatchOption result ((a : Ask) → ¬ IsSizes kind (map string_bytes words.now) a)
        (IsSizes kind (map string_bytes words.now)) }
{
    let (q, words) = first_number(words)?;
    let (m, words) = first_number(words)?;
    let (s, words) = first_number(words)?;
    let (depth, words) = match kind {
        Kind::Ooa => first_number(words)?,
        Kind::Net | Kind::Oa | Kind::Seq => (0, words),
    };
    if !words.is_empty() {
        return None;
    }
    Some(Ask {
        kind,
        q,
        m,
        s,
        depth,
    })
}

// The number that the first word is, and the other words.
fn first_number(words: &[String]) -> Option<(u64, &[String])>
    ensures { MatchOption result
        ((n : ℕ) (rest : List (List ℕ)) → n < 2 ^ 64 → map string_bytes words.now ≢ decimal n ∷ rest)
        (λ r. (r.0 < 2 ^ 64) × (map string_bytes words.now ≡ decimal r.0 ∷ map string_bytes r.1.now)) }
{
    let (word, words) = first_word(words)?;
    Some((plain_number(word)?, words))
}
