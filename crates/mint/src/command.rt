//! The top call.
ghost use Rattle.std.specs.Prelude.{◌≡◌, ◌≢◌, ◌<◌, ℕ, List, Option, true, [], map, string_bytes, IfOk, IfErr, IsErrOf};
ghost use Rattle.mt_io.specs.Faults.{Rose};
ghost use Rattle.mt_cells.specs.declared.asks.Question.{Question};
ghost use Rattle.mt_cells.specs.declared.rules.RuleSet.{RuleSet};
ghost use Rattle.mt_cells.specs.Asks.{sizes_of, IsInside};
ghost use Rattle.mt_derive.specs.declared.events.Event.{Event};
ghost use Rattle.mt_answer.specs.Answers.{HasText, IsTextFor};
ghost use Rattle.mint.specs.Input.{IsInput, TakesAtMost};
ghost use Rattle.mint.specs.Output.{Wrote, WrotePrefix};
ghost use Rattle.mint.specs.Statuses.{Finished, CutOff, GivenUp, ending};
ghost use Rattle.mint.specs.Store.{AreLeft};
ghost use Rattle.mint.specs.Texts.{usage_text};
ghost use Rattle.mint.specs.Doing.{AllRules, IsDone, IsStopped, status_given_up};
ghost use Rattle.mint.specs.Run.{World, IsCheck, IsReply, sequence_sizes, IsSequenceFor, Does, ReadsInput, OpensStore, IsFinished, IsCutOff, IsGivenUp, LeavesInput, LeavesStore};

use crate::causes::Cause;
use crate::generating::generated_all;
use crate::input::read_input;
use crate::sequences::sequence_lines;
use crate::status::Status;
use crate::stores::{imported, opened};
use crate::texts::{USAGE, holds_line};
use crate::words::{Command, Task, read_words};
use mt_answer::{outside_line, text};
use mt_cells::{Bounds, Question, RuleSet, Sizes};
use mt_feed::Feed;
use mt_import::MOST_BYTES;
use mt_io::{Failed, Sink, Source};
use mt_keeper::Keeper;
use mt_linear::Order;
use mt_service::check_text;
use mt_table::Table;
use std::alloc::{AllocError, Global};

/// The most bytes of the input that a check reads: one more than an import text may have.
pub const MOST_READ: usize = MOST_BYTES + 1;

/// Does what the words ask for, with the records of this keeper, these feeds, this input and this
/// output, and answers how it ended.
///
/// `M,S check` reads one import text from the input, to its end or to [`MOST_READ`] bytes, and
/// writes whether its claim holds. `M,S import` reads one text likewise, which imports a claim or
/// withdraws an import, and writes what comes of it; what is accepted is put behind the records, and
/// the feeds are told of the values that change. `M,S value` and a question write the greatest value
/// that a derivation has for a cell over the records, `M,S tree` and the same question a derivation
/// with this value, and `M,S matrix` the generator matrices that it makes, as an import text.
/// `M,S table` and `M,S export` write the values of many cells, and `M,S niederreiter` the generator
/// matrices of a sequence, as an import text. `M,S generate` imports the claims of a seed one after
/// the other, and writes how many came to what and the sum of all values. Where a number is outside
/// the bounds, they write the first such number instead, and open no store; where the records are
/// refused, they write why. All other words give the usage, also those that serve.
/// What is written is written once the answer is known.
pub fn run_command<K: Keeper, R: Source, W: Sink>(
    alloc: Global,
    words: &[String],
    keeper: &mut K,
    feeds: &mut Vec<Box<dyn Feed + Send>>,
    input: &mut R,
    output: &mut W,
) -> Status
    // The text of the run was written whole, or a prefix of it, or nothing.
    ensures done { ending result ≡ Finished → IsFinished (λ b. told b) (λ b. failures b)
        (map string_bytes words.now)
        (record { input = R.left input.old; output = W.written output.old; records = K.records keeper.old })
        (record { input = R.left input.new; output = W.written output.new; records = K.records keeper.new })
        feeds.old.items feeds.new.items result }
    ensures cut { ending result ≡ CutOff → IsCutOff (λ b. told b) (λ b. failures b)
        (map string_bytes words.now)
        (record { input = R.left input.old; output = W.written output.old; records = K.records keeper.old })
        (record { input = R.left input.new; output = W.written output.new; records = K.records keeper.new })
        feeds.old.items feeds.new.items }
    ensures given_up { ending result ≡ GivenUp → IsGivenUp (λ b. told b) (λ b. failures b)
        (map string_bytes words.now)
        (record { input = R.left input.old; output = W.written output.old; records = K.records keeper.old })
        (record { input = R.left input.new; output = W.written output.new; records = K.records keeper.new })
        feeds.old.items feeds.new.items result }
    ensures unwritten { ending result ≡ GivenUp → output.new ≡ output.old }

    // Only a command that reads the input touches it, and only one that opens the store its keeper.
    ensures unread { LeavesInput (map string_bytes words.now) → input.new ≡ input.old }
    ensures most { TakesAtMost MOST_READ (R.left input.old) (R.left input.new) }
    ensures unopened { LeavesStore (map string_bytes words.now) → keeper.new ≡ keeper.old }

    // It doesn't give up by itself.
    ensures read_fault { result ≡ Status.ReadFault
        → Rose (R.faults input.old) (R.faults input.new) }
    ensures write_fault { result ≡ Status.WriteFault
        → Rose (W.faults output.old) (W.faults output.new) }
    ensures keeper_fault { result ≡ Status.KeeperFault
        → Rose (K.faults keeper.old) (K.faults keeper.new) }
{
    let Some(command) = read_words(words) else {
        return write_answer(output, Status::Words, USAGE);
    };
    match done(alloc, command, keeper, feeds, input) {
        Ok(answer) => write_answer(output, answer.status, &answer.text),
        Err(cause) => cause.status(),
    }
}

/// A status, and the text that goes with it.
#[derive(Drop)]
pub(crate) struct Answer {
    pub(crate) status: Status,
    pub(crate) text: Vec<u8>,
}

// Does the task of a command.
fn done<K: Keeper, R: Source>(
    alloc: Global,
    command: Command,
    keeper: &mut K,
    feeds: &mut Vec<Box<dyn Feed + Send>>,
    input: &mut R,
) -> Result<Answer, Cause>
    requires { (question : Question) → command.task ≡ Task.Ask question → HasText question }

    // Whatever the output tells.
    ensures answer { IfOk result (λ a. (x y : Option (List ℕ)) → (rules : RuleSet) × AllRules rules
        × IsDone (λ b. told b) (λ b. failures b) command.bounds rules command.task
        (record { input = R.left input.old; output = x; records = K.records keeper.old })
        (record { input = R.left input.new; output = y; records = K.records keeper.new })
        feeds.old.items feeds.new.items a.status a.text.items) }
    ensures finished { IfOk result (λ a. ending a.status ≡ Finished) }
    ensures stopped { IfErr result (λ e. (x y : Option (List ℕ)) → (rules : RuleSet) × AllRules rules
        × IsStopped (λ b. told b) (λ b. failures b) command.bounds rules command.task
        (record { input = R.left input.old; output = x; records = K.records keeper.old })
        (record { input = R.left input.new; output = y; records = K.records keeper.new })
        feeds.old.items feeds.new.items (status_given_up e)) }
    ensures most { TakesAtMost MOST_READ (R.left input.old) (R.left input.new) }
    ensures unread { ¬ ReadsInput command.task → input.new ≡ input.old }
    ensures unopened { ¬ OpensStore command.task → keeper.new ≡ keeper.old }
    ensures reads { IsErrOf result Cause.ReadFault → ReadsInput command.task }
    ensures opens { IsErrOf result Cause.KeeperFault → OpensStore command.task }
    ensures read_fault { IsErrOf result Cause.ReadFault
        → Rose (R.faults input.old) (R.faults input.new) }
    ensures keeper_fault { IsErrOf result Cause.KeeperFault
        → Rose (K.faults keeper.old) (K.faults keeper.new) }
{
    let (bounds, rules) = (command.bounds, RuleSet::all());
    match command.task {
        Task::Check => checked_input(alloc, bounds, input),
        Task::Ask(question) => answered(alloc, bounds, rules, keeper, &question),
        Task::Import => imported(alloc, bounds, rules, keeper, feeds, input),
        Task::Niederreiter { q, m, s } => Ok(sequence_made(alloc, bounds, q, m, s)?),
        Task::Generate { seed, count } => {
            generated_all(alloc, bounds, rules, keeper, feeds, seed, count)
        }
        Task::Serve { .. } => Ok(usage(alloc)?),
    }
}

// The answer for words that are no command of this call.
fn usage(alloc: Global) -> Result<Answer, AllocError>
    ensures { IfOk result (λ a. (a.status ≡ Status.Words) × (a.text.items ≡ usage_text)) }
{
    Ok(Answer {
        status: Status::Words,
        text: Vec::from_slice(alloc, USAGE)?,
    })
}

// The answer for the text on the input.
fn checked_input<R: Source>(alloc: Global, bounds: Bounds, input: &mut R) -> Result<Answer, Cause>
    ensures answer { IfOk result (λ a. (text : List ℕ)
        × IsInput MOST_READ (R.left input.old) (R.left input.new) text
        × IsCheck bounds text a.status a.text.items) }
    ensures finished { IfOk result (λ a. ending a.status ≡ Finished) }
    ensures most { TakesAtMost MOST_READ (R.left input.old) (R.left input.new) }
    ensures kept { ¬ IsErrOf result Cause.KeeperFault }
    ensures fault { IsErrOf result Cause.ReadFault
        → Rose (R.faults input.old) (R.faults input.new) }
{
    let text = read_input(alloc, input, MOST_READ)?;
    Ok(checked_text(alloc, bounds, &text)?)
}

// The answer for a text.
fn checked_text(alloc: Global, bounds: Bounds, text: &[u8]) -> Result<Answer, AllocError>
    ensures answer { IfOk result (λ a. IsCheck bounds text.now a.status a.text.items) }
    ensures finished { IfOk result (λ a. ending a.status ≡ Finished) }
{
    match check_text(alloc, bounds, text)? {
        Ok(checked) => Ok(Answer {
            status: Status::Ok,
            text: holds_line(alloc, checked.claim().name.bytes())?,
        }),
        Err(outcome) => Ok(Answer {
            status: Status::Refused,
            text: outcome.line(alloc)?,
        }),
    }
}

// The answer to a question over the records, or the line for what is outside the bounds.
fn answered<K: Keeper>(
    alloc: Global,
    bounds: Bounds,
    rules: RuleSet,
    keeper: &mut K,
    question: &Question,
) -> Result<Answer, Cause>
    requires { HasText question.now }

    // Whatever the input and the output tell.
    ensures answer { IfOk result (λ a. (x y z : Option (List ℕ)) → (E : List Event)
        × Does bounds rules (Task.Ask question.now)
        (record { input = x; output = y; records = K.records keeper.old })
        (record { input = x; output = z; records = K.records keeper.new }) E E
        a.status a.text.items) }
    ensures finished { IfOk result (λ a. ending a.status ≡ Finished) }
    ensures left { AreLeft (K.records keeper.old) (K.records keeper.new) }
    ensures unread { ¬ IsErrOf result Cause.ReadFault }
    ensures fault { IsErrOf result Cause.KeeperFault
        → Rose (K.faults keeper.old) (K.faults keeper.new) }
{
    if let Some(outside) = question.outside(bounds) {
        return Ok(Answer {
            status: Status::Outside,
            text: outside_line(alloc, outside)?,
        });
    }
    match opened(alloc, bounds, rules, keeper)? {
        Ok(service) => Ok(answer_over(alloc, service.table(), question)?),
        Err(answer) => Ok(answer),
    }
}

// The answer to a question over the table.
fn answer_over(alloc: Global, table: &Table, question: &Question) -> Result<Answer, AllocError>
    requires inside { IsInside table.now.bounds (sizes_of question.now) }
    requires has_text { HasText question.now }
    ensures status { IfOk result (λ a. a.status ≡ Status.Ok) }
    ensures text { IfOk result (λ a. IsTextFor table.now.bounds table.now.rules table.now.events
        question.now a.text.items) }
{
    Ok(Answer {
        status: Status::Ok,
        text: text(alloc, table, question)?,
    })
}

// The answer with Niederreiter's matrices, or the line for what is outside the bounds.
fn sequence_made(
    alloc: Global,
    bounds: Bounds,
    q: u64,
    m: u64,
    s: u64,
) -> Result<Answer, AllocError>
    ensures answer { IfOk result (λ a. IsReply bounds (Some (sequence_sizes q m s)) a.status
        a.text.items ((a.status ≡ Status.Ok) × IsSequenceFor q m s a.text.items)) }
    ensures finished { IfOk result (λ a. ending a.status ≡ Finished) }
{
    let sizes = Sizes {
        q,
        m: Some(m),
        s: Some(s),
        depth: None,
    };
    if let Some(outside) = sizes.outside(bounds) {
        return Ok(Answer {
            status: Status::Outside,
            text: outside_line(alloc, outside)?,
        });
    }
    let order = Order::of_number(q).unwrap();
    Ok(Answer {
        status: Status::Ok,
        text: sequence_lines(alloc, order, m as u8, s as u8)?,
    })
}

/// Writes the text, and answers the status, or that the output failed.
pub fn write_answer<W: Sink>(output: &mut W, status: Status, text: &[u8]) -> Status
    requires { ending status ≡ Finished }
    ensures done { ending result ≡ Finished
        → (result ≡ status) × Wrote (W.written output.old) (W.written output.new) text.now }
    ensures cut { ending result ≡ CutOff
        → WrotePrefix (W.written output.old) (W.written output.new) text.now }
    ensures going { ending result ≢ GivenUp }
    ensures fault { result ≡ Status.WriteFault → Rose (W.faults output.old) (W.faults output.new) }
{
    match output.write_all(text) {
        Ok(()) => status,
        Err(Failed) => Status::WriteFault,
    }
}
