//! Where a connection goes with imports, and with questions that no view answers.
ghost use Rattle.std.specs.Prelude.{◌≡◌, ℕ, ◌≤◌, IfOk, MatchOption};
ghost use Rattle.mt_io.specs.Faults.{Rose};
ghost use Rattle.mt_answer.specs.Answers.{shown};
ghost use Rattle.mt_publish.specs.States.{Publication, next_miss};
ghost use Rattle.mt_table.specs.declared.published.Base.{Base};
ghost use Rattle.mt_server.specs.Offices.{IsImported};
ghost use Rattle.mt_server.specs.Replies.{IsAnswer};

use crate::desk::{Done, Looked};
use mt_cells::Question;
use mt_service::Outcome;
use std::alloc::{AllocError, Global};

/// What takes imports, and answers questions over the newest list. All its fronts are of one
/// publication.
pub trait Office {
    ghost publication: { Self → Publication Base };

    /// The faults of the keeper that its own calls met. The count stops at the greatest u64.
    ghost tally: { Self → ℕ };

    /// How often it was asked to look. The count stops at the greatest u64.
    ghost looks: { Self → ℕ };

    /// Takes one step with the text. The front is of the list after it, and is there for every outcome
    /// but want of memory.
    fn import(&mut self, alloc: Global, text: &[u8]) -> Done
        ensures publication { publication self.new ≡ publication self.old }
        ensures later { tally self.old ≤ tally self.new }
        ensures fault { result.outcome ≡ Outcome.KeeperFault
            → Rose (tally self.old) (tally self.new) }
        ensures looks { looks self.new ≡ looks self.old }
        ensures front { MatchOption result.front (result.outcome ≡ Outcome.Memory)
            (λ f. (f.identity ≡ (publication self.old).identity)
            × IsImported (publication self.old).base text.now result.outcome f.list) };

    /// Answers a question over the list of the front, which is to have `at_least` events. It fails only
    /// for want of memory.
    fn look(
        &mut self,
        alloc: Global,
        question: &Question,
        at_least: u64,
    ) -> Result<Looked, AllocError>
        ensures publication { publication self.new ≡ publication self.old }
        ensures tally { tally self.new ≡ tally self.old }
        ensures looks { looks self.new ≡ next_miss (looks self.old) }
        ensures answer { IfOk result (λ l. (l.front.identity ≡ (publication self.old).identity)
            × IsAnswer (publication self.old).base.bounds (publication self.old).base.rules
            l.front.list question.now at_least (shown l.answer)) };
}
