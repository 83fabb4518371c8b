ghost use Rattle.std.specs.Prelude.{◌≡◌, ℕ, IfOk};
ghost use Rattle.std.specs.Option.{option_copied};
ghost use Rattle.pl_model.specs.Known.{Known, asked_at};
ghost use Rattle.pl_model.specs.Posts as spec;
ghost use Rattle.pl_model.specs.Run.{Spelling};
ghost use Rattle.pl_turn_asks.specs.Posted.{IsEntryOf, TellsPosts};

use pl_asks::{answer_for, halted};
use pl_columns::Columns;
use pl_events::Answer;
use pl_state::Entry;
use pl_value::OutOfMemory;
use std::alloc::Global;

/// The answer to a request, before it is known how long its frame is. `entry` is the entry of the goal that a
/// registration is about, without outputs that were told of it, and nothing else is asked of it.
pub fn result_of(
    alloc: Global,
    columns: &Columns,
    n: u64,
    entry: Option<&Entry>,
) -> Result<Answer, OutOfMemory>
    ensures { IfOk result (λ made. (known : Known) → TellsPosts columns.now known
        → IsEntryOf known n (option_copied entry.entry)
        → made ≡ spec.answer_for known (asked_at known n)) }
{
    match columns.asked(n) {
        Some(asked) => answer_for(alloc, columns, asked, entry),
        None => halted(alloc),
    }
}

/// The answer that the host is given: after a problem one that is too long for a frame is halted. `is_long` tells
/// whether this one is.
pub fn given_answer(
    alloc: Global,
    columns: &Columns,
    answer: Answer,
    is_long: bool,
) -> Result<Answer, OutOfMemory>
    ensures { IfOk result (λ made. (known : Known) → TellsPosts columns.now known
        → (spelling : Spelling) (n : ℕ) → answer ≡ spec.answer_for known (asked_at known n)
        → is_long ≡ spec.is_too_long spelling n answer → made ≡ spec.answer_of spelling known n) }
{
    if columns.has_problem() && is_long {
        halted(alloc)
    } else {
        Ok(answer)
    }
}
