ghost use Rattle.std.specs.Prelude.{◌≡◌, is_some};
ghost use Rattle.std.specs.Option.{option_copied};
ghost use Rattle.pl_model.specs.Decisions as spec;
ghost use Rattle.pl_turns.specs.Seen.{seen_turn};

use pl_decide::is_of_provider;
use pl_events::{Op, Reply, Subject};
use pl_turns::Turn;

/// Whether a reply has checked inputs.
fn has_checked(reply: Option<&Reply>) -> bool
    ensures { result ≡ is_some (spec.checked_in (option_copied reply.entry)) }
{
    matches!(reply, Some(Reply::Checked(_)))
}

/// Whether the checked inputs of a goal are known, or are those that it has.
pub fn is_checked(turn: &Turn<'_>) -> bool
    ensures { result ≡ is_some (spec.checked_at (seen_turn turn.now)) }
{
    let goal = Subject::Goal(turn.number);
    if is_of_provider(&turn.goal.urn) {
        has_checked(turn.errands.reply_to(Op::CheckConfig(goal)))
    } else if turn.needs_check() {
        has_checked(turn.errands.reply_to(Op::Check(goal)))
    } else {
        true
    }
}
