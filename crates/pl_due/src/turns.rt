ghost use Rattle.std.specs.Prelude.{◌≡◌, Bool};
ghost use Rattle.pl_events.specs.declared.operation.Subject.TheVariants as subject;
ghost use Rattle.pl_lemmas.specs.Words.{some_passes};
ghost use Rattle.pl_model.specs.Decisions.{Turn as SeenTurn};
ghost use Rattle.pl_model.specs.Due as spec;
ghost use Rattle.pl_turns.specs.Seen.{seen_turn};
ghost use Rattle.pl_due.specs.Seen.{known_in};

use crate::checked::is_checked;
use crate::seen::Seen;
use pl_decide::is_of_provider;
use pl_events::Subject;
use pl_turns::Turn;

impl<'a> Seen<'a> {
    /// The turn of a goal, if that is the first one that is not decided.
    fn turn_at(&self, number: u64) -> Option<Turn<'a>>
        ensures { (test : SeenTurn → Bool) → some_passes (λ turn. test (seen_turn turn)) result
            ≡ spec.at_turn (known_in self.now) (subject.Goal number) test }
    {
        match self.turn {
            None => None,
            Some(turn) => {
                if turn.number == number {
                    Some(turn)
                } else {
                    None
                }
            }
        }
    }

    /// The turn of what an operation is about, if that is the first goal that is not decided.
    fn turn_of(&self, about: Subject) -> Option<Turn<'a>>
        ensures { (test : SeenTurn → Bool) → some_passes (λ turn. test (seen_turn turn)) result
            ≡ spec.at_turn (known_in self.now) about test }
    {
        match about {
            Subject::Goal(number) => self.turn_at(number),
            _ => None,
        }
    }

    fn provider_recorded(&self, turn: &Turn<'_>) -> bool
        ensures { result ≡ spec.provider_recorded (known_in self.now) (seen_turn turn.now) }
    {
        match turn.goal.provider {
            None => false,
            Some(provider) => self.columns.is_recorded(provider),
        }
    }

    fn asks_check(&self, turn: &Turn<'_>) -> bool
        ensures { result ≡ spec.asks_check (known_in self.now) (seen_turn turn.now) }
    {
        turn.needs_check() && !is_of_provider(&turn.goal.urn) && self.provider_recorded(turn)
    }

    fn asks_diff(&self, turn: &Turn<'_>) -> bool
        ensures { result ≡ spec.asks_diff (known_in self.now) (seen_turn turn.now) }
    {
        is_checked(turn)
            && turn.wants_diff()
            && !turn.is_provider_unknown()
            && self.provider_recorded(turn)
    }

    /// Whether the inputs of a provider are to be checked: it is the first goal that is not decided.
    pub fn is_config_asked(&self, about: Subject) -> bool
        ensures { result ≡ spec.at_turn (known_in self.now) about spec.asks_config }
    {
        match self.turn_of(about) {
            None => false,
            Some(turn) => is_of_provider(&turn.goal.urn),
        }
    }

    /// Whether a provider is to check the inputs of a goal.
    pub fn is_check_asked(&self, about: Subject) -> bool
        ensures { result ≡ spec.at_turn (known_in self.now) about (spec.asks_check (known_in self.now)) }
    {
        match self.turn_of(about) {
            None => false,
            Some(turn) => self.asks_check(&turn),
        }
    }

    /// Whether a provider is to tell how a goal differs from its claim.
    pub fn is_diff_asked(&self, about: Subject) -> bool
        ensures { result ≡ spec.at_turn (known_in self.now) about (spec.asks_diff (known_in self.now)) }
    {
        match self.turn_of(about) {
            None => false,
            Some(turn) => self.asks_diff(&turn),
        }
    }
}
