ghost use Rattle.std.specs.Prelude.{◌≡◌};
ghost use Rattle.std.specs.Option.{option_copied};
ghost use Rattle.pl_model.specs.Requests as spec;
ghost use Rattle.pl_options.specs.GoalOf as option;
ghost use Rattle.pl_state.specs.Kinds as kind;

use pl_state::{Goal, Registration};
use pl_urn::{Urn, is_provider_type};
use pl_value::{Text, unknown_text};

/// The text, if there is one.
pub fn text_in(text: &Option<Text>) -> Option<&str>
    ensures { option_copied result ≡ text.now }
{
    match text {
        Some(text) => Some(text.as_str()),
        None => None,
    }
}

/// A text that may be left out; the empty one counts as left out.
pub fn given(text: &Option<Text>) -> Option<&str>
    ensures { option_copied result ≡ option.given text.now }
{
    match text {
        Some(text) if !text.is_empty() => Some(text.as_str()),
        _ => None,
    }
}

/// The version that an invoke names; the empty text and that of the unknown name none.
pub fn invoked_version(version: &Option<Text>) -> Option<&str>
    ensures { option_copied result ≡ spec.invoked_version version.now }
{
    match given(version) {
        None => None,
        Some(text) => {
            if text == unknown_text() {
                None
            } else {
                Some(text)
            }
        }
    }
}

/// The package of a token.
pub fn token_package(token: &str) -> &str
    ensures { result.now ≡ spec.token_package token.now }
{
    match token.split_once(':') {
        Some((package, _)) => package,
        None => token,
    }
}

fn is_of_provider(urn: &Urn) -> bool
    ensures { result ≡ kind.is_of_provider urn.now }
{
    is_provider_type(urn.own_type())
}

/// Whether a goal is a component.
pub fn is_component(goal: &Goal) -> bool
    ensures { result ≡ kind.is_component goal.now }
{
    !goal.custom && !is_of_provider(&goal.urn)
}

/// Whether a registration uses the default provider of its package.
pub fn uses_default(told: &Registration, goal: &Goal) -> bool
    ensures { result ≡ spec.uses_default told.now goal.now }
{
    goal.custom && !is_of_provider(&goal.urn) && given(&told.provider).is_none()
}
