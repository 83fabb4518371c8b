ghost use Rattle.std.specs.Prelude.{◌≡◌, ◌||◌, is_none, option_map};
ghost use Rattle.pl_lemmas.specs.Words.{some_passes};
ghost use Rattle.pl_refresh.specs.Refreshed.{if_there, is_there};

use crate::standing::Standing;
use pl_urn::Urn;

/// Whether nothing more is looked for.
pub fn is_found(standing: &Standing<'_>, urn: Option<&Urn>) -> bool
    ensures { let named = option_map (λ urn. urn.now) urn.entry in
        result ≡ (is_none named || some_passes (is_there standing.now) named) }
{
    match urn {
        None => true,
        Some(urn) => standing.has_urn(urn),
    }
}

/// The URN, where it is there.
pub fn if_there<'a>(standing: &Standing<'_>, urn: Option<&'a Urn>) -> Option<&'a Urn>
    ensures { option_map (λ urn. urn.now) result ≡ if_there (is_there standing.now) (option_map (λ urn. urn.now) urn.entry) }
{
    let urn = urn?;
    if standing.has_urn(urn) {
        Some(urn)
    } else {
        None
    }
}
