ghost use Rattle.std.specs.Prelude.{◌≡◌, ◌↔◌, ◌||◌, IfOk, IsTrue};
ghost use Rattle.std.specs.Option.{option_copied};
ghost use Rattle.pl_lemmas.specs.Words.{some_passes};
ghost use Rattle.pl_state.specs.References.{is_id};
ghost use Rattle.pl_value.specs.Same.{fields_same};
ghost use Rattle.pl_decide.specs.Table.{by_diff, custom_differs, decide, decide_kin, decide_over, decide_provided, decide_reading, is_conflict, is_other_provider, kept, kin_needs_diff, needs_diff, replacement, said};

use crate::decision::{Decision, ProviderChange};
use crate::kinds::{is_importing, is_provided, is_reading, kin_of};
use crate::problem::Problem;
use pl_state::{Changes, Diffed, Entry, Goal};
use pl_value::{Fields, OutOfMemory, Text, Value};

/// What is decided of a goal by its claim alone, the limits aside.
pub fn by_table(
    claim: Option<&Entry>,
    goal: &Goal,
    provider: ProviderChange,
    checked: &Fields,
    diff: Option<&Diffed>,
) -> Result<Decision, OutOfMemory>
    ensures { IfOk result (λ made. made ≡ decide (option_copied claim.entry) goal.now provider checked.now (option_copied diff.entry)) }
{
    if is_reading(goal) {
        return decide_reading(claim, goal);
    }
    if custom_differs(claim, goal) {
        return Ok(Decision::Refused(Problem::CustomChanged(goal.urn.copy()?)));
    }
    decide_kin(kin_of(claim), goal, provider, checked, diff)
}

/// Whether a diff is to be asked before a goal is decided.
pub fn needs_diff(claim: Option<&Entry>, goal: &Goal, provider: ProviderChange) -> bool
    ensures { result ≡ needs_diff (option_copied claim.entry) goal.now provider }
{
    !is_reading(goal)
        && !custom_differs(claim, goal)
        && kin_needs_diff(kin_of(claim), goal, provider)
}

fn kin_needs_diff(kin: Option<&Entry>, goal: &Goal, provider: ProviderChange) -> bool
    ensures { result ≡ kin_needs_diff (option_copied kin.entry) goal.now provider }
{
    match kin {
        None => false,
        Some(kin) => {
            is_provided(goal) && !is_conflict(kin, goal) && !is_other_provider(provider)
        }
    }
}

fn decide_reading(claim: Option<&Entry>, goal: &Goal) -> Result<Decision, OutOfMemory>
    ensures { IfOk result (λ made. made ≡ decide_reading (option_copied claim.entry) goal.now) }
{
    if kin_of(claim).is_some() {
        Ok(Decision::Refused(Problem::ReadOverManaged(goal.urn.copy()?)))
    } else {
        Ok(Decision::ReadOnly)
    }
}

fn custom_differs(claim: Option<&Entry>, goal: &Goal) -> bool
    ensures { result ≡ custom_differs (option_copied claim.entry) goal.now }
{
    match claim {
        None => false,
        Some(row) => row.custom != goal.custom,
    }
}

fn decide_kin(
    kin: Option<&Entry>,
    goal: &Goal,
    provider: ProviderChange,
    checked: &Fields,
    diff: Option<&Diffed>,
) -> Result<Decision, OutOfMemory>
    ensures { IfOk result (λ made. made ≡ decide_kin (option_copied kin.entry) goal.now provider checked.now (option_copied diff.entry)) }
{
    match kin {
        None if is_importing(goal) => Ok(Decision::Import),
        None => Ok(Decision::Create),
        Some(kin) => {
            let same = fields_same(&kin.inputs, checked);
            decide_over(kin, goal, provider, same, diff)
        }
    }
}

fn decide_over(
    kin: &Entry,
    goal: &Goal,
    provider: ProviderChange,
    same: bool,
    diff: Option<&Diffed>,
) -> Result<Decision, OutOfMemory>
    ensures { IfOk result (λ made. made ≡ decide_over kin.now goal.now provider same (option_copied diff.entry)) }
{
    if is_conflict(kin, goal) {
        return Ok(Decision::Refused(Problem::ImportConflict(goal.urn.copy()?)));
    }
    if is_provided(goal) {
        return decide_provided(kin, goal, provider, same, diff);
    }
    Ok(if same {
        Decision::Keep
    } else {
        Decision::Update
    })
}

fn decide_provided(
    kin: &Entry,
    goal: &Goal,
    provider: ProviderChange,
    same: bool,
    diff: Option<&Diffed>,
) -> Result<Decision, OutOfMemory>
    ensures { IfOk result (λ made. made ≡ decide_provided kin.now goal.now provider same (option_copied diff.entry)) }
{
    if is_other_provider(provider) {
        return replacement(kin, goal, false);
    }
    match diff {
        None if same => Ok(kept(kin)),
        None => Ok(Decision::Update),
        Some(diff) => by_diff(kin, goal, same, diff),
    }
}

fn by_diff(kin: &Entry, goal: &Goal, same: bool, diff: &Diffed) -> Result<Decision, OutOfMemory>
    ensures { IfOk result (λ made. made ≡ by_diff kin.now goal.now same diff.now) }
{
    match diff.changes {
        Changes::NoChange => Ok(kept(kin)),
        Changes::NotKnown if same => Ok(kept(kin)),
        Changes::NotKnown => Ok(Decision::Update),
        Changes::SomeChange if diff.replaces.len() == 0 => Ok(Decision::Update),
        Changes::SomeChange => replacement(kin, goal, diff.delete_before_replace),
    }
}

fn replacement(kin: &Entry, goal: &Goal, by_diff: bool) -> Result<Decision, OutOfMemory>
    ensures { IfOk result (λ made. made ≡ replacement kin.now goal.now by_diff) }
{
    if kin.protect {
        return Ok(Decision::Refused(Problem::Protected(goal.urn.copy()?)));
    }
    let first = !goal.delete_before_replace.unwrap_or(by_diff);
    Ok(Decision::Replace { first })
}

fn kept(kin: &Entry) -> Decision
    ensures { result ≡ kept kin.now }
{
    if kin.init_errors.len() == 0 {
        Decision::Keep
    } else {
        Decision::Update
    }
}

fn is_other_provider(provider: ProviderChange) -> bool
    ensures { result ≡ is_other_provider provider }
{
    matches!(provider, ProviderChange::Other)
}

fn is_conflict(kin: &Entry, goal: &Goal) -> bool
    ensures { result ≡ is_conflict kin.now goal.now }
{
    is_importing(goal) && !imports_own(kin, &goal.import_id)
}

/// Whether an id is there, and is the row's or the one by which the row was imported.
fn imports_own(kin: &Entry, id: &Option<Text>) -> bool
    ensures { result ≡ some_passes (λ id. is_id kin.now.id id || is_id kin.now.import_id id) id.now }
{
    match id {
        None => false,
        Some(id) => is_id(&kin.id, id) || is_id(&kin.import_id, id),
    }
}

fn is_id(own: &Option<Text>, id: &Text) -> bool
    ensures { result ≡ is_id own.now id.now }
{
    match own {
        None => false,
        Some(own) => own.as_str() == id.as_str(),
    }
}

fn fields_same(first: &Fields, second: &Fields) -> bool
    ensures { result ≡ fields_same first.now second.now }
{
    are_same(first.as_slice(), second.as_slice())
}

fn are_same(first: &[(Text, Value)], second: &[(Text, Value)]) -> bool
    ensures { IsTrue result ↔ (first.now ≡ second.now) }
{
    if first.len() != second.len() {
        return false;
    }
    for (place, field) in first.iter().enumerate() {
        let (key, value) = &second[place];
        if !field.0.same_as(key) || !field.1.same_as(value) {
            return false;
        }
    }
    true
}
