ghost use Rattle.std.specs.Prelude.{◌≡◌, ◌<◌, ◌&&◌, ◌||◌, false, true, not, Some, IfErr, IfOk, IfSome, is_none, is_some, nat_lt, OnErr, OnOk};
ghost use Rattle.std.specs.Option.{option_copied};
ghost use Rattle.pl_urn.specs.Grammar.{child_fault, child_text, IsScope};
ghost use Rattle.pl_state.specs.Component.{component_entry};
ghost use Rattle.pl_components.specs.Requests.{goal_for};
ghost use Rattle.pl_components.specs.Due.{parent_stands};
ghost use Rattle.pl_engine.specs.Journal.{run_of};
ghost use Rattle.pl_engine.specs.Judged.{is_placeable, IsPlacedFor};

use crate::journal::Journal;
use pl_state::{Entries, Entry, Registration};
use pl_urn::{Urn, UrnFault, child};
use pl_value::{OutOfMemory, Text};
use std::alloc::{AllocError, Global};

/// Why a registration makes no entry.
#[derive(Clone, Copy, Debug)]
pub enum Refusal {
    /// It may not stand there.
    NotNext,
    NoMemory,
}

impl From<OutOfMemory> for Refusal {
    ghost use Rattle.std.specs.Prelude.{◌≡◌};
    ghost use Rattle.pl_engine.specs.declared.judge.Refusal.TheVariants.{NoMemory};

    ghost from_gives = { λ _ refusal. refusal ≡ NoMemory };

    fn from(_error: OutOfMemory) -> Refusal {
        Refusal::NoMemory
    }
}

impl From<AllocError> for Refusal {
    ghost use Rattle.std.specs.Prelude.{◌≡◌};
    ghost use Rattle.pl_engine.specs.declared.judge.Refusal.TheVariants.{NoMemory};

    ghost from_gives = { λ _ refusal. refusal ≡ NoMemory };

    fn from(_error: AllocError) -> Refusal {
        Refusal::NoMemory
    }
}

/// What an accepted registration comes to: the entry of its goal, and its URN for the answer.
#[derive(Debug, Drop)]
pub struct Placed {
    pub entry: Entry,
    pub urn: Urn,
}

/// Makes the entry of a registration whose parent stands and whose URN is new.
pub fn place(alloc: Global, journal: &Journal, told: &Registration) -> Result<Placed, Refusal>
    requires stack { IsScope journal.now.stack }
    requires project { IsScope journal.now.project }
    ensures placeable { OnOk result (is_placeable (run_of journal.now) journal.now.state.entries told.now ≡ true) }
    ensures placed { IfOk result (IsPlacedFor (goal_for (run_of journal.now) told.now)) }
    ensures refused { result ≡ Err Refusal.NotNext →
        is_placeable (run_of journal.now) journal.now.state.entries told.now ≡ false }
{
    if !told.is_plain() {
        return Err(Refusal::NotNext);
    }
    let entries = &journal.state.entries;
    let parent = parent_of(entries, told)?;
    let urn = make_urn(alloc, parent, &journal.stack, &journal.project, told)?;
    if entries.has_urn(urn.as_str()) {
        return Err(Refusal::NotNext);
    }
    make_placed(alloc, urn, told, parent)
}

/// The recorded parent that a registration names; none where it names none.
fn parent_of<'a>(entries: &'a Entries, told: &Registration) -> Result<Option<&'a Urn>, Refusal>
    ensures named { IfOk result (λ parent. option_copied parent ≡ told.now.parent) }
    ensures stands { OnOk result (parent_stands entries.now told.now.parent ≡ true) }
    ensures refused { OnErr result (parent_stands entries.now told.now.parent ≡ false) }
{
    let Some(text) = &told.parent else {
        return Ok(None);
    };
    match entries.find_urn(text.as_str()) {
        Some(entry) => Ok(Some(&entry.urn)),
        None => Err(Refusal::NotNext),
    }
}

fn make_urn(
    alloc: Global,
    parent: Option<&Urn>,
    stack: &Text,
    project: &Text,
    told: &Registration,
) -> Result<Urn, Refusal>
    requires stack { IsScope stack.now }
    requires project { IsScope project.now }
    ensures made { IfOk result (λ urn. urn ≡ child_text (option_copied parent.entry) stack.now project.now told.now.kind told.now.name) }
    ensures allowed { OnOk result (is_none (child_fault told.now.kind told.now.name) ≡ true) }
    ensures refused { result ≡ Err Refusal.NotNext → is_none (child_fault told.now.kind told.now.name) ≡ false }
{
    let kind = told.kind.as_str();
    match child(
        alloc,
        parent,
        stack.as_str(),
        project.as_str(),
        kind,
        told.name.as_str(),
    ) {
        Ok(urn) => Ok(urn),
        Err(UrnFault::OutOfMemory) => Err(Refusal::NoMemory),
        Err(UrnFault::NoPrefix) => Err(Refusal::NotNext),
        Err(UrnFault::TooFewParts) => Err(Refusal::NotNext),
        Err(UrnFault::EmptyPart(_)) => Err(Refusal::NotNext),
        Err(UrnFault::BadType) => Err(Refusal::NotNext),
    }
}

fn make_placed(
    alloc: Global,
    urn: Urn,
    told: &Registration,
    parent: Option<&Urn>,
) -> Result<Placed, Refusal>
    ensures urn { IfOk result (λ placed. placed.urn ≡ urn) }
    ensures entry { IfOk result (λ placed. placed.entry
        ≡ component_entry urn told.now.kind (option_copied parent.entry)) }
    ensures memory { OnErr result (result ≡ Err Refusal.NoMemory) }
{
    let answer = urn.copy()?;
    let kind = told.kind.copy()?;
    let parent = copy_of(parent)?;
    let entry = Entry::component(alloc, urn, kind, parent)?;
    Ok(Placed { entry, urn: answer })
}

fn copy_of(parent: Option<&Urn>) -> Result<Option<Urn>, AllocError>
    ensures { IfOk result (λ made. made ≡ option_copied parent.entry) }
{
    match parent {
        None => Ok(None),
        Some(urn) => {
            let copied = urn.copy()?;
            Ok(Some(copied))
        }
    }
}
