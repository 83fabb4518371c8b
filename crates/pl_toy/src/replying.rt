ghost use Rattle.std.specs.Prelude.{◌≡◌, ◌↔◌, ◌<◌, ◌≤◌, codes, IfOk, IsTrue, length, OnErr, OnOk, Some, None, Err};
ghost use Rattle.std.specs.Option.{option_copied};
ghost use Rattle.pl_value.specs.Keys.{value_at};
ghost use Rattle.pl_value.specs.Same.{fields_same};
ghost use Rattle.pl_world.specs.Counts.{Rose};
ghost use Rattle.pl_world.specs.Causes.{OnFailed, OnNoMemory};
ghost use Rattle.pl_json.specs.Spelled.{fields_text};
ghost use Rattle.pl_toy.specs.Things.{Became, IsKeptOrBecame, with_thing, without_thing};
ghost use Rattle.pl_toy.specs.Table.{changed_unless_long, checked_by, diff_of, ForHeld, found_by, inputs_of, IsByTable, IsReplied, is_set, same_if_there, toy_things, unless_long};

use crate::create::{create, is_long};
use crate::shelf::Shelf;
use pl_events::{Ask, Reasons, Reply};
use pl_json::text_of_fields;
use pl_members::{Unread, json_of, pairs_of};
use pl_state::{Changes, Diffed};
use pl_value::{Fields, OutOfMemory, Text, Texts, Value};
use pl_world::Trouble;
use std::alloc::Global;

/// The reply to a call, which is carried out over the shelf. A fault of the shelf is the reply of the error `shelf`; what
/// was to be changed may then have changed all the same. After `OutOfMemory` the things are as before.
pub fn respond<H: Shelf>(alloc: Global, shelf: &mut H, ask: &Ask) -> Result<Reply, OutOfMemory>
    ensures replied { IfOk result (λ reply. IsReplied ask.now reply (H.things shelf.old) (H.things shelf.new) (Rose (H.faults shelf.old) (H.faults shelf.new))) }
    ensures no_memory_kept { OnErr result (H.things shelf.new ≡ H.things shelf.old) }
    ensures faults_never_fall { H.faults shelf.old ≤ H.faults shelf.new }
{
    let failed = refusal(alloc, "shelf")?;
    match answer(alloc, shelf, ask) {
        Ok(reply) => Ok(reply),
        Err(Trouble::Failed) => Ok(failed),
        Err(Trouble::OutOfMemory) => Err(OutOfMemory),
    }
}

/// The error with this text.
pub(crate) fn refusal(alloc: Global, text: &str) -> Result<Reply, OutOfMemory>
    ensures { IfOk result (λ reply. reply ≡ Reply.Error text.now) }
{
    let text = Text::from_str(alloc, text)?;
    Ok(Reply::Error(text))
}

// The reply by the table.
fn answer<H: Shelf>(alloc: Global, shelf: &mut H, ask: &Ask) -> Result<Reply, Trouble>
    ensures by_table { IfOk result (λ reply. IsByTable ask.now (H.things shelf.old) reply) }
    ensures done { OnOk result (Became (toy_things ask.now) (H.things shelf.old) (H.things shelf.new)) }
    ensures failed_rose { OnFailed result (Rose (H.faults shelf.old) (H.faults shelf.new)) }
    ensures failed_kept_or_done { OnFailed result (IsKeptOrBecame (toy_things ask.now) (H.things shelf.old) (H.things shelf.new)) }
    ensures no_memory_kept { OnNoMemory result (H.things shelf.new ≡ H.things shelf.old) }
    ensures faults_never_fall { H.faults shelf.old ≤ H.faults shelf.new }
{
    match ask {
        Ask::CheckConfig { inputs, .. } => Ok(Reply::Checked(inputs.copy(alloc)?)),
        Ask::Configure { .. } => Ok(Reply::Configured),
        Ask::Check { inputs, .. } => Ok(check(alloc, inputs)?),
        Ask::Diff {
            old_inputs,
            inputs,
            ..
        } => Ok(Reply::Diffed(diff(alloc, old_inputs, inputs)?)),
        Ask::Create { urn, inputs } => create(alloc, shelf, urn, inputs),
        Ask::Update { id, inputs, .. } => update(alloc, shelf, id, inputs),
        Ask::Delete { id, .. } => delete(alloc, shelf, id),
        Ask::Read { id, .. } => read(alloc, shelf, id),
        Ask::Invoke { args, .. } => Ok(Reply::Result(args.copy(alloc)?)),
    }
}

// The inputs as they came, or the reason that stands under `refuse`.
fn check(alloc: Global, inputs: &Fields) -> Result<Reply, OutOfMemory>
    ensures { IfOk result (λ reply. reply ≡ checked_by inputs.now (value_at (codes "refuse") inputs.now)) }
{
    let Some(Value::Text(reason)) = inputs.find("refuse") else {
        return Ok(Reply::Checked(inputs.copy(alloc)?));
    };
    let mut reasons = Reasons::new(alloc);
    reasons.push((Text::from_str(alloc, "refuse")?, reason.copy()?))?;
    Ok(Reply::CheckFailed(reasons))
}

// What differs between the old inputs and the new.
fn diff(alloc: Global, old: &Fields, new: &Fields) -> Result<Diffed, OutOfMemory>
    ensures { IfOk result (λ told. told ≡ diff_of old.now new.now) }
{
    let mut replaces = Texts::new(alloc);
    if fields_same(old, new) {
        return Ok(Diffed {
            changes: Changes::NoChange,
            replaces,
            delete_before_replace: false,
        });
    }
    if !same_if_there(old.find("fixed"), new.find("fixed")) {
        replaces.push(Text::from_str(alloc, "fixed")?)?;
    }
    Ok(Diffed {
        changes: Changes::SomeChange,
        replaces,
        delete_before_replace: is_set(new.find("first")),
    })
}

fn fields_same(old: &Fields, new: &Fields) -> bool
    ensures { result ≡ fields_same old.now new.now }
{
    are_same(old.as_slice(), new.as_slice())
}

fn are_same(old: &[(Text, Value)], new: &[(Text, Value)]) -> bool
    ensures { IsTrue result ↔ (old.now ≡ new.now) }
{
    if old.len() != new.len() {
        return false;
    }
    for (place, field) in old.iter().enumerate() {
        let (key, value) = &new[place];
        if !field.0.same_as(key) || !field.1.same_as(value) {
            return false;
        }
    }
    true
}

// Whether both are absent, or the same value.
fn same_if_there(old: Option<&Value>, new: Option<&Value>) -> bool
    ensures { result ≡ same_if_there (option_copied old.entry) (option_copied new.entry) }
{
    match (old, new) {
        (None, None) => true,
        (Some(old), Some(new)) => old.same_as(new),
        _ => false,
    }
}

// Whether it is the flag that is set.
fn is_set(value: Option<&Value>) -> bool
    ensures { result ≡ is_set (option_copied value.entry) }
{
    match value {
        Some(Value::Flag(flag)) => *flag,
        _ => false,
    }
}

// Puts the inputs on the shelf as the thing of this id.
fn update<H: Shelf>(
    alloc: Global,
    shelf: &mut H,
    id: &Text,
    inputs: &Fields,
) -> Result<Reply, Trouble>
    ensures changed { IfOk result (λ reply. reply ≡ unless_long id.now (Reply.Changed inputs.now)) }
    ensures put { OnOk result (Became (changed_unless_long id.now (with_thing id.now (fields_text inputs.now))) (H.things shelf.old) (H.things shelf.new)) }
    ensures failed_rose { OnFailed result (Rose (H.faults shelf.old) (H.faults shelf.new)) }
    ensures failed_kept_or_put { OnFailed result (IsKeptOrBecame (changed_unless_long id.now (with_thing id.now (fields_text inputs.now))) (H.things shelf.old) (H.things shelf.new)) }
    ensures no_memory_kept { OnNoMemory result (H.things shelf.new ≡ H.things shelf.old) }
    ensures faults_never_fall { H.faults shelf.old ≤ H.faults shelf.new }
{
    if is_long(id.as_str()) {
        return Ok(refusal(alloc, "long name")?);
    }
    let outputs = inputs.copy(alloc)?;
    let text = text_of_fields(alloc, inputs)?;
    shelf.put(alloc, id.as_str(), text.as_str().as_bytes())?;
    Ok(Reply::Changed { outputs })
}

// Takes the thing of this id from the shelf, whether it is there or not.
fn delete<H: Shelf>(alloc: Global, shelf: &mut H, id: &Text) -> Result<Reply, Trouble>
    ensures removed { IfOk result (λ reply. reply ≡ unless_long id.now Reply.Removed) }
    ensures taken { OnOk result (Became (changed_unless_long id.now (without_thing id.now)) (H.things shelf.old) (H.things shelf.new)) }
    ensures failed_rose { OnFailed result (Rose (H.faults shelf.old) (H.faults shelf.new)) }
    ensures failed_kept_or_taken { OnFailed result (IsKeptOrBecame (changed_unless_long id.now (without_thing id.now)) (H.things shelf.old) (H.things shelf.new)) }
    ensures no_memory_kept { OnNoMemory result (H.things shelf.new ≡ H.things shelf.old) }
    ensures faults_never_fall { H.faults shelf.old ≤ H.faults shelf.new }
{
    if is_long(id.as_str()) {
        return Ok(refusal(alloc, "long name")?);
    }
    shelf.remove(alloc, id.as_str())?;
    Ok(Reply::Removed)
}

// The thing of this id as it is on the shelf.
fn read<H: Shelf>(alloc: Global, shelf: &mut H, id: &Text) -> Result<Reply, Trouble>
    ensures found { IfOk result (λ reply. ForHeld (H.things shelf.old) (λ held. reply ≡ unless_long id.now (found_by id.now (inputs_of (held id.now))))) }
    ensures things_stay { H.things shelf.new ≡ H.things shelf.old }
    ensures failed_rose { OnFailed result (Rose (H.faults shelf.old) (H.faults shelf.new)) }
    ensures faults_never_fall { H.faults shelf.old ≤ H.faults shelf.new }
{
    if is_long(id.as_str()) {
        return Ok(refusal(alloc, "long name")?);
    }
    if id.is_empty() {
        return Ok(Reply::Gone);
    }
    match shelf.get(alloc, id.as_str())? {
        Some(bytes) => Ok(found(alloc, id, bytes.as_slice())?),
        None => Ok(Reply::Gone),
    }
}

// The thing of this id, by its bytes.
fn found(alloc: Global, id: &Text, bytes: &[u8]) -> Result<Reply, OutOfMemory>
    requires { 0 < length id.now }
    ensures { IfOk result (λ reply. reply ≡ found_by id.now (inputs_of (Some bytes.now))) }
{
    let Some(inputs) = inputs_in(alloc, bytes)? else {
        return Ok(Reply::Gone);
    };
    let outputs = inputs.copy(alloc)?;
    Ok(Reply::Found {
        id: id.copy()?,
        inputs: Some(inputs),
        outputs,
    })
}

// The inputs that a thing's bytes spell. Bytes that spell no object of values are no thing.
fn inputs_in(alloc: Global, bytes: &[u8]) -> Result<Option<Fields>, OutOfMemory>
    ensures { IfOk result (λ inputs. inputs ≡ inputs_of (Some bytes.now)) }
{
    match pairs_in(alloc, bytes) {
        Ok(fields) => Ok(Some(fields)),
        Err(Unread::WrongForm) => Ok(None),
        Err(Unread::OutOfMemory) => Err(OutOfMemory),
    }
}

/// The object of values that the bytes spell.
fn pairs_in(alloc: Global, bytes: &[u8]) -> Result<Fields, Unread>
    ensures read { IfOk result (λ fields. inputs_of (Some bytes.now) ≡ Some fields) }
    ensures wrong_form { result ≡ Err Unread.WrongForm → inputs_of (Some bytes.now) ≡ None }
{
    let json = json_of(alloc, bytes)?;
    pairs_of(alloc, &json)
}
