ghost use Rattle.std.specs.Prelude.{◌≡◌, [], option_map};
ghost use Rattle.std.specs.Option.{option_map_or};
ghost use Rattle.pl_columns.specs.Read.{known_by};
ghost use Rattle.pl_events.specs.declared.operation.Op.TheVariants as op;
ghost use Rattle.pl_events.specs.declared.operation.Subject.TheVariants as subject;
ghost use Rattle.pl_lemmas.specs.Words.{some_passes};
ghost use Rattle.pl_model.specs.Claims.{chain_of_goal};
ghost use Rattle.pl_model.specs.Due as spec;
ghost use Rattle.pl_model.specs.Known.{decided_goal};
ghost use Rattle.pl_model.specs.Tickets.{same_op, same_subject};
ghost use Rattle.pl_ready.specs.Keepers.{AreKeepers};

use crate::carried::is_carried_out;
use crate::goals::{is_placed, keeps_goal, way_is_free};
use pl_columns::Columns;
use pl_decide::Decision;
use pl_events::{Op, Subject};
use pl_model::Decided;
use pl_state::Goal;

fn is_goal(about: Subject, number: u64) -> bool
    ensures { result ≡ same_subject about (subject.Goal number) }
{
    match about {
        Subject::Goal(goal) => goal == number,
        _ => false,
    }
}

fn creates_goal(about: Op, number: u64) -> bool
    ensures { result ≡ same_op about (op.Create (subject.Goal number)) }
{
    match about {
        Op::Create(about) => is_goal(about, number),
        _ => false,
    }
}

fn updates_goal(about: Op, number: u64) -> bool
    ensures { result ≡ same_op about (op.Update (subject.Goal number)) }
{
    match about {
        Op::Update(about) => is_goal(about, number),
        _ => false,
    }
}

fn reads_goal(about: Op, number: u64) -> bool
    ensures { result ≡ same_op about (op.Read (subject.Goal number)) }
{
    match about {
        Op::Read(about) => is_goal(about, number),
        _ => false,
    }
}

/// Whether an operation is the one by which a decision is carried out.
fn carries_out(number: u64, about: Op, decision: &Decision) -> bool
    ensures { result ≡ some_passes (same_op about) (spec.op_of_decision number decision.now) }
{
    match decision {
        Decision::Keep => false,
        Decision::Create => creates_goal(about, number),
        Decision::Update => updates_goal(about, number),
        Decision::Replace { .. } => creates_goal(about, number),
        Decision::Import => reads_goal(about, number),
        Decision::ReadOnly => reads_goal(about, number),
        Decision::Refused(_) => false,
    }
}

/// Whether an operation is the one that a goal needs.
fn is_needed(columns: &Columns, number: u64, about: Op, goal: &Goal, one: &Decided) -> bool
    ensures { result ≡ some_passes (same_op about) (spec.op_of_goal (known_by columns.now) number goal.now one.now) }
{
    is_carried_out(columns, goal, &one.decision) && carries_out(number, about, &one.decision)
}

/// Whether an operation can be sent for a goal; `chain` are the rows of its chain.
pub fn sends_goal(
    columns: &Columns,
    number: u64,
    about: Op,
    goal: &Goal,
    one: &Decided,
    chain: &[u64],
) -> bool
    requires keepers { AreKeepers (known_by columns.now) }
    requires chain { chain.now ≡ chain_of_goal columns.now.claims.run one.now }
    ensures { result ≡ spec.sends_goal (known_by columns.now) number about goal.now one.now }
{
    is_placed(columns, number, goal, one)
        && is_needed(columns, number, about, goal, one)
        && way_is_free(columns, one, chain)
}

/// The rows of the chain of a goal; none of one that is not decided.
fn chain_of(columns: &Columns, number: u64) -> &[u64]
    ensures { result.now ≡ option_map_or (λ rows. rows)
        (option_map (chain_of_goal columns.now.claims.run) (decided_goal (known_by columns.now) number)) [] }
{
    match columns.claims.chain(number) {
        None => &[],
        Some(rows) => rows.as_slice(),
    }
}

fn sends_decided(columns: &Columns, number: u64, about: Op, goal: &Goal) -> bool
    requires keepers { AreKeepers (known_by columns.now) }
    ensures { result ≡ some_passes (spec.sends_goal (known_by columns.now) number about goal.now)
        (decided_goal (known_by columns.now) number) }
{
    match columns.decided(number) {
        None => false,
        Some(one) => sends_goal(columns, number, about, goal, one, chain_of(columns, number)),
    }
}

/// Whether an operation can be sent for the goal of a number.
pub fn is_send_ready(columns: &Columns, number: u64, about: Op) -> bool
    requires keepers { AreKeepers (known_by columns.now) }
    ensures { result ≡ spec.for_decided (known_by columns.now) number (spec.sends_goal (known_by columns.now) number about) }
{
    match columns.goal(number) {
        None => false,
        Some(goal) => sends_decided(columns, number, about, goal),
    }
}

fn keeps_decided(columns: &Columns, number: u64, goal: &Goal) -> bool
    requires keepers { AreKeepers (known_by columns.now) }
    ensures { result ≡ some_passes (spec.keeps_goal (known_by columns.now) number goal.now)
        (decided_goal (known_by columns.now) number) }
{
    match columns.decided(number) {
        None => false,
        Some(one) => keeps_goal(columns, number, goal, one),
    }
}

/// Whether the goal of a number can be kept.
pub fn is_keep_ready(columns: &Columns, number: u64) -> bool
    requires keepers { AreKeepers (known_by columns.now) }
    ensures { result ≡ spec.is_keep_ready (known_by columns.now) number }
{
    match columns.goal(number) {
        None => false,
        Some(goal) => keeps_decided(columns, number, goal),
    }
}
