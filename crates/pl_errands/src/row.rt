ghost use Rattle.std.specs.Prelude.{◌≡◌, Some, option_map, slice_get, slice_set, true};
ghost use Rattle.std.specs.Option.{option_copied};
ghost use Rattle.std.specs.Vec.{vec_capacity};
ghost use Rattle.pl_errands.specs.Lanes.{is_configured_in};
ghost use Rattle.pl_errands.specs.Rows as spec;
ghost use Rattle.pl_lemmas.specs.Words.{some_passes};

use pl_events::Reply;
use pl_model::{Closed, Errand};

/// What became of an operation that was begun.
#[derive(Clone, Copy, Debug)]
pub enum Standing {
    Open,
    Answered,
    /// Answered by the word that its lane is configured.
    Configured,
    Lost,
}

/// An operation that was begun, at the place of its ticket.
#[derive(Clone, Copy, Debug)]
pub struct Row {
    pub errand: Errand,
    pub standing: Standing,
}

/// An operation that was answered, with its ticket.
#[derive(Debug, Drop)]
pub struct Replied {
    pub ticket: u64,
    pub closed: Closed,
}

impl Row {
    pub fn is_open(&self) -> bool
        ensures { result ≡ spec.is_open_row self.now }
    {
        matches!(self.standing, Standing::Open)
    }

    fn has_configured(&self) -> bool
        ensures { result ≡ spec.is_configured self.now.standing }
    {
        matches!(self.standing, Standing::Configured)
    }
}

/// What an operation comes to by a reply.
pub fn standing_of(reply: &Reply) -> Standing
    ensures { result ≡ spec.standing_of reply.now }
{
    match reply {
        Reply::Configured => Standing::Configured,
        _ => Standing::Answered,
    }
}

/// Sets what became of an open operation, and gives its errand.
pub fn close(rows: &mut Vec<Row>, ticket: u64, standing: Standing) -> Errand
    requires { some_passes spec.is_open_row (slice_get rows.old.items ticket) ≡ true }
    ensures was { slice_get rows.old.items ticket ≡ Some (record { errand = result; standing = Standing.Open }) }
    ensures set { rows.new.items ≡ slice_set rows.old.items ticket (record { errand = result; standing = standing }) }
    ensures room { vec_capacity rows.new ≡ vec_capacity rows.old }
{
    let row = &mut rows[ticket as usize];
    row.standing = standing;
    row.errand
}

/// Opens an answered operation again, and gives its errand.
pub fn reopen(rows: &mut Vec<Row>, ticket: u64) -> Errand
    requires { some_passes (λ row. spec.is_answered row.standing) (slice_get rows.old.items ticket) ≡ true }
    ensures was { option_map (λ row. row.errand) (slice_get rows.old.items ticket) ≡ Some result }
    ensures set { rows.new.items ≡ slice_set rows.old.items ticket (record { errand = result; standing = Standing.Open }) }
    ensures room { vec_capacity rows.new ≡ vec_capacity rows.old }
{
    let row = &mut rows[ticket as usize];
    row.standing = Standing::Open;
    row.errand
}

/// Whether an operation of a lane configured it.
pub fn is_configured_by(rows: &[Row], lane: u64) -> bool
    ensures { result ≡ is_configured_in rows.now lane }
{
    rows.iter()
        .any(|row| row.errand.lane == lane && row.has_configured())
}

/// The row of a ticket.
pub fn row_at(rows: &[Row], ticket: u64) -> Option<Row>
    ensures { result ≡ slice_get rows.now ticket }
{
    rows.get(ticket as usize).copied()
}

/// The reply at a place.
pub fn replied_at(replies: &[Replied], place: usize) -> Option<&Replied>
    ensures { option_copied result ≡ slice_get replies.now place }
{
    replies.get(place)
}
