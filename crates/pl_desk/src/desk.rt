//! The desk and its seats.
ghost use Rattle.std.specs.Prelude.{◌≡◌, true};
ghost use Rattle.pl_desk.specs.Posed.{is_live, turn_in, hand};

use crate::board::{Board, Chronicle, Hold};

/// The lock. Threads share it.
pub struct Desk<J: Chronicle> {
    pub(crate) table: Board<J>,
    ghost sized: { (table.shared.table_id.words ≡ 1) × (table.shared.table_id.slots ≡ 1) },
}

impl<J: Chronicle> Desk<J> {
    pub(crate) fn into_table(self) -> Board<J>
        ensures { result ≡ self.table }
    {
        let Self { table } = self;
        table
    }
}

impl<J: Chronicle + Drop> Drop for Desk<J> {
    fn drop(self) {
        let Self { table } = self;
        drop(table);
    }
}

/// What one thread knows of the item. It has no bytes. A seat that is let go is never taken in, so its desk is never closed.
#[derive(Drop)]
pub struct Seat<J> {
    pub(crate) hold: Hold<J>,
    ghost live: { (is_live hold.me.0 ≡ true) × (hold.me.1 ≡ hand (turn_in hold.me.0)) },
}

/// The item, for as long as a seat has the turn.
pub struct Turn<J> {
    pub item: J,
}
