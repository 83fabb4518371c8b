//! The table under a desk. Its one word is twice the number of lines, and one more while the turn is out. Its one slot holds the item.
ghost use Rattle.std.specs.Prelude.{◌≡◌, ℕ, Bool, List, length};
ghost use base.Fml.{ftrue};

use atomic_table::{Table, TableRule};
use std::alloc::Global;
use std::marker::{Model, PhantomData};
use std::snapshot::Snapshot;

/// An item with fixed data, its origin, and a list of lines, each with a seat's number.
pub trait Chronicle {
    ghost Origin: { Type 0 };

    ghost Line: { Type 0 };

    ghost origin: { Self → Origin };

    ghost lines: { Self → List Line };

    ghost number_of: { Line → ℕ };

    /// The number of lines.
    fn length(&self) -> u64
        ensures { result ≡ length (lines self.now) };
}

/// What a seat knows. No value of it is made.
pub struct View<J> {
    marker: PhantomData<J>,
    pub ghost number: { ℕ },
    /// The item as the seat saw it last.
    pub ghost last: { J },
    pub ghost turn: { Bool },
    /// How many seats were made, where this is the first one.
    pub ghost made: { ℕ },
    /// The numbers of the seats that were taken in, with what each saw last.
    pub ghost gathered: { List (ℕ × J) },
    /// The most lines that a load of `rest` showed it.
    pub ghost shown: { ℕ },
    /// How many loads of `rest` met the turn out.
    pub ghost met: { ℕ },
}

impl<J> Model for View<J> {
    ghost also_owns = { λ _. ftrue };
}

pub enum Place<J> {
    Spent,
    Live(View<J>),
}

pub struct DeskRule;

impl<J: Chronicle> TableRule<Option<J>, Place<J>, Snapshot<J>> for DeskRule {
    ghost use Rattle.pl_desk.specs.Rule.{Kept, opened};

    ghost holds = { λ _. Kept J.origin J.lines J.number_of };

    ghost first = { λ key. opened key.value };
}

pub type Board<J> = Table<Option<J>, Place<J>, Snapshot<J>, DeskRule, Global>;

pub type Hold<J> = atomic_table::Seat<Option<J>, Place<J>>;
