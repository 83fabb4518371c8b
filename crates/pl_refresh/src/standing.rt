ghost use Rattle.std.specs.Prelude.{◌≡◌, [], ◌∷◌, ◌++◌, IfOk};
ghost use Rattle.std.specs.List.{list_any};
ghost use Rattle.pl_state.specs.References.{is_provider};
ghost use Rattle.pl_refresh.specs.Covers.{Covers};
ghost use Rattle.pl_refresh.specs.Refreshed.{is_there};

use pl_reference::ProviderRef;
use pl_sound::Seen;
use pl_state::{Entries, Entry};
use pl_urn::Urn;
use pl_value::OutOfMemory;
use std::alloc::Global;
use std::marker::Model;

/// The entries of the result so far, seen as their list, with an index of the rows that they were made of.
#[derive(Drop)]
pub struct Standing<'a> {
    rows: Entries,
    seen: Seen<'a>,
}

impl<'a> Model for Standing<'a> {
    ghost use Rattle.std.specs.Prelude.{List};
    ghost use Rattle.std.specs.Coded.{codes, coded_list};
    ghost use Rattle.pl_state.specs.declared.entry.Entry.{Entry};
    ghost use Rattle.pl_state.specs.contracts.entry.Entry as row;
    ghost use Rattle.pl_refresh.specs.Covers.{Covers};

    ghost Value = { List Entry };

    ghost coded = { coded_list (Prim.hlevel (codes, row.the_row.coded)) };

    ghost view = { λ a. a.rows };

    ghost invariant = { λ a. Covers a.seen a.rows };
}

impl<'a> Standing<'a> {
    /// No entries yet; takes no memory.
    pub fn new(alloc: Global) -> Standing<'a>
        ensures { result ≡ [] }
    {
        Standing {
            rows: Entries::new(alloc),
            seen: Seen::new(alloc),
        }
    }

    /// The entries.
    pub fn into_rows(self) -> Entries
        ensures { result ≡ self.entry }
    {
        let Standing { rows, .. } = self;
        rows
    }

    /// Whether one of the entries has this URN.
    pub fn has_urn(&self, urn: &Urn) -> bool
        ensures { result ≡ is_there self.now urn.now }
    {
        self.seen.has_urn(urn)
    }

    /// Whether one of the entries is this provider.
    pub fn has_provider(&self, reference: &'a ProviderRef) -> bool
        ensures { result ≡ list_any (is_provider reference.now) self.now }
    {
        self.seen.has_provider(reference)
    }

    /// One entry more, that was made of a row with the same URN and id.
    pub fn with(self, row: &'a Entry, made: Entry) -> Result<Standing<'a>, OutOfMemory>
        requires urn { made.urn ≡ row.now.urn }
        requires id { made.id ≡ row.now.id }
        ensures { IfOk result (λ standing. standing ≡ self.entry ++ made ∷ []) }
    {
        let Standing { mut rows, mut seen } = self;
        seen.add(row)?;
        rows.push(made)?;
        Ok(Standing { rows, seen })
    }
}

/// An index of these entries.
pub fn index_of(alloc: Global, rows: &[Entry]) -> Result<Seen<'_>, OutOfMemory>
    ensures { IfOk result (λ seen. Covers seen rows.now) }
{
    let mut seen = Seen::new(alloc);
    for row in rows {
        seen.add(row)?;
    }
    Ok(seen)
}
