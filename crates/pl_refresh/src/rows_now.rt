ghost use Rattle.std.specs.Prelude.{◌≡◌, [], ◌∷◌, ◌++◌, length, OnErr, OnOk, option_map, slice_get};

use crate::row_now::RowNow;
use pl_value::OutOfMemory;
use std::alloc::Global;
use std::marker::Model;

/// What a refresh found in place of the rows of the base, in their order, seen as its list. Of a row behind its end
/// nothing is said.
#[derive(Debug, Drop)]
pub struct RowsNow {
    rows: Vec<RowNow>,
}

impl Model for RowsNow {
    ghost use Rattle.std.specs.Prelude.{List};
    ghost use Rattle.std.specs.Coded.{codes, coded_list};
    ghost use Rattle.pl_refresh.specs.declared.row_now.RowNow.{RowNow};
    ghost use Rattle.pl_refresh.specs.contracts.row_now.RowNow as row;

    ghost Value = { List RowNow };

    ghost coded = { coded_list (Prim.hlevel (codes, row.the_row.coded)) };

    ghost view = { λ a. a.rows.items };
}

impl RowsNow {
    /// Nothing is said of any row; takes no memory.
    pub fn new(alloc: Global) -> RowsNow
        ensures { result ≡ [] }
    {
        RowsNow {
            rows: Vec::new(alloc),
        }
    }

    pub fn as_slice(&self) -> &[RowNow]
        ensures { result.now ≡ self.now }
    {
        self.rows.as_slice()
    }

    pub fn len(&self) -> usize
        ensures { result ≡ length self.now }
    {
        self.rows.len()
    }

    /// What was found in place of the row at this place, from 0.
    pub fn get(&self, place: usize) -> Option<&RowNow>
        ensures { option_map (λ row. row.now) result ≡ slice_get self.now place }
    {
        self.rows.get(place)
    }

    /// Says what was found in place of the next row; after `OutOfMemory` nothing was added.
    pub fn push(&mut self, row: RowNow) -> Result<(), OutOfMemory>
        ensures added { OnOk result (self.new ≡ self.old ++ row ∷ []) }
        ensures unchanged { OnErr result (self.new ≡ self.old) }
    {
        self.rows.push(row)?;
        Ok(())
    }
}
