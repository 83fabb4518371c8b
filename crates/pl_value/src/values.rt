ghost use Rattle.std.specs.Prelude.{◌≡◌, [], ◌∷◌, ◌++◌, IfOk, IfSome, length, OnErr, OnOk, slice_get};
ghost use Rattle.std.specs.Option.{option_copied};
ghost use Rattle.pl_value.specs.IsValue.{IsValue, AreValues};

use crate::copy::copy_values;
use crate::value::Value;
use pl_text::OutOfMemory;
use sqlite_items::Items;
use std::alloc::Global;
use std::marker::Model;

/// The elements of a list, in order.
#[derive(Debug, Drop)]
pub struct Values {
    values: Items<Value>,
}

impl Model for Values {
    ghost use Rattle.std.specs.Prelude.{List};
    ghost use Rattle.std.specs.Coded.{codes, coded_list};
    ghost use Rattle.pl_value.specs.declared.value.Value as declared;
    ghost use Rattle.pl_value.specs.contracts.value.Value as value;
    ghost use Rattle.pl_value.specs.IsValue.{AreValues};

    ghost Value = { List declared.Value };

    ghost coded = { coded_list (Prim.hlevel (codes, value.the_row.coded)) };

    ghost view = { λ a. a.values };

    ghost invariant = { λ a. AreValues a.values };
}

impl Values {
    /// No value; takes no memory.
    pub fn new(alloc: Global) -> Values
        ensures { result ≡ [] }
    {
        Values {
            values: Items::new(alloc),
        }
    }

    /// Values over the given items; takes no memory.
    pub fn from_items(values: Items<Value>) -> Values
        requires { AreValues values }
        ensures { result ≡ values }
    {
        Values { values }
    }

    /// Values over the given vector; takes no memory.
    pub fn from_vec(values: Vec<Value>) -> Values
        requires { AreValues values.items }
        ensures { result ≡ values.items }
    {
        Values {
            values: Items::from_vec(values),
        }
    }

    /// Gives the items back; takes no memory.
    pub fn into_items(self) -> Items<Value>
        ensures same { result ≡ self }
        ensures sound { AreValues result }
    {
        let Values { values } = self;
        values
    }

    pub fn as_slice(&self) -> &[Value]
        ensures same { result.now ≡ self.now }
        ensures sound { AreValues self.now }
    {
        self.values.as_slice()
    }

    pub fn len(&self) -> usize
        ensures { result ≡ length self.now }
    {
        self.values.len()
    }

    /// The value at this place, from 0.
    pub fn get(&self, place: usize) -> Option<&Value>
        ensures value { option_copied result ≡ slice_get self.now place }
        ensures sound { IfSome result (λ value. IsValue value.now) }
    {
        self.values.get(place)
    }

    /// Adds a value at the end; after `OutOfMemory` nothing was added.
    pub fn push(&mut self, value: Value) -> Result<(), OutOfMemory>
        requires { IsValue value }
        ensures added { OnOk result (self.new ≡ self.old ++ value ∷ []) }
        ensures unchanged { OnErr result (self.new ≡ self.old) }
    {
        self.values.push(value)?;
        Ok(())
    }

    pub fn copy(&self, alloc: Global) -> Result<Values, OutOfMemory>
        ensures { IfOk result (λ made. made ≡ self.now) }
    {
        let values = copy_values(alloc, self.values.as_slice())?;
        Ok(Values { values })
    }
}
