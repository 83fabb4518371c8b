ghost use Rattle.std.specs.Prelude.{◌≡◌, ◌↔◌, [], ◌∷◌, ◌++◌, IfOk, IfSome, IsTrue, length, OnErr, OnOk, slice_get};
ghost use Rattle.std.specs.Option.{option_copied};
ghost use Rattle.pl_value.specs.Inside.{any_field_unknown};
ghost use Rattle.pl_value.specs.IsValue.{IsValue, AreFields, may_stand_under};
ghost use Rattle.pl_value.specs.Keys.{are_all_below, value_at};

use crate::copy::copy_fields;
use crate::inside;
use crate::sound::is_text_below;
use crate::value::Value;
use pl_text::{OutOfMemory, Text};
use sqlite_items::Items;
use std::alloc::Global;
use std::marker::Model;

/// The fields of an object: keys, rising by bytes, with the value under each.
#[derive(Debug, Drop)]
pub struct Fields {
    fields: Items<(Text, Value)>,
}

impl Model for Fields {
    ghost use Rattle.std.specs.Prelude.{List, ℕ};
    ghost use Rattle.std.specs.Coded.{codes, coded_list, coded_ℕ, coded×};
    ghost use Rattle.pl_value.specs.declared.value.Value as declared;
    ghost use Rattle.pl_value.specs.contracts.value.Value as value;
    ghost use Rattle.pl_value.specs.IsValue.{AreFields};

    ghost Value = { List (List ℕ × declared.Value) };

    ghost coded = { coded_list (coded× (coded_list coded_ℕ) (Prim.hlevel (codes, value.the_row.coded))) };

    ghost view = { λ a. a.fields };

    ghost invariant = { λ a. AreFields a.fields };
}

impl Fields {
    /// No field; takes no memory.
    pub fn new(alloc: Global) -> Fields
        ensures { result ≡ [] }
    {
        Fields {
            fields: Items::new(alloc),
        }
    }

    /// Fields over the given items; takes no memory.
    pub fn from_items(fields: Items<(Text, Value)>) -> Fields
        requires { AreFields fields }
        ensures { result ≡ fields }
    {
        Fields { fields }
    }

    /// Fields over the given vector; takes no memory.
    pub fn from_vec(fields: Vec<(Text, Value)>) -> Fields
        requires { AreFields fields.items }
        ensures { result ≡ fields.items }
    {
        Fields {
            fields: Items::from_vec(fields),
        }
    }

    /// Gives the items back; takes no memory.
    pub fn into_items(self) -> Items<(Text, Value)>
        ensures same { result ≡ self }
        ensures sound { AreFields result }
    {
        let Fields { fields } = self;
        fields
    }

    /// Whether an unknown stands in one of the fields, at any depth.
    pub fn has_unknown(&self) -> bool
        ensures { result ≡ any_field_unknown self.now }
    {
        inside::any_field_unknown(self.as_slice())
    }

    pub fn as_slice(&self) -> &[(Text, Value)]
        ensures same { result.now ≡ self.now }
        ensures sound { AreFields self.now }
    {
        self.fields.as_slice()
    }

    pub fn len(&self) -> usize
        ensures { result ≡ length self.now }
    {
        self.fields.len()
    }

    /// The field at this place, from 0.
    pub fn get(&self, place: usize) -> Option<&(Text, Value)>
        ensures field { option_copied result ≡ slice_get self.now place }
        ensures sound { IfSome result (λ field. IsValue field.now.1) }
    {
        self.fields.get(place)
    }

    /// The value under this key, if there is one.
    pub fn find(&self, key: &str) -> Option<&Value>
        ensures value { option_copied result ≡ value_at key.now self.now }
        ensures sound { IfSome result (λ value. IsValue value.now) }
    {
        value_under(self.fields.as_slice(), key)
    }

    /// Whether each key is below this one, so that a field with it may be added.
    pub fn is_below(&self, key: &str) -> bool
        ensures { result ≡ are_all_below self.now key.now }
    {
        match self.fields.as_slice().last() {
            None => true,
            Some(last) => is_text_below(last.0.as_str(), key),
        }
    }

    /// Adds a field at the end; after `OutOfMemory` nothing was added.
    pub fn push(&mut self, key: Text, value: Value) -> Result<(), OutOfMemory>
        requires sound { IsValue value }
        requires above { IsTrue (are_all_below self.old key) }
        requires unmarked { IsTrue (may_stand_under key value) }
        ensures added { OnOk result (self.new ≡ self.old ++ (key, value) ∷ []) }
        ensures unchanged { OnErr result (self.new ≡ self.old) }
    {
        self.fields.push((key, value))?;
        Ok(())
    }

    pub fn copy(&self, alloc: Global) -> Result<Fields, OutOfMemory>
        ensures { IfOk result (λ made. made ≡ self.now) }
    {
        let fields = copy_fields(alloc, self.fields.as_slice())?;
        Ok(Fields { fields })
    }
}

/// The value under the key among the fields of an object, if there is one.
pub fn value_under<'a>(fields: &'a [(Text, Value)], key: &str) -> Option<&'a Value>
    ensures { option_copied result ≡ value_at key.now fields.now }
{
    for (name, value) in fields {
        if name.as_str() == key {
            return Some(value);
        }
    }
    None
}
