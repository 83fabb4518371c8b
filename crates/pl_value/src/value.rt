ghost use Rattle.std.specs.Prelude.{◌≡◌, ◌↔◌, IfOk, IsTrue, min, ◌-◌, ◌^◌};
ghost use Rattle.pl_value.specs.Inside.{has_unknown, depth};
ghost use Rattle.pl_value.specs.IsValue.{IsValue};
ghost use Rattle.pl_value.specs.Shown.{masked};

use crate::copy::copy;
use crate::fields::Fields;
use crate::inside;
use crate::mask::masked;
use crate::same::same;
use crate::sound::is_value;
use crate::values::Values;
use pl_text::{OutOfMemory, Text};
use sqlite_items::{Boxed, Items};
use std::alloc::Global;

/// The most lists, objects and secrets that may stand in each other in a value.
pub const MOST_LEVELS: u64 = 64;

/// A property's value. The pairs of an object stand by their keys, rising by bytes.
#[derive(Debug, Drop)]
pub enum Value {
    Null,
    Flag(bool),
    Whole(i64),
    Text(Text),
    List(Items<Value>),
    Object(Items<(Text, Value)>),
    /// A value that is shown to nobody.
    Secret(Boxed<Value>),
    /// A value that is not known yet.
    Unknown,
}

impl Value {
    /// The list of these values; takes no memory.
    pub fn from_values(values: Values) -> Value
        ensures list { result ≡ Value.List values }
        ensures sound { IsValue result }
    {
        Value::List(values.into_items())
    }

    /// The object of these fields; takes no memory.
    pub fn from_fields(fields: Fields) -> Value
        ensures object { result ≡ Value.Object fields }
        ensures sound { IsValue result }
    {
        Value::Object(fields.into_items())
    }

    /// Whether it is the value of a property: no text in it is that of the unknown, the keys of its
    /// objects rise, and none of them spells a secret.
    pub fn is_value(&self) -> bool
        ensures { IsTrue result ↔ IsValue self.now }
    {
        is_value(self)
    }

    /// Whether both are the same value; a secret is the same as a secret of the same value alone.
    pub fn same_as(&self, other: &Value) -> bool
        ensures { IsTrue result ↔ (self.now ≡ other.now) }
    {
        same(self, other)
    }

    pub fn copy(&self, alloc: Global) -> Result<Value, OutOfMemory>
        ensures { IfOk result (λ made. made ≡ self.now) }
    {
        copy(alloc, self)
    }

    /// Whether the unknown is the value or stands in it.
    pub fn has_unknown(&self) -> bool
        ensures { result ≡ has_unknown self.now }
    {
        inside::has_unknown(self)
    }

    /// How many lists, objects and secrets stand in each other at most; the greatest `u64` where that is less.
    pub fn depth(&self) -> u64
        ensures { result ≡ min (depth self.now) (2 ^ 64 - 1) }
    {
        inside::depth(self)
    }

    /// The value as it may be shown: a text stands in the place of each secret.
    pub fn masked(&self, alloc: Global) -> Result<Value, OutOfMemory>
        requires { IsValue self.now }
        ensures masked { IfOk result (λ shown. shown ≡ masked self.now) }
        ensures sound { IfOk result (λ shown. IsValue shown) }
    {
        masked(alloc, self)
    }
}
