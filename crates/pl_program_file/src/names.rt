ghost use Rattle.std.specs.Prelude.{◌≡◌, ◌++◌, IfOk, OnOk};
ghost use Rattle.std.specs.Option.{option_to_list};
ghost use Rattle.pl_program_file.specs.Names as spec;

use crate::program::{Links, Resource};
use crate::reference::reference_in;
use pl_value::{Fields, OutOfMemory, Text, Texts, Value};
use std::alloc::Global;

/// The names that a resource uses, in its options and then in its inputs, each as often as it stands there. Their
/// resources must be registered before this one.
pub fn names_of(alloc: Global, resource: &Resource) -> Result<Texts, OutOfMemory>
    ensures { IfOk result (λ names. names ≡ spec.names_of resource.now) }
{
    let mut names = linked_names(alloc, &resource.links)?;
    add_field_names(alloc, resource.inputs.as_slice(), &mut names)?;
    Ok(names)
}

/// The names that references in the fields use, in reading order, each as often as it stands there.
pub fn names_in_fields(alloc: Global, fields: &Fields) -> Result<Texts, OutOfMemory>
    ensures { IfOk result (λ names. names ≡ spec.names_in_fields fields.now) }
{
    let mut names = Texts::new(alloc);
    add_field_names(alloc, fields.as_slice(), &mut names)?;
    Ok(names)
}

fn linked_names(alloc: Global, links: &Links) -> Result<Texts, OutOfMemory>
    ensures { IfOk result (λ names. names ≡ spec.linked_names links.now) }
{
    let mut names = Texts::new(alloc);
    add_if_there(&links.parent, &mut names)?;
    add_if_there(&links.provider, &mut names)?;
    add_if_there(&links.deleted_with, &mut names)?;
    add_all(links.depends_on.as_slice(), &mut names)?;
    Ok(names)
}

fn add_if_there(name: &Option<Text>, names: &mut Texts) -> Result<(), OutOfMemory>
    ensures { OnOk result (names.new ≡ names.old ++ option_to_list name.now) }
{
    if let Some(name) = name {
        names.push(name.copy()?)?;
    }
    Ok(())
}

/// Adds copies of the names.
pub fn add_all(more: &[Text], names: &mut Texts) -> Result<(), OutOfMemory>
    ensures { OnOk result (names.new ≡ names.old ++ more.now) }
{
    for name in more {
        names.push(name.copy()?)?;
    }
    Ok(())
}

/// Adds the names that references in the value use, in reading order.
#[cycle(names)]
pub fn add_names(alloc: Global, value: &Value, names: &mut Texts) -> Result<(), OutOfMemory>
    ensures { OnOk result (names.new ≡ names.old ++ spec.names_in value.now) }
{
    match value {
        Value::Text(text) => add_name(alloc, text.as_str(), names),
        Value::List(values) => add_value_names(alloc, values.as_slice(), names),
        Value::Object(fields) => add_field_names(alloc, fields.as_slice(), names),
        Value::Secret(inner) => add_names(alloc, inner.get(), names),
        Value::Null | Value::Flag(_) | Value::Whole(_) | Value::Unknown => Ok(()),
    }
}

#[cycle(names)]
fn add_value_names(alloc: Global, values: &[Value], names: &mut Texts) -> Result<(), OutOfMemory>
    ensures { OnOk result (names.new ≡ names.old ++ spec.names_in_values values.now) }
{
    for value in values {
        add_names(alloc, value, names)?;
    }
    Ok(())
}

/// Adds the names that references in the fields use, in reading order.
#[cycle(names)]
pub fn add_field_names(
    alloc: Global,
    fields: &[(Text, Value)],
    names: &mut Texts,
) -> Result<(), OutOfMemory>
    ensures { OnOk result (names.new ≡ names.old ++ spec.names_in_fields fields.now) }
{
    for (_, value) in fields {
        add_names(alloc, value, names)?;
    }
    Ok(())
}

fn add_name(alloc: Global, text: &str, names: &mut Texts) -> Result<(), OutOfMemory>
    ensures { OnOk result (names.new ≡ names.old ++ spec.name_in text.now) }
{
    if let Some((name, _)) = reference_in(text) {
        names.push(Text::from_str(alloc, name)?)?;
    }
    Ok(())
}
