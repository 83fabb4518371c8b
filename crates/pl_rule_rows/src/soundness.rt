use crate::table::cells;
use pl_reference::{ProviderRef, Urns};
use pl_sound::{fault_of, is_sound};
use pl_state::{Entries, Entry, Missing, UnsoundOrMemory};
use pl_urn::Urn;
use pl_value::Text;
use std::alloc::Global;
use std::process::Abort;
use std::test::Fail;

fn urn(alloc: Global, name: &str) -> Result<Urn, Fail> {
    let text = format!(in alloc; "urn:pulumi:dev::web::t:i:T::{name}")?;
    Ok(pl_urn::parse(alloc, text.as_str())?)
}

fn reference(alloc: Global, text: &str) -> Result<ProviderRef, Fail> {
    let (name, id) = text.split_once('/').unwrap_or((text, ""));
    let id = Text::from_str(alloc, id)?;
    Ok(ProviderRef {
        urn: urn(alloc, name)?,
        id,
    })
}

fn urns(alloc: Global, name: &str) -> Result<Urns, Fail> {
    let mut urns = Urns::new(alloc);
    urns.push(urn(alloc, name)?)?;
    Ok(urns)
}

fn shown_missing(alloc: Global, missing: &Missing) -> Result<String, Fail> {
    match missing {
        Missing::Twice(urn) => Ok(format!(in alloc; "twice {}", urn.name())?),
        Missing::Parent(urn) => Ok(format!(in alloc; "parent {}", urn.name())?),
        Missing::Provider(reference) => {
            let (name, id) = (reference.urn.name(), reference.id.as_str());
            Ok(format!(in alloc; "provider {name} {id}")?)
        }
        Missing::Dependency(urn) => Ok(format!(in alloc; "dependency {}", urn.name())?),
        Missing::DeletedWith(urn) => Ok(format!(in alloc; "deleted with {}", urn.name())?),
    }
}

fn set(alloc: Global, entry: &mut Entry, key: &str, value: &str) -> Result<(), Fail> {
    match key {
        "id" => entry.id = Some(Text::from_str(alloc, value)?),
        "parent" => entry.parent = Some(urn(alloc, value)?),
        "deleter" => entry.deleted_with = Some(urn(alloc, value)?),
        "provider" => entry.provider = Some(reference(alloc, value)?),
        "dependency" => entry.dependencies.push(urn(alloc, value)?)?,
        "property" => {
            let property = Text::from_str(alloc, "size")?;
            entry
                .property_dependencies
                .push((property, urns(alloc, value)?))?;
        }
        _ => entry.doomed = true,
    }
    Ok(())
}

fn row(alloc: Global, text: &str) -> Result<Entry, Fail> {
    let (name, options) = text.split_once(' ').unwrap_or((text, ""));
    let kind = Text::from_str(alloc, "t:i:T")?;
    let mut entry = Entry::component(alloc, urn(alloc, name)?, kind, None)?;
    for option in options.split(' ') {
        if let Some((key, value)) = option.split_once('=') {
            set(alloc, &mut entry, key, value)?;
        }
    }
    Ok(entry)
}

fn rows(alloc: Global, text: &str) -> Result<Entries, Fail> {
    let mut rows = Entries::new(alloc);
    for piece in text.split(';') {
        rows.push(row(alloc, piece)?)?;
    }
    Ok(rows)
}

fn shown(alloc: Global, rows: &Entries) -> Result<String, Fail> {
    match is_sound(alloc, rows) {
        Ok(()) => Ok(String::from_str(alloc, "sound")?),
        Err(UnsoundOrMemory::Unsound(fault)) => {
            let missing = shown_missing(alloc, &fault.missing)?;
            Ok(format!(in alloc; "{} {missing}", fault.at)?)
        }
        Err(UnsoundOrMemory::OutOfMemory) => Ok(String::from_str(alloc, "out of memory")?),
    }
}

/// Rows, and their first fault.
const ROWS: &str = r#"top;child parent=top => sound
a;b;a => 2 twice a
a doomed=;a;a doomed= => sound
p id=7;a provider=p/7 => sound
p id=7;a provider=p/8 => 1 provider p 8
p;a provider=p/7 => 1 provider p 7
p;a provider=p/7 parent=t => 1 parent t
a;b dependency=a property=a => sound
a;b dependency=a property=z => 1 dependency z
a;b property=z dependency=y => 1 dependency y
a doomed=;b deleter=a => sound
b deleter=a;a => 0 deleted with a
a;b deleter=y property=z => 1 dependency z"#;

/// The number of the first row with a fault.
fn place(alloc: Global, rows: &Entries) -> Result<String, Fail> {
    match fault_of(rows) {
        None => Ok(String::from_str(alloc, "sound")?),
        Some(at) => Ok(format!(in alloc; "{at} ")?),
    }
}

fn is_judged(alloc: Global, line: &str) -> Result<bool, Fail> {
    let (text, want) = cells(line);
    let rows = rows(alloc, text)?;
    let place = place(alloc, &rows)?;
    let found = shown(alloc, &rows)?;
    Ok(found.as_str() == want && found.as_str().starts_with(place.as_str()))
}

#[test]
fn first_faults(rt: HostRuntime) -> Result<(), Fail> {
    for line in ROWS.split('\n') {
        assert!(rt; is_judged(rt.alloc(), line)?, "{line}");
    }
    Ok(())
}

const STACK: &str = "urn:pulumi:dev::web::pulumi:pulumi:Stack::web-dev";

fn component(alloc: Global, urn: &str, kind: &str, parent: Option<Urn>) -> Result<Entry, Fail> {
    let urn = pl_urn::parse(alloc, urn)?;
    let kind = Text::from_str(alloc, kind)?;
    Ok(Entry::component(alloc, urn, kind, parent)?)
}

fn child_before_stack(alloc: Global) -> Result<Entries, Fail> {
    let stack = pl_urn::parse(alloc, STACK)?;
    let site = "urn:pulumi:dev::web::my:index:Site::s";
    let mut rows = Entries::new(alloc);
    rows.push(component(alloc, site, "my:index:Site", Some(stack))?)?;
    rows.push(component(alloc, STACK, "pulumi:pulumi:Stack", None)?)?;
    Ok(rows)
}

fn misses_parent_first(alloc: Global, rows: &Entries, at: u64, parent: &str) -> bool {
    match is_sound(alloc, rows) {
        Err(UnsoundOrMemory::Unsound(fault)) => match &fault.missing {
            Missing::Parent(urn) => fault.at == at && urn.as_str() == parent,
            _ => false,
        },
        _ => false,
    }
}

#[test]
fn parent_after_child_is_unsound(rt: HostRuntime) -> Result<(), Fail> {
    let alloc = rt.alloc();
    let rows = child_before_stack(alloc)?;
    assert!(rt; fault_of(&rows) == Some(0));
    assert!(rt; misses_parent_first(alloc, &rows, 0, STACK));
    Ok(())
}
