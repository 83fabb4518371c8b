use pl_chain::{ChainFault, chain};
use pl_reference::ProviderRef;
use pl_state::{Entries, Entry, Urns};
use pl_urn::Urn;
use pl_value::{Rows, Text};
use std::alloc::Global;
use std::test::Fail;

fn urn(alloc: Global, name: &str) -> Result<Urn, Fail> {
    let text = format!(in alloc; "urn:pulumi:dev::web::t:i:T::{name}")?;
    Ok(pl_urn::parse(alloc, text.as_str())?)
}

fn reference(alloc: Global, text: &str) -> Result<ProviderRef, Fail> {
    let (name, id) = text.split_once('/').unwrap_or((text, ""));
    let id = Text::from_str(alloc, id)?;
    Ok(ProviderRef {
        urn: urn(alloc, name)?,
        id,
    })
}

fn add_property(alloc: Global, entry: &mut Entry, name: &str) -> Result<(), Fail> {
    let mut urns = Urns::new(alloc);
    urns.push(urn(alloc, name)?)?;
    let property = Text::from_str(alloc, "size")?;
    entry.property_dependencies.push((property, urns))?;
    Ok(())
}

fn set(alloc: Global, entry: &mut Entry, key: &str, value: &str) -> Result<(), Fail> {
    match key {
        "id" => entry.id = Some(Text::from_str(alloc, value)?),
        "parent" => entry.parent = Some(urn(alloc, value)?),
        "deleter" => entry.deleted_with = Some(urn(alloc, value)?),
        "provider" => entry.provider = Some(reference(alloc, value)?),
        "dependency" => entry.dependencies.push(urn(alloc, value)?)?,
        "property" => add_property(alloc, entry, value)?,
        "protect" => entry.protect = true,
        _ => entry.doomed = true,
    }
    Ok(())
}

// The entry of a word: its name, and what it has, as `b,parent=a,protect`.
fn entry_of(alloc: Global, word: &str) -> Result<Entry, Fail> {
    let mut parts = word.split(',');
    let name = parts.next().unwrap_or("");
    let kind = Text::from_str(alloc, "t:i:T")?;
    let mut entry = Entry::component(alloc, urn(alloc, name)?, kind, None)?;
    for part in parts {
        let (key, value) = part.split_once('=').unwrap_or((part, ""));
        set(alloc, &mut entry, key, value)?;
    }
    Ok(entry)
}

fn entries_of(alloc: Global, words: &str) -> Result<Entries, Fail> {
    let mut entries = Entries::new(alloc);
    for word in words.split_whitespace() {
        entries.push(entry_of(alloc, word)?)?;
    }
    Ok(entries)
}

// The numbers of a chain, or the name of the row that refuses it.
fn shown(alloc: Global, words: &str, at: u64, claimed: &[u64]) -> Result<String, Fail> {
    let entries = entries_of(alloc, words)?;
    let claimed = Rows::from_vec(claimed.to_vec(alloc)?);
    match chain(alloc, &entries, &claimed, at) {
        Ok(rows) => Ok(format!(in alloc; "{:?}", rows.as_slice())?),
        Err(ChainFault::Protected(urn)) => Ok(format!(in alloc; "protected {}", urn.name())?),
        Err(ChainFault::OutOfMemory) => Err("out of memory".into()),
    }
}

#[test]
fn chains_are_found(rt: HostRuntime) -> Result<(), Fail> {
    let twins = "p,id=1 p,id=2 a,provider=p/1 b,provider=p/2 c,parent=p";
    let mixed = "a b,parent=a c,dependency=b d,property=c e,deleter=d f";
    for (words, at, want) in [
        ("", 0, "[]"),
        ("a b", 0, "[]"),
        (mixed, 0, "[1, 2, 3, 4]"),
        (mixed, 3, "[4]"),
        (mixed, 5, "[]"),
        (mixed, 9, "[]"),
        (twins, 0, "[2, 4]"),
        (twins, 1, "[3, 4]"),
        ("a a,delete b,parent=a", 1, "[2]"),
        ("b,parent=a a c,parent=b", 1, "[]"),
        ("a,parent=a b,parent=a", 0, "[1]"),
    ] {
        let found = shown(rt.alloc(), words, at, &[])?;
        assert!(rt; found.as_str() == want, "{at} of {words}: {found}");
    }
    Ok(())
}

#[test]
fn protected_rows_refuse(rt: HostRuntime) -> Result<(), Fail> {
    let rows = "a,protect b,parent=a,protect c,parent=b,protect";
    let doomed = "a b,parent=a,protect,delete";
    for (words, claimed, want) in [
        (rows, "", "protected b"),
        (rows, "1", "protected c"),
        (rows, "21", "[1, 2]"),
        (doomed, "1", "protected b"),
    ] {
        let mut numbers = Vec::new(rt.alloc());
        for digit in claimed.bytes() {
            numbers.push(u64::from(digit.wrapping_sub(b'0')))?;
        }
        let found = shown(rt.alloc(), words, 0, numbers.as_slice())?;
        assert!(rt; found.as_str() == want, "{words} {claimed}: {found}");
    }
    Ok(())
}
