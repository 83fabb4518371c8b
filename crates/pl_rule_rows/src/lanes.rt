use pl_events::Source;
use pl_reference::ProviderWords;
use pl_registry::LaneTable;
use pl_value::{OutOfMemory, Text, Words};
use std::alloc::Global;
use std::test::Fail;

// A table without a lane, with words for the package `a`.
fn table(alloc: Global) -> Result<LaneTable, OutOfMemory> {
    let mut words = Words::new(alloc);
    words.push(Text::from_str(alloc, "toy")?)?;
    let mut commands = ProviderWords::new(alloc);
    commands.add(Text::from_str(alloc, "a")?, words)?;
    Ok(LaneTable::new(alloc, 2, commands))
}

fn first_word(words: &Words) -> &str {
    match words.get(0) {
        Some(word) => word.as_str(),
        None => "",
    }
}

#[test]
fn lanes_are_added(rt: HostRuntime) -> Result<(), Fail> {
    let mut table = table(rt.alloc())?;
    assert!(rt; table.add(Source::Goal(1))? == 0);
    assert!(rt; table.add(Source::Row(1))? == 1);
    Ok(())
}

#[test]
fn words_are_found(rt: HostRuntime) -> Result<(), Fail> {
    let table = table(rt.alloc())?;
    for (provided, want) in [("a", "toy"), ("b", "pulumi-resource-b")] {
        let words = table.lane_words(rt.alloc(), provided)?;
        assert!(rt;
            words.len() == 1 && first_word(&words) == want,
            "at {provided}"
        );
    }
    Ok(())
}
