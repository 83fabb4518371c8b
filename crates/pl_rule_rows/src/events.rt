use pl_events::{Ask, Event, History, Stop, What};
use pl_value::{Fields, Text};
use std::alloc::Global;
use std::test::Fail;

fn deletion(alloc: Global) -> Result<Ask, Fail> {
    let urn = pl_urn::parse(alloc, "urn:pulumi:dev::web::aws:s3:Bucket::b")?;
    let id = Text::from_str(alloc, "b-7")?;
    Ok(Ask::Delete {
        urn,
        id,
        inputs: Fields::new(alloc),
        outputs: Fields::new(alloc),
    })
}

fn shown(alloc: Global, ask: &Ask) -> Result<String, Fail> {
    Ok(format!(in alloc; "{ask:?}")?)
}

fn shown_copy(alloc: Global, ask: &Ask) -> Result<String, Fail> {
    let copied = ask.copy(alloc)?;
    shown(alloc, &copied)
}

fn is_copied(alloc: Global, ask: &Ask, part: &str) -> Result<bool, Fail> {
    let text = shown(alloc, ask)?;
    Ok(text.contains(part) && shown_copy(alloc, ask)? == text)
}

#[test]
fn asks_are_copied(rt: HostRuntime) -> Result<(), Fail> {
    let alloc = rt.alloc();
    let ask = deletion(alloc)?;
    assert!(rt; is_copied(alloc, &ask, "aws:s3:Bucket::b")?);
    Ok(())
}

fn stop_event() -> Event {
    Event {
        seat: 0,
        what: What::Stopped(Stop::StoreFault),
    }
}

fn append(history: &mut History, seat: u64, what: What) -> Result<(), Fail> {
    history
        .push(Event { seat, what })
        .map_err(|refused| Fail::from(refused.1))
}

#[test]
fn histories_are_copied(rt: HostRuntime) -> Result<(), Fail> {
    let alloc = rt.alloc();
    let mut history = History::new(alloc);
    history.reserve(2)?;
    history.push_reserved(stop_event());
    append(&mut history, 0, What::Posted { n: 5 })?;
    append(&mut history, 1, What::Dropped { row: 6 })?;
    let copied = history.copy(alloc)?;
    assert!(rt; copied.len() == 3 && copied.room() == 1);
    assert!(rt; format!(in alloc; "{copied:?}")? == format!(in alloc; "{history:?}")?);
    Ok(())
}
