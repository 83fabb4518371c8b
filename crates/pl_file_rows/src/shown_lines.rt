use pl_decide::Outcome;
use pl_show::{print, resource_lines, sound_line, stopped};
use pl_state::{BadCheckpoint, Entry, Snapshot};
use pl_urn::{Urn, parse};
use pl_value::{JsonFault, OutOfMemory, Text};
use pl_world::{MemSink, Trouble};
use std::alloc::{AllocError, Global};
use std::test::Fail;

fn text(alloc: Global, text: &str) -> Result<Text, OutOfMemory> {
    Text::from_str(alloc, text)
}

// What was printed, with a stroke for each newline.
fn shown(alloc: Global, line: &Text) -> Result<String, AllocError> {
    line.as_str().replace(alloc, "\n", "|")
}

fn state(alloc: Global, names: &[&str]) -> Result<Snapshot, Fail> {
    let mut state = Snapshot::new(alloc, text(alloc, "dev")?)?;
    for name in names {
        let urn = format!(in alloc; "urn:pulumi:dev::web::my:index:Site::{name}")?;
        let urn: Urn = parse(alloc, urn.as_str())?;
        let kind = text(alloc, "my:index:Site")?;
        state
            .entries
            .push(Entry::component(alloc, urn, kind, None)?)?;
    }
    Ok(state)
}

// The lines of `list` and of `check` for a state of these components.
fn lines_of(alloc: Global, names: &[&str]) -> Result<String, Fail> {
    let state = state(alloc, names)?;
    let list = shown(alloc, &resource_lines(alloc, state.entries.as_slice())?)?;
    let sound = shown(alloc, &sound_line(alloc, &state)?)?;
    Ok(format!(in alloc; "{list}{sound}")?)
}

#[test]
fn states_are_listed_and_counted(rt: HostRuntime) -> Result<(), Fail> {
    let empty = lines_of(rt.alloc(), &[])?;
    assert_eq!(rt; empty.as_str(), "sound: 0 resources, 0 pending|");
    let two = lines_of(rt.alloc(), &["a", "b"])?;
    assert_eq!(rt;
        two.as_str(),
        "urn:pulumi:dev::web::my:index:Site::a|urn:pulumi:dev::web::my:index:Site::b|sound: 2 resources, 0 pending|"
    );
    Ok(())
}

fn path(alloc: Global) -> Result<Text, OutOfMemory> {
    text(alloc, "latest.resources[0].inputs.s")
}

fn bad(why: BadCheckpoint) -> Outcome {
    Outcome::BadCheckpoint(why)
}

fn line_of(alloc: Global, outcome: &Outcome) -> Result<String, Fail> {
    Ok(shown(alloc, &stopped(alloc, outcome)?)?)
}

#[test]
fn stops_are_told(rt: HostRuntime) -> Result<(), Fail> {
    let alloc = rt.alloc();
    let field = path(alloc)?;
    let value = path(alloc)?;
    let cases = [
        (Outcome::StoreFault, "stopped: StoreFault|"),
        (Outcome::BadWords { place: 12 }, "stopped: BadWords 12|"),
        (
            Outcome::PendingOperations(3),
            "stopped: PendingOperations 3|",
        ),
        (
            bad(BadCheckpoint::NotJson),
            "stopped: BadCheckpoint NotJson|",
        ),
        (
            bad(BadCheckpoint::TooMany(10001)),
            "stopped: BadCheckpoint TooMany|",
        ),
        (
            bad(BadCheckpoint::MissingField(field)),
            "stopped: BadCheckpoint MissingField latest.resources[0].inputs.s|",
        ),
        (
            bad(BadCheckpoint::BadValue(JsonFault::SecretSealed(value))),
            "stopped: BadCheckpoint SecretSealed latest.resources[0].inputs.s|",
        ),
    ];
    for (outcome, want) in &cases {
        assert_eq!(rt; line_of(alloc, outcome)?.as_str(), *want);
    }
    Ok(())
}

// The sink's writes are cut into ones, and its third call may fail.
fn printed(alloc: Global, fails: Vec<u64>) -> Result<(Result<(), Trouble>, MemSink), Fail> {
    let chunks = vec![in alloc; 1usize]?;
    let mut sink = MemSink::new(alloc, chunks, fails);
    let answer = print(alloc, &mut sink, b"lines");
    Ok((answer, sink))
}

#[test]
fn lines_are_printed_however_they_are_cut(rt: HostRuntime) -> Result<(), Fail> {
    let alloc = rt.alloc();
    let (answer, sink) = printed(alloc, Vec::new(alloc))?;
    assert!(rt; answer.is_ok());
    assert_eq!(rt; sink.written(), b"lines".as_slice());
    let (answer, sink) = printed(alloc, vec![in alloc; 2u64]?)?;
    assert!(rt; matches!(answer, Err(Trouble::Failed)));
    assert_eq!(rt; sink.written(), b"li".as_slice());
    Ok(())
}
