use pl_decide::Outcome;
use pl_engine::{Finished, World, engine};
use pl_value::Bytes;
use pl_world::{CountIds, FreeGate, MemSink, MemSpawner, MemStore, PipeScript};
use std::alloc::{AllocError, Global};
use std::sync::Wait;
use std::test::Fail;
use std::thread::Threads;

type Memory = World<MemStore, MemStore, MemSpawner, MemSink, CountIds, FreeGate>;

type Ended = Finished<MemStore, MemStore, MemSpawner, MemSink, CountIds, FreeGate>;

const STACK: &str =
    r#"{"call":"register","custom":false,"n":1,"name":"web-dev","type":"pulumi:pulumi:Stack"}"#;

const DONE: &str = r#"{"call":"done"}"#;

const EMPTY: &str = "";

const FIRST: &str =
    r#"{"checkpoint":{"latest":{"manifest":{},"pending_operations":[],"resources":[{"custom":false,"type":"pulumi:pulumi:Stack","urn":"urn:pulumi:dev::web::pulumi:pulumi:Stack::web-dev"}]},"stack":"dev"},"version":3}"#;

const SECOND: &str =
    r#"{"checkpoint":{"latest":{"manifest":{},"pending_operations":[],"resources":[{"custom":false,"type":"pulumi:pulumi:Stack","urn":"urn:pulumi:dev::web::pulumi:pulumi:Stack::web-dev"},{"custom":false,"parent":"urn:pulumi:dev::web::pulumi:pulumi:Stack::web-dev","type":"my:index:Site","urn":"urn:pulumi:dev::web::my:index:Site::s"}]},"stack":"dev"},"version":3}"#;

/// What the host is given where it registers two components.
const ANSWERS: &str =
    "\0\0\0\x55{\"n\":1,\"ok\":{\"outputs\":{},\"urn\":\"urn:pulumi:dev::web::pulumi:pulumi:Stack::web-dev\"}}\0\0\0\x49{\"n\":2,\"ok\":{\"outputs\":{},\"urn\":\"urn:pulumi:dev::web::my:index:Site::s\"}}";

/// A state without resources, with unread fields and another name.
const NOTHING: &str =
    r#"{"checkpoint":{"latest":{"manifest":{"time":"t"},"secrets_providers":{"type":"p"}},"stack":"prod"},"version":3}"#;

/// The same after the stack's own component was registered.
const NAMED: &str =
    r#"{"checkpoint":{"latest":{"manifest":{"time":"t"},"pending_operations":[],"resources":[{"custom":false,"type":"pulumi:pulumi:Stack","urn":"urn:pulumi:dev::web::pulumi:pulumi:Stack::web-dev"}],"secrets_providers":{"type":"p"}},"stack":"prod"},"version":3}"#;

/// A state with a pending operation.
const WAITING: &str =
    r#"{"checkpoint":{"latest":{"pending_operations":[{"resource":{"custom":true,"type":"toy:index:Thing","urn":"urn:pulumi:dev::web::toy:index:Thing::a"},"type":"creating"}],"resources":[{"type":"pulumi:pulumi:Stack","urn":"urn:pulumi:dev::web::pulumi:pulumi:Stack::web-dev"}]},"stack":"dev"},"version":3}"#;

/// A state whose component stands before its parent.
const CHILD_FIRST: &str =
    r#"{"checkpoint":{"latest":{"resources":[{"parent":"urn:pulumi:dev::web::pulumi:pulumi:Stack::web-dev","type":"my:index:Site","urn":"urn:pulumi:dev::web::my:index:Site::s"},{"type":"pulumi:pulumi:Stack","urn":"urn:pulumi:dev::web::pulumi:pulumi:Stack::web-dev"}]},"stack":"dev"},"version":3}"#;

const UP: &str = "up --stack dev --project web -- h";

/// Two components and the word of success, a message a line.
const TWO: &str =
    r#"{"call":"register","custom":false,"n":1,"name":"web-dev","type":"pulumi:pulumi:Stack"}
{"call":"register","n":2,"name":"s","parent":"urn:pulumi:dev::web::pulumi:pulumi:Stack::web-dev","type":"my:index:Site"}
{"call":"done"}"#;

/// The stack's own component and the word of success.
const ONE: &str =
    r#"{"call":"register","custom":false,"n":1,"name":"web-dev","type":"pulumi:pulumi:Stack"}
{"call":"done"}"#;

/// What a world in memory is to do.
#[derive(Drop)]
struct Script<'a> {
    /// The words, with blanks between them.
    words: &'a str,
    /// The host's messages, a line each.
    messages: &'a str,
    /// How many of the host's bytes come before its output ends; all where there are fewer.
    cut: usize,
    /// The size at which reads and writes are cut; 0 for none.
    chunk: usize,
    /// What the store has at the start; nothing where this is empty.
    content: &'a str,
    /// The part of the world that fails, with the number of its call; `late` is a store to which the bytes come all the same.
    fails: &'a str,
}

/// A world in which nothing fails.
fn plain<'a>(words: &'a str, messages: &'a str, content: &'a str) -> Script<'a> {
    Script {
        words,
        messages,
        cut: usize::MAX,
        chunk: 0,
        content,
        fails: EMPTY,
    }
}

/// The frames of the messages, up to the cut.
fn input_of(alloc: Global, script: &Script<'_>) -> Result<Vec<u8>, AllocError> {
    let mut input = Vec::new(alloc);
    for message in script.messages.split('\n') {
        let bytes = message.as_bytes();
        if bytes.len() < 1000 {
            input.extend_from_slice(&(bytes.len() as u32).to_be_bytes())?;
            input.extend_from_slice(bytes)?;
        }
    }
    input.truncate(script.cut);
    Ok(input)
}

/// The calls of this part that fail.
fn fails_of(alloc: Global, script: &Script<'_>, part: &str) -> Result<Vec<u64>, AllocError> {
    let mut calls = Vec::new(alloc);
    if let Some((name, call)) = script.fails.split_once(' ') {
        if name == part {
            calls.push(call.parse::<u64>().unwrap_or(0))?;
        }
    }
    Ok(calls)
}

/// A half of the host's pipe, of which this part fails.
fn pipe_of(
    alloc: Global,
    script: &Script<'_>,
    input: Vec<u8>,
    part: &str,
) -> Result<PipeScript, AllocError> {
    let mut chunks = Vec::new(alloc);
    if script.chunk > 0 {
        chunks.push(script.chunk)?;
    }
    Ok(PipeScript {
        input,
        chunks,
        fails: fails_of(alloc, script, part)?,
    })
}

/// The store at the start.
fn store_of(alloc: Global, script: &Script<'_>) -> Result<MemStore, AllocError> {
    let mut story = Vec::new(alloc);
    if !script.content.is_empty() {
        story.push(Bytes::from_vec(script.content.as_bytes().to_vec(alloc)?))?;
    }
    let arrives = fails_of(alloc, script, "late")?;
    let mut fails = fails_of(alloc, script, "store")?;
    fails.extend_from_slice(arrives.as_slice())?;
    Ok(MemStore::new(story, fails, arrives))
}

/// The two halves of the host's pipe.
fn spawner_of(alloc: Global, script: &Script<'_>) -> Result<MemSpawner, AllocError> {
    let mut pipes = Vec::new(alloc);
    let input = input_of(alloc, script)?;
    pipes.push(pipe_of(alloc, script, input, "reading")?)?;
    pipes.push(pipe_of(alloc, script, Vec::new(alloc), "writing")?)?;
    let fails = fails_of(alloc, script, "start")?;
    Ok(MemSpawner::new(alloc, pipes, fails))
}

fn world_of(alloc: Global, script: &Script<'_>) -> Result<Memory, AllocError> {
    let store = store_of(alloc, script)?;
    let spawner = spawner_of(alloc, script)?;
    let fails = fails_of(alloc, script, "sink")?;
    Ok(World {
        store,
        side: MemStore::new(Vec::new(alloc), Vec::new(alloc), Vec::new(alloc)),
        spawner,
        sink: MemSink::new(alloc, Vec::new(alloc), fails),
        ids: CountIds::new(),
        gate: FreeGate,
    })
}

fn words_of(alloc: Global, line: &str) -> Result<Vec<String>, AllocError> {
    let mut words = Vec::new(alloc);
    if !line.is_empty() {
        for word in line.split(' ') {
            words.push(String::from_str(alloc, word)?)?;
        }
    }
    Ok(words)
}

/// Runs the engine over the script's world.
fn run<R: Threads + Wait + Sync>(
    rt: &R,
    alloc: Global,
    script: &Script<'_>,
) -> Result<Ended, AllocError> {
    let words = words_of(alloc, script.words)?;
    let world = world_of(alloc, script)?;
    Ok(engine(rt, alloc, words.as_slice(), world))
}

/// The name of a saved text; `same` for the one at the start.
fn name_of(script: &Script<'_>, text: &[u8]) -> &'static str {
    if text == script.content.as_bytes() {
        "same"
    } else if text == FIRST.as_bytes() {
        "first"
    } else if text == SECOND.as_bytes() {
        "second"
    } else if text == NAMED.as_bytes() {
        "named"
    } else {
        "other"
    }
}

/// The names of all saved texts, the one at the start before them.
fn saves_of(alloc: Global, script: &Script<'_>, story: &[Bytes]) -> Result<String, AllocError> {
    let mut names = String::new(alloc);
    for text in story {
        names.push(' ')?;
        names.push_str(name_of(script, text.as_slice()))?;
    }
    Ok(names)
}

/// The place of bad words, or the bytes of a bad frame.
fn refused(alloc: Global, outcome: &Outcome) -> Result<String, AllocError> {
    match outcome {
        Outcome::BadWords { place } => format!(in alloc; "{place}"),
        Outcome::BadFrame { bytes, .. } => {
            String::from_str(alloc, str::from_utf8(bytes.as_slice()).unwrap_or("no text"))
        }
        _ => Ok(String::new(alloc)),
    }
}

/// The status, the names of the saves, and behind strokes what was printed, each line up to a `/`, and what was refused.
fn told(alloc: Global, script: &Script<'_>, ended: &Ended) -> Result<String, AllocError> {
    let saves = saves_of(alloc, script, ended.world.store.story())?;
    let printed = str::from_utf8(ended.world.sink.written()).unwrap_or("no text");
    let refused = refused(alloc, &ended.outcome)?;
    let lines = printed.replace(alloc, "\n", "/")?;
    format!(in alloc; "{}:{saves}|{lines}|{refused}", ended.status)
}

/// What is told of the script's run.
fn seen<R: Threads + Wait + Sync>(
    rt: &R,
    alloc: Global,
    script: &Script<'_>,
) -> Result<String, AllocError> {
    let ended = run(rt, alloc, script)?;
    told(alloc, script, &ended)
}

fn is_seen<R: Threads + Wait + Sync>(
    rt: &R,
    alloc: Global,
    script: &Script<'_>,
    want: &str,
) -> Result<bool, AllocError> {
    let found = seen(rt, alloc, script)?;
    Ok(found.as_str() == want)
}

/// The bytes that the host was given.
fn given(alloc: Global, ended: &Ended) -> Result<Vec<u8>, AllocError> {
    match &ended.run.host {
        Some((_, writing)) => match writing.given_bytes(alloc) {
            Ok(bytes) => Ok(bytes.into_vec()),
            Err(_) => Err(AllocError),
        },
        None => Ok(Vec::new(alloc)),
    }
}

/// What the host is given where it registers two components.
fn answers<R: Threads + Wait + Sync>(rt: &R, alloc: Global) -> Result<Vec<u8>, AllocError> {
    let ended = run(rt, alloc, &plain(UP, TWO, EMPTY))?;
    given(alloc, &ended)
}

/// What is told when the host's bytes end here.
fn wanted_at(cut: usize) -> &'static str {
    if cut < 90 {
        "6:||"
    } else if cut < 90 + 124 {
        "6: first||"
    } else {
        "6: first second||"
    }
}

/// Whether a run whose host's output ends here is told as it should be.
fn is_cut_so<R: Threads + Wait + Sync>(
    rt: &R,
    alloc: Global,
    cut: usize,
) -> Result<bool, AllocError> {
    let mut script = plain(UP, TWO, EMPTY);
    script.cut = cut;
    script.chunk = cut % 7;
    is_seen(rt, alloc, &script, wanted_at(cut))
}

/// Calls that fail where two components are registered, and what is told then.
const FAILURES: &str = r#"start 0 => 5:||
store 0 => 5:||
store 1 => 5:||
store 2 => 5: first||
late 2 => 5: first second||
reading 0 => 5:||
reading 1 => 5:||
reading 2 => 5: first||
reading 3 => 5: first||
reading 4 => 5: first second||
reading 5 => 5: first second||
writing 0 => 5: first||
writing 1 => 5: first||
writing 2 => 5: first second||
writing 3 => 5: first second||"#;

/// What stands before the first arrow of a line and what stands behind it.
fn cells(line: &str) -> (&str, &str) {
    match line.split_once(" => ") {
        Some(cells) => cells,
        None => (line, ""),
    }
}

fn fails_so<R: Threads + Wait + Sync>(
    rt: &R,
    alloc: Global,
    line: &str,
) -> Result<bool, AllocError> {
    let (fails, want) = cells(line);
    let mut script = plain(UP, TWO, EMPTY);
    script.fails = fails;
    is_seen(rt, alloc, &script, want)
}

/// Whether a `state` over two components where this fails is told so.
fn state_fails_so<R: Threads + Wait + Sync>(
    rt: &R,
    alloc: Global,
    fails: &str,
    want: &str,
) -> Result<bool, AllocError> {
    let mut script = plain("state list", EMPTY, SECOND);
    script.fails = fails;
    is_seen(rt, alloc, &script, want)
}

/// Words, the name of the messages, the name of what the store has, and what is told of a run in which nothing fails. A run
/// begins over no resources alone, and keeps their name and unread fields; `state` tells what there is, or why there is no
/// state.
const RUNS: &str = r#"up --stack dev --project web -- h => done => nothing => 0:||
up --stack dev --project web -- h => two => nothing => 0: first second||
up --stack dev --project web -- h => one => no resources => 0: same named||
up --stack dev --project web -- h => two => first => 3: same||
up --stack dev --project web -- h => two => {} => 3: same||
up --stack dev --project web -- h => two => waiting => 4: same||
 => done => nothing => 2:||0
up --stack => done => nothing => 2:||1
up --stack dev -- h => done => nothing => 2:||3
list => none => second => 2: same||0
state => none => second => 2: same|stopped: BadWords 1/|1
state list -- h => none => second => 2: same|stopped: BadWords 2/|2
state list => none => nothing => 0:||
state check => none => nothing => 0:|sound: 0 resources, 0 pending/|
state list => none => second => 0: same|urn:pulumi:dev::web::pulumi:pulumi:Stack::web-dev/urn:pulumi:dev::web::my:index:Site::s/|
state check => none => second => 0: same|sound: 2 resources, 0 pending/|
state check => none => waiting => 0: same|sound: 1 resources, 1 pending/|
state list => none => x => 3: same|stopped: BadCheckpoint NotJson/|
state list => none => {} => 3: same|stopped: BadCheckpoint MissingField version/|
state check => none => child first => 3: same|stopped: BadCheckpoint Unsound/|"#;

/// The text of this name; a name that is none is the text itself.
fn text_of<'a>(name: &'a str) -> &'a str {
    match name {
        "done" => DONE,
        "one" => ONE,
        "two" => TWO,
        "none" | "nothing" => EMPTY,
        "no resources" => NOTHING,
        "first" => FIRST,
        "second" => SECOND,
        "waiting" => WAITING,
        "child first" => CHILD_FIRST,
        text => text,
    }
}

fn runs_so<R: Threads + Wait + Sync>(
    rt: &R,
    alloc: Global,
    line: &str,
) -> Result<bool, AllocError> {
    let (words, rest) = cells(line);
    let (messages, rest) = cells(rest);
    let (content, want) = cells(rest);
    let script = plain(words, text_of(messages), text_of(content));
    is_seen(rt, alloc, &script, want)
}

/// The text of the bucket of this number, with fields that the engine doesn't read.
fn bucket(alloc: Global, number: usize) -> Result<String, AllocError> {
    let secret =
        r#"{"4dabf18193072939515e22adb298388d":"1b47061264138c4ac30d75fd1eb44270","plaintext":"1"}"#;
    let mut text = String::from_str(
        alloc,
        r#",{"created":"2024-05-01T10:00:00Z","custom":true,"dependencies":[],"initErrors":[],"#,
    )?;
    text.push_str(
        r#""parent":"urn:pulumi:dev::web::pulumi:pulumi:Stack::web-dev","propertyDependencies":{"bucket":null},"#,
    )?;
    text.push_str(
        r#""provider":"urn:pulumi:dev::web::pulumi:providers:aws::default_6_0_0::00000000-0000-4000-8000-000000000001","#,
    )?;
    let own = format!(in alloc;
        r#""id":"b{number}","urn":"urn:pulumi:dev::web::aws:s3/bucket:Bucket::b{number}","#
    )?;
    text.push_str(own.as_str())?;
    let values = format!(in alloc;
        r#""inputs":{{"__defaults":[],"bucket":"b{number}","key":{secret}}},"outputs":{{"bucket":"b{number}"}},"#
    )?;
    text.push_str(values.as_str())?;
    text.push_str(r#""modified":"2024-05-01T10:00:00Z","type":"aws:s3/bucket:Bucket"}"#)?;
    Ok(text)
}

/// The text of a state as Pulumi leaves it: a stack, a default provider, and ten buckets with secrets.
fn realistic_state(alloc: Global) -> Result<String, AllocError> {
    let mut text = String::from_str(
        alloc,
        r#"{"version":3,"checkpoint":{"stack":"dev","latest":{"manifest":{"magic":"m","time":"2024-05-01T10:00:00Z","version":"v3.115.0"},"secrets_providers":{"type":"passphrase"},"resources":["#,
    )?;
    text.push_str(
        r#"{"custom":false,"type":"pulumi:pulumi:Stack","urn":"urn:pulumi:dev::web::pulumi:pulumi:Stack::web-dev"},"#,
    )?;
    text.push_str(
        r#"{"created":"2024-05-01T10:00:00Z","custom":true,"id":"00000000-0000-4000-8000-000000000001","inputs":{"region":"eu-west-1","version":"6.0.0"},"#,
    )?;
    text.push_str(
        r#""modified":"2024-05-01T10:00:00Z","outputs":{"region":"eu-west-1","version":"6.0.0"},"parent":"","type":"pulumi:providers:aws","urn":"urn:pulumi:dev::web::pulumi:providers:aws::default_6_0_0"}"#,
    )?;
    for number in 0..10usize {
        let bucket = bucket(alloc, number)?;
        text.push_str(bucket.as_str())?;
    }
    text.push_str("]}}}")?;
    Ok(text)
}

/// Whether the realistic state is sound.
fn checks_realistic<R: Threads + Wait + Sync>(rt: &R, alloc: Global) -> Result<bool, AllocError> {
    let state = realistic_state(alloc)?;
    let script = plain("state check", EMPTY, state.as_str());
    is_seen(
        rt,
        alloc,
        &script,
        "0: same|sound: 12 resources, 0 pending/|",
    )
}

/// Messages that may not stand behind the registration of the stack's own component.
const BAD_MESSAGES: &str = r#"x
{}
{"call":"delete"}
{"call":"register","n":1,"name":"s","type":"my:index:Site"}
{"call":"register","n":2,"name":"web-dev","type":"pulumi:pulumi:Stack"}
{"call":"register","n":2,"name":"s","parent":"urn:none","type":"my:index:Site"}
{"call":"register","n":2,"name":"s","type":"pulumi:providers:aws"}
{"call":"register","custom":true,"n":2,"name":"s","type":"my:index:Site"}"#;

/// Whether the message ends the run as a bad frame with its bytes, and the save before it is left.
fn is_bad_frame<R: Threads + Wait + Sync>(
    rt: &R,
    alloc: Global,
    message: &str,
) -> Result<bool, AllocError> {
    let messages = format!(in alloc; "{STACK}\n{message}\n{DONE}")?;
    let want = format!(in alloc; "6: first||{message}")?;
    is_seen(
        rt,
        alloc,
        &plain(UP, messages.as_str(), EMPTY),
        want.as_str(),
    )
}

#[test]
fn components_are_served(rt: HostRuntime) -> Result<(), Fail> {
    for line in RUNS.split('\n') {
        assert!(rt; runs_so(&rt, rt.alloc(), line)?, "{line}");
    }
    let answers = answers(&rt, rt.alloc())?;
    assert!(rt; answers.as_slice() == ANSWERS.as_bytes(), "the answers");
    Ok(())
}

#[test]
fn host_bytes_are_cut_anywhere(rt: HostRuntime) -> Result<(), Fail> {
    for cut in 0..233usize {
        assert!(rt; is_cut_so(&rt, rt.alloc(), cut)?, "{cut}");
    }
    Ok(())
}

#[test]
fn calls_fail_in_turn(rt: HostRuntime) -> Result<(), Fail> {
    for line in FAILURES.split('\n') {
        assert!(rt; fails_so(&rt, rt.alloc(), line)?, "{line}");
    }
    let store = state_fails_so(&rt, rt.alloc(), "store 0", "5: same|stopped: StoreFault/|")?;
    assert!(rt; store, "the store");
    let sink = state_fails_so(&rt, rt.alloc(), "sink 0", "5: same||")?;
    assert!(rt; sink, "the sink");
    Ok(())
}

#[test]
fn bad_messages_lose_nothing(rt: HostRuntime) -> Result<(), Fail> {
    for message in BAD_MESSAGES.split('\n') {
        assert!(rt; is_bad_frame(&rt, rt.alloc(), message)?, "{message}");
    }
    Ok(())
}

#[test]
fn realistic_states_are_sound(rt: HostRuntime) -> Result<(), Fail> {
    assert!(rt; checks_realistic(&rt, rt.alloc())?, "a realistic state");
    Ok(())
}
