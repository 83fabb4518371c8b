use pl_events::{Answer, Ask, Call, Exchanged, Reply};
use pl_host_msg::answer_bytes;
use pl_members::{json_of, pairs_of, request_number, str_in};
use pl_program::host;
use pl_provider_msg::request_bytes;
use pl_toy::{MemShelf, Shelf};
use pl_toy_pipe::{ToyPipe, toy_pipe};
use pl_urn::{Urn, parse};
use pl_value::{Bytes, Fields, Text};
use pl_wire::exchange;
use pl_world::{MemCover, MemPipe, PipeScript, read_frame};
use serde_json::Value;
use std::alloc::Global;
use std::test::Fail;

/// The file of a program whose second thing depends on its first.
const PROGRAM: &str =
    r#"{"resources":[{"name":"a","type":"toy:index:Thing","inputs":{"k":1}},{"name":"b","type":"toy:index:Thing","inputs":{"of":"${a.id}","x":"${a.k}"}}],"outputs":{"o":"${b.x}"}}"#;

/// What comes of it, line by line: the bodies of the host's frames behind `> `, those of the answers behind `< `, the host's
/// status behind `= `, and the things that stand on the shelf then.
const RUN: &str =
    r#"> {"call":"register","custom":false,"n":1,"name":"web-dev","type":"pulumi:pulumi:Stack"}
< {"n":1,"ok":{"outputs":{},"urn":"urn:pulumi:dev::web::pulumi:pulumi:Stack::web-dev"}}
> {"call":"register","custom":true,"inputs":{"k":1},"n":2,"name":"a","parent":"urn:pulumi:dev::web::pulumi:pulumi:Stack::web-dev","type":"toy:index:Thing"}
< {"n":2,"ok":{"id":"a-1","outputs":{"k":1},"urn":"urn:pulumi:dev::web::toy:index:Thing::a"}}
> {"call":"register","custom":true,"dependencies":["urn:pulumi:dev::web::toy:index:Thing::a"],"inputs":{"of":"a-1","x":1},"n":3,"name":"b","parent":"urn:pulumi:dev::web::pulumi:pulumi:Stack::web-dev","propertyDependencies":{"of":["urn:pulumi:dev::web::toy:index:Thing::a"],"x":["urn:pulumi:dev::web::toy:index:Thing::a"]},"type":"toy:index:Thing"}
< {"n":3,"ok":{"id":"b-1","outputs":{"of":"a-1","x":1},"urn":"urn:pulumi:dev::web::toy:index:Thing::b"}}
> {"call":"outputs","n":4,"outputs":{"o":1},"urn":"urn:pulumi:dev::web::pulumi:pulumi:Stack::web-dev"}
< {"n":4,"ok":{}}
> {"call":"done"}
= 0
a-1 {"k":1}
b-1 {"of":"a-1","x":1}
2 things
"#;

type Toy = ToyPipe<MemShelf, MemCover>;

/// What the toy replies to one call, if it does.
fn reply(alloc: Global, toy: &mut Toy, ticket: u64, call: Call, ask: &Ask) -> Option<Reply> {
    let body = request_bytes(alloc, ticket, ask).ok()?;
    match exchange(alloc, toy, None, ticket, call, body.as_slice()) {
        Exchanged::Reply(reply) => Some(reply),
        Exchanged::Lost(_) => None,
    }
}

/// A thing's inputs as the toy has checked them.
fn checked(alloc: Global, toy: &mut Toy, ticket: u64, urn: Urn, inputs: Fields) -> Option<Fields> {
    let ask = Ask::Check {
        urn,
        inputs,
        old: None,
    };
    match reply(alloc, toy, ticket, Call::Check, &ask)? {
        Reply::Checked(inputs) => Some(inputs),
        _ => None,
    }
}

/// The id and the outputs of a thing that the toy has made.
fn created(
    alloc: Global,
    toy: &mut Toy,
    ticket: u64,
    urn: Urn,
    inputs: Fields,
) -> Option<(Text, Fields)> {
    let ask = Ask::Create { urn, inputs };
    match reply(alloc, toy, ticket, Call::Create, &ask)? {
        Reply::Made { id, outputs } => Some((id, outputs)),
        _ => None,
    }
}

/// Has the toy check the inputs of a thing and make it.
fn made(alloc: Global, toy: &mut Toy, n: u64, urn: Urn, inputs: Fields) -> Option<Answer> {
    let ticket = n.saturating_mul(2);
    let inputs = checked(alloc, toy, ticket, urn.copy().ok()?, inputs)?;
    let (id, outputs) = created(
        alloc,
        toy,
        ticket.saturating_add(1),
        urn.copy().ok()?,
        inputs,
    )?;
    Some(Answer::Registered {
        urn,
        id: Some(id),
        outputs,
    })
}

/// The URN of what is registered.
fn urn_of(alloc: Global, told: &Value) -> Option<Urn> {
    let (kind, name) = (str_in(told, "type")?, str_in(told, "name")?);
    let text = format!(in alloc; "urn:pulumi:dev::web::{kind}::{name}").ok()?;
    parse(alloc, text.as_str()).ok()
}

fn inputs_of(alloc: Global, told: &Value) -> Option<Fields> {
    match told.get("inputs") {
        Some(inputs) => pairs_of(alloc, inputs).ok(),
        None => Some(Fields::new(alloc)),
    }
}

/// The answer to a registration.
fn registered(alloc: Global, toy: &mut Toy, n: u64, told: &Value) -> Option<Answer> {
    let urn = urn_of(alloc, told)?;
    let inputs = inputs_of(alloc, told)?;
    match told.get("custom") {
        Some(Value::Bool(true)) => made(alloc, toy, n, urn, inputs),
        _ => Some(Answer::Registered {
            urn,
            id: None,
            outputs: inputs,
        }),
    }
}

/// The answer to a request of the host.
fn answer_to(alloc: Global, toy: &mut Toy, n: u64, told: &Value) -> Option<Answer> {
    match str_in(told, "call")? {
        "register" => registered(alloc, toy, n, told),
        _ => Some(Answer::Noted),
    }
}

/// The body of the answer to the body of a host's frame, if that is a request.
fn answered(alloc: Global, toy: &mut Toy, body: &[u8]) -> Option<Bytes> {
    let told = json_of(alloc, body).ok()?;
    let n = request_number(&told, "n")?;
    let answer = answer_to(alloc, toy, n, &told)?;
    answer_bytes(alloc, n, &answer).ok()
}

/// A run of the program under an engine that answers each request before the host goes on.
#[derive(Drop)]
struct Run {
    toy: Toy,
    /// The frames of the answers so far.
    answers: Vec<u8>,
    /// How many of the bytes of the host's frames were read.
    read: usize,
    lines: String,
}

/// Adds a line: a sign and a text.
fn add_line(alloc: Global, lines: &mut String, sign: &str, bytes: &[u8]) -> Result<(), Fail> {
    let text = String::from_utf8(bytes.to_vec(alloc)?)?;
    lines.push_str(sign)?;
    lines.push_str(text.as_str())?;
    lines.push('\n')?;
    Ok(())
}

/// Takes up a frame of the host, and answers it if it is a request.
fn take_up(alloc: Global, run: &mut Run, body: &[u8]) -> Result<(), Fail> {
    add_line(alloc, &mut run.lines, "> ", body)?;
    let Some(answer) = answered(alloc, &mut run.toy, body) else {
        return Ok(());
    };
    add_line(alloc, &mut run.lines, "< ", answer.as_slice())?;
    let length = u32::try_from(answer.len()).unwrap_or(u32::MAX);
    run.answers.extend_from_slice(&length.to_be_bytes())?;
    run.answers.extend_from_slice(answer.as_slice())?;
    Ok(())
}

fn pipe_of(alloc: Global, input: &[u8]) -> Result<MemPipe, Fail> {
    let mut script = PipeScript::empty(alloc);
    script.input.extend_from_slice(input)?;
    Ok(MemPipe::new(alloc, script))
}

/// The status of the host over these answers, and all that it gives.
fn hosted(alloc: Global, answers: &[u8]) -> Result<(u8, Bytes), Fail> {
    let (mut coming, mut going) = (pipe_of(alloc, answers)?, pipe_of(alloc, &[])?);
    let program = PROGRAM.as_bytes();
    let status = host(alloc, program, "dev", "web", false, &mut coming, &mut going);
    Ok((status, going.given_bytes(alloc)?))
}

/// Runs the host from its beginning over the answers so far, and answers the requests that are new; the host's status.
fn go_on(alloc: Global, run: &mut Run) -> Result<u8, Fail> {
    let (status, given) = hosted(alloc, run.answers.as_slice())?;
    let mut frames = pipe_of(alloc, given.as_slice().get(run.read..).unwrap_or(&[]))?;
    run.read = given.len();
    for _ in 0..64 {
        match read_frame(alloc, &mut frames) {
            Ok(body) => take_up(alloc, run, body.as_slice())?,
            Err(_) => break,
        }
    }
    Ok(status)
}

/// Adds the lines of the things on the shelf, and how many there are.
fn add_things(alloc: Global, lines: &mut String, mut shelf: MemShelf) -> Result<(), Fail> {
    for id in ["a-1", "b-1"] {
        if let Ok(Some(bytes)) = shelf.get(alloc, id) {
            lines.push_str(id)?;
            add_line(alloc, lines, " ", bytes.as_slice())?;
        }
    }
    let count = format!(in alloc; "{} things\n", shelf.len())?;
    lines.push_str(count.as_str())?;
    Ok(())
}

/// The run until the host ends with another status than that of an answer that is yet to come; that status.
fn run_through(alloc: Global, run: &mut Run) -> Result<u8, Fail> {
    for _ in 0..8 {
        let status = go_on(alloc, run)?;
        if status != 6 {
            return Ok(status);
        }
    }
    Ok(6)
}

/// The lines of the whole run.
fn whole(alloc: Global) -> Result<String, Fail> {
    let shelf = MemShelf::new(alloc, Vec::new(alloc), Vec::new(alloc));
    let mut run = Run {
        toy: toy_pipe(alloc, shelf),
        answers: Vec::new(alloc),
        read: 0,
        lines: String::new(alloc),
    };
    let status = run_through(alloc, &mut run)?;
    let Run { toy, mut lines, .. } = run;
    let end = format!(in alloc; "= {status}\n")?;
    lines.push_str(end.as_str())?;
    add_things(alloc, &mut lines, toy.into_shelf())?;
    Ok(lines)
}

#[test]
fn a_host_and_a_toy_run_a_program(rt: HostRuntime) -> Result<(), Fail> {
    let lines = whole(rt.alloc())?;
    assert!(rt; lines.as_str() == RUN, "{lines}");
    Ok(())
}
