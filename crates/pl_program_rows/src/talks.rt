use pl_program::host;
use pl_world::{MemPipe, PipeScript};
use std::alloc::{AllocError, Global};
use std::test::Fail;

/// Talks in the stack `dev` of the project `web`, one behind another: the program file behind `run ` or `preview `, the
/// bodies of the answers behind `< ` and those of the host's frames behind `> `, and the status behind `= `.
const TALKS: &str =
    r#"run {"resources":[{"name":"a","type":"toy:index:Thing","inputs":{"k":1}},{"name":"b","type":"toy:index:Thing","inputs":{"x":"${a.k}","y":["${a.id}"],"z":"${a"},"options":{"protect":true}}],"outputs":{"o":"${b.x}"}}
> {"call":"register","custom":false,"n":1,"name":"web-dev","type":"pulumi:pulumi:Stack"}
< {"n":1,"ok":{"outputs":{},"urn":"urn:pulumi:dev::web::pulumi:pulumi:Stack::web-dev"}}
> {"call":"register","custom":true,"inputs":{"k":1},"n":2,"name":"a","parent":"urn:pulumi:dev::web::pulumi:pulumi:Stack::web-dev","type":"toy:index:Thing"}
< {"n":2,"ok":{"id":"a-1","outputs":{"k":1},"urn":"urn:pulumi:dev::web::toy:index:Thing::a"}}
> {"call":"register","custom":true,"dependencies":["urn:pulumi:dev::web::toy:index:Thing::a"],"inputs":{"x":1,"y":["a-1"],"z":"${a"},"n":3,"name":"b","parent":"urn:pulumi:dev::web::pulumi:pulumi:Stack::web-dev","propertyDependencies":{"x":["urn:pulumi:dev::web::toy:index:Thing::a"],"y":["urn:pulumi:dev::web::toy:index:Thing::a"]},"protect":true,"type":"toy:index:Thing"}
< {"n":3,"ok":{"id":"b-1","outputs":{"x":7},"urn":"urn:pulumi:dev::web::toy:index:Thing::b"}}
> {"call":"outputs","n":4,"outputs":{"o":7},"urn":"urn:pulumi:dev::web::pulumi:pulumi:Stack::web-dev"}
< {"n":4,"ok":{}}
> {"call":"done"}
= 0
preview {"resources":[{"name":"a","type":"toy:index:Thing"},{"name":"b","type":"my:index:Site","custom":false,"inputs":{"x":"${a.k}"},"options":{"parent":"a"}}],"outputs":{"o":"${a.id}"}}
> {"call":"register","custom":false,"n":1,"name":"web-dev","type":"pulumi:pulumi:Stack"}
< {"n":1,"ok":{"outputs":{},"urn":"urn:pulumi:dev::web::pulumi:pulumi:Stack::web-dev"}}
> {"call":"register","custom":true,"n":2,"name":"a","parent":"urn:pulumi:dev::web::pulumi:pulumi:Stack::web-dev","type":"toy:index:Thing"}
< {"n":2,"ok":{"outputs":{},"urn":"urn:pulumi:dev::web::toy:index:Thing::a"}}
> {"call":"register","custom":false,"dependencies":["urn:pulumi:dev::web::toy:index:Thing::a"],"inputs":{"x":"04da6b54-80e4-46f7-96ec-b56ff0331ba9"},"n":3,"name":"b","parent":"urn:pulumi:dev::web::toy:index:Thing::a","propertyDependencies":{"x":["urn:pulumi:dev::web::toy:index:Thing::a"]},"type":"my:index:Site"}
< {"n":3,"ok":{"outputs":{},"urn":"urn:pulumi:dev::web::toy:index:Thing$my:index:Site::b"}}
> {"call":"outputs","n":4,"outputs":{"o":"04da6b54-80e4-46f7-96ec-b56ff0331ba9"},"urn":"urn:pulumi:dev::web::pulumi:pulumi:Stack::web-dev"}
< {"n":4,"ok":{}}
> {"call":"done"}
= 0
run {"resources":[{"name":"a","type":"toy:index:Thing"},{"name":"b","type":"toy:index:Thing","inputs":{"x":"${a.k}"}}]}
> {"call":"register","custom":false,"n":1,"name":"web-dev","type":"pulumi:pulumi:Stack"}
< {"n":1,"ok":{"outputs":{},"urn":"urn:pulumi:dev::web::pulumi:pulumi:Stack::web-dev"}}
> {"call":"register","custom":true,"n":2,"name":"a","parent":"urn:pulumi:dev::web::pulumi:pulumi:Stack::web-dev","type":"toy:index:Thing"}
< {"n":2,"ok":{"id":"a-1","outputs":{},"urn":"urn:pulumi:dev::web::toy:index:Thing::a"}}
> {"call":"failed","text":"no output a.k"}
= 1
run {"resources":[{"name":"a","type":"toy:index:Thing"},{"name":"b","type":"toy:index:Thing"},{"name":"c","type":"toy:index:Thing","options":{"dependsOn":["a"]}}]}
> {"call":"register","custom":false,"n":1,"name":"web-dev","type":"pulumi:pulumi:Stack"}
< {"n":1,"ok":{"outputs":{},"urn":"urn:pulumi:dev::web::pulumi:pulumi:Stack::web-dev"}}
> {"call":"register","custom":true,"n":2,"name":"a","parent":"urn:pulumi:dev::web::pulumi:pulumi:Stack::web-dev","type":"toy:index:Thing"}
> {"call":"register","custom":true,"n":3,"name":"b","parent":"urn:pulumi:dev::web::pulumi:pulumi:Stack::web-dev","type":"toy:index:Thing"}
< {"error":"BadOption","n":3}
> {"call":"failed","text":"BadOption"}
= 1
run {"resources":[{"name":"a","type":"toy:index:Thing"},{"name":"b","type":"toy:index:Thing"}]}
> {"call":"register","custom":false,"n":1,"name":"web-dev","type":"pulumi:pulumi:Stack"}
< {"n":1,"ok":{"outputs":{},"urn":"urn:pulumi:dev::web::pulumi:pulumi:Stack::web-dev"}}
> {"call":"register","custom":true,"n":2,"name":"a","parent":"urn:pulumi:dev::web::pulumi:pulumi:Stack::web-dev","type":"toy:index:Thing"}
> {"call":"register","custom":true,"n":3,"name":"b","parent":"urn:pulumi:dev::web::pulumi:pulumi:Stack::web-dev","type":"toy:index:Thing"}
< {"n":3,"ok":{"outputs":{},"urn":"urn:pulumi:dev::web::toy:index:Thing::b"}}
< {"n":2,"ok":{"outputs":{},"urn":"urn:pulumi:dev::web::toy:index:Thing::a"}}
> {"call":"done"}
= 0
run {"resources":[{"name":"a","type":"toy:index:Thing"},{"name":"b","type":"toy:index:Thing","options":{"provider":"a"}}]}
> {"call":"register","custom":false,"n":1,"name":"web-dev","type":"pulumi:pulumi:Stack"}
< {"n":1,"ok":{"outputs":{},"urn":"urn:pulumi:dev::web::pulumi:pulumi:Stack::web-dev"}}
> {"call":"register","custom":true,"n":2,"name":"a","parent":"urn:pulumi:dev::web::pulumi:pulumi:Stack::web-dev","type":"toy:index:Thing"}
= 6
run {"resources":[{"name":"a","type":"toy:index:Thing"}],"outputs":{}}
> {"call":"register","custom":false,"n":1,"name":"web-dev","type":"pulumi:pulumi:Stack"}
< {"n":2,"ok":{"outputs":{},"urn":"urn:pulumi:dev::web::pulumi:pulumi:Stack::web-dev"}}
= 6
run {"resources":[]}
> {"call":"register","custom":false,"n":1,"name":"web-dev","type":"pulumi:pulumi:Stack"}
< {"n":1,"ok":{}}
= 6
run {"resources":[{"name":"a"}]}
> {"call":"failed","text":"bad program"}
= 1"#;

/// One talk: what is run, what is answered, and what is to come of it.
#[derive(Drop)]
struct Script<'a> {
    program: &'a str,
    preview: bool,
    answers: Vec<u8>,
    frames: Vec<u8>,
}

fn new_script<'a>(alloc: Global, program: &'a str, preview: bool) -> Script<'a> {
    Script {
        program,
        preview,
        answers: Vec::new(alloc),
        frames: Vec::new(alloc),
    }
}

/// Adds the frame of a body.
pub(crate) fn add_frame(frames: &mut Vec<u8>, body: &str) -> Result<(), AllocError> {
    let length = u32::try_from(body.len()).unwrap_or(u32::MAX);
    frames.extend_from_slice(&length.to_be_bytes())?;
    frames.extend_from_slice(body.as_bytes())
}

/// A pipe of this input that is cut at these sizes, and whose calls of these numbers fail.
fn pipe(alloc: Global, input: &[u8], chunks: &[usize], fails: &[u64]) -> Result<MemPipe, Fail> {
    let script = PipeScript {
        input: input.to_vec(alloc)?,
        chunks: chunks.to_vec(alloc)?,
        fails: fails.to_vec(alloc)?,
    };
    Ok(MemPipe::new(alloc, script))
}

/// Whether the host gives these frames and ends at this status over pipes that are cut at these sizes.
fn is_talk(alloc: Global, script: &Script<'_>, chunks: &[usize], want: &str) -> Result<bool, Fail> {
    let mut incoming = pipe(alloc, script.answers.as_slice(), chunks, &[])?;
    let mut outgoing = pipe(alloc, &[], chunks, &[])?;
    let program = script.program.as_bytes();
    let (coming, going) = (&mut incoming, &mut outgoing);
    let status = host(alloc, program, "dev", "web", script.preview, coming, going);
    let given = outgoing.given_bytes(alloc)?;
    let status = format!(in alloc; "{status}")?;
    Ok(status.as_str() == want && given.as_slice() == script.frames.as_slice())
}

/// Takes up a line of a talk; whether the talk is as it stands there, where the line is its last.
fn is_line_right<'a>(alloc: Global, script: &mut Script<'a>, line: &'a str) -> Result<bool, Fail> {
    if let Some(body) = line.strip_prefix("< ") {
        add_frame(&mut script.answers, body)?;
    }
    if let Some(body) = line.strip_prefix("> ") {
        add_frame(&mut script.frames, body)?;
    }
    if let Some(program) = line.strip_prefix("run ") {
        *script = new_script(alloc, program, false);
    }
    if let Some(program) = line.strip_prefix("preview ") {
        *script = new_script(alloc, program, true);
    }
    match line.strip_prefix("= ") {
        Some(want) => Ok(is_talk(alloc, script, &[], want)? && is_talk(alloc, script, &[3], want)?),
        None => Ok(true),
    }
}

#[test]
fn talks_are_held(rt: HostRuntime) -> Result<(), Fail> {
    let mut script = new_script(rt.alloc(), "", false);
    for line in TALKS.split('\n') {
        assert!(rt;
            is_line_right(rt.alloc(), &mut script, line)?,
            "{}",
            script.program
        );
    }
    Ok(())
}

/// A program of so many things that wait for the stack alone.
fn things(alloc: Global, count: u64) -> Result<String, AllocError> {
    let mut text = String::from_str(alloc, "{\"resources\":[")?;
    for i in 0..count {
        if i > 0 {
            text.push(',')?;
        }
        let thing = format!(in alloc; "{{\"name\":\"r{i}\",\"type\":\"toy:index:Thing\"}}")?;
        text.push_str(thing.as_str())?;
    }
    text.push_str("]}")?;
    Ok(text)
}

const STACK: &str = "urn:pulumi:dev::web::pulumi:pulumi:Stack::web-dev";

/// Adds the frames of the first things.
fn add_things(alloc: Global, count: u32, frames: &mut Vec<u8>) -> Result<(), AllocError> {
    for i in 0..count {
        let n = u64::from(i) + 2;
        let body = format!(in alloc;
            "{{\"call\":\"register\",\"custom\":true,\"n\":{n},\"name\":\"r{i}\",\"parent\":\"{STACK}\",\"type\":\"toy:index:Thing\"}}"
        )?;
        add_frame(frames, body.as_str())?;
    }
    Ok(())
}

/// Whether no more than 64 of 70 things are registered while no answer comes.
fn is_bounded(alloc: Global) -> Result<bool, Fail> {
    let program = things(alloc, 70)?;
    let mut script = new_script(alloc, program.as_str(), false);
    add_frame(
        &mut script.frames,
        "{\"call\":\"register\",\"custom\":false,\"n\":1,\"name\":\"web-dev\",\"type\":\"pulumi:pulumi:Stack\"}",
    )?;
    let answer = format!(in alloc; "{{\"n\":1,\"ok\":{{\"outputs\":{{}},\"urn\":\"{STACK}\"}}}}")?;
    add_frame(&mut script.answers, answer.as_str())?;
    add_things(alloc, 64, &mut script.frames)?;
    is_talk(alloc, &script, &[], "6")
}

#[test]
fn requests_wait_for_answers(rt: HostRuntime) -> Result<(), Fail> {
    assert!(rt; is_bounded(rt.alloc())?);
    Ok(())
}

/// The status of an empty program over pipes of which these calls fail.
fn failing(alloc: Global, takes: &[u64], gives: &[u64]) -> Result<u8, Fail> {
    let mut incoming = pipe(alloc, b"\0\0\0\0", &[], takes)?;
    let mut outgoing = pipe(alloc, &[], &[], gives)?;
    let program = b"{\"resources\":[]}";
    let (coming, going) = (&mut incoming, &mut outgoing);
    Ok(host(alloc, program, "dev", "web", false, coming, going))
}

#[test]
fn pipes_fail(rt: HostRuntime) -> Result<(), Fail> {
    let cases: [(&[u64], &[u64], u8); 4] = [
        (&[], &[], 6),
        (&[0], &[], 5),
        (&[], &[0], 5),
        (&[], &[1], 5),
    ];
    for (takes, gives, want) in cases {
        assert_eq!(rt; failing(rt.alloc(), takes, gives)?, want);
    }
    Ok(())
}
