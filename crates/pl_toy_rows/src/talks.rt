use pl_toy::MemShelf;
use pl_toy_serve::serve_toy;
use pl_world::{MemPipe, PipeScript};
use std::alloc::{AllocError, Global};
use std::test::Fail;

/// The bodies of a talk, a request and its reply a line.
pub(crate) const TALK: &str =
    r#"{"call":"check_config","inputs":{},"n":0,"urn":"urn:pulumi:dev::web::pulumi:providers:toy::default"} => {"n":0,"ok":{"inputs":{}}}
{"call":"check","inputs":{"refuse":"no"},"n":1,"urn":"urn:pulumi:dev::web::toy:index:Thing::a"} => {"failures":[{"property":"refuse","reason":"no"}],"n":1}
{"call":"create","inputs":{"fixed":1},"n":2,"urn":"urn:pulumi:dev::web::toy:index:Thing::a"} => {"n":2,"ok":{"id":"a-1","outputs":{"fixed":1}}}
{"call":"create","inputs":{"k":1},"n":3,"urn":"urn:pulumi:dev::web::toy:index:Other::a"} => {"n":3,"ok":{"id":"a-2","outputs":{"k":1}}}
{"call":"diff","id":"a-1","inputs":{"first":true,"fixed":2},"n":4,"old_inputs":{"fixed":1},"old_outputs":{},"urn":"urn:pulumi:dev::web::toy:index:Thing::a"} => {"n":4,"ok":{"changes":"some","delete_before_replace":true,"replaces":["fixed"]}}
{"call":"update","id":"a-1","inputs":{"k":[null,"x"]},"n":5,"old_inputs":{"fixed":1},"old_outputs":{},"urn":"urn:pulumi:dev::web::toy:index:Thing::a"} => {"n":5,"ok":{"outputs":{"k":[null,"x"]}}}
{"call":"read","id":"a-1","inputs":{},"n":6,"outputs":{},"urn":"urn:pulumi:dev::web::toy:index:Thing::a"} => {"n":6,"ok":{"id":"a-1","inputs":{"k":[null,"x"]},"outputs":{"k":[null,"x"]}}}
{"call":"delete","id":"a-1","inputs":{},"n":7,"outputs":{},"urn":"urn:pulumi:dev::web::toy:index:Thing::a"} => {"n":7,"ok":{}}
{"call":"delete","id":"a-1","inputs":{},"n":8,"outputs":{},"urn":"urn:pulumi:dev::web::toy:index:Thing::a"} => {"n":8,"ok":{}}
{"call":"read","id":"a-1","inputs":{},"n":9,"outputs":{},"urn":"urn:pulumi:dev::web::toy:index:Thing::a"} => {"gone":true,"n":9}"#;

/// Adds the frame of a body.
pub(crate) fn push_frame(frames: &mut Vec<u8>, body: &str) -> Result<(), AllocError> {
    let length = u32::try_from(body.len()).unwrap_or(u32::MAX);
    frames.extend_from_slice(&length.to_be_bytes())?;
    frames.extend_from_slice(body.as_bytes())
}

/// The frames of the requests of a talk and those of its replies.
fn frames_of(alloc: Global, talk: &str) -> Result<(Vec<u8>, Vec<u8>), Fail> {
    let (mut requests, mut replies) = (Vec::new(alloc), Vec::new(alloc));
    for line in talk.lines() {
        let Some((request, reply)) = line.split_once(" => ") else {
            continue;
        };
        push_frame(&mut requests, request)?;
        push_frame(&mut replies, reply)?;
    }
    Ok((requests, replies))
}

/// A pipe with this input, cut so, of whose calls these fail.
fn pipe_of(
    alloc: Global,
    input: Vec<u8>,
    chunks: &[usize],
    fails: &[u64],
) -> Result<MemPipe, Fail> {
    let script = PipeScript {
        input,
        chunks: chunks.to_vec(alloc)?,
        fails: fails.to_vec(alloc)?,
    };
    Ok(MemPipe::new(alloc, script))
}

/// Whether the talk is held so over pipes that cut at these sizes, with the status 0 and one thing left.
fn is_held(alloc: Global, chunks: &[usize]) -> Result<bool, Fail> {
    let (requests, replies) = frames_of(alloc, TALK)?;
    let mut pipe = pipe_of(alloc, requests, chunks, &[])?;
    let mut shelf = MemShelf::new(alloc, Vec::new(alloc), Vec::new(alloc));
    let status = serve_toy(alloc, &mut shelf, &mut pipe);
    let given = pipe.given_bytes(alloc)?;
    Ok(status == 0 && shelf.len() == 1 && given.as_slice() == replies.as_slice())
}

#[test]
fn requests_are_answered_in_order(rt: HostRuntime) -> Result<(), Fail> {
    let sizes: [&[usize]; 3] = [&[], &[1], &[7, 300]];
    for chunks in sizes {
        assert!(rt; is_held(rt.alloc(), chunks)?);
    }
    Ok(())
}

/// What comes of bytes behind the first two frames of the talk: the status, what was given and taken, and the things.
fn ended(alloc: Global, bytes: &[u8], fails: &[u64]) -> Result<String, Fail> {
    let mut input = Vec::new(alloc);
    push_frame(&mut input, r#"{"call":"configure","inputs":{},"n":1}"#)?;
    push_frame(&mut input, CREATE)?;
    input.extend_from_slice(bytes)?;
    let mut pipe = pipe_of(alloc, input, &[], fails)?;
    let mut shelf = MemShelf::new(alloc, Vec::new(alloc), Vec::new(alloc));
    let status = serve_toy(alloc, &mut shelf, &mut pipe);
    let (given, taken) = (pipe.given_bytes(alloc)?, pipe.taken());
    Ok(format!(in alloc;
        "{status}: {} given, {} taken, {} things",
        given.len(),
        taken.len(),
        shelf.len()
    )?)
}

const CREATE: &str =
    r#"{"call":"create","inputs":{},"n":2,"urn":"urn:pulumi:dev::web::toy:index:Thing::a"}"#;

#[test]
fn services_end(rt: HostRuntime) -> Result<(), Fail> {
    let cases: [(&[u8], &[u64], &str); 11] = [
        (b"", &[], "0: 61 given, 129 taken, 1 things"),
        (b"\0\0\0", &[], "6: 61 given, 132 taken, 1 things"),
        (b"\0\0\0\x02{", &[], "6: 61 given, 134 taken, 1 things"),
        (b"\0\0\0\x02{}..", &[], "6: 61 given, 135 taken, 1 things"),
        (b"\0\0\0\0{}", &[], "6: 61 given, 133 taken, 1 things"),
        (b"\0@\0\x01{}", &[], "6: 61 given, 133 taken, 1 things"),
        (b"", &[0], "5: 0 given, 0 taken, 0 things"),
        (b"", &[2], "5: 0 given, 42 taken, 0 things"),
        (b"", &[6], "5: 19 given, 129 taken, 1 things"),
        (b"", &[7], "5: 23 given, 129 taken, 1 things"),
        (b"", &[8], "5: 61 given, 129 taken, 1 things"),
    ];
    for (bytes, fails, want) in cases {
        let found = ended(rt.alloc(), bytes, fails)?;
        assert!(rt; found.as_str() == want, "{found}");
    }
    Ok(())
}

/// Whether the reply to a reading that would repeat a long text is an error, and the thing stays.
fn is_too_long(alloc: Global) -> Result<bool, Fail> {
    let text = String::from_utf8(vec![in alloc; b'x'; 2_200_000]?)?;
    let (urn, text) = ("urn:pulumi:dev::web::toy:index:Thing::a", text.as_str());
    let create = format!(in alloc;
        "{{\"call\":\"create\",\"inputs\":{{\"k\":\"{text}\"}},\"n\":1,\"urn\":\"{urn}\"}}"
    )?;
    let read = format!(in alloc;
        "{{\"call\":\"read\",\"id\":\"a-1\",\"inputs\":{{}},\"n\":2,\"outputs\":{{}},\"urn\":\"{urn}\"}}"
    )?;
    let mut input = Vec::new(alloc);
    push_frame(&mut input, create.as_str())?;
    push_frame(&mut input, read.as_str())?;
    let mut pipe = pipe_of(alloc, input, &[], &[])?;
    let mut shelf = MemShelf::new(alloc, Vec::new(alloc), Vec::new(alloc));
    let status = serve_toy(alloc, &mut shelf, &mut pipe);
    let given = pipe.given_bytes(alloc)?;
    let refused = b"\0\0\0\x1a{\"error\":\"too long\",\"n\":2}";
    Ok(status == 0 && shelf.len() == 1 && given.as_slice().ends_with(refused))
}

#[test]
fn long_replies_are_errors(rt: HostRuntime) -> Result<(), Fail> {
    assert!(rt; is_too_long(rt.alloc())?);
    Ok(())
}
