use crate::table::cells;
use pl_provider_msg::{
    Ask, Call, MsgIn, MsgOut, Reply, ask_of, reply_bytes, reply_of, request_bytes,
};
use pl_value::{Bytes, Fields, Text};
use std::alloc::{AllocError, Global};
use std::test::Fail;

const TICKET: u64 = 3;

/// The request that the text spells, written again; `none` where it spells none.
fn asked_again(alloc: Global, text: &str) -> Result<Bytes, Fail> {
    match ask_of(alloc, text.as_bytes()) {
        Ok((ticket, asked)) => Ok(request_bytes(alloc, ticket, &asked)?),
        Err(MsgIn::NotAMessage) => Ok(Bytes::from_slice(alloc, b"none")?),
        Err(MsgIn::OutOfMemory) => Err(Fail::from(AllocError)),
    }
}

/// The reply to the call that the text spells under the ticket 3, written again; `none` where it spells none.
fn replied_again(alloc: Global, call: Call, text: &str) -> Result<Bytes, Fail> {
    match reply_of(alloc, TICKET, call, text.as_bytes()) {
        Ok(reply) => Ok(reply_bytes(alloc, TICKET, &reply)?),
        Err(MsgIn::NotAMessage) => Ok(Bytes::from_slice(alloc, b"none")?),
        Err(MsgIn::OutOfMemory) => Err(Fail::from(AllocError)),
    }
}

fn is_asked_again(alloc: Global, text: &str, want: &str) -> Result<bool, Fail> {
    let again = asked_again(alloc, text)?;
    Ok(again.as_slice() == want.as_bytes())
}

fn is_replied_again(alloc: Global, call: Call, text: &str, want: &str) -> Result<bool, Fail> {
    let again = replied_again(alloc, call, text)?;
    Ok(again.as_slice() == want.as_bytes())
}

/// The call of this name.
fn call_of(name: &str) -> Call {
    match name {
        "check_config" => Call::CheckConfig,
        "configure" => Call::Configure,
        "check" => Call::Check,
        "diff" => Call::Diff,
        "create" => Call::Create,
        "update" => Call::Update,
        "delete" => Call::Delete,
        "read" => Call::Read,
        _ => Call::Invoke,
    }
}

/// Whether the reply that the line spells behind its call is written again so.
fn is_line_again(alloc: Global, line: &str, want: &str) -> Result<bool, Fail> {
    let (call, text) = cells(line);
    is_replied_again(alloc, call_of(call), text, want)
}

/// Requests as they are written.
const REQUESTS: &str =
    r#"{"call":"check_config","inputs":{},"n":0,"urn":"urn:pulumi:dev::web::pulumi:providers:toy::default"}
{"call":"configure","inputs":{},"n":1}
{"call":"check","inputs":{"k":1},"n":2,"urn":"urn:pulumi:dev::web::toy:index:Thing::a"}
{"call":"create","inputs":{"k":1},"n":3,"urn":"urn:pulumi:dev::web::toy:index:Thing::a"}
{"call":"check_config","inputs":{},"n":4,"old":{"k":"v"},"urn":"urn:pulumi:dev::web::pulumi:providers:toy::default"}
{"call":"check","inputs":{},"n":5,"old":{},"urn":"urn:pulumi:dev::web::toy:index:Thing::a"}
{"call":"diff","id":"a-1","inputs":{"k":2},"n":6,"old_inputs":{"k":1},"old_outputs":{"o":[true,null]},"urn":"urn:pulumi:dev::web::toy:index:Thing::a"}
{"call":"update","id":"a-1","inputs":{"k":2},"n":7,"old_inputs":{"k":1},"old_outputs":{"o":{}},"urn":"urn:pulumi:dev::web::toy:index:Thing::a"}
{"call":"delete","id":"a-1","inputs":{"k":2},"n":8,"outputs":{"k":3},"urn":"urn:pulumi:dev::web::toy:index:Thing::a"}
{"call":"read","id":"","inputs":{"k":2},"n":9,"outputs":{},"urn":"urn:pulumi:dev::web::toy:index:Thing::a"}
{"args":{"k":"04da6b54-80e4-46f7-96ec-b56ff0331ba9"},"call":"invoke","n":18446744073709551615,"token":""}
{"call":"configure","inputs":{"k":{"4dabf18193072939515e22adb298388d":"1b47061264138c4ac30d75fd1eb44270","plaintext":"1"}},"n":1}"#;

#[test]
fn requests_are_written_as_they_are_read(rt: HostRuntime) -> Result<(), Fail> {
    for text in REQUESTS.split('\n') {
        assert!(rt; is_asked_again(rt.alloc(), text, text)?, "{text}");
    }
    Ok(())
}

const CONFIGURE: &str = r#"{"call":"configure","inputs":{},"n":1}"#;

/// Texts that spell no request.
const NO_REQUESTS: &str = r#"{"n":1,"inputs":null,"call":"configure"}
{"n":1,"call":"configure"}
{"n":1,"inputs":[],"call":"configure"}
{"n":1,"inputs":{"k":1.5},"call":"configure"}
{"n":1,"inputs":{"k":{"4dabf18193072939515e22adb298388d":1}},"call":"configure"}
{"n":1,"inputs":{},"call":"Configure"}
{"n":1,"inputs":{},"call":null}
{"n":1,"inputs":{}}
{"n":null,"inputs":{},"call":"configure"}
{"n":-1,"inputs":{},"call":"configure"}
{"n":1.0,"inputs":{},"call":"configure"}
{"n":"1","inputs":{},"call":"configure"}
{"n":18446744073709551616,"inputs":{},"call":"configure"}
{"n":1,"inputs":{},"call":"configure"} {}
[]

{"call":"check","inputs":{},"n":5,"old":null,"urn":"urn:pulumi:dev::web::toy:index:Thing::a"}
{"call":"check","inputs":{},"n":5,"old":1,"urn":"urn:pulumi:dev::web::toy:index:Thing::a"}
{"call":"create","inputs":{},"n":5,"urn":"urn:pulumi:dev::web::toy:index:Thing"}
{"call":"create","inputs":{},"n":5}
{"call":"read","id":null,"inputs":{},"n":9,"outputs":{},"urn":"urn:pulumi:dev::web::toy:index:Thing::a"}
{"call":"read","id":"","inputs":{},"n":9,"urn":"urn:pulumi:dev::web::toy:index:Thing::a"}
{"call":"update","id":"a","inputs":{},"n":7,"old_inputs":{},"urn":"urn:pulumi:dev::web::toy:index:Thing::a"}
{"call":"invoke","args":{},"n":7}"#;

#[test]
fn requests_are_read_by_their_fields(rt: HostRuntime) -> Result<(), Fail> {
    for text in [
        " {\"n\":1,\n\"inputs\" : {},\"call\":\"configure\"}\t",
        "{\"n\":2,\"n\":1,\"inputs\":{},\"call\":\"configure\",\"urn\":7,\"old\":null,\"more\":1.5}",
        "{\"n\":1,\"inputs\":{},\"call\":\"\\u0063onfigure\"}",
    ] {
        assert!(rt; is_asked_again(rt.alloc(), text, CONFIGURE)?, "{text}");
    }
    for text in NO_REQUESTS.split('\n') {
        assert!(rt; is_asked_again(rt.alloc(), text, "none")?, "{text}");
    }
    Ok(())
}

/// Replies as they are written, each behind its call.
const REPLIES: &str = r#"check_config => {"n":3,"ok":{"inputs":{"k":1}}}
check => {"failures":[{"property":"p","reason":"r"},{"property":"","reason":""}],"n":3}
configure => {"n":3,"ok":{}}
diff => {"n":3,"ok":{"changes":"some","delete_before_replace":true,"replaces":["fixed",""]}}
diff => {"n":3,"ok":{"changes":"none","delete_before_replace":false,"replaces":["kept"]}}
diff => {"n":3,"ok":{"changes":"unknown","delete_before_replace":false,"replaces":[]}}
create => {"n":3,"ok":{"id":"a-1","outputs":{"k":1}}}
create => {"n":3,"partial":{"id":"a-1","outputs":{},"reasons":["late"]}}
update => {"n":3,"ok":{"outputs":{}}}
update => {"n":3,"partial":{"outputs":{},"reasons":["","late"]}}
delete => {"n":3,"ok":{}}
read => {"n":3,"ok":{"id":"a-1","inputs":{"k":1},"outputs":{}}}
read => {"n":3,"ok":{"id":"a-1","outputs":{}}}
read => {"gone":true,"n":3}
invoke => {"n":3,"ok":{"result":{"k":[]}}}
delete => {"error":"","n":3}"#;

fn is_reply_kept(alloc: Global, line: &str) -> Result<bool, Fail> {
    is_line_again(alloc, line, cells(line).1)
}

#[test]
fn replies_are_written_as_they_are_read(rt: HostRuntime) -> Result<(), Fail> {
    for line in REPLIES.split('\n') {
        assert!(rt; is_reply_kept(rt.alloc(), line)?, "{line}");
    }
    Ok(())
}

/// Replies as they are read: the call, what is read, and what is written again.
const READ_REPLIES: &str = r#"read => {"n":3,"gone":true,"more":{"ok":1}} => {"gone":true,"n":3}
delete => {"n":3,"ok":{"id":1.5,"outputs":null}} => {"n":3,"ok":{}}
diff => {"n":3,"ok":{"changes":"none"}} => {"n":3,"ok":{"changes":"none","delete_before_replace":false,"replaces":[]}}
diff => {"n":3,"ok":{"changes":"none","delete_before_replace":null,"replaces":null}} => {"n":3,"ok":{"changes":"none","delete_before_replace":false,"replaces":[]}}
update => {"n":3,"partial":{"id":"","outputs":{},"reasons":["r"]}} => {"n":3,"partial":{"outputs":{},"reasons":["r"]}}
read => {"n":3,"ok":{"id":"i","inputs":null,"outputs":{}}} => {"n":3,"ok":{"id":"i","outputs":{}}}"#;

/// Texts that are no reply to their call.
const NO_REPLIES: &str = r#"read => {"n":3,"gone":false}
read => {"n":3,"gone":null}
delete => {"n":3,"gone":true}
delete => {"n":3,"ok":{},"error":null}
delete => {"n":3,"ok":{},"gone":true}
delete => {"n":3,"ok":{},"failures":[]}
delete => {"n":3,"ok":{},"partial":{}}
delete => {"n":3}
delete => {"n":3,"ok":null}
delete => {"n":3,"ok":[]}
delete => {"n":3,"error":null}
delete => {"n":4,"ok":{}}
delete => {"ok":{}}
delete => {"n":"3","ok":{}}
delete => {"n":3,"ok":{}
diff => {"n":3,"ok":{"changes":"all"}}
diff => {"n":3,"ok":{"changes":"some","replaces":[null]}}
diff => {"n":3,"ok":{"changes":"some","replaces":{}}}
diff => {"n":3,"ok":{"changes":"some","delete_before_replace":0}}
create => {"n":3,"ok":{"id":"","outputs":{}}}
create => {"n":3,"ok":{"outputs":{}}}
create => {"n":3,"ok":{"id":"i"}}
create => {"n":3,"ok":{"id":"i","outputs":{"k":1e2}}}
create => {"n":3,"partial":{"outputs":{},"reasons":["r"]}}
create => {"n":3,"partial":{"id":"i","outputs":{},"reasons":[]}}
create => {"n":3,"partial":{"id":"i","outputs":{}}}
delete => {"n":3,"partial":{"id":"i","outputs":{},"reasons":["r"]}}
read => {"n":3,"ok":{"id":"i","inputs":7,"outputs":{}}}
read => {"n":3,"ok":{"id":"","outputs":{}}}
check => {"n":3,"failures":[]}
check => {"n":3,"failures":[{"property":"p"}]}
check => {"n":3,"failures":{}}
create => {"n":3,"failures":[{"property":"p","reason":"r"}]}"#;

fn is_reply_read(alloc: Global, line: &str) -> Result<bool, Fail> {
    let (call, texts) = cells(line);
    let (text, want) = cells(texts);
    is_replied_again(alloc, call_of(call), text, want)
}

#[test]
fn replies_are_read_by_their_fields(rt: HostRuntime) -> Result<(), Fail> {
    for line in READ_REPLIES.split('\n') {
        assert!(rt; is_reply_read(rt.alloc(), line)?, "{line}");
    }
    for line in NO_REPLIES.split('\n') {
        assert!(rt; is_line_again(rt.alloc(), line, "none")?, "{line}");
    }
    Ok(())
}

/// The error reply under the ticket 1 with a text of so many bytes: 18 bytes more.
fn long_reply(alloc: Global, len: usize) -> Result<Result<Bytes, MsgOut>, AllocError> {
    let error = Text::from_string("e".repeat(alloc, len)?);
    Ok(reply_bytes(alloc, 1, &Reply::Error(error)))
}

/// The request under the ticket 1 to invoke a token of so many bytes: 44 bytes more.
fn long_request(alloc: Global, len: usize) -> Result<Result<Bytes, MsgOut>, AllocError> {
    let token = Text::from_string("t".repeat(alloc, len)?);
    let args = Fields::new(alloc);
    Ok(request_bytes(alloc, 1, &Ask::Invoke { token, args }))
}

#[test]
fn long_messages_are_not_written(rt: HostRuntime) -> Result<(), Fail> {
    let alloc = rt.alloc();
    assert!(rt; matches!(long_reply(alloc, 4_194_286)?, Ok(_)));
    assert!(rt;
        matches!(
            long_reply(alloc, 4_194_287)?,
            Err(MsgOut::TooLong(4_194_305))
        )
    );
    assert!(rt; matches!(long_request(alloc, 4_194_260)?, Ok(_)));
    assert!(rt;
        matches!(
            long_request(alloc, 4_194_261)?,
            Err(MsgOut::TooLong(4_194_305))
        )
    );
    Ok(())
}
