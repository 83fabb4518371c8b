use crate::table::cells;
use pl_events::{Answer, Request};
use pl_host_msg::{HostWord, MsgIn, MsgOut, answer_bytes, halted_bytes, request_of};
use pl_value::{Bytes, Text};
use std::alloc::{AllocError, Global};
use std::test::Fail;

/// What was read, in a line: `done`, `none`, or the number, the type, the name and the parent.
fn read(alloc: Global, bytes: &[u8]) -> Result<String, AllocError> {
    match request_of(alloc, bytes) {
        Ok(HostWord::Success) => String::from_str(alloc, "done"),
        Ok(HostWord::Request(Request::Register { n, told })) => {
            let parent = told.parent.as_ref().map_or("-", Text::as_str);
            let kind = told.kind.as_str();
            let name = told.name.as_str();
            format!(in alloc; "{n} {kind} {name} {parent}")
        }
        Ok(HostWord::Request(_)) => String::from_str(alloc, "another request"),
        Err(MsgIn::NotAMessage) => String::from_str(alloc, "none"),
        Err(MsgIn::OutOfMemory) => Err(AllocError),
    }
}

/// The registration 1 of `a`, of type `t`, with further fields.
fn registration(alloc: Global, fields: &str) -> Result<String, AllocError> {
    format!(in alloc; "{{\"call\":\"register\",\"n\":1,\"name\":\"a\",\"type\":\"t\"{fields}}}")
}

fn is_read(alloc: Global, bytes: &[u8], want: &str) -> Result<bool, Fail> {
    let found = read(alloc, bytes)?;
    Ok(found.as_str() == want)
}

fn is_line_read(alloc: Global, line: &str) -> Result<bool, Fail> {
    let (text, want) = cells(line);
    is_read(alloc, text.as_bytes(), want)
}

fn is_registration_read(alloc: Global, fields: &str, want: &str) -> Result<bool, Fail> {
    let text = registration(alloc, fields)?;
    is_read(alloc, text.as_bytes(), want)
}

/// What a host says, and what is read.
const WORDS: &str =
    r#"{"call":"register","custom":false,"n":1,"name":"web-dev","type":"pulumi:pulumi:Stack"} => 1 pulumi:pulumi:Stack web-dev -
{"call":"done"} => done
{"type":"","parent":"p","n":7,"call":"register","name":""} => 7   p
{"call":"failed","text":"x"} => none
{"call":"read","n":1,"type":"t","name":"a","id":"i"} => none
{"call":"done "} => none
{"call":null} => none
{"call":["done"]} => none
{"Call":"done"} => none
{} => none
[{"call":"done"}] => none
"done" => none
 => none
{"call":"done" => none
{"call":"done"} {} => none"#;

#[test]
fn reads_the_words_of_a_host(rt: HostRuntime) -> Result<(), Fail> {
    for line in WORDS.split('\n') {
        assert!(rt; is_line_read(rt.alloc(), line)?, "{line}");
    }
    let spaced = " {\"n\": [-1.5e3, {\"a\": null}],\n\"call\" :\"done\" }\t";
    assert!(rt; is_read(rt.alloc(), spaced.as_bytes(), "done")?, "{spaced}");
    let no_text = b"{\"call\":\"done\",\"a\":\"\xff\"}";
    assert!(rt;
        is_read(rt.alloc(), no_text, "none")?,
        "bytes that are no text"
    );
    Ok(())
}

/// Fields, the first none, that leave a registration as it is without them.
const DEFAULTS: &str = r#"
,"custom":false,"protect":false,"retainOnDelete":false
,"custom":null,"protect":null,"retainOnDelete":null
,"inputs":{},"propertyDependencies":{}
,"inputs":null,"propertyDependencies":null
,"dependencies":[],"aliases":[],"ignoreChanges":[],"additionalSecretOutputs":[]
,"dependencies":null,"aliases":null,"ignoreChanges":null
,"additionalSecretOutputs":null
,"provider":null,"importId":null,"version":null,"deleteBeforeReplace":null
,"deletedWith":null
,"parent":null
,"parent":""
,"id":7,"outputs":[],"text":null,"more":{"a":[1.5,{"b":[[]]}]}
,"n":2,"n":1"#;

/// Fields, and what is read with them.
const CHANGES: &str = r#","n":9007199254740992 => 9007199254740992 t a -
,"parent":"urn:x" => 1 t a urn:x
,"type":"pulumi:providers" => 1 pulumi:providers a -
,"name":"\u0061\"" => 1 t a" -"#;

fn is_change_read(alloc: Global, line: &str) -> Result<bool, Fail> {
    let (fields, want) = cells(line);
    is_registration_read(alloc, fields, want)
}

#[test]
fn reads_a_registration_by_its_fields(rt: HostRuntime) -> Result<(), Fail> {
    for fields in DEFAULTS.split('\n') {
        assert!(rt;
            is_registration_read(rt.alloc(), fields, "1 t a -")?,
            "{fields}"
        );
    }
    for line in CHANGES.split('\n') {
        assert!(rt; is_change_read(rt.alloc(), line)?, "{line}");
    }
    Ok(())
}

/// Fields with which there is no registration of a component.
const NO_FIELDS: &str = r#","n":0
,"n":9007199254740993
,"n":18446744073709551616
,"n":-1
,"n":1.0
,"n":1e0
,"n":"1"
,"n":null
,"name":null
,"name":1
,"type":null
,"type":["t"]
,"type":"pulumi:providers:toy"
,"type":"pulumi:providers:"
,"parent":7
,"parent":[]
,"custom":true
,"custom":"false"
,"custom":0
,"inputs":{"k":1}
,"inputs":[]
,"propertyDependencies":{"k":[]}
,"propertyDependencies":""
,"dependencies":["u"]
,"aliases":[null]
,"ignoreChanges":{}
,"additionalSecretOutputs":false
,"protect":true
,"retainOnDelete":true
,"provider":""
,"deletedWith":""
,"deletedWith":"urn:x"
,"importId":""
,"version":""
,"deleteBeforeReplace":false
,"more":"\ud800""#;

#[test]
fn refuses_a_registration_by_its_fields(rt: HostRuntime) -> Result<(), Fail> {
    for fields in NO_FIELDS.split('\n') {
        assert!(rt;
            is_registration_read(rt.alloc(), fields, "none")?,
            "{fields}"
        );
    }
    Ok(())
}

/// The refusal of request 1 by an error of `len` bytes: 18 bytes more.
fn long_refusal(alloc: Global, len: usize) -> Result<Result<Bytes, MsgOut>, AllocError> {
    let error = Text::from_string("e".repeat(alloc, len)?);
    Ok(answer_bytes(alloc, 1, &Answer::Refused(error)))
}

#[test]
fn writes_refusals(rt: HostRuntime) -> Result<(), Fail> {
    let alloc = rt.alloc();
    let error = Text::from_str(alloc, "BadOption")?;
    let bytes = answer_bytes(alloc, 3, &Answer::Refused(error))?;
    assert!(rt; bytes.as_slice() == b"{\"error\":\"BadOption\",\"n\":3}".as_slice());
    let halted = halted_bytes(alloc, u64::MAX)?;
    assert!(rt;
        halted.as_slice() == b"{\"error\":\"halted\",\"n\":18446744073709551615}".as_slice()
    );
    assert!(rt; matches!(long_refusal(alloc, 4_194_286)?, Ok(_)));
    assert!(rt;
        matches!(
            long_refusal(alloc, 4_194_287)?,
            Err(MsgOut::TooLong(4_194_305))
        )
    );
    Ok(())
}
