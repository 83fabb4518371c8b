use crate::table::cells;
use pl_host_msg::answer_bytes;
use pl_host_word::{MsgIn, answer_of, word_bytes, word_of};
use pl_value::Bytes;
use std::alloc::{AllocError, Global};
use std::test::Fail;

/// The word that the text spells, written again; `none` where it spells none.
fn word_again(alloc: Global, text: &str) -> Result<Bytes, Fail> {
    match word_of(alloc, text.as_bytes()) {
        Ok(word) => Ok(word_bytes(alloc, &word)?),
        Err(MsgIn::NotAMessage) => Ok(Bytes::from_slice(alloc, b"none")?),
        Err(MsgIn::OutOfMemory) => Err(Fail::from(AllocError)),
    }
}

/// The answer that the text spells, written again; `none` where it spells none.
fn answer_again(alloc: Global, text: &str) -> Result<Bytes, Fail> {
    match answer_of(alloc, text.as_bytes()) {
        Ok((n, answer)) => Ok(answer_bytes(alloc, n, &answer)?),
        Err(MsgIn::NotAMessage) => Ok(Bytes::from_slice(alloc, b"none")?),
        Err(MsgIn::OutOfMemory) => Err(Fail::from(AllocError)),
    }
}

fn is_word_again(alloc: Global, text: &str, want: &str) -> Result<bool, Fail> {
    let again = word_again(alloc, text)?;
    Ok(again.as_slice() == want.as_bytes())
}

fn is_answer_again(alloc: Global, text: &str, want: &str) -> Result<bool, Fail> {
    let again = answer_again(alloc, text)?;
    Ok(again.as_slice() == want.as_bytes())
}

/// The registration 1 of `a`, of type `t`, with further fields.
fn registration(alloc: Global, fields: &str) -> Result<String, AllocError> {
    format!(in alloc; "{{\"call\":\"register\",\"n\":1,\"name\":\"a\",\"type\":\"t\"{fields}}}")
}

fn is_registration_again(alloc: Global, fields: &str, want: &str) -> Result<bool, Fail> {
    let text = registration(alloc, fields)?;
    is_word_again(alloc, text.as_str(), want)
}

/// Words as they are written, each behind the number of its bytes.
const WORDS: &str = r#"15 => {"call":"done"}
86 => {"call":"register","custom":false,"n":1,"name":"web-dev","type":"pulumi:pulumi:Stack"}
135 => {"call":"register","custom":false,"n":2,"name":"s","parent":"urn:pulumi:dev::web::pulumi:pulumi:Stack::web-dev","type":"my:index:Site"}
170 => {"call":"register","custom":true,"importId":"a-9","inputs":{"k":1},"n":2,"name":"a","parent":"urn:pulumi:dev::web::pulumi:pulumi:Stack::web-dev","type":"toy:index:Thing"}
487 => {"additionalSecretOutputs":["o"],"aliases":["u1","u2"],"call":"register","custom":true,"deleteBeforeReplace":false,"deletedWith":"u3","dependencies":["u4"],"ignoreChanges":["p",""],"importId":"i","inputs":{"k":{"4dabf18193072939515e22adb298388d":"1b47061264138c4ac30d75fd1eb44270","plaintext":"1"}},"n":9007199254740992,"name":"","parent":"u5","propertyDependencies":{"k":["u4"],"l":[]},"protect":true,"provider":"r","retainOnDelete":true,"type":"pulumi:providers:toy","version":"1.2.3"}
218 => {"call":"read","dependencies":["u4"],"id":"a-9","inputs":{"k":"04da6b54-80e4-46f7-96ec-b56ff0331ba9"},"n":7,"name":"a","parent":"u5","propertyDependencies":{"k":[]},"provider":"r","type":"toy:index:Thing","version":""}
52 => {"call":"read","id":"i","n":7,"name":"a","type":"t"}
66 => {"call":"outputs","n":3,"outputs":{"o":[true,null,"\""]},"urn":""}
93 => {"args":{"k":-1},"call":"invoke","n":4,"provider":"","token":"toy:index:f","version":"2.0.0"}
34 => {"call":"invoke","n":4,"token":""}
40 => {"call":"failed","text":"no output a.k"}"#;

fn is_word_kept(alloc: Global, line: &str) -> Result<bool, Fail> {
    let (length, text) = cells(line);
    let bytes = format!(in alloc; "{}", text.len())?;
    Ok(bytes.as_str() == length && is_word_again(alloc, text, text)?)
}

#[test]
fn words_are_written_as_they_are_read(rt: HostRuntime) -> Result<(), Fail> {
    for line in WORDS.split('\n') {
        assert!(rt; is_word_kept(rt.alloc(), line)?, "{line}");
    }
    Ok(())
}

/// Words as they are read, and as they are written again.
const READ_WORDS: &str = r#"{"call":"\u0064one","text":7} => {"call":"done"}
{"call":"read","id":"i","n":6,"n":7,"name":"a","type":"t","inputs":null,"dependencies":[],"propertyDependencies":{},"parent":"","provider":null,"version":null} => {"call":"read","id":"i","n":7,"name":"a","type":"t"}
{"call":"read","id":"i","n":7,"name":"a","type":"t","custom":0,"protect":[],"aliases":false,"importId":1,"deletedWith":{},"outputs":[1.5]} => {"call":"read","id":"i","n":7,"name":"a","type":"t"}
{"call":"invoke","n":4,"token":"t","args":null} => {"call":"invoke","n":4,"token":"t"}"#;

/// Texts that spell no word.
const NO_WORDS: &str = r#"{"call":"read","id":"","n":7,"name":"a","type":"t"}
{"call":"read","id":null,"n":7,"name":"a","type":"t"}
{"call":"read","n":7,"name":"a","type":"t"}
{"call":"outputs","n":3,"outputs":null,"urn":"u"}
{"call":"outputs","n":3,"urn":"u"}
{"call":"outputs","n":3,"outputs":{}}
{"call":"outputs","n":3,"outputs":{"k":1.5},"urn":"u"}
{"call":"outputs","n":0,"outputs":{},"urn":"u"}
{"call":"invoke","n":4,"args":{}}
{"call":"invoke","n":4,"token":"t","args":[]}
{"call":"failed"}
{"call":"failed","text":null}
{"call":"done "}
{"call":"Done"}
{"call":null}
{}
[{"call":"done"}]

{"call":"done"
{"call":"done"} {}"#;

fn is_word_read(alloc: Global, line: &str) -> Result<bool, Fail> {
    let (text, want) = cells(line);
    is_word_again(alloc, text, want)
}

#[test]
fn words_are_read_by_their_fields(rt: HostRuntime) -> Result<(), Fail> {
    let spaced = " {\"n\": [-1.5e3, {\"a\": null}],\n\"call\" :\"done\" }\t";
    assert!(rt;
        is_word_again(rt.alloc(), spaced, "{\"call\":\"done\"}")?,
        "{spaced}"
    );
    for line in READ_WORDS.split('\n') {
        assert!(rt; is_word_read(rt.alloc(), line)?, "{line}");
    }
    for text in NO_WORDS.split('\n') {
        assert!(rt; is_word_again(rt.alloc(), text, "none")?, "{text}");
    }
    Ok(())
}

const PLAIN: &str = r#"{"call":"register","custom":false,"n":1,"name":"a","type":"t"}"#;

/// Fields, the first none, that leave a registration as it is without them.
const DEFAULTS: &str = r#"
,"custom":false,"protect":false,"retainOnDelete":false
,"custom":null,"protect":null,"retainOnDelete":null,"deleteBeforeReplace":null
,"inputs":{},"propertyDependencies":{},"dependencies":[],"aliases":[]
,"inputs":null,"propertyDependencies":null,"dependencies":null,"aliases":null
,"ignoreChanges":[],"additionalSecretOutputs":null
,"provider":null,"importId":null,"version":null,"deletedWith":null
,"parent":null
,"parent":""
,"id":7,"outputs":[],"text":null,"args":1,"more":{"a":[1.5,{"b":[[]]}]}
,"n":2,"n":1"#;

/// Fields with which there is no registration.
const NO_FIELDS: &str = r#","n":0
,"n":9007199254740993
,"n":18446744073709551616
,"n":-1
,"n":1.0
,"n":1e0
,"n":"1"
,"n":null
,"name":null
,"type":["t"]
,"parent":7
,"provider":[]
,"version":1
,"importId":false
,"deletedWith":{}
,"custom":"false"
,"protect":0
,"retainOnDelete":""
,"deleteBeforeReplace":1
,"inputs":[]
,"inputs":{"k":9223372036854775808}
,"inputs":{"k":{"4dabf18193072939515e22adb298388d":1}}
,"inputs":{"4dabf18193072939515e22adb298388d":"1b47061264138c4ac30d75fd1eb44270","plaintext":"{}"}
,"propertyDependencies":{"k":null}
,"propertyDependencies":{"k":[1]}
,"propertyDependencies":[]
,"dependencies":[null]
,"aliases":{}
,"ignoreChanges":"p"
,"additionalSecretOutputs":[[]]
,"more":"\ud800""#;

#[test]
fn registrations_are_read_by_their_fields(rt: HostRuntime) -> Result<(), Fail> {
    for fields in DEFAULTS.split('\n') {
        assert!(rt;
            is_registration_again(rt.alloc(), fields, PLAIN)?,
            "{fields}"
        );
    }
    for fields in NO_FIELDS.split('\n') {
        assert!(rt;
            is_registration_again(rt.alloc(), fields, "none")?,
            "{fields}"
        );
    }
    Ok(())
}

/// Answers as they are written.
const ANSWERS: &str =
    r#"{"n":1,"ok":{"outputs":{},"urn":"urn:pulumi:dev::web::pulumi:pulumi:Stack::web-dev"}}
{"n":2,"ok":{"outputs":{},"urn":"urn:pulumi:dev::web::my:index:Site::s"}}
{"n":3,"ok":{"id":"a-1","outputs":{"k":1},"urn":"urn:pulumi:dev::web::toy:index:Thing::a"}}
{"n":3,"ok":{"id":"","outputs":{"k":{"4dabf18193072939515e22adb298388d":"1b47061264138c4ac30d75fd1eb44270","plaintext":"1"}},"urn":"urn:pulumi:dev::web::toy:index:Thing::a"}}
{"n":4,"ok":{}}
{"n":9007199254740992,"ok":{"result":{"k":[]}}}
{"error":"halted","n":5}
{"error":"","n":5}"#;

/// Answers as they are read, and as they are written again.
const READ_ANSWERS: &str =
    r#"{"n":2,"ok":{"outputs":{},"urn":"urn:pulumi:dev::web::my:index:Site::s","result":1}} => {"n":2,"ok":{"outputs":{},"urn":"urn:pulumi:dev::web::my:index:Site::s"}}
{"n":2,"ok":{"outputs":{},"more":"urn:pulumi:dev::web::my:index:Site::s"}} => {"n":2,"ok":{}}
{"n":2,"ok":{},"more":1.5} => {"n":2,"ok":{}}"#;

/// Texts that spell no answer.
const NO_ANSWERS: &str =
    r#"{"n":2,"ok":{"id":null,"outputs":{},"urn":"urn:pulumi:dev::web::my:index:Site::s"}}
{"n":2,"ok":{"id":7,"outputs":{},"urn":"urn:pulumi:dev::web::my:index:Site::s"}}
{"n":2,"ok":{"outputs":null,"urn":"urn:pulumi:dev::web::my:index:Site::s"}}
{"n":2,"ok":{"urn":"urn:pulumi:dev::web::my:index:Site::s"}}
{"n":2,"ok":{"outputs":{},"urn":"xurn:pulumi:dev::web::my:index:Site::s"}}
{"n":2,"ok":{"outputs":{},"result":{},"urn":null,"more":"urn:pulumi:dev::web::my:index:Site::s"}}
{"n":2,"ok":{"result":null,"more":"urn:pulumi:dev::web::my:index:Site::s"}}
{"n":0,"ok":{}}
{"ok":{}}
{"n":2}
{"n":2,"ok":null}
{"n":2,"ok":[]}
{"n":2,"ok":{},"error":null}
{"n":2,"error":null}
{"n":2,"error":1}
[]
"#;

#[test]
fn answers_are_written_as_they_are_read(rt: HostRuntime) -> Result<(), Fail> {
    for text in ANSWERS.split('\n') {
        assert!(rt; is_answer_again(rt.alloc(), text, text)?, "{text}");
    }
    Ok(())
}

fn is_answer_read(alloc: Global, line: &str) -> Result<bool, Fail> {
    let (text, want) = cells(line);
    is_answer_again(alloc, text, want)
}

#[test]
fn answers_are_read_by_their_fields(rt: HostRuntime) -> Result<(), Fail> {
    for line in READ_ANSWERS.split('\n') {
        assert!(rt; is_answer_read(rt.alloc(), line)?, "{line}");
    }
    for text in NO_ANSWERS.split('\n') {
        assert!(rt; is_answer_again(rt.alloc(), text, "none")?, "{text}");
    }
    Ok(())
}
