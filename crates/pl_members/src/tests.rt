use crate::{
    Unread, flag_or, json_of, keyed_or_none, nonempty_text, put_flag, put_text_if_some,
    request_number, some_texts, text, texts_or_none,
};
use pl_value::Text;
use serde_json::{Map, Value};
use std::alloc::{AllocError, Global};
use std::test::Fail;

/// What a reading came to: the number of elements, or why there is none.
fn counted(alloc: Global, read: Result<usize, Unread>) -> Result<String, AllocError> {
    match read {
        Ok(count) => format!(in alloc; "{count}"),
        Err(Unread::WrongForm) => String::from_str(alloc, "-"),
        Err(Unread::OutOfMemory) => Err(AllocError),
    }
}

/// How long the text in the field `a` is, first any and then one that isn't empty.
fn texts(alloc: Global, message: &Value) -> Result<String, AllocError> {
    let any = counted(alloc, text(alloc, message, "a").map(|found| found.len()))?;
    let some = counted(
        alloc,
        nonempty_text(alloc, message, "a").map(|found| found.len()),
    )?;
    format!(in alloc; "{any} {some}")
}

/// How many lists or texts are in the field `a`, as a list, a list with an element, and an object of lists.
fn lists(alloc: Global, message: &Value) -> Result<String, AllocError> {
    let any = counted(
        alloc,
        texts_or_none(alloc, message, "a").map(|found| found.len()),
    )?;
    let some = counted(
        alloc,
        some_texts(alloc, message, "a").map(|found| found.len()),
    )?;
    let keyed = counted(
        alloc,
        keyed_or_none(alloc, message, "a").map(|found| found.len()),
    )?;
    format!(in alloc; "{any} {some} {keyed}")
}

fn parsed(alloc: Global, bytes: &[u8]) -> Result<Value, AllocError> {
    json_of(alloc, bytes).map_err(|_| AllocError)
}

#[test]
fn reads_texts(rt: HostRuntime) -> Result<(), Fail> {
    let alloc = rt.alloc();
    let cases: [(&[u8], &str); 5] = [
        (b"{\"a\":\"bc\"}", "2 2"),
        (b"{\"a\":\"\"}", "0 -"),
        (b"{\"a\":null}", "- -"),
        (b"{\"b\":\"bc\"}", "- -"),
        (b"[\"a\"]", "- -"),
    ];
    for (bytes, expected) in cases {
        let message = parsed(alloc, bytes)?;
        assert_eq!(rt; texts(alloc, &message)?.as_str(), expected);
    }
    Ok(())
}

#[test]
fn reads_lists(rt: HostRuntime) -> Result<(), Fail> {
    let alloc = rt.alloc();
    let cases: [(&[u8], &str); 7] = [
        (b"{\"a\":[\"b\",\"c\"]}", "2 2 -"),
        (b"{\"a\":[]}", "0 - -"),
        (b"{\"a\":null}", "0 - 0"),
        (b"{}", "0 - 0"),
        (b"{\"a\":[\"b\",1]}", "- - -"),
        (b"{\"a\":{\"b\":[\"c\"],\"d\":[]}}", "- - 2"),
        (b"{\"a\":{\"b\":\"c\"}}", "- - -"),
    ];
    for (bytes, expected) in cases {
        let message = parsed(alloc, bytes)?;
        assert_eq!(rt; lists(alloc, &message)?.as_str(), expected);
    }
    Ok(())
}

#[test]
fn reads_numbers_and_flags(rt: HostRuntime) -> Result<(), Fail> {
    let alloc = rt.alloc();
    let message = parsed(
        alloc,
        b"{\"a\":0,\"b\":9007199254740992,\"c\":9007199254740993,\"d\":true,\"e\":null}",
    )?;
    assert_eq!(rt; request_number(&message, "a"), None);
    assert_eq!(rt; request_number(&message, "b"), Some(9007199254740992));
    assert_eq!(rt; request_number(&message, "c"), None);
    assert_eq!(rt; flag_or(&message, "d", false), Some(true));
    assert_eq!(rt; flag_or(&message, "e", true), Some(true));
    assert_eq!(rt; flag_or(&message, "a", true), None);
    Ok(())
}

#[test]
fn writes_what_is_there(rt: HostRuntime) -> Result<(), Fail> {
    let alloc = rt.alloc();
    let mut members = Map::new(alloc);
    put_flag(alloc, &mut members, "set", true)?;
    put_flag(alloc, &mut members, "left", false)?;
    put_text_if_some(alloc, &mut members, "none", &None)?;
    let some = Some(Text::from_str(alloc, "b")?);
    put_text_if_some(alloc, &mut members, "a", &some)?;
    let written = Value::Object(members).to_string(alloc)?;
    assert_eq!(rt; written.as_str(), "{\"a\":\"b\",\"set\":true}");
    Ok(())
}
