use crate::table::cells;
use pl_json::{FieldsFault, read_fields, read_value, text_of, text_of_fields};
use pl_value::{JsonFault, Value};
use serde_json::Value as Json;
use std::alloc::Global;
use std::test::Fail;

fn spelled_again(alloc: Global, text: &str) -> Result<String, Fail> {
    let json = Json::from_str(alloc, text)?;
    match read_value(alloc, &json, "") {
        Ok(value) => Ok(text_of(alloc, &value)?.into_string()),
        Err(fault) => fault_text(alloc, &fault),
    }
}

/// Values as they are spelled.
const SPELLED: &str = r#"null
true
"04da6b54-80e4-46f7-96ec-b56ff0331ba9"
[]
{}
-9223372036854775808
"a \"b\""
[1,[],"04da6b54-80e4-46f7-96ec-b56ff0331ba9"]
{"B":false,"a":null}
{"k":{"4dabf18193072939515e22adb298388d":"1b47061264138c4ac30d75fd1eb44270","plaintext":"1"}}
{"4dabf18193072939515e22adb298388d":"1b47061264138c4ac30d75fd1eb44270","plaintext":"{\"4dabf18193072939515e22adb298388d\":\"1b47061264138c4ac30d75fd1eb44270\",\"plaintext\":\"null\"}"}"#;

#[test]
fn values_are_spelled_as_they_are_read(rt: HostRuntime) -> Result<(), Fail> {
    for text in SPELLED.split('\n') {
        let made = spelled_again(rt.alloc(), text)?;
        assert!(rt; made.as_str() == text, "{made}");
    }
    Ok(())
}

const INPUTS: &str = "checkpoint.latest.resources[0].inputs";

fn fault_text(alloc: Global, fault: &JsonFault) -> Result<String, Fail> {
    let (name, path) = match fault {
        JsonFault::NotWhole(path) => ("NotWhole", path.as_str()),
        JsonFault::SecretSealed(path) => ("SecretSealed", path.as_str()),
        JsonFault::BadSecret(path) => ("BadSecret", path.as_str()),
        JsonFault::TooDeep(path) => ("TooDeep", path.as_str()),
        JsonFault::OutOfMemory => return Err(Fail::from("out of memory")),
    };
    Ok(format!(in alloc; "{name} {path}")?)
}

// What the JSON reads as: the text of the value, with another text for each secret, or the fault.
fn read_text(alloc: Global, json: &str, path: &str) -> Result<String, Fail> {
    let json = Json::from_str(alloc, json)?;
    match read_value(alloc, &json, path) {
        Ok(Value::Unknown) => Ok(String::from_str(alloc, "unknown")?),
        Ok(value) => Ok(text_of(alloc, &value.masked(alloc)?)?.into_string()),
        Err(fault) => fault_text(alloc, &fault),
    }
}

fn read_fields_text(alloc: Global, json: &str) -> Result<String, Fail> {
    let json = Json::from_str(alloc, json)?;
    match read_fields(alloc, &json, INPUTS) {
        Ok(fields) => Ok(text_of_fields(alloc, &fields)?.into_string()),
        Err(FieldsFault::WrongKind) => Ok(String::from_str(alloc, "WrongKind")?),
        Err(FieldsFault::Json(fault)) => fault_text(alloc, &fault),
    }
}

// The template with the key and the mark of a secret for `K` and `M`.
fn with_marks(alloc: Global, template: &str) -> Result<String, Fail> {
    let mut made = String::new(alloc);
    for byte in template.chars() {
        match byte {
            'K' => made.push_str("\"4dabf18193072939515e22adb298388d\"")?,
            'M' => made.push_str("\"1b47061264138c4ac30d75fd1eb44270\"")?,
            _ => made.push(byte)?,
        }
    }
    Ok(made)
}

fn repeated(alloc: Global, text: &str, times: u64) -> Result<String, Fail> {
    let mut made = String::new(alloc);
    for _ in 0..times {
        made.push_str(text)?;
    }
    Ok(made)
}

// So many lists in each other.
fn lists(alloc: Global, levels: u64) -> Result<String, Fail> {
    let (before, after) = (repeated(alloc, "[", levels)?, repeated(alloc, "]", levels)?);
    Ok(format!(in alloc; "{before}{after}")?)
}

/// What is read, the path at which it stands, and what comes of it.
const READ: &str = r#"{"b":[true,null],"a":"x"} => v => {"a":"x","b":[true,null]}
"04da6b54-80e4-46f7-96ec-b56ff0331ba9" => v => unknown
9223372036854775807 => v => 9223372036854775807
-9223372036854775808 => v => -9223372036854775808
9223372036854775808 => v => NotWhole v
-9223372036854775809 => v => NotWhole v
-0 => v => NotWhole v
1e2 => v => NotWhole v
[1,[2,0.5]] => v => NotWhole v[1][1]
{"a":{"b":[0.5]}} => v => NotWhole v.a.b[0]
{"a":{"b":[0.5]}} =>  => NotWhole a.b[0]
{"":{"b":0.5}} =>  => NotWhole .b
[0.5] =>  => NotWhole [0]
{"b":0.5,"a":{K:0}} => v => BadSecret v.a
{"a":0.5,K:0} => v => BadSecret v
{"a":1,K:"00"} => v => {"4dabf18193072939515e22adb298388d":"00","a":1}
{K:M,"plaintext":"1","ciphertext":"x","a":0.5} => v => "[secret]"
{K:M,"plaintext":" [ ]"} => v => "[secret]"
{K:M,"plaintext":null,"ciphertext":"x"} => v => BadSecret v
{K:M,"plaintext":"[1"} => v => BadSecret v
{K:M,"plaintext":"[0.5]"} => v => NotWhole v
{K:M,"ciphertext":null} => v => SecretSealed v
{K:M} => v => BadSecret v"#;

fn is_value_read(alloc: Global, line: &str) -> Result<bool, Fail> {
    let (template, rest) = cells(line);
    let (path, want) = cells(rest);
    let json = with_marks(alloc, template)?;
    let made = read_text(alloc, json.as_str(), path)?;
    Ok(made.as_str() == want)
}

#[test]
fn values_are_read(rt: HostRuntime) -> Result<(), Fail> {
    for line in READ.split('\n') {
        assert!(rt; is_value_read(rt.alloc(), line)?, "{line}");
    }
    Ok(())
}

// What a value comes to that stands in so many lists.
fn deep_text(alloc: Global, levels: u64, inner: &str) -> Result<String, Fail> {
    let inner = with_marks(alloc, inner)?;
    let (before, after) = (repeated(alloc, "[", levels)?, repeated(alloc, "]", levels)?);
    let json = format!(in alloc; "{before}{inner}{after}")?;
    read_text(alloc, json.as_str(), "v")
}

fn is_deep(alloc: Global, levels: u64, inner: &str) -> Result<bool, Fail> {
    let found = deep_text(alloc, levels, inner)?;
    let places = repeated(alloc, "[0]", 64)?;
    let want = format!(in alloc; "TooDeep v{places}")?;
    Ok(found.as_str() == want.as_str())
}

// What comes of the text of so many lists as the text of a secret.
fn deep_secret(alloc: Global, levels: u64) -> Result<String, Fail> {
    let marked = with_marks(alloc, "{K:M,\"plaintext\":\"")?;
    let lists = lists(alloc, levels)?;
    Ok(format!(in alloc; "{marked}{lists}\"}}")?)
}

fn is_deep_secret(alloc: Global, levels: u64) -> Result<bool, Fail> {
    let json = deep_secret(alloc, levels)?;
    let found = read_text(alloc, json.as_str(), "v")?;
    Ok(found.as_str() == "TooDeep v")
}

#[test]
fn deep_values_are_refused(rt: HostRuntime) -> Result<(), Fail> {
    let most = lists(rt.alloc(), 64)?;
    let found = deep_text(rt.alloc(), 64, "")?;
    assert!(rt; found.as_str() == most.as_str(), "{found}");
    assert!(rt; is_deep(rt.alloc(), 65, "")?, "a list more");
    assert!(rt; is_deep(rt.alloc(), 64, "{K:0}")?, "a bad secret below");
    assert!(rt; is_deep_secret(rt.alloc(), 64)?, "in a secret");
    Ok(())
}

/// What is read as fields, and what comes of it.
const READ_FIELDS: &str = r#"{"b":1,"a":[]} => {"a":[],"b":1}
{"o":{K:"00"}} => {"o":{"4dabf18193072939515e22adb298388d":"00"}}
{"s":{K:M,"ciphertext":"x"}} => SecretSealed checkpoint.latest.resources[0].inputs.s
{"n":0.5} => NotWhole checkpoint.latest.resources[0].inputs.n
{"o":{K:0}} => BadSecret checkpoint.latest.resources[0].inputs.o
[] => WrongKind
null => WrongKind
{K:M,"plaintext":"{}"} => WrongKind
{K:M,"plaintext":"0.5"} => NotWhole checkpoint.latest.resources[0].inputs
{K:M,"ciphertext":"x"} => SecretSealed checkpoint.latest.resources[0].inputs"#;

fn are_fields_read(alloc: Global, line: &str) -> Result<bool, Fail> {
    let (template, want) = cells(line);
    let json = with_marks(alloc, template)?;
    let made = read_fields_text(alloc, json.as_str())?;
    Ok(made.as_str() == want)
}

#[test]
fn fields_are_read(rt: HostRuntime) -> Result<(), Fail> {
    for line in READ_FIELDS.split('\n') {
        assert!(rt; are_fields_read(rt.alloc(), line)?, "{line}");
    }
    Ok(())
}

// What comes of fields with so many lists under a key.
fn deep_field(alloc: Global, levels: u64) -> Result<String, Fail> {
    let lists = lists(alloc, levels)?;
    Ok(format!(in alloc; "{{\"k\":{lists}}}")?)
}

fn is_deep_field(alloc: Global, levels: u64) -> Result<bool, Fail> {
    let json = deep_field(alloc, levels)?;
    let found = read_fields_text(alloc, json.as_str())?;
    let places = repeated(alloc, "[0]", 64)?;
    let want = format!(in alloc; "TooDeep {INPUTS}.k{places}")?;
    Ok(found.as_str() == want.as_str())
}

fn are_fields_kept(alloc: Global, json: &str) -> Result<bool, Fail> {
    let found = read_fields_text(alloc, json)?;
    Ok(found.as_str() == json)
}

// What comes of a secret in place of fields, whose text is so many lists.
fn secret_fields(alloc: Global, levels: u64) -> Result<String, Fail> {
    let json = deep_secret(alloc, levels)?;
    read_fields_text(alloc, json.as_str())
}

#[test]
fn deep_fields_are_refused(rt: HostRuntime) -> Result<(), Fail> {
    let most = deep_field(rt.alloc(), 64)?;
    assert!(rt; are_fields_kept(rt.alloc(), most.as_str())?, "the deepest");
    assert!(rt; is_deep_field(rt.alloc(), 65)?, "a list more");
    let kind = secret_fields(rt.alloc(), 64)?;
    assert!(rt; kind.as_str() == "WrongKind", "{kind}");
    let deep = secret_fields(rt.alloc(), 65)?;
    assert!(rt;
        deep.as_str() == "TooDeep checkpoint.latest.resources[0].inputs",
        "{deep}"
    );
    Ok(())
}
