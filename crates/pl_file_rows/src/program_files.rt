use crate::table::cells;
use pl_json::{read_fields, text_of_fields};
use pl_program_file::{
    Known, Program, Unfilled, filled_fields, names_of, read_program, registration,
};
use pl_urn::parse;
use pl_value::{Fields, Text};
use serde_json::Value as Json;
use std::alloc::Global;
use std::test::Fail;

const STACK: &str = "urn:pulumi:dev::web::pulumi:pulumi:Stack::web-dev";

fn fields(alloc: Global, text: &str) -> Result<Fields, Fail> {
    let json = Json::from_str(alloc, text)?;
    match read_fields(alloc, &json, "") {
        Ok(fields) => Ok(fields),
        Err(_) => Err(Fail::from("no fields")),
    }
}

fn known(alloc: Global, name: &str, id: Option<&str>, outputs: &str) -> Result<Known, Fail> {
    let urn = format!(in alloc; "urn:pulumi:dev::web::toy:index:Thing::{name}")?;
    let id = match id {
        None => None,
        Some(id) => Some(Text::from_str(alloc, id)?),
    };
    Ok(Known {
        name: Text::from_str(alloc, name)?,
        urn: parse(alloc, urn.as_str())?,
        id,
        outputs: fields(alloc, outputs)?,
    })
}

// The names that the resources use, `/` behind each resource, and whether there are outputs; or that the file is of
// another form.
fn read_text(alloc: Global, text: &str) -> Result<String, Fail> {
    let Ok(program) = read_program(alloc, text.as_bytes()) else {
        return Ok(String::from_str(alloc, "bad")?);
    };
    let mut made = String::new(alloc);
    for resource in program.resources.as_slice() {
        for name in names_of(alloc, resource)?.as_slice() {
            made.push_str(name.as_str())?;
            made.push_str(" ")?;
        }
        made.push_str("/")?;
    }
    if program.outputs.is_some() {
        made.push_str("out")?;
    }
    Ok(made)
}

/// Program files, and the names that their resources use.
const PROGRAMS: &str = r#"{"resources":[],"outputs":{},"more":1} => out
{"resources":[],"outputs":[]} => bad
{"resources":[{"name":"a"}]} => bad
{"resources":[{"name":"a","type":"t","custom":null}]} => /
{"resources":[{"name":"a","type":"t","custom":1}]} => bad
{"resources":[{"name":"","type":"t"}]} => bad
{"resources":[{"name":"a.b","type":"t"}]} => bad
{"resources":[{"name":"a}","type":"t"}]} => bad
{"resources":[{"name":"a","type":"t"},{"name":"a","type":"t"}]} => bad
{"resources":[{"name":"a","type":"t","options":[]}]} => bad
{"resources":[{"name":"a","type":"t","options":{"protect":1}}]} => bad
{"resources":[{"name":"a","type":"t","inputs":{"k":0.5}}]} => bad
{"resources":[{"name":"a","type":"t","options":{"parent":"a"}}]} => bad
{"resources":[{"name":"a","type":"t","inputs":{"k":"${a.k}"}}]} => bad
{"resources":[{"name":"a","type":"t","inputs":{"k":"${a}","l":"${a.}","m":"x${a.k}"}}]} => /
{"resources":[{"name":"a","type":"t"}],"outputs":{"k":"${a.k.l}"}} => /out
{"resources":[{"name":"a","type":"t"}],"outputs":{"k":"${b.k}"}} => bad
{"resources":[{"name":"a","type":"t"},{"name":"b","type":"t","options":{"parent":"a","provider":"a","dependsOn":["a"],"deletedWith":"a"},"inputs":{"k":["${a.id}",{"m":"${a.k}"}]}}]} => /a a a a a a /
 => bad
[] => bad
{} => bad
{"resources":null} => bad"#;

fn is_program_read(alloc: Global, text: &str, want: &str) -> Result<bool, Fail> {
    let made = read_text(alloc, text)?;
    Ok(made.as_str() == want)
}

fn is_line_read(alloc: Global, line: &str) -> Result<bool, Fail> {
    let (text, want) = cells(line);
    is_program_read(alloc, text, want)
}

#[test]
fn programs_are_read(rt: HostRuntime) -> Result<(), Fail> {
    for line in PROGRAMS.split('\n') {
        assert!(rt; is_line_read(rt.alloc(), line)?, "{line}");
    }
    for text in [r#"{"resources":[]}"#, r#"{"resources":[],"outputs":null}"#] {
        assert!(rt; is_program_read(rt.alloc(), text, "")?, "{text}");
    }
    Ok(())
}

fn filled_text(alloc: Global, known: &[Known], preview: bool, text: &str) -> Result<String, Fail> {
    let fields = fields(alloc, text)?;
    match filled_fields(alloc, known, preview, &fields) {
        Ok(made) => Ok(text_of_fields(alloc, &made)?.into_string()),
        Err(Unfilled::Missing { name, key }) => {
            Ok(format!(in alloc; "{}.{}", name.as_str(), key.as_str())?)
        }
        Err(Unfilled::OutOfMemory) => Err(Fail::from("out of memory")),
    }
}

/// Fields with references, and what they are filled to, in a run and in a preview.
const FILLED: &str = r#"{"x":"${a.k}"} => {"x":[1]} => {"x":[1]}
{"x":["${a.id}"]} => {"x":["a-1"]} => {"x":["a-1"]}
{"x":"${a.n}"} => {"x":null} => {"x":null}
{"x":"${a}"} => {"x":"${a}"} => {"x":"${a}"}
{"x":"${c.id}","y":"${a.m}"} => c.id => {"x":"04da6b54-80e4-46f7-96ec-b56ff0331ba9","y":"04da6b54-80e4-46f7-96ec-b56ff0331ba9"}
{"4dabf18193072939515e22adb298388d":"${a.k}"} => a.k => {"4dabf18193072939515e22adb298388d":"04da6b54-80e4-46f7-96ec-b56ff0331ba9"}
{"x":{"4dabf18193072939515e22adb298388d":"${a.k}"}} => a.k => {"x":{"4dabf18193072939515e22adb298388d":"04da6b54-80e4-46f7-96ec-b56ff0331ba9"}}"#;

fn known_rows(alloc: Global) -> Result<Vec<Known>, Fail> {
    let mut rows = Vec::new(alloc);
    rows.push(known(alloc, "a", Some("a-1"), "{\"k\":[1],\"n\":null}")?)?;
    rows.push(known(alloc, "c", None, "{}")?)?;
    Ok(rows)
}

fn is_filled(alloc: Global, known: &[Known], line: &str) -> Result<bool, Fail> {
    let (text, wants) = cells(line);
    let (want, in_preview) = cells(wants);
    let made = filled_text(alloc, known, false, text)?;
    let planned = filled_text(alloc, known, true, text)?;
    Ok(made.as_str() == want && planned.as_str() == in_preview)
}

#[test]
fn references_are_filled(rt: HostRuntime) -> Result<(), Fail> {
    let known = known_rows(rt.alloc())?;
    for line in FILLED.split('\n') {
        assert!(rt; is_filled(rt.alloc(), known.as_slice(), line)?, "{line}");
    }
    Ok(())
}
