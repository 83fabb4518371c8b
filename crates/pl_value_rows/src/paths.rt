use crate::table::cells;
use pl_path::{Path, PathFault, Segment, get, parse, reset_to_old};
use pl_value::{Fields, OutOfMemory, Text, Value, are_fields};
use sqlite_items::{Boxed, Items};
use std::alloc::Global;
use std::process::Abort;
use std::test::Fail;

// The bytes of each key and the number of each index, each behind a `/`.
fn shown(alloc: Global, path: &Path) -> Result<String, Fail> {
    let mut text = String::new(alloc);
    for segment in path.as_slice() {
        match segment {
            Segment::Key(key) => {
                text.push_str("/")?;
                text.push_str(str::from_utf8(key.as_slice()).ok().ok_or("no text")?)?;
            }
            Segment::Index(index) => text.push_str(format!(in alloc; "/{index}")?.as_str())?,
        }
    }
    Ok(text)
}

// Paths, and what is read of them.
const PATHS: &str = r#"a.b[0]["c"] => /a/b/0/c
a b => /a b
[""] => /
[10].x => /10/x
[2147483647] => /2147483647
a["\"\\"] => /a/"\
*a => /*a
["*"] => /*
é.ü => /é/ü"#;

fn is_read(alloc: Global, text: &str, want: &str) -> Result<bool, Fail> {
    let path = parse(alloc, text)?;
    let made = shown(alloc, &path)?;
    Ok(made.as_str() == want)
}

fn is_path_read(alloc: Global, line: &str) -> Result<bool, Fail> {
    let (text, want) = cells(line);
    is_read(alloc, text, want)
}

#[test]
fn paths_are_read(rt: HostRuntime) -> Result<(), Fail> {
    for line in PATHS.split('\n') {
        assert!(rt; is_path_read(rt.alloc(), line)?, "{line}");
    }
    Ok(())
}

// Texts that are no path, and the place at which they are refused.
const NO_PATHS: &str = r#"a..b => 2
a[01] => 3
* => 0
a.*[0] => 2
 => 0
[2147483648] => 10
a. => 2
a[ => 2
a[] => 2
a] => 1
a[0]b => 4
["\n"] => 3
["a" => 4"#;

// The place at which the text is refused.
fn place_in(alloc: Global, text: &str) -> Result<String, Fail> {
    match parse(alloc, text) {
        Err(PathFault::BadPath(place)) => Ok(format!(in alloc; "{place}")?),
        _ => Ok(String::from_str(alloc, "none")?),
    }
}

fn is_refused(alloc: Global, line: &str) -> Result<bool, Fail> {
    let (text, want) = cells(line);
    let place = place_in(alloc, text)?;
    Ok(place.as_str() == want)
}

#[test]
fn other_texts_are_refused(rt: HostRuntime) -> Result<(), Fail> {
    for line in NO_PATHS.split('\n') {
        assert!(rt; is_refused(rt.alloc(), line)?, "{line}");
    }
    Ok(())
}

// The value after one more letter of a notation: some letters make a value, the others put the one before into
// another.
fn step(alloc: Global, inner: Value, letter: u8) -> Result<Value, OutOfMemory> {
    match letter {
        b'n' => Ok(Value::Null),
        b'v' => Ok(Value::Object(Items::new(alloc))),
        b's' => Ok(Value::Secret(Boxed::new(alloc, inner)?)),
        b'l' => listed(alloc, inner),
        b'o' => keyed(alloc, inner),
        digit => Ok(Value::Whole(digit as i64)),
    }
}

fn listed(alloc: Global, inner: Value) -> Result<Value, OutOfMemory> {
    let mut values = Items::new(alloc);
    values.push(inner)?;
    Ok(Value::List(values))
}

fn keyed(alloc: Global, inner: Value) -> Result<Value, OutOfMemory> {
    let key = Text::from_str(alloc, "k")?;
    let mut fields = Items::new(alloc);
    fields.push((key, inner))?;
    Ok(Value::Object(fields))
}

// The value of a notation, inside so many lists.
fn value_in(alloc: Global, notation: &str, lists: u64) -> Result<Value, OutOfMemory> {
    let mut value = Value::Null;
    for letter in notation.as_bytes() {
        value = step(alloc, value, *letter)?;
    }
    for _ in 0..lists {
        value = listed(alloc, value)?;
    }
    Ok(value)
}

// The fields of a notation, as `a=1o b=2`; what stands under `deep` is inside 60 lists.
fn pairs(alloc: Global, text: &str) -> Result<Vec<(Text, Value)>, OutOfMemory> {
    let mut made = Vec::new(alloc);
    for part in text.split(' ') {
        if let Some((key, notation)) = part.split_once('=') {
            let lists = if key == "deep" { 60 } else { 0 };
            let name = Text::from_str(alloc, key)?;
            let value = value_in(alloc, notation, lists)?;
            made.push((name, value))?;
        }
    }
    Ok(made)
}

fn checked(made: Vec<(Text, Value)>) -> Option<Fields> {
    if are_fields(made.as_slice()) {
        Some(Fields::from_vec(made))
    } else {
        None
    }
}

fn fields(alloc: Global, text: &str) -> Result<Fields, Fail> {
    let made = pairs(alloc, text)?;
    let fields = checked(made).ok_or("no fields")?;
    Ok(fields)
}

fn reset(alloc: Global, path: &str, new: &str, old: &str) -> Result<Fields, Fail> {
    let path = parse(alloc, path)?;
    let new = fields(alloc, new)?;
    let old = fields(alloc, old)?;
    match reset_to_old(alloc, &path, new, &old) {
        Ok(made) => Ok(made),
        Err((_, error)) => Err(Fail::from(error)),
    }
}

fn resets(alloc: Global, path: &str, new: &str, old: &str, want: &str) -> Result<bool, Fail> {
    let made = reset(alloc, path, new, old)?;
    let want = fields(alloc, want)?;
    Ok(Value::from_fields(made).same_as(&Value::from_fields(want)))
}

// A path, fields, older ones, and what is set back; `-` for none.
const RESETS: &str = r#"k => k=2 => - => -
k => k=2 => k=3 => k=3
b => a=1 c=1 => b=2s => a=1 b=2s c=1
a.k => a=1o => a=2o => a=2o
a.k => a=1os => a=2oss => a=2os
a.k => a=1o b=4 => - => a=v b=4
a[0] => a=1l => a=2ls => a=2l
a[0] => a=1l => - => a=1l
a[1] => a=1l => a=2l => a=1l
a[0].k => a=1ol => a=2l => a=vl
b.k => a=1 => b=2o => a=1
a.k => a=1l => a=2o => a=1l
[0] => a=1 => a=2 => a=1
deep => - => deep=1llll => deep=1llll
deep => - => deep=1lllll => -"#;

fn is_reset(alloc: Global, line: &str) -> Result<bool, Fail> {
    let (path, rest) = cells(line);
    let (new, rest) = cells(rest);
    let (old, want) = cells(rest);
    resets(alloc, path, new, old, want)
}

#[test]
fn fields_are_set_back(rt: HostRuntime) -> Result<(), Fail> {
    for line in RESETS.split('\n') {
        assert!(rt; is_reset(rt.alloc(), line)?, "{line}");
    }
    Ok(())
}

fn finds(alloc: Global, path: &str, text: &str, notation: &str) -> Result<bool, Fail> {
    let path = parse(alloc, path)?;
    let fields = fields(alloc, text)?;
    let want = value_in(alloc, notation, 0)?;
    Ok(get(&path, &fields).is_some_and(|value| value.same_as(&want)))
}

#[test]
fn values_are_found(rt: HostRuntime) -> Result<(), Fail> {
    for (path, text, notation, found) in [
        ("a", "a=1s", "1s", true),
        ("a.k", "a=1sos", "1s", true),
        ("a[0].k[0]", "a=1lossl", "1", true),
        ("a[1]", "a=1l", "1", false),
        ("b", "a=1", "1", false),
        ("a.k", "a=1l", "1", false),
    ] {
        let answer = finds(rt.alloc(), path, text, notation)?;
        assert!(rt; answer == found, "{path} {text}");
    }
    Ok(())
}
