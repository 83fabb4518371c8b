use pl_value::{
    Fields, OutOfMemory, Text, Texts, Value, are_fields, changed_keys, mark_secrets, secret_key,
    secret_mark, unknown_text,
};
use sqlite_items::{Boxed, Items};
use std::alloc::Global;
use std::test::Fail;

// The value after one more letter of a notation: most letters make a value, the others put the one
// before into another.
fn step(alloc: Global, inner: Value, letter: u8) -> Result<Value, OutOfMemory> {
    match letter {
        b'n' => Ok(Value::Null),
        b'u' => Ok(Value::Unknown),
        b'e' => Ok(Value::List(Items::new(alloc))),
        b't' => Ok(Value::Text(Text::from_str(alloc, "other")?)),
        b'h' => Ok(Value::Text(Text::from_str(alloc, "[secret]")?)),
        b'U' => Ok(Value::Text(Text::from_str(alloc, unknown_text())?)),
        b'M' => Ok(Value::Text(Text::from_str(alloc, secret_mark())?)),
        b's' => Ok(Value::Secret(Boxed::new(alloc, inner)?)),
        b'l' => listed(alloc, inner),
        b'o' => keyed(alloc, "k", inner),
        b'x' => keyed(alloc, secret_key(), inner),
        digit => Ok(Value::Whole(digit as i64)),
    }
}

fn listed(alloc: Global, inner: Value) -> Result<Value, OutOfMemory> {
    let mut values = Items::new(alloc);
    values.push(inner)?;
    Ok(Value::List(values))
}

fn keyed(alloc: Global, key: &str, inner: Value) -> Result<Value, OutOfMemory> {
    let key = Text::from_str(alloc, key)?;
    let mut fields = Items::new(alloc);
    fields.push((key, inner))?;
    Ok(Value::Object(fields))
}

// The value of a notation, inside so many lists.
fn value_in(alloc: Global, notation: &str, lists: u64) -> Result<Value, OutOfMemory> {
    let mut value = Value::Null;
    for letter in notation.as_bytes() {
        value = step(alloc, value, *letter)?;
    }
    for _ in 0..lists {
        value = listed(alloc, value)?;
    }
    Ok(value)
}

// Each key with the value of its notation, which stands in 60 lists under the key `deep`.
fn pairs(alloc: Global, cases: &[(&str, &str)]) -> Result<Vec<(Text, Value)>, OutOfMemory> {
    let mut made = Vec::new(alloc);
    for (key, notation) in cases {
        let lists = if *key == "deep" { 60 } else { 0 };
        let name = Text::from_str(alloc, key)?;
        let value = value_in(alloc, notation, lists)?;
        made.push((name, value))?;
    }
    Ok(made)
}

fn checked(made: Vec<(Text, Value)>) -> Option<Fields> {
    if are_fields(made.as_slice()) {
        Some(Fields::from_vec(made))
    } else {
        None
    }
}

fn fields(alloc: Global, cases: &[(&str, &str)]) -> Result<Fields, Fail> {
    let made = pairs(alloc, cases)?;
    let fields = checked(made).ok_or("no fields")?;
    Ok(fields)
}

fn texts(alloc: Global, words: &[&str]) -> Result<Texts, OutOfMemory> {
    let mut made = Texts::new(alloc);
    for word in words {
        let text = Text::from_str(alloc, word)?;
        made.push(text)?;
    }
    Ok(made)
}

fn depth_of(alloc: Global, notation: &str, lists: u64) -> Result<u64, OutOfMemory> {
    Ok(value_in(alloc, notation, lists)?.depth())
}

#[test]
fn measures_depth(rt: HostRuntime) -> Result<(), Fail> {
    let cases = [
        ("n", 0, 0),
        ("t", 0, 0),
        ("u", 0, 0),
        ("e", 0, 1),
        ("ns", 0, 1),
        ("1o", 0, 1),
        ("eslo", 0, 4),
        ("ess", 0, 3),
        ("e", 63, 64),
    ];
    for (notation, lists, depth) in cases {
        assert_eq!(rt; depth_of(rt.alloc(), notation, lists)?, depth, "{notation}");
    }
    Ok(())
}

// Whether it is a value, whether it has the unknown, whether it is the same as its copy, and as its secret.
fn answers(alloc: Global, notation: &str) -> Result<(bool, bool, bool, bool), OutOfMemory> {
    let value = value_in(alloc, notation, 0)?;
    let is_value = value.is_value();
    let has_unknown = value.has_unknown();
    let copy = value.copy(alloc)?;
    let same = value.same_as(&copy);
    let wrapped = step(alloc, copy, b's')?;
    let same_wrapped = value.same_as(&wrapped);
    Ok((is_value, has_unknown, same, same_wrapped))
}

#[test]
fn knows_values(rt: HostRuntime) -> Result<(), Fail> {
    let cases = [
        ("n", true, false),
        ("tls", true, false),
        ("uls", true, true),
        ("uo", true, true),
        ("U", false, false),
        ("Uslo", false, false),
        ("nx", false, false),
        ("tsx", false, false),
        ("Mx", false, false),
        ("Mo", true, false),
        ("tx", true, false),
        ("uxs", true, true),
    ];
    for (notation, is_value, has_unknown) in cases {
        let found = answers(rt.alloc(), notation)?;
        assert_eq!(rt; found, (is_value, has_unknown, true, false), "{notation}");
    }
    Ok(())
}

fn masks(alloc: Global, notation: &str, shown: &str) -> Result<bool, OutOfMemory> {
    let value = value_in(alloc, notation, 0)?;
    if !value.is_value() {
        return Ok(false);
    }
    let masked = value.masked(alloc)?;
    let expected = value_in(alloc, shown, 0)?;
    Ok(masked.same_as(&expected))
}

#[test]
fn masks_secrets(rt: HostRuntime) -> Result<(), Fail> {
    let cases = [
        ("tlo", "tlo"),
        ("1s", "h"),
        ("1ss", "h"),
        ("1slol", "hlol"),
        ("ux", "ux"),
        ("1slsl", "hl"),
    ];
    for (notation, shown) in cases {
        assert!(rt; masks(rt.alloc(), notation, shown)?, "{notation}");
    }
    Ok(())
}

fn marked(alloc: Global, cases: &[(&str, &str)], keys: &[&str]) -> Result<Fields, Fail> {
    let before = fields(alloc, cases)?;
    let keys = texts(alloc, keys)?;
    match mark_secrets(alloc, before, &keys) {
        Ok(made) => Ok(made),
        Err((_, error)) => Err(Fail::from(error)),
    }
}

fn marks<'a>(alloc: Global, key: &'a str, notation: &'a str, after: &'a str) -> Result<bool, Fail> {
    let made = marked(alloc, &[(key, notation)], &[key])?;
    let expected = fields(alloc, &[(key, after)])?;
    Ok(Value::from_fields(made).same_as(&Value::from_fields(expected)))
}

#[test]
fn marks_secrets(rt: HostRuntime) -> Result<(), Fail> {
    let cases = [
        ("a", "1", "1s"),
        ("a", "1s", "1s"),
        ("a", "1sl", "1sls"),
        ("4dabf18193072939515e22adb298388d", "t", "t"),
    ];
    for (key, notation, after) in cases {
        assert!(rt;
            marks(rt.alloc(), key, notation, after)?,
            "{key} {notation}"
        );
    }
    Ok(())
}

// How deep the value of this notation in 60 lists is once it was to be marked.
fn marked_depth(alloc: Global, notation: &str) -> Result<u64, Fail> {
    let made = marked(alloc, &[("deep", notation)], &["absent", "deep"])?;
    let depth = made.find("deep").map(|value| value.depth());
    Ok(depth.ok_or("no such field")?)
}

#[test]
fn marks_no_value_that_is_too_deep(rt: HostRuntime) -> Result<(), Fail> {
    assert_eq!(rt; marked_depth(rt.alloc(), "ell")?, 64);
    assert_eq!(rt; marked_depth(rt.alloc(), "elll")?, 64);
    assert_eq!(rt; marked_depth(rt.alloc(), "ellll")?, 65);
    Ok(())
}

fn changes(alloc: Global, old: &[(&str, &str)], new: &[(&str, &str)]) -> Result<String, Fail> {
    let old = fields(alloc, old)?;
    let new = fields(alloc, new)?;
    let keys = changed_keys(alloc, &old, &new)?;
    let mut spelled = String::new(alloc);
    for key in keys.as_slice() {
        spelled.push_str(key.as_str())?;
        spelled.push_str(" ")?;
    }
    Ok(spelled)
}

#[test]
fn tells_changed_keys(rt: HostRuntime) -> Result<(), Fail> {
    let old = [
        ("a", "1"),
        ("b", "2l"),
        ("c", "3s"),
        ("d", "4"),
        ("dd", "n"),
    ];
    let new = [("B", "1"), ("b", "2l"), ("c", "3"), ("d", "5"), ("e", "n")];
    let changed = changes(rt.alloc(), &old, &new)?;
    assert_eq!(rt; changed.as_str(), "B a c d dd e ");
    let nothing = changes(rt.alloc(), &old, &old)?;
    assert_eq!(rt; nothing.as_str(), "");
    Ok(())
}
