use crate::table::cells;
use pl_cli::{Command, WordFault, file_of, read_words, spells_state};
use pl_value::Words;
use std::alloc::{AllocError, Global};
use std::test::Fail;

// A row's words stand between blanks, so that two blanks have an empty word between them; the empty row has no word. Behind
// the arrow stands what it is read as: the stack, the project, the file where it is not the usual one, and the host's words,
// or the work and the file of `state`, or the place at which it is refused.

// Lines that the words of the command line are known by.
const WORKED: &str = r#" => bad 0
up --stack => bad 1
up --stack dev -- h => bad 3"#;

// The command.
const FIRST: &str = r#"  => bad 0
-- => bad 0
-- h => bad 0
down => bad 0
u --stack dev --project web -- h => bad 0
upp --stack dev --project web -- h => bad 0
UP --stack dev --project web -- h => bad 0
preview --stack dev --project web -- h => bad 0
--help => bad 0
--stack dev up --project web -- h => bad 0"#;

// Both forms of an option, in any order.
const FORMS: &str = r#"up --stack dev --project web -- h => dev web: h
up --project web --stack dev -- h => dev web: h
up --stack=dev --project=web -- h => dev web: h
up --stack=dev --project web -- h i j => dev web: h i j
up --project=web --stack dev -- h => dev web: h
up --stack up --project up -- up => up up: up
up --stack ü --project 日 -- h => ü 日: h"#;

// What a value may hold.
const VALUES: &str = r#"up --stack=-x --project=--y -- h => -x --y: h
up --stack=-- --project web -- h => -- web: h
up --stack=a=b --project== -- h => a=b =: h
up --stack a=b --project web -- h => a=b web: h
up --stack= --project web -- h => bad 1
up --stack  --project web -- h => bad 2
up --stack a:b --project web -- h => bad 2
up --stack=a:b --project web -- h => bad 1
up --stack dev --project : -- h => bad 4
up --stack dev --project=w: -- h => bad 3"#;

// An option without a value.
const BARE: &str = r#"up --stack -- h => bad 1
up --stack --project web -- h => bad 1
up --stack -dev --project web -- h => bad 1
up --stack --stack --project web -- h => bad 1
up --project web --stack => bad 3
up --project web --stack -- h => bad 3"#;

// An option that is given again.
const REPEATED: &str = r#"up --stack dev --stack dev --project web -- h => bad 3
up --stack dev --project web --project=web -- h => bad 5
up --stack=dev --project=web --stack= -- h => bad 3
up --stack dev --project web --stack => bad 5"#;

// The file, which may be missing and holds any byte.
const FILES: &str = r#"up --file f --stack dev --project web -- h => dev web f: h
up --stack=dev --project=web --file=a:b=/c -- h => dev web a:b=/c: h
up --stack=dev --project=web --file=-f -- h => dev web -f: h
up --stack=dev --project=web --file -f -- h => bad 3
up --stack=dev --project=web --file= -- h => bad 3
up --stack=dev --project=web --file  -- h => bad 4
up --stack=dev --project=web --file -- h => bad 3
up --file f --stack=dev --project=web --file=g -- h => bad 5
up --stack=dev --project=web -- --file f => dev web: --file f"#;

// Options that the command doesn't know.
const UNKNOWN: &str = r#"up --stack dev --parallel=2 --project web -- h => bad 3
up --stack dev --project web -x -- h => bad 5
up --stack dev --project web - -- h => bad 5
up --stac dev --project web -- h => bad 1
up --stacks dev --project web -- h => bad 1
up --Stack dev --project web -- h => bad 1
up -stack dev --project web -- h => bad 1
up --stack: dev --project web -- h => bad 1
up --=dev --stack dev --project web -- h => bad 1"#;

// Positional words.
const POSITIONAL: &str = r#"up dev --stack dev --project web -- h => bad 1
up --stack dev web --project web -- h => bad 3
up --stack=dev web --project web -- h => bad 2
up --stack dev --project web h => bad 5
up --stack dev  --project web -- h => bad 3
up =dev --stack dev --project web -- h => bad 1"#;

// The least place counts.
const LEAST: &str = r#"up --stack a:b --stack c => bad 2
up --stack dev --bad --stack => bad 3"#;

// What is missing.
const MISSING: &str = r#"up => bad 1
up -- => bad 1
up -- h => bad 1
up -- --stack dev --project web => bad 1
up --stack dev => bad 3
up --project=web -- h => bad 2
up --stack dev --project web => bad 5
up --stack dev --project web -- => bad 5
up --stack=dev --project=web -- => bad 3"#;

// The host's words.
const HOSTS: &str = r#"up --stack dev --project web -- -- h => dev web: -- h
up --stack dev --project web -- --stack a:b => dev web: --stack a:b"#;

// `state`, whose work may stand before and behind its option, and which takes no host.
const STATES: &str = r#"state list => list checkpoint.json
state check => check checkpoint.json
state list --file f => list f
state --file f list => list f
state --file=f check => check f
state check --file=-f => check -f
state list -- => list checkpoint.json
state => bad 1
state --file f => bad 3
state --file => bad 1
state --file list => bad 3
state List => bad 1
state lists => bad 1
state delete => bad 1
state =list => bad 1
state  list => bad 1
state list check => bad 2
state list list => bad 2
state list --file f --file g => bad 4
state list --stack dev => bad 2
state list --file= => bad 2
state list -- h => bad 2
state -- list => bad 1
state -- h => bad 1
list => bad 0"#;

fn words_of(alloc: Global, line: &str) -> Result<Vec<String>, AllocError> {
    let mut words = Vec::new(alloc);
    if !line.is_empty() {
        for word in line.split(' ') {
            words.push(String::from_str(alloc, word)?)?;
        }
    }
    Ok(words)
}

fn joined(alloc: Global, words: &Words) -> Result<String, AllocError> {
    let mut line = String::new(alloc);
    for place in 0..words.len() {
        if let Some(word) = words.get(place) {
            line.push(' ')?;
            line.push_str(word.as_str())?;
        }
    }
    Ok(line)
}

fn shown_command(alloc: Global, command: &Command) -> Result<String, AllocError> {
    let run = match command {
        Command::Up(run) => run,
        Command::State { file, work } => {
            let work = work.text();
            let file = file.as_str();
            return format!(in alloc; "{work} {file}");
        }
    };
    let host = joined(alloc, &run.host)?;
    let stack = run.stack.as_str();
    let project = run.project.as_str();
    match run.file.as_str() {
        "checkpoint.json" => format!(in alloc; "{stack} {project}:{host}"),
        file => format!(in alloc; "{stack} {project} {file}:{host}"),
    }
}

// The file alone has to be the command's, and the usual one where the words are refused.
fn same_file(alloc: Global, words: &[String], answer: &Result<Command, WordFault>) -> bool {
    let want = match answer {
        Ok(Command::Up(run)) => run.file.as_str(),
        Ok(Command::State { file, .. }) => file.as_str(),
        Err(_) => "checkpoint.json",
    };
    match file_of(alloc, words) {
        Ok(file) => file.as_str() == want,
        Err(_) => false,
    }
}

// A command is shown by its copy.
fn shown(alloc: Global, answer: &Result<Command, WordFault>) -> Result<String, AllocError> {
    match answer {
        Ok(command) => match command.copy() {
            Ok(copy) => shown_command(alloc, &copy),
            Err(_) => String::from_str(alloc, "no copy"),
        },
        Err(WordFault::BadWords(place)) => format!(in alloc; "bad {place}"),
        Err(WordFault::OutOfMemory) => String::from_str(alloc, "out of memory"),
    }
}

fn is_right(alloc: Global, line: &str, want: &str) -> Result<bool, AllocError> {
    let words = words_of(alloc, line)?;
    let answer = read_words(alloc, words.as_slice());
    let of_state = line.split(' ').next() == Some("state");
    Ok(
        shown(alloc, &answer)?.as_str() == want
            && spells_state(words.as_slice()) == of_state
            && same_file(alloc, words.as_slice(), &answer),
    )
}

fn is_row_right(alloc: Global, row: &str) -> Result<bool, AllocError> {
    let (line, want) = cells(row);
    is_right(alloc, line, want)
}

// The first row of the table that is read otherwise.
fn first_wrong(alloc: Global, table: &'static str) -> Result<Option<&'static str>, AllocError> {
    for row in table.split('\n') {
        if !is_row_right(alloc, row)? {
            return Ok(Some(row));
        }
    }
    Ok(None)
}

#[test]
fn bad_words_places(rt: HostRuntime) -> Result<(), Fail> {
    for table in [
        WORKED, FIRST, FORMS, VALUES, BARE, REPEATED, FILES, UNKNOWN, POSITIONAL, LEAST, MISSING,
        HOSTS, STATES,
    ] {
        assert_eq!(rt; first_wrong(rt.alloc(), table)?, None);
    }
    assert!(rt;
        is_right(
            rt.alloc(),
            "up --stack dev --project web -- h ",
            "dev web: h "
        )?,
        "a blank at the end"
    );
    assert!(rt;
        is_right(rt.alloc(), "up --stack dev --project web -- ", "dev web: ")?,
        "a blank at the end"
    );
    Ok(())
}
