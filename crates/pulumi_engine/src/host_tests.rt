use crate::host_words::host_words;
use crate::refused::status_of;
use std::alloc::Global;
use std::test::Fail;

/// Words, with blanks between them, and what they say: the file, the stack and the project, and whether it is a preview, or
/// the status.
const CASES: [(&str, &str); 10] = [
    ("host f --stack s --project p", "f s p false"),
    ("host --project=p --preview f --stack=s", "f s p true"),
    ("host f --stack s", "2"),
    ("host --stack s --project p", "2"),
    ("host f g --stack s --project p", "2"),
    ("host f --stack s:t --project p", "no name"),
    ("host f --stack s --project=", "no name"),
    ("host f --stack s --project p --file q", "2"),
    ("host --help", "0"),
    ("host", "2"),
];

fn told(alloc: Global, text: &str) -> Result<String, Fail> {
    let mut words = Vec::new(alloc);
    for word in text.split(' ') {
        words.push(String::from_str(alloc, word)?)?;
    }
    match host_words(alloc, words.as_slice()) {
        Ok(Some(said)) => Ok(format!(in alloc;
            "{} {} {} {}",
            said.file, said.stack, said.project, said.preview
        )?),
        Ok(None) => Ok(String::from_str(alloc, "no name")?),
        Err(error) => Ok(format!(in alloc; "{}", status_of(&error))?),
    }
}

#[test]
fn words_of_a_host_are_read(rt: HostRuntime) -> Result<(), Fail> {
    for (text, want) in CASES {
        let found = told(rt.alloc(), text)?;
        assert_eq!(rt; found.as_str(), want);
    }
    Ok(())
}
