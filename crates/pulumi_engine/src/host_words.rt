use crate::refused::{OUT_OF_MEMORY, REFUSED_WORDS, refused};
use clap::{Arg, ArgAction, ArgMatches, Command, Error};
use pl_os::{FileStore, own_pipe};
use pl_program::host;
use pl_urn::is_scope;
use pl_value::Bytes;
use pl_world::{Pipe, Store, Trouble};
use std::alloc::Global;

/// The first word, by which the program is the host of a program file.
const HOST: &str = "host";

const FAULT: u8 = 5;

const ABOUT: &str = "Registers the resources of a program file with the engine. \
It writes requests to standard output and reads answers from standard input.";

/// The words behind the first.
#[derive(Clone, Copy)]
pub(crate) struct HostWords<'a> {
    pub(crate) file: &'a str,
    pub(crate) stack: &'a str,
    pub(crate) project: &'a str,
    pub(crate) preview: bool,
}

/// Where the first word is `host`, runs the program file that the words name, by this program's own standard input and
/// output; the status.
pub(crate) fn run_host(rt: HostRuntime, words: &[String]) -> Option<u8> {
    let is_host = words.first()?.as_str() == HOST;
    is_host.then(|| serve(rt, words))
}

fn serve(rt: HostRuntime, words: &[String]) -> u8 {
    match host_words(rt.alloc(), words) {
        Ok(Some(words)) => serve_words(rt, &words),
        Ok(None) => {
            let _ = rt.eprintln(
                "error: the values of --stack and --project may not be empty or hold a ':'",
            );
            REFUSED_WORDS
        }
        Err(error) => refused(rt, &error),
    }
}

fn serve_words(rt: HostRuntime, words: &HostWords<'_>) -> u8 {
    match program(rt, words.file) {
        Ok(program) => talk(rt, words, program.as_slice()),
        Err(Trouble::Failed) => FAULT,
        Err(Trouble::OutOfMemory) => OUT_OF_MEMORY,
    }
}

/// The bytes of the file; none where it is absent.
fn program(rt: HostRuntime, file: &str) -> Result<Bytes, Trouble> {
    let alloc = rt.alloc();
    match FileStore::new(rt, file)?.read(alloc)? {
        Some(bytes) => Ok(bytes),
        None => Ok(Bytes::from_vec(Vec::new(alloc))),
    }
}

fn talk(rt: HostRuntime, words: &HostWords<'_>, program: &[u8]) -> u8 {
    let (mut incoming, mut outgoing) = (own_pipe(rt), own_pipe(rt));
    let (coming, going) = (&mut incoming, &mut outgoing);
    let (stack, project) = (words.stack, words.project);
    let status = host(
        rt.alloc(),
        program,
        stack,
        project,
        words.preview,
        coming,
        going,
    );
    read_to_end(&mut incoming);
    status
}

/// Reads what else comes, so that nothing that is still answered meets a pipe that is gone.
fn read_to_end<Q: Pipe>(incoming: &mut Q) {
    let mut buffer = [0u8; 4096];
    for _ in 0..u64::MAX {
        match incoming.take(&mut buffer) {
            Ok(count) if count > 0 => {}
            _ => return,
        }
    }
}

/// What the words say; none where the stack or the project is no name.
pub(crate) fn host_words<'a>(
    alloc: Global,
    words: &'a [String],
) -> Result<Option<HostWords<'a>>, Error> {
    let matches = read(alloc, words)?;
    Ok(chosen(&matches))
}

fn read<'a>(alloc: Global, words: &'a [String]) -> Result<ArgMatches<'a>, Error> {
    let file = Arg::new(alloc, "FILE")
        .required(true)
        .action(ArgAction::Set)
        .help("The program file, in JSON");
    let preview = Arg::new(alloc, "preview")
        .long("preview")
        .action(ArgAction::SetTrue)
        .help("What is not known yet is sent as unknown");
    let stack = named(alloc, "stack").help("The stack's name");
    let project = named(alloc, "project").help("The project's name");
    let command = Command::new(alloc, HOST)
        .bin_name("pulumi_engine host")?
        .about(ABOUT)
        .arg(file)?;
    command
        .arg(stack)?
        .arg(project)?
        .arg(preview)?
        .try_get_matches_from(words)
}

/// An option that has to be given.
fn named<'a>(alloc: Global, name: &'a str) -> Arg<'a> {
    Arg::new(alloc, name)
        .long(name)
        .required(true)
        .action(ArgAction::Set)
}

/// The words, where stack and project are names.
fn chosen<'a>(matches: &ArgMatches<'a>) -> Option<HostWords<'a>> {
    Some(HostWords {
        file: matches.get_str("FILE")?,
        stack: name(matches.get_str("stack")?)?,
        project: name(matches.get_str("project")?)?,
        preview: matches.get_flag("preview"),
    })
}

fn name(word: &str) -> Option<&str> {
    is_scope(word).then_some(word)
}
