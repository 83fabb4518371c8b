use crate::refused::{OUT_OF_MEMORY, REFUSED_WORDS, refused};
use clap::{Arg, ArgAction, Command, Error};
use pl_os::own_pipe;
use pl_os_shelf::FolderShelf;
use pl_toy_serve::serve_toy;
use std::alloc::Global;

/// The first word, by which the program is the toy.
const TOY: &str = "toy";

const ABOUT: &str = "Serves things to the engine as a provider, each thing a file in a folder. \
It reads requests from standard input and writes replies to standard output.";

/// Where the first word is `toy`, serves the toy over the folder that the second one names, by this program's own standard
/// input and output; the status.
pub(crate) fn toy(rt: HostRuntime, words: &[String]) -> Option<u8> {
    let is_toy = words.first()?.as_str() == TOY;
    is_toy.then(|| serve(rt, words))
}

fn serve(rt: HostRuntime, words: &[String]) -> u8 {
    match toy_folder(rt.alloc(), words) {
        Ok(Some(folder)) => serve_folder(rt, folder),
        Ok(None) => REFUSED_WORDS,
        Err(error) => refused(rt, &error),
    }
}

fn serve_folder(rt: HostRuntime, folder: &str) -> u8 {
    let Ok(mut shelf) = FolderShelf::new(rt, folder) else {
        return OUT_OF_MEMORY;
    };
    serve_toy(rt.alloc(), &mut shelf, &mut own_pipe(rt))
}

/// The folder that the words name.
pub(crate) fn toy_folder<'a>(alloc: Global, words: &'a [String]) -> Result<Option<&'a str>, Error> {
    let folder = Arg::new(alloc, "FOLDER")
        .required(true)
        .action(ArgAction::Set)
        .help("The folder that keeps the things; it is made for the first one");
    let command = Command::new(alloc, TOY)
        .bin_name("pulumi_engine toy")?
        .about(ABOUT)
        .arg(folder)?;
    Ok(command.try_get_matches_from(words)?.get_str("FOLDER"))
}
