use clap::Error;
use clap::error::ErrorKind;

/// The status for words that may not stand there.
pub(crate) const REFUSED_WORDS: u8 = 2;

pub(crate) const OUT_OF_MEMORY: u8 = 7;

/// Prints why words are refused, or the help that they ask for; the status.
pub(crate) fn refused(rt: HostRuntime, error: &Error) -> u8 {
    let _ = error.print(&rt);
    status_of(error)
}

/// The status where words are not carried out: help is none of the faults.
pub(crate) fn status_of(error: &Error) -> u8 {
    if matches!(error.kind(), ErrorKind::OutOfMemory) {
        OUT_OF_MEMORY
    } else if error.use_stderr() {
        REFUSED_WORDS
    } else {
        0
    }
}
