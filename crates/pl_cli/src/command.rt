ghost use Rattle.std.specs.Prelude.{◌≡◌, IfOk};

use crate::table::StateWork;
use pl_value::{OutOfMemory, Text, Words};
use thiserror::Error;

/// What `up` is to run.
#[derive(Debug, Drop)]
pub struct RunWords {
    pub stack: Text,
    pub project: Text,
    /// The path of the checkpoint's file.
    pub file: Text,
    /// The words that start the language host.
    pub host: Words,
}

impl RunWords {
    pub fn copy(&self) -> Result<RunWords, OutOfMemory>
        ensures { IfOk result (λ made. made ≡ self.now) }
    {
        Ok(RunWords {
            stack: self.stack.copy()?,
            project: self.project.copy()?,
            file: self.file.copy()?,
            host: self.host.copy()?,
        })
    }
}

/// A command of the engine, with all that its words say.
#[derive(Debug, Drop)]
pub enum Command {
    Up(RunWords),
    State {
        /// The path of the checkpoint's file.
        file: Text,
        work: StateWork,
    },
}

impl Command {
    pub fn copy(&self) -> Result<Command, OutOfMemory>
        ensures { IfOk result (λ made. made ≡ self.now) }
    {
        match self {
            Command::Up(run) => Ok(Command::Up(run.copy()?)),
            Command::State { file, work } => Ok(Command::State {
                file: file.copy()?,
                work: *work,
            }),
        }
    }
}

/// Why words are not read as a command.
#[derive(Clone, Copy, Debug, PartialEq, Eq, Error)]
pub enum WordFault {
    /// The least place of a word that may not stand there. Where each word may but something is missing, it
    /// is the number of words before `--`.
    #[error("the words are no command, from place {0} on")]
    BadWords(u64),
    #[error("out of memory")]
    OutOfMemory,
}

impl From<OutOfMemory> for WordFault {
    ghost use Rattle.std.specs.Prelude.{◌≡◌};
    ghost use Rattle.pl_cli.specs.declared.command.WordFault.TheVariants.{OutOfMemory};

    ghost from_gives = { λ _ fault. fault ≡ OutOfMemory };

    fn from(_error: OutOfMemory) -> WordFault {
        WordFault::OutOfMemory
    }
}
