ghost use Rattle.std.specs.Prelude.{◌≡◌, [], IfOk};
ghost use Rattle.pl_program.specs.Begun as spec;

use crate::talk::Talk;
use pl_program_file::{Program, ProgramFault, Resources, read_program};
use pl_value::{OutOfMemory, Rows, Text};
use sqlite_items::Items;
use std::alloc::Global;

/// The beginning of a talk over the bytes of a program file. A file of another form has nothing to register, and fails.
pub fn begun(
    alloc: Global,
    program: &[u8],
    stack: &str,
    project: &str,
    preview: bool,
) -> Result<Talk, OutOfMemory>
    ensures { IfOk result (λ talk. talk ≡ spec.begun program.now stack.now project.now preview) }
{
    let title = title(alloc, stack, project)?;
    match read_program(alloc, program) {
        Ok(program) => Ok(fresh(alloc, program, title, preview, None)),
        Err(ProgramFault::BadProgram) => {
            let error = Text::from_str(alloc, "bad program")?;
            let none = no_program(alloc);
            Ok(fresh(alloc, none, title, preview, Some(error)))
        }
        Err(ProgramFault::OutOfMemory) => Err(OutOfMemory),
    }
}

/// The name of the stack's own resource.
fn title(alloc: Global, stack: &str, project: &str) -> Result<Text, OutOfMemory>
    ensures { IfOk result (λ title. title ≡ spec.title stack.now project.now) }
{
    let title = format!(in alloc; "{project}-{stack}")?;
    Ok(Text::from_string(title))
}

fn no_program(alloc: Global) -> Program
    ensures { result ≡ spec.no_program }
{
    Program {
        resources: Resources::new(alloc),
        outputs: None,
    }
}

/// A talk in which nothing was said.
fn fresh(alloc: Global, program: Program, title: Text, preview: bool, error: Option<Text>) -> Talk
    ensures { result ≡ spec.fresh program title preview error }
{
    Talk {
        program,
        title,
        preview,
        stack: None,
        known: Items::new(alloc),
        asked: 0,
        unanswered: Rows::new(alloc),
        error,
    }
}
