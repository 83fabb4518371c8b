ghost use Rattle.std.specs.Prelude.{◌≡◌, ◌<◌, IfErr, IfOk, IfSome, IsSome, OnOk, Some, None, length, map, position, string_bytes};
ghost use Rattle.pl_urn.specs.Grammar.{IsScope};
ghost use Rattle.pl_cli.specs.Word.{is_separator};
ghost use Rattle.pl_cli.specs.Place.{given_value};
ghost use Rattle.pl_cli.specs.Reading.{bad_place, command_of, engine_words, fault_place, file_given, file_of, host_words, host_words_fit, is_complete, misplaced_word, options_given, spells_state, work_given};
ghost use Rattle.pl_cli.specs.Command.{IfState, IfUp, IsRefusedAt, file_in, name_of};

use crate::command::{Command, RunWords, WordFault};
use crate::place::{first_positional, given_value, may_stand, positional_before, word_at};
use crate::table::{CommandName, HostRule, OptionName, StateWork, command_named, work_named};
use pl_value::{OutOfMemory, Text, Words};
use std::alloc::Global;

/// The checkpoint's file where the words give none.
const USUAL_FILE: &str = "checkpoint.json";

/// Reads the words of the command line, without the program's own name. The stack and the project of what it
/// answers are names that stand in a URN.
#[tactic(auto, using(crate::proofs::Completeness::given_stack, crate::proofs::Completeness::given_project, crate::proofs::Works::given_work, crate::proofs::Scopes::stack_scope, crate::proofs::Scopes::project_scope))]
pub fn read_words(alloc: Global, words: &[String]) -> Result<Command, WordFault>
    ensures refused { IfErr result (IsRefusedAt (bad_place (map string_bytes words.now))) }
    ensures accepted { OnOk result (bad_place (map string_bytes words.now) ≡ None) }
    ensures command { IfOk result (λ command. command_of (map string_bytes words.now) ≡ Some (name_of command)) }
    ensures stack { IfOk result (IfUp (λ run.
        given_value OptionName.Stack (engine_words (map string_bytes words.now)) ≡ Some run.stack)) }
    ensures project { IfOk result (IfUp (λ run.
        given_value OptionName.Project (engine_words (map string_bytes words.now)) ≡ Some run.project)) }
    ensures stack_scope { IfOk result (IfUp (λ run. IsScope run.stack)) }
    ensures project_scope { IfOk result (IfUp (λ run. IsScope run.project)) }
    ensures file { IfOk result (λ command. file_in command ≡ file_given (engine_words (map string_bytes words.now))) }
    ensures work { IfOk result (IfState (λ work. work_given (engine_words (map string_bytes words.now)) ≡ Some work)) }
    ensures host { IfOk result (IfUp (λ run. run.host ≡ host_words (map string_bytes words.now))) }
{
    let (engine, host) = split_words(words);
    let Some(command) = command_named(word_at(engine, 0)) else {
        return Err(WordFault::BadWords(0));
    };
    if let Some(place) = fault_place(command, engine, host) {
        return Err(WordFault::BadWords(place as u64));
    }
    match command {
        CommandName::Up => Ok(Command::Up(run_words(alloc, engine, host)?)),
        CommandName::State => Ok(state_words(alloc, engine)?),
    }
}

/// The path of the checkpoint's file that the words ask for. Where they are no command or give none, it is
/// `checkpoint.json`.
pub fn file_of(alloc: Global, words: &[String]) -> Result<Text, OutOfMemory>
    ensures file { IfOk result (λ file. file ≡ file_of (map string_bytes words.now)) }
{
    match read_words(alloc, words) {
        Ok(Command::Up(run)) => Ok(run.file),
        Ok(Command::State { file, .. }) => Ok(file),
        Err(WordFault::BadWords(_)) => Text::from_str(alloc, USUAL_FILE),
        Err(WordFault::OutOfMemory) => Err(OutOfMemory),
    }
}

/// Whether the first word spells `state`, be the words a command or not.
pub fn spells_state(words: &[String]) -> bool
    ensures { result ≡ spells_state (map string_bytes words.now) }
{
    let (engine, _) = split_words(words);
    matches!(command_named(word_at(engine, 0)), Some(CommandName::State))
}

/// The place of the first separator.
fn separator_place(words: &[String]) -> Option<usize>
    ensures place { result ≡ position (λ word. is_separator (string_bytes word)) words.now }
    ensures within { IfSome result (λ place. place < length words.now) }
{
    words.iter().position(|word| word.as_str() == "--")
}

/// The words before the first separator, and those after it.
fn split_words(words: &[String]) -> (&[String], &[String])
    ensures engine { map string_bytes result.0.now ≡ engine_words (map string_bytes words.now) }
    ensures host { map string_bytes result.1.now ≡ host_words (map string_bytes words.now) }
{
    match separator_place(words) {
        Some(place) => (&words[..place], &words[place + 1..]),
        None => (words, &[]),
    }
}

/// The fault's place, for the words of a known command.
fn fault_place(command: CommandName, words: &[String], host: &[String]) -> Option<usize>
    ensures { result ≡ fault_place command (map string_bytes words.now) (map string_bytes host.now) }
{
    match misplaced_word(command, words) {
        Some(place) => Some(place),
        None if is_complete(command, words, host) => None,
        None => Some(words.len()),
    }
}

/// The least place of a word that may not stand there.
fn misplaced_word(command: CommandName, words: &[String]) -> Option<usize>
    ensures { result ≡ misplaced_word command (map string_bytes words.now) }
{
    for place in 0..words.len() {
        if !may_stand(command, words, place) {
            return Some(place);
        }
    }
    None
}

/// Whether each option that the command requires is given.
fn options_given(command: CommandName, words: &[String]) -> bool
    ensures { result ≡ options_given command (map string_bytes words.now) }
{
    command.options().iter().all(|row| !row.required || given_value(row.option, words).is_some())
}

/// Whether nothing is missing.
#[tactic(auto, using(crate::proofs::Lists::slice_rules), unfolding(crate::specs::Reading::is_complete))]
fn is_complete(command: CommandName, words: &[String], host: &[String]) -> bool
    ensures { result ≡ is_complete command (map string_bytes words.now) (map string_bytes host.now) }
{
    let options_given = options_given(command, words);
    let positional = positional_before(command, words, words.len());
    let positional_given = command.positional().len() <= positional;
    let host_fits = host_words_fit(command.host_rule(), host);
    options_given && positional_given && host_fits
}

fn host_words_fit(rule: HostRule, host: &[String]) -> bool
    ensures { result ≡ host_words_fit rule (map string_bytes host.now) }
{
    match rule {
        HostRule::OneOrMore => !host.is_empty(),
        HostRule::Nothing => host.is_empty(),
    }
}

fn run_words(alloc: Global, words: &[String], host: &[String]) -> Result<RunWords, OutOfMemory>
    requires stack { IsSome (given_value OptionName.Stack (map string_bytes words.now)) }
    requires project { IsSome (given_value OptionName.Project (map string_bytes words.now)) }
    ensures stack { IfOk result (λ run. given_value OptionName.Stack (map string_bytes words.now) ≡ Some run.stack) }
    ensures project { IfOk result (λ run. given_value OptionName.Project (map string_bytes words.now) ≡ Some run.project) }
    ensures file { IfOk result (λ run. run.file ≡ file_given (map string_bytes words.now)) }
    ensures host { IfOk result (λ run. run.host ≡ map string_bytes host.now) }
{
    let stack = given_value(OptionName::Stack, words).unwrap();
    let project = given_value(OptionName::Project, words).unwrap();
    Ok(RunWords {
        stack: Text::from_str(alloc, stack)?,
        project: Text::from_str(alloc, project)?,
        file: Text::from_str(alloc, file_given(words))?,
        host: copy_words(alloc, host)?,
    })
}

/// The work that the words before the separator give to `state`.
fn work_given(words: &[String]) -> Option<StateWork>
    ensures { result ≡ work_given (map string_bytes words.now) }
{
    work_named(first_positional(CommandName::State, words)?)
}

fn state_words(alloc: Global, words: &[String]) -> Result<Command, OutOfMemory>
    requires work { IsSome (work_given (map string_bytes words.now)) }
    ensures made { IfOk result (λ command. name_of command ≡ CommandName.State) }
    ensures file { IfOk result (λ command. file_in command ≡ file_given (map string_bytes words.now)) }
    ensures work { IfOk result (IfState (λ work. work_given (map string_bytes words.now) ≡ Some work)) }
{
    let work = work_given(words).unwrap();
    let file = Text::from_str(alloc, file_given(words))?;
    Ok(Command::State { file, work })
}

/// The path that the words before the separator give, or the usual one.
fn file_given(words: &[String]) -> &str
    ensures { result.now ≡ file_given (map string_bytes words.now) }
{
    match given_value(OptionName::File, words) {
        Some(file) => file,
        None => USUAL_FILE,
    }
}

fn copy_words(alloc: Global, words: &[String]) -> Result<Words, OutOfMemory>
    ensures { IfOk result (λ made. made ≡ map string_bytes words.now) }
{
    let mut made = Words::new(alloc);
    for word in words {
        made.push(Text::from_str(alloc, word.as_str())?)?;
    }
    Ok(made)
}
