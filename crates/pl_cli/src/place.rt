ghost use Rattle.std.specs.Prelude.{◌≡◌, ◌<◌, IfSome, find, length, map, option_map, position, string_bytes};
ghost use Rattle.std.specs.List.{range_with_len};
ghost use Rattle.pl_cli.specs.Table.{option_named};
ghost use Rattle.pl_cli.specs.Word.{begins_with_dash, name_part, own_value};
ghost use Rattle.pl_cli.specs.Place.{first_positional, form_after, given_value, has_value, is_positional, may_stand, names_option, positional_before, role_of, value_at, value_follows, word_at};

use crate::table::{CommandName, Form, OptionName, OptionRow};

/// What a word before the separator is.
#[derive(Clone, Copy)]
pub enum Role {
    Command,
    KnownOption(OptionRow),
    UnknownOption,
    Value(Form),
    Positional,
}

/// The word at a place; where there is none, the empty word.
pub fn word_at(words: &[String], place: usize) -> &str
    ensures { result.now ≡ word_at (map string_bytes words.now) place }
{
    match words.get(place) {
        Some(word) => word.as_str(),
        None => "",
    }
}

fn begins_with_dash(word: &str) -> bool
    ensures { result ≡ begins_with_dash word.now }
{
    word.starts_with('-')
}

/// The name of the option that a word is, and the value behind its `=`.
fn cut(word: &str) -> (&str, Option<&str>)
    ensures name { result.0.now ≡ name_part word.now }
    ensures value { option_map (λ value. value.now) result.1 ≡ own_value word.now }
{
    match word.split_once('=') {
        Some((name, value)) => (name, Some(value)),
        None => (word, None),
    }
}

/// The row of the option of this spelling, if the command knows it.
fn option_named(command: CommandName, name: &str) -> Option<OptionRow>
    ensures { result ≡ option_named command name.now }
{
    command
        .options()
        .iter()
        .copied()
        .find(|row| row.option.text() == name)
}

/// The form of the value that the word makes the next one be.
fn form_after(command: CommandName, word: &str) -> Option<Form>
    ensures { result ≡ form_after command word.now }
{
    let (name, own_value) = cut(word);
    match (option_named(command, name), own_value) {
        (Some(row), None) => row.value,
        _ => None,
    }
}

#[tactic(auto, unfolding(crate::specs::Place::role_of))]
fn role_of(command: CommandName, words: &[String], place: usize) -> Role
    ensures { result ≡ role_of command (map string_bytes words.now) place }
{
    if place == 0 {
        return Role::Command;
    }
    let word = word_at(words, place);
    if begins_with_dash(word) {
        let (name, _) = cut(word);
        match option_named(command, name) {
            Some(row) => Role::KnownOption(row),
            None => Role::UnknownOption,
        }
    } else {
        match form_after(command, word_at(words, place - 1)) {
            Some(form) => Role::Value(form),
            None => Role::Positional,
        }
    }
}

fn names_option(option: OptionName, word: &str) -> bool
    ensures { result ≡ names_option option word.now }
{
    let (name, _) = cut(word);
    name == option.text()
}

/// The value that stands with the option at a place.
fn value_at(words: &[String], place: usize) -> &str
    requires { place < length words.now }
    ensures { result.now ≡ value_at (map string_bytes words.now) place }
{
    let (_, own_value) = cut(word_at(words, place));
    match own_value {
        Some(value) => value,
        None => word_at(words, place + 1),
    }
}

/// The first place of the option.
fn place_of(option: OptionName, words: &[String]) -> Option<usize>
    ensures place { result ≡ position (λ word. names_option option (string_bytes word)) words.now }
    ensures within { IfSome result (λ place. place < length words.now) }
{
    words.iter().position(|word| names_option(option, word))
}

/// The value that is given for an option, at the first word that is this option.
#[tactic(auto, unfolding(crate::specs::Place::given_value))]
pub fn given_value(option: OptionName, words: &[String]) -> Option<&str>
    ensures { option_map (λ value. value.now) result ≡ given_value option (map string_bytes words.now) }
{
    match place_of(option, words) {
        Some(place) => Some(value_at(words, place)),
        None => None,
    }
}

fn value_follows(words: &[String], place: usize) -> bool
    requires { place < length words.now }
    ensures { result ≡ value_follows (map string_bytes words.now) place }
{
    place + 1 < words.len() && !begins_with_dash(word_at(words, place + 1))
}

/// Whether the option at a place has the value that its row asks for; one that is the next word is judged at
/// its own place.
fn has_value(row: OptionRow, words: &[String], place: usize) -> bool
    requires { place < length words.now }
    ensures { result ≡ has_value row.value (own_value (word_at (map string_bytes words.now) place)) (value_follows (map string_bytes words.now) place) }
{
    let (_, own_value) = cut(word_at(words, place));
    match (row.value, own_value) {
        (None, value) => value.is_none(),
        (Some(form), Some(value)) => form.fits(value),
        (Some(_), None) => value_follows(words, place),
    }
}

fn is_positional(role: Role) -> bool
    ensures { result ≡ is_positional role }
{
    matches!(role, Role::Positional)
}

/// How many positional words stand before a place.
#[tactic(auto, unfolding(crate::specs::Place::positional_before))]
pub fn positional_before(command: CommandName, words: &[String], place: usize) -> usize
    ensures { result ≡ positional_before command (map string_bytes words.now) place }
{
    (0..place)
        .filter(|earlier| is_positional(role_of(command, words, *earlier)))
        .count()
}

/// The place of the first positional word.
fn positional_place(command: CommandName, words: &[String]) -> Option<usize>
    ensures { result ≡ find (λ place. is_positional (role_of command (map string_bytes words.now) place)) (range_with_len 0 (length words.now)) }
{
    (0..words.len()).find(|place| is_positional(role_of(command, words, *place)))
}

/// The first positional word.
#[tactic(auto, using(crate::proofs::Lists::slice_rules), unfolding(crate::specs::Place::first_positional))]
pub fn first_positional(command: CommandName, words: &[String]) -> Option<&str>
    ensures { option_map (λ word. word.now) result ≡ first_positional command (map string_bytes words.now) }
{
    match positional_place(command, words) {
        Some(place) => Some(word_at(words, place)),
        None => None,
    }
}

/// Whether the word at a place may stand there, after the words before it.
#[tactic(auto, using(crate::proofs::Lists::slice_rules), unfolding(crate::specs::Place::may_stand))]
pub fn may_stand(command: CommandName, words: &[String], place: usize) -> bool
    requires { place < length words.now }
    ensures { result ≡ may_stand command (map string_bytes words.now) place }
{
    let word = word_at(words, place);
    match role_of(command, words, place) {
        Role::Command => true,
        Role::KnownOption(row) => {
            (row.repeatable || given_value(row.option, &words[..place]).is_none())
                && has_value(row, words, place)
        }
        Role::UnknownOption => false,
        Role::Value(form) => form.fits(word),
        Role::Positional => command
            .positional()
            .get(positional_before(command, words, place))
            .is_some_and(|form| form.fits(word)),
    }
}
