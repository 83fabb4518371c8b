ghost use Rattle.std.specs.Prelude.{◌≡◌};
ghost use Rattle.pl_cli.specs.Table.{command_named, command_text, fits, forms_of, host_rule_of, option_text, options_of, work_named, work_text};

/// The commands, each a row of the table: its spelling, its positional words, its options and its rule for
/// the host's words.
#[derive(Clone, Copy, Debug, PartialEq, Eq)]
pub enum CommandName {
    Up,
    State,
}

/// The options of all commands.
#[derive(Clone, Copy, Debug, PartialEq, Eq)]
pub enum OptionName {
    Stack,
    Project,
    File,
}

/// What `state` does: it lists the resources, or checks that the state can be read and tells its size.
#[derive(Clone, Copy, Debug, PartialEq, Eq)]
pub enum StateWork {
    List,
    Check,
}

/// What a value or a positional word is like. None of them is empty.
#[derive(Clone, Copy, Debug, PartialEq, Eq)]
pub enum Form {
    /// A part of a URN, which holds no `:`.
    NoColon,
    /// Any word.
    Word,
    /// A work of `state`.
    Work,
}

/// Which words of the host a command takes.
#[derive(Clone, Copy, Debug, PartialEq, Eq)]
pub enum HostRule {
    OneOrMore,
    Nothing,
}

/// An option of a command. One whose value has no form is a flag.
#[derive(Clone, Copy, Debug, PartialEq, Eq)]
pub struct OptionRow {
    pub option: OptionName,
    pub required: bool,
    pub repeatable: bool,
    pub value: Option<Form>,
}

const COMMANDS: [CommandName; 2] = [CommandName::Up, CommandName::State];

const WORKS: [StateWork; 2] = [StateWork::List, StateWork::Check];

const UP_OPTIONS: [OptionRow; 3] = [
    OptionRow {
        option: OptionName::Stack,
        required: true,
        repeatable: false,
        value: Some(Form::NoColon),
    },
    OptionRow {
        option: OptionName::Project,
        required: true,
        repeatable: false,
        value: Some(Form::NoColon),
    },
    OptionRow {
        option: OptionName::File,
        required: false,
        repeatable: false,
        value: Some(Form::Word),
    },
];

const STATE_OPTIONS: [OptionRow; 1] = [OptionRow {
    option: OptionName::File,
    required: false,
    repeatable: false,
    value: Some(Form::Word),
}];

/// The command of this spelling.
pub fn command_named(word: &str) -> Option<CommandName>
    ensures { result ≡ command_named word.now }
{
    COMMANDS
        .iter()
        .copied()
        .find(|command| command.text() == word)
}

/// The work of `state` of this spelling.
pub fn work_named(word: &str) -> Option<StateWork>
    ensures { result ≡ work_named word.now }
{
    WORKS.iter().copied().find(|work| work.text() == word)
}

impl StateWork {
    pub fn text(self) -> &'static str
        ensures { result.now ≡ work_text self }
    {
        match self {
            StateWork::List => "list",
            StateWork::Check => "check",
        }
    }
}

impl CommandName {
    pub fn text(self) -> &'static str
        ensures { result.now ≡ command_text self }
    {
        match self {
            CommandName::Up => "up",
            CommandName::State => "state",
        }
    }

    /// The forms of the positional words, in order, each of which has to be there.
    pub fn positional(self) -> &'static [Form]
        ensures { result.now ≡ forms_of self }
    {
        match self {
            CommandName::Up => &[],
            CommandName::State => &[Form::Work],
        }
    }

    pub fn options(self) -> &'static [OptionRow]
        ensures { result.now ≡ options_of self }
    {
        match self {
            CommandName::Up => &UP_OPTIONS,
            CommandName::State => &STATE_OPTIONS,
        }
    }

    pub fn host_rule(self) -> HostRule
        ensures { result ≡ host_rule_of self }
    {
        match self {
            CommandName::Up => HostRule::OneOrMore,
            CommandName::State => HostRule::Nothing,
        }
    }
}

impl OptionName {
    pub fn text(self) -> &'static str
        ensures { result.now ≡ option_text self }
    {
        match self {
            OptionName::Stack => "--stack",
            OptionName::Project => "--project",
            OptionName::File => "--file",
        }
    }
}

impl Form {
    pub fn fits(self, word: &str) -> bool
        ensures { result ≡ fits self word.now }
    {
        match self {
            Form::NoColon => !word.is_empty() && !word.as_bytes().contains(&b':'),
            Form::Word => !word.is_empty(),
            Form::Work => work_named(word).is_some(),
        }
    }
}
