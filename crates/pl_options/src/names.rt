ghost use Rattle.std.specs.Prelude.{◌≡◌, ◌++◌, encode_utf8_all, IfErr, IfOk, map, None, OnOk, string_bytes};
ghost use Rattle.std.specs.Option.{option_copied};
ghost use Rattle.std.specs.Str.{chars};
ghost use Rattle.pl_state.specs.Kinds.{default_prefix};
ghost use Rattle.pl_urn.specs.Grammar.{child_fault, IsScope};
ghost use Rattle.pl_options.specs.Names as spec;
ghost use Rattle.pl_options.specs.Refused.{IsUrnRefusal};

use pl_urn::{Urn, UrnFault};
use pl_value::{OutOfMemory, Text};
use std::alloc::Global;
use uuid::{Builder, Uuid};

/// The name of the default provider of a package in this version.
#[tactic(auto, unfolding(crate::specs::Names::default_name))]
pub fn default_name(alloc: Global, version: Option<&str>) -> Result<Text, OutOfMemory>
    ensures { IfOk result (λ name. name ≡ spec.default_name (option_copied version.entry)) }
{
    match version {
        None => Text::from_str(alloc, "default"),
        Some(version) => versioned_name(alloc, version),
    }
}

/// `default_` and the version, with a `_` for each `.`, `-` and `+`.
fn versioned_name(alloc: Global, version: &str) -> Result<Text, OutOfMemory>
    ensures { IfOk result (λ name. name ≡ default_prefix ++ map spec.name_byte version.now) }
{
    let letters = renamed(alloc, version)?;
    Ok(Text::from_string(format!(in alloc; "default_{letters}")?))
}

fn renamed(alloc: Global, version: &str) -> Result<String, OutOfMemory>
    ensures { IfOk result (λ letters. string_bytes letters ≡ encode_utf8_all (map spec.name_byte (chars version.now))) }
{
    Ok(version.chars().map(name_letter).collect(alloc)?)
}

fn name_letter(letter: char) -> char
    ensures { result ≡ spec.name_byte letter }
{
    match letter {
        '.' | '-' | '+' => '_',
        other => other,
    }
}

/// The URN of the default provider of a package in this version, in this stack and project. It is refused where
/// the package makes no type.
#[tactic(auto, unfolding(crate::specs::Names::default_provider_urn))]
pub fn default_provider_urn(
    alloc: Global,
    stack: &str,
    project: &str,
    provided: &str,
    version: Option<&str>,
) -> Result<Urn, UrnFault>
    requires stack { IsScope stack.now }
    requires project { IsScope project.now }
    ensures made { IfOk result (λ urn. urn ≡
        spec.default_provider_urn stack.now project.now provided.now (option_copied version.entry)) }
    ensures allowed { OnOk result (child_fault (spec.provider_type provided.now)
        (spec.default_name (option_copied version.entry)) ≡ None) }
    ensures refused { IfErr result (IsUrnRefusal (child_fault (spec.provider_type provided.now)
        (spec.default_name (option_copied version.entry)))) }
{
    let kind = format!(in alloc; "pulumi:providers:{provided}")?;
    let name = default_name(alloc, version).map_err(|_| UrnFault::OutOfMemory)?;
    pl_urn::child(alloc, None, stack, project, kind.as_str(), name.as_str())
}

/// The id that a drawn number gives: a UUID of version 4, hyphenated, in lower case.
#[tactic(auto, unfolding(crate::specs::Names::id_text))]
pub fn id_of(alloc: Global, drawn: u128) -> Result<Text, OutOfMemory>
    ensures { IfOk result (λ id. id ≡ spec.id_text drawn) }
{
    let uuid = Builder::from_random_bytes(drawn.to_be_bytes()).into_uuid();
    let mut buffer = Uuid::encode_buffer();
    Text::from_str(alloc, uuid.hyphenated().encode_lower(&mut buffer))
}
