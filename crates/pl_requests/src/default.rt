ghost use Rattle.std.specs.Prelude.{◌≡◌, find, false, IfOk, Some, true};
ghost use Rattle.std.specs.Option.{option_copied};
ghost use Rattle.pl_model.specs.Known.{Known};
ghost use Rattle.pl_model.specs.Requests as spec;
ghost use Rattle.pl_model.specs.Run.{rows_of};
ghost use Rattle.pl_options.specs.Names as names;
ghost use Rattle.pl_options.specs.Refused.{HasPaths};
ghost use Rattle.pl_state.specs.References.{keeps_urn};
ghost use Rattle.pl_urn.specs.Grammar.{IsScope};
ghost use Rattle.pl_requests.specs.Ids.{known_over};
ghost use Rattle.pl_requests.specs.Making.{Provides};
ghost use Rattle.pl_requests.specs.Reading as reading;

use pl_model::Fixed;
use pl_options::default_provider_urn;
use pl_state::{Entry, Goal, KeyedUrns, Urns};
use pl_told::{Made, Requests};
use pl_urn::{Urn, UrnFault};
use pl_value::{Fields, OutOfMemory, Text, Texts, Value};
use std::alloc::Global;

/// The default provider of a package.
#[derive(Debug, Drop)]
pub struct DefaultProvider {
    /// Its goal, where it does not stand yet.
    pub missing: Option<Made>,
    /// The number that it has, or is to have.
    pub number: Option<u64>,
}

/// The URN of the default provider of a package; None where its type makes none.
pub fn allowed_default(
    alloc: Global,
    run: &Fixed,
    provided: &str,
    version: Option<&str>,
) -> Result<Option<Urn>, OutOfMemory>
    requires stack { IsScope run.now.stack }
    requires project { IsScope run.now.project }
    ensures { IfOk result (λ made. made ≡ reading.allowed_default run.now provided.now (option_copied version.entry)) }
{
    let (stack, project) = (run.stack.as_str(), run.project.as_str());
    match default_provider_urn(alloc, stack, project, provided, version) {
        Ok(urn) => Ok(Some(urn)),
        Err(UrnFault::OutOfMemory) => Err(OutOfMemory),
        Err(_) => Ok(None),
    }
}

/// Whether the type of a package's default provider makes no URN.
pub fn is_bad_default(
    alloc: Global,
    run: &Fixed,
    provided: &str,
    version: Option<&str>,
) -> Result<bool, OutOfMemory>
    requires stack { IsScope run.now.stack }
    requires project { IsScope run.now.project }
    ensures { IfOk result (λ is. is ≡ spec.is_bad_default provided.now (option_copied version.entry)) }
{
    let urn = allowed_default(alloc, run, provided, version)?;
    Ok(urn.is_none())
}

/// The default provider of a package, made where it does not stand yet.
pub fn default_provider(
    alloc: Global,
    requests: &Requests,
    run: &Fixed,
    provided: &str,
    version: Option<&str>,
) -> Result<DefaultProvider, OutOfMemory>
    requires stack { IsScope run.now.stack }
    requires project { IsScope run.now.project }
    requires version { reading.is_known_version (option_copied version) ≡ true }
    ensures { IfOk result (λ provider. (known : Known) → spec.is_bad_default provided.now (option_copied version.entry) ≡ false
        → Provides (known_over run.now requests.now.goals known) provided.now (option_copied version.entry) provider) }
{
    match allowed_default(alloc, run, provided, version)? {
        None => Ok(DefaultProvider {
            missing: None,
            number: None,
        }),
        Some(urn) => provider_of(alloc, requests, run, urn, provided, version),
    }
}

/// The default provider with this URN, made where it does not stand yet.
fn provider_of(
    alloc: Global,
    requests: &Requests,
    run: &Fixed,
    urn: Urn,
    provided: &str,
    version: Option<&str>,
) -> Result<DefaultProvider, OutOfMemory>
    requires version { reading.is_known_version (option_copied version) ≡ true }
    ensures { IfOk result (λ provider. (known : Known)
        → urn ≡ spec.default_urn (known_over run.now requests.now.goals known) provided.now (option_copied version.entry)
        → Provides (known_over run.now requests.now.goals known) provided.now (option_copied version.entry) provider) }
{
    match requests.goal_number(urn.as_str()) {
        Some(number) => Ok(DefaultProvider {
            missing: None,
            number: Some(number),
        }),
        None => {
            let goal = default_goal(alloc, run, urn, provided, version)?;
            let made = Made::new(alloc, goal)?;
            Ok(DefaultProvider {
                missing: Some(made),
                number: Some(requests.len()),
            })
        }
    }
}

/// The goal of a default provider with this URN.
fn default_goal(
    alloc: Global,
    run: &Fixed,
    urn: Urn,
    provided: &str,
    version: Option<&str>,
) -> Result<Goal, OutOfMemory>
    requires version { reading.is_known_version (option_copied version) ≡ true }
    ensures made { IfOk result (λ goal. (goals : _) (known : Known)
        → urn ≡ spec.default_urn (known_over run.now goals known) provided.now (option_copied version.entry)
        → goal ≡ spec.default_goal (known_over run.now goals known) provided.now (option_copied version.entry)) }
    ensures paths { IfOk result HasPaths }
{
    let kind = format!(in alloc; "pulumi:providers:{provided}")?;
    let inputs = default_inputs(alloc, run, &urn, version)?;
    let version = copy_version(alloc, version)?;
    Ok(Goal {
        urn,
        custom: true,
        kind: Text::from_string(kind),
        inputs,
        parent: None,
        provider: None,
        dependencies: Urns::new(alloc),
        property_dependencies: KeyedUrns::new(alloc),
        protect: false,
        aliases: Urns::new(alloc),
        ignore_changes: Texts::new(alloc),
        delete_before_replace: None,
        retain_on_delete: false,
        deleted_with: None,
        additional_secret_outputs: Texts::new(alloc),
        import_id: None,
        version,
        read_id: None,
    })
}

/// The inputs of the row with this URN, or where there is none, the version alone.
fn default_inputs(
    alloc: Global,
    run: &Fixed,
    urn: &Urn,
    version: Option<&str>,
) -> Result<Fields, OutOfMemory>
    requires version { reading.is_known_version (option_copied version) ≡ true }
    ensures { IfOk result (λ inputs. inputs
        ≡ spec.inputs_or (find (keeps_urn urn.now) (rows_of run.now)) (spec.version_inputs (option_copied version.entry))) }
{
    match kept_row(run.base.entries.as_slice(), urn) {
        None => version_inputs(alloc, version),
        Some(row) => row.inputs.copy(alloc),
    }
}

/// The first row with this URN that is not to be deleted.
fn kept_row<'a>(rows: &'a [Entry], urn: &Urn) -> Option<&'a Entry>
    ensures { option_copied result ≡ find (keeps_urn urn.now) rows.now }
{
    let urn = urn.as_str();
    rows.iter()
        .find(|row| !row.doomed && row.urn.as_str() == urn)
}

fn version_inputs(alloc: Global, version: Option<&str>) -> Result<Fields, OutOfMemory>
    requires version { reading.is_known_version (option_copied version) ≡ true }
    ensures { IfOk result (λ inputs. inputs ≡ spec.version_inputs (option_copied version.entry)) }
{
    match version {
        None => Ok(Fields::new(alloc)),
        Some(version) => version_field(alloc, version),
    }
}

/// A version alone, as the field of an object.
fn version_field(alloc: Global, version: &str) -> Result<Fields, OutOfMemory>
    requires { reading.is_known_text version.now ≡ true }
    ensures { IfOk result (λ inputs. inputs ≡ spec.version_inputs (Some version.now)) }
{
    let key = Text::from_str(alloc, "version")?;
    let value = Value::Text(Text::from_str(alloc, version)?);
    let mut inputs = Fields::new(alloc);
    inputs.push(key, value)?;
    Ok(inputs)
}

fn copy_version(alloc: Global, version: Option<&str>) -> Result<Option<Text>, OutOfMemory>
    ensures { IfOk result (λ made. made ≡ option_copied version.entry) }
{
    match version {
        None => Ok(None),
        Some(version) => Ok(Some(Text::from_str(alloc, version)?)),
    }
}
