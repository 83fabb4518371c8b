use crate::table::cells;
use pl_checkpoint::{ReadFault, read, write};
use pl_state::{BadCheckpoint, Missing, Unsound};
use pl_value::JsonFault;
use std::alloc::Global;
use std::test::Fail;

const STACK: &str = "urn:pulumi:dev::web::pulumi:pulumi:Stack::web-dev";

const TOY: &str = "urn:pulumi:dev::web::pulumi:providers:toy::default";

const THING: &str = "urn:pulumi:dev::web::toy:index:Thing::a";

const ID: &str = "00000000-0000-4000-8000-000000000001";

fn value_fault_text(alloc: Global, fault: &JsonFault) -> Result<String, Fail> {
    Ok(match fault {
        JsonFault::NotWhole(path) => format!(in alloc; "NotWhole {}", path.as_str())?,
        JsonFault::SecretSealed(path) => format!(in alloc; "SecretSealed {}", path.as_str())?,
        JsonFault::BadSecret(path) => format!(in alloc; "BadSecret {}", path.as_str())?,
        JsonFault::TooDeep(path) => format!(in alloc; "TooDeep {}", path.as_str())?,
        JsonFault::OutOfMemory => format!(in alloc; "out of memory")?,
    })
}

fn unsound_text(alloc: Global, fault: &Unsound) -> Result<String, Fail> {
    let at = fault.at;
    Ok(match &fault.missing {
        Missing::Twice(urn) => format!(in alloc; "Unsound {at} twice {}", urn.as_str())?,
        Missing::Parent(urn) => format!(in alloc; "Unsound {at} parent {}", urn.as_str())?,
        Missing::Provider(named) => {
            format!(in alloc;
                "Unsound {at} provider {} {}",
                named.urn.as_str(),
                named.id.as_str()
            )?
        }
        Missing::Dependency(urn) => format!(in alloc; "Unsound {at} dependency {}", urn.as_str())?,
        Missing::DeletedWith(urn) => format!(in alloc; "Unsound {at} deleter {}", urn.as_str())?,
    })
}

fn fault_text(alloc: Global, why: &BadCheckpoint) -> Result<String, Fail> {
    Ok(match why {
        BadCheckpoint::NotJson => format!(in alloc; "NotJson")?,
        BadCheckpoint::NotVersion3(text) => format!(in alloc; "NotVersion3 {}", text.as_str())?,
        BadCheckpoint::MissingField(path) => format!(in alloc; "MissingField {}", path.as_str())?,
        BadCheckpoint::WrongKind(path) => format!(in alloc; "WrongKind {}", path.as_str())?,
        BadCheckpoint::BadUrn(path) => format!(in alloc; "BadUrn {}", path.as_str())?,
        BadCheckpoint::BadValue(fault) => value_fault_text(alloc, fault)?,
        BadCheckpoint::TooMany(number) => format!(in alloc; "TooMany {number}")?,
        BadCheckpoint::Unsound(fault) => unsound_text(alloc, fault)?,
    })
}

/// What the bytes read as: the text of the state when it is written again, or the fault.
fn told(alloc: Global, bytes: &[u8]) -> Result<String, Fail> {
    match read(alloc, bytes) {
        Ok(state) => {
            let written = write(alloc, &state)?;
            let text = std::str::from_utf8(written.as_slice()).map_err(|_| "no text")?;
            Ok(String::from_str(alloc, text)?)
        }
        Err(ReadFault::Bad(why)) => fault_text(alloc, &why),
        Err(ReadFault::OutOfMemory) => Ok(String::from_str(alloc, "out of memory")?),
    }
}

/// The text with the names of rows in the places that are marked for them.
fn filled(alloc: Global, text: &str) -> Result<String, Fail> {
    let mut made = String::new(alloc);
    for part in text.split('%') {
        made.push_str(match part {
            "S" => STACK,
            "P" => TOY,
            "A" => THING,
            "U" => ID,
            other => other,
        })?;
    }
    Ok(made)
}

/// The text of a checkpoint with this deployment.
fn checkpoint(alloc: Global, deployment: &str) -> Result<String, Fail> {
    let made = format!(in alloc;
        "{{\"checkpoint\":{{\"latest\":{deployment},\"stack\":\"dev\"}},\"version\":3}}"
    )?;
    filled(alloc, made.as_str())
}

fn is_told(alloc: Global, bytes: &[u8], wanted: &str) -> Result<bool, Fail> {
    let told = told(alloc, bytes)?;
    let wanted = filled(alloc, wanted)?;
    Ok(told.as_str() == wanted.as_str())
}

/// Whether the checkpoint with this deployment is refused so, or is written again so.
fn is_answered(alloc: Global, deployment: &str, wanted: &str) -> Result<bool, Fail> {
    let text = checkpoint(alloc, deployment)?;
    is_told(alloc, text.as_bytes(), wanted)
}

/// Texts that are no checkpoint, and why.
const NO_CHECKPOINTS: &str = r#" => NotJson
{"version":3 => NotJson
{} => MissingField version
{"version":null} => NotVersion3 null
{"version":"3"} => NotVersion3 "3"
{"version":4} => NotVersion3 4
{"version":{"b": 1, "a": -9223372036854775808}} => NotVersion3 {"a":-9223372036854775808,"b":1}
{"version":3} => MissingField checkpoint
{"version":3,"checkpoint":null} => MissingField checkpoint
{"version":3,"checkpoint":[]} => WrongKind checkpoint
{"version":3,"checkpoint":{"latest":7}} => MissingField checkpoint.stack
{"version":3,"checkpoint":{"stack":1}} => WrongKind checkpoint.stack
{"version":3,"checkpoint":{"stack":"","latest":7}} => WrongKind checkpoint.latest"#;

fn is_line_told(alloc: Global, line: &str) -> Result<bool, Fail> {
    let (text, wanted) = cells(line);
    is_told(alloc, text.as_bytes(), wanted)
}

#[test]
fn texts_are_no_checkpoint(rt: HostRuntime) -> Result<(), Fail> {
    for line in NO_CHECKPOINTS.split('\n') {
        assert!(rt; is_line_told(rt.alloc(), line)?, "{line}");
    }
    assert!(rt; is_told(rt.alloc(), b"[]", "WrongKind ")?, "[]");
    assert!(rt;
        is_told(rt.alloc(), b"{\"version\":3.0}", "NotVersion3 ")?,
        "{{\"version\":3.0}}"
    );
    assert!(rt;
        is_told(rt.alloc(), b"{\"version\":[ {\"a\":1e2} ]}", "NotVersion3 ")?,
        "{{\"version\":[ {{\"a\":1e2}} ]}}"
    );
    assert!(rt;
        is_told(
            rt.alloc(),
            b"{\"version\":9223372036854775808}",
            "NotVersion3 "
        )?,
        "{{\"version\":9223372036854775808}}"
    );
    assert!(rt; is_told(rt.alloc(), b"\"\xff\"", "NotJson")?, "no text");
    Ok(())
}

/// Deployments with a fault, and what is told of it.
const BAD_VALUES: &str =
    r#"{"resources":{},"pending_operations":1,"manifest":1} => WrongKind checkpoint.latest.resources
{"pending_operations":1,"manifest":1} => WrongKind checkpoint.latest.pending_operations
{"manifest":1,"a":1.5} => WrongKind checkpoint.latest.manifest
{"manifest":{"n":[0,1.5]},"resources":[1],"x":1.5} => NotWhole checkpoint.latest.manifest.n[1]
{"resources":[{}],"x":-0} => NotWhole checkpoint.latest.x
{"resources":[null],"pending_operations":[null]} => WrongKind checkpoint.latest.resources[0]
{"resources":[{"type":""}]} => MissingField checkpoint.latest.resources[0].urn
{"resources":[{"urn":""}]} => BadUrn checkpoint.latest.resources[0].urn
{"resources":[{"urn":"%S%"}]} => MissingField checkpoint.latest.resources[0].type
{"resources":[{"urn":"%S%","type":""}]} => WrongKind checkpoint.latest.resources[0].type
{"resources":[{"urn":"%S%","type":"t","id":7,"custom":0}]} => WrongKind checkpoint.latest.resources[0].custom
{"resources":[{"urn":"%S%","type":"t","id":7,"inputs":1}]} => WrongKind checkpoint.latest.resources[0].id
{"resources":[{"urn":"%S%","type":"t","inputs":{"a":[1,{"b":2.5}]}}]} => NotWhole checkpoint.latest.resources[0].inputs.a[1].b
{"resources":[{"urn":"%S%","type":"t","outputs":[],"parent":"x"}]} => WrongKind checkpoint.latest.resources[0].outputs
{"resources":[{"urn":"%S%","type":"t","parent":"x","provider":"x"}]} => BadUrn checkpoint.latest.resources[0].parent
{"resources":[{"urn":"%S%","type":"t","provider":"%S%::1"}]} => BadUrn checkpoint.latest.resources[0].provider
{"resources":[{"urn":"%S%","type":"t","dependencies":["%S%",null]}]} => WrongKind checkpoint.latest.resources[0].dependencies[1]
{"resources":[{"urn":"%S%","type":"t","propertyDependencies":{"a":null,"b":["%S%",""]}}]} => BadUrn checkpoint.latest.resources[0].propertyDependencies.b[1]
{"resources":[{"urn":"%S%","type":"t","initErrors":["",1]}]} => WrongKind checkpoint.latest.resources[0].initErrors[1]
{"resources":[{"urn":"%S%","type":"t","deletedWith":"x","pendingReplacement":1}]} => BadUrn checkpoint.latest.resources[0].deletedWith
{"resources":[{"urn":"%S%","type":"t","parent":"%A%","created":1.5}],"pending_operations":[1]} => NotWhole checkpoint.latest.resources[0].created
{"pending_operations":[{"type":"made"}]} => WrongKind checkpoint.latest.pending_operations[0].type
{"pending_operations":[{"resource":1}]} => MissingField checkpoint.latest.pending_operations[0].type
{"pending_operations":[{"type":"reading"}]} => MissingField checkpoint.latest.pending_operations[0].resource
{"pending_operations":[{"type":"reading","resource":{"urn":1}}]} => WrongKind checkpoint.latest.pending_operations[0].resource.urn"#;

fn is_line_answered(alloc: Global, line: &str) -> Result<bool, Fail> {
    let (deployment, wanted) = cells(line);
    is_answered(alloc, deployment, wanted)
}

#[test]
fn bad_values_have_paths(rt: HostRuntime) -> Result<(), Fail> {
    for line in BAD_VALUES.split('\n') {
        assert!(rt; is_line_answered(rt.alloc(), line)?, "{line}");
    }
    Ok(())
}

/// Deployments by whose order a state is sound or not, and what is told of them or written again.
const ORDERS: &str =
    r#"{"resources":[{"urn":"%A%","type":"t","parent":"%S%"},{"urn":"%S%","type":"t"}]} => Unsound 0 parent %S%
{"resources":[{"urn":"%S%","type":"t"},{"urn":"%S%","type":"t"}]} => Unsound 1 twice %S%
{"resources":[{"urn":"%P%","type":"t","id":"1"},{"urn":"%A%","type":"t","provider":"%P%::2"}]} => Unsound 1 provider %P% 2
{"resources":[{"urn":"%S%","type":"t"},{"urn":"%A%","type":"t","parent":"%S%"}]} => {"checkpoint":{"latest":{"manifest":{},"pending_operations":[],"resources":[{"custom":false,"type":"t","urn":"%S%"},{"custom":false,"parent":"%S%","type":"t","urn":"%A%"}]},"stack":"dev"},"version":3}"#;

#[test]
fn parent_after_child_is_unsound(rt: HostRuntime) -> Result<(), Fail> {
    for line in ORDERS.split('\n') {
        assert!(rt; is_line_answered(rt.alloc(), line)?, "{line}");
    }
    Ok(())
}

/// As many zeros as these, with commas between them.
fn zeros(alloc: Global, count: u64) -> Result<String, Fail> {
    let mut made = String::new(alloc);
    for at in 0..count {
        made.push_str(if at == 0 { "0" } else { ",0" })?;
    }
    Ok(made)
}

fn is_counted(alloc: Global, count: u64, operations: &str, wanted: &str) -> Result<bool, Fail> {
    let rows = zeros(alloc, count)?;
    let deployment = format!(in alloc;
        "{{\"resources\":[{rows}],\"pending_operations\":[{operations}]}}"
    )?;
    is_answered(alloc, deployment.as_str(), wanted)
}

#[test]
fn ten_thousand_limit(rt: HostRuntime) -> Result<(), Fail> {
    for (count, operations, wanted) in [
        (
            10_000,
            "{\"type\":\"updating\"},{\"type\":\"deleting\"}",
            "WrongKind checkpoint.latest.resources[0]",
        ),
        (10_001, "", "TooMany 10001"),
        (
            9_998,
            "{\"type\":\"creating\"},{\"type\":\"updating\"},{\"type\":1},7",
            "TooMany 10001",
        ),
        (
            9_997,
            "{\"type\":\"creating\"},{\"type\":\"updating\"},{\"type\":1},7",
            "WrongKind checkpoint.latest.resources[0]",
        ),
    ] {
        assert!(rt;
            is_counted(rt.alloc(), count, operations, wanted)?,
            "at {count}"
        );
    }
    Ok(())
}

/// A bucket of the realistic state, where these stand for its empty lists and for the list of its property.
fn bucket(
    alloc: Global,
    at: u64,
    dependencies: &str,
    errors: &str,
    property: &str,
) -> Result<String, Fail> {
    Ok(format!(in alloc;
        "{{\"created\":\"2024-05-01T10:00:00Z\",\"custom\":true,{dependencies}\"id\":\"b{at}\",{errors}\"inputs\":{{\"__defaults\":[],\"bucket\":\"b{at}\",\"key\":{{\"4dabf18193072939515e22adb298388d\":\"1b47061264138c4ac30d75fd1eb44270\",\"plaintext\":\"1\"}}}},\"modified\":\"2024-05-01T10:00:00Z\",\"outputs\":{{\"bucket\":\"b{at}\"}},\"parent\":\"%S%\",\"propertyDependencies\":{{\"bucket\":{property}}},\"provider\":\"urn:pulumi:dev::web::pulumi:providers:aws::default_6_0_0::%U%\",\"type\":\"aws:s3/bucket:Bucket\",\"urn\":\"urn:pulumi:dev::web::aws:s3/bucket:Bucket::b{at}\"}}"
    )?)
}

/// A state as it is found in the world: a stack, a provider and ten buckets. With these for its defaults.
fn realistic(
    alloc: Global,
    parent: &str,
    dependencies: &str,
    errors: &str,
    property: &str,
) -> Result<String, Fail> {
    let mut rows = String::from_str(
        alloc,
        "{\"custom\":false,\"type\":\"pulumi:pulumi:Stack\",\"urn\":\"%S%\"}",
    )?;
    let row = format!(in alloc;
        ",{{\"created\":\"2024-05-01T10:00:00Z\",\"custom\":true,\"id\":\"%U%\",\"inputs\":{{\"region\":\"eu-west-1\",\"version\":\"6.0.0\"}},\"modified\":\"2024-05-01T10:00:00Z\",\"outputs\":{{\"region\":\"eu-west-1\",\"version\":\"6.0.0\"}},{parent}\"type\":\"pulumi:providers:aws\",\"urn\":\"urn:pulumi:dev::web::pulumi:providers:aws::default_6_0_0\"}}"
    )?;
    rows.push_str(row.as_str())?;
    for at in 0..10 {
        let row = bucket(alloc, at, dependencies, errors, property)?;
        rows.push_str(",")?;
        rows.push_str(row.as_str())?;
    }
    Ok(format!(in alloc;
        "{{\"manifest\":{{\"magic\":\"m\",\"time\":\"2024-05-01T10:00:00Z\",\"version\":\"v3.115.0\"}},\"pending_operations\":[],\"resources\":[{}],\"secrets_providers\":{{\"type\":\"passphrase\"}}}}",
        rows.as_str()
    )?)
}

#[test]
fn realistic_state(rt: HostRuntime) -> Result<(), Fail> {
    let alloc = rt.alloc();
    let found = realistic(
        alloc,
        "\"parent\":\"\",",
        "\"dependencies\":[],",
        "\"initErrors\":[],",
        "null",
    )?;
    let left = realistic(alloc, "", "", "", "[]")?;
    let written = checkpoint(alloc, left.as_str())?;
    assert!(rt; is_answered(alloc, found.as_str(), written.as_str())?);
    assert!(rt; is_answered(alloc, left.as_str(), written.as_str())?);
    Ok(())
}

/// A state with every kind of operation and an entry that has every field at another value than its default.
const FULL: &str =
    "{\"manifest\":{},\"pending_operations\":[{\"resource\":{\"custom\":false,\"type\":\"pulumi:pulumi:Stack\",\"urn\":\"%S%\"},\"type\":\"creating\"},{\"resource\":{\"custom\":false,\"type\":\"pulumi:pulumi:Stack\",\"urn\":\"%S%\"},\"type\":\"updating\"},{\"resource\":{\"custom\":false,\"type\":\"pulumi:pulumi:Stack\",\"urn\":\"%S%\"},\"type\":\"deleting\"},{\"resource\":{\"custom\":false,\"type\":\"pulumi:pulumi:Stack\",\"urn\":\"%S%\"},\"type\":\"reading\"},{\"resource\":{\"custom\":false,\"type\":\"pulumi:pulumi:Stack\",\"urn\":\"%S%\"},\"type\":\"importing\"}],\"resources\":[{\"custom\":false,\"type\":\"pulumi:pulumi:Stack\",\"urn\":\"%S%\"},{\"custom\":true,\"id\":\"%U%\",\"type\":\"pulumi:providers:toy\",\"urn\":\"%P%\"},{\"additionalSecretOutputs\":[\"key\"],\"aliases\":[\"%P%\"],\"custom\":true,\"delete\":true,\"deletedWith\":\"%P%\",\"dependencies\":[\"%S%\",\"%P%\"],\"external\":true,\"id\":\"a-1\",\"importID\":\"i-1\",\"initErrors\":[\"late\",\"\"],\"inputs\":{\"k\":1},\"outputs\":{\"bucket\":\"b0\",\"key\":{\"4dabf18193072939515e22adb298388d\":\"1b47061264138c4ac30d75fd1eb44270\",\"plaintext\":\"1\"}},\"parent\":\"%S%\",\"pendingReplacement\":true,\"propertyDependencies\":{\"a\":[\"%P%\"],\"b\":[]},\"protect\":true,\"provider\":\"%P%::%U%\",\"retainOnDelete\":true,\"type\":\"toy:index:Thing\",\"urn\":\"%A%\"}]}";

#[test]
fn full_states_are_written_as_they_are_read(rt: HostRuntime) -> Result<(), Fail> {
    let alloc = rt.alloc();
    let written = checkpoint(alloc, FULL)?;
    assert!(rt; is_answered(alloc, FULL, written.as_str())?);
    Ok(())
}
