use pl_host_word::{HostWord, Request, word_of};
use pl_options::{GoalFault, default_name, default_provider_urn, goal_of, id_of, with_ignored};
use pl_state::{Goal, Registration};
use pl_urn::{Urn, UrnFault, is_scope};
use pl_value::{Fields, Text, Value, are_fields};
use std::alloc::Global;
use std::process::Abort;
use std::test::Fail;

// The options of a registration, with something to read in each.
const OPTIONS: &str =
    r#""additionalSecretOutputs":["k"],"aliases":["urn:pulumi:dev::web::t::o"],"custom":true,"deletedWith":"urn:pulumi:dev::web::t::o","dependencies":["urn:pulumi:dev::web::t::o"],"ignoreChanges":["k"],"importId":"7","inputs":{"k":2},"parent":"urn:pulumi:dev::web::t::o","propertyDependencies":{"k":["urn:pulumi:dev::web::t::o"]},"provider":"urn:pulumi:dev::web::pulumi:providers:toy::p::1""#;

// The registration of a word of the host.
fn told_in(alloc: Global, text: &str) -> Result<Registration, Fail> {
    match word_of(alloc, text.as_bytes()) {
        Ok(HostWord::Request(Request::Register { told, .. })) => Ok(told),
        _ => Err(Fail::from("no registration")),
    }
}

// A registration of this type and version, with something to read in each of its other options.
fn registration(alloc: Global, kind: &str, version: &str) -> Result<Registration, Fail> {
    let text = format!(in alloc;
        r#"{{"call":"register","n":1,"name":"a","type":"{kind}","version":"{version}",{OPTIONS}}}"#
    )?;
    told_in(alloc, text.as_str())
}

fn checked(made: Vec<(Text, Value)>) -> Option<Fields> {
    if are_fields(made.as_slice()) {
        Some(Fields::from_vec(made))
    } else {
        None
    }
}

// The fields with this number under `k`.
fn fields(alloc: Global, whole: i64) -> Result<Fields, Fail> {
    let mut made = Vec::new(alloc);
    made.push((Text::from_str(alloc, "k")?, Value::Whole(whole)))?;
    let fields = checked(made).ok_or("no fields")?;
    Ok(fields)
}

fn goal(
    rt: &impl Abort,
    alloc: Global,
    kind: &str,
    version: &str,
) -> Result<Result<Goal, GoalFault>, Fail> {
    let (stack, project) = ("dev", "web");
    assert!(rt; is_scope(stack) && is_scope(project));
    let told = registration(alloc, kind, version)?;
    Ok(goal_of(alloc, &told, stack, project))
}

fn shown(rt: &impl Abort, alloc: Global, kind: &str, version: &str) -> Result<String, Fail> {
    match goal(rt, alloc, kind, version)? {
        Ok(goal) => Ok(String::from_str(alloc, goal.urn.as_str())?),
        Err(fault) => Ok(format!(in alloc; "{fault}")?),
    }
}

#[test]
fn goals_are_made(rt: HostRuntime) -> Result<(), Fail> {
    for (kind, version, want) in [
        (
            "toy:index:Thing",
            "1.2.0-rc.1",
            "urn:pulumi:dev::web::t$toy:index:Thing::a",
        ),
        ("t", "", "urn:pulumi:dev::web::t$t::a"),
        ("t", "1.2", "no version"),
        ("a::b", "", "a type or a name that makes no URN"),
        ("pulumi:providers:toy", "", "a provider of a provider"),
    ] {
        let made = shown(&rt, rt.alloc(), kind, version)?;
        assert!(rt; made.as_str() == want, "at {kind}");
    }
    Ok(())
}

// The inputs of the goal, set back to those with the number 1.
fn set_back(rt: &impl Abort, alloc: Global) -> Result<Fields, Fail> {
    let (stack, project) = ("dev", "web");
    assert!(rt; is_scope(stack) && is_scope(project));
    let told = registration(alloc, "t", "")?;
    let goal = goal_of(alloc, &told, stack, project)?;
    Ok(with_ignored(alloc, &goal, &fields(alloc, 1)?)?)
}

#[test]
fn ignored_changes_are_set_back(rt: HostRuntime) -> Result<(), Fail> {
    let made = set_back(&rt, rt.alloc())?;
    let want = Value::from_fields(fields(rt.alloc(), 1)?);
    assert!(rt; Value::from_fields(made).same_as(&want));
    Ok(())
}

fn default_urn(rt: &impl Abort, alloc: Global, provided: &str) -> Result<Urn, UrnFault> {
    let (stack, project) = ("dev", "web");
    assert!(rt; is_scope(stack) && is_scope(project));
    default_provider_urn(alloc, stack, project, provided, Some("1.0.0"))
}

#[test]
fn names_are_made(rt: HostRuntime) -> Result<(), Fail> {
    let name = default_name(rt.alloc(), Some("1.2.0-rc.1+é"))?;
    assert!(rt; name.as_str() == "default_1_2_0_rc_1_é");
    let urn = default_urn(&rt, rt.alloc(), "toy")?;
    assert!(rt; urn.as_str() == "urn:pulumi:dev::web::pulumi:providers:toy::default_1_0_0");
    let id = id_of(rt.alloc(), u128::MAX)?;
    assert!(rt; id.as_str() == "ffffffff-ffff-4fff-bfff-ffffffffffff");
    Ok(())
}
