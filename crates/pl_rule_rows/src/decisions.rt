use pl_decide::{
    Decision, Limits, Outcome, PlanLines, Problem, ProviderChange, decide, own_refusal,
};
use pl_state::{BadCheckpoint, Goal, KeyedUrns, Urns};
use pl_urn::Urn;
use pl_value::{Fields, JsonFault, OutOfMemory, Text, Texts};
use std::alloc::Global;
use std::test::Fail;

fn bad_value(alloc: Global) -> Result<Outcome, Fail> {
    let path = Text::from_str(alloc, "latest.resources[0].inputs.size")?;
    let fault = JsonFault::NotWhole(path);
    Ok(Outcome::BadCheckpoint(BadCheckpoint::BadValue(fault)))
}

fn shown(alloc: Global, outcome: &Outcome) -> Result<String, Fail> {
    Ok(format!(in alloc; "{outcome:?}")?)
}

fn shown_copy(alloc: Global, outcome: &Outcome) -> Result<String, Fail> {
    let copied = outcome.copy(alloc)?;
    shown(alloc, &copied)
}

fn is_copied(alloc: Global, outcome: &Outcome, part: &str) -> Result<bool, Fail> {
    let text = shown(alloc, outcome)?;
    Ok(text.contains(part) && shown_copy(alloc, outcome)? == text)
}

#[test]
fn outcomes_are_copied(rt: HostRuntime) -> Result<(), Fail> {
    let alloc = rt.alloc();
    let outcome = bad_value(alloc)?;
    assert!(rt; is_copied(alloc, &outcome, "latest.resources[0].inputs.size")?);
    Ok(())
}

fn one_step(alloc: Global) -> Result<Limits, Fail> {
    let text = "urn:pulumi:dev::web::aws:s3:Bucket::b";
    let mut only = Urns::new(alloc);
    only.push(pl_urn::parse(alloc, text)?)?;
    let mut plan = PlanLines::new(alloc);
    let step = Text::from_str(alloc, "create")?;
    plan.push((pl_urn::parse(alloc, text)?, step))?;
    Ok(Limits {
        only: Some(only),
        plan: Some(plan),
    })
}

#[test]
fn limits_are_copied(rt: HostRuntime) -> Result<(), Fail> {
    let alloc = rt.alloc();
    let limits = one_step(alloc)?;
    let copied = limits.copy()?;
    let shown = format!(in alloc; "{copied:?}")?;
    assert!(rt; shown.contains("create"));
    assert!(rt; shown == format!(in alloc; "{limits:?}")?);
    Ok(())
}

fn thing_urn(alloc: Global) -> Result<Urn, Fail> {
    Ok(pl_urn::parse(alloc, "urn:pulumi:dev::web::toy:i:T::a")?)
}

fn custom_goal(alloc: Global, urn: Urn, kind: Text) -> Goal {
    Goal {
        urn,
        custom: true,
        kind,
        inputs: Fields::new(alloc),
        parent: None,
        provider: None,
        dependencies: Urns::new(alloc),
        property_dependencies: KeyedUrns::new(alloc),
        protect: false,
        aliases: Urns::new(alloc),
        ignore_changes: Texts::new(alloc),
        delete_before_replace: None,
        retain_on_delete: false,
        deleted_with: None,
        additional_secret_outputs: Texts::new(alloc),
        import_id: None,
        version: None,
        read_id: None,
    }
}

fn thing_goal(alloc: Global) -> Result<Goal, Fail> {
    let urn = thing_urn(alloc)?;
    let kind = Text::from_str(alloc, "toy:i:T")?;
    Ok(custom_goal(alloc, urn, kind))
}

// The limits under which nothing or everything may be changed.
fn limits_of(alloc: Global, limited: bool) -> Limits {
    let only = if limited {
        Some(Urns::new(alloc))
    } else {
        None
    };
    Limits { only, plan: None }
}

fn decided(goal: &Goal, limits: &Limits) -> Result<Decision, OutOfMemory> {
    decide(None, goal, ProviderChange::Same, &goal.inputs, None, limits)
}

fn is_created(goal: &Goal, limits: &Limits) -> bool {
    matches!(decided(goal, limits), Ok(Decision::Create))
}

fn is_refused(goal: &Goal, limits: &Limits) -> bool {
    matches!(
        decided(goal, limits),
        Ok(Decision::Refused(Problem::NotPermitted(_)))
    )
}

fn has_refusal(goal: &Goal, limits: &Limits) -> bool {
    matches!(
        own_refusal(limits, None, goal, &Decision::Create),
        Ok(Some(Problem::NotPermitted(_)))
    )
}

#[test]
fn goals_are_decided(rt: HostRuntime) -> Result<(), Fail> {
    let goal = thing_goal(rt.alloc())?;
    let free = limits_of(rt.alloc(), false);
    let limited = limits_of(rt.alloc(), true);
    assert!(rt; is_created(&goal, &free));
    assert!(rt; is_refused(&goal, &limited));
    assert!(rt; has_refusal(&goal, &limited));
    Ok(())
}
