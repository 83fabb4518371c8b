use crate::table::cells;
use pl_urn::{Urn, UrnFault, child, is_scope, parse};
use std::alloc::{AllocError, Global};
use std::process::Abort;
use std::test::Fail;

// Texts that are no URN, and why.
const NO_URNS: &str = r#" => NoPrefix
urn:pulumi => NoPrefix
 urn:pulumi:dev::web::t::a => NoPrefix
urn:pulumi: => TooFewParts
urn:pulumi:dev::web::x => TooFewParts
urn:pulumi:dev::web:::x => TooFewParts
urn:pulumi::::::: => EmptyPart(0)
urn:pulumi:dev::::t::a => EmptyPart(1)
urn:pulumi:dev::web::::a => EmptyPart(2)
urn:pulumi:dev::web::$t::a => EmptyPart(2)
urn:pulumi:dev::web::t$::a => EmptyPart(2)
urn:pulumi:dev::web::s$$t:: => EmptyPart(2)
urn:pulumi:dev::web::t:: => EmptyPart(3)"#;

// Why the text is no URN.
fn fault_in(alloc: Global, text: &str) -> Result<String, AllocError> {
    match parse(alloc, text) {
        Ok(_) => String::from_str(alloc, "none"),
        Err(fault) => format!(in alloc; "{fault:?}"),
    }
}

fn is_refused(alloc: Global, line: &str) -> Result<bool, AllocError> {
    let (text, want) = cells(line);
    let fault = fault_in(alloc, text)?;
    Ok(fault.as_str() == want)
}

#[test]
fn urn_grammar(rt: HostRuntime) -> Result<(), Fail> {
    let urn = parse(rt.alloc(), "urn:pulumi:dev::web::toy:index:Thing::a::b")?;
    assert!(rt; urn.name() == "a::b", "the name goes on");
    for line in NO_URNS.split('\n') {
        assert!(rt; is_refused(rt.alloc(), line)?, "{line}");
    }
    Ok(())
}

fn shown(alloc: Global, urn: &Urn) -> Result<String, AllocError> {
    let (stack, project, qualified) = (urn.stack(), urn.project(), urn.qualified_type());
    let (own, name, package) = (urn.own_type(), urn.name(), urn.package());
    format!(in alloc; "{stack} {project} {qualified} {own} {name} {package}")
}

// URNs, and their stack, project, types, name and package.
const PARTS: &str = r#"urn:pulumi:dev::web::a:b:C::n => dev web a:b:C a:b:C n a
urn:pulumi:dev::web::a:b:C$d:e:F$g:h:I::n$m => dev web a:b:C$d:e:F$g:h:I g:h:I n$m g
urn:pulumi:dev::web::a$pulumi:providers:aws::n => dev web a$pulumi:providers:aws pulumi:providers:aws n aws
urn:pulumi:dev::web::plain::n => dev web plain plain n plain
urn:pulumi:dév::wéb::tø:y::ñ => dév wéb tø:y tø:y ñ tø"#;

fn has_parts(alloc: Global, text: &str, want: &str) -> Result<bool, Fail> {
    let urn = parse(alloc, text)?;
    let shown = shown(alloc, &urn)?;
    Ok(shown.as_str() == want && urn.same_as(&urn.copy()?) && urn.len() == text.len())
}

fn is_line_right(alloc: Global, line: &str) -> Result<bool, Fail> {
    let (text, want) = cells(line);
    has_parts(alloc, text, want)
}

#[test]
fn parts_are_read(rt: HostRuntime) -> Result<(), Fail> {
    for line in PARTS.split('\n') {
        assert!(rt; is_line_right(rt.alloc(), line)?, "{line}");
    }
    assert!(rt;
        has_parts(
            rt.alloc(),
            "urn:pulumi:dev:::web:::t:::n",
            "dev :web :t :t :n "
        )?,
        "no package"
    );
    Ok(())
}

// A child in `dev` and `web`, below a URN where there is a text of one.
fn made(
    rt: &impl Abort,
    alloc: Global,
    parent: &str,
    kind: &str,
    name: &str,
) -> Result<Urn, UrnFault> {
    let (stack, project) = ("dev", "web");
    assert!(rt; is_scope(stack) && is_scope(project));
    if parent.is_empty() {
        return child(alloc, None, stack, project, kind, name);
    }
    let parent = parse(alloc, parent)?;
    child(alloc, Some(&parent), stack, project, kind, name)
}

#[test]
fn children_are_made(rt: HostRuntime) -> Result<(), Fail> {
    let site = "urn:pulumi:dev::web::my:index:Site::s";
    for (parent, kind, name, text) in [
        ("", "t:y", "a", "urn:pulumi:dev::web::t:y::a"),
        ("", ":t", "::a::b", "urn:pulumi:dev::web:::t::::a::b"),
        (
            "urn:pulumi:dev::web::pulumi:pulumi:Stack::s",
            "t",
            "a",
            "urn:pulumi:dev::web::t::a",
        ),
        (
            "urn:pulumi:dev::web::a:b:C$pulumi:pulumi:Stack::s",
            "t",
            "a",
            "urn:pulumi:dev::web::t::a",
        ),
        (
            site,
            "t:y",
            "a",
            "urn:pulumi:dev::web::my:index:Site$t:y::a",
        ),
    ] {
        let urn = made(&rt, rt.alloc(), parent, kind, name)?;
        assert!(rt; urn.as_str() == text, "at {text}");
    }
    for (kind, name, fault) in [
        ("", "a", UrnFault::BadType),
        ("a::b", "a", UrnFault::BadType),
        ("a$b", "a", UrnFault::BadType),
        ("a:", "", UrnFault::BadType),
        ("a", "", UrnFault::EmptyPart(3)),
    ] {
        let refused = made(&rt, rt.alloc(), site, kind, name).err();
        assert!(rt; refused == Some(fault), "at {kind}");
    }
    Ok(())
}

#[test]
fn scopes_are_told(rt: HostRuntime) {
    for (name, is) in [("dev", true), ("", false), (":", false), ("a:b", false)] {
        assert!(rt; is_scope(name) == is, "at {name}");
    }
}
