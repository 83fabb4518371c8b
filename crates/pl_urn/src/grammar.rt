ghost use Rattle.std.specs.Prelude.{◌≡◌, IfErr, IfOk, None, OnOk, string_bytes};
ghost use Rattle.std.specs.List.{after_last};
ghost use Rattle.std.specs.Option.{option_copied};
ghost use Rattle.pl_urn.specs.Cut.{after_cut, before_cut};
ghost use Rattle.pl_urn.specs.Grammar.{child_fault, empty_part, has_empty_piece, is_bad_type, is_dollar, is_provider_type, parts_of, qualified_type_of, text_of, told_fault, type_above, type_below, type_package, urn_fault};

use crate::fault::UrnFault;
use std::alloc::{AllocError, Global};

/// What stands before the package in a provider's type.
const PROVIDER_PREFIX: &str = "pulumi:providers:";

/// The text before the first `::` and the text after it; all and nothing where there is none.
pub fn cut(text: &str) -> (&str, &str)
    ensures before { result.0.now ≡ before_cut text.now }
    ensures after { result.1.now ≡ after_cut text.now }
{
    match text.split_once("::") {
        Some(parts) => parts,
        None => (text, ""),
    }
}

/// What follows the last `$`, or all.
pub fn last_piece(kind: &str) -> &str
    ensures { result.now ≡ after_last is_dollar kind.now }
{
    match kind.rsplit_once('$') {
        Some((_, own)) => own,
        None => kind,
    }
}

/// Whether a type is that of a provider.
pub fn is_provider_type(kind: &str) -> bool
    ensures { result ≡ is_provider_type kind.now }
{
    kind.starts_with(PROVIDER_PREFIX)
}

pub fn package_of_type(kind: &str) -> &str
    ensures { result.now ≡ type_package kind.now }
{
    if let Some(package) = kind.strip_prefix(PROVIDER_PREFIX) {
        return package;
    }
    match kind.split_once(':') {
        Some((package, _)) => package,
        None => kind,
    }
}

pub fn has_empty_piece(kind: &str) -> bool
    ensures { result ≡ has_empty_piece kind.now }
{
    kind.split('$').any(|piece| piece.is_empty())
}

pub fn is_bad_type(kind: &str) -> bool
    ensures { result ≡ is_bad_type kind.now }
{
    kind.is_empty() || kind.contains("::") || kind.contains('$') || kind.ends_with(':')
}

pub fn check_child(kind: &str, name: &str) -> Result<(), UrnFault>
    ensures allowed { OnOk result (child_fault kind.now name.now ≡ None) }
    ensures refused { IfErr result (λ fault. child_fault kind.now name.now ≡ told_fault fault) }
{
    if is_bad_type(kind) {
        return Err(UrnFault::BadType);
    }
    if name.is_empty() {
        return Err(UrnFault::EmptyPart(3));
    }
    Ok(())
}

/// What follows `urn:pulumi:`; nothing where the text does not begin so.
pub fn parts(text: &str) -> &str
    ensures { result.now ≡ parts_of text.now }
{
    match text.strip_prefix("urn:pulumi:") {
        Some(parts) => parts,
        None => "",
    }
}

/// What follows the second `::`.
pub fn type_and_name(text: &str) -> &str
    ensures { result.now ≡ after_cut (after_cut (parts_of text.now)) }
{
    cut(cut(parts(text)).1).1
}

pub fn qualified_type(text: &str) -> &str
    ensures { result.now ≡ qualified_type_of text.now }
{
    cut(type_and_name(text)).0
}

/// What stands above the own type of a child, where its parent has this qualified type.
pub fn type_above(qualified: &str) -> Option<&str>
    ensures { option_copied result ≡ type_above qualified.now }
{
    if last_piece(qualified) == "pulumi:pulumi:Stack" {
        None
    } else {
        Some(qualified)
    }
}

/// The text of a URN of these parts.
pub fn text_of(
    alloc: Global,
    stack: &str,
    project: &str,
    above: Option<&str>,
    kind: &str,
    name: &str,
) -> Result<String, AllocError>
    ensures { IfOk result (λ text. string_bytes text ≡
        text_of stack.now project.now (type_below (option_copied above.entry) kind.now) name.now) }
{
    match above {
        Some(above) => format!(in alloc; "urn:pulumi:{stack}::{project}::{above}${kind}::{name}"),
        None => format!(in alloc; "urn:pulumi:{stack}::{project}::{kind}::{name}"),
    }
}

/// Looks for the first empty part.
pub fn check_parts(stack: &str, project: &str, kind: &str, name: &str) -> Result<(), UrnFault>
    ensures full { OnOk result (empty_part stack.now project.now kind.now name.now ≡ None) }
    ensures refused { IfErr result (λ fault.
        empty_part stack.now project.now kind.now name.now ≡ told_fault fault) }
{
    if stack.is_empty() {
        return Err(UrnFault::EmptyPart(0));
    }
    if project.is_empty() {
        return Err(UrnFault::EmptyPart(1));
    }
    if has_empty_piece(kind) {
        return Err(UrnFault::EmptyPart(2));
    }
    if name.is_empty() {
        return Err(UrnFault::EmptyPart(3));
    }
    Ok(())
}

pub fn check_grammar(text: &str) -> Result<(), UrnFault>
    ensures grammar { OnOk result (urn_fault text.now ≡ None) }
    ensures refused { IfErr result (λ fault. urn_fault text.now ≡ told_fault fault) }
{
    let Some(parts) = text.strip_prefix("urn:pulumi:") else {
        return Err(UrnFault::NoPrefix);
    };
    let (stack, rest) = cut(parts);
    let (project, rest) = cut(rest);
    let Some((kind, name)) = rest.split_once("::") else {
        return Err(UrnFault::TooFewParts);
    };
    check_parts(stack, project, kind, name)
}
