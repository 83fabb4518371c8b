ghost use Rattle.std.specs.Prelude.{◌≡◌, ◌↔◌, IfErr, IfOk, IsTrue, length, OnOk};
ghost use Rattle.std.specs.Option.{option_copied};
ghost use Rattle.pl_urn.specs.Grammar.{child_fault, child_text, IsScope, IsUrn, name_of, own_type_of, package_of, project_of, qualified_type_of, stack_of, told_fault, type_above, urn_fault};

use crate::fault::UrnFault;
use crate::grammar::{
    check_child, check_grammar, cut, last_piece, package_of_type, parts, qualified_type, text_of,
    type_above, type_and_name,
};
use std::alloc::{AllocError, Global};
use std::marker::Model;

/// A name of one resource in one stack, seen as its text.
#[derive(Debug, Drop)]
pub struct Urn {
    text: String,
}

impl Model for Urn {
    ghost use Rattle.std.specs.Prelude.{List, ℕ, string_bytes};

    ghost Value = { List ℕ };

    ghost use Rattle.pl_urn.specs.Grammar.{IsUrn};

    ghost view = { λ a. string_bytes a.text };

    ghost invariant = { λ a. IsUrn (string_bytes a.text) };
}

impl Urn {
    pub fn as_str(&self) -> &str
        ensures text { result.now ≡ self.now }
        ensures grammar { IsUrn self.now }
    {
        self.text.as_str()
    }

    pub fn len(&self) -> usize
        ensures { result ≡ length self.now }
    {
        self.text.len()
    }

    /// Whether both have the same text.
    pub fn same_as(&self, other: &Urn) -> bool
        ensures { IsTrue result ↔ (self.now ≡ other.now) }
    {
        self.text.as_str() == other.text.as_str()
    }

    /// The same URN in memory of its own.
    pub fn copy(&self) -> Result<Urn, AllocError>
        ensures { IfOk result (λ made. made ≡ self.now) }
    {
        let text = self.text.clone()?;
        Ok(Urn { text })
    }
}

impl Urn {
    pub fn stack(&self) -> &str
        ensures { result.now ≡ stack_of self.now }
    {
        cut(parts(self.text.as_str())).0
    }

    pub fn project(&self) -> &str
        ensures { result.now ≡ project_of self.now }
    {
        cut(cut(parts(self.text.as_str())).1).0
    }

    /// The types of the parents, without that of the stack, and the own type, joined by `$`.
    pub fn qualified_type(&self) -> &str
        ensures { result.now ≡ qualified_type_of self.now }
    {
        qualified_type(self.text.as_str())
    }

    /// What follows the last `$` of the qualified type.
    pub fn own_type(&self) -> &str
        ensures { result.now ≡ own_type_of self.now }
    {
        last_piece(self.qualified_type())
    }

    /// The name, which may hold `::`.
    pub fn name(&self) -> &str
        ensures { result.now ≡ name_of self.now }
    {
        cut(type_and_name(self.text.as_str())).1
    }

    /// The own type up to its first `:`; for the type of a provider, the package that it provides.
    pub fn package(&self) -> &str
        ensures { result.now ≡ package_of self.now }
    {
        package_of_type(self.own_type())
    }

    fn type_above_child(&self) -> Option<&str>
        ensures above { option_copied result ≡ type_above (qualified_type_of self.now) }
        ensures grammar { IsUrn self.now }
    {
        type_above(qualified_type(self.text.as_str()))
    }
}

/// Reads a URN.
pub fn parse(alloc: Global, text: &str) -> Result<Urn, UrnFault>
    ensures parsed { IfOk result (λ urn. urn ≡ text.now) }
    ensures grammar { OnOk result (IsUrn text.now) }
    ensures refused { IfErr result (λ fault. urn_fault text.now ≡ told_fault fault) }
{
    check_grammar(text)?;
    let text = String::from_str(alloc, text)?;
    Ok(Urn { text })
}

/// Whether a stack or a project may have this name: it is nonempty and holds no `:`.
pub fn is_scope(name: &str) -> bool
    ensures { IsTrue result ↔ IsScope name.now }
{
    !name.is_empty() && !name.contains(':')
}

/// The URN of a resource in this stack and project, below `parent` where there is one. The name may hold
/// `::`, the type may not.
pub fn child(
    alloc: Global,
    parent: Option<&Urn>,
    stack: &str,
    project: &str,
    kind: &str,
    name: &str,
) -> Result<Urn, UrnFault>
    requires stack { IsScope stack.now }
    requires project { IsScope project.now }
    ensures made { IfOk result (λ urn. urn ≡
        child_text (option_copied parent.entry) stack.now project.now kind.now name.now) }
    ensures grammar { IfOk result IsUrn }
    ensures allowed { OnOk result (child_fault kind.now name.now ≡ None) }
    ensures refused { IfErr result (λ fault. child_fault kind.now name.now ≡ told_fault fault) }
{
    check_child(kind, name)?;
    let above = parent.and_then(|urn| urn.type_above_child());
    let text = text_of(alloc, stack, project, above, kind, name)?;
    Ok(Urn { text })
}
