//! Names of members, which differ in a structure (C99 6.7.2.1).

ghost use Rattle.std.specs.Prelude.{◌≡◌, ◌++◌, ◌∷◌, [], IfOk, OnOk, map, slice_get};
ghost use Rattle.std.specs.Option.{option_copied, option_map};
ghost use Rattle.c_ast.specs.Views.{declarator_if_any, declarator_of, member_declaration_of, member_declarations_of, member_declarator_of};
ghost use Rattle.c_ast.specs.Views.{member_declarators_of};
ghost use Rattle.c_erasure.specs.Broken.{member_names, names_of_members};
ghost use Rattle.c_erasure.specs.Declarators.{declared_name};
ghost use Rattle.c_erasure.specs.Checking.Declaring.{repeated, standing};
ghost use Rattle.c_declaring.specs.Adding.{lent};
ghost use Rattle.c_declaring.specs.Finds.{Refuses};

use c_ast::{Declarator, MemberDeclaration, MemberDeclarator, Spelling};
use c_nodes::{Fault, name};
use c_scopes::Names;
use lay_base::{Boxed, List, NoMemory, push, reserve};
use std::alloc::Global;

/// The name that a declarator declares.
pub fn declared_name<'a>(d: &'a Declarator) -> Option<&'a Spelling>
    ensures { option_copied result ≡ declared_name (declarator_of d.now) }
{
    match d {
        Declarator::Identifier(x) => Some(x),
        Declarator::Enclosed(_, d, _) => declared_name(d.get()),
        Declarator::Pointer(_, _, d)
        | Declarator::Array(d, _, _, _)
        | Declarator::Function(d, _, _, _) => match d {
            Some(d) => declared_name(d.get()),
            None => None,
        },
    }
}

/// The name that a declarator declares, where there is one.
pub fn name_if_any<'a>(d: &'a Option<Boxed<Declarator>>) -> Option<&'a Spelling>
    ensures { option_copied result ≡ declared_name (declarator_if_any (option_map declarator_of d.now)) }
{
    match d {
        Some(d) => declared_name(d.get()),
        None => None,
    }
}

/// Adds the names of the members of a line.
fn add_names<'a>(found: &mut Vec<&'a Spelling>, all: &'a [MemberDeclarator]) -> Result<(), NoMemory>
    ensures { OnOk result
        (lent found.new.items ≡ lent found.old.items ++ names_of_members (member_declarators_of (map member_declarator_of all.now))) }
{
    for d in all {
        if let Some(x) = declared_name(&d.declarator) {
            push(found, x)?;
        }
    }
    Ok(())
}

/// The names of the members of a structure.
fn member_names<'a>(
    alloc: Global,
    all: &'a [MemberDeclaration],
) -> Result<Vec<&'a Spelling>, NoMemory>
    ensures { IfOk result (λ found. lent found.items ≡ member_names (member_declarations_of (map member_declaration_of all.now))) }
{
    let mut found = Vec::new(alloc);
    for line in all {
        add_names(&mut found, line.declarators.as_slice())?;
    }
    Ok(found)
}

fn found_at<'a>(found: &[&'a Spelling], place: usize) -> Option<&'a Spelling>
    ensures { result ≡ slice_get found.now place }
{
    found.get(place).copied()
}

/// Names that stood before, with the first place of each.
#[derive(Drop)]
struct Standing<'a> {
    names: Names,
    found: Vec<&'a Spelling>,
    ghost same: { names ≡ map (λ b. b.now.text) found.items },
}

impl<'a> Standing<'a> {
    fn new(alloc: Global) -> Standing<'a>
        ensures { lent result.found.items ≡ [] }
    {
        Standing {
            names: Names::new(alloc),
            found: Vec::new(alloc),
        }
    }

    /// The first with that text.
    #[tactic(auto, using(crate::proofs::Standing::found_is, crate::proofs::Standing::missing_is))]
    fn first(&self, x: &[u8]) -> Option<&'a Spelling>
        ensures { option_copied result ≡ standing (lent self.now.found.items) x.now }
    {
        match self.names.number_of(x) {
            Some(place) => found_at(&self.found, place),
            None => None,
        }
    }

    fn add(&mut self, alloc: Global, y: &'a Spelling) -> Result<(), NoMemory>
        ensures { OnOk result (lent self.new.found.items ≡ lent self.old.found.items ++ y.now ∷ []) }
    {
        reserve(&mut self.found, 1)?;
        self.names.add(alloc, y.text.as_slice())?;
        self.found.push_reserved(y);
        Ok(())
    }
}

/// The first name that stands a second time.
fn repeated_among(alloc: Global, all: &[&Spelling]) -> Result<(), Fault>
    ensures { Refuses result (repeated [] (lent all.now)) }
{
    let mut standing = Standing::new(alloc);
    for y in all {
        if let Some(first) = standing.first(y.text.as_slice()) {
            return Err(Fault::Redeclared(name(alloc, y.text.as_slice())?, y.from, first.from));
        }
        standing.add(alloc, *y)?;
    }
    Ok(())
}

/// The first member whose name stands a second time.
pub fn repeated(alloc: Global, all: &List<MemberDeclaration>) -> Result<(), Fault>
    ensures { Refuses result (repeated [] (member_names (member_declarations_of (map member_declaration_of all.now)))) }
{
    let found = member_names(alloc, all.as_slice())?;
    repeated_among(alloc, &found)
}
