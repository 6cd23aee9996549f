//! The marks of a tree, in the order of the text.

ghost use Rattle.std.specs.Prelude.{◌≡◌, ◌++◌, [], ◌∷◌, map, true, false, IfOk, OnOk};
ghost use Rattle.c_ast.specs.Views.{argument_of, arguments_of, declarator_of, enumerator_of, enumerators_of, expression_of, item_of, member_declaration_of};
ghost use Rattle.c_ast.specs.Views.{member_declarations_of, member_declarator_of, member_declarators_of, specifier_of, specifiers_of, type_name_of};
ghost use Rattle.c_ast.specs.Views.{init_declarator_of};
ghost use Rattle.c_erasure.specs.Marks.{a_structure, a_tag, after_declarator, an_enumeration, marks, marks_of_all, marks_of_declarator};
ghost use Rattle.c_erasure.specs.Marks.{marks_of_declarators, marks_of_enumerators, marks_of_file, marks_of_item, marks_of_member_declarators};
ghost use Rattle.c_erasure.specs.Marks.{marks_of_members, marks_of_specifier, marks_of_specifiers, marks_of_type, tag_name};
ghost use Rattle.c_erasure.specs.Erasure.{after_all as token_after};
ghost use Rattle.c_scopes.specs.SyntaxTags.Untagged.{untagged_by};
ghost use Rattle.c_file_tags.specs.Marks.{marks_in};
ghost use Rattle.c_scopes.specs.SyntaxTags.Tables.{tag_of};

use crate::marks::Marks;
use c_ast::{
    Argument, At, Declarator, Enumerator, Expression, InitDeclarator, Item, MemberDeclaration,
    MemberDeclarator, Specifier, Spelling, TypeName,
};
use c_scopes::{TagMark, Untagged};
use lay_base::NoMemory;
use std::alloc::Global;

/// The tag of a structure, which is known where it stands.
fn structure<'a>(untagged: &'a Untagged, at: At, x: &'a Option<Spelling>) -> TagMark<'a>
    ensures tag { a_tag (tag_of result) ≡ a_structure (untagged_by untagged.now) at x.now }
    ensures name { result.name.now ≡ tag_name (untagged_by untagged.now) at x.now }
{
    match x {
        Some(x) => known(x),
        None => TagMark {
            name: untagged.tag_at(at),
            place: at,
            from: at,
            is_enumeration: false,
        },
    }
}

/// A structure's tag that is written.
fn known<'a>(x: &'a Spelling) -> TagMark<'a>
    ensures name { result.name.now ≡ x.now.text }
    ensures place { result.place ≡ x.now.from }
    ensures from { result.from ≡ x.now.from }
    ensures kind { result.is_enumeration ≡ false }
{
    TagMark {
        name: x.text.as_slice(),
        place: x.from,
        from: x.from,
        is_enumeration: false,
    }
}

/// The tag of an enumeration, which is known from its end on.
fn enumeration<'a>(x: &'a Spelling, right: At) -> TagMark<'a>
    ensures name { result.name.now ≡ x.now.text }
    ensures place { result.place ≡ x.now.from }
    ensures from { result.from ≡ right }
    ensures kind { result.is_enumeration ≡ true }
{
    TagMark {
        name: x.text.as_slice(),
        place: x.from,
        from: right,
        is_enumeration: true,
    }
}

/// The comma after the last enumerator, or the brace.
fn after_all(comma: Option<At>, right: At) -> At
    ensures { result ≡ token_after comma right }
{
    comma.unwrap_or(right)
}

#[cycle(expression_marks)]
fn expression_marks<'a>(
    found: &mut Marks<'a>,
    untagged: &'a Untagged,
    a: &'a Expression,
) -> Result<(), NoMemory>
    ensures { OnOk result (marks_in found.new ≡ marks_in found.old ++ marks (untagged_by untagged.now) (expression_of a.now)) }
{
    match a {
        Expression::Name(_)
        | Expression::Number(_, _, _)
        | Expression::Character(_, _)
        | Expression::Texts(_) => Ok(()),
        Expression::Paren(_, a, _)
        | Expression::Dot(a, _, _)
        | Expression::Arrow(a, _, _)
        | Expression::Post(a, _, _)
        | Expression::Pre(_, _, a)
        | Expression::Unary(_, _, a)
        | Expression::SizeofExpression(_, a) => expression_marks(found, untagged, a.get()),
        Expression::SizeofType(_, _, type_name, _) => type_name_marks(found, untagged, type_name),
        Expression::Cast(_, type_name, _, a) => {
            type_name_marks(found, untagged, type_name)?;
            expression_marks(found, untagged, a.get())
        }
        Expression::Index(a, _, b, _)
        | Expression::Binary(a, _, _, b)
        | Expression::Assign(a, _, _, b)
        | Expression::Comma(a, _, b) => {
            expression_marks(found, untagged, a.get())?;
            expression_marks(found, untagged, b.get())
        }
        Expression::Cond(a, _, b, _, c) => {
            expression_marks(found, untagged, a.get())?;
            expression_marks(found, untagged, b.get())?;
            expression_marks(found, untagged, c.get())
        }
        Expression::Call(f, _, all, _) => {
            expression_marks(found, untagged, f.get())?;
            arguments_marks(found, untagged, all.as_slice())
        }
        Expression::Braces(_, all, _, _) => arguments_marks(found, untagged, all.as_slice()),
    }
}

#[cycle(expression_marks)]
fn arguments_marks<'a>(
    found: &mut Marks<'a>,
    untagged: &'a Untagged,
    all: &'a [Argument],
) -> Result<(), NoMemory>
    ensures { OnOk result (marks_in found.new ≡ marks_in found.old ++ marks_of_all (untagged_by untagged.now) (arguments_of (map argument_of all.now))) }
{
    for item in all {
        expression_marks(found, untagged, &item.value)?;
    }
    Ok(())
}

#[cycle(expression_marks)]
fn type_name_marks<'a>(
    found: &mut Marks<'a>,
    untagged: &'a Untagged,
    type_name: &'a TypeName,
) -> Result<(), NoMemory>
    ensures { OnOk result (marks_in found.new ≡ marks_in found.old ++ marks_of_type (untagged_by untagged.now) (type_name_of type_name.now)) }
{
    specifiers_marks(found, untagged, type_name.specifiers.as_slice())?;
    match &type_name.declarator {
        None => Ok(()),
        Some(d) => declarator_marks(found, untagged, d.get()),
    }
}

#[cycle(expression_marks)]
fn specifiers_marks<'a>(
    found: &mut Marks<'a>,
    untagged: &'a Untagged,
    all: &'a [Specifier],
) -> Result<(), NoMemory>
    ensures { OnOk result
        (marks_in found.new ≡ marks_in found.old ++ marks_of_specifiers (untagged_by untagged.now) (specifiers_of (map specifier_of all.now))) }
{
    for specifier in all {
        specifier_marks(found, untagged, specifier)?;
    }
    Ok(())
}

#[cycle(expression_marks)]
fn specifier_marks<'a>(
    found: &mut Marks<'a>,
    untagged: &'a Untagged,
    specifier: &'a Specifier,
) -> Result<(), NoMemory>
    ensures { OnOk result (marks_in found.new ≡ marks_in found.old ++ marks_of_specifier (untagged_by untagged.now) (specifier_of specifier.now)) }
{
    match specifier {
        Specifier::Keyword(_, _) | Specifier::Typename(_) | Specifier::Enum(_, _) => Ok(()),
        Specifier::Struct(_, x) => found.add_tag(known(x)),
        Specifier::StructBody(at, x, _, all, right) => {
            let tag = structure(untagged, *at, x);
            found.add_tag(tag)?;
            members_marks(found, untagged, all.as_slice())?;
            found.add_end(tag.name, *right)
        }
        Specifier::EnumBody(_, x, _, all, comma, right) => {
            enumerators_marks(found, untagged, all.as_slice(), after_all(*comma, *right))?;
            match x {
                Some(x) => found.add_tag(enumeration(x, *right)),
                None => Ok(()),
            }
        }
    }
}

#[cycle(expression_marks)]
fn members_marks<'a>(
    found: &mut Marks<'a>,
    untagged: &'a Untagged,
    all: &'a [MemberDeclaration],
) -> Result<(), NoMemory>
    ensures { OnOk result (marks_in found.new
        ≡ marks_in found.old ++ marks_of_members (untagged_by untagged.now) (member_declarations_of (map member_declaration_of all.now))) }
{
    for member_declaration in all {
        specifiers_marks(found, untagged, member_declaration.specifiers.as_slice())?;
        member_declarators_marks(found, untagged, member_declaration.declarators.as_slice())?;
    }
    Ok(())
}

#[cycle(expression_marks)]
fn member_declarators_marks<'a>(
    found: &mut Marks<'a>,
    untagged: &'a Untagged,
    all: &'a [MemberDeclarator],
) -> Result<(), NoMemory>
    ensures { OnOk result (marks_in found.new
        ≡ marks_in found.old ++ marks_of_member_declarators (untagged_by untagged.now) (member_declarators_of (map member_declarator_of all.now))) }
{
    for member_declarator in all {
        declarator_marks(found, untagged, &member_declarator.declarator)?;
    }
    Ok(())
}

// The scope of an enumerator begins at the comma after it, so that of each but the last is found with the next one.
#[cycle(expression_marks)]
fn enumerators_marks<'a>(
    found: &mut Marks<'a>,
    untagged: &'a Untagged,
    all: &'a [Enumerator],
    after: At,
) -> Result<(), NoMemory>
    ensures { OnOk result (marks_in found.new
        ≡ marks_in found.old ++ marks_of_enumerators (untagged_by untagged.now) (enumerators_of (map enumerator_of all.now)) after) }
{
    let mut is_first = true;
    for enumerator in all {
        if !is_first {
            found.add_name(enumerator.comma.unwrap_or(after))?;
        }
        is_first = false;
        if let Some(value) = &enumerator.value {
            expression_marks(found, untagged, value.value.get())?;
        }
    }
    if is_first {
        return Ok(());
    }
    found.add_name(after)
}

#[cycle(expression_marks)]
fn declarator_marks<'a>(
    found: &mut Marks<'a>,
    untagged: &'a Untagged,
    d: &'a Declarator,
) -> Result<(), NoMemory>
    ensures { OnOk result (marks_in found.new ≡ marks_in found.old ++ marks_of_declarator (untagged_by untagged.now) (declarator_of d.now)) }
{
    match d {
        Declarator::Identifier(_) => Ok(()),
        Declarator::Enclosed(_, d, _) => declarator_marks(found, untagged, d.get()),
        Declarator::Pointer(_, _, d) | Declarator::Function(d, _, _, _) => match d {
            None => Ok(()),
            Some(d) => declarator_marks(found, untagged, d.get()),
        },
        Declarator::Array(d, _, length, _) => {
            if let Some(d) = d {
                declarator_marks(found, untagged, d.get())?;
            }
            match length {
                None => Ok(()),
                Some(a) => expression_marks(found, untagged, a.get()),
            }
        }
    }
}

// The scope of a declarator without an initializer begins at the token after it, which is found with the next one.
fn declarators_marks<'a>(
    found: &mut Marks<'a>,
    untagged: &'a Untagged,
    all: &'a [InitDeclarator],
    semicolon: At,
) -> Result<(), NoMemory>
    ensures { OnOk result (marks_in found.new
        ≡ marks_in found.old ++ marks_of_declarators (untagged_by untagged.now) (map init_declarator_of all.now) semicolon) }
{
    let mut is_open = false;
    for d in all {
        if is_open {
            found.add_name(d.comma.unwrap_or(semicolon))?;
        }
        declarator_marks(found, untagged, &d.declarator)?;
        is_open = d.value.is_none();
        if let Some(value) = &d.value {
            found.add_name(value.equal)?;
            expression_marks(found, untagged, value.value.get())?;
        }
    }
    if is_open {
        return found.add_name(semicolon);
    }
    Ok(())
}

fn item_marks<'a>(
    found: &mut Marks<'a>,
    untagged: &'a Untagged,
    item: &'a Item,
) -> Result<(), NoMemory>
    ensures { OnOk result (marks_in found.new ≡ marks_in found.old ++ marks_of_item (untagged_by untagged.now) (item_of item.now)) }
{
    match item {
        Item::Function(f) => {
            specifiers_marks(found, untagged, f.specifiers.as_slice())?;
            declarator_marks(found, untagged, &f.declarator)?;
            found.add_name(f.open)
        }
        Item::Declaration(d) => {
            specifiers_marks(found, untagged, d.specifiers.as_slice())?;
            declarators_marks(found, untagged, d.declarators.as_slice(), d.semicolon)
        }
    }
}

/// The marks of a file's items.
pub fn file_marks<'a>(
    alloc: Global,
    untagged: &'a Untagged,
    all: &'a [Item],
) -> Result<Marks<'a>, NoMemory>
    ensures { IfOk result (λ found. marks_in found ≡ marks_of_file (untagged_by untagged.now) (map item_of all.now)) }
{
    let mut found = Marks::new(alloc);
    for item in all {
        item_marks(&mut found, untagged, item)?;
    }
    Ok(found)
}
