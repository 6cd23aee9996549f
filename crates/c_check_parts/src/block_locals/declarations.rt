//! Declarations in blocks (C99 6.7): objects, with their initializers.

ghost use Rattle.std.specs.Prelude.{◌≡◌, IfOk, Ok, OnOk, map};
ghost use Rattle.std.specs.Option.{option_copied, option_map};
ghost use Rattle.c_types.specs.Views.{records_of, type_of};
ghost use Rattle.c_ast.specs.Views.{declaration_of, init_declarator_of, value_of};
ghost use Rattle.c_typed.specs.Trees.{no_statements};
ghost use Rattle.c_annotated.specs.FileViews.{bound_of};
ghost use Rattle.c_erasure.specs.Declarators.{declared_name as declared_name_in};
ghost use Rattle.c_erasure.specs.Checking.Declaring.{new_here as new_here_in};
ghost use Rattle.c_erasure.specs.Checking.Statements.{declare_all as declare_all_in, declare_as as declare_as_in, declare_local as declare_local_in};
ghost use Rattle.c_erasure.specs.Checking.Statements.{declare_named as declare_named_in, declare_static as declare_static_in};
ghost use Rattle.c_erasure.specs.Checking.Statements.{local_declaration as local_declaration_in, variable_of as variable_of_in};
ghost use Rattle.c_nodes.specs.DeclaratorTypes.DeclaratorViews.{derivations_of};
ghost use Rattle.c_nodes.specs.Gives.{Gives};
ghost use Rattle.c_scopes.specs.Scoping.{scope_of};
ghost use Rattle.c_check_expressions.specs.Finds.{Finds};
ghost use Rattle.c_check_parts.specs.BlockLocals.Parts.{alone, declared_with, variable_made as variable_made_in};
ghost use Rattle.c_check_parts.specs.BlockLocals.Performing.{Performs, body_of, standing, statements_after};

use crate::block_locals::names::{add_local, add_object, replace_object, static_object};
use crate::block_locals::places::scope_in;
use crate::block_locals::statements::add_statement;
use crate::initializer_parts::{constants_if_any, initial_if_any, sized};
use c_annotated::{Bound, Local, Statement};
use c_ast::{Declaration, InitDeclarator, Spelling, first_of_declaration, first_of_declarator};
use c_check_expressions::{base, derivations};
use c_declaring::{declared_name, mention};
use c_nodes::{Derivation, Fault, Storage, derived, name, storage_of, variable};
use c_scopes::{Block, FileScope, Scope, here, place_in};
use c_typed::MentionKind;
use c_types::{Records, Ty, copy};
use lay_base::{List, Rule};
use std::alloc::Global;

/// The type of an object that steps make of a type, where `count` records are complete.
fn variable_made(
    alloc: Global,
    records: &Records,
    steps: List<Derivation>,
    base: &Ty,
    d: &InitDeclarator,
    count: usize,
    at: u32,
) -> Result<Ty, Fault>
    ensures { Gives type_of result
        (variable_made_in (records_of records.now) (derivations_of steps) (type_of base.now) (option_map value_of d.now.value) count at) }
{
    let base = copy(alloc, base)?;
    let shape = derived(alloc, records, steps, base)?;
    let t = sized(alloc, records, at, shape, &d.value)?;
    variable(records, count, at, t)
}

/// A name that the block has not declared.
fn new_here(alloc: Global, x: &Spelling, old: Option<&Bound>) -> Result<(), Fault>
    ensures { Gives (λ done. done) result (new_here_in x.now (option_map bound_of (option_copied old.entry)) (Ok tt)) }
{
    match old {
        None => Ok(()),
        Some(b) => Err(Fault::Redeclared(name(alloc, x.text.as_slice())?, x.from, b.place)),
    }
}

/// The type of an object that a declarator of a block declares.
#[tactic(auto, using(crate::proofs::BlockLocals::Variables::variable_found))]
fn variable_of(
    d: &InitDeclarator,
    x: &Spelling,
    file: &mut FileScope,
    scope: Scope,
    base: &Ty,
) -> Result<Ty, Fault>
    ensures { Finds type_of result (variable_of_in (scope_of file.old scope.entry) (type_of base.now) (init_declarator_of d.now) x.now) file.new }
{
    let count = file.tags.ended(x.from);
    let before = file.mentions.len();
    let steps = derivations(&d.declarator, file, scope)?;
    let t = variable_made(file.alloc, &file.records, steps, base, d, count, x.from)?;
    new_here(file.alloc, x, here(file, scope, x.text.as_slice()))?;
    let at = first_of_declarator(&d.declarator);
    mention(file, scope, before, MentionKind::Object, &t, at)?;
    Ok(t)
}

/// An object that is made before the program starts. It is bound before its initializer is read.
fn declare_static(
    d: &InitDeclarator,
    x: &Spelling,
    file: &mut FileScope,
    block: &mut Block,
    locals: &List<Local>,
    t: &Ty,
) -> Result<(), Fault>
    ensures { let s = standing file.old block.old locals.now in
        Performs (λ done. no_statements) result (declare_static_in s (init_declarator_of d.now) x.now (type_of t.now)) file.new block.new locals.now }
{
    let at = first_of_declarator(&d.declarator);
    let place = place_in(file, scope_in(block, locals), at);
    let n = add_object(x, place, t, file, block)?;
    let initial = constants_if_any(&d.value, file, scope_in(block, locals), t)?;
    let object = static_object(file.alloc, x, place, t, Some(initial))?;
    replace_object(file.alloc, &mut file.objects, n, object);
    Ok(())
}

/// A local that is made when its block is entered. It is bound before its initializer is read.
fn declare_local(
    d: &InitDeclarator,
    x: &Spelling,
    file: &mut FileScope,
    block: &mut Block,
    locals: &mut List<Local>,
    t: &Ty,
) -> Result<Statement, Fault>
    ensures { let s = standing file.old block.old locals.old in
        Performs alone result (declare_local_in s (init_declarator_of d.now) x.now (type_of t.now)) file.new block.new locals.new }
{
    let n = add_local(file.alloc, x, t, block, locals)?;
    let initial = initial_if_any(&d.value, file, scope_in(block, locals), t)?;
    Ok(Statement::Declare(n, initial))
}

/// The object that a declarator declares, after other statements.
#[tactic(auto, using(crate::proofs::BlockLocals::InTurn::nothing_after))]
fn declare_as(
    is_static: bool,
    d: &InitDeclarator,
    x: &Spelling,
    file: &mut FileScope,
    block: &mut Block,
    locals: &mut List<Local>,
    t: &Ty,
    all: &mut List<Statement>,
) -> Result<(), Fault>
    ensures { let s = standing file.old block.old locals.old in
        Performs (λ done. body_of all.new) result
        (statements_after (body_of all.old) (declare_as_in is_static s (init_declarator_of d.now) x.now (type_of t.now))) file.new block.new locals.new }
{
    if is_static {
        declare_static(d, x, file, block, locals, t)?;
        Ok(())
    } else {
        let st = declare_local(d, x, file, block, locals, t)?;
        add_statement(all, st)
    }
}

fn declare_named(
    is_static: bool,
    base: &Ty,
    d: &InitDeclarator,
    file: &mut FileScope,
    block: &mut Block,
    locals: &mut List<Local>,
    all: &mut List<Statement>,
) -> Result<(), Fault>
    ensures { let s = standing file.old block.old locals.old in let d = init_declarator_of d.now in
        Performs (λ done. body_of all.new) result
        (statements_after (body_of all.old) (declare_named_in is_static s (type_of base.now) d (declared_name_in d.declarator))) file.new block.new locals.new }
{
    match declared_name(&d.declarator) {
        None => Err(Fault::IllTyped(Rule::Specifiers, first_of_declarator(&d.declarator))),
        Some(x) => {
            let t = variable_of(d, x, file, scope_in(block, locals), base)?;
            declare_as(is_static, d, x, file, block, locals, &t, all)
        }
    }
}

/// The objects that the declarators of a declaration declare.
fn declare_all(
    declarators: &[InitDeclarator],
    is_static: bool,
    base: &Ty,
    file: &mut FileScope,
    block: &mut Block,
    locals: &mut List<Local>,
    all: &mut List<Statement>,
) -> Result<(), Fault>
    ensures { let s = standing file.old block.old locals.old in
        Performs (λ done. body_of all.new) result
        (statements_after (body_of all.old) (declare_all_in (map init_declarator_of declarators.now) s is_static (type_of base.now))) file.new block.new locals.new }
{
    for d in declarators {
        match declare_named(is_static, base, d, file, block, locals, all) {
            Ok(()) => {}
            Err(fault) => return Err(fault),
        }
    }
    Ok(())
}

/// A declaration whose objects are made before the program starts, or not.
fn declare(
    d: &Declaration,
    is_static: bool,
    file: &mut FileScope,
    block: &mut Block,
    locals: &mut List<Local>,
    all: &mut List<Statement>,
) -> Result<(), Fault>
    ensures { let s = standing file.old block.old locals.old in
        Performs (λ done. body_of all.new) result
        (statements_after (body_of all.old) (declared_with (declaration_of d.now) s is_static)) file.new block.new locals.new }
{
    let base = base(&d.specifiers, file, scope_in(block, locals))?;
    if d.declarators.is_empty() {
        return Err(Fault::IllTyped(Rule::Specifiers, first_of_declaration(d)));
    }
    let declarators = d.declarators.as_slice();
    declare_all(declarators, is_static, &base, file, block, locals, all)
}

/// The statements of a declaration, after others.
pub fn local_declaration(
    d: &Declaration,
    file: &mut FileScope,
    block: &mut Block,
    locals: &mut List<Local>,
    all: &mut List<Statement>,
) -> Result<(), Fault>
    ensures { let s = standing file.old block.old locals.old in
        Performs (λ done. body_of all.new) result
        (statements_after (body_of all.old) (local_declaration_in (declaration_of d.now) s)) file.new block.new locals.new }
{
    match storage_of(d.specifiers.as_slice()) {
        Storage::None | Storage::Auto | Storage::Register => {
            declare(d, false, file, block, locals, all)
        }
        Storage::Static => declare(d, true, file, block, locals, all),
        Storage::Several => Err(Fault::IllTyped(Rule::Specifiers, first_of_declaration(d))),
        Storage::Typedef | Storage::Extern => {
            Err(Fault::IllTyped(Rule::Scope, first_of_declaration(d)))
        }
    }
}
