//! Expressions in statements (C99 6.8), and what a `for` begins with.

ghost use Rattle.std.specs.Prelude.{◌≡◌, Ok};
ghost use Rattle.std.specs.Option.{option_map};
ghost use Rattle.c_types.specs.Views.{type_of};
ghost use Rattle.c_ast.specs.Views.{declaration_of, expression_of as tree_of, for_start_of};
ghost use Rattle.c_typed.specs.Trees as Typed;
ghost use Rattle.c_annotated.specs.Views.{expression_of, statement_of};
ghost use Rattle.c_erasure.specs.Checking.Statements.{condition as condition_of, condition_if_any as condition_of_option, start_of as start_in};
ghost use Rattle.c_erasure.specs.Checking.Statements.{jump as jump_in, local_declaration as local_declaration_in, returned_nothing};
ghost use Rattle.c_erasure.specs.Checking.Statements.{value_if_any as value_of_option, value_of_expression as value_of};
ghost use Rattle.c_nodes.specs.Gives.{Gives};
ghost use Rattle.c_check_parts.specs.BlockLocals.Performing.{Performs, body_of, standing};
ghost use Rattle.c_check_statements.specs.StatementParts.Parts.{value_returned as value_returned_in};

use crate::statement_parts::making::statement;
use c_annotated::{Local, Statement};
use c_ast::{Declaration, ForStart, first_of_declaration, first_of_expression};
use c_check_expressions::value;
use c_check_parts::{local_declaration, scope_in};
use c_nodes::{Fault, Storage, Value, condition as tested, returned, storage_of};
use c_scopes::{Block, FileScope};
use c_typed::is_void;
use c_types::Ty;
use lay_base::{Boxed, List, Rule, add};
use std::alloc::Global;

/// The value of an expression in a block.
pub fn value_of_expression(
    a: &c_ast::Expression,
    file: &mut FileScope,
    block: &Block,
    locals: &List<Local>,
) -> Result<Value, Fault>
    ensures { Performs expression_of result (value_of (tree_of a.now) (standing file.old block.now locals.now)) file.new block.now locals.now }
{
    value(a, file, scope_in(block, locals))
}

/// The value of an expression, where there is one.
pub fn value_if_any(
    a: &Option<Boxed<c_ast::Expression>>,
    file: &mut FileScope,
    block: &Block,
    locals: &List<Local>,
) -> Result<Option<Value>, Fault>
    ensures { let s = standing file.old block.now locals.now in
        Performs (λ x. option_map expression_of x) result (value_of_option (option_map tree_of a.now) s) file.new block.now locals.now }
{
    match a {
        None => Ok(None),
        Some(a) => Ok(Some(value_of_expression(a.get(), file, block, locals)?)),
    }
}

/// A controlling expression: a number or a pointer (C99 6.8.4.1, 6.8.5).
pub fn condition(
    a: &c_ast::Expression,
    file: &mut FileScope,
    block: &Block,
    locals: &List<Local>,
) -> Result<Value, Fault>
    ensures { Performs expression_of result (condition_of (tree_of a.now) (standing file.old block.now locals.now)) file.new block.now locals.now }
{
    let x = value_of_expression(a, file, block, locals)?;
    tested(first_of_expression(a), x)
}

/// A controlling expression, where there is one.
pub fn condition_if_any(
    a: &Option<Boxed<c_ast::Expression>>,
    file: &mut FileScope,
    block: &Block,
    locals: &List<Local>,
) -> Result<Option<Value>, Fault>
    ensures { let s = standing file.old block.now locals.now in
        Performs (λ x. option_map expression_of x) result (condition_of_option (option_map tree_of a.now) s) file.new block.now locals.now }
{
    match a {
        None => Ok(None),
        Some(a) => Ok(Some(condition(a.get(), file, block, locals)?)),
    }
}

/// `return` with a value, which stands at `at` (C99 6.8.6.4).
pub fn value_returned(
    a: &c_ast::Expression,
    at: u32,
    result_type: &Ty,
    file: &mut FileScope,
    block: &Block,
    locals: &List<Local>,
) -> Result<Boxed<Statement>, Fault>
    ensures { let s = standing file.old block.now locals.now in
        Performs statement_of result (value_returned_in (type_of result_type.now) at (tree_of a.now) s) file.new block.now locals.now }
{
    if is_void(result_type) {
        return Err(Fault::IllTyped(Rule::Return, at));
    }
    let x = value_of_expression(a, file, block, locals)?;
    let x = returned(file.alloc, at, result_type, x)?;
    statement(file.alloc, Statement::Return(Some(x)))
}

/// `return` without a value, which stands at `at` (C99 6.8.6.4).
pub fn nothing_returned(alloc: Global, at: u32, result_type: &Ty) -> Result<Boxed<Statement>, Fault>
    ensures { Gives statement_of result (returned_nothing at (type_of result_type.now)) }
{
    if is_void(result_type) {
        statement(alloc, Statement::Return(None))
    } else {
        Err(Fault::IllTyped(Rule::Return, at))
    }
}

/// `break` or `continue`, which stands at `at`, and may stand there or not (C99 6.8.6.2, 6.8.6.3).
pub fn jump(alloc: Global, at: u32, may: bool, st: Statement) -> Result<Boxed<Statement>, Fault>
    ensures { Gives statement_of result (jump_in at may (statement_of st)) }
{
    if may {
        statement(alloc, st)
    } else {
        Err(Fault::IllTyped(Rule::Jump, at))
    }
}

/// An expression as the only statement.
fn evaluated(alloc: Global, x: Value) -> Result<List<Statement>, Fault>
    ensures { Gives body_of result (Ok (Typed.and_statement (Typed.evaluate (expression_of x)) Typed.no_statements)) }
{
    let mut all = List::new(alloc);
    add(&mut all, Statement::Do(x))?;
    Ok(all)
}

/// The statements of a declaration alone.
#[tactic(auto, using(c_check_parts::proofs::BlockLocals::InTurn::after_nothing))]
fn declared(
    d: &Declaration,
    file: &mut FileScope,
    block: &mut Block,
    locals: &mut List<Local>,
) -> Result<List<Statement>, Fault>
    ensures { let s = standing file.old block.old locals.old in
        Performs body_of result (local_declaration_in (declaration_of d.now) s) file.new block.new locals.new }
{
    let mut all = List::new(file.alloc);
    local_declaration(d, file, block, locals, &mut all)?;
    Ok(all)
}

/// What stands first in the parentheses of a `for` (C99 6.8.5.3).
pub fn start_of(
    start: &ForStart,
    file: &mut FileScope,
    block: &mut Block,
    locals: &mut List<Local>,
) -> Result<List<Statement>, Fault>
    ensures { let s = standing file.old block.old locals.old in
        Performs body_of result (start_in (for_start_of start.now) s) file.new block.new locals.new }
{
    match start {
        ForStart::Expression(None, _) => Ok(List::new(file.alloc)),
        ForStart::Expression(Some(a), _) => {
            let x = value_of_expression(a.get(), file, block, locals)?;
            evaluated(file.alloc, x)
        }
        ForStart::Declaration(d) => {
            if storage_of(d.specifiers.as_slice()) == Storage::Static {
                Err(Fault::IllTyped(Rule::Specifiers, first_of_declaration(d)))
            } else {
                declared(d, file, block, locals)
            }
        }
    }
}
