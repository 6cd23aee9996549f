//! Statements (C99 6.8), the items of blocks and of the bodies of `switch`.

ghost use Rattle.std.specs.Prelude.{◌≡◌, map, true};
ghost use Rattle.c_types.specs.Views.{type_of};
ghost use Rattle.c_ast.specs.Views.{block_item_of, block_items_of, statement_of as tree_of, switch_item_of, switch_items_of};
ghost use Rattle.c_erasure.specs.BrokenStatements.{no_labels};
ghost use Rattle.c_annotated.specs.Views.{arm_of, arms_of, statement_of};
ghost use Rattle.c_erasure.specs.Checking.Statements.{item_in as item_in_block, items_in as items_in_block, performed as performed_in};
ghost use Rattle.c_erasure.specs.Checking.Statements.{switch_item as item_of_switch, switch_items as items_of_switch};
ghost use Rattle.c_check_parts.specs.BlockLocals.Performing.{Performs, body_of, standing, statements_after};
ghost use Rattle.c_check_statements.specs.StatementParts.Arms.{item_added, last_arm_of};
ghost use Rattle.c_check_statements.specs.StatementParts.Parts.{switch_labels_of, with_first_arm};

use crate::statement_parts::{
    LastArm, SwitchLabels, add_labelled, block_of, close, condition, condition_if_any,
    declare_in_arm, first_arm, for_of, if_else_of, jump, labels_in, no_labels, nothing_returned,
    start_of, statement, switch_of, value_if_any, value_of_expression, value_returned,
};
use c_annotated::{Arm, Local, Statement};
use c_ast::{BlockItem, SwitchItem, first_of_expression};
use c_check_parts::{add_statement, inside, local_declaration, scope_in};
use c_nodes::{Fault, switched};
use c_scopes::{Block, FileScope};
use c_types::{IntKind, Ty};
use lay_base::{Boxed, List};

/// What stands around a statement: the type that the function gives, and whether a loop or a `switch` does.
#[derive(Clone, Copy)]
pub struct Around<'a> {
    pub result_type: &'a Ty,
    pub in_loop: bool,
    pub in_switch: bool,
}

/// What stands around the body of a loop.
fn in_loop<'a>(around: Around<'a>) -> Around<'a>
    ensures types { result.result_type.now ≡ around.entry.result_type.now }
    ensures loops { result.in_loop ≡ true }
    ensures switches { result.in_switch ≡ around.entry.in_switch }
{
    Around {
        result_type: around.result_type,
        in_loop: true,
        in_switch: around.in_switch,
    }
}

/// What stands around a statement of the body of a `switch`.
fn in_switch<'a>(around: Around<'a>) -> Around<'a>
    ensures types { result.result_type.now ≡ around.entry.result_type.now }
    ensures loops { result.in_loop ≡ around.entry.in_loop }
    ensures switches { result.in_switch ≡ true }
{
    Around {
        result_type: around.result_type,
        in_loop: around.in_loop,
        in_switch: true,
    }
}

/// A statement.
#[cycle(performed)]
#[tactic(auto, unfolding(c_erasure::specs::Checking::Statements::performed))]
fn performed(
    a: &c_ast::Statement,
    around: Around,
    file: &mut FileScope,
    block: &Block,
    locals: &mut List<Local>,
) -> Result<Boxed<Statement>, Fault>
    ensures { let s = standing file.old block.now locals.old in let result_type = type_of around.entry.result_type.now in
        Performs statement_of result (performed_in result_type (tree_of a.now) s around.entry.in_loop around.entry.in_switch) file.new block.now locals.new }
{
    match a {
        c_ast::Statement::Block(_, items, _) => {
            let mut inner = inside(file.alloc, &*block);
            match block_items(items.as_slice(), around, file, &mut inner, locals) {
                Ok(all) => block_of(file.alloc, all),
                Err(fault) => Err(fault),
            }
        }
        c_ast::Statement::Expression(None, _) => block_of(file.alloc, List::new(file.alloc)),
        c_ast::Statement::Expression(Some(a), _) => {
            let x = value_of_expression(a.get(), file, &*block, locals)?;
            statement(file.alloc, Statement::Do(x))
        }
        c_ast::Statement::If(_, _, a, _, one) => {
            let x = condition(a.get(), file, &*block, locals)?;
            let one = performed(one.get(), around, file, &*block, locals)?;
            statement(file.alloc, Statement::If(x, one, None))
        }
        c_ast::Statement::IfElse(_, _, a, _, one, _, other) => {
            let x = condition(a.get(), file, &*block, locals)?;
            let one = performed(one.get(), around, file, &*block, locals)?;
            let other = performed(other.get(), around, file, &*block, locals)?;
            if_else_of(file.alloc, x, one, other)
        }
        c_ast::Statement::While(_, _, a, _, body) => {
            let x = condition(a.get(), file, &*block, locals)?;
            let body = performed(body.get(), in_loop(around), file, &*block, locals)?;
            statement(file.alloc, Statement::While(x, body))
        }
        c_ast::Statement::DoWhile(_, body, _, _, a, _, _) => {
            let body = performed(body.get(), in_loop(around), file, &*block, locals)?;
            let x = condition(a.get(), file, &*block, locals)?;
            statement(file.alloc, Statement::DoWhile(body, x))
        }
        c_ast::Statement::For(_, _, start, test, _, step, _, body) => {
            let mut inner = inside(file.alloc, &*block);
            let start = start_of(start, file, &mut inner, locals)?;
            let test = condition_if_any(test, file, &inner, locals)?;
            let step = value_if_any(step, file, &inner, locals)?;
            let body = performed(body.get(), in_loop(around), file, &inner, locals)?;
            for_of(file.alloc, start, test, step, body)
        }
        c_ast::Statement::Switch(_, _, a, _, _, items, _) => {
            let x = value_of_expression(a.get(), file, &*block, locals)?;
            let x = switched(file.alloc, first_of_expression(a.get()), x)?;
            let mut inner = inside(file.alloc, &*block);
            let arms = switch_items(items.as_slice(), around, x.kind, file, &mut inner, locals)?;
            switch_of(file.alloc, x, arms)
        }
        c_ast::Statement::Break(at, _) => {
            let may = around.in_loop || around.in_switch;
            jump(file.alloc, *at, may, Statement::Break)
        }
        c_ast::Statement::Continue(at, _) => {
            jump(file.alloc, *at, around.in_loop, Statement::Continue)
        }
        c_ast::Statement::Return(at, None, _) => nothing_returned(
            file.alloc,
            *at,
            around.result_type,
        ),
        c_ast::Statement::Return(at, Some(a), _) => {
            value_returned(a.get(), *at, around.result_type, file, &*block, locals)
        }
    }
}

/// An item of a block, after others.
#[cycle(performed)]
#[tactic(auto, unfolding(c_erasure::specs::Checking::Statements::item_in))]
fn item_in(
    item: &BlockItem,
    around: Around,
    file: &mut FileScope,
    block: &mut Block,
    locals: &mut List<Local>,
    all: &mut List<Statement>,
) -> Result<(), Fault>
    ensures { let s = standing file.old block.old locals.old in let result_type = type_of around.entry.result_type.now in
        Performs (λ done. body_of all.new) result
        (statements_after (body_of all.old) (item_in_block result_type (block_item_of item.now) s around.entry.in_loop around.entry.in_switch))
        file.new block.new locals.new }
{
    match item {
        BlockItem::Declaration(d) => local_declaration(d, file, block, locals, all),
        BlockItem::Statement(a) => {
            match performed(a, around, file, block, locals) {
                Ok(st) => add_statement(all, st.into_inner()),
                Err(fault) => Err(fault),
            }
        }
    }
}

/// The items of a block, after others.
#[cycle(performed)]
fn items_in(
    items: &[BlockItem],
    around: Around,
    file: &mut FileScope,
    block: &mut Block,
    locals: &mut List<Local>,
    all: &mut List<Statement>,
) -> Result<(), Fault>
    ensures { let s = standing file.old block.old locals.old in let result_type = type_of around.entry.result_type.now in
        Performs (λ done. body_of all.new) result
        (statements_after (body_of all.old)
        (items_in_block result_type (block_items_of (map block_item_of items.now)) s around.entry.in_loop around.entry.in_switch))
        file.new block.new locals.new }
{
    for item in items {
        match item_in(item, around, file, block, locals, all) {
            Ok(()) => {}
            Err(fault) => return Err(fault),
        }
    }
    Ok(())
}

/// The items of a block.
#[cycle(performed)]
#[tactic(auto, using(c_check_parts::proofs::BlockLocals::InTurn::after_nothing))]
pub fn block_items(
    items: &[BlockItem],
    around: Around,
    file: &mut FileScope,
    block: &mut Block,
    locals: &mut List<Local>,
) -> Result<List<Statement>, Fault>
    ensures { let s = standing file.old block.old locals.old in let result_type = type_of around.entry.result_type.now in
        Performs body_of result
        (items_in_block result_type (block_items_of (map block_item_of items.now)) s around.entry.in_loop around.entry.in_switch)
        file.new block.new locals.new }
{
    let mut all = List::new(file.alloc);
    match items_in(items, around, file, block, locals, &mut all) {
        Ok(()) => Ok(all),
        Err(fault) => Err(fault),
    }
}

/// The arms of the items of a `switch` whose controlling expression has that type.
#[cycle(performed)]
fn switch_items(
    items: &[SwitchItem],
    around: Around,
    kind: IntKind,
    file: &mut FileScope,
    block: &mut Block,
    locals: &mut List<Local>,
) -> Result<List<Arm>, Fault>
    ensures { let s = standing file.old block.old locals.old in let result_type = type_of around.entry.result_type.now in
        Performs (λ arms. arms_of (map arm_of arms)) result
        (with_first_arm (items_of_switch result_type (switch_items_of (map switch_item_of items.now)) s around.entry.in_loop kind no_labels))
        file.new block.new locals.new }
{
    let mut labels = no_labels(file.alloc);
    let mut arms = List::new(file.alloc);
    let mut last = first_arm(file.alloc);
    for item in items {
        match switch_item(
            item,
            around,
            kind,
            file,
            block,
            locals,
            &mut labels,
            &mut arms,
            &mut last,
        ) {
            Ok(()) => {}
            Err(fault) => return Err(fault),
        }
    }
    match close(file.alloc, &mut arms, last) {
        Ok(()) => Ok(arms),
        Err(want) => Err(Fault::Memory(want)),
    }
}

/// An item of a `switch`: its labels, and what stands in its arms up to there.
#[cycle(performed)]
#[tactic(auto, unfolding(c_erasure::specs::Checking::Statements::switch_item), using(crate::proofs::StatementParts::ArmsInTurn::local_item))]
fn switch_item(
    item: &SwitchItem,
    around: Around,
    kind: IntKind,
    file: &mut FileScope,
    block: &mut Block,
    locals: &mut List<Local>,
    labels: &mut SwitchLabels,
    arms: &mut List<Arm>,
    last: &mut LastArm,
) -> Result<(), Fault>
    ensures { let s = standing file.old block.old locals.old in let result_type = type_of around.entry.result_type.now in
        Performs (λ done. ((map arm_of arms.new, last_arm_of last.new), switch_labels_of labels.new)) result
        (item_added (map arm_of arms.old) (last_arm_of last.old)
        (item_of_switch result_type (switch_item_of item.now) s around.entry.in_loop kind (switch_labels_of labels.old)))
        file.new block.new locals.new }
{
    match item {
        SwitchItem::Local(d) => match declare_in_arm(d, file, block, locals, last) {
            Ok(()) => Ok(()),
            Err(fault) => Err(fault),
        },
        SwitchItem::Labelled(own, a) => {
            match labels_in(own.as_slice(), file, scope_in(block, locals), kind, labels) {
                Ok(own) => match performed(a, in_switch(around), file, block, locals) {
                    Ok(st) => match add_labelled(file.alloc, arms, last, own, st) {
                        Ok(()) => Ok(()),
                        Err(want) => Err(Fault::Memory(want)),
                    },
                    Err(fault) => Err(fault),
                },
                Err(fault) => Err(fault),
            }
        }
    }
}
