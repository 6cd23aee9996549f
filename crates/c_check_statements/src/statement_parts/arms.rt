//! The arms of a `switch` (C99 6.8.4.2), as its items are read.

ghost use Rattle.std.specs.Prelude.{◌≡◌, ◌==◌, ◌++◌, ◌∷◌, [], IfOk, OnOk, false, map, true};
ghost use Rattle.c_ast.specs.Views.{declaration_of};
ghost use Rattle.c_typed.specs.Trees.{no_statements};
ghost use Rattle.c_erasure.specs.Checking.Statements.{local_declaration as local_declaration_in};
ghost use Rattle.c_erasure.specs.Statements.{followed_by};
ghost use Rattle.c_annotated.specs.Views.{arm_of};
ghost use Rattle.c_check_parts.specs.BlockLocals.Parts.{alone};
ghost use Rattle.c_check_parts.specs.BlockLocals.Performing.{Performs, body_of, standing};
ghost use Rattle.c_check_statements.specs.StatementParts.Arms.{arms_with, last_arm_of, unless_empty, went_on, with_closed};

use crate::statement_parts::labels::ArmLabels;
use c_annotated::{Arm, Local, Statement};
use c_ast::Declaration;
use c_check_parts::local_declaration;
use c_nodes::Fault;
use c_scopes::{Block, FileScope};
use lay_base::{Boxed, List, NoMemory, add};
use std::alloc::Global;
use std::mem::replace;

/// The last arm up to there, and whether it has labels. What stands before the first label is in one that has none.
#[derive(Drop)]
pub struct LastArm {
    pub has_labels: bool,
    pub cases: List<u32>,
    pub is_default: bool,
    pub statements: List<Statement>,
}

/// The arm before the first label, in which nothing stands yet.
pub fn first_arm(alloc: Global) -> LastArm
    ensures { last_arm_of result ≡ (false, ([], false, no_statements)) }
{
    LastArm {
        has_labels: false,
        cases: List::new(alloc),
        is_default: false,
        statements: List::new(alloc),
    }
}

/// Adds an arm after others.
fn add_arm(
    arms: &mut List<Arm>,
    cases: List<u32>,
    is_default: bool,
    statements: List<Statement>,
) -> Result<(), NoMemory>
    ensures { OnOk result (map arm_of arms.new ≡ map arm_of arms.old ++ (cases, is_default, body_of statements) ∷ []) }
{
    let arm = Arm {
        cases,
        is_default,
        statements,
    };
    add(arms, arm)
}

/// Adds what stands before the first label, unless that is nothing.
#[tactic(auto, using(crate::proofs::StatementParts::ArmsInTurn::some_statements))]
fn close_first(
    alloc: Global,
    arms: &mut List<Arm>,
    statements: List<Statement>,
) -> Result<(), NoMemory>
    ensures { OnOk result (map arm_of arms.new ≡ map arm_of arms.old ++ unless_empty ([], false, body_of statements) (body_of statements)) }
{
    if statements.is_empty() {
        Ok(())
    } else {
        add_arm(arms, List::new(alloc), false, statements)
    }
}

/// Adds the last arm after others, unless it has neither labels nor statements.
pub fn close(alloc: Global, arms: &mut List<Arm>, last: LastArm) -> Result<(), NoMemory>
    ensures { OnOk result (map arm_of arms.new ≡ with_closed (map arm_of arms.old) (last_arm_of last)) }
{
    if last.has_labels {
        add_arm(arms, last.cases, last.is_default, last.statements)
    } else {
        close_first(alloc, arms, last.statements)
    }
}

/// A statement without labels in the last arm.
#[tactic(auto, using(c_check_parts::proofs::BlockLocals::InTurn::longer_body))]
fn go_on(last: &mut LastArm, statement: Boxed<Statement>) -> Result<(), NoMemory>
    ensures { OnOk result (last_arm_of last.new
        ≡ (last.old.has_labels, (last.old.cases, last.old.is_default, followed_by (body_of last.old.statements) (alone statement)))) }
{
    add(&mut last.statements, statement.into_inner())
}

/// The arm that labels begin, with the statement after them.
fn labelled(alloc: Global, own: ArmLabels, statement: Boxed<Statement>) -> Result<LastArm, NoMemory>
    ensures { IfOk result (λ last. last_arm_of last ≡ (true, (own.cases, own.defaults == 1, alone statement))) }
{
    let mut statements = List::new(alloc);
    add(&mut statements, statement.into_inner())?;
    Ok(LastArm {
        has_labels: true,
        cases: own.cases,
        is_default: own.defaults == 1,
        statements,
    })
}

/// A statement with its labels, which begin an arm. Without labels it stands in the last arm.
pub fn add_labelled(
    alloc: Global,
    arms: &mut List<Arm>,
    last: &mut LastArm,
    own: ArmLabels,
    statement: Boxed<Statement>,
) -> Result<(), NoMemory>
    ensures { OnOk result ((map arm_of arms.new, last_arm_of last.new)
        ≡ arms_with (map arm_of arms.old) (last_arm_of last.old) (alone statement) own.cases own.defaults) }
{
    if own.cases.is_empty() && own.defaults == 0 {
        go_on(last, statement)
    } else {
        let next = labelled(alloc, own, statement)?;
        close(alloc, arms, replace(last, next))
    }
}

/// A declaration in the last arm.
#[tactic(auto, using(crate::proofs::StatementParts::ArmsInTurn::goes_on))]
pub fn declare_in_arm(
    d: &Declaration,
    file: &mut FileScope,
    block: &mut Block,
    locals: &mut List<Local>,
    last: &mut LastArm,
) -> Result<(), Fault>
    ensures { let s = standing file.old block.old locals.old in
        Performs (λ done. last_arm_of last.new) result (went_on (last_arm_of last.old) (local_declaration_in (declaration_of d.now) s))
        file.new block.new locals.new }
{
    local_declaration(d, file, block, locals, &mut last.statements)?;
    Ok(())
}
