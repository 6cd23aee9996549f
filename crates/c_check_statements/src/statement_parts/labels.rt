//! The labels of a `switch` (C99 6.8.4.2).

ghost use Rattle.std.specs.Prelude.{◌≡◌, ◌+◌, ◌-◌, ◌<◌, ◌≤◌, ◌^◌, ◌∷◌, [], map};
ghost use Rattle.c_erasure.specs.BrokenStatements.{no_labels};
ghost use Rattle.c_ast.specs.Views.{label_of};
ghost use Rattle.c_erasure.specs.Checking.Statements.{labels_in as labels_in_switch, with_case, with_default};
ghost use Rattle.c_nodes.specs.Gives.{Gives};
ghost use Rattle.c_scopes.specs.Scoping.{scope_of};
ghost use Rattle.c_check_expressions.specs.Finds.{Finds};
ghost use Rattle.c_check_statements.specs.StatementParts.Parts.{case_in, default_in, labels_after, labels_of, switch_labels_of};

use c_ast::Label;
use c_check_expressions::constant;
use c_nodes::Fault;
use c_numbers::NumberSet;
use c_scopes::{FileScope, Scope};
use c_typed::as_kind;
use c_types::IntKind;
use lay_base::{List, Rule, add};
use std::alloc::Global;

/// The labels of a `switch` up to some item: the values of `case` labels, and how often `default` stands there.
#[derive(Drop)]
pub struct SwitchLabels {
    pub cases: NumberSet,
    pub defaults: u32,
}

/// The labels of one statement.
#[derive(Drop)]
pub struct ArmLabels {
    pub cases: List<u32>,
    pub defaults: u64,
}

/// No labels yet.
pub fn no_labels(alloc: Global) -> SwitchLabels
    ensures { switch_labels_of result ≡ no_labels }
{
    SwitchLabels {
        cases: NumberSet::new(alloc),
        defaults: 0,
    }
}

/// A `case` label, which differs from those before. It stands at `at`.
#[tactic(auto, using(crate::proofs::StatementParts::LabelsInTurn::case_repeated, crate::proofs::StatementParts::LabelsInTurn::case_added))]
fn with_case(at: u32, all: &mut SwitchLabels, v: u32) -> Result<(), Fault>
    ensures { Gives (λ done. switch_labels_of all.new) result (with_case at (switch_labels_of all.old) v) }
{
    let number = v as usize;
    if all.cases.contains(number) {
        return Err(Fault::IllTyped(Rule::Label, at));
    }
    match all.cases.add(number) {
        Ok(()) => Ok(()),
        Err(want) => Err(Fault::Memory(want)),
    }
}

/// `default`, which stands once. It stands at `at`.
fn with_default(at: u32, all: &mut SwitchLabels) -> Result<(), Fault>
    ensures { Gives (λ done. switch_labels_of all.new) result (with_default at (switch_labels_of all.old)) }
{
    if all.defaults == 0 {
        all.defaults = 1;
        Ok(())
    } else {
        Err(Fault::IllTyped(Rule::Label, at))
    }
}

/// A `case` label after those of its statement. It stands at `at`.
fn add_case(at: u32, all: &mut SwitchLabels, own: &mut ArmLabels, v: u32) -> Result<(), Fault>
    ensures found { Gives (λ done. labels_of all.new own.new) result (case_in at (switch_labels_of all.old) v own.old.cases own.old.defaults) }
    ensures same { own.new.defaults ≡ own.old.defaults }
{
    with_case(at, all, v)?;
    add(&mut own.cases, v)?;
    Ok(())
}

/// `default` after the labels of its statement. It stands at `at`.
fn add_default(at: u32, all: &mut SwitchLabels, own: &mut ArmLabels) -> Result<(), Fault>
    requires { own.old.defaults < 2 ^ 64 - 1 }
    ensures found { Gives (λ done. labels_of all.new own.new) result (default_in at (switch_labels_of all.old) own.old.cases own.old.defaults) }
    ensures counted { own.new.defaults ≤ own.old.defaults + 1 }
{
    with_default(at, all)?;
    own.defaults += 1;
    Ok(())
}

/// A label after others of a statement.
#[tactic(auto, using(crate::proofs::StatementParts::LabelsInTurn::one_case, crate::proofs::StatementParts::LabelsInTurn::one_default))]
fn add_label(
    label: &Label,
    file: &mut FileScope,
    scope: Scope,
    kind: IntKind,
    all: &mut SwitchLabels,
    own: &mut ArmLabels,
) -> Result<(), Fault>
    requires { own.old.defaults < 2 ^ 64 - 1 }
    ensures found { let s = scope_of file.old scope.entry in
        Finds (λ done. labels_of all.new own.new) result
        (labels_after own.old.cases own.old.defaults (labels_in_switch (label_of label.now ∷ []) s kind (switch_labels_of all.old))) file.new }
    ensures counted { own.new.defaults ≤ own.old.defaults + 1 }
{
    match label {
        Label::Case(at, a, _) => match constant(a, file, scope) {
            Ok(c) => add_case(*at, all, own, as_kind(kind, c.value)),
            Err(fault) => Err(fault),
        },
        Label::Default(at, _) => add_default(*at, all, own),
    }
}

/// The labels of one statement.
pub fn labels_in(
    labels: &[Label],
    file: &mut FileScope,
    scope: Scope,
    kind: IntKind,
    all: &mut SwitchLabels,
) -> Result<ArmLabels, Fault>
    ensures { let s = scope_of file.old scope.entry in
        Finds (λ own. labels_of all.new own) result (labels_in_switch (map label_of labels.now) s kind (switch_labels_of all.old)) file.new }
{
    let mut own = ArmLabels {
        cases: List::new(file.alloc),
        defaults: 0,
    };
    for label in labels {
        match add_label(label, file, scope, kind, all, &mut own) {
            Ok(()) => {}
            Err(fault) => return Err(fault),
        }
    }
    Ok(own)
}
