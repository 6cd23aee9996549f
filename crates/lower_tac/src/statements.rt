//! The code of statements (C99 6.8), from the back.

ghost use Rattle.std.specs.Prelude.{◌≡◌, ◌+◌, ◌<◌, ◌≤◌, ◌^◌, map, reverse};
ghost use Rattle.std.specs.Option.{option_map};
ghost use Rattle.c_typed.specs.Views.{arm_of, arms_of, expression_of, statement_of, statements_of};
ghost use Rattle.lower_tac.specs.Asked.{asked, asked_by_arms, asked_by_statement, asked_by_statements, asked_if_any};
ghost use Rattle.lower_tac.specs.Drafts.{ArmsDrafted, Drafted, before_arms, body_in};
ghost use Rattle.lower_tac.specs.Grounds.{locals_in, program_in};
ghost use Rattle.lower_tac.specs.Statements.{arms_code, effect_if_any, in_switch, return_code, statement_code, statements_code, test_code};
ghost use Rattle.lower_tac.specs.Writing.{Wrote};

use crate::dispatch::{default_start, put_dispatch};
use crate::draft::Draft;
use crate::ground::Ground;
use crate::operands::temp;
use crate::steps::ALONE;
use crate::ways::{Exit, Exits, ReturnWay};
use crate::writer::Writer;
use c_typed::{Arm, Expression, Statement};
use lay_base::{Boxed, List};
use tac_ir::{Step, Target};

/// The ways out of the arms of a `switch`.
fn leading_behind(end: Target, x: Exits) -> Exits
    ensures { result ≡ in_switch end x }
{
    Exits {
        on_break: Exit::Leads(end),
        on_continue: x.on_continue,
        on_return: x.on_return,
    }
}

impl Ground<'_> {
    /// What is done where the test of a loop holds, or where there is none.
    fn test(&self, w: &mut Writer, e: &Option<Boxed<Expression>>, to: Target)
        requires { self.now.room + 1 + asked_if_any (option_map expression_of e.now) < 2 ^ 32 }
        ensures { Wrote w.old w.new (test_code (program_in self.now) self.now.number (locals_in self.now) (option_map expression_of e.now) to) }
    {
        match e {
            None => w.put(Step::Jump(to)),
            Some(e) => self.branch(w, e.get(), true, to, self.room),
        }
    }

    fn effect_if_any(&self, w: &mut Writer, e: &Option<Boxed<Expression>>)
        requires { self.now.room + 1 + asked_if_any (option_map expression_of e.now) < 2 ^ 32 }
        ensures { Wrote w.old w.new (effect_if_any (program_in self.now) self.now.number (locals_in self.now) (option_map expression_of e.now)) }
    {
        if let Some(e) = e {
            self.effect(w, e.get(), self.room);
        }
    }

    fn leave_function(&self, w: &mut Writer, e: &Option<Boxed<Expression>>, way: ReturnWay)
        requires { self.now.room + 1 + asked_if_any (option_map expression_of e.now) < 2 ^ 32 }
        ensures { Wrote w.old w.new (return_code (program_in self.now) self.now.number (locals_in self.now) (option_map expression_of e.now) way) }
    {
        match (e, way) {
            (None, ReturnWay::AtOnce) => w.put(Step::Return(None)),
            (None, ReturnWay::BehindEnds(to)) => {
                w.put(Step::Jump(to));
                w.put(Step::Clear(self.room));
            }
            (Some(e), ReturnWay::AtOnce) => {
                w.put(Step::Return(Some(self.operand(e.get(), self.room))));
                self.part(w, ALONE, e.get(), self.room);
            }
            (Some(e), ReturnWay::BehindEnds(to)) => {
                w.put(Step::Jump(to));
                self.put_test(w, e.get(), self.room);
                self.value(w, e.get(), self.room, self.room);
            }
        }
    }

    /// What stands before the arms of a `switch`.
    fn put_switch(
        &self,
        w: &mut Writer,
        e: &Expression,
        own: &[usize],
        arms: &[Arm],
        starts: &[Target],
        end: Target,
    )
        requires { self.now.room + 1 + asked (expression_of e.now) < 2 ^ 32 }
        ensures { Wrote w.old w.new (before_arms (program_in self.now) self.now.number (locals_in self.now) (expression_of e.now) own.now (arms_of (map arm_of arms.now)) starts.now end) }
    {
        w.put(Step::Jump(default_start(end, arms, starts)));
        put_dispatch(w, temp(e.place, self.room), arms, starts);
        self.begins(w, own);
        let value = self.operand(e, self.room);
        w.put(Step::Number(self.room, e.place, value));
        self.part(w, ALONE, e, self.room);
    }

    /// A statement, and what ways out of it lead to.
    #[cycle(statements)]
    pub fn statement(&self, draft: &mut Draft, s: &Statement, x: Exits)
        requires few { self.now.room + 1 + asked_by_statement (statement_of s.now) < 2 ^ 32 }
        requires loops { draft.old.loops + asked_by_statement (statement_of s.now) < 2 ^ 32 }
        ensures is { Drafted draft.old draft.new (statement_code (program_in self.now) self.now.number (locals_in self.now) (statement_of s.now) x) }
        ensures loops { draft.new.loops ≤ draft.old.loops + asked_by_statement (statement_of s.now) }
    {
        match s {
            Statement::Do(e) => self.effect(&mut draft.code, e.get(), self.room),
            Statement::Block(own, all) => {
                let within = self.end_scope(draft, own.as_slice(), x);
                self.statements(draft, all, within);
                self.begins(&mut draft.code, own.as_slice());
            }
            Statement::Declare(n, i) => self.declare(draft, *n, i),
            Statement::If(e, one, other) => match other {
                None => {
                    let past = draft.here();
                    self.statement(draft, one.get(), x);
                    self.branch(&mut draft.code, e.get(), false, past, self.room);
                }
                Some(other) => {
                    let end = draft.here();
                    self.statement(draft, other.get(), x);
                    let past = draft.here();
                    draft.put(Step::Jump(end));
                    self.statement(draft, one.get(), x);
                    self.branch(&mut draft.code, e.get(), false, past, self.room);
                }
            },
            Statement::While(e, body) => {
                let end = draft.here();
                let label = draft.take_label();
                self.branch(
                    &mut draft.code,
                    e.get(),
                    true,
                    Target::Label(label),
                    self.room,
                );
                let test = draft.here();
                self.body(draft, body, end, test, label, x);
                draft.put(Step::Jump(test));
            }
            Statement::DoWhile(body, e) => {
                let end = draft.here();
                let label = draft.take_label();
                self.branch(
                    &mut draft.code,
                    e.get(),
                    true,
                    Target::Label(label),
                    self.room,
                );
                let test = draft.here();
                self.body(draft, body, end, test, label, x);
            }
            Statement::For(own, start, test, step, body) => {
                let within = self.end_scope(draft, own.as_slice(), x);
                let end = draft.here();
                let label = draft.take_label();
                self.test(&mut draft.code, test, Target::Label(label));
                let tested = draft.here();
                self.effect_if_any(&mut draft.code, step);
                let next = draft.here();
                self.body(draft, body, end, next, label, within);
                draft.put(Step::Jump(tested));
                draft.count_loops(start.as_slice());
                self.statements(draft, start, within);
                self.begins(&mut draft.code, own.as_slice());
            }
            Statement::Switch(e, own, arms) => {
                let outside = leading_behind(draft.here(), x);
                let within = self.end_scope(draft, own.as_slice(), outside);
                let end = draft.here();
                let mut starts = Vec::new(self.alloc);
                self.arms(draft, arms, leading_behind(end, within), &mut starts);
                starts.reverse();
                self.put_switch(
                    &mut draft.code,
                    e.get(),
                    own.as_slice(),
                    arms.as_slice(),
                    &starts,
                    end,
                );
            }
            Statement::Break => self.leave(&mut draft.code, x.on_break),
            Statement::Continue => self.leave(&mut draft.code, x.on_continue),
            Statement::Return(e) => self.leave_function(&mut draft.code, e, x.on_return),
        }
    }

    /// The body of a loop, which its test leads to by a label.
    #[cycle(statements)]
    fn body(
        &self,
        draft: &mut Draft,
        body: &Boxed<Statement>,
        end: Target,
        next: Target,
        label: usize,
        x: Exits,
    )
        requires few { self.now.room + 1 + asked_by_statement (statement_of body.now) < 2 ^ 32 }
        requires loops { draft.old.loops + asked_by_statement (statement_of body.now) < 2 ^ 32 }
        ensures is { Drafted draft.old draft.new (body_in self.now (statement_of body.now) end next label x) }
        ensures loops { draft.new.loops ≤ draft.old.loops + asked_by_statement (statement_of body.now) }
    {
        let within = Exits {
            on_break: Exit::Leads(end),
            on_continue: Exit::Leads(next),
            on_return: x.on_return,
        };
        self.statement(draft, body.get(), within);
        draft.begin_body(self.number, label);
    }

    /// There are numbers for what a statement asks for.
    fn has_numbers(&self, _draft: &Draft, _s: &Statement)
        requires few { self.now.room + 1 + asked_by_statement (statement_of _s.now) < 2 ^ 32 }
        requires loops { _draft.now.loops + asked_by_statement (statement_of _s.now) < 2 ^ 32 }
        ensures few { self.now.room + 1 + asked_by_statement (statement_of _s.now) < 2 ^ 32 }
        ensures loops { _draft.now.loops + asked_by_statement (statement_of _s.now) < 2 ^ 32 }
    {}

    /// There are for those of a list.
    fn has_numbers_for_all(&self, _draft: &Draft, _all: &List<Statement>)
        requires few { self.now.room + 1 + asked_by_statements (statements_of (map statement_of _all.now)) < 2 ^ 32 }
        requires loops { _draft.now.loops + asked_by_statements (statements_of (map statement_of _all.now)) < 2 ^ 32 }
        ensures few { self.now.room + 1 + asked_by_statements (statements_of (map statement_of _all.now)) < 2 ^ 32 }
        ensures loops { _draft.now.loops + asked_by_statements (statements_of (map statement_of _all.now)) < 2 ^ 32 }
    {}

    #[cycle(statements)]
    fn statements(&self, draft: &mut Draft, all: &List<Statement>, x: Exits)
        requires few { self.now.room + 1 + asked_by_statements (statements_of (map statement_of all.now)) < 2 ^ 32 }
        requires loops { draft.old.loops + asked_by_statements (statements_of (map statement_of all.now)) < 2 ^ 32 }
        ensures is { Drafted draft.old draft.new (statements_code (program_in self.now) self.now.number (locals_in self.now) (statements_of (map statement_of all.now)) x) }
        ensures loops { draft.new.loops ≤ draft.old.loops + asked_by_statements (statements_of (map statement_of all.now)) }
    {
        for s in all.as_slice().iter().rev() {
            self.has_numbers(draft, s);
            self.statement(draft, s, x);
        }
    }

    /// The arms of a `switch`, and where each begins, the last one first.
    #[cycle(statements)]
    fn arms(&self, draft: &mut Draft, all: &List<Arm>, x: Exits, starts: &mut Vec<Target>)
        requires few { self.now.room + 1 + asked_by_arms (arms_of (map arm_of all.now)) < 2 ^ 32 }
        requires loops { draft.old.loops + asked_by_arms (arms_of (map arm_of all.now)) < 2 ^ 32 }
        ensures is { ArmsDrafted draft.old draft.new (reverse starts.old.items) (reverse starts.new.items) (arms_code (program_in self.now) self.now.number (locals_in self.now) (arms_of (map arm_of all.now)) x) }
        ensures loops { draft.new.loops ≤ draft.old.loops + asked_by_arms (arms_of (map arm_of all.now)) }
    {
        for arm in all.as_slice().iter().rev() {
            self.has_numbers_for_all(draft, &arm.statements);
            self.statements(draft, &arm.statements, x);
            draft.start_arm(starts);
        }
    }
}
