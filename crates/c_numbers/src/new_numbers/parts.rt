//! What a unit has beside trees, with other numbers.

ghost use Rattle.std.specs.Prelude.{◌≡◌, map};
ghost use Rattle.c_numbers.specs.NewNumbers.Numbers.{renaming_of};
ghost use Rattle.c_numbers.specs.NewNumbers.Parts.{function_in, initial_in, local_in, mention_in, object_in};
ghost use Rattle.c_typed.specs.Mapped.{mapped_statement};
ghost use Rattle.c_typed.specs.Programs.{data_of};
ghost use Rattle.c_typed.specs.Views.{statement_of};

use crate::new_numbers::numbers::Renumbering;
use c_typed::{Function, Initial, InitialValue, Local, Mention, Object, Statement};
use c_walks::change_statement;
use lay_base::List;

fn initial(to: &Renumbering, it: &mut Initial)
    ensures { it.new ≡ initial_in (renaming_of to.now) it.old }
{
    match &mut it.value {
        InitialValue::Number(_, _) => {}
        InitialValue::Address(t, n, _) => {
            *t = to.types.at(*t);
            *n = to.objects.at(*n);
        }
        InitialValue::Function(t, n) => {
            *t = to.types.at(*t);
            *n = to.functions.at(*n);
        }
    }
}

fn initials(to: &Renumbering, all: &mut List<Initial>)
    ensures { all.new ≡ map (initial_in (renaming_of to.now)) all.old }
{
    for it in all.as_mut_vec().iter_mut() {
        initial(to, it);
    }
}

/// Gives an object other numbers.
pub fn renumber_object(to: &Renumbering, o: &mut Object)
    ensures { o.new ≡ object_in (renaming_of to.now) o.old }
{
    o.ty = to.types.at(o.ty);
    if let Some(all) = &mut o.initial {
        initials(to, all);
    }
}

fn local(to: &Renumbering, it: &mut Local)
    ensures { it.new ≡ local_in (renaming_of to.now) it.old }
{
    it.ty = to.types.at(it.ty);
}

fn locals(to: &Renumbering, all: &mut List<Local>)
    ensures { all.new ≡ map (local_in (renaming_of to.now)) all.old }
{
    for it in all.as_mut_vec().iter_mut() {
        local(to, it);
    }
}

fn renumber_statement(to: &Renumbering, s: &mut Statement)
    ensures { statement_of s.new ≡ mapped_statement (renaming_of to.now) (statement_of s.old) }
{
    match change_statement(to, &mut (), s) {
        Ok(()) => {}
        Err(never) => match never {},
    }
}

/// Gives a function other numbers.
pub fn renumber_function(to: &Renumbering, f: &mut Function)
    ensures { data_of f.new ≡ function_in (renaming_of to.now) (data_of f.old) }
{
    f.ty = to.types.at(f.ty);
    locals(to, &mut f.parameters);
    locals(to, &mut f.locals);
    if let Some(body) = &mut f.body {
        renumber_statement(to, body);
    }
}

/// Gives the type of a mention another number.
pub fn renumber_mention(to: &Renumbering, it: &mut Mention)
    ensures { it.new ≡ mention_in (renaming_of to.now) it.old }
{
    it.ty = to.types.at(it.ty);
}
