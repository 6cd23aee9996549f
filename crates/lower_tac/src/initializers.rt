//! What locals hold at first (C99 6.7.8).

ghost use Rattle.std.specs.Prelude.{◌≡◌, ◌+◌, ◌<◌, ◌^◌, map, slice_get};
ghost use Rattle.std.specs.Option.{option_map};
ghost use Rattle.c_typed.specs.Trees as T;
ghost use Rattle.c_typed.specs.Views.{expression_of, initializer_of, part_of, part_value_of, path_of};
ghost use Rattle.lower_tac.specs.Asked.{asked, asked_by_initial, asked_by_initializer, asked_by_parts, asked_by_path, asked_by_value};
ghost use Rattle.lower_tac.specs.Drafts.{Drafted, out_in};
ghost use Rattle.lower_tac.specs.Grounds.{locals_in, program_in};
ghost use Rattle.lower_tac.specs.Statements.{declare_code, initial_code, parts_code, put_code};

use crate::draft::Draft;
use crate::ground::Ground;
use crate::operands::temp;
use crate::steps::ALONE;
use c_typed::{Expression, Initializer, InitializerPart, PartValue, Path};
use lay_base::UndefinedKind;
use tac_ir::Step;

impl Ground<'_> {
    fn put_value(&self, draft: &mut Draft, x: u32, offset: u32, e: &Expression)
        requires { self.now.room + 1 + asked (expression_of e.now) < 2 ^ 32 }
        ensures is { Drafted draft.old draft.new (put_code (program_in self.now) self.now.number (locals_in self.now) x offset (T.value (expression_of e.now))) }
        ensures loops { draft.new.loops ≡ draft.old.loops }
    {
        let second = self.room + 1;
        let w = &mut draft.code;
        let access = self.types.row(e.ty).access;
        w.put(Step::Store(
            e.place,
            access,
            temp(e.place, self.room),
            self.operand(e, second),
        ));
        self.part(w, ALONE, e, second);
        w.put(Step::Inside(self.room, e.place, x, offset));
    }

    fn put_record(&self, draft: &mut Draft, x: u32, offset: u32, q: &Path)
        requires { self.now.room + 1 + asked_by_path (path_of q.now) < 2 ^ 32 }
        ensures is { Drafted draft.old draft.new (put_code (program_in self.now) self.now.number (locals_in self.now) x offset (T.record_of (path_of q.now))) }
        ensures loops { draft.new.loops ≡ draft.old.loops }
    {
        let second = self.room + 1;
        let w = &mut draft.code;
        match self.named_root(q) {
            Some(_) => {
                w.put(Step::Fail(UndefinedKind::Dead, q.place));
                w.put(Step::Inside(self.room, q.place, x, offset));
            }
            None => {
                let size = self.types.row(q.ty).size;
                let from = self.left_place(ALONE, q, second);
                w.put(Step::CopyRecord(q.place, size, temp(q.place, self.room), from));
                self.place(w, ALONE, q, second);
                w.put(Step::Inside(self.room, q.place, x, offset));
            }
        }
    }

    fn put_part(&self, draft: &mut Draft, x: u32, one: &InitializerPart)
        requires { self.now.room + 1 + asked_by_value (part_value_of one.now.value) < 2 ^ 32 }
        ensures is { Drafted draft.old draft.new (put_code (program_in self.now) self.now.number (locals_in self.now) x one.now.offset (part_value_of one.now.value)) }
        ensures loops { draft.new.loops ≡ draft.old.loops }
    {
        match &one.value {
            PartValue::Value(e) => self.put_value(draft, x, one.offset, e.get()),
            PartValue::Record(q) => self.put_record(draft, x, one.offset, q.get()),
            PartValue::Text(bytes) => draft.put_text(self.alloc, x, one.offset, bytes),
        }
    }

    #[tactic(auto, using(crate::proofs::FromBack::at_end, crate::proofs::FromBack::one_more, crate::proofs::Counts::part_asks))]
    fn put_parts(&self, draft: &mut Draft, x: u32, all: &[InitializerPart])
        requires { self.now.room + 1 + asked_by_parts (map part_of all.now) < 2 ^ 32 }
        ensures is { Drafted draft.old draft.new (parts_code (program_in self.now) self.now.number (locals_in self.now) x (map part_of all.now)) }
        ensures loops { draft.new.loops ≡ draft.old.loops }
    {
        let mut left = all.len();
        while left > 0 {
            left -= 1;
            self.put_part(draft, x, &all[left]);
        }
    }

    fn put_initial(&self, draft: &mut Draft, x: u32, size: u32, block: bool, i: &Initializer)
        requires { self.now.room + 1 + asked_by_initializer (initializer_of i.now) < 2 ^ 32 }
        ensures is { Drafted draft.old draft.new (initial_code (program_in self.now) self.now.number (locals_in self.now) x size block (initializer_of i.now)) }
        ensures loops { draft.new.loops ≡ draft.old.loops }
    {
        match (block, i) {
            (true, Initializer::Value(e)) => self.put_value(draft, x, 0, e.get()),
            (true, Initializer::Record(q)) => self.put_record(draft, x, 0, q.get()),
            (true, Initializer::Parts(all)) => {
                self.put_parts(draft, x, all.as_slice());
                draft.put(Step::Zeros(x, size));
            }
            (false, Initializer::Value(e)) => {
                self.put_named(&mut draft.code, e.get().place, x, e.get(), None);
                self.value(&mut draft.code, e.get(), x, self.room);
            }
            (false, Initializer::Record(_) | Initializer::Parts(_)) => {}
        }
    }

    /// The declaration of a local is reached.
    pub fn declare(&self, draft: &mut Draft, x: usize, i: &Option<Initializer>)
        requires { self.now.room + 1 + asked_by_initial (option_map initializer_of i.now) < 2 ^ 32 }
        ensures is { Drafted draft.old draft.new (declare_code (program_in self.now) self.now.number (locals_in self.now) (slice_get (locals_in self.now) x) x (option_map initializer_of i.now)) }
        ensures loops { draft.new.loops ≡ draft.old.loops }
    {
        let Some(local) = self.local(x) else {
            return;
        };
        let size = self.types.row(local.ty).size;
        let x = x as u32;
        match i {
            Some(i) => self.put_initial(draft, x, size, local.block, i),
            None => draft.put(if local.block {
                Step::Forget(x, size)
            } else {
                Step::Clear(x)
            }),
        }
    }
}
