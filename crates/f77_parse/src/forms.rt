//! The forms of statements after their keywords, and of those that have none (ANSI X3.9-1978, sections 8 to 12).

ghost use Rattle.std.specs.Prelude.{◌≡◌, codes};
ghost use Rattle.std.specs.Str.{bytes_eq};
ghost use Rattle.f77_parse.specs.KeptForms.{step_kept, bounds_kept, do_kept, assigned_kept, conditional_kept, condition_in, assignment_kept, sign_labels_kept, stop_kept, go_to_kept, items_after_kept, items_or_none_kept, targets_kept, call_kept, subroutine_kept, transfer_kept, simple_kept, condition_kept, guarded_kept, if_kept, else_if_kept};
ghost use Rattle.f77_parse.specs.Answers.{Gives};

use crate::listing::{ItemPart, LabelPart, VariablePart};
use crate::reader::Reader;
use df_sequence::{Boxed, Sequence};
use f77_expr::ReadEnd;
use f77_tree::{Name, RawExpr, Stmt};
use std::alloc::Global;

impl<'a> Reader<'a> {
    /// DO, its label, its variable and its bounds.
    #[tactic(auto, unfolding(crate::specs::KeptForms::do_kept))]
    pub(crate) fn do_loop(&mut self, alloc: Global) -> Result<Stmt, ReadEnd>
        ensures { Gives (do_kept self.old.is_bad self.old.rest.now) result self.new.is_bad self.new.rest.now }
    {
        self.wants(b"DO")?;
        let label = self.label()?;
        self.skips(b",");
        let variable = self.name()?;
        self.bounds(alloc, label, variable)
    }

    /// The bounds of a DO after its variable.
    #[tactic(auto, unfolding(crate::specs::KeptForms::bounds_kept))]
    fn bounds(&mut self, alloc: Global, label: u32, variable: Name) -> Result<Stmt, ReadEnd>
        ensures { Gives (bounds_kept label variable self.old.is_bad self.old.rest.now) result self.new.is_bad self.new.rest.now }
    {
        self.wants(b"=")?;
        let first = self.expression(alloc)?;
        self.wants(b",")?;
        let last = self.expression(alloc)?;
        let step = self.step(alloc)?;
        Ok(Stmt::Do(label, variable, first, last, step))
    }

    /// The step of a DO, if it is said.
    #[tactic(auto, unfolding(crate::specs::KeptForms::step_kept))]
    fn step(&mut self, alloc: Global) -> Result<Option<RawExpr>, ReadEnd>
        ensures { Gives (step_kept self.old.is_bad self.old.rest.now) result self.new.is_bad self.new.rest.now }
    {
        if self.passes(b",") {
            Ok(Some(self.expression(alloc)?))
        } else {
            Ok(None)
        }
    }

    /// The equals sign of an assignment and what stands after it.
    #[tactic(auto, unfolding(crate::specs::KeptForms::assigned_kept))]
    fn assigned(&mut self, alloc: Global, target: RawExpr) -> Result<Stmt, ReadEnd>
        ensures { Gives (assigned_kept target self.old.is_bad self.old.rest.now) result self.new.is_bad self.new.rest.now }
    {
        self.wants(b"=")?;
        let value = self.expression(alloc)?;
        Ok(Stmt::Assign(target, value))
    }

    /// An assignment after the condition of a logical IF.
    #[tactic(auto, unfolding(crate::specs::KeptForms::conditional_kept))]
    fn conditional(&mut self, alloc: Global, condition: RawExpr) -> Result<Stmt, ReadEnd>
        ensures { Gives (conditional_kept condition self.old.is_bad self.old.rest.now) result self.new.is_bad self.new.rest.now }
    {
        let target = self.variable(alloc)?;
        let stmt = self.assigned(alloc, target)?;
        Ok(Stmt::ThenIf(condition, Boxed::new(alloc, stmt)?))
    }

    /// An assignment, or an assignment after the condition of a logical IF: what stands after IF is a subscript where an
    /// equals sign follows it, and a condition where none does.
    #[tactic(auto, unfolding(crate::specs::KeptForms::assignment_kept))]
    pub(crate) fn assignment(&mut self, alloc: Global) -> Result<Stmt, ReadEnd>
        ensures { Gives (assignment_kept self.old.is_bad self.old.rest.now) result self.new.is_bad self.new.rest.now }
    {
        let target = self.variable(alloc)?;
        if self.is_at(b'=') {
            return self.assigned(alloc, target);
        }
        match condition_of(target) {
            Some(condition) => self.conditional(alloc, condition),
            None => Err(ReadEnd::NoForm),
        }
    }

    /// The labels of an arithmetic IF.
    #[tactic(auto, unfolding(crate::specs::KeptForms::sign_labels_kept))]
    fn sign_labels(&mut self, condition: RawExpr) -> Result<Stmt, ReadEnd>
        ensures { Gives (sign_labels_kept condition self.old.is_bad self.old.rest.now) result self.new.is_bad self.new.rest.now }
    {
        let negative = self.label()?;
        self.wants(b",")?;
        let zero = self.label()?;
        self.wants(b",")?;
        let positive = self.label()?;
        Ok(Stmt::SignIf(condition, negative, zero, positive))
    }

    /// What STOP shows: nothing, at most five digits, or characters.
    #[tactic(auto, unfolding(crate::specs::KeptForms::stop_kept))]
    fn stop(&mut self, alloc: Global) -> Result<Stmt, ReadEnd>
        ensures { Gives (stop_kept self.old.is_bad self.old.rest.now) result self.new.is_bad self.new.rest.now }
    {
        if self.is_at_end() {
            return Ok(Stmt::Stop);
        }
        if self.is_at(b'\'') {
            self.character_constant(alloc)?;
            return Ok(Stmt::Stop);
        }
        self.few_digits()?;
        Ok(Stmt::Stop)
    }

    /// A label, or labels in brackets and an expression.
    #[tactic(auto, unfolding(crate::specs::KeptForms::go_to_kept))]
    fn go_to(&mut self, alloc: Global) -> Result<Stmt, ReadEnd>
        ensures { Gives (go_to_kept self.old.is_bad self.old.rest.now) result self.new.is_bad self.new.rest.now }
    {
        if !self.passes(b"(") {
            return Ok(Stmt::GoTo(self.label()?));
        }
        let labels = self.list::<LabelPart>(alloc)?;
        self.wants(b")")?;
        self.skips(b",");
        let index = self.expression(alloc)?;
        Ok(Stmt::PickGoTo(labels, index))
    }

    /// What PRINT * shows: items after a comma, or none.
    #[tactic(auto, unfolding(crate::specs::KeptForms::items_after_kept))]
    fn items_after(&mut self, alloc: Global) -> Result<Stmt, ReadEnd>
        ensures { Gives (items_after_kept self.old.is_bad self.old.rest.now) result self.new.is_bad self.new.rest.now }
    {
        if self.is_at_end() {
            return Ok(Stmt::Print(Sequence::new(alloc)));
        }
        self.wants(b",")?;
        Ok(Stmt::Print(self.list::<ItemPart>(alloc)?))
    }

    /// What WRITE shows: items, or none.
    #[tactic(auto, unfolding(crate::specs::KeptForms::items_or_none_kept))]
    fn items_or_none(&mut self, alloc: Global) -> Result<Stmt, ReadEnd>
        ensures { Gives (items_or_none_kept self.old.is_bad self.old.rest.now) result self.new.is_bad self.new.rest.now }
    {
        if self.is_at_end() {
            return Ok(Stmt::Print(Sequence::new(alloc)));
        }
        Ok(Stmt::Print(self.list::<ItemPart>(alloc)?))
    }

    /// What READ reads.
    #[tactic(auto, unfolding(crate::specs::KeptForms::targets_kept))]
    fn targets(&mut self, alloc: Global) -> Result<Stmt, ReadEnd>
        ensures { Gives (targets_kept self.old.is_bad self.old.rest.now) result self.new.is_bad self.new.rest.now }
    {
        Ok(Stmt::Take(self.list::<VariablePart>(alloc)?))
    }

    /// The subroutine that CALL names, and its arguments.
    #[tactic(auto, unfolding(crate::specs::KeptForms::call_kept))]
    fn call(&mut self, alloc: Global) -> Result<Stmt, ReadEnd>
        ensures { Gives (call_kept self.old.is_bad self.old.rest.now) result self.new.is_bad self.new.rest.now }
    {
        let name = self.name()?;
        let arguments = self.names(alloc)?;
        Ok(Stmt::CallTo(name, arguments))
    }

    /// The name of a subroutine, and its dummy arguments.
    #[tactic(auto, unfolding(crate::specs::KeptForms::subroutine_kept))]
    pub(crate) fn subroutine(&mut self, alloc: Global) -> Result<Stmt, ReadEnd>
        ensures { Gives (subroutine_kept self.old.is_bad self.old.rest.now) result self.new.is_bad self.new.rest.now }
    {
        let name = self.name()?;
        let dummies = self.names(alloc)?;
        Ok(Stmt::Sub(name, dummies))
    }

    /// A form that may stand after a condition.
    #[tactic(auto, unfolding(crate::specs::KeptForms::simple_kept))]
    pub(crate) fn simple(&mut self, alloc: Global) -> Result<Stmt, ReadEnd>
        ensures { Gives (simple_kept self.old.is_bad self.old.rest.now) result self.new.is_bad self.new.rest.now }
    {
        if self.passes(b"CONTINUE") {
            return Ok(Stmt::Continue);
        }
        if self.passes(b"STOP") {
            return self.stop(alloc);
        }
        if self.passes(b"GOTO") {
            return self.go_to(alloc);
        }
        if self.passes(b"CALL") {
            return self.call(alloc);
        }
        if self.passes(b"RETURN") {
            return Ok(Stmt::Back);
        }
        self.transfer(alloc)
    }

    /// Output or input.
    #[tactic(auto, unfolding(crate::specs::KeptForms::transfer_kept))]
    fn transfer(&mut self, alloc: Global) -> Result<Stmt, ReadEnd>
        ensures { Gives (transfer_kept self.old.is_bad self.old.rest.now) result self.new.is_bad self.new.rest.now }
    {
        if self.passes(b"PRINT*") {
            return self.items_after(alloc);
        }
        if self.passes(b"WRITE(*,*)") {
            return self.items_or_none(alloc);
        }
        if self.passes(b"WRITE(6,*)") {
            return self.items_or_none(alloc);
        }
        if self.passes(b"READ*,") {
            return self.targets(alloc);
        }
        if self.passes(b"READ(*,*)") {
            return self.targets(alloc);
        }
        if self.passes(b"READ(5,*)") {
            return self.targets(alloc);
        }
        Err(ReadEnd::NoForm)
    }

    /// A condition, with the bracket that closes it.
    #[tactic(auto, unfolding(crate::specs::KeptForms::condition_kept))]
    fn condition(&mut self, alloc: Global) -> Result<RawExpr, ReadEnd>
        ensures { Gives (condition_kept self.old.is_bad self.old.rest.now) result self.new.is_bad self.new.rest.now }
    {
        let condition = self.expression(alloc)?;
        self.wants(b")")?;
        Ok(condition)
    }

    /// What may stand after the condition of a logical IF, but for an assignment.
    #[tactic(auto, unfolding(crate::specs::KeptForms::guarded_kept))]
    fn guarded(&mut self, alloc: Global) -> Result<Stmt, ReadEnd>
        ensures { Gives (guarded_kept self.old.is_bad self.old.rest.now) result self.new.is_bad self.new.rest.now }
    {
        if self.passes(b"IF(") {
            let inner = self.condition(alloc)?;
            return self.sign_labels(inner);
        }
        self.simple(alloc)
    }

    /// What stands after IF and its bracket.
    #[tactic(auto, unfolding(crate::specs::KeptForms::if_kept))]
    pub(crate) fn if_form(&mut self, alloc: Global) -> Result<Stmt, ReadEnd>
        ensures { Gives (if_kept self.old.is_bad self.old.rest.now) result self.new.is_bad self.new.rest.now }
    {
        let condition = self.condition(alloc)?;
        if self.is_at_digit() {
            return self.sign_labels(condition);
        }
        if self.passes(b"THEN") {
            return Ok(Stmt::BlockIf(condition));
        }
        let stmt = self.guarded(alloc)?;
        Ok(Stmt::ThenIf(condition, Boxed::new(alloc, stmt)?))
    }

    /// What stands after ELSE IF and its bracket.
    #[tactic(auto, unfolding(crate::specs::KeptForms::else_if_kept))]
    pub(crate) fn else_if(&mut self, alloc: Global) -> Result<Stmt, ReadEnd>
        ensures { Gives (else_if_kept self.old.is_bad self.old.rest.now) result self.new.is_bad self.new.rest.now }
    {
        let condition = self.condition(alloc)?;
        self.wants(b"THEN")?;
        Ok(Stmt::ElseIf(condition))
    }
}

/// The condition of an IF that was read as an array element with one subscript.
fn condition_of(variable: RawExpr) -> Option<RawExpr>
    ensures { result ≡ condition_in variable }
{
    match variable {
        RawExpr::Call(name, mut subs) => {
            if is_if(&name) && subs.len() == 1 {
                subs.pop()
            } else {
                None
            }
        }
        _ => None,
    }
}

/// Whether a name is IF.
fn is_if(name: &Name) -> bool
    ensures { result ≡ bytes_eq name.now (codes "IF") }
{
    name.as_bytes() == b"IF".as_slice()
}
