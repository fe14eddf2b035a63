//! How assignments change variables (make(1), "VARIABLE ASSIGNMENTS").
ghost use Rattle.mk_makefile.specs.Moments.{stands};
ghost use Rattle.mk_makefile.specs.Variables as spec;
ghost use Rattle.mk_reader.specs.Ties.{Gave, outer};

use crate::reader::Reader;
use mk_bytes::Text;
use mk_cli::AssignOp;
use mk_directive::words;
use mk_makefile::{Refusal, What, is_own_value, on_one_line, remove_all, set_default};
use mk_scopes::Class;
use mk_world::{Sink, World};
use std::alloc::Global;

impl<'a, W: World, S: Sink> Reader<'a, W, S> {
    // The name of a variable, expanded.
    fn variable_name(&mut self, alloc: Global, text: &[u8]) -> Result<Text, Refusal>
        ensures { Gave (outer W.meaning W.history W.faults W.runs S.held S.faults)
            self.old self.new (λ name. name) result
            (λ answers. spec.variable_name answers text.now) }
    {
        let name = self.value(alloc, false, text)?;
        if name.is_empty() {
            return Err(Refusal::Wrong(What::EmptyName));
        }
        Ok(name)
    }

    /// Sets a variable to a text.
    pub fn set(&mut self, class: Class, name: &[u8], text: &[u8]) -> Result<(), Refusal>
        ensures { Gave (outer W.meaning W.history W.faults W.runs S.held S.faults)
            self.old self.new (λ done. done) result
            (λ answers s. stands (spec.assigned_at s class name.now text.now)) }
    {
        self.state.made.scopes.assign(class, name, text)?;
        Ok(())
    }

    fn append(&mut self, class: Class, name: &[u8], text: &[u8]) -> Result<(), Refusal>
        ensures { Gave (outer W.meaning W.history W.faults W.runs S.held S.faults)
            self.old self.new (λ done. done) result
            (λ answers s. stands (spec.appended_at s class name.now text.now)) }
    {
        self.state.made.scopes.append(class, name, text)?;
        Ok(())
    }

    fn default(&mut self, class: Class, name: &[u8], text: &[u8]) -> Result<(), Refusal>
        ensures { Gave (outer W.meaning W.history W.faults W.runs S.held S.faults)
            self.old self.new (λ done. done) result
            (λ answers s. stands (spec.defaulted_at s class name.now text.now)) }
    {
        set_default(&mut self.state.made.scopes, class, name, text)?;
        Ok(())
    }

    fn set_value(
        &mut self,
        alloc: Global,
        class: Class,
        name: &[u8],
        text: &[u8],
    ) -> Result<(), Refusal>
        ensures { Gave (outer W.meaning W.history W.faults W.runs S.held S.faults)
            self.old self.new (λ done. done) result
            (λ answers. spec.valued answers class name.now text.now) }
    {
        let value = self.value(alloc, true, text)?;
        self.set(class, name, value.bytes())
    }

    // What the value of a text prints as a command.
    fn output_of(&mut self, alloc: Global, text: &[u8]) -> Result<Text, Refusal>
        ensures { Gave (outer W.meaning W.history W.faults W.runs S.held S.faults)
            self.old self.new (λ output. output) result
            (λ answers. spec.printed answers text.now) }
    {
        let command = self.value(alloc, false, text)?;
        self.run(alloc, command)
    }

    fn set_output(
        &mut self,
        alloc: Global,
        class: Class,
        name: &[u8],
        text: &[u8],
    ) -> Result<(), Refusal>
        ensures { Gave (outer W.meaning W.history W.faults W.runs S.held S.faults)
            self.old self.new (λ done. done) result
            (λ answers. spec.run_for answers class name.now text.now) }
    {
        let output = self.output_of(alloc, text)?;
        let line = on_one_line(alloc, output.bytes())?;
        self.set(class, name, line.bytes())
    }

    /// Does with a name and a text what the sign of an assignment says: `=` sets the text, `+=`
    /// appends it after one space, `?=` sets it where no class has the name, `:=` sets its value,
    /// and `!=` sets what its value prints as a command.
    pub fn set_by(
        &mut self,
        alloc: Global,
        class: Class,
        op: AssignOp,
        name: &[u8],
        text: &[u8],
    ) -> Result<(), Refusal>
        ensures { Gave (outer W.meaning W.history W.faults W.runs S.held S.faults)
            self.old self.new (λ done. done) result
            (λ answers. spec.set_by answers class op name.now text.now) }
    {
        match op {
            AssignOp::Plain => self.set(class, name, text),
            AssignOp::Append => self.append(class, name, text),
            AssignOp::Default => self.default(class, name, text),
            AssignOp::Now => self.set_value(alloc, class, name, text),
            AssignOp::Shell => self.set_output(alloc, class, name, text),
        }
    }

    /// An assignment, whose name is expanded first: `EmptyName` where nothing is left of it. Nearly
    /// all names are their own values, and are not copied.
    pub fn assign(
        &mut self,
        alloc: Global,
        class: Class,
        op: AssignOp,
        name: &[u8],
        text: &[u8],
    ) -> Result<(), Refusal>
        ensures { Gave (outer W.meaning W.history W.faults W.runs S.held S.faults)
            self.old self.new (λ done. done) result
            (λ answers. spec.assigned_by answers class op name.now text.now) }
    {
        if is_own_value(name) {
            return self.set_by(alloc, class, op, name, text);
        }
        let name = self.variable_name(alloc, name)?;
        self.set_by(alloc, class, op, name.bytes(), text)
    }

    /// Removes the globals that the words of a text name, as they are written.
    pub fn undefine(&mut self, alloc: Global, text: &[u8]) -> Result<(), Refusal>
        ensures { Gave (outer W.meaning W.history W.faults W.runs S.held S.faults)
            self.old self.new (λ done. done) result
            (λ answers s. stands (spec.undefined_by text.now s)) }
    {
        let names = words(alloc, text)?;
        remove_all(&mut self.state.made.scopes, names.as_slice());
        Ok(())
    }
}
