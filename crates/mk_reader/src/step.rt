//! What one logical line of a makefile does that is none of the blocks'.
ghost use Rattle.std.specs.Option.{option_copied};
ghost use Rattle.mk_makefile.specs.Steps as spec;
ghost use Rattle.mk_reader.specs.Ties.{Gave, outer};

use crate::reader::Reader;
use mk_depline::{DepLine, parse_dep};
use mk_directive::{Directed, Directive, directive_on};
use mk_lines::cut_comment;
use mk_makefile::{
    Parts, Refusal, What, add_line, assignment, command_in, is_only_white, parted, without_spaces,
};
use mk_scopes::Class;
use mk_world::{Sink, World};
use std::alloc::Global;

impl<'a, W: World, S: Sink> Reader<'a, W, S> {
    // Reads a command line, without its tab.
    fn read_command(&mut self, command: &[u8]) -> Result<(), Refusal>
        ensures { Gave (outer W.meaning W.history W.faults W.runs S.held S.faults)
            self.old self.new (λ done. done) result
            (λ answers. spec.command_read command.now) }
    {
        if is_only_white(command) {
            return Ok(());
        }
        if !self.state.in_group {
            return Err(Refusal::Wrong(What::LostCommand));
        }
        self.state.made.rules.add_command(command)?;
        Ok(())
    }

    // Adds a line whose names are those of files, with the command on it.
    fn add_listed(&mut self, command: Option<&[u8]>, line: &DepLine) -> Result<(), Refusal>
        ensures { Gave (outer W.meaning W.history W.faults W.runs S.held S.faults)
            self.old self.new (λ done. done) result
            (λ answers. spec.line_opened (option_copied command.entry) line.now) }
    {
        add_line(&mut self.state.made.rules, command, line)?;
        self.state.in_group = true;
        Ok(())
    }

    // Adds a line whose references are expanded, with the command on it.
    fn add_line(
        &mut self,
        alloc: Global,
        command: Option<&[u8]>,
        text: &[u8],
    ) -> Result<(), Refusal>
        ensures { Gave (outer W.meaning W.history W.faults W.runs S.held S.faults)
            self.old self.new (λ done. done) result
            (λ answers. spec.line_added answers (option_copied command.entry) text.now) }
    {
        let made = &self.state.made;
        let mut line = parse_dep(alloc, text, made.scopes.cwd(), made.rules.suffixes())?;
        self.list_line(alloc, &mut line)?;
        self.add_listed(command, &line)
    }

    // Reads a dependency line.
    fn read_dependency(&mut self, alloc: Global, line: &[u8]) -> Result<(), Refusal>
        ensures { Gave (outer W.meaning W.history W.faults W.runs S.held S.faults)
            self.old self.new (λ done. done) result
            (λ answers. spec.dependency_read answers line.now) }
    {
        let (text, command) = parted(alloc, line)?;
        let value = self.value(alloc, false, text)?;
        self.add_line(alloc, command, value.bytes())
    }

    // Reads an assignment, which closes the group.
    fn read_assignment(&mut self, alloc: Global, parts: &Parts<'_>) -> Result<(), Refusal>
        ensures { Gave (outer W.meaning W.history W.faults W.runs S.held S.faults)
            self.old self.new (λ done. done) result
            (λ answers. spec.assignment_read answers
            (parts.now.name.now, parts.now.op, parts.now.value.now)) }
    {
        self.state.in_group = false;
        self.assign(alloc, Class::Global, parts.op, parts.name, parts.value)
    }

    // Reads a directive that is none of the blocks'.
    fn obey(
        &mut self,
        alloc: Global,
        file: &[u8],
        number: u32,
        found: &Directed<'_>,
    ) -> Result<(), Refusal>
        ensures { Gave (outer W.meaning W.history W.faults W.runs S.held S.faults)
            self.old self.new (λ done. done) result
            (λ answers. spec.directed answers file.now number found.now.directive
            found.now.argument.now) }
    {
        match found.directive {
            Directive::Undef => self.undefine(alloc, found.argument),
            Directive::Error => self.stop(alloc, found.argument),
            Directive::Warning => self.inform(alloc, file, number, b"warning: ", found.argument),
            Directive::Info => self.inform(alloc, file, number, b"", found.argument),
            Directive::Export => self.export(alloc, found.argument),
            Directive::Unexport => self.unexport(alloc, found.argument),
            Directive::If(_) => Ok(()),
            Directive::ElseIf(_) => Ok(()),
            Directive::Else => Ok(()),
            Directive::EndIf => Ok(()),
            Directive::For => Ok(()),
            Directive::EndFor => Ok(()),
            Directive::Break => Ok(()),
            Directive::Include => Ok(()),
            Directive::TryInclude => Ok(()),
        }
    }

    // Reads a line without its comment.
    fn read_plain(
        &mut self,
        alloc: Global,
        file: &[u8],
        number: u32,
        line: &[u8],
    ) -> Result<(), Refusal>
        ensures { Gave (outer W.meaning W.history W.faults W.runs S.held S.faults)
            self.old self.new (λ done. done) result
            (λ answers. spec.plain_read answers file.now number line.now) }
    {
        if line.is_empty() {
            return Ok(());
        }
        if let Some(found) = directive_on(line) {
            return self.obey(alloc, file, number, &found);
        }
        if let Some(parts) = assignment(line) {
            return self.read_assignment(alloc, &parts);
        }
        self.read_dependency(alloc, line)
    }

    /// Reads a logical line. One that begins with a tab is a command line; every other line is,
    /// without its comment and leading spaces, nothing, a directive, an assignment or else a
    /// dependency line.
    pub fn read_line(
        &mut self,
        alloc: Global,
        file: &[u8],
        number: u32,
        text: &[u8],
    ) -> Result<(), Refusal>
        ensures { Gave (outer W.meaning W.history W.faults W.runs S.held S.faults)
            self.old self.new (λ done. done) result
            (λ answers. spec.line_read answers file.now number text.now) }
    {
        if let Some(command) = command_in(text) {
            return self.read_command(command);
        }
        let line = cut_comment(alloc, text)?;
        self.read_plain(alloc, file, number, without_spaces(line.as_slice()))
    }
}
