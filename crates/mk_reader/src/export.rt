//! Exported variables (make(1), the directives `.export` and `.unexport`).
ghost use Rattle.std.specs.Prelude.{◌≡◌, [], IfOk};
ghost use Rattle.mk_directive.specs.Words.{words_of};
ghost use Rattle.mk_export.specs.Names.{names_of};
ghost use Rattle.mk_makefile.specs.Exports as spec;
ghost use Rattle.mk_makefile.specs.Values as values;
ghost use Rattle.mk_reader.specs.Ties.{Gave, outer};

use crate::reader::Reader;
use mk_bytes::{Items, Pair, Pairs, Text, Texts};
use mk_directive::words;
use mk_export::Exported;
use mk_makefile::{Refusal, What, add_exports, are_export_names, reference_to, remove_exports};
use mk_world::{Sink, World};
use std::alloc::Global;

impl<'a, W: World, S: Sink> Reader<'a, W, S> {
    // An exported variable, with its value.
    fn exported(&mut self, alloc: Global, name: &Text) -> Result<Pair, Refusal>
        ensures pair { Gave (outer W.meaning W.history W.faults W.runs S.held S.faults)
            self.old self.new (λ pair. pair) result (λ answers. values.exported answers name.now) }
        ensures named { IfOk result (λ pair. pair.name ≡ name.now) }
    {
        let name = name.copy(alloc)?;
        let reference = reference_to(alloc, name.bytes())?;
        let value = self.value(alloc, false, reference.bytes())?;
        Ok(Pair { name, value })
    }

    // The variables of these names, with their values.
    fn all_exported(&mut self, alloc: Global, names: &Texts) -> Result<Pairs, Refusal>
        ensures pairs { Gave (outer W.meaning W.history W.faults W.runs S.held S.faults)
            self.old self.new (λ pairs. pairs) result
            (λ answers. values.all_exported answers [] names.now) }
        ensures named { IfOk result (λ pairs. names_of pairs ≡ names.now) }
    {
        let mut pairs = Items::new(alloc, names.len())?;
        for name in names.as_slice() {
            pairs.push(self.exported(alloc, name)?)?;
        }
        Ok(pairs)
    }

    /// The exported variables with their values, each of which is empty where the variable is
    /// undefined.
    pub fn values(&mut self, alloc: Global) -> Result<Exported, Refusal>
        ensures { Gave (outer W.meaning W.history W.faults W.runs S.held S.faults)
            self.old self.new (λ exported. exported) result values.values }
    {
        let names = self.state.made.exports.names(alloc)?;
        let pairs = self.all_exported(alloc, &names)?;
        Ok(Exported::new(alloc, pairs)?)
    }

    /// Exports the variables that the words of a text's value name.
    pub fn export(&mut self, alloc: Global, text: &[u8]) -> Result<(), Refusal>
        ensures { Gave (outer W.meaning W.history W.faults W.runs S.held S.faults)
            self.old self.new (λ done. done) result
            (λ answers. spec.exported_by answers text.now) }
    {
        let shown = self.value(alloc, false, text)?;
        self.export_words(alloc, shown.bytes())
    }

    fn export_words(&mut self, alloc: Global, text: &[u8]) -> Result<(), Refusal>
        ensures { Gave (outer W.meaning W.history W.faults W.runs S.held S.faults)
            self.old self.new (λ done. done) result
            (λ answers. spec.exported_at (words_of text.now)) }
    {
        let names = words(alloc, text)?;
        if !are_export_names(names.as_slice()) {
            return Err(Refusal::Wrong(What::ExportForm));
        }
        add_exports(&mut self.state.made.exports, names.as_slice())?;
        Ok(())
    }

    /// Exports the variables no more that the words of a text's value name.
    pub fn unexport(&mut self, alloc: Global, text: &[u8]) -> Result<(), Refusal>
        ensures { Gave (outer W.meaning W.history W.faults W.runs S.held S.faults)
            self.old self.new (λ done. done) result
            (λ answers. spec.unexported_by answers text.now) }
    {
        let shown = self.value(alloc, false, text)?;
        self.unexport_words(alloc, shown.bytes())
    }

    fn unexport_words(&mut self, alloc: Global, text: &[u8]) -> Result<(), Refusal>
        ensures { Gave (outer W.meaning W.history W.faults W.runs S.held S.faults)
            self.old self.new (λ done. done) result
            (λ answers. spec.unexported_at (words_of text.now)) }
    {
        let names = words(alloc, text)?;
        if !are_export_names(names.as_slice()) {
            return Err(Refusal::Wrong(What::ExportForm));
        }
        remove_exports(&mut self.state.made.exports, names.as_slice());
        Ok(())
    }
}
