ghost use Rattle.std.specs.Prelude.{◌≡◌, IfOk};
ghost use Rattle.mk_export.specs.Lists.{AreExports};

use mk_bytes::{NoMemory, Pair, Pairs};
use mk_world::SharedPairs;
use std::alloc::Global;
use std::marker::Model;

/// Exported variables with their values, in the order of their names, each name once. Contracts see
/// the list of pairs.
#[derive(Drop)]
pub struct Exported {
    pairs: SharedPairs,
}

impl Model for Exported {
    ghost use Rattle.std.specs.Prelude.{List};
    ghost use Rattle.mk_bytes.specs.declared.pair.Pair.{Pair};
    ghost use Rattle.mk_export.specs.Lists.{AreExports};

    ghost Value = { List Pair };

    ghost view = { λ exported. exported.pairs };

    ghost invariant = { λ exported. AreExports exported.pairs };
}

impl Exported {
    /// These variables.
    pub fn new(alloc: Global, pairs: Pairs) -> Result<Exported, NoMemory>
        requires { AreExports pairs }
        ensures { IfOk result (λ exported. exported ≡ pairs) }
    {
        Ok(Exported {
            pairs: SharedPairs::new(alloc, pairs)?,
        })
    }

    /// The variables, in order.
    pub fn as_slice(&self) -> &[Pair]
        ensures value { result.now ≡ self.now }
        ensures lawful { AreExports self.now }
    {
        self.pairs.as_slice()
    }

    /// The same variables for one more holder: a task, a command or a meta file. Takes no memory.
    pub fn share(&self) -> Result<SharedPairs, NoMemory>
        ensures { IfOk result (λ shared. shared ≡ self.now) }
    {
        self.pairs.share()
    }
}
