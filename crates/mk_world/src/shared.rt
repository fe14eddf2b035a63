//! A list of pairs that many hold.
ghost use Rattle.std.specs.Prelude.{◌≡◌, IfOk};

use mk_bytes::{NoMemory, Pair, Pairs};
use std::alloc::Global;
use std::marker::Model;
use std::rc::Rc;

/// A list of pairs that tasks and commands share: it stands in memory once, and whoever holds it
/// holds no copy. Contracts see the list of pairs.
#[derive(Drop)]
pub struct SharedPairs {
    // none where the list is empty
    pairs: Option<Rc<Pairs, Global>>,
}

impl Model for SharedPairs {
    ghost use Rattle.std.specs.Prelude.{List, []};
    ghost use Rattle.std.specs.Option.{option_map, unwrap_or};
    ghost use Rattle.std.specs.Rc.{rc_value};
    ghost use Rattle.mk_bytes.specs.declared.pair.Pair.{Pair};

    ghost Value = { List Pair };

    ghost view = { λ shared. unwrap_or (option_map rc_value shared.pairs) [] };
}

impl SharedPairs {
    /// These pairs. Where there are none, this takes no memory.
    pub fn new(alloc: Global, pairs: Pairs) -> Result<SharedPairs, NoMemory>
        ensures { IfOk result (λ shared. shared ≡ pairs) }
    {
        if pairs.is_empty() {
            return Ok(SharedPairs { pairs: None });
        }
        match Rc::new(alloc, pairs) {
            Ok(pairs) => Ok(SharedPairs { pairs: Some(pairs) }),
            Err(_refused) => Err(NoMemory),
        }
    }

    /// The same pairs for one more holder. Takes no memory.
    pub fn share(&self) -> Result<SharedPairs, NoMemory>
        ensures { IfOk result (λ shared. shared ≡ self.now) }
    {
        let pairs = match &self.pairs {
            None => None,
            Some(pairs) => Some(pairs.clone()?),
        };
        Ok(SharedPairs { pairs })
    }

    /// The pairs, in order.
    pub fn as_slice(&self) -> &[Pair]
        ensures { result.now ≡ self.now }
    {
        match &self.pairs {
            None => &[],
            Some(pairs) => pairs.as_ref().as_slice(),
        }
    }
}
