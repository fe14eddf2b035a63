//! The turn of a child, before it goes on.
ghost use Rattle.std.specs.Prelude.{◌≡◌, None};
ghost use Rattle.std.specs.Option.{option_copied};
ghost use Rattle.mk_commands.specs.Steps as spec;

use mk_world::Deed;

/// Who goes on in a call, and with what.
#[derive(Drop)]
pub struct Going {
    /// The child that goes on, by its ticket, where one does.
    pub ticket: Option<u32>,
    /// Its next step, where it has one.
    pub deed: Option<Deed>,
    /// The same child, where it has come to its end by then.
    pub ended: Option<u32>,
}

impl Going {
    /// Nobody goes on.
    pub fn nobody() -> Going
        ensures { result ≡ record { ticket = None; deed = None; ended = None } }
    {
        Going {
            ticket: None,
            deed: None,
            ended: None,
        }
    }

    /// The step that the child with a ticket does.
    pub fn step_of(&self, ticket: u32) -> Option<&Deed>
        ensures { option_copied result ≡ spec.step_of self.now.ticket self.now.deed ticket }
    {
        match self.ticket {
            None => None,
            Some(going) => {
                if going == ticket {
                    return self.deed.as_ref();
                }
                None
            }
        }
    }
}
