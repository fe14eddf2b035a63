//! Why a command is not run, or not recorded.
use mk_bytes::{NoMemory, Text};
use std::alloc::{AllocError, Global};

/// Why a command is not run, or not recorded.
#[derive(Drop)]
pub enum Refusal {
    /// Memory ran out.
    NoMemory,
    /// For this reason, with this exit status.
    System { text: Text, status: u8 },
}

impl From<NoMemory> for Refusal {
    fn from(_: NoMemory) -> Refusal {
        Refusal::NoMemory
    }
}

impl From<AllocError> for Refusal {
    fn from(_: AllocError) -> Refusal {
        Refusal::NoMemory
    }
}

impl Refusal {
    /// For this reason, with this exit status.
    pub fn of(alloc: Global, text: &[u8], status: u8) -> Refusal {
        match Text::from_bytes(alloc, text) {
            Ok(text) => Refusal::System { text, status },
            Err(NoMemory) => Refusal::NoMemory,
        }
    }

    /// For this reason at what has this name.
    pub fn at(alloc: Global, name: &[u8], reason: &[u8], status: u8) -> Refusal {
        match joined(alloc, name, reason) {
            Ok(text) => Refusal::System { text, status },
            Err(NoMemory) => Refusal::NoMemory,
        }
    }
}

fn joined(alloc: Global, name: &[u8], reason: &[u8]) -> Result<Text, NoMemory> {
    let mut text = Text::from_bytes(alloc, name)?;
    text.push_both(b": ", reason)?;
    Ok(text)
}
