//! The log of a recorder that the command of a child may run.
ghost use Rattle.std.specs.Prelude.{◌≡◌, ◌++◌, decimal, IfOk};
ghost use Rattle.mk_realworld.specs.ChildFiles as spec;

use itoa::Buffer;
use mk_bytes::{NoMemory, Text};
use std::alloc::Global;

// The path of a name that ends in a number, in a directory.
fn path_in(alloc: Global, directory: &[u8], name: &[u8], number: u32) -> Result<Text, NoMemory>
    ensures { IfOk result (λ path. path ≡ spec.in_directory directory.now (name.now ++ decimal number)) }
{
    let mut path = Text::new(alloc);
    if directory != b"/".as_slice() {
        path.push(directory)?;
    }
    path.push(b"/")?;
    path.push(name)?;
    path.push(Buffer::new().format(number).as_bytes())?;
    Ok(path)
}

/// The path of the log of the child with this ticket, in an absolute directory.
pub fn log_file(alloc: Global, directory: &[u8], ticket: u32) -> Result<Text, NoMemory>
    ensures { IfOk result (λ path. path ≡ spec.log_file directory.now ticket) }
{
    path_in(alloc, directory, b"fm.", ticket)
}
