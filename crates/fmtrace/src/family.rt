//! Which processes a command began, by what a trace tells of it.
use indexmap::IndexMap;
use mk_bytes::{Items, NoMemory, Text, Texts};
use mk_filemon::push_decimal;
use mk_strace::{Kept, is_number, parts_of, without_spaces};
use std::alloc::Global;

// How a line begins that tells of a process that was begun.
const CALLS: [&[u8]; 8] = [
    b"clone(",
    b"clone3(",
    b"fork(",
    b"vfork(",
    b"<... clone resumed>",
    b"<... clone3 resumed>",
    b"<... fork resumed>",
    b"<... vfork resumed>",
];

// The process that a line tells was begun.
fn begun_by<'t>(text: &'t [u8]) -> Option<&'t [u8]> {
    if !CALLS.iter().any(|call| text.starts_with(call)) {
        return None;
    }
    let place = text.iter().rposition(|byte| *byte == b'=')?;
    let number = without_spaces(&text[place + 1..]);
    if is_number(number) {
        Some(number)
    } else {
        None
    }
}

// For each process those that it began.
#[derive(Drop)]
struct Begun {
    alloc: Global,
    children: IndexMap<Vec<u8>, Texts>,
    // how many were begun
    count: usize,
}

// A trace up to its last newline: another process may be writing behind that.
fn whole_lines<'t>(trace: &'t [u8]) -> &'t [u8] {
    match trace.iter().rposition(|byte| *byte == b'\n') {
        Some(end) => &trace[..end],
        None => b"",
    }
}

impl Begun {
    fn add(&mut self, parent: &[u8], child: &[u8]) -> Result<(), NoMemory> {
        let child = Text::from_bytes(self.alloc, child)?;
        self.count = self.count.saturating_add(1);
        if let Some(children) = self.children.get_mut(parent) {
            return children.push(child);
        }
        let mut children = Items::new(self.alloc, 1)?;
        children.push(child)?;
        let parent = Vec::from_slice(self.alloc, parent)?;
        self.children.insert(parent, children)?;
        Ok(())
    }

    // What the lines of a trace tell.
    fn add_all(&mut self, trace: &[u8]) -> Result<(), NoMemory> {
        for line in whole_lines(trace).split(|byte| *byte == b'\n') {
            if let Some((parent, text)) = parts_of(line) {
                if let Some(child) = begun_by(text) {
                    self.add(parent, child)?;
                }
            }
        }
        Ok(())
    }

    // A process, and those that it began, and those that these began.
    // Each that was begun is met once at most.
    fn family_of(&self, process: Text) -> Result<Kept, NoMemory> {
        let mut family = Kept::new(self.alloc);
        let mut open = Vec::new(self.alloc);
        open.push(process)?;
        for _ in 0..=self.count {
            let Some(process) = open.pop() else {
                break;
            };
            if !family.of(process.bytes()).is_empty() {
                continue;
            }
            if let Some(children) = self.children.get(process.bytes()) {
                for child in children.as_slice() {
                    open.push(child.copy(self.alloc)?)?;
                }
            }
            let digits = process.copy(self.alloc)?;
            family.set(digits.bytes(), process)?;
        }
        Ok(family)
    }
}

/// The processes of a command, by the number of its first one.
pub fn family_of(alloc: Global, trace: &[u8], process: u32) -> Result<Kept, NoMemory> {
    let mut begun = Begun {
        alloc,
        children: IndexMap::new(alloc),
        count: 0,
    };
    let mut digits = Text::new(alloc);
    push_decimal(&mut digits, u64::from(process))?;
    begun.add_all(trace)?;
    begun.family_of(digits)
}
