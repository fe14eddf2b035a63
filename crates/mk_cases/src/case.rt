//! Cases as they stand in a file.
use crate::body::{is_body, push_line};
use crate::directive::{Directive, Place, named};
use crate::fault::Trouble;
use std::alloc::Global;

/// A line with a directive, with what stands behind it on the line and in its body.
#[derive(Drop)]
pub struct Item<'t> {
    pub line: u32,
    pub directive: Directive,
    pub rest: &'t str,
    pub body: Vec<u8>,
}

/// A run or a change of a file, with what is wanted of it.
#[derive(Drop)]
pub struct Step<'t> {
    pub item: Item<'t>,
    pub wants: Vec<Item<'t>>,
}

/// A case: its head, what stands before its steps, and these.
#[derive(Drop)]
pub struct Case<'t> {
    pub head: Item<'t>,
    pub setup: Vec<Item<'t>>,
    pub steps: Vec<Step<'t>>,
}

/// A run of a case.
#[derive(Clone, Copy)]
pub struct Job<'i, 't> {
    pub case: &'i Case<'t>,
    pub step: &'i Step<'t>,
}

/// The first of some items with a directive.
pub fn find<'i, 't>(items: &'i [Item<'t>], directive: Directive) -> Option<&'i Item<'t>> {
    for item in items {
        if item.directive == directive {
            return Some(item);
        }
    }
    None
}

impl<'t> Step<'t> {
    /// Whether it is a run.
    pub fn is_run(&self) -> bool {
        self.item.directive == Directive::Run
    }

    fn add(&mut self, item: Item<'t>) -> Result<(), Trouble> {
        if !self.is_run() {
            return Err(Trouble::Bad(item.line));
        }
        self.wants.push(item)?;
        Ok(())
    }
}

impl<'t> Case<'t> {
    /// Whether it has a run.
    pub fn has_run(&self) -> bool {
        for step in self.steps.as_slice() {
            if step.is_run() {
                return true;
            }
        }
        false
    }

    fn add_want(&mut self, item: Item<'t>) -> Result<(), Trouble> {
        match self.steps.last_mut() {
            Some(step) => step.add(item),
            None => Err(Trouble::Bad(item.line)),
        }
    }

    fn add_setup(&mut self, item: Item<'t>) -> Result<(), Trouble> {
        if !self.steps.is_empty() {
            return Err(Trouble::Bad(item.line));
        }
        self.setup.push(item)?;
        Ok(())
    }

    fn add(&mut self, alloc: Global, item: Item<'t>) -> Result<(), Trouble> {
        match item.directive.place() {
            Place::Head => Err(Trouble::Bad(item.line)),
            Place::Setup => self.add_setup(item),
            Place::Want => self.add_want(item),
            Place::Step => {
                let wants = Vec::new(alloc);
                self.steps.push(Step { item, wants })?;
                Ok(())
            }
        }
    }
}

/// The cases that were read, and the item whose body may go on.
#[derive(Drop)]
struct Reader<'t> {
    alloc: Global,
    cases: Vec<Case<'t>>,
    open: Option<Item<'t>>,
}

impl<'t> Reader<'t> {
    fn begin_case(&mut self, head: Item<'t>) -> Result<(), Trouble> {
        let setup = Vec::new(self.alloc);
        let steps = Vec::new(self.alloc);
        self.cases.push(Case { head, setup, steps })?;
        Ok(())
    }

    // The open item has its whole body.
    fn close(&mut self) -> Result<(), Trouble> {
        let Some(item) = self.open.take() else {
            return Ok(());
        };
        if item.directive == Directive::Case {
            return self.begin_case(item);
        }
        match self.cases.last_mut() {
            Some(case) => case.add(self.alloc, item),
            None => Err(Trouble::Bad(item.line)),
        }
    }

    fn open(&mut self, line: u32, text: &'t str) -> Result<(), Trouble> {
        self.close()?;
        let (word, rest) = match text.split_once(' ') {
            Some(both) => both,
            None => (text, ""),
        };
        let Some(directive) = named(word) else {
            return Err(Trouble::Bad(line));
        };
        let body = Vec::new(self.alloc);
        self.open = Some(Item {
            line,
            directive,
            rest,
            body,
        });
        Ok(())
    }

    fn take(&mut self, line: u32, text: &'t str) -> Result<(), Trouble> {
        let inner = text.trim_start();
        if inner.is_empty() || text.starts_with('#') {
            return Ok(());
        }
        if !is_body(inner) {
            return self.open(line, text);
        }
        match &mut self.open {
            Some(item) => push_line(&mut item.body, inner, line),
            None => Err(Trouble::Bad(line)),
        }
    }
}

/// The cases of a text.
pub fn read_cases<'t>(alloc: Global, text: &'t str) -> Result<Vec<Case<'t>>, Trouble> {
    let mut reader = Reader {
        alloc,
        cases: Vec::new(alloc),
        open: None,
    };
    let mut line: u32 = 0;
    for text in text.lines() {
        line = line.saturating_add(1);
        reader.take(line, text)?;
    }
    reader.close()?;
    Ok(reader.cases)
}
