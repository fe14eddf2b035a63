//! The files as they are before a run, where no run before it is repeated.
use crate::idle::IdleWorld;
use crate::running::edit;
use mk_cases::case::{Case, Item, Step};
use mk_cases::directive::Directive;
use mk_cases::fault::Trouble;

// Whether a line names this path, or the file whose meta file it is.
fn names(item: &Item, path: &str) -> bool {
    let file = path.strip_suffix(".meta").unwrap_or(path);
    for name in item.rest.split_whitespace() {
        if name == path || name == file {
            return true;
        }
    }
    false
}

/// Whether builds leave this file.
pub fn is_left(case: &Case, path: &str) -> bool {
    for item in case.setup.as_slice() {
        if item.directive == Directive::Made && names(item, path) {
            return true;
        }
    }
    false
}

/// The files are changed as they are before a line of the case.
pub fn change_files(case: &Case, line: u32, world: &mut IdleWorld) -> Result<(), Trouble> {
    for step in case.steps.as_slice() {
        if step.item.line < line && !step.is_run() {
            edit(step, world)?;
        }
    }
    Ok(())
}

/// The same of the files that builds do not leave.
pub fn change_sources(case: &Case, line: u32, world: &mut IdleWorld) -> Result<(), Trouble> {
    for step in case.steps.as_slice() {
        if step.item.line < line && is_of_source(case, step) {
            edit(step, world)?;
        }
    }
    Ok(())
}

// Whether a step is a change of a file that builds do not leave.
fn is_of_source(case: &Case, step: &Step) -> bool {
    !step.is_run() && !is_left(case, step.item.rest)
}
