//! The words with which lines of a case begin.

/// What a line of a case says.
#[derive(Clone, Copy, PartialEq, Eq)]
pub enum Directive {
    Case,
    File,
    Environment,
    Directory,
    Schedule,
    Schedules,
    Fail,
    Made,
    Refused,
    Run,
    Edit,
    Remove,
    Status,
    End,
    Out,
    Err,
    Plan,
    Events,
    After,
    Missing,
    Calls,
}

/// Where a line may stand in a case.
#[derive(Clone, Copy, PartialEq, Eq)]
pub enum Place {
    /// At its beginning.
    Head,
    /// Before all steps.
    Setup,
    /// Anywhere, as a step.
    Step,
    /// Behind a run.
    Want,
}

const NAMES: [(Directive, &str, Place); 21] = [
    (Directive::Case, "case", Place::Head),
    (Directive::File, "file", Place::Setup),
    (Directive::Environment, "environment", Place::Setup),
    (Directive::Directory, "directory", Place::Setup),
    (Directive::Schedule, "schedule", Place::Setup),
    (Directive::Schedules, "schedules", Place::Setup),
    (Directive::Fail, "fail", Place::Setup),
    (Directive::Made, "made", Place::Setup),
    (Directive::Refused, "refused", Place::Setup),
    (Directive::Run, "run", Place::Step),
    (Directive::Edit, "edit", Place::Step),
    (Directive::Remove, "remove", Place::Step),
    (Directive::Status, "status", Place::Want),
    (Directive::End, "end", Place::Want),
    (Directive::Out, "out", Place::Want),
    (Directive::Err, "err", Place::Want),
    (Directive::Plan, "plan", Place::Want),
    (Directive::Events, "events", Place::Want),
    (Directive::After, "after", Place::Want),
    (Directive::Missing, "missing", Place::Want),
    (Directive::Calls, "calls", Place::Want),
];

/// The directive of a name.
pub fn named(word: &str) -> Option<Directive> {
    for row in &NAMES {
        let (directive, name, _) = *row;
        if name == word {
            return Some(directive);
        }
    }
    None
}

impl Directive {
    /// Its name.
    pub fn name(self) -> &'static str {
        for row in &NAMES {
            let (directive, name, _) = *row;
            if directive == self {
                return name;
            }
        }
        ""
    }

    /// Where it may stand.
    pub fn place(self) -> Place {
        for row in &NAMES {
            let (directive, _, place) = *row;
            if directive == self {
                return place;
            }
        }
        Place::Head
    }
}
