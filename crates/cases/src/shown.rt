//! Ends, plans and events as cases write them.
use mk_ast::TreeFault;
use mk_bytes::{Kind, Texts};
use mk_cases::said::Said;
use mk_expand::ExpandFault;
use mk_reader::What;
use mk_top::{End, Event, PlanNames};
use std::alloc::Global;

// Bytes in parentheses.
fn say_bytes(said: &mut Said, bytes: &[u8]) {
    said.open();
    said.part(bytes);
    said.close();
}

// A number in parentheses.
fn say_number(said: &mut Said, number: u64) {
    said.open();
    said.number(number);
    said.close();
}

fn say_numbers(said: &mut Said, first: u64, second: u64) {
    said.open();
    said.number(first);
    said.number(second);
    said.close();
}

// The name of a fault of the grammar, and its place.
fn tree_parts(fault: &TreeFault) -> (&'static str, usize) {
    match fault {
        TreeFault::Unclosed(place) => ("Unclosed", *place),
        TreeFault::UnknownModifier(place) => ("UnknownModifier", *place),
        TreeFault::BadModifier(place) => ("BadModifier", *place),
        TreeFault::TooDeep(place) => ("TooDeep", *place),
    }
}

fn say_tree(said: &mut Said, fault: &TreeFault) {
    let (name, place) = tree_parts(fault);
    said.open();
    said.part(name.as_bytes());
    say_number(said, place as u64);
    said.close();
}

fn fault_name(fault: &ExpandFault) -> &'static str {
    match fault {
        ExpandFault::Recursive(_) => "Recursive",
        ExpandFault::TooDeep => "TooDeep",
        ExpandFault::TooManyReferences => "TooManyReferences",
        ExpandFault::TooLong => "TooLong",
        ExpandFault::Tree(_) => "Tree",
        ExpandFault::Cond(_) => "Cond",
        ExpandFault::NoNumber => "NoNumber",
        ExpandFault::Undefined => "Undefined",
        ExpandFault::BadPlace => "BadPlace",
        ExpandFault::Failed => "Failed",
        ExpandFault::NoMemory => "NoMemory",
    }
}

fn say_fault(said: &mut Said, fault: &ExpandFault) {
    said.part(fault_name(fault).as_bytes());
    match fault {
        ExpandFault::Recursive(name) => say_bytes(said, name.bytes()),
        ExpandFault::Tree(tree) => say_tree(said, tree),
        ExpandFault::Cond(place) => say_number(said, *place as u64),
        _ => {}
    }
}

fn what_name(what: &What) -> &'static str {
    match what {
        What::TooLong => "TooLong",
        What::Zero => "Zero",
        What::LostCommand => "LostCommand",
        What::EmptyName => "EmptyName",
        What::Cond(_) => "Cond",
        What::ForForm => "ForForm",
        What::Count(_, _) => "Count",
        What::Else => "Else",
        What::Endif => "Endif",
        What::Endfor => "Endfor",
        What::Break => "Break",
        What::OpenBlock => "OpenBlock",
        What::IncludeForm => "IncludeForm",
        What::ExportForm => "ExportForm",
        What::Include(_) => "Include",
        What::NoOperator => "NoOperator",
        What::DoubleColon => "DoubleColon",
        What::NoTargets => "NoTargets",
        What::MixedSpecial => "MixedSpecial",
        What::Operators => "Operators",
        What::Brace => "Brace",
        What::RuleSources => "RuleSources",
        What::TooManyNames => "TooManyNames",
        What::Error(_) => "Error",
        What::Expand(_) => "Expand",
    }
}

fn say_fault_inside(said: &mut Said, fault: &ExpandFault) {
    said.open();
    say_fault(said, fault);
    said.close();
}

fn say_what(said: &mut Said, what: &What) {
    said.part(what_name(what).as_bytes());
    match what {
        What::Cond(place) => say_number(said, *place as u64),
        What::Count(words, names) => say_numbers(said, *words as u64, *names as u64),
        What::Include(text) | What::Error(text) => say_bytes(said, text.bytes()),
        What::Expand(fault) => say_fault_inside(said, fault),
        _ => {}
    }
}

// A file, a line, and what is wrong there.
fn say_bad(said: &mut Said, file: &[u8], line: u32, what: &What) {
    said.open();
    said.part(file);
    said.number(u64::from(line));
    say_what(said, what);
    said.close();
}

fn say_print(said: &mut Said, place: u32, fault: &ExpandFault) {
    said.open();
    said.number(u64::from(place));
    say_fault(said, fault);
    said.close();
}

fn say_expand(said: &mut Said, node: &[u8], line: u32, fault: &ExpandFault) {
    said.open();
    said.part(node);
    said.number(u64::from(line));
    say_fault(said, fault);
    said.close();
}

fn say_failed(said: &mut Said, node: &[u8], line: u32, status: u8) {
    said.open();
    said.part(node);
    said.number(u64::from(line));
    said.number(u64::from(status));
    said.close();
}

fn kind_name(kind: &Kind) -> &'static str {
    match kind {
        Kind::Names => "Names",
        Kind::Lines => "Lines",
        Kind::Includes => "Includes",
    }
}

fn say_limit(said: &mut Said, kind: &Kind, most: u64) {
    said.open();
    said.part(kind_name(kind).as_bytes());
    said.number(most);
    said.close();
}

// Names, parted by single blanks.
fn say_names(said: &mut Said, names: &Texts) {
    let mut between: &[u8] = b"";
    said.open();
    for name in names.as_slice() {
        said.push(between);
        said.push(name.bytes());
        between = b" ";
    }
    said.close();
}

fn end_name(end: &End) -> &'static str {
    match end {
        End::Done => "Done",
        End::Usage(_) => "Usage",
        End::NoFile(_) => "NoFile",
        End::Bad(_, _, _) => "Bad",
        End::Print(_, _) => "Print",
        End::NoTarget => "NoTarget",
        End::NoRule(_) => "NoRule",
        End::Cycle(_) => "Cycle",
        End::Limit(_, _) => "Limit",
        End::Expand(_, _, _) => "Expand",
        End::JobFailed(_, _, _) => "JobFailed",
        End::NotUpToDate(_) => "NotUpToDate",
        End::Breaches(_) => "Breaches",
        End::WorldFault => "WorldFault",
        End::SinkFault => "SinkFault",
        End::NoMemory => "NoMemory",
    }
}

/// Adds an end.
pub fn say_end(said: &mut Said, end: &End) {
    said.push(end_name(end).as_bytes());
    match end {
        End::Usage(place) => say_number(said, u64::from(*place)),
        End::Breaches(count) => say_number(said, *count),
        End::NoFile(name) | End::NoRule(name) | End::NotUpToDate(name) => {
            say_bytes(said, name.bytes());
        }
        End::Bad(file, line, what) => say_bad(said, file.bytes(), *line, what),
        End::Print(place, fault) => say_print(said, *place, fault),
        End::Cycle(names) => say_names(said, names),
        End::Limit(kind, most) => say_limit(said, kind, *most),
        End::Expand(node, line, fault) => say_expand(said, node.bytes(), *line, fault),
        End::JobFailed(node, line, status) => say_failed(said, node.bytes(), *line, *status),
        _ => {}
    }
}

/// An end.
pub fn end_text(alloc: Global, end: &End) -> Said {
    let mut said = Said::new(alloc);
    say_end(&mut said, end);
    said
}

/// The names of a plan, parted by single blanks.
pub fn plan_text(alloc: Global, plan: &PlanNames) -> Said {
    let mut said = Said::new(alloc);
    for node in 0..plan.len() {
        said.push_spaced(plan.at(node));
    }
    said
}

// Adds the name of a node, by its place in the plan.
fn say_node(said: &mut Said, plan: &PlanNames, node: u32) {
    match plan.at(node) {
        [] => said.push(b"?"),
        name => said.push(name),
    }
}

// A node.
fn say_of_node(said: &mut Said, what: &[u8], plan: &PlanNames, node: u32) {
    said.push(what);
    said.push(b" ");
    say_node(said, plan, node);
}

fn say_after(said: &mut Said, number: u64) {
    said.push(b" ");
    said.push_number(number);
}

// A line of a node.
fn say_of_line(said: &mut Said, what: &[u8], plan: &PlanNames, node: u32, line: u32) {
    say_of_node(said, what, plan, node);
    say_after(said, u64::from(line));
}

fn say_job_end(said: &mut Said, plan: &PlanNames, node: u32, line: u32, status: u8) {
    say_of_line(said, b"End", plan, node, line);
    say_after(said, u64::from(status));
}

fn say_event(said: &mut Said, plan: &PlanNames, event: Event) {
    match event {
        Event::Kept(n) => say_of_node(said, b"Kept", plan, n),
        Event::Refused(n, line) => say_of_line(said, b"Refused", plan, n, line),
        Event::Shown(n, line) => say_of_line(said, b"Shown", plan, n, line),
        Event::Start(n, line) => say_of_line(said, b"Start", plan, n, line),
        Event::End(n, line, status) => say_job_end(said, plan, n, line, status),
        Event::Wait => said.push(b"Wait"),
    }
}

/// Events, a line each, with the names of nodes.
pub fn events_text(alloc: Global, plan: &PlanNames, events: &[Event]) -> Said {
    let mut said = Said::new(alloc);
    for event in events {
        say_event(&mut said, plan, *event);
        said.push(b"\n");
    }
    said
}
