//! Runs over the world in memory, as files of cases. The words name the files; what differs from
//! what a case wants is printed, and then how many cases pass and how many do not (docs/CASES.md).
#![tactic(auto)]

mod before;
mod clean;
mod compare;
mod idle;
mod refused;
mod running;
mod setup;
mod shown;

use mk_cases::case::{Case, read_cases};
use mk_cases::found::Found;
use mk_cases::tally::Tally;
use running::run_case;
use std::alloc::Global;
use std::io::{ErrorKind, Print};
use std::process::ExitCode;
use std::{env, fs};

fn main(rt: HostRuntime) -> ExitCode {
    let mut tally = Tally::new(rt.alloc());
    run_files(&rt, &mut tally);
    ExitCode::from(print(&rt, &tally))
}

// Prints what was found; the status says whether all is well.
fn print(rt: &HostRuntime, tally: &Tally) -> u8 {
    if !tally.is_whole() {
        return 4;
    }
    if rt.stdout().write_all(tally.bytes()).is_err() {
        return 3;
    }
    if tally.is_clean() { 0 } else { 1 }
}

fn run_files(rt: &HostRuntime, tally: &mut Tally) {
    let Ok(words) = env::args(rt) else {
        tally.lose();
        return;
    };
    for file in words.skip(1) {
        run_file(rt, tally, file.as_str());
    }
    tally.close();
}

fn run_file(rt: &HostRuntime, tally: &mut Tally, file: &str) {
    match fs::read_to_string(rt, file) {
        Ok(text) => run_text(rt.alloc(), tally, file, text.as_str()),
        Err(error) if error.kind() == ErrorKind::OutOfMemory => tally.lose(),
        Err(_) => tally.note_trouble(file, 0, "the file cannot be read"),
    }
}

fn run_text(alloc: Global, tally: &mut Tally, file: &str, text: &str) {
    match read_cases(alloc, text) {
        Ok(cases) => run_cases(alloc, tally, file, cases.as_slice()),
        Err(trouble) => tally.note_refused(file, trouble),
    }
}

fn run_cases(alloc: Global, tally: &mut Tally, file: &str, cases: &[Case]) {
    for case in cases {
        if tally.is_whole() {
            run_one(alloc, tally, file, case);
        }
    }
}

fn run_one(alloc: Global, tally: &mut Tally, file: &str, case: &Case) {
    let mut found = Found::new(alloc);
    run_case(&mut found, case);
    tally.note(file, case, &found);
}
