//! What is asked, and its answer.
use crate::load::{Loaded, load_all};
use crate::refusal::Refusal;
use mk_bytes::{Text, clean_path};
use mk_listing::{database, graph, lanes, lines_of, looks, picture, readers, trace};
use std::env;
use std::io::Print;

/// What is asked.
#[derive(Clone, Copy)]
pub enum Asked<'w> {
    /// The targets that read a file.
    Readers(&'w [u8]),
    /// What a target read.
    Reads(&'w [u8]),
    Graph,
    Database,
    Trace,
    Picture,
}

// The path of the current directory.
fn current(rt: &HostRuntime) -> Result<Text, Refusal> {
    match env::current_dir(rt) {
        Ok(path) => Ok(Text::from_bytes(rt.alloc(), path.as_str().as_bytes())?),
        Err(_) => Err(Refusal::NoDirectory),
    }
}

// The text of an answer; empty where nothing fits.
fn text_of(
    rt: &HostRuntime,
    here: &[u8],
    asked: Asked<'_>,
    loaded: &Loaded,
) -> Result<Text, Refusal> {
    let alloc = rt.alloc();
    let metas = loaded.metas.as_slice();
    let jobs = loaded.jobs.as_slice();
    Ok(match asked {
        Asked::Readers(path) => {
            let path = clean_path(alloc, here, path)?;
            lines_of(alloc, readers(alloc, metas, path.bytes())?.as_slice())?
        }
        Asked::Reads(target) => {
            let target = clean_path(alloc, here, target)?;
            lines_of(alloc, looks(alloc, metas, target.bytes())?.as_slice())?
        }
        Asked::Graph => graph(alloc, metas)?,
        Asked::Database => database(alloc, metas)?,
        Asked::Trace => trace(alloc, jobs, lanes(alloc, jobs)?.as_slice())?,
        Asked::Picture => picture(alloc, jobs, lanes(alloc, jobs)?.as_slice())?,
    })
}

/// Prints the answer, and gives the exit status.
pub fn print_answer(rt: &HostRuntime, asked: Asked<'_>) -> Result<u8, Refusal> {
    let here = current(rt)?;
    // A database names files from the directory of each command.
    let from = match asked {
        Asked::Database => None,
        _ => Some(here.bytes()),
    };
    let loaded = load_all(rt, from)?;
    let text = text_of(rt, here.bytes(), asked, &loaded)?;
    if rt.stdout().write_all(text.bytes()).is_err() {
        return Err(Refusal::NotWritten);
    }
    Ok(match (loaded.is_whole, text.is_empty()) {
        (false, _) => 3,
        (true, true) => 1,
        (true, false) => 0,
    })
}
