//! Commands, run as they are or under strace.
use crate::file::{append, bytes_of, length_of, remove};
use crate::log::Log;
use crate::refusal::Refusal;
use crate::search::found;
use crate::source::Source;
use crate::stream::push_streams;
use crate::trace::{Scratch, UNREAD, push_all, records_in};
use mk_bytes::{Items, Text};
use mk_filemon::{directory_from, push_decimal};
use mk_recorder::{Records, Touches, is_of_make};
use mk_strace::behind;
use std::io::ErrorKind;
use std::os::unix::process::ExitStatusExt;
use std::process::{Command, ExitStatus};
use std::time::Duration;
use std::{env, process, str, thread};

// The calls that are recorded. strace passes over those with a question mark that it does not know.
const CALLS: &str = "trace=?open,?openat,?openat2,?creat,?execve,?execveat,?stat,?stat64,?lstat,\
?lstat64,?newfstatat,?fstatat64,?statx,?access,?faccessat,?faccessat2,?truncate,?truncate64,?mknod,\
?mknodat,?mkdir,?mkdirat,?unlink,?unlinkat,?rmdir,?rename,?renameat,?renameat2,?link,?linkat,\
?symlink,?symlinkat,?utime,?utimes,?utimensat,?futimesat,?ftruncate,?ftruncate64,?chdir,?fchdir,\
?getdents,?getdents64,?fork,\
?vfork,?clone,?clone3,?unshare,?chroot,?pivot_root,?mount,?setns,?open_by_handle_at,?io_uring_setup,\
?move_mount";

// The options of strace; the name of the trace follows. Signals that can end a process are shown,
// since strace says only of these that they ended one.
const OPTIONS: [&str; 12] = [
    "-D",
    "-f",
    "-q",
    "-y",
    "--seccomp-bpf",
    "-s",
    "0",
    "-e",
    "signal=!chld,cont,urg,winch",
    "-e",
    CALLS,
    "-o",
];

/// The variable that names the trace of a recorder to those that it records.
pub const TRACE: &str = "FMTRACE_TRACE";

// The status of a shell for what ended so.
fn status_of(status: ExitStatus) -> u8 {
    let code = match (status.code(), status.signal()) {
        (Some(code), _) => code,
        (None, Some(signal)) => signal.saturating_add(128),
        (None, None) => 255,
    };
    u8::try_from(code).unwrap_or(255)
}

// Runs words, which may be told of a trace, and gives the number and the status of their process.
fn run(
    rt: &HostRuntime,
    program: &str,
    words: &[Text],
    trace: Option<&str>,
) -> Result<(u32, u8), Refusal> {
    let mut command = Command::new(rt.alloc(), program)?;
    if let Some(trace) = trace {
        command.env(TRACE, trace)?;
    }
    for word in words {
        let Ok(word) = str::from_utf8(word.bytes()) else {
            return Err(Refusal::of(rt.alloc(), b"a word is not UTF-8", 2));
        };
        command.arg(word)?;
    }
    match command.spawn(rt) {
        Ok(mut child) => match child.wait() {
            Ok(status) => Ok((child.id(), status_of(status))),
            Err(_) => Err(Refusal::of(rt.alloc(), b"the command cannot be waited for", 127)),
        },
        Err(error) => {
            let name = program.as_bytes();
            if error.kind() == ErrorKind::NotFound {
                return Err(Refusal::at(rt.alloc(), name, b"not found", 127));
            }
            Err(Refusal::at(rt.alloc(), name, b"cannot be executed", 126))
        }
    }
}

// Runs a command as it is, and gives the number and the status of its process.
fn run_plainly(rt: &HostRuntime, words: &[Text]) -> Result<(u32, u8), Refusal> {
    let [program, rest @ ..] = words else {
        return Ok((0, 2));
    };
    let Ok(program) = str::from_utf8(program.bytes()) else {
        return Err(Refusal::of(rt.alloc(), b"a word is not UTF-8", 2));
    };
    run(rt, program, rest, None)
}

/// Runs a command as it is.
pub fn plain(rt: &HostRuntime, words: &[Text]) -> Result<u8, Refusal> {
    let (_, status) = run_plainly(rt, words)?;
    Ok(status)
}

/// Whether this process is traced, and so all that it runs: it cannot be traced twice.
pub fn is_traced(rt: &HostRuntime) -> Result<bool, Refusal> {
    let Some(text) = bytes_of(rt, b"/proc/self/status")? else {
        return Ok(false);
    };
    Ok(match behind(b"TracerPid:\t", text.bytes()) {
        Some([first, ..]) => *first != b'0',
        _ => false,
    })
}

// The words of strace for a command.
fn strace_words(rt: &HostRuntime, trace: &Text, words: &[Text]) -> Result<Items<Text>, Refusal> {
    let alloc = rt.alloc();
    let mut all = Items::new(alloc, 0)?;
    for word in OPTIONS {
        all.push(Text::from_bytes(alloc, word.as_bytes())?)?;
    }
    all.push(trace.copy(alloc)?)?;
    all.push(Text::from_bytes(alloc, b"--")?)?;
    for word in words {
        all.push(word.copy(alloc)?)?;
    }
    Ok(all)
}

// The file of a trace, beside the log, by a path from the root.
fn trace_path(rt: &HostRuntime, directory: &[u8], log: &[u8]) -> Result<Text, Refusal> {
    let mut path = Text::new(rt.alloc());
    if !log.starts_with(b"/") {
        path.push_both(directory, b"/")?;
    }
    path.push(log)?;
    path.push(b".trace.")?;
    push_decimal(&mut path, u64::from(process::id(rt.process())))?;
    Ok(path)
}

// The records of a trace, as soon as it is whole. `None` where it is not within a fifth of a
// second.
fn whole_records(
    rt: &HostRuntime,
    directory: &[u8],
    before: &Touches,
    source: &Source,
) -> Result<Option<Records>, Refusal> {
    let mut seen = 0;
    let (tries, pause) = source.patience();
    for _ in 0..tries {
        let length = source.length(rt);
        if length != seen {
            seen = length;
            if let Some(text) = source.text(rt)? {
                if let Some(records) = records_in(rt.alloc(), directory, before, text.bytes())? {
                    return Ok(Some(records));
                }
            }
        }
        thread::sleep(rt, Duration::from_micros(pause));
    }
    Ok(None)
}

// The part of the log for a command.
fn log_of(
    rt: &HostRuntime,
    process: u32,
    status: u8,
    scratch: &Scratch,
    records: Option<Records>,
) -> Result<Log, Refusal> {
    let mut log = Log::new(rt.alloc(), process)?;
    match &records {
        Some(records) => push_all(rt, &mut log, scratch, records.as_slice())?,
        None => log.push(b"R", UNREAD)?,
    }
    log.end(status)?;
    Ok(log)
}

// The directory of a path, with its slash.
fn folder_of<'t>(path: &'t [u8]) -> &'t [u8] {
    match path.iter().rposition(|byte| *byte == b'/') {
        Some(place) => &path[..=place],
        None => path,
    }
}

// The current directory.
fn current(rt: &HostRuntime) -> Result<Text, Refusal> {
    match env::current_dir(rt) {
        Ok(path) => Ok(Text::from_bytes(rt.alloc(), path.as_str().as_bytes())?),
        Err(_) => Err(Refusal::of(rt.alloc(), b"the working directory is not known", 127)),
    }
}

// What is no record of a command that begins in a directory. Where that is a make's own, none is
// passed over but those of this log.
fn scratch_of(rt: &HostRuntime, log: &[u8], directory: &[u8]) -> Result<Scratch, Refusal> {
    let alloc = rt.alloc();
    let mut temporary = match env::var(rt, "TMPDIR") {
        Ok(path) if !path.is_empty() => directory_from(alloc, directory, path.as_bytes())?,
        _ => Text::from_bytes(alloc, b"/tmp")?,
    };
    if is_of_make(temporary.bytes(), directory) {
        temporary = Text::from_bytes(alloc, b"/")?;
    }
    Ok(Scratch {
        own: Text::from_bytes(alloc, folder_of(log))?,
        temporary,
    })
}

// What a command has from its beginning: its streams, and the programs that were sought for it. A
// command that is not found is refused.
fn beginning(
    rt: &HostRuntime,
    log: &[u8],
    directory: &[u8],
    program: &Text,
) -> Result<Touches, Refusal> {
    let mut before = Items::new(rt.alloc(), 0)?;
    push_streams(rt, folder_of(log), &mut before)?;
    if !found(rt, directory, program.bytes(), &mut before)? {
        return Err(Refusal::at(rt.alloc(), program.bytes(), b"not found", 127));
    }
    Ok(before)
}

/// Runs a command under strace, and appends its records to a log. Recorders below are told of its
/// trace.
pub fn recorded(rt: &HostRuntime, log: &[u8], words: &[Text]) -> Result<u8, Refusal> {
    let [program, ..] = words else {
        return Ok(2);
    };
    let directory = current(rt)?;
    let before = beginning(rt, log, directory.bytes(), program)?;
    let trace = trace_path(rt, directory.bytes(), log)?;
    let all = strace_words(rt, &trace, words)?;
    let name = str::from_utf8(trace.bytes()).ok();
    let ran = run(rt, "strace", all.as_slice(), name);
    let written = written(rt, log, &trace, directory.bytes(), &before, ran);
    remove(rt, trace.bytes());
    written
}

// Appends the records of a command that ran, if strace traced it.
fn written(
    rt: &HostRuntime,
    log: &[u8],
    trace: &Text,
    directory: &[u8],
    before: &Touches,
    ran: Result<(u32, u8), Refusal>,
) -> Result<u8, Refusal> {
    let ended = ran?;
    if length_of(rt, trace.bytes()) == 0 {
        return Ok(ended.1);
    }
    let source = Source::whole(trace.copy(rt.alloc())?);
    told(rt, log, &source, directory, before, ended)
}

/// Runs a command as it is, below a recorder that records it too, and appends its records to a log
/// of its own, by the lines of its processes in the trace of that recorder.
pub fn recorded_within(
    rt: &HostRuntime,
    log: &[u8],
    trace: Text,
    words: &[Text],
) -> Result<u8, Refusal> {
    let [program, ..] = words else {
        return Ok(2);
    };
    let directory = current(rt)?;
    let before = beginning(rt, log, directory.bytes(), program)?;
    let from = length_of(rt, trace.bytes());
    let ended = run_plainly(rt, words)?;
    let source = Source::part(trace, from, ended.0);
    told(rt, log, &source, directory.bytes(), &before, ended)
}

// Appends the records of a command of which a trace tells, by the number and the status of its
// process.
fn told(
    rt: &HostRuntime,
    log: &[u8],
    source: &Source,
    directory: &[u8],
    before: &Touches,
    ended: (u32, u8),
) -> Result<u8, Refusal> {
    let (process, status) = ended;
    let records = whole_records(rt, directory, before, source)?;
    let scratch = scratch_of(rt, log, directory)?;
    let part = log_of(rt, process, status, &scratch, records)?;
    append(rt, log, part.bytes())?;
    Ok(status)
}
