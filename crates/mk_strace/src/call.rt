//! The calls that say something of files.
ghost use Rattle.std.specs.Prelude.{◌≡◌};
ghost use Rattle.mk_strace.specs.Calls as spec;

/// What a call is about.
#[derive(Clone, Copy)]
pub enum Call {
    /// A file is opened.
    Opens,
    /// A file is made, or given a new time.
    Makes,
    /// A program is run.
    Runs,
    /// It is asked what is there.
    Looks,
    /// It is asked whether something is there.
    Asks,
    /// It is asked where a symbolic link leads.
    Follows,
    /// A file is cut.
    Cuts,
    /// A file that is open is cut.
    CutsOpen,
    /// A file or a device is made.
    Nodes,
    /// A directory is made.
    Folders,
    /// A file or a directory is removed.
    Removes,
    /// A directory is removed.
    RemovesFolder,
    /// A file or a directory gets another path.
    Moves,
    /// A file gets a further name.
    Links,
    /// A symbolic link is made.
    Points,
    /// The process has another directory.
    Enters,
    /// It has one that is open.
    EntersOpen,
    /// A directory is listed.
    Lists,
    /// Another process begins.
    Forks,
    /// The process gets what it shared for itself.
    Parts,
    /// What is done behind it is not seen by paths.
    Hides,
    /// It says nothing of files.
    Other,
}

/// A call, and whether its paths stand behind directories that are open.
#[derive(Clone, Copy)]
pub struct Form {
    pub call: Call,
    pub by_open: bool,
}

fn with(call: Call, by_open: bool) -> Form
    ensures { result ≡ spec.with call by_open }
{
    Form { call, by_open }
}

/// The call of a name; one that is not known says nothing of files.
pub fn form_of(name: &[u8]) -> Form
    ensures { result ≡ spec.form_of name.now }
{
    if name == b"open".as_slice() {
        with(Call::Opens, false)
    } else if name == b"openat".as_slice() {
        with(Call::Opens, true)
    } else if name == b"openat2".as_slice() {
        with(Call::Opens, true)
    } else if name == b"creat".as_slice() {
        with(Call::Makes, false)
    } else if name == b"execve".as_slice() {
        with(Call::Runs, false)
    } else if name == b"execveat".as_slice() {
        with(Call::Runs, true)
    } else {
        form_of_look(name)
    }
}

fn form_of_look(name: &[u8]) -> Form
    ensures { result ≡ spec.form_of_look name.now }
{
    if name == b"stat".as_slice() {
        with(Call::Looks, false)
    } else if name == b"stat64".as_slice() {
        with(Call::Looks, false)
    } else if name == b"lstat".as_slice() {
        with(Call::Looks, false)
    } else if name == b"lstat64".as_slice() {
        with(Call::Looks, false)
    } else if name == b"newfstatat".as_slice() {
        with(Call::Looks, true)
    } else if name == b"fstatat64".as_slice() {
        with(Call::Looks, true)
    } else if name == b"statx".as_slice() {
        with(Call::Looks, true)
    } else {
        form_of_change(name)
    }
}

fn form_of_change(name: &[u8]) -> Form
    ensures { result ≡ spec.form_of_change name.now }
{
    if name == b"access".as_slice() {
        with(Call::Asks, false)
    } else if name == b"faccessat".as_slice() {
        with(Call::Asks, true)
    } else if name == b"faccessat2".as_slice() {
        with(Call::Asks, true)
    } else if name == b"readlink".as_slice() {
        with(Call::Follows, false)
    } else if name == b"readlinkat".as_slice() {
        with(Call::Follows, true)
    } else if name == b"truncate".as_slice() {
        with(Call::Cuts, false)
    } else if name == b"truncate64".as_slice() {
        with(Call::Cuts, false)
    } else if name == b"mknod".as_slice() {
        with(Call::Nodes, false)
    } else if name == b"mknodat".as_slice() {
        with(Call::Nodes, true)
    } else {
        form_of_move(name)
    }
}

fn form_of_move(name: &[u8]) -> Form
    ensures { result ≡ spec.form_of_move name.now }
{
    if name == b"mkdir".as_slice() {
        with(Call::Folders, false)
    } else if name == b"mkdirat".as_slice() {
        with(Call::Folders, true)
    } else if name == b"unlink".as_slice() {
        with(Call::Removes, false)
    } else if name == b"unlinkat".as_slice() {
        with(Call::Removes, true)
    } else if name == b"rmdir".as_slice() {
        with(Call::RemovesFolder, false)
    } else if name == b"rename".as_slice() {
        with(Call::Moves, false)
    } else if name == b"renameat".as_slice() {
        with(Call::Moves, true)
    } else if name == b"renameat2".as_slice() {
        with(Call::Moves, true)
    } else {
        form_of_touch(name)
    }
}

fn form_of_touch(name: &[u8]) -> Form
    ensures { result ≡ spec.form_of_touch name.now }
{
    if name == b"link".as_slice() {
        with(Call::Links, false)
    } else if name == b"linkat".as_slice() {
        with(Call::Links, true)
    } else if name == b"symlink".as_slice() {
        with(Call::Points, false)
    } else if name == b"symlinkat".as_slice() {
        with(Call::Points, true)
    } else if name == b"utime".as_slice() {
        with(Call::Makes, false)
    } else if name == b"utimes".as_slice() {
        with(Call::Makes, false)
    } else if name == b"utimensat".as_slice() {
        with(Call::Makes, true)
    } else if name == b"futimesat".as_slice() {
        with(Call::Makes, true)
    } else {
        form_of_place(name)
    }
}

fn form_of_place(name: &[u8]) -> Form
    ensures { result ≡ spec.form_of_place name.now }
{
    if name == b"chdir".as_slice() {
        with(Call::Enters, false)
    } else if name == b"fchdir".as_slice() {
        with(Call::EntersOpen, false)
    } else if name == b"getdents".as_slice() {
        with(Call::Lists, false)
    } else if name == b"getdents64".as_slice() {
        with(Call::Lists, false)
    } else if name == b"ftruncate".as_slice() {
        with(Call::CutsOpen, false)
    } else if name == b"ftruncate64".as_slice() {
        with(Call::CutsOpen, false)
    } else {
        form_of_process(name)
    }
}

fn form_of_process(name: &[u8]) -> Form
    ensures { result ≡ spec.form_of_process name.now }
{
    if name == b"fork".as_slice() {
        with(Call::Forks, false)
    } else if name == b"vfork".as_slice() {
        with(Call::Forks, false)
    } else if name == b"clone".as_slice() {
        with(Call::Forks, false)
    } else if name == b"clone3".as_slice() {
        with(Call::Forks, false)
    } else if name == b"unshare".as_slice() {
        with(Call::Parts, false)
    } else {
        form_of_hidden(name)
    }
}

fn form_of_hidden(name: &[u8]) -> Form
    ensures { result ≡ spec.form_of_hidden name.now }
{
    if name == b"chroot".as_slice() {
        with(Call::Hides, false)
    } else if name == b"pivot_root".as_slice() {
        with(Call::Hides, false)
    } else if name == b"mount".as_slice() {
        with(Call::Hides, false)
    } else if name == b"setns".as_slice() {
        with(Call::Hides, false)
    } else if name == b"open_by_handle_at".as_slice() {
        with(Call::Hides, false)
    } else if name == b"io_uring_setup".as_slice() {
        with(Call::Hides, false)
    } else if name == b"move_mount".as_slice() {
        with(Call::Hides, false)
    } else {
        with(Call::Other, false)
    }
}
