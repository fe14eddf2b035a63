use mk_bytes::Texts;
use mk_export::Exported;

/// How a build goes, as the makefiles of a run ask for it (make(1), `.MAKE.MODE` and
/// `.MAKE.META.IGNORE_PATHS`, the special targets `.NOTPARALLEL` and `.DELETE_ON_ERROR`, and the
/// directive `.export`).
#[derive(Drop)]
pub struct Mode {
    /// Meta files are written and read.
    pub meta: bool,
    /// They may also be written in the directory of the run itself.
    pub curdir_ok: bool,
    /// A node without a meta file is out of date.
    pub missing_meta: bool,
    /// A node whose meta file has no records is out of date.
    pub missing_filemon: bool,
    /// Records do not count.
    pub nofilemon: bool,
    /// Commands are not compared.
    pub ignore_cmd: bool,
    /// The commands of nodes with a meta file are not printed.
    pub silent: bool,
    /// One job runs at a time.
    pub one_job: bool,
    /// The target of a failed job is removed.
    pub delete_on_error: bool,
    /// Paths that begin with one of these do not count.
    pub ignore_paths: Texts,
    /// What commands find in their environment.
    pub exports: Exported,
}
