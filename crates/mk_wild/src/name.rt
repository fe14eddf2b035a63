//! Names with wildcards, and their parts.
ghost use Rattle.std.specs.Prelude.{◌≡◌, ◌≤◌, length, reverse, take_while};
ghost use Rattle.mk_wild.specs.Names as spec;

fn is_in_name(byte: u8) -> bool
    ensures { result ≡ spec.is_in_name byte }
{
    byte != b'/'
}

// How long the last component of a path is.
fn name_length(path: &[u8]) -> usize
    ensures len { result ≡ length (take_while spec.is_in_name (reverse path.now)) }
    ensures within { result ≤ length path.now }
{
    path.iter()
        .rev()
        .take_while(|byte| is_in_name(**byte))
        .count()
}

/// What stands behind the last slash of a path.
pub fn last_name(path: &[u8]) -> &[u8]
    ensures { result.now ≡ spec.last_name path.now }
{
    &path[path.len() - name_length(path)..]
}

/// What stands before the last component of a path, with its slash.
pub fn before_name(path: &[u8]) -> &[u8]
    ensures { result.now ≡ spec.before_name path.now }
{
    &path[..path.len() - name_length(path)]
}

fn is_wildcard(byte: u8) -> bool
    ensures { result ≡ spec.is_wildcard byte }
{
    byte == b'*' || byte == b'?' || byte == b'['
}

/// Whether a name is a pattern: its last component holds `*`, `?` or `[`. Takes no memory.
pub fn is_pattern(name: &[u8]) -> bool
    ensures { result ≡ spec.is_pattern name.now }
{
    last_name(name).iter().any(|byte| is_wildcard(*byte))
}

/// The directory that a path lies in, by the path itself: `.` where it has no slash.
pub fn directory_of(path: &[u8]) -> &[u8]
    ensures { result.now ≡ spec.directory_of path.now }
{
    let before = before_name(path);
    if before.is_empty() {
        return b".";
    }
    if before == b"/".as_slice() {
        return before;
    }
    &before[..before.len() - 1]
}

fn is_hidden(name: &[u8]) -> bool
    ensures { result ≡ spec.is_hidden name.now }
{
    match name {
        [] => false,
        [first, ..] => *first == b'.',
    }
}

/// Whether a pattern takes a name: by its match, where the name does not begin with `.` or the
/// pattern does.
pub fn takes(pattern: &[u8], name: &[u8]) -> bool
    ensures { result ≡ spec.takes pattern.now name.now }
{
    (is_hidden(pattern) || !is_hidden(name)) && mk_glob::matches(pattern, name)
}
