/// How far a build has come, for whoever watches it while make waits. It decides nothing.
#[derive(Clone, Copy)]
pub struct Progress<'p> {
    /// How many targets are decided and need no line more.
    pub made: u32,
    /// All targets of the build, sources included.
    pub total: u32,
    /// The target whose line runs longest, or no bytes.
    pub oldest: &'p [u8],
}
