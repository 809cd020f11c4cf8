/// Is told of each judging before it begins, while its caller has no turn.
pub trait Post {
    /// This caller is about to judge the sheet of its pin of this version.
    fn before_judging(&self, caller: u8, version: u64);
}

/// Does nothing.
#[derive(Clone, Copy, Debug)]
pub struct Quiet;

impl Post for Quiet {
    fn before_judging(&self, _caller: u8, _version: u64) {}
}
