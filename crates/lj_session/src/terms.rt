ghost use Rattle.std.specs.Prelude.{◌≤◌};
ghost use Rattle.lj_verify.specs.declared.limits.TheConstants.{MAX_WORKERS};

use lj_base::Frame;

// What a client's uploads are judged by: the frame, and the number of threads that a check uses.
#[derive(Clone, Copy, Debug, PartialEq, Eq)]
pub(crate) struct Terms {
    pub frame: Frame,
    pub workers: u64,
    ghost some_workers: { 1 ≤ workers },
    ghost few_workers: { workers ≤ MAX_WORKERS },
}
