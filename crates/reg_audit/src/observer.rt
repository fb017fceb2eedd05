/// Receives the progress of an audit. It does not influence the result.
pub trait ProgressObserver {
    /// A table with `count` rows was read. At most ten calls: one for each table except `longest`, the schedule of longest validities.
    fn rows_read(&mut self, count: usize);

    /// The bytes of one more CRL were compared, and are right.
    fn crl_compared(&mut self);
}

/// Ignores the progress.
#[derive(Clone, Copy)]
pub struct NoProgress;

impl ProgressObserver for NoProgress {
    fn rows_read(&mut self, _count: usize) {}

    fn crl_compared(&mut self) {}
}
