use crate::turning::Wrong;

/// Where a run stands.
#[derive(Debug, Drop)]
pub enum Stop<F> {
    /// It made its steps, and may go on.
    Steps,
    /// No group is left.
    Ended,
    /// No thread is ready, and none has a deadline.
    Idle,
    /// Its last step went wrong.
    Wrong(Wrong<F>),
}
