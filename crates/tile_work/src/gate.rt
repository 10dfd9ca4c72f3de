/// Sees each ticket after it was drawn and before its amounts are asked for, in the thread of the worker that drew it. It
/// may hold the worker for a time, and nothing that it does changes what the workers credit.
pub trait Gate {
    /// Lets the ticket pass.
    fn pass(&self, ticket: u64);
}

/// The gate that holds nothing.
#[derive(Clone, Copy)]
pub struct NoGate;

impl Gate for NoGate {
    fn pass(&self, _ticket: u64) {}
}
