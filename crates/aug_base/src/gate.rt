/// A place where a worker may be held up, between two things that it does. This project's own: a
/// gate lets a test see that workers really work side by side.
pub trait Gate {
    /// Returns at some time; nothing else is known of it. `worker` and `step` are numbers from 0.
    fn pause(&self, worker: u32, step: u32);
}

/// A gate whose pause returns at once.
#[derive(Debug, Drop)]
pub struct NoGate;

impl Gate for NoGate {
    fn pause(&self, _worker: u32, _step: u32) {}
}
