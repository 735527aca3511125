//! Gates: where a worker asks before it clears anything.
ghost use Rattle.std.specs.Prelude.{IsTrue};

/// Whether a worker may go on. No answer changes any result; a gate serves to hold workers back in
/// a test until others have come as far.
pub trait Gate {
    /// The worker with this number has asked this often before in its turn.
    fn ready(&self, worker: u32, asked: u64) -> bool;
}

/// A gate that is always open.
#[derive(Clone, Copy)]
pub struct OpenGate;

impl Gate for OpenGate {
    fn ready(&self, _worker: u32, _asked: u64) -> bool
        ensures { IsTrue result }
    {
        true
    }
}
