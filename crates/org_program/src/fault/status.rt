//! The exit status of each fault.
ghost use Rattle.std.specs.Prelude.{◌≡◌};
ghost use Rattle.org_program.specs.Statuses.{status_of};

use super::Fault;

impl Fault {
    /// The exit status: 1 where serving didn't end well, 2 for the command line, 3 where the store
    /// wasn't opened.
    pub fn status(&self) -> u8
        ensures { result ≡ status_of self.now }
    {
        match self {
            Fault::Ended(_) => 1,
            Fault::Usage(_) | Fault::BadName(_) | Fault::BadStates => 2,
            Fault::Locked | Fault::Inside(_) | Fault::SameFile(_) => 3,
            Fault::Linked | Fault::Open(_) => 3,
        }
    }
}
