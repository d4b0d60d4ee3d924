//! How many commands were accepted and acknowledged.
//!
//! Those acknowledged are never more than those accepted.
ghost use Rattle.std.specs.Prelude.{◌≡◌, ◌+◌, ◌-◌, ◌≤◌, ◌<◌, ◌^◌};
ghost use Rattle.org_commands.specs.Groups.{are_group};

/// How many accepted commands are settled together.
#[derive(Clone, Copy, Debug)]
pub enum Group {
    /// So many, from 1 to 1,000: they are settled by the last of them.
    Of(u32),
    /// All up to the next settling: no command settles by itself.
    Whole,
}

/// What a store counts.
#[derive(Clone, Copy, Drop)]
pub struct Tally {
    /// How many commands were accepted since the store was opened.
    pub accepted: u64,
    /// How many of these are on the disk for certain.
    pub acknowledged: u64,
    /// How many commands may be accepted and not acknowledged before they are settled.
    pub group: Group,
    pub ghost ordered: { acknowledged ≤ accepted },
}

impl Tally {
    /// Whether one more accepted command fills the group.
    pub fn fills(&self) -> bool
        requires { self.now.accepted + 1 < 2 ^ 64 }
        ensures { result ≡ are_group self.now.group
            (self.now.accepted + 1 - self.now.acknowledged) }
    {
        match self.group {
            Group::Of(size) => u64::from(size) <= self.accepted + 1 - self.acknowledged,
            Group::Whole => false,
        }
    }
}
