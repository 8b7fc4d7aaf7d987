// Which instances lead a chart or a list: none, one, or different ones.
ghost use Rattle.std.specs.Prelude.{◌≡◌};
ghost use Rattle.order.specs.Charts.{joined_by, is_one, is_several, leader_of};

#[derive(Clone, Copy)]
pub enum Leaders {
    Nobody,
    One(u8),
    Several,
}

impl Leaders {
    // One more that leads.
    pub fn joined(self, instance: u8) -> Leaders
        ensures { result ≡ joined_by self instance }
    {
        match self {
            Leaders::Nobody => Leaders::One(instance),
            Leaders::One(other) if other == instance => self,
            _ => Leaders::Several,
        }
    }

    pub fn is_one(self) -> bool
        ensures { result ≡ is_one self }
    {
        matches!(self, Leaders::One(_))
    }

    pub fn is_several(self) -> bool
        ensures { result ≡ is_several self }
    {
        matches!(self, Leaders::Several)
    }

    // The leader, if there is one alone.
    pub fn alone(self) -> Option<u8>
        ensures { result ≡ leader_of self }
    {
        match self {
            Leaders::One(instance) => Some(instance),
            _ => None,
        }
    }
}
