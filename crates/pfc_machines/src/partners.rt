//! What a process does with its partner, once both have met, and while it waits for one.
ghost use Rattle.std.specs.Prelude.{◌≡◌, ◌<◌, length};
ghost use Rattle.pfc_stacks.specs.Stacks.{operands_of};
ghost use Rattle.pfc_machines.specs.Descriptors.{descriptor_of};
ghost use Rattle.pfc_machines.specs.Partners.{open_to, goes_behind, IsOffering};

use crate::{KeptAlternative, Machine, Sought};
use pfc_world::Arm;

impl Machine {
    /// The first alternative that a process offers and that is open to this.
    pub fn open_to(&self, q: u32, arm: Arm) -> Option<KeptAlternative>
        requires process { q < length self.now.descriptors }
        requires offered { IsOffering self.now q }
        ensures { result ≡ open_to self.now q arm }
    {
        let offered = self.descriptors.offered(q);
        self.descriptors
            .communications(q)
            .first(offered, Sought::OpenTo(arm))
    }

    /// A process that offered alternatives was met: it goes on at a branch, and what it offered is gone.
    pub fn go_behind(&mut self, q: u32, branch: u32)
        requires { q < length self.old.descriptors }
        ensures { self.new ≡ goes_behind self.old q branch }
    {
        self.stacks.go(q, branch);
        self.descriptors.withdraw(q);
    }
}
