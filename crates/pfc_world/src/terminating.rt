//! The end of all children that only serve.
ghost use Rattle.std.specs.Prelude.{◌≡◌, true, MatchOption};
ghost use Rattle.pfc_world.specs.Settling.{may_all_end};
ghost use Rattle.pfc_world.specs.Terminating.{terminated, AreServers, IsNoServer, IsServer};

use crate::World;

impl World {
    /// Every child that waits in a select with an open `terminate` finishes, where nothing else can happen any more; and
    /// main is ready where it waits at `coend`.
    #[inline(never)]
    pub fn terminate(&mut self)
        requires { may_all_end self.old.rows ≡ true }
        ensures { self.new ≡ terminated self.old }
    {
        while let Some(p) = self.next_server() {
            self.end(p);
        }
        self.release();
    }

    /// A child that waits in a select, where all that are unfinished do: the first of those who wait so but for main.
    fn next_server(&self) -> Option<u32>
        requires { AreServers self.now.rows }
        ensures { MatchOption result (IsNoServer self.now.rows) (IsServer self.now.rows) }
    {
        // this also tells that no two tickets are equal
        let _done = self.rows.done();
        let Some(first) = self.index.waits.first(self.index.spread.list_of_selects()) else {
            return None;
        };
        if first == 0 {
            return self.index.waits.next(0);
        }
        Some(first)
    }
}
