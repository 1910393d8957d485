//! In which list a process waits.
ghost use Rattle.std.specs.Prelude.{◌≡◌, ◌<◌, ◌≤◌};
ghost use Rattle.pfc_world.specs.Lists.{list_count, list_at, list_of, call_place, IsSpread};

use crate::Why;

/// The most lists that each cause of waits has.
pub(crate) const MOST_PLACES: u32 = 262_144;

/// How waits are spread over lists: how many each cause of waits has, and how many processes there are.
#[derive(Clone, Copy, Drop)]
pub(crate) struct Spread {
    places: u32,
    processes: u32,
}

impl Spread {
    /// Where there are so many processes, and so many lists are asked for: at least one for each cause, and at most
    /// 262,144.
    pub(crate) fn new(processes: u32, objects: u32) -> Spread
        requires some { 0 < processes }
        requires few { processes ≤ 1024 }
        ensures { IsSpread result }
    {
        Spread {
            places: objects.max(1).min(MOST_PLACES),
            processes,
        }
    }

    /// How many lists there are: for each of the fourteen causes so many.
    pub(crate) fn lists(self) -> u32
        requires { IsSpread self }
        ensures { result ≡ list_count self }
    {
        self.places * 14
    }

    /// The list of a wait. Places of one cause whose numbers differ by a multiple of the number of lists share a list; so
    /// do all selects, and all sleepers.
    pub(crate) fn list_of(self, why: Why) -> u32
        requires { IsSpread self }
        ensures list { result ≡ list_of self why }
        ensures known { result < list_count self }
    {
        match why {
            Why::Coend => self.list_at(0, 0),
            Why::Semaphore(s) => self.list_at(1, s),
            Why::Send(c) => self.list_at(2, c),
            Why::Receive(c) => self.list_at(3, c),
            Why::Call { owner, entry } => self.list_at(4, self.call_place(owner, entry)),
            Why::Meeting(p) => self.list_at(5, p),
            Why::Accept(e) => self.list_at(6, e),
            Why::Select { .. } => self.list_at(7, 0),
            Why::Enter(m) => self.list_at(8, m),
            Why::Condition { number, .. } => self.list_at(9, number),
            Why::Resumer(m) => self.list_at(10, m),
            Why::Entrant(g) => self.list_at(11, g),
            Why::Barred { resource, .. } => self.list_of_barred(resource),
            Why::Sleep(_) => self.list_at(13, 0),
        }
    }

    /// The list of all selects.
    pub(crate) fn list_of_selects(self) -> u32
        requires { IsSpread self }
        ensures list { result ≡ list_at self 7 0 }
        ensures known { result < list_count self }
    {
        self.list_at(7, 0)
    }

    /// The list of all who are barred at a resource.
    pub(crate) fn list_of_barred(self, resource: u32) -> u32
        requires { IsSpread self }
        ensures list { result ≡ list_at self 12 resource }
        ensures known { result < list_count self }
    {
        self.list_at(12, resource)
    }

    fn list_at(self, cause: u32, place: u32) -> u32
        requires spread { IsSpread self }
        requires cause { cause < 14 }
        ensures list { result ≡ list_at self cause place }
        ensures known { result < list_count self }
    {
        place % self.places * 14 + cause
    }

    /// The number of an entry among those of all processes: the entries of one number stand one behind the other.
    fn call_place(self, owner: u32, entry: u32) -> u32
        requires { IsSpread self }
        ensures { result ≡ call_place self owner entry }
    {
        entry % self.places * self.processes + owner % self.processes
    }
}
