//! The typed states of a process: a value of each is the right to the transitions that it has.
ghost use Rattle.std.specs.Prelude.{◌≡◌};

use crate::Why;

/// A process that was never started.
#[derive(Drop)]
pub struct Idle {
    number: u32,
}

/// A process that was activated and waits for `coend`.
#[derive(Drop)]
pub struct Created {
    number: u32,
}

/// A process that may act next.
#[derive(Drop)]
pub struct Ready {
    number: u32,
}

/// The process that acts. It cannot be dropped: it rests, waits or finishes.
pub struct Running {
    number: u32,
}

/// A process that waits for a cause, since the action whose number is its ticket.
#[derive(Drop)]
pub struct Waiting {
    number: u32,
    why: Why,
    ticket: u64,
}

/// A process that has finished.
#[derive(Drop)]
pub struct Done {
    number: u32,
}

impl Idle {
    pub(crate) fn new(number: u32) -> Idle
        ensures { result.number ≡ number }
    {
        Idle { number }
    }

    /// The number of the process, from 0; main is 0.
    pub fn number(&self) -> u32
        ensures { result ≡ self.now.number }
    {
        self.number
    }

    /// The process is activated.
    pub fn create(self) -> Created
        ensures { result.number ≡ self.number }
    {
        let Idle { number } = self;
        Created { number }
    }
}

impl Created {
    /// The number of the process, from 0; main is 0.
    pub fn number(&self) -> u32
        ensures { result ≡ self.now.number }
    {
        self.number
    }

    /// The process may act, from `coend` on.
    pub fn start(self) -> Ready
        ensures { result.number ≡ self.number }
    {
        let Created { number } = self;
        Ready { number }
    }
}

impl Ready {
    /// The number of the process, from 0; main is 0.
    pub fn number(&self) -> u32
        ensures { result ≡ self.now.number }
    {
        self.number
    }

    /// The process acts.
    pub fn start(self) -> Running
        ensures { result.number ≡ self.number }
    {
        let Ready { number } = self;
        Running { number }
    }
}

impl Running {
    /// The number of the process, from 0; main is 0.
    pub fn number(&self) -> u32
        ensures { result ≡ self.now.number }
    {
        self.number
    }

    /// The process has acted and may act again.
    pub fn rest(self) -> Ready
        ensures { result.number ≡ self.number }
    {
        let Running { number } = self;
        Ready { number }
    }

    /// The process waits; `ticket` is the number of the action that begins the wait.
    pub fn wait(self, why: Why, ticket: u64) -> Waiting
        ensures number { result.number ≡ self.number }
        ensures why { result.why ≡ why }
        ensures ticket { result.ticket ≡ ticket }
    {
        let Running { number } = self;
        Waiting {
            number,
            why,
            ticket,
        }
    }

    /// The process has finished.
    pub fn finish(self) -> Done
        ensures { result.number ≡ self.number }
    {
        let Running { number } = self;
        Done { number }
    }
}

impl Waiting {
    /// The number of the process, from 0; main is 0.
    pub fn number(&self) -> u32
        ensures { result ≡ self.now.number }
    {
        self.number
    }

    /// What the process waits for.
    pub fn why(&self) -> Why
        ensures { result ≡ self.now.why }
    {
        self.why
    }

    /// The number of the action that began the wait, from 1.
    pub fn ticket(&self) -> u64
        ensures { result ≡ self.now.ticket }
    {
        self.ticket
    }

    /// The wait is over.
    pub fn wake(self) -> Ready
        ensures { result.number ≡ self.number }
    {
        let Waiting { number, .. } = self;
        Ready { number }
    }

    /// The process finishes where it waits.
    pub fn end(self) -> Done
        ensures { result.number ≡ self.number }
    {
        let Waiting { number, .. } = self;
        Done { number }
    }
}

impl Done {
    /// The number of the process, from 0; main is 0.
    pub fn number(&self) -> u32
        ensures { result ≡ self.now.number }
    {
        self.number
    }

    /// The process is activated again.
    pub fn create(self) -> Created
        ensures { result.number ≡ self.number }
    {
        let Done { number } = self;
        Created { number }
    }
}
