ghost use Rattle.std.specs.Prelude.{◌≡◌, ◌==◌, is_err, IsErr};
ghost use Rattle.std.specs.List.{list_any};
ghost use Rattle.ax_ports.specs.Calls.{is_due, called};
ghost use Rattle.ax_ports.specs.Ports.{one_more, HasCause};

use crate::Failed;

/// The calls that an object in memory has had, those that fail, and how many did.
#[derive(Drop)]
pub(crate) struct Calls {
    pub(crate) fails: Vec<u32>,
    pub(crate) made: u64,
    pub(crate) faults: u64,
}

impl Calls {
    pub(crate) fn new(fails: Vec<u32>) -> Calls
        ensures { result ≡ record { fails = fails; made = 0; faults = 0 } }
    {
        Calls {
            fails,
            made: 0,
            faults: 0,
        }
    }

    /// One more call. It fails exactly where its number is among those that fail.
    pub(crate) fn next(&mut self) -> Result<(), Failed>
        ensures cause { HasCause self.old.faults self.new.faults result }
        ensures fails { is_err result ≡ is_due self.old }
        ensures calls { self.new ≡ called self.old (is_due self.old) }
    {
        let due = is_among(&self.fails, self.made);
        self.made = self.made.saturating_add(1);
        if due { self.fail() } else { Ok(()) }
    }

    /// The call has failed.
    pub(crate) fn fail(&mut self) -> Result<(), Failed>
        ensures cause { HasCause self.old.faults self.new.faults result }
        ensures fails { IsErr result }
        ensures kept { self.new ≡ record self.old { faults = one_more self.old.faults } }
    {
        self.faults = self.faults.saturating_add(1);
        Err(Failed)
    }
}

fn is_among(numbers: &[u32], call: u64) -> bool
    ensures { result ≡ list_any (λ number. number == call) numbers.now }
{
    numbers.iter().any(|&number| u64::from(number) == call)
}
