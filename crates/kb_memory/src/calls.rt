// The calls of a world that are to fail.
ghost use Rattle.std.specs.Prelude.{◌≡◌, [], Some, None, take};
ghost use Rattle.std.specs.Option.{option_copied};
ghost use Rattle.kb_memory.specs.Calls.{fate_of, passes, is_done, end_of, after_halt, fate_by, written_by, text_of};

use crate::failures::Failures;
use kb_world::WorldError;
use std::alloc::Global;

/// A halt: some calls pass, and each call after them fails.
#[derive(Debug, Drop)]
pub struct Halt {
    /// How many calls are still to pass.
    left: u64,
    /// What the first that fails leaves; none once it has failed.
    choice: Option<u64>,
}

/// What is to become of a call.
#[derive(Clone, Copy, Debug)]
pub enum Fate {
    /// It does its work.
    Passes,
    /// It fails, and leaves the tree as it was.
    Fails,
    /// It is cut off, and leaves what the choice says.
    Halts(u64),
}

// The first so many of the bytes; all of them, where there aren't so many.
fn first(bytes: &[u8], count: u64) -> &[u8]
    ensures { result.now ≡ take count bytes.now }
{
    if count < bytes.len() as u64 {
        return &bytes[..count as usize];
    }
    bytes
}

impl Fate {
    /// Whether the call does its work.
    pub fn passes(self) -> bool
        ensures { result ≡ passes self }
    {
        matches!(self, Fate::Passes)
    }

    /// Whether a call is done that is done as a whole or not at all. Of a halted one the choice decides it.
    pub fn is_done(self) -> bool
        ensures { result ≡ is_done self }
    {
        match self {
            Fate::Passes => true,
            Fate::Fails => false,
            Fate::Halts(choice) => choice % 2 != 0,
        }
    }

    /// What a put of these bytes writes, if it writes a file: of a halted one the choice decides it.
    pub fn written(self, bytes: &[u8]) -> Option<&[u8]>
        ensures { text_of result ≡ written_by self bytes.now }
    {
        match self {
            Fate::Passes => Some(bytes),
            Fate::Fails | Fate::Halts(0) => None,
            Fate::Halts(choice) => Some(first(bytes, choice - 1)),
        }
    }

    /// What the call answers, but for want of memory.
    pub fn end(self) -> Result<(), WorldError>
        ensures { result ≡ end_of self }
    {
        match self {
            Fate::Passes => Ok(()),
            Fate::Fails | Fate::Halts(_) => Err(WorldError::Failed),
        }
    }
}

/// What is planned for the calls of a world: that some fail, or that all do from some call on.
#[derive(Debug, Drop)]
pub struct Calls {
    failures: Failures,
    halt: Option<Halt>,
}

// What a halt, if there is one, makes of the next call, which it counts.
fn count(halt: &mut Option<Halt>) -> Fate
    ensures fate { result ≡ fate_by halt.old }
    ensures later { halt.new ≡ after_halt halt.old }
{
    match halt {
        None => Fate::Passes,
        Some(Halt { left: 0, choice }) => match choice.take() {
            Some(choice) => Fate::Halts(choice),
            None => Fate::Fails,
        },
        Some(Halt { left, .. }) => {
            *left -= 1;
            Fate::Passes
        }
    }
}

impl Calls {
    ghost use Rattle.kb_memory.specs.Calls.{plan_in, faults_in, Counted};

    /// No call is to fail, and none has.
    pub fn none(alloc: Global) -> Calls
        ensures plan { plan_in result ≡ record { due = []; halt = None } }
        ensures faults { faults_in result ≡ 0 }
    {
        Calls {
            failures: Failures::none(alloc),
            halt: None,
        }
    }

    /// From now on the calls with these numbers are to fail, and no other.
    pub fn fail(&mut self, calls: Vec<u64>)
        ensures plan { plan_in self.new ≡ record { due = calls.items; halt = None } }
        ensures faults { faults_in self.new ≡ faults_in self.old }
    {
        self.failures.plan(calls);
        self.halt = None;
    }

    /// From now on so many calls are to pass, and all others to fail: the first of them leaves what the choice says.
    pub fn halt(&mut self, alloc: Global, left: u64, choice: u64)
        ensures plan { plan_in self.new ≡ record { due = []; halt = Some (record { left = left; choice = Some choice }) } }
        ensures faults { faults_in self.new ≡ faults_in self.old }
    {
        self.failures.plan(Vec::new(alloc));
        self.halt = Some(Halt {
            left,
            choice: Some(choice),
        });
    }

    /// Counts the next call, and tells what is to become of it.
    pub fn next(&mut self) -> Fate
        ensures fate { result ≡ fate_of (plan_in self.old) }
        ensures counted { Counted self.old self.new }
    {
        let fate = count(&mut self.halt);
        if self.failures.next_fails() {
            return Fate::Fails;
        }
        if !fate.passes() {
            self.failures.rise();
        }
        fate
    }
}
