//! The broadcasts that ended before the current one.

ghost use Rattle.std.specs.Prelude.{◌≡◌, ℕ, List, None};
ghost use Rattle.sd_receive.specs.Receiving.{HasReceived, IsSoundReceiver, TurnsBy, HasTurned};

use crate::receiver::Receiver;
use crate::session::Session;
use sd_spec::Ending;

/// How a run ended that another followed [this project, docs/FORMATS.md, Receiver].
#[derive(Clone, Copy)]
pub struct EndedRun {
    /// The run's name; it is `Some(None)` in versions 1 and 2, whose runs have none.
    pub run: Option<Option<u32>>,
    /// How it ended.
    pub ending: Ending,
}

// What is kept of the runs before the current one.
#[derive(Clone, Copy)]
pub struct EndedRuns {
    // How they ended, together.
    pub so_far: Ending,
    // The number of packets of them that were written, at most 2^64 - 1.
    pub written: u64,
    // How the last of them ended, until that is taken.
    pub last: Option<EndedRun>,
}

impl Receiver {
    /// How the run ended that ended last, if it wasn't taken yet. A packet that begins another run ends the one before
    /// it.
    pub fn take_ended(&mut self) -> Option<EndedRun>
        ensures value { result ≡ self.old.ended.last }
        ensures taken { self.new.ended.last ≡ None }
        ensures stands { (past : List (List ℕ)) → HasReceived past self.old → HasReceived past self.new }
        ensures fit { IsSoundReceiver self.old → IsSoundReceiver self.new }
        ensures same { (self.new.card ≡ self.old.card) × (self.new.refusal ≡ self.old.refusal) }
    {
        self.ended.last.take()
    }
}

impl EndedRuns {
    // Ends the current run, of this name, if what comes begins another: all that was heard of it is forgotten.
    #[inline(always)]
    pub fn turn(&mut self, begins: bool, name: Option<Option<u32>>, session: &mut Session)
        ensures { TurnsBy begins name self.old session.old session.new self.new }
    {
        if begins {
            self.end(name, session);
        }
    }

    // Ends the current run.
    #[inline(never)]
    fn end(&mut self, name: Option<Option<u32>>, session: &mut Session)
        ensures { HasTurned name self.old session.old session.new self.new }
    {
        let ending = session.ending();
        self.so_far = self.so_far.with(ending);
        self.written = self.written.saturating_add(session.written);
        self.last = Some(EndedRun { run: name, ending });
        session.reset();
    }
}
