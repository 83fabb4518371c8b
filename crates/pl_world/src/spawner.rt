ghost use Rattle.std.specs.Prelude.{◌≡◌, ℕ, ◌≤◌, List, [], ◌∷◌, ◌++◌, IfOk, OnErr, OnOk};
ghost use Rattle.pl_world.specs.Counts.{Rose};
ghost use Rattle.pl_world.specs.Told.{IsFresh};
ghost use Rattle.pl_world.specs.Causes.{OnFailed};

use crate::pipe::Pipe;
use crate::store::Covering;
use crate::trouble::Trouble;
use pl_value::Words;
use std::alloc::Global;

/// What starts children.
pub trait Spawner: Drop + Send {
    type Cover: Covering;

    type Pipe: Pipe<Cover = Self::Cover>;

    // how many faults there were
    ghost faults: { Self → ℕ };

    // the words of each start that succeeded, in order
    ghost started: { Self → List (List (List ℕ)) };

    /// Starts a child, and answers the pipe to and from it.
    fn start(&mut self, alloc: Global, words: &Words) -> Result<Self::Pipe, Trouble>
        ensures started_grew { OnOk result (started self.new ≡ started self.old ++ words.now ∷ []) }
        ensures started_stays { OnErr result (started self.new ≡ started self.old) }
        ensures fresh { IfOk result (λ pipe. IsFresh
            (Self.Pipe.given pipe) (Self.Pipe.taken pipe) (Self.Pipe.faults pipe) (Self.Pipe.ends pipe)) }
        ensures failed_rose { OnFailed result (Rose (faults self.old) (faults self.new)) }
        ensures faults_never_fall { faults self.old ≤ faults self.new };

    /// Starts a host, and answers the half to read from and the half to write to.
    fn start_host(
        &mut self,
        alloc: Global,
        words: &Words,
    ) -> Result<(Self::Pipe, Self::Pipe), Trouble>
        ensures started_grew { OnOk result (started self.new ≡ started self.old ++ words.now ∷ []) }
        ensures started_stays { OnErr result (started self.new ≡ started self.old) }
        ensures fresh_reading { IfOk result (λ halves. IsFresh
            (Self.Pipe.given halves.0) (Self.Pipe.taken halves.0) (Self.Pipe.faults halves.0) (Self.Pipe.ends halves.0)) }
        ensures fresh_writing { IfOk result (λ halves. IsFresh
            (Self.Pipe.given halves.1) (Self.Pipe.taken halves.1) (Self.Pipe.faults halves.1) (Self.Pipe.ends halves.1)) }
        ensures failed_rose { OnFailed result (Rose (faults self.old) (faults self.new)) }
        ensures faults_never_fall { faults self.old ≤ faults self.new };
}
