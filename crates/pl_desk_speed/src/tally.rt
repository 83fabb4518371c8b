//! An item that is one number.
ghost use Rattle.std.specs.Prelude.{◌≡◌, ◌++◌, [], length};
ghost use Rattle.pl_desk_speed.specs.Told.{told, one_more};

use crate::story::Story;
use pl_desk::Chronicle;
use std::mem;
use std::snapshot::Snapshot;

// The most that a tally counts.
const MOST: u64 = 1 << 60;

/// How often a seat has added one. Which seats did so is known in proofs alone.
#[derive(Drop)]
pub struct Tally {
    count: u64,
    pub story: Snapshot<Story>,
    ghost counted: { count ≡ length (told story.value) },
}

impl Chronicle for Tally {
    ghost use Rattle.std.specs.Prelude.{ℕ};

    ghost Origin = { ℕ };

    ghost Line = { ℕ };

    ghost origin = { λ _. 0 };

    ghost lines = { λ t. told t.story.value };

    ghost number_of = { λ n. n };

    fn length(&self) -> u64 {
        self.count
    }
}

impl Tally {
    pub fn zero() -> Tally
        ensures { told result.story.value ≡ [] }
    {
        Tally {
            count: 0,
            story: Snapshot::of(&Story::Start),
        }
    }

    /// The seat adds one, where fewer than 2^60 were added.
    pub fn add(&mut self, seat: u64)
        ensures adds { told self.new.story.value ≡ told self.old.story.value ++ one_more seat (length (told self.old.story.value)) }
    {
        if self.count < MOST {
            let before = mem::replace(&mut self.story, Snapshot::of(&Story::Start));
            self.story = Snapshot::of(&Story::After(seat, before));
            self.count += 1;
        }
    }
}
