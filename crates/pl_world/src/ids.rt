ghost use Rattle.std.specs.Prelude.{◌≡◌, ℕ, List, [], ◌∷◌, Option, Some};
ghost use Rattle.pl_world.specs.Told.{GrewIfTold};

/// Where fresh ids come from. A draw cannot fail.
pub trait Ids: Drop + Send {
    // the draws so far, where they are told
    ghost drawn: { Self → Option (List ℕ) };

    // A form that counts its draws tells them until its count is at its end.
    fn draw(&mut self) -> u128
        ensures { GrewIfTold (drawn self.old) (drawn self.new) (result ∷ []) };
}

/// Ids that are the numbers from 1 on. The last number is drawn again and again, and the draws are no
/// longer told from then on.
#[derive(Debug, Drop)]
pub struct CountIds {
    count: u128,
}

impl CountIds {
    /// Nothing was drawn.
    pub fn new() -> CountIds
        ensures { ⟦<CountIds as Ids>⟧.drawn result ≡ Some [] }
    {
        CountIds { count: 0 }
    }
}

impl Ids for CountIds {
    ghost use Rattle.pl_world.specs.Numbers.{drawn_up_to};

    ghost drawn = { λ ids. drawn_up_to ids.count };

    fn draw(&mut self) -> u128 {
        self.count = self.count.saturating_add(1);
        self.count
    }
}
