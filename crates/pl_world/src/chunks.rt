ghost use Rattle.std.specs.Prelude.{◌<◌, ◌≤◌};

/// The sizes at which reads and writes are cut, used in turn and again from the first.
#[derive(Debug, Drop)]
pub struct Chunks {
    sizes: Vec<usize>,
    turn: usize,
}

impl Chunks {
    /// Where there are no sizes nothing is cut; the size 0 counts as 1.
    pub fn new(sizes: Vec<usize>) -> Chunks {
        Chunks { sizes, turn: 0 }
    }

    /// The next size, but at most this.
    pub fn next_size(&mut self, most: usize) -> usize
        ensures within { result ≤ most }
        ensures some { 0 < most → 0 < result }
    {
        if self.turn >= self.sizes.len() {
            self.turn = 0;
        }
        let Some(size) = self.sizes.get(self.turn).copied() else {
            return most;
        };
        self.turn = self.turn.saturating_add(1);
        most.min(size.max(1))
    }
}
