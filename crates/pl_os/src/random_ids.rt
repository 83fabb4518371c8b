use pl_world::Ids;
use std::io;
use std::random::RandomSource;

/// Ids that begin at a random number and go up by one; after the last number comes 0.
#[derive(Debug, Drop)]
pub struct RandomIds {
    next: u128,
}

impl RandomIds {
    /// The first number is made of 16 random bytes of the system.
    pub fn new(source: &impl RandomSource) -> io::Result<RandomIds> {
        let mut bytes = [0u8; 16];
        source.fill_bytes(&mut bytes)?;
        Ok(RandomIds {
            next: u128::from_le_bytes(bytes),
        })
    }
}

impl Ids for RandomIds {
    ghost use Rattle.std.specs.Prelude.{None};

    ghost drawn = { λ _. None };

    fn draw(&mut self) -> u128 {
        let id = self.next;
        self.next = id.wrapping_add(1);
        id
    }
}
