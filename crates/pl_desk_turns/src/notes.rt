//! A list of notes, each with the number of the seat that made it.
ghost use Rattle.std.specs.Prelude.{◌≡◌, ◌++◌, [], ◌∷◌, MatchResult};

use pl_desk::{Chronicle, OutOfMemory};

/// What a note says: a number, or two sayings.
#[derive(Drop)]
pub enum Saying {
    Number(u64),
    Both(Box<Saying>, Box<Saying>),
}

#[derive(Drop)]
pub struct Note {
    pub seat: u64,
    pub said: Saying,
}

#[derive(Drop)]
pub struct Notes {
    pub title: u64,
    pub notes: Vec<Note>,
}

impl Chronicle for Notes {
    ghost use Rattle.std.specs.Prelude.{ℕ};
    ghost use Rattle.pl_desk_turns.specs.declared.notes.Note.{Note};

    ghost Origin = { ℕ };

    ghost Line = { Note };

    ghost origin = { λ s. s.title };

    ghost lines = { λ s. s.notes.items };

    ghost number_of = { λ l. l.seat };

    fn length(&self) -> u64 {
        self.notes.len() as u64
    }
}

impl Notes {
    /// Adds a note at the end.
    pub fn add(&mut self, note: Note) -> Result<(), OutOfMemory>
        ensures title { self.new.title ≡ self.old.title }
        ensures notes { MatchResult result (λ _. self.new.notes.items ≡ self.old.notes.items ++ note ∷ []) (λ _. self.new.notes.items ≡ self.old.notes.items) }
    {
        match self.notes.push(note) {
            Ok(()) => Ok(()),
            Err(_) => Err(OutOfMemory),
        }
    }
}
