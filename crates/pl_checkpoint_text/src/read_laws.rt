ghost use Rattle.pl_checkpoint_text.specs.ReadLaws.{ReadIsReadable, SpelledIsRead, TextIsRead};

/// The law that a state that is read is formed and sound, and has no more resources than there may be. It is proved and
/// does nothing.
pub fn read_is_readable()
    ensures { ReadIsReadable }
{}

/// The law that each such state is what its data reads as. It is proved and does nothing.
pub fn spelled_is_read()
    ensures { SpelledIsRead }
{}

/// The law that the bytes of each such state read as the state, and as no other. It is proved and does nothing.
pub fn text_is_read()
    ensures { TextIsRead }
{}
