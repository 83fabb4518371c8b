ghost use Rattle.pl_checkpoint_text.specs.Laws.{TextTellsState};

/// The law that no two states have the same text. It is proved and does nothing.
pub fn text_tells_state()
    ensures { TextTellsState }
{}
