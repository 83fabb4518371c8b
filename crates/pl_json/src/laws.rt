ghost use Rattle.pl_json.specs.Laws.{FieldsAreRead, FieldsTextIsRead, SpelledIsRead, SpellingTellsValue, TextIsRead, TextTellsFields, TextTellsValue};

/// The law that no two values have the same spelling or the same text, nor two objects of values. It is proved and does nothing.
pub fn spelling_tells_value()
    ensures spelling { SpellingTellsValue }
    ensures text { TextTellsValue }
    ensures fields { TextTellsFields }
{}

/// The law that a value is read from its spelling and from its text, and so are the fields of an object. Values are at most
/// as deep as what is read. It is proved and does nothing.
pub fn spelled_is_read()
    ensures spelled_is_read { SpelledIsRead }
    ensures text_is_read { TextIsRead }
    ensures fields_are_read { FieldsAreRead }
    ensures fields_text_is_read { FieldsTextIsRead }
{}
