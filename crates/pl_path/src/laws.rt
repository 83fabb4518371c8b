ghost use Rattle.pl_path.specs.Laws.{HoldsOld, KeepsTheWay, PathIsTold, ReadIsWritten, RefusedAtPlace, ResetByText, StaysElsewhere, StaysWhole, WrittenIsRead};

/// The law of reading: the segments of a path are those that are written as its text by the grammar, and another
/// text is refused at the first place at which no path goes on. It is proved and does nothing.
pub fn paths_are_written()
    ensures read_is_written { ReadIsWritten }
    ensures written_is_read { WrittenIsRead }
    ensures told { PathIsTold }
    ensures refused_place { RefusedAtPlace }
{}

/// The law of setting back: the old value stands at the path afterwards, what stands at other paths stays, what
/// the path goes through keeps its kind and its secrets, and nothing changes where the last segment has no place
/// or a value would become too deep. It is proved and does nothing.
pub fn reset_holds_old()
    ensures at_path { HoldsOld }
    ensures elsewhere { StaysElsewhere }
    ensures on_the_way { KeepsTheWay }
    ensures unchanged { StaysWhole }
    ensures by_text { ResetByText }
{}
