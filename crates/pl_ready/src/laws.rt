ghost use Rattle.pl_ready.specs.Keepers.{ClaimsKeep, ColumnsKeep};

/// The law that in an orderly history recorded goals claim rows that were to stay, each its own. It is proved and does
/// nothing, as the one below.
pub fn claims_keep()
    ensures { ClaimsKeep }
{}

/// The law that so it is in columns that tell the claims of such a history.
pub fn columns_keep()
    ensures { ColumnsKeep }
{}
