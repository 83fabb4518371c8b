ghost use Rattle.pl_claims.specs.Follows.{FollowsSummary};

/// The law that what is decided follows the summary of a history, decision by decision. It is proved and does nothing.
pub fn columns_follow()
    ensures { FollowsSummary }
{}
