ghost use Rattle.pl_requests.specs.Follows.{FollowsSummary};

/// The law that what is kept follows the summary of a history. It is proved and does nothing.
pub fn columns_follow()
    ensures { FollowsSummary }
{}
