ghost use Rattle.std.specs.Prelude.{◌≡◌, IfOk};
ghost use Rattle.pl_entries.specs.Recorded.{recorded_result};
ghost use Rattle.pl_model.specs.Entries.{result_with};

use pl_value::{Fields, OutOfMemory, Text, Texts};
use std::alloc::Global;

/// What a recording gives to the entry of its goal.
#[derive(Debug, Drop)]
pub struct Recording {
    /// The name that the provider gave the real thing.
    pub id: Option<Text>,
    pub outputs: Fields,
    /// What failed about a thing that was made or changed in part.
    pub reasons: Texts,
    /// The compact text of a JSON object with the fields that are kept unread.
    pub rest: Text,
}

impl Recording {
    /// A recording without fields that are kept unread.
    pub fn new(
        alloc: Global,
        id: Option<Text>,
        outputs: Fields,
        reasons: Texts,
    ) -> Result<Recording, OutOfMemory>
        ensures { IfOk result (λ made. recorded_result made ≡ result_with id outputs reasons) }
    {
        let rest = Text::from_str(alloc, "{}")?;
        Ok(Recording {
            id,
            outputs,
            reasons,
            rest,
        })
    }
}
