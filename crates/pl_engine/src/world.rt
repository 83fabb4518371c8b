use pl_decide::Outcome;
use pl_events::Event;
use pl_state::Snapshot;
use pl_world::{Pipe, Spawner};

/// The outside of a run. `side` is the file of a plan or of an import. The commands that are built leave it, the ids
/// and the gate untouched, and only those of `state` write to the sink.
#[derive(Drop)]
pub struct World<S: Drop, B: Drop, P: Drop, W: Drop, I: Drop, G: Drop> {
    pub store: S,
    pub side: B,
    pub spawner: P,
    pub sink: W,
    pub ids: I,
    pub gate: G,
}

/// What happened in a run: the state that it began with, its one history, and the very pipes that it used.
#[derive(Drop)]
pub struct RunRecord<Q: Pipe> {
    /// The state at the start; without a name and a field where the run ended before the host started.
    pub base: Snapshot,
    /// The events, the oldest first.
    pub history: Vec<Event>,
    /// The lengths of the history at which a replacement of the checkpoint succeeded.
    pub marks: Vec<u64>,
    /// The host's reading half and its writing half; none where the run ended before the host started.
    pub host: Option<(Q, Q)>,
    /// Whether memory was wanted.
    pub wanted: bool,
}

/// What a call of the engine leaves.
#[derive(Drop)]
pub struct Finished<S: Drop, B: Drop, P: Spawner, W: Drop, I: Drop, G: Drop> {
    pub status: u8,
    pub outcome: Outcome,
    pub world: World<S, B, P, W, I, G>,
    pub run: RunRecord<P::Pipe>,
}

/// What came of words without a host: the command was served, or it is one that needs a host, and the world is handed
/// back untouched.
#[derive(Drop)]
pub enum OfflineAnswer<F, W> {
    Served(F),
    NotOffline(W),
}
