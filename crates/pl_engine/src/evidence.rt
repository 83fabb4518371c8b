ghost use Rattle.std.specs.Prelude.{option_map};
ghost use Rattle.pl_engine.specs.Evidence.{Evidence};

use crate::world::{Finished, World};
use pl_world::{Sink, Spawner, Store};

/// What a call leaves.
pub trait Leaves {
    type Start: Drop;

    // what a call left that began so, with what the outside told before it and after
    ghost evidence: { Self.Start → Self → Evidence };
}

impl<S: Store, B: Drop, P: Spawner, W: Sink, I: Drop, G: Drop> Leaves
    for Finished<S, B, P, W, I, G> {
    type Start = World<S, B, P, W, I, G>;

    ghost evidence = { λ world finished. record {
      before = record {
        story = S.story world.store;
        store_faults = S.faults world.store;
        started = P.started world.spawner;
        start_faults = P.faults world.spawner;
        sink_faults = W.faults world.sink;
      };
      now = record {
        story = S.story finished.world.store;
        store_faults = S.faults finished.world.store;
        started = P.started finished.world.spawner;
        start_faults = P.faults finished.world.spawner;
        sink_faults = W.faults finished.world.sink;
      };
      base = finished.run.base;
      events = finished.run.history.items;
      marks = finished.run.marks.items;
      wanted = finished.run.wanted;
      host = option_map (λ used. record {
        reading = record {
          given = P.Pipe.given used.0;
          taken = P.Pipe.taken used.0;
          faults = P.Pipe.faults used.0;
          ends = P.Pipe.ends used.0;
        };
        writing = record {
          given = P.Pipe.given used.1;
          taken = P.Pipe.taken used.1;
          faults = P.Pipe.faults used.1;
          ends = P.Pipe.ends used.1;
        };
      }) finished.run.host;
      outcome = finished.outcome;
    } };
}
