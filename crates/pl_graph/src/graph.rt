ghost use Rattle.std.specs.Prelude.{◌≡◌, ◌<◌, ◌↔◌, ◌==◌, ◌&&◌, ◌||◌, ℕ, [], Contains, IfOk, IsNone, IsTrue, length, OnErr, OnOk, replicate};
ghost use Rattle.std.specs.List.Sorted.{IsStrictlyIncreasing};
ghost use Rattle.pl_graph.specs.Closure.{closure_of, Reaches};
ghost use Rattle.pl_graph.specs.Edges.{dependents_of, first_out_of_order, IsInOrder, refers, with_edge};

use crate::marks::{first_not_before, joins};
use pl_text::{OutOfMemory, Rows};
use std::alloc::Global;
use std::marker::Model;

/// Edges between rows, each from a row to one that it refers to. It is seen as the list, for each row, of the rows
/// that it refers to, in the order in which the edges were added.
#[derive(Debug, Drop)]
pub struct Graph {
    targets: Vec<Rows>,
}

impl Model for Graph {
    ghost use Rattle.std.specs.Prelude.{List, ℕ};

    ghost Value = { List (List ℕ) };

    ghost view = { λ a. a.targets.items };
}

impl Graph {
    /// This many rows without an edge.
    pub fn new(alloc: Global, rows: u64) -> Result<Graph, OutOfMemory>
        ensures { IfOk result (λ graph. graph ≡ replicate rows []) }
    {
        let mut targets = Vec::new(alloc);
        for _ in 0..rows {
            targets.push(Rows::new(alloc))?;
        }
        Ok(Graph { targets })
    }

    /// How many rows there are.
    pub fn rows(&self) -> u64
        ensures { result ≡ length self.now }
    {
        self.targets.len() as u64
    }

    /// Adds an edge behind those that its row has; after `OutOfMemory` nothing was added.
    pub fn add_edge(&mut self, from: u64, to: u64) -> Result<(), OutOfMemory>
        requires from_row { from < length self.old }
        requires to_row { to < length self.old }
        ensures added { OnOk result (self.new ≡ with_edge self.old from to) }
        ensures refers { OnOk result
            ((later earlier : ℕ) → refers self.new later earlier
            ≡ (refers self.old later earlier || later == from && earlier == to)) }
        ensures kept { length self.new ≡ length self.old }
        ensures unchanged { OnErr result (self.new ≡ self.old) }
    {
        let targets = &mut self.targets[from as usize];
        targets.push(to)
    }

    /// The first edge, by the row that it goes from and then in the order of adding, that doesn't go to a row
    /// before; takes no memory.
    pub fn in_order(&self) -> Option<(u64, u64)>
        ensures first { result ≡ first_out_of_order self.now }
        ensures none { IsNone result ↔ IsInOrder self.now }
    {
        for (from, targets) in self.targets.iter().enumerate() {
            if let Some(to) = first_not_before(targets.as_slice(), from as u64) {
                return Some((from as u64, to));
            }
        }
        None
    }

    /// The rows that have an edge to this one, each once.
    pub fn dependents_of(&self, alloc: Global, row: u64) -> Result<Rows, OutOfMemory>
        ensures listed { IfOk result (λ rows. rows ≡ dependents_of self.now row) }
        ensures rising { IfOk result IsStrictlyIncreasing }
        ensures referring { IfOk result (λ rows. (other : ℕ) → Contains rows other ↔ IsTrue (refers self.now other row)) }
    {
        let mut found = Rows::new(alloc);
        for (place, targets) in self.targets.iter().enumerate() {
            if targets.as_slice().contains(&row) {
                found.push(place as u64)?;
            }
        }
        Ok(found)
    }

    /// The rows that reach this one through edges, each once, and not this one.
    pub fn closure(&self, alloc: Global, row: u64) -> Result<Rows, OutOfMemory>
        requires { IsInOrder self.now }
        ensures listed { IfOk result (λ rows. rows ≡ closure_of self.now row) }
        ensures rising { IfOk result IsStrictlyIncreasing }
        ensures reaching { IfOk result (λ rows. (other : ℕ) → Contains rows other ↔ Reaches self.now other row) }
        ensures apart { IfOk result (λ rows. ¬ Contains rows row) }
    {
        let mut reaching = Rows::new(alloc);
        let mut marks = Vec::new(alloc);
        for (place, targets) in self.targets.iter().enumerate() {
            let joined = joins(targets.as_slice(), row, &marks);
            if joined {
                reaching.push(place as u64)?;
            }
            marks.push(joined)?;
        }
        Ok(reaching)
    }
}
