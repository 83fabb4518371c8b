ghost use Rattle.std.specs.Prelude.{◌≡◌, ◌+◌, ◌<◌, [], ◌∷◌, ◌++◌, count_by, if◌then◌else◌, IfErr, length, map, OnErr, OnOk, option_map, position, remove, slice_get, Some};
ghost use Rattle.pl_snap.specs.Lists.{without_first, zip_by};
ghost use Rattle.pl_snap.specs.Rows as spec;

use crate::tag::Tag;
use pl_state::{Pending, PendingKind, Pendings};
use pl_value::OutOfMemory;
use std::alloc::Global;
use std::marker::Model;

/// Pending operations in their order, each with its number, seen as their list.
#[derive(Debug, Drop)]
pub struct Waitings {
    operations: Vec<Pending>,
    tags: Vec<Tag>,
    /// How many of them count beside the entries.
    counted: usize,
}

impl Model for Waitings {
    ghost use Rattle.std.specs.Coded.{codes};
    ghost use Rattle.pl_value.specs.contracts.value.Value as value;
    ghost use Rattle.std.specs.Prelude.{◌≡◌, List, count_by, length};
    ghost use Rattle.pl_snap.specs.Lists.{zip_by};
    ghost use Rattle.pl_snap.specs.Model.{Waiting};
    ghost use Rattle.pl_snap.specs.Rows.{is_counted, tagged_pending};

    ghost Value = { List Waiting };

    ghost coded = { Prim.hlevel (codes, value.the_row.coded) };

    ghost view = { λ a. zip_by tagged_pending a.tags.items a.operations.items };

    ghost invariant = { λ a. (length a.tags.items ≡ length a.operations.items) × (a.counted ≡ count_by is_counted a.operations.items) };
}

fn counts(pending: &Pending) -> bool
    ensures { result ≡ spec.is_counted pending.now }
{
    match pending.kind {
        PendingKind::Updating | PendingKind::Deleting => false,
        PendingKind::Creating | PendingKind::Reading | PendingKind::Importing => true,
    }
}

fn weight(pending: &Pending) -> usize
    ensures { result ≡ (if spec.is_counted pending.now then 1 else 0) }
{
    if counts(pending) { 1 } else { 0 }
}

/// The place of the first tag with this number. It looks at each of the operations that are pending, and at none that
/// is done: of the run there are no more of them than tickets that are open.
fn place_among(tags: &[Tag], number: u64) -> Option<usize>
    ensures { result ≡ position (spec.has_number number) tags.now }
{
    tags.iter().position(|tag| tag.number == number)
}

fn count_of(operations: &[Pending]) -> usize
    ensures { result ≡ count_by spec.is_counted operations.now }
{
    let mut counted = 0;
    for pending in operations {
        if counts(pending) {
            counted += 1;
        }
    }
    counted
}

/// Takes the operation at a place out, and tells by how much fewer count.
fn take_out(operations: &mut Vec<Pending>, place: usize) -> usize
    requires { place < length operations.old.items }
    ensures rest { operations.new.items ≡ remove operations.old.items place }
    ensures fewer { count_by spec.is_counted operations.new.items + result ≡ count_by spec.is_counted operations.old.items }
{
    let fewer = weight(&operations[place]);
    operations.remove(place);
    fewer
}

fn copy_pending(
    alloc: Global,
    operations: &[Pending],
    into: &mut Pendings,
) -> Result<(), OutOfMemory>
    ensures { OnOk result (into.new ≡ into.old ++ operations.now) }
{
    for pending in operations {
        let copied = pending.copy(alloc)?;
        into.push(copied)?;
    }
    Ok(())
}

impl Waitings {
    /// Pending operations with a tag for each; takes no memory.
    pub fn new(operations: Vec<Pending>, tags: Vec<Tag>) -> Waitings
        requires { length tags.items ≡ length operations.items }
        ensures { result ≡ zip_by spec.tagged_pending tags.items operations.items }
    {
        let counted = count_of(operations.as_slice());
        Waitings {
            operations,
            tags,
            counted,
        }
    }

    pub fn len(&self) -> usize
        ensures { result ≡ length self.now }
    {
        self.operations.len()
    }

    /// How many count beside the entries.
    pub fn counted(&self) -> usize
        ensures { result ≡ count_by (λ one. spec.is_counted one.pending) self.now }
    {
        self.counted
    }

    /// The operation at a place, from 0.
    pub fn pending_at(&self, at: usize) -> &Pending
        requires { at < length self.now }
        ensures { option_map (λ one. one.pending) (slice_get self.now at) ≡ Some result.now }
    {
        &self.operations[at]
    }

    /// The stamp of the operation at a place, from 0.
    pub fn stamp_at(&self, at: usize) -> u64
        requires { at < length self.now }
        ensures { option_map (λ one. one.stamp) (slice_get self.now at) ≡ Some result }
    {
        self.tags[at].stamp
    }

    /// Adds an operation at the end. Without memory it comes back and nothing was added.
    pub fn add(&mut self, tag: Tag, pending: Pending) -> Result<(), (Pending, OutOfMemory)>
        ensures added { OnOk result (self.new ≡ self.old ++ spec.tagged_pending tag pending ∷ []) }
        ensures unchanged { OnErr result (self.new ≡ self.old) }
        ensures back { IfErr result (λ refused. refused.0 ≡ pending) }
    {
        if self.tags.reserve(1).is_err() || self.operations.reserve(1).is_err() {
            return Err((pending, OutOfMemory));
        }
        let further = weight(&pending);
        self.tags.push(tag).unwrap();
        self.operations.push(pending).unwrap();
        self.counted += further;
        Ok(())
    }

    /// Takes the operation with this number out, if it is there; takes no memory.
    pub fn remove(&mut self, number: u64)
        ensures { self.new ≡ without_first (spec.is_waiting number) self.old }
    {
        if let Some(place) = place_among(self.tags.as_slice(), number) {
            self.tags.remove(place);
            self.counted -= take_out(&mut self.operations, place);
        }
    }

    /// Adds copies of the operations to others.
    pub fn copy_into(&self, alloc: Global, into: &mut Pendings) -> Result<(), OutOfMemory>
        ensures { OnOk result (into.new ≡ into.old ++ map (λ one. one.pending) self.now) }
    {
        copy_pending(alloc, self.operations.as_slice(), into)
    }
}
