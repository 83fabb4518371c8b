ghost use Rattle.std.specs.Prelude.{◌≡◌, ℕ, [], ◌∷◌, ◌++◌, if◌then◌else◌, IfOk, List, OnOk, option_and_then, option_map, reverse, Some};
ghost use Rattle.std.specs.Str.{bytes_eq};
ghost use Rattle.pl_state.specs.Chain.{last_of_urn};
ghost use Rattle.pl_refresh.specs.Parents.{parents_behind, place_in};
ghost use Rattle.pl_refresh.specs.Refreshed.{is_there, nearest};

use crate::standing::Standing;
use crate::there::{if_there, is_found};
use pl_state::Entry;
use pl_urn::Urn;
use pl_value::OutOfMemory;
use std::alloc::Global;
use std::collections::BTreeMap;
use std::marker::Model;

/// The first rows of the base, seen as their list, with what leads from a row to its ancestors.
#[derive(Drop)]
pub struct Ancestry<'a> {
    rows: &'a [Entry],
    /// The place of the last row of each URN.
    places: BTreeMap<&'a str, usize>,
    /// Of each row the place of its parent: the last row before it with the URN that it names.
    parents: Vec<Option<usize>>,
}

impl<'a> Model for Ancestry<'a> {
    ghost use Rattle.std.specs.Prelude.{List};
    ghost use Rattle.std.specs.Coded.{codes, coded_list};
    ghost use Rattle.pl_state.specs.declared.entry.Entry.{Entry};
    ghost use Rattle.pl_state.specs.contracts.entry.Entry as row;
    ghost use Rattle.pl_refresh.specs.Parents.{Leads};

    ghost Value = { List Entry };

    ghost coded = { coded_list (Prim.hlevel (codes, row.the_row.coded)) };

    ghost view = { λ a. a.rows.now };

    ghost invariant = { λ a. Leads a.places a.parents.items a.rows.now };
}

impl<'a> Ancestry<'a> {
    /// None of these rows; takes no memory.
    pub fn new(alloc: Global, rows: &'a [Entry]) -> Ancestry<'a>
        ensures { result ≡ [] }
    {
        Ancestry {
            rows: &rows[..0],
            places: BTreeMap::new(alloc),
            parents: Vec::new(alloc),
        }
    }

    /// One row more, which is the last of these.
    pub fn with(self, rows: &'a [Entry], row: &'a Entry) -> Result<Ancestry<'a>, OutOfMemory>
        requires { rows.now ≡ self ++ row.now ∷ [] }
        ensures { IfOk result (λ ancestry. ancestry ≡ rows.now) }
    {
        let place = self.rows.len();
        let parent = place_of(&self.places, row.parent.as_ref());
        let Ancestry {
            mut places,
            mut parents,
            ..
        } = self;
        parents.push(parent)?;
        put_place(&mut places, row.urn.as_str(), place)?;
        Ok(Ancestry {
            rows,
            places,
            parents,
        })
    }

    /// The nearest of a URN and its ancestors that is there, where the ancestors are found in these rows, from the last
    /// one on. Its time grows with the number of ancestors that are not there.
    pub fn nearest(&self, standing: &Standing<'_>, urn: Option<&'a Urn>) -> Option<&'a Urn>
        ensures { option_map (λ urn. urn.now) result
            ≡ nearest (is_there standing.now) (reverse self.now) (option_map (λ urn. urn.now) urn.entry) }
    {
        let place = place_of(&self.places, urn);
        climbed(standing, self.rows, self.parents.as_slice(), urn, place)
    }
}

/// The place that is kept of a URN.
fn place_of(places: &BTreeMap<&str, usize>, urn: Option<&Urn>) -> Option<usize>
    ensures { result ≡ option_and_then (place_in places.now) (option_map (λ urn. urn.now) urn.entry) }
{
    let urn = urn?;
    places.get(urn.as_str()).copied()
}

fn put_place<'a>(
    places: &mut BTreeMap<&'a str, usize>,
    urn: &'a str,
    place: usize,
) -> Result<(), OutOfMemory>
    ensures { OnOk result ((other : List ℕ) →
        place_in places.new other ≡ (if bytes_eq urn.now other then Some place else place_in places.old other)) }
{
    places.insert(urn, place)?;
    Ok(())
}

/// Goes up from a URN, whose last row stands at the place, to the nearest one that is there.
fn climbed<'a>(
    standing: &Standing<'_>,
    rows: &'a [Entry],
    parents: &[Option<usize>],
    urn: Option<&'a Urn>,
    place: Option<usize>,
) -> Option<&'a Urn>
    requires parents { parents.now ≡ parents_behind [] rows.now }
    requires place { place ≡ last_of_urn (option_map (λ urn. urn.now) urn) rows.now }
    ensures { option_map (λ urn. urn.now) result
        ≡ nearest (is_there standing.now) (reverse rows.now) (option_map (λ urn. urn.now) urn.entry) }
{
    let mut urn = urn;
    let mut place = place;
    while let Some(at) = place {
        if is_found(standing, urn) {
            return urn;
        }
        urn = rows[at].parent.as_ref();
        place = parents[at];
    }
    if_there(standing, urn)
}
