//! Where the intervals of each number are: their starts in order, each with the node that holds the interval.
ghost use Rattle.std.specs.Prelude.{◌≡◌, ◌<◌, ◌≤◌, ◌∷◌, ◌-◌, [], length, nat_le, nat_lt, Contains, IfSome, IfNone, OnOk, vec_len, vec_capacity};
ghost use Rattle.std.specs.List.Sorted.{IsNonDecreasingBy, IsPermutation};
ghost use Rattle.history_tree.specs.declared.places.Place.{Place};
ghost use Rattle.history_tree.specs.Over.{MayMeet};
ghost use Rattle.history_tree.specs.Places.{start_of, row_at, places_of, HaveSame, OthersHaveSame, IsGap, IsBegunCount, IsLatest};

use std::alloc::Global;
use std::marker::Model;
use trace_types::OutOfMemory;

/// An interval's start, in ns, and the number of the node that holds it.
#[derive(Clone, Copy, Debug)]
pub struct Place {
    pub start: u64,
    pub node: usize,
}

/// The places of the intervals of each number. Contracts see a list of them for each number, by their starts, and how many
/// more there is room for.
#[derive(Debug, Drop)]
pub struct Places {
    rows: Vec<Row>,
}

impl Model for Places {
    ghost use Rattle.std.specs.Prelude.{List};
    ghost use Rattle.history_tree.specs.Places.{PlaceList};

    ghost Value = { List PlaceList };

    ghost view = { λ p. p.rows.items };
}

impl Places {
    /// No place. It takes no memory.
    pub fn new(alloc: Global) -> Places
        ensures { result ≡ [] }
    {
        Places {
            rows: Vec::new(alloc),
        }
    }

    /// Makes room for one more place of a number. The only error is lack of memory.
    pub fn reserve(&mut self, number: usize) -> Result<(), OutOfMemory>
        ensures same { HaveSame self.old self.new }
        ensures there { OnOk result (number < length self.new) }
        ensures room { OnOk result (0 < (row_at number self.new).spare) }
    {
        self.reach(number)?;
        self.rows[number].reserve()
    }

    // Makes a row of each number up to this one.
    fn reach(&mut self, number: usize) -> Result<(), OutOfMemory>
        ensures same { HaveSame self.old self.new }
        ensures there { OnOk result (number < length self.new) }
    {
        if number < self.rows.len() {
            return Ok(());
        }
        self.rows.reserve(number - self.rows.len())?;
        let alloc = *self.rows.allocator();
        while self.rows.len() <= number {
            self.rows.push(Row::new(alloc))?;
        }
        Ok(())
    }

    /// Adds a place of a number. There is room.
    pub fn put(&mut self, number: usize, place: Place)
        requires there { number < length self.old }
        requires room { 0 < (row_at number self.old).spare }
        ensures added { IsPermutation (place ∷ places_of number self.old) (places_of number self.new) }
        ensures others { OthersHaveSame number self.old self.new }
    {
        let row = &mut self.rows[number];
        row.put(place);
    }

    /// The last place of a number that begins by an instant, in ns. It takes no memory.
    pub fn latest(&self, number: usize, t: u64) -> Option<Place>
        ensures found { IfSome result (IsLatest (places_of number self.now) t) }
        ensures none { IfNone result ((p : Place) → Contains (places_of number self.now) p → t < p.start) }
    {
        if number >= self.rows.len() {
            return None;
        }
        self.rows[number].latest(t)
    }

    /// The places of a number whose intervals may meet a range, in ns, by their starts. It takes no memory.
    pub fn over(&self, number: usize, from: u64, to: u64) -> &[Place]
        requires { from ≤ to }
        ensures { MayMeet (places_of number self.now) from to result.now }
    {
        match self.rows.get(number) {
            Some(row) => row.over(from, to),
            None => &[],
        }
    }
}

// The places of one number's intervals, by their starts. Contracts see their list, and how many more there is room for.
#[derive(Debug, Drop)]
struct Row {
    places: Vec<Place>,
}

impl Model for Row {
    ghost use Rattle.std.specs.Prelude.{◌-◌, vec_len, vec_capacity};
    ghost use Rattle.std.specs.List.Sorted.{IsNonDecreasingBy};
    ghost use Rattle.history_tree.specs.Places.{PlaceList, start_of};

    ghost Value = { PlaceList };

    ghost view = { λ r. record { places = r.places.items; spare = vec_capacity r.places - vec_len r.places } };

    ghost invariant = { λ r. IsNonDecreasingBy start_of r.places.items };
}

impl Row {
    // No place. It takes no memory.
    fn new(alloc: Global) -> Row
        ensures { result.places ≡ [] }
    {
        Row {
            places: Vec::new(alloc),
        }
    }

    // Makes room for one more place. The only error is lack of memory.
    fn reserve(&mut self) -> Result<(), OutOfMemory>
        ensures places { self.new.places ≡ self.old.places }
        ensures room { OnOk result (0 < self.new.spare) }
    {
        self.places.reserve(1)?;
        Ok(())
    }

    // Adds a place. There is room.
    fn put(&mut self, place: Place)
        requires { 0 < self.old.spare }
        ensures { IsPermutation (place ∷ self.old.places) self.new.places }
    {
        let at = gap(&self.places, place.start);
        self.places.insert(at, place).unwrap();
    }

    // The last place that begins by an instant.
    fn latest(&self, t: u64) -> Option<Place>
        ensures found { IfSome result (IsLatest self.now.places t) }
        ensures none { IfNone result ((p : Place) → Contains self.now.places p → t < p.start) }
    {
        let begun = count_begun(&self.places, t);
        if begun == 0 {
            return None;
        }
        Some(self.places[begun - 1])
    }

    // The last place that begins by a range's first instant, and those that begin in the range after it.
    fn over(&self, from: u64, to: u64) -> &[Place]
        requires { from ≤ to }
        ensures { MayMeet self.now.places from to result.now }
    {
        let first = count_begun(&self.places, from).saturating_sub(1);
        let end = count_begun(&self.places, to);
        &self.places[first..end]
    }
}

// Where a place that begins at an instant goes: mostly after all others.
fn gap(places: &[Place], start: u64) -> usize
    requires { IsNonDecreasingBy start_of places.now }
    ensures { IsGap places.now start result }
{
    let count = places.len();
    if count == 0 || places[count - 1].start <= start {
        return count;
    }
    places.partition_point(
        |place: &Place| -> bool
            ensures { result ≡ nat_lt place.now.start start }
        { place.start < start },
    )
}

// How many places begin by an instant.
fn count_begun(places: &[Place], t: u64) -> usize
    requires { IsNonDecreasingBy start_of places.now }
    ensures { IsBegunCount places.now t result }
{
    places.partition_point(
        |place: &Place| -> bool
            ensures { result ≡ nat_le place.now.start t }
        { place.start <= t },
    )
}

#[cfg(test)]
mod tests {
    use super::*;
    use std::test::Fail;

    fn rows_of(places: Places) -> Vec<Row> {
        let Places { rows } = places;
        rows
    }

    fn places_of_row(row: Row) -> Vec<Place> {
        let Row { places } = row;
        places
    }

    fn numbers_of(place: Place) -> (u64, usize) {
        let Place { start, node } = place;
        (start, node)
    }

    // There is no interval in the index: of each it has the start and the node's number.
    #[test]
    fn places_are_numbers(rt: HostRuntime) -> Result<(), Fail> {
        let rows = rows_of(Places::new(rt.alloc()));
        assert!(rt; rows.is_empty());
        let places = places_of_row(Row::new(rt.alloc()));
        assert!(rt; places.is_empty());
        assert!(rt; numbers_of(Place { start: 5, node: 7 }) == (5, 7));
        Ok(())
    }
}
