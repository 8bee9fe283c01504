//! What is kept of the elements of a list that is read.

use crate::elements::{Before, Elements};
use hk_frames::{Cursor, ReadError};
use hk_log::MOST_WRITES;
use hk_types::{Table, Time};
use std::alloc::{AllocError, Global};
use std::marker::{Model, PhantomData};

/// The fewest bytes of an element beside its table.
const LEAST_BYTES: usize = 14;

/// What keeps the elements of a list that are read one after the other: all of them, or only how many there are.
pub(crate) trait Keeps: Drop {
    ghost use Rattle.std.specs.Prelude.{◌≡◌};
    ghost use Rattle.hk_codec.specs.Kept.{Keeping, Leaves};

    /// What is kept.
    ghost kept: { Keeping Self };

    /// Room for them. What it holds says nothing.
    type Room: Drop;

    /// No element was read. It allocates nothing.
    fn none(room: Self::Room) -> Self
        ensures { result ≡ kept.none };

    /// How many were read.
    fn count(&self) -> usize
        ensures { result ≡ kept.count self.now };

    /// The place of the last, where there is one.
    fn last(&self) -> Before
        ensures { result ≡ kept.last self.now };

    /// Makes room for the first of so many groups where it is not there, and for as many elements in each of them, but for no
    /// more than so many bytes can encode.
    fn make_room(&mut self, _count: usize, _groups: usize, _bytes: usize) -> Result<(), AllocError>
        ensures { self.new ≡ self.old }
    {
        Ok(())
    }

    /// Reads the next element, of a table.
    fn read_next(
        &mut self,
        alloc: Global,
        cursor: &mut Cursor,
        time: Time,
        table: Table,
    ) -> Result<(), ReadError>
        ensures { Leaves (kept.next time table self.old cursor.old) self.new cursor.new result };
}

/// All elements.
#[derive(Drop)]
pub(crate) struct All<E: Elements> {
    pub(crate) elements: Vec<E::Value>,
}

impl<E: Elements> Model for All<E> {
    ghost use Rattle.std.specs.Prelude.{List};

    ghost Value = { List E.Value };

    ghost view = { λ a. a.elements.items };
}

impl<E: Elements> Keeps for All<E> {
    ghost use Rattle.hk_codec.specs.Kept.{all_of};

    ghost kept = { all_of E.place E.read };

    type Room = Vec<E::Value>;

    fn none(room: Vec<E::Value>) -> All<E> {
        let mut elements = room;
        elements.clear();
        All { elements }
    }

    fn count(&self) -> usize {
        self.elements.len()
    }

    #[inline(always)]
    fn last(&self) -> Before {
        match self.elements.last() {
            None => None,
            Some(element) => Some(E::place_of(element)),
        }
    }

    fn make_room(&mut self, count: usize, groups: usize, bytes: usize) -> Result<(), AllocError> {
        let len = self.elements.len();
        if count <= self.elements.capacity().saturating_sub(len) {
            return Ok(());
        }
        let most = MOST_WRITES.saturating_sub(len).min(bytes / LEAST_BYTES);
        self.elements
            .reserve_exact(count.saturating_mul(groups).min(most))
    }

    #[inline(always)]
    fn read_next(
        &mut self,
        alloc: Global,
        cursor: &mut Cursor,
        time: Time,
        table: Table,
    ) -> Result<(), ReadError> {
        let before = self.last();
        let element = E::read_one(alloc, cursor, time, table, before)?;
        self.elements.push(element)?;
        Ok(())
    }
}

/// How many elements there are, and the place of the last.
#[derive(Drop)]
pub(crate) struct Passed<E> {
    count: usize,
    last: Before,
    of: PhantomData<E>,
}

impl<E> Model for Passed<E> {
    ghost use Rattle.std.specs.Prelude.{ℕ, Option};

    ghost Value = { ℕ × Option (ℕ × ℕ) };

    ghost view = { λ a. (a.count, a.last) };
}

impl<E: Elements> Keeps for Passed<E> {
    ghost use Rattle.hk_codec.specs.Kept.{passed_of};

    ghost kept = { passed_of E.place E.read };

    type Room = ();

    fn none(_room: ()) -> Passed<E> {
        Passed {
            count: 0,
            last: None,
            of: PhantomData,
        }
    }

    fn count(&self) -> usize {
        self.count
    }

    fn last(&self) -> Before {
        self.last
    }

    #[inline(always)]
    fn read_next(
        &mut self,
        _alloc: Global,
        cursor: &mut Cursor,
        time: Time,
        table: Table,
    ) -> Result<(), ReadError> {
        // (no list has so many)
        let Some(count) = self.count.checked_add(1) else {
            return Err(ReadError::Memory);
        };
        let place = E::pass_one(cursor, time, table, self.last)?;
        self.count = count;
        self.last = Some(place);
        Ok(())
    }
}
