//! Objects, read member by member.
//!
//! By hand, since the derives of the four objects of an item took a quarter of this crate's proof.

use serde::{Deserialize, Deserializer, Format, Name};
use std::alloc::Global;

/// The most members that an object has.
const MOST_MEMBERS: usize = 6;

/// What an object is read into.
pub(crate) trait Object {
    /// Reads the value of the member of this name.
    fn read<F: Format>(
        &mut self,
        name: &str,
        alloc: Global,
        from: &mut Deserializer<'_, '_, F>,
    ) -> Result<(), F::Error>;
}

/// Reads a value in place of what was there.
pub(crate) fn fill<'de, T: Deserialize<'de>, F: Format>(
    slot: &mut T,
    alloc: Global,
    from: &mut Deserializer<'de, '_, F>,
) -> Result<(), F::Error> {
    *slot = T::deserialize(alloc, from)?;
    Ok(())
}

/// Which members of an object came. In place of an object a list of their values may come, as with the derives.
#[derive(Clone, Copy)]
struct Members {
    names: &'static [&'static str],
    keys: [Name<'static>; MOST_MEMBERS],
    came: [bool; MOST_MEMBERS],
    /// How many values of a list came, where one comes.
    listed: Option<usize>,
}

/// The names as keys that are looked for; behind them none.
fn keys_of(names: &'static [&'static str]) -> [Name<'static>; MOST_MEMBERS] {
    let mut keys = [Name::exact(""); MOST_MEMBERS];
    for (key, name) in keys.iter_mut().zip(names) {
        *key = Name::exact(name);
    }
    keys
}

impl Members {
    /// Reads the beginning of an object of these members.
    fn begin<F: Format>(
        names: &'static [&'static str],
        from: &mut Deserializer<'_, '_, F>,
    ) -> Result<Members, F::Error> {
        let is_list = from.begin_struct()?;
        Ok(Members {
            names,
            keys: keys_of(names),
            came: [false; MOST_MEMBERS],
            listed: if is_list { Some(0) } else { None },
        })
    }

    /// The place of the next value of a list, behind so many.
    fn next_listed<F: Format>(
        &mut self,
        count: usize,
        from: &mut Deserializer<'_, '_, F>,
    ) -> Result<Option<usize>, F::Error> {
        if !from.next_item()? {
            return Ok(None);
        }
        if count >= self.names.len() {
            return Err(from.wrong_len());
        }
        self.listed = Some(count + 1);
        Ok(Some(count))
    }

    /// The place among the names of what comes next.
    fn next_place<F: Format>(
        &mut self,
        from: &mut Deserializer<'_, '_, F>,
    ) -> Result<Option<usize>, F::Error> {
        match self.listed {
            Some(count) => self.next_listed(count, from),
            None => from.next_key(&self.keys),
        }
    }

    /// Notes that the member at a place came, and returns its name.
    fn note<F: Format>(
        &mut self,
        place: usize,
        from: &Deserializer<'_, '_, F>,
    ) -> Result<&'static str, F::Error> {
        let (Some(name), Some(came)) = (self.names.get(place), self.came.get_mut(place)) else {
            return Err(from.unknown_key());
        };
        if *came {
            return Err(from.duplicate(name));
        }
        *came = true;
        Ok(name)
    }

    /// That each member came, behind the end.
    fn end<F: Format>(&self, from: &Deserializer<'_, '_, F>) -> Result<(), F::Error> {
        for (place, name) in self.names.iter().enumerate() {
            if self.came.get(place) != Some(&true) {
                return Err(from.missing(name));
            }
        }
        Ok(())
    }
}

/// Reads an object: each member of these names once, in any order.
pub(crate) fn read_object<T: Object, F: Format>(
    names: &'static [&'static str],
    value: &mut T,
    alloc: Global,
    from: &mut Deserializer<'_, '_, F>,
) -> Result<(), F::Error> {
    let mut members = Members::begin(names, from)?;
    for _ in 0..u64::MAX {
        let Some(place) = members.next_place(from)? else {
            break;
        };
        value.read(members.note(place, from)?, alloc, from)?;
    }
    members.end(from)
}
