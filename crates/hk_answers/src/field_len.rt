//! How many bytes the fields of messages have, and the bounds that their types state.

ghost use Rattle.std.specs.Prelude.{◌≡◌, ◌<◌, ◌≤◌, ◌^◌};

use hk_types::{Key, Table, Tag, Time};

/// How many bytes a number of 64 bits has.
pub fn number_len(number: u64) -> u64
    ensures len { result ≡ 8 }
    ensures fits { number < 2 ^ 64 }
{
    let _in_range = number;
    8
}

/// How many bytes a time has.
pub fn time_len(time: Time) -> u64
    ensures len { result ≡ 8 }
    ensures fits { time ≤ 2 ^ 62 }
{
    number_len(time.number())
}

/// How many bytes a table has.
pub fn table_len(table: Table) -> u64
    ensures len { result ≡ 2 }
    ensures fits { table < 2 ^ 16 }
{
    2
}

/// How many bytes a key has.
pub fn key_len(key: Key) -> u64
    ensures len { result ≡ 8 }
    ensures fits { key < 2 ^ 64 }
{
    number_len(key.number())
}

/// How many bytes a tag has.
pub(crate) fn tag_len(tag: Tag) -> u64
    ensures len { result ≡ 4 }
    ensures fits { tag < 2 ^ 32 }
{
    4
}
