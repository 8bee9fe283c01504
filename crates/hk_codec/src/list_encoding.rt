//! The lists of an entry as bytes.

ghost use Rattle.std.specs.Prelude.{◌≡◌, ◌≤◌, ◌+◌, ◌*◌, ◌∷◌, [], ◌++◌, All, length, map, take, drop, OnOk, OnErr, IfSome, MatchOption, true};
ghost use Rattle.std.specs.List.{flat_map};
ghost use Rattle.hk_log.specs.Items.{rise};
ghost use Rattle.hk_codec.specs.Lists as spec;

use crate::elements::Elements;
use crate::kept_lists::VERSION_1;
use hk_frames::put_u16;
use hk_types::Table;
use std::alloc::AllocError;

/// How many bytes the elements have beside their tables.
fn elements_len<E: Elements>(elements: &[E::Value]) -> u32
    requires { length elements.now ≤ 1024 }
    ensures len { result ≡ length (flat_map E.text elements.now) }
    ensures bound { result ≤ 4110 * length elements.now }
    ensures fits { All E.Fits elements.now }
{
    let mut total = 0;
    for element in elements {
        total += E::len_of(element);
    }
    total
}

/// How many elements at the front are of this table, up to the first of another.
fn run_of<E: Elements>(elements: &[E::Value], table: Table) -> usize
    ensures most { result ≤ length elements.now }
    ensures same { All (λ x. (E.place x).0 ≡ table) (take result elements.now) }
    ensures other { spec.StartsOther E.place table (drop result elements.now) }
{
    let mut count = 0;
    for element in elements {
        let (here, _key) = E::place_of(element);
        if here != table {
            return count;
        }
        count += 1;
    }
    count
}

/// The table of the first group, and how many elements it has.
fn first_group<E: Elements>(elements: &[E::Value]) -> Option<(Table, usize)>
    ensures { MatchOption result (length elements.now ≡ 0) (λ g. spec.IsFirstGroup E.place elements.now g.0 g.1) }
{
    match elements.first() {
        None => None,
        Some(element) => {
            let (table, _key) = E::place_of(element);
            Some((table, run_of::<E>(elements, table)))
        }
    }
}

/// How many groups the elements make.
fn group_count<E: Elements>(elements: &[E::Value]) -> usize
    requires { length elements.now ≤ 1024 }
    ensures count { result ≡ length (spec.groups_of E.place elements.now) }
    ensures most { result ≤ length elements.now }
{
    let mut groups = 0;
    let mut rest = elements;
    'groups: loop {
        match first_group::<E>(rest) {
            None => return groups,
            Some((_table, count)) => {
                let (_group, behind) = rest.split_at(count);
                rest = behind;
                groups += 1;
            }
        }
    }
}

/// The table of all the elements, where they are of one: that of the first and of the last, since they rise.
fn one_table<E: Elements>(elements: &[E::Value]) -> Option<Table>
    requires { rise (map E.place elements.now) ≡ true }
    ensures { IfSome result (λ table. spec.groups_of E.place elements.now ≡ (table, elements.now) ∷ []) }
{
    let (first, last) = (elements.first()?, elements.last()?);
    let (table, _key) = E::place_of(first);
    let (last_table, _key) = E::place_of(last);
    if table != last_table {
        return None;
    }
    Some(table)
}

/// How many bytes a list has as a version has it.
pub(crate) fn list_len<E: Elements>(version: u8, elements: &[E::Value]) -> u32
    requires most { length elements.now ≤ 1024 }
    requires rising { rise (map E.place elements.now) ≡ true }
    ensures len { result ≡ length (spec.list_text version E.place E.text elements.now) }
    ensures bound { result ≤ 2 + 4114 * length elements.now }
    ensures fits { All E.Fits elements.now }
{
    let beside = elements_len::<E>(elements);
    if version == VERSION_1 {
        return 2 + 2 * elements.len() as u32 + beside;
    }
    match one_table::<E>(elements) {
        Some(_table) => 6 + beside,
        None => 2 + 4 * group_count::<E>(elements) as u32 + beside,
    }
}

/// Adds the elements one by one behind their count.
#[tactic(auto, using(hk_frames::proofs::Put::all), unfolding(crate::specs::Lists::counted_text))]
fn put_counted<E: Elements>(out: &mut Vec<u8>, elements: &[E::Value]) -> Result<(), AllocError>
    requires { length elements.now ≤ 1024 }
    ensures ok { OnOk result (out.new.items ≡ out.old.items ++ spec.counted_text E.place E.text elements.now) }
    ensures kept { OnErr result (take (length out.old.items) out.new.items ≡ out.old.items) }
{
    put_u16(out, elements.len() as u16)?;
    for element in elements {
        put_tabled::<E>(out, element)?;
    }
    Ok(())
}

/// Adds an element behind its table.
#[tactic(auto, using(hk_frames::proofs::Put::all), unfolding(crate::specs::Lists::tabled_text))]
fn put_tabled<E: Elements>(out: &mut Vec<u8>, element: &E::Value) -> Result<(), AllocError>
    ensures ok { OnOk result (out.new.items ≡ out.old.items ++ spec.tabled_text E.place E.text element.now) }
    ensures kept { OnErr result (take (length out.old.items) out.new.items ≡ out.old.items) }
{
    let (table, _key) = E::place_of(element);
    put_u16(out, table.number())?;
    E::put(out, element)
}

/// Adds the elements without their tables.
#[tactic(auto, using(hk_frames::proofs::Put::all))]
fn put_elements<E: Elements>(out: &mut Vec<u8>, elements: &[E::Value]) -> Result<(), AllocError>
    ensures ok { OnOk result (out.new.items ≡ out.old.items ++ flat_map E.text elements.now) }
    ensures kept { OnErr result (take (length out.old.items) out.new.items ≡ out.old.items) }
{
    for element in elements {
        E::put(out, element)?;
    }
    Ok(())
}

/// Adds a group of this table.
#[tactic(auto, using(hk_frames::proofs::Put::all), unfolding(crate::specs::Lists::group_text))]
fn put_group<E: Elements>(
    out: &mut Vec<u8>,
    table: Table,
    elements: &[E::Value],
) -> Result<(), AllocError>
    requires { length elements.now ≤ 1024 }
    ensures ok { OnOk result (out.new.items ≡ out.old.items ++ spec.group_text E.text (table, elements.now)) }
    ensures kept { OnErr result (take (length out.old.items) out.new.items ≡ out.old.items) }
{
    put_u16(out, table.number())?;
    put_u16(out, elements.len() as u16)?;
    put_elements::<E>(out, elements)
}

/// Adds a group of this table behind a count of groups, which is one.
#[tactic(auto, using(hk_frames::proofs::Put::all), unfolding(crate::specs::Lists::group_text, hk_frames::specs::Fields::number))]
fn put_one_group<E: Elements>(
    out: &mut Vec<u8>,
    table: Table,
    elements: &[E::Value],
) -> Result<(), AllocError>
    requires { length elements.now ≤ 1024 }
    ensures ok { OnOk result (out.new.items ≡ out.old.items ++ spec.only_group_text E.text (table, elements.now)) }
    ensures kept { OnErr result (take (length out.old.items) out.new.items ≡ out.old.items) }
{
    let table = table.number().to_be_bytes();
    let count = (elements.len() as u16).to_be_bytes();
    out.extend_from_slice(&[0, 1, table[0], table[1], count[0], count[1]])?;
    put_elements::<E>(out, elements)
}

/// Adds the elements in groups behind the count of these.
#[tactic(auto, using(hk_frames::proofs::Put::all), unfolding(crate::specs::Lists::grouped_text))]
fn put_groups<E: Elements>(out: &mut Vec<u8>, elements: &[E::Value]) -> Result<(), AllocError>
    requires { length elements.now ≤ 1024 }
    ensures ok { OnOk result (out.new.items ≡ out.old.items ++ spec.grouped_text E.place E.text elements.now) }
    ensures kept { OnErr result (take (length out.old.items) out.new.items ≡ out.old.items) }
{
    put_u16(out, group_count::<E>(elements) as u16)?;
    let mut rest = elements;
    'groups: loop {
        match first_group::<E>(rest) {
            None => return Ok(()),
            Some((table, count)) => {
                let (group, behind) = rest.split_at(count);
                put_group::<E>(out, table, group)?;
                rest = behind;
            }
        }
    }
}

/// Adds a list as a version has it.
#[tactic(auto, unfolding(crate::specs::Lists::list_text))]
pub(crate) fn put_list<E: Elements>(
    out: &mut Vec<u8>,
    version: u8,
    elements: &[E::Value],
) -> Result<(), AllocError>
    requires most { length elements.now ≤ 1024 }
    requires rising { rise (map E.place elements.now) ≡ true }
    ensures ok { OnOk result (out.new.items ≡ out.old.items ++ spec.list_text version E.place E.text elements.now) }
    ensures kept { OnErr result (take (length out.old.items) out.new.items ≡ out.old.items) }
{
    if version == VERSION_1 {
        return put_counted::<E>(out, elements);
    }
    match one_table::<E>(elements) {
        Some(table) => put_one_group::<E>(out, table, elements),
        None => put_groups::<E>(out, elements),
    }
}
