//! Refusals in JSON.

ghost use Rattle.std.specs.Prelude.{◌≡◌, ◌++◌, Some, OnOk};
ghost use Rattle.std.specs.String.{string_bytes};
ghost use Rattle.hk_types.specs.declared.faults.Refusal.TheVariants.{Gap, WriteConflict, Held};
ghost use Rattle.hk_cli_json.specs.Refusals as spec;

use crate::line::InJson;
use hk_types::{Key, Refusal, Table, Time};
use std::alloc::{AllocError, Global};

/// Adds the number of a refusal.
#[tactic(auto, using(std::proofs::Common::append_assoc), unfolding(crate::specs::Refusals::refused_part))]
fn put_refused(number: u8, out: &mut String) -> Result<(), AllocError>
    ensures { OnOk result (string_bytes out.new ≡ string_bytes out.old ++ spec.refused_part number) }
{
    write!(out, "{{\"refused\":{number}")
}

/// Adds a field that is a time.
fn put_time(name: &str, time: Time, out: &mut String) -> Result<(), AllocError>
    ensures { OnOk result (string_bytes out.new ≡ string_bytes out.old ++ spec.further name.now time) }
{
    write!(out, ",\"{name}\":\"{time}\"")
}

/// Adds a field that is a number of 64 bits.
fn put_number(name: &str, number: u64, out: &mut String) -> Result<(), AllocError>
    ensures { OnOk result (string_bytes out.new ≡ string_bytes out.old ++ spec.further name.now number) }
{
    write!(out, ",\"{name}\":\"{number}\"")
}

/// Adds which row it is of.
fn put_place(table: Table, key: Key, out: &mut String) -> Result<(), AllocError>
    ensures { OnOk result (string_bytes out.new ≡ string_bytes out.old ++ spec.further_place table key) }
{
    write!(out, ",\"table\":{table},\"key\":\"{key}\"")
}

fn put_gap(base: Time, readable: Time, out: &mut String) -> Result<(), AllocError>
    ensures { OnOk result (string_bytes out.new ≡ string_bytes out.old ++ spec.fields_of (Gap base readable)) }
{
    put_time("base", base, out)?;
    put_time("readable", readable, out)
}

fn put_write_conflict(table: Table, key: Key, at: Time, out: &mut String) -> Result<(), AllocError>
    ensures { OnOk result (string_bytes out.new ≡ string_bytes out.old ++ spec.fields_of (WriteConflict table key at)) }
{
    put_place(table, key, out)?;
    put_time("at", at, out)
}

fn put_held(reader: u64, at: Time, out: &mut String) -> Result<(), AllocError>
    ensures { OnOk result (string_bytes out.new ≡ string_bytes out.old ++ spec.fields_of (Held reader at)) }
{
    put_time("at", at, out)?;
    put_number("reader", reader, out)
}

/// Adds the fields of a refusal that has no times.
fn put_plain(refusal: &Refusal, out: &mut String) -> Result<(), AllocError>
    ensures { OnOk result (string_bytes out.new ≡ string_bytes out.old ++ spec.plain_fields refusal.now) }
{
    match refusal {
        Refusal::NoRow { table, key } => put_place(*table, *key, out),
        Refusal::Retired { stream } => write!(out, ",\"stream\":{stream}"),
        Refusal::Unpublished { ops } => put_number("ops", *ops, out),
        Refusal::LinkFull { most } => put_number("most", *most, out),
        _other => Ok(()),
    }
}

/// Adds the fields of a refusal, by the names that its line has.
fn put_fields(refusal: &Refusal, out: &mut String) -> Result<(), AllocError>
    ensures { OnOk result (string_bytes out.new ≡ string_bytes out.old ++ spec.fields_of refusal.now) }
{
    match refusal {
        Refusal::Gap { base, readable } => put_gap(*base, *readable, out),
        Refusal::AheadOfMark { readable } | Refusal::NotYet { readable } => {
            put_time("readable", *readable, out)
        }
        Refusal::TooOld { horizon } => put_time("horizon", *horizon, out),
        Refusal::WriteConflict { table, key, at } => put_write_conflict(*table, *key, *at, out),
        Refusal::Held { reader, at } => put_held(*reader, *at, out),
        other => put_plain(other, out),
    }
}

impl InJson for Refusal {
    ghost json = { λ why. Some (spec.refusal_line why) };

    #[tactic(auto, using(std::proofs::Common::append_assoc))]
    fn json_to(&self, _alloc: Global, out: &mut String) -> Result<(), AllocError> {
        put_refused(self.number(), out)?;
        put_fields(self, out)?;
        out.push_str("}\n")
    }
}
