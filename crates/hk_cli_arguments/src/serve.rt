//! The call of `serve`.

use crate::calls::{config_of, has_flag, is_second, port_of, u16_of, u64_of};
use clap::ArgMatches;
use hk_cli_calls::Call;
use hk_types::Links;

/// How many bytes all connections keep for messages of version 2 by default.
const PARTS_BYTES: u64 = 1_073_741_824;

/// How many bytes all connections keep for messages of version 2, where these are answered.
fn parts_bytes_of(matches: &ArgMatches<'_>) -> Option<u64> {
    if !is_second(matches) {
        return None;
    }
    Some(u64_of(matches, "link-bytes").unwrap_or(PARTS_BYTES))
}

/// How many connections are served.
fn links_of(matches: &ArgMatches<'_>) -> Option<Links> {
    Links::new(u16_of(matches, "links")?)
}

/// The call that `serve` makes, where each argument is in its range.
pub(crate) fn serve_call<'a>(matches: &ArgMatches<'a>) -> Option<Call<'a>> {
    Some(Call::Serve {
        config: config_of(matches)?,
        port: port_of(matches)?,
        links: links_of(matches)?,
        is_guarded: has_flag(matches, "guard"),
        parts_bytes: parts_bytes_of(matches),
    })
}
