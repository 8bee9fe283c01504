//! A run of a world; what worlds return step by step is shown by scripts (examples/world, tests/scripts).

use crate::tests::values::stream;
use hk_laws::run;
use hk_model::{Event, Told, Took};
use hk_types::Config;
use std::alloc::Global;
use std::test::Fail;

/// What a world of log 7 with one stream and one replica returns for a mark, and for its absorption.
fn told(alloc: Global) -> Result<Vec<Told>, Fail> {
    let (config, stream) = (Config::new(7, 1)?, stream(1)?);
    let mut events = Vec::new(alloc);
    events.push(Event::MarkOf { stream })?;
    events.push(Event::Absorb {
        replica: 1,
        item: 1,
    })?;
    Ok(run(alloc, config, 1, events)?)
}

#[test]
fn a_run_of_two_events(rt: HostRuntime) -> Result<(), Fail> {
    let told = told(rt.alloc())?;
    assert!(rt;
        matches!(
            told.as_slice(),
            [Told::Marked(_), Told::Took(Took::Repeated)]
        )
    );
    Ok(())
}
