//! The numbers of a node, as a reply has them.

ghost use Rattle.std.specs.Prelude.{◌≡◌, ◌++◌, ◌∷◌, [], IfOk, OnOk};
ghost use mathlib.Core.List.{IsPrefix};
ghost use Rattle.hk_link_state.specs.NodeNumbers.{metric_of, sizes_metrics};

use hk_answers::{Metric, metric_names as names};
use hk_meters::Meters;
use hk_oplog::NodeSizes;
use std::alloc::{AllocError, Global};

/// Adds a metric that has no label.
fn put(out: &mut Vec<Metric>, name: u16, value: u64) -> Result<(), AllocError>
    ensures { OnOk result (out.new.items ≡ out.old.items ++ metric_of name value ∷ []) }
{
    out.push(Metric {
        name,
        label: 0,
        value,
    })?;
    Ok(())
}

/// The numbers of what the node holds and did, by rising names.
fn metrics_of(alloc: Global, sizes: &NodeSizes) -> Result<Vec<Metric>, AllocError>
    ensures { IfOk result (λ metrics. metrics.items ≡ sizes_metrics sizes.now) }
{
    let mut metrics = Vec::new(alloc);
    put(&mut metrics, names::ROWS, sizes.rows)?;
    put(&mut metrics, names::ENDS, sizes.ends)?;
    put(&mut metrics, names::BODY_BYTES, sizes.bytes)?;
    put(&mut metrics, names::OPERATIONS, sizes.operations)?;
    put(&mut metrics, names::GUARDED, u64::from(sizes.guarded))?;
    put(&mut metrics, names::FAILED, u64::from(sizes.damaged))?;
    put(&mut metrics, names::PINS, sizes.pins)?;
    Ok(metrics)
}

/// The numbers of what the node holds and did, and behind them what is counted of its connections, where it is.
pub(crate) fn all_metrics(
    alloc: Global,
    sizes: &NodeSizes,
    meters: Option<&Meters<'_>>,
) -> Result<Vec<Metric>, AllocError>
    ensures { IfOk result (λ metrics. IsPrefix (sizes_metrics sizes.now) metrics.items) }
{
    let mut metrics = metrics_of(alloc, sizes)?;
    if let Some(meters) = meters {
        let mut others = meters.collect(alloc)?;
        metrics.append(&mut others)?;
    }
    Ok(metrics)
}
