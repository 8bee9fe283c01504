//! The fragment of a list of items, by several workers.

ghost use Rattle.std.specs.Prelude.{◌≡◌, ⊤, ◌+◌, ℕ, ◌≤◌, ◌<◌, length, IfOk};
ghost use Rattle.hk_batch.specs.Pieces.{AreGathered, piece_of};
ghost use Rattle.hk_delta.specs.Gathers.{Gathers, GathersOf};
ghost use Rattle.hk_delta.specs.Unions.{IsGathered};

use hk_delta::{fragment_of, union};
use hk_fragment::Fragment;
use hk_log::Item;
use hk_types::{Config, Refusal};
use std::alloc::Global;
use std::thread;
use std::thread::Threads;

/// What each worker passes before it begins.
pub trait Gate {
    ghost use Rattle.std.specs.Prelude.{ℕ};

    /// True of a gate and the number of a worker that it let in. Each gate defines for itself what it means.
    ghost passed: { Self → ℕ → Type 0 };

    /// Lets a worker in, the first being 1. A worker begins once its call returns.
    fn enter(&self, worker: usize)
        ensures { passed self.now worker };
}

/// A gate that lets each worker in at once.
#[derive(Debug, Clone, Copy)]
pub struct OpenGate;

impl Gate for OpenGate {
    ghost passed = { λ _ _. ⊤ };

    fn enter(&self, _worker: usize)
        ensures { ⊤ }
    {}
}

/// Piece `n` of the list, from 0, where each piece but the last ones has `size` items.
fn piece(items: &[Item], size: usize, n: usize) -> &[Item]
    ensures { result.now ≡ piece_of items.now size n }
{
    let start = n.saturating_mul(size).min(items.len());
    let rest = &items[start..];
    &rest[..size.min(rest.len())]
}

/// The fragment of a piece of the list.
fn gather(alloc: Global, config: Config, items: &[Item]) -> Result<Fragment, Refusal>
    ensures { IfOk result (IsGathered config items.now) }
{
    match fragment_of(alloc, config, items) {
        Ok(fragment) => Ok(fragment),
        Err(why) => Err(why),
    }
}

/// The fragment of each piece, by a worker each, which passes the gate before it.
fn fragments<R: Threads + Sync, G: Gate + Sync>(
    rt: &R,
    alloc: Global,
    config: Config,
    items: &[Item],
    size: usize,
    workers: usize,
    gate: &G,
) -> Result<Vec<Result<Fragment, Refusal>>, Refusal>
    requires { workers ≤ 16 }
    ensures len { IfOk result (λ v. length v.items ≡ workers) }
    ensures each { IfOk result (λ v. AreGathered config items.now size workers v.items) }
    ensures passed { IfOk result (λ _. (n : ℕ) → n < workers → G.passed gate.now (n + 1)) }
{
    let parts = thread::map_indices(
        rt,
        alloc,
        workers,
        &|n: usize| -> Result<Fragment, Refusal>
            requires { n < 16 }
            ensures gathered { IfOk result (IsGathered config (piece_of items.entry.now size n)) }
            ensures passed { G.passed gate.entry.now (n + 1) }
        {
            gate.enter(n + 1);
            gather(alloc, config, piece(items, size, n))
        },
    )?;
    Ok(parts)
}

/// The fragment of the list, by a worker for each piece. The pieces are joined from the first to the last.
fn union_of_pieces<R: Threads + Sync, G: Gate + Sync>(
    rt: &R,
    alloc: Global,
    config: Config,
    items: &[Item],
    workers: usize,
    gate: &G,
) -> Result<Fragment, Refusal>
    requires some { 1 ≤ workers }
    requires few { workers ≤ 16 }
    ensures { IfOk result (IsGathered config items.now) }
{
    let size = items.len().div_ceil(workers);
    let mut parts = fragments(rt, alloc, config, items, size, workers, gate)?;
    let mut whole = parts.remove(0)?;
    for part in parts {
        union(&mut whole, &part?)?;
    }
    Ok(whole)
}

/// The fragment of items, as `fragment_of` returns it, made by so many workers, 1 to 16.
///
/// The list is cut into as many pieces of neighbours, some perhaps empty. The workers run side by side, each in a
/// thread of its own where one can be made; each passes the gate with its number, the first being 1, and gathers its
/// piece, and the pieces are joined from the first to the last. It joins its workers, so it waits for them and for
/// the gate: its result is promised if it returns.
///
/// The result and the refusals are those of `fragment_of`, in its order, for every number of workers: where the
/// workers find no fragment, or no memory, the whole list is gathered once more by this thread alone, and its answer
/// is the answer. So `Memory` comes only where the items have a fragment.
///
/// Cost: O((n · log n + b) / w) for each worker, w workers, n items, rows and ends, b bytes of bodies, and
/// O(w · n + n · log n + b) for joining their pieces; the rows of all pieces but the first are copied once more. Where
/// the list is gathered once more, that of `fragment_of` too. While the pieces are joined, they and the fragment are
/// in memory together: about twice the fragment, and at most what `fragment_of` uses for all pieces at once.
pub fn build<R: Threads + Sync, G: Gate + Sync>(
    rt: &R,
    alloc: Global,
    config: Config,
    items: &[Item],
    workers: usize,
    gate: &G,
) -> Result<Fragment, Refusal>
    requires some { 1 ≤ workers }
    requires few { workers ≤ 16 }
    ensures gives { Gathers config items.now result }
    ensures represents { GathersOf config items.now result }
{
    match union_of_pieces(rt, alloc, config, items, workers, gate) {
        Ok(fragment) => Ok(fragment),
        Err(_why) => fragment_of(alloc, config, items),
    }
}
