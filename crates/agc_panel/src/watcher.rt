//! The watcher: prints the Executive's tables from erasable memory.
ghost use Rattle.std.specs.Prelude.{◌≡◌, IfOk, IfSome, IsOkUnless, string_bytes};
ghost use Rattle.agc_panel.specs.WatchSpec.{watch_fault_of};
ghost use Rattle.agc_panel.specs.Watcher.{watch_text};

use crate::tables::Tables;
use crate::watch_spec::{WatchFault, WatchSpec};
use agc_store::Store;
use std::alloc::Global;

/// Prints the tables: a line for each core set, the line of LST1 and the nine of LST2, each ended
/// by a line feed. If the places have a fault, returns it before allocating any memory.
#[tactic(auto, unfolding(crate::specs::Watcher::watch_text))]
pub fn watch(alloc: Global, store: &Store, spec: &WatchSpec) -> Result<String, WatchFault>
    ensures text { IfOk result (λ text. string_bytes text ≡ watch_text store.now spec.now) }
    ensures fault { IfSome (watch_fault_of spec.now) (λ fault. result ≡ Err fault) }
    ensures memory { watch_fault_of spec.now ≡ None → IsOkUnless result WatchFault.Memory }
{
    let spec = spec.checked()?;
    let text = Tables::read(store, &spec).text(alloc)?;
    Ok(text)
}
