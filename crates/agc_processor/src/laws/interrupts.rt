//! Laws of every interrupt.
ghost use Rattle.std.specs.Prelude.{◌≡◌, ◌<◌, length, false, Some, None};
ghost use Rattle.agc_store.specs.Places.{erasable_cells};
ghost use Rattle.agc_processor.specs.declared.interrupt.Rupt.{Rupt};
ghost use Rattle.agc_processor.specs.declared.processor.Processor.{Processor};
ghost use Rattle.agc_processor.specs.Basic.{resume_of};
ghost use Rattle.agc_processor.specs.Interrupt.{interrupted, pending};
ghost use Rattle.agc_processor.specs.Processor.{◌▷◌, set_hand, serve, jump, z_at};
ghost use Rattle.agc_processor.specs.Requests.{ComesFirst, HoldsNoneOff, is_waiting};
ghost use Rattle.agc_processor.specs.Service.{KeepsRupt};

/// RESUME returns from an interrupt whose service has kept ZRUPT and BRUPT: the order in hand is
/// the interrupted one, no interrupt is being served, and Z is as it was.
pub fn resume_comes_back()
    ensures { (rupt : Rupt) (p q : Processor) → length p.store.erasable ≡ erasable_cells → p.hand.magnitude < 0o40000
        → KeepsRupt (interrupted rupt p) q
        → resume_of q ≡ (q ▷ set_hand p.hand ▷ serve false ▷ jump (z_at p)) }
{}

/// The interrupt that is taken is requested, and no requested one has a lower vector. It is taken when nothing holds
/// interrupts off; if nothing does and none is taken, none is requested.
pub fn the_lowest_vector_comes_first()
    ensures first { (rupt : Rupt) (p : Processor) → length p.requests ≡ 10 → pending p ≡ Some rupt → ComesFirst rupt p }
    ensures held { (rupt : Rupt) (p : Processor) → pending p ≡ Some rupt → HoldsNoneOff p }
    ensures none { (rupt : Rupt) (p : Processor) → HoldsNoneOff p → pending p ≡ None → is_waiting rupt p ≡ false }
{}
