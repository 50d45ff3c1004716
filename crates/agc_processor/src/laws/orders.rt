//! Laws of every order.
ghost use Rattle.std.specs.Prelude.{◌≡◌, ℕ, true};
ghost use Rattle.agc_order.specs.declared.order.Basic.{Basic};
ghost use Rattle.agc_order.specs.declared.order.Extracode.{Extracode};
ghost use Rattle.agc_processor.specs.declared.processor.Processor.{Processor};
ghost use Rattle.agc_processor.specs.Effect.{basic_effect, extracode_effect, order_effect};
ghost use Rattle.agc_processor.specs.Idle.{KeepsStill, context_of, is_still, rest_of};
ghost use Rattle.agc_processor.specs.Leaves.{Leaves, extends, holds_off};
ghost use Rattle.agc_processor.specs.Row.{ChangesItsRow};
ghost use Rattle.agc_processor.specs.Table.{basic_row, extracode_row, inhibited_after, serving_after, KeepsFlags};

/// An order changes Z and what its row of the table names, and nothing else: every other register,
/// cell and channel, the fixed words, the requests and the timers stay.
pub fn orders_change_their_row()
    ensures basic { (order : Basic) (p : Processor) → ChangesItsRow (basic_row order) p (basic_effect order p).0 }
    ensures extracode { (order : Extracode) (cycle : ℕ) (p : Processor) → ChangesItsRow (extracode_row order) p (extracode_effect order cycle p).0 }
{}

/// Only INHINT and RELINT change whether inhibition is in force, and only RESUME ends a service.
pub fn three_orders_change_the_flags()
    ensures inhibited { (order : Basic) (p : Processor) → (basic_effect order p).0.inhibited ≡ inhibited_after order p.inhibited }
    ensures serving { (order : Basic) (p : Processor) → (basic_effect order p).0.serving ≡ serving_after order p.serving }
    ensures extracode { (order : Extracode) (cycle : ℕ) (p : Processor) → KeepsFlags p (extracode_effect order cycle p).0 }
{}

/// EXTEND lasts one order: after an order the extracode state is on if the order was EXTEND or the extracode INDEX, and
/// off otherwise. EXTEND and both INDEX orders hold interrupts off before the next order; no other order does.
pub fn extend_lasts_one_order()
    ensures { (cycle : ℕ) (p : Processor) → Leaves (extends p) (holds_off p) (order_effect cycle p) }
{}

/// No order changes the fixed words.
pub fn orders_keep_the_fixed_words()
    ensures { (cycle : ℕ) (p : Processor) → (order_effect cycle p).0.store.fixed ≡ p.store.fixed }
{}

/// A still order shows nothing outside, leaves all but the context, and does the same at every cycle. A processor is its
/// context and the rest: two that agree in both are the same.
pub fn still_orders_leave_the_rest()
    ensures keeps { (p : Processor) → is_still p ≡ true → KeepsStill p }
    ensures whole { (p q : Processor) → context_of p ≡ context_of q → rest_of p ≡ rest_of q → p ≡ q }
{}
