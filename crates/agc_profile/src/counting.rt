//! Counts the boundaries of a run one after another, so that memory use does not grow with the run.
ghost use Rattle.std.specs.Prelude.{◌≡◌, ◌+◌, ◌<◌, ◌≤◌, ◌^◌, IfOk, OnOk, false, not, true};
ghost use Rattle.agc_machine.specs.Boundary.{boundary, upcoming_of};
ghost use Rattle.agc_listing.specs.Location.{location_at};
ghost use Rattle.agc_trace.specs.Trace.{entries_left, is_stop};
ghost use Rattle.agc_profile.specs.Profile.{count_of, counted_in};
ghost use Rattle.agc_profile.specs.DataReads.{data_of};
ghost use Rattle.agc_profile.specs.Laws.{OrdersAddUp};
ghost use Rattle.agc_profile.specs.Context.{mode_after};
ghost use Rattle.agc_profile.specs.Opcode.{named_of};
ghost use Rattle.agc_profile.specs.Step.{HasTally, IsPlaced, RunsAs, is_order, passage_of, steps_in};
ghost use Rattle.agc_profile.specs.Sums.{AddsUp};

use crate::context::{Context, mode_after_other};
use crate::data::{DataReads, data_read, place_in_hand};
use crate::opcode::{Opcode, mode_past, order_reads};
use crate::profile::Profile;
use crate::step::{has_tally, next_passage};
use agc_io::{Progress, report_at};
use agc_listing::Location;
use agc_machine::{InHand, Machine, Upcoming};
use agc_order::{Basic, Extracode, Takes};
use agc_trace::Span;
use std::alloc::{AllocError, Global};

/// Runs a machine from the start of its run to its stop, or past a span of cycles, and counts the boundaries that begin
/// in the span. Fails if out of memory.
pub fn count<P: Progress>(
    alloc: Global,
    machine: &mut Machine,
    span: Span,
    progress: &mut P,
) -> Result<Profile, AllocError>
    requires fresh { machine.old.begun ≡ false }
    ensures counts { IfOk result (λ counts. counts ≡ count_of (steps_in span machine.old)) }
    ensures rope { OnOk result
        (machine.new.processor.store.fixed ≡ machine.old.processor.store.fixed) }
    ensures law { IfOk result OrdersAddUp }
{
    let mut counts = Profile::none(alloc)?;
    let mut mode = Context::at_start();
    let mut mark = 0;
    has_room(machine);
    while machine.cycle() <= span.to {
        let cycle = machine.cycle();
        let goes_on = take_next(&mut counts, machine, span, &mut mode)?;
        if !goes_on {
            return Ok(counts);
        }
        mark = report_at(mark, cycle, progress);
    }
    Ok(counts)
}

/// Proves that the number of boundaries left in a run fits in 64 bits. It does nothing: its lines give the prover what
/// a machine guarantees about its cycles, and how long a list of events can be.
#[inline]
#[tactic(auto, using(crate::proofs::Room::few_left))]
fn has_room(machine: &Machine)
    ensures { entries_left machine.now < 2 ^ 64 }
{
    let _limit_is_kept = machine.wants_key();
    let _has_a_length = machine.events_left().len() + 1_000_000_000_002;
}

/// Takes one boundary of a machine, and counts it if it is not the stop and begins in a span of cycles. Returns whether
/// the run continues. Fails if a number overflows.
#[inline(always)]
fn take_next(
    counts: &mut Profile,
    machine: &mut Machine,
    span: Span,
    mode: &mut Context,
) -> Result<bool, AllocError>
    requires sums { AddsUp counts.old }
    requires times { counts.old.orders.times + 1 < 2 ^ 64 }
    requires room { counts.old.orders.cycles ≤ machine.old.cycle }
    ensures after { machine.new ≡ (boundary None machine.old).0 }
    ensures placed { IsPlaced (upcoming_of machine.old) }
    ensures goes_on { IfOk result (λ goes_on. is_stop (upcoming_of machine.old) ≡ not goes_on) }
    ensures stop { OnOk result (is_stop (upcoming_of machine.old) ≡ true → counts.new ≡ counts.old) }
    ensures counts { OnOk result (is_stop (upcoming_of machine.old) ≡ false
        → counts.new ≡ counted_in span (passage_of mode.old machine.old) counts.old) }
    ensures mode { OnOk result (mode.new ≡ mode_after (upcoming_of machine.old) mode.old) }
{
    let happening = machine.upcoming();
    has_tally(&happening);
    match &happening {
        Upcoming::Order(order) => take_order(counts, machine, span, mode, &happening, order)?,
        Upcoming::Stop(_) => {
            stop(machine);
            return Ok(false);
        }
        Upcoming::Event(_) | Upcoming::Timer(_) | Upcoming::Interrupt(_) => take_other(
            counts, machine, span, mode, &happening,
        )?,
    }
    Ok(true)
}

/// Takes the stop.
fn stop(machine: &mut Machine)
    ensures { machine.new ≡ (boundary None machine.old).0 }
{
    machine.step(None);
}

/// Takes a boundary that is neither an order nor the stop, and counts it.
#[inline(always)]
fn take_other(
    counts: &mut Profile,
    machine: &mut Machine,
    span: Span,
    mode: &mut Context,
    happening: &Upcoming,
) -> Result<(), AllocError>
    requires reported { happening.now ≡ upcoming_of machine.old }
    requires other { is_order happening.now ≡ false }
    ensures after { machine.new ≡ (boundary None machine.old).0 }
    ensures counts { OnOk result
        (counts.new ≡ counted_in span (passage_of mode.old machine.old) counts.old) }
    ensures mode { OnOk result (mode.new ≡ mode_after happening.now mode.old) }
{
    let passage = next_passage(machine, *mode, happening, DataReads::none());
    counts.take_in(span, &passage)?;
    *mode = mode_after_other(happening, *mode);
    Ok(())
}

/// Takes the order in hand, and counts it. Both branches contain everything after the decode, so that the test for an
/// extracode is made only once.
#[inline(always)]
fn take_order(
    counts: &mut Profile,
    machine: &mut Machine,
    span: Span,
    mode: &mut Context,
    happening: &Upcoming,
    order: &InHand,
) -> Result<(), AllocError>
    requires reported { happening.now ≡ upcoming_of machine.old }
    requires order { happening.now ≡ Upcoming.Order order.now }
    requires tally { HasTally (location_at order.now.bank order.now.address) }
    requires sums { AddsUp counts.old }
    requires times { counts.old.orders.times + 1 < 2 ^ 64 }
    requires room { counts.old.orders.cycles ≤ machine.old.cycle }
    ensures after { machine.new ≡ (boundary None machine.old).0 }
    ensures counts { OnOk result
        (counts.new ≡ counted_in span (passage_of mode.old machine.old) counts.old) }
    ensures mode { OnOk result (mode.new ≡ mode_after happening.now mode.old) }
{
    let place = place_in_hand(machine.store());
    if order.extracode {
        let named = Opcode::Extracode(Extracode::named_by(order.word));
        take_named(counts, machine, span, mode, happening, order, place, named)
    } else {
        let named = Opcode::Basic(Basic::named_by(order.word));
        take_named(counts, machine, span, mode, happening, order, place, named)
    }
}

/// Takes the order in hand, whose place and opcode are known, and counts it. If it reads no data, none has to be found
/// and kept while it runs.
#[inline(always)]
fn take_named(
    counts: &mut Profile,
    machine: &mut Machine,
    span: Span,
    mode: &mut Context,
    happening: &Upcoming,
    order: &InHand,
    place: Location,
    named: Opcode,
) -> Result<(), AllocError>
    requires reported { happening.now ≡ upcoming_of machine.old }
    requires order { happening.now ≡ Upcoming.Order order.now }
    requires place { place ≡ location_at order.now.bank order.now.address }
    requires named { named ≡ named_of order.now }
    requires tally { HasTally place }
    requires sums { AddsUp counts.old }
    requires times { counts.old.orders.times + 1 < 2 ^ 64 }
    requires room { counts.old.orders.cycles ≤ machine.old.cycle }
    ensures after { machine.new ≡ (boundary None machine.old).0 }
    ensures counts { OnOk result
        (counts.new ≡ counted_in span (passage_of mode.old machine.old) counts.old) }
    ensures mode { OnOk result (mode.new ≡ mode_after happening.now mode.old) }
{
    match order_reads(named) {
        Takes::Nothing | Takes::Fixed | Takes::Channel => take_reading(
            counts,
            machine,
            span,
            *mode,
            happening,
            place,
            named,
            DataReads::none(),
        )?,
        reads => {
            let words = data_read(reads, order.word, machine.store());
            take_reading(counts, machine, span, *mode, happening, place, named, words)?;
        }
    }
    *mode = mode_past(named, *mode);
    Ok(())
}

/// Takes the order in hand, which reads these words as data, and counts it.
#[inline(always)]
fn take_reading(
    counts: &mut Profile,
    machine: &mut Machine,
    span: Span,
    mode: Context,
    happening: &Upcoming,
    place: Location,
    named: Opcode,
    words: DataReads,
) -> Result<(), AllocError>
    requires reported { happening.now ≡ upcoming_of machine.old }
    requires runs { RunsAs place named happening.now }
    requires words { words ≡ data_of happening.now machine.old.processor.store }
    requires tally { HasTally place }
    requires sums { AddsUp counts.old }
    requires times { counts.old.orders.times + 1 < 2 ^ 64 }
    requires room { counts.old.orders.cycles ≤ machine.old.cycle }
    ensures after { machine.new ≡ (boundary None machine.old).0 }
    ensures counts { OnOk result
        (counts.new ≡ counted_in span (passage_of mode machine.old) counts.old) }
{
    let passage = next_passage(machine, mode, happening, words);
    counts.take_order_in(span, &passage, place, named)
}
