//! The order that the word in hand names, decoded once for everything that a profile needs.
ghost use Rattle.std.specs.Prelude.{◌≡◌};
ghost use Rattle.agc_profile.specs.DataReads.{order_reads};
ghost use Rattle.agc_profile.specs.Context.{mode_past};

use crate::context::Context;
use crate::data::{basic_reads, extracode_reads};
use agc_order::{Basic, Extracode, Takes};

/// An order of either kind.
#[derive(Clone, Copy, Debug, PartialEq, Eq)]
pub enum Opcode {
    Basic(Basic),
    Extracode(Extracode),
}

/// Returns what an order reads.
#[inline(always)]
pub(crate) fn order_reads(order: Opcode) -> Takes
    ensures { result ≡ order_reads order }
{
    match order {
        Opcode::Basic(order) => basic_reads(order),
        Opcode::Extracode(order) => extracode_reads(order),
    }
}

/// Returns the context of the next boundary after an order.
#[inline(always)]
pub(crate) fn mode_past(order: Opcode, mode: Context) -> Context
    ensures { result ≡ mode_past order mode }
{
    match order {
        Opcode::Basic(order) => mode_past_basic(order, mode),
        Opcode::Extracode(_) => mode,
    }
}

/// Returns the same after a basic order.
#[inline(always)]
fn mode_past_basic(order: Basic, mode: Context) -> Context
    ensures { result ≡ mode_past (Opcode.Basic order) mode }
{
    if order == Basic::Resume {
        Context {
            service: None,
            inhibited: mode.inhibited,
        }
    } else if order == Basic::Inhint || order == Basic::Relint {
        Context {
            service: mode.service,
            inhibited: order == Basic::Inhint,
        }
    } else {
        mode
    }
}
