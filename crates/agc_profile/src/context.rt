//! The context in which a boundary begins: the interrupt being served, and whether INHINT is in force.
ghost use Rattle.std.specs.Prelude.{◌≡◌, false};
ghost use Rattle.agc_profile.specs.Context.{mode_after};
ghost use Rattle.agc_profile.specs.Step.{is_order};

use agc_machine::Upcoming;
use agc_processor::Rupt;

/// The context in which a boundary begins.
#[derive(Clone, Copy, Debug, PartialEq, Eq)]
pub struct Context {
    /// The interrupt being served, from its entry to its RESUME.
    pub service: Option<Rupt>,
    /// Whether INHINT is in force, up to the next RELINT.
    pub inhibited: bool,
}

impl Context {
    ghost use Rattle.std.specs.Prelude.{◌≡◌};
    ghost use Rattle.agc_profile.specs.Context.{at_start};

    /// Returns the context in which a run begins: no interrupt is served, and interrupts are allowed.
    pub(crate) fn at_start() -> Context
        ensures { result ≡ at_start }
    {
        Context {
            service: None,
            inhibited: false,
        }
    }
}

/// Returns the context of the next boundary after one that is not an order: an interrupt begins a service.
pub(crate) fn mode_after_other(happening: &Upcoming, mode: Context) -> Context
    requires { is_order happening.now ≡ false }
    ensures { result ≡ mode_after happening.now mode }
{
    match happening {
        Upcoming::Interrupt(rupt) => Context {
            service: Some(*rupt),
            inhibited: mode.inhibited,
        },
        Upcoming::Stop(_) | Upcoming::Event(_) | Upcoming::Timer(_) | Upcoming::Order(_) => mode,
    }
}
