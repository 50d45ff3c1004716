//! The laws of `--until` and of a listing's operands, each the contract of a function that does nothing.
ghost use Rattle.std.specs.Prelude.{◌≡◌, ℕ, Some};
ghost use Rattle.agc_store.specs.Memory.{Memory};
ghost use Rattle.agc_machine.specs.StopAddress.{stop_address_of};
ghost use Rattle.agc_listing.specs.Place.{place_text};
ghost use Rattle.agc_listing.specs.Location.{IsWithin, location_in};
ghost use Rattle.agc_listing.specs.declared.location.Location.{Location};
ghost use Rattle.agc_listing.specs.SureLocation.{sure_location};
ghost use Rattle.agc_study_args.specs.NamedList.{RunsAt};
ghost use Rattle.agc_study_args.specs.Until.{StopsAt, stop_place};

/// The text that replaces a symbolic `--until` reads as a stop address at which the order at that location runs.
#[tactic(auto, using(crate::proofs::StopRead::stop_read))]
pub fn a_run_stops_at_the_resolved_location()
    ensures { (at : Location) → IsWithin at → StopsAt at (stop_address_of (place_text (stop_place at))) }
{}

/// The place whose name a listing shows as an operand is the one that the order addresses, whatever the banks are when it
/// runs.
pub fn a_listed_operand_is_addressed()
    ensures { (m : Memory) (place address : ℕ) (at : Location) → RunsAt m place
        → sure_location place address ≡ Some at → location_in m address ≡ at }
{}
