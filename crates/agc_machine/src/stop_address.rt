//! The address at which a run stops, and its text form.
ghost use Rattle.std.specs.Prelude.{◌≡◌};
ghost use Rattle.agc_machine.specs.StopAddress.{place_in_range, stop_address_of};

use agc_store::Addr;
use agc_word::read_octal;

/// An address at which a run stops when its order comes into hand.
#[derive(Clone, Copy, Debug, PartialEq, Eq)]
pub struct StopAddress {
    /// 0 to 47 octal: for 1400 to 1777 the erasable bank, for 2000 to 3777 the fixed bank, with the
    /// superbank's ten added; for other addresses it is ignored.
    pub bank: u8,
    pub address: Addr,
}

impl StopAddress {
    /// Parses `BANK,ADDR`: two octal numbers of one to six digits, at most 47 and 7777 octal.
    /// Returns `None` for any other text.
    pub fn read(text: &str) -> Option<StopAddress>
        ensures { result ≡ stop_address_of text.now }
    {
        match text.split_once(',') {
            Some((bank, address)) => in_range(
                read_octal(6, bank.as_bytes()),
                read_octal(6, address.as_bytes()),
            ),
            None => None,
        }
    }
}

/// Returns the stop address with these two numbers, if both are present and in range.
fn in_range(bank: Option<u64>, address: Option<u64>) -> Option<StopAddress>
    ensures { result ≡ place_in_range bank address }
{
    let (bank, address) = (u8::try_from(bank?).ok()?, u16::try_from(address?).ok()?);
    if bank > 0o47 {
        return None;
    }
    let address = Addr::new(address)?;
    Some(StopAddress { bank, address })
}
