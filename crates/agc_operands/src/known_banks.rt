//! Names the operand of an order, if what is known of the banks decides which place it is.
use agc_listing::{Location, Operand, location_at};
use agc_store::Addr;
use agc_store::place::{ERASABLE_WINDOW, FIXED_FIXED, FIXED_WINDOW};
use agc_symbols::{ChannelTable, Nearest, SymbolTable};
use std::alloc::Global;

/// FB selects banks from here on, octal, as the superbank has them.
const FIRST_SUPERBANKED: u8 = 0o30;

/// The banks that the two windows show while an order runs, each if it is known.
#[derive(Clone, Copy, Debug, PartialEq, Eq)]
pub struct KnownBanks {
    /// 0 to 7.
    pub erasable: Option<u8>,
    /// 0 to 47 octal, the superbank's ten added.
    pub fixed: Option<u8>,
}

impl KnownBanks {
    /// Neither bank is known.
    pub const NONE: KnownBanks = KnownBanks {
        erasable: None,
        fixed: None,
    };

    /// Returns what the place of an order tells: the bank of the window that it stands in.
    pub fn of_place(bank: u8, address: u16) -> KnownBanks {
        match address {
            ERASABLE_WINDOW..FIXED_WINDOW => KnownBanks {
                erasable: Some(bank),
                fixed: None,
            },
            FIXED_WINDOW..FIXED_FIXED => KnownBanks {
                erasable: None,
                fixed: Some(bank),
            },
            _ => KnownBanks::NONE,
        }
    }

    /// Adds what EB and FB after an order tell of the banks before it. `mnemonic` and `operand` are the order's: if it may
    /// have written EB through the window, the bank is not known. Nor is that of an FB with which the superbank counts.
    pub fn or_after(
        self,
        mnemonic: &str,
        operand: Operand,
        erasable_bank: u8,
        fixed_bank: u8,
    ) -> KnownBanks {
        let keeps_bank = !(is_bank_register(operand) && is_writing(mnemonic));
        let erasable = if keeps_bank {
            Some(erasable_bank)
        } else {
            None
        };
        let fixed = if fixed_bank < FIRST_SUPERBANKED {
            Some(fixed_bank)
        } else {
            None
        };
        KnownBanks {
            erasable: self.erasable.or(erasable),
            fixed: self.fixed.or(fixed),
        }
    }
}

/// Returns whether an operand, one word or the upper one of two, is EB or BB if the window shows bank 0.
fn is_bank_register(operand: Operand) -> bool {
    match operand {
        Operand::Address(address) => matches!(address, 0o1402 | 0o1403 | 0o1405 | 0o1406),
        Operand::Nothing | Operand::Channel(_) => false,
    }
}

/// Returns whether an order may write a new word to its operand.
fn is_writing(mnemonic: &str) -> bool {
    matches!(
        mnemonic.as_bytes(),
        b"TS" | b"XCH" | b"LXCH" | b"QXCH" | b"DXCH" | b"DAS" | b"ADS" | b"INCR" | b"AUG" | b"DIM"
    )
}

/// The names of places and of channels.
#[derive(Clone, Copy)]
pub struct OperandNames<'a> {
    pub places: &'a SymbolTable,
    pub channels: &'a ChannelTable,
}

/// Takes the names of channels out of a symbol file's, if there is one.
pub fn split_names(
    alloc: Global,
    names: Option<SymbolTable>,
) -> (Option<SymbolTable>, ChannelTable) {
    match names {
        Some(names) => {
            let (places, channels) = names.split(alloc);
            (Some(places), channels)
        }
        None => (None, ChannelTable::new(alloc)),
    }
}

/// Returns the name of an address or of a channel, of a double word that of its upper word. Returns `None` if it has no name, or
/// if a bank that is not known decides which place it is.
pub fn operand_name(
    names: OperandNames<'_>,
    operand: Operand,
    banks: KnownBanks,
) -> Option<Nearest<'_>> {
    match operand {
        Operand::Address(address) => names.places.operand_at(location_of(address, banks)?),
        Operand::Channel(channel) => channel_name(names.channels, channel),
        Operand::Nothing => None,
    }
}

fn channel_name(channels: &ChannelTable, channel: u16) -> Option<Nearest<'_>> {
    match channels.name(channel) {
        Some(name) => Some(Nearest { name, offset: 0 }),
        None => None,
    }
}

/// Returns the location of an address, if these banks decide it.
fn location_of(address: u16, banks: KnownBanks) -> Option<Location> {
    let bank = match address {
        ERASABLE_WINDOW..FIXED_WINDOW => banks.erasable?,
        FIXED_WINDOW..FIXED_FIXED => banks.fixed?,
        _ => 0,
    };
    Some(location_at(bank, Addr::wrapped(address)))
}
