//! The location counter: where the next line of a source goes.
ghost use Rattle.agc_encode.specs.LineKind.{after_line_words};
ghost use Rattle.std.specs.Prelude.{◌≡◌, ◌+◌, ◌*◌, ◌^◌, ◌<◌, ◌≤◌, get_or, IfOk, IsOk};
ghost use Rattle.agc_store.specs.Places.{erasable_cells, fixed_bank_size, fixed_banks, fixed_words};
ghost use Rattle.agc_encode.specs.LocationCounter.{
  IsAt,
  IsSmall,
  after_cells,
  after_range,
  after_words,
  bank_end,
  due_there,
  first_counter,
  in_bank,
  location_at,
  moved_to,
  nat_max,
  resumed,
  room_at,
  stretch_end,
  used_up_to,
};
ghost use Rattle.agc_listing.specs.Location.{IsWithin};
ghost use Rattle.agc_encode.specs.declared.location_counter.At.TheVariants as at;

use agc_interpretive::Pending;
use agc_listing::Location;
use agc_store::place::{
    ERASABLE_BANK_SIZE, ERASABLE_CELLS, ERASABLE_WINDOW, FIXED_BANK_SIZE, bank_of, offset_of,
    place_of,
};
use agc_vocabulary::SourceFault;

/// Which memory the lines go into.
#[derive(Clone, Copy)]
pub enum At {
    /// A fixed bank.
    Bank(u8),
    /// Erasable memory, from a cell on.
    Cell(u32),
}

/// Where the next line goes.
#[derive(Clone, Copy)]
pub struct LocationCounter {
    /// The offset of the next word in each bank.
    pub left: [u16; 36],
    /// The offset behind the highest word so far in each bank.
    pub used: [u16; 36],
    pub at: At,
    /// The operands of the interpretive language that are due before the next line. A move takes them away.
    pub due: Pending,
}

impl LocationCounter {
    /// Starts at the first place of bank 02.
    pub fn new() -> LocationCounter
        ensures start { result ≡ first_counter }
        ensures range { IsAt result.at }
    {
        LocationCounter {
            left: [0; 36],
            used: [0; 36],
            at: At::Bank(2),
            due: Pending::NOTHING,
        }
    }

    /// Returns the location counter with these operands due.
    pub fn due_there(self, due: Pending) -> LocationCounter
        ensures { result ≡ due_there due self }
    {
        let mut next = self;
        next.due = due;
        next
    }

    /// Returns the location of the next line.
    pub fn location(&self) -> Location
        requires { IsAt self.now.at }
        ensures location { result ≡ location_at self.now self.now.at }
        ensures small { IsSmall result }
    {
        match self.at {
            At::Bank(bank) => Location::Fixed(self.place_in(bank)),
            At::Cell(cell) => Location::Erasable(cell),
        }
    }

    /// Returns the place at which a bank was left.
    fn place_in(&self, bank: u8) -> u32
        requires { bank < fixed_banks }
        ensures place { result ≡ fixed_bank_size * bank + get_or self.now.left bank 0 }
        ensures small { result < 2 ^ 20 }
    {
        place_of(bank, self.left[usize::from(bank)])
    }

    /// Returns the place of the first of the next `count` words.
    pub fn room(&self, count: u16) -> Result<u32, SourceFault>
        requires at { IsAt self.now.at }
        requires bound { count ≤ 2 }
        ensures place { result ≡ room_at self.now self.now.at count }
        ensures range { IfOk result (λ place. place + count ≤ fixed_words) }
    {
        let At::Bank(bank) = self.at else {
            return Err(SourceFault::WrongMemory);
        };
        let end = u32::from(self.left[usize::from(bank)]) + u32::from(count);
        if end <= bank_end(bank) {
            Ok(self.place_in(bank))
        } else {
            Err(SourceFault::Full)
        }
    }

    /// Moves past `count` words, for which there must be room.
    pub fn after_words(self, count: u16) -> LocationCounter
        requires at { IsAt self.at }
        requires room { IsOk (room_at self self.at count) }
        ensures after { result ≡ after_words self self.at count }
        ensures range { IsAt result.at }
    {
        let mut next = self;
        if let At::Bank(bank) = self.at {
            let end = self.left[usize::from(bank)] + count;
            next.left[usize::from(bank)] = end;
            next.used = used_up_to(self.used, bank, end);
            next.due = Pending::NOTHING;
        }
        next
    }

    /// Moves past a line of `count` words: in the rope, or in erasable memory, where they take cells.
    pub fn after_line_words(self, count: u16) -> Result<LocationCounter, SourceFault>
        requires at { IsAt self.at }
        requires bound { count ≤ 2 }
        ensures after { result ≡ after_line_words self self.at count }
        ensures range { IfOk result (λ counter. IsAt counter.at) }
    {
        match self.at {
            At::Bank(_) => {
                self.room(count)?;
                Ok(self.after_words(count))
            }
            At::Cell(_) => self.after_cells(u32::from(count)),
        }
    }

    /// Moves to a location.
    pub fn moved_to(self, location: Location) -> LocationCounter
        requires { IsWithin location }
        ensures moved { result ≡ moved_to self location }
        ensures range { IsAt result.at }
    {
        let mut next = self;
        next.due = Pending::NOTHING;
        match location {
            Location::Fixed(place) => {
                let bank = bank_of(place);
                next.left[usize::from(bank)] = offset_of(place);
                next.at = At::Bank(bank);
            }
            Location::Erasable(cell) => next.at = At::Cell(cell),
        }
        next
    }

    /// Moves behind the highest word of a bank.
    pub fn in_bank(self, bank: u8) -> LocationCounter
        requires { bank < fixed_banks }
        ensures bank { result ≡ in_bank self bank }
        ensures range { IsAt result.at }
    {
        let mut next = self;
        next.left[usize::from(bank)] = self.used[usize::from(bank)];
        next.at = At::Bank(bank);
        next.due = Pending::NOTHING;
        next
    }

    /// Moves behind the highest word of the current bank.
    pub fn resumed(self) -> Result<LocationCounter, SourceFault>
        requires { IsAt self.at }
        ensures resumed { result ≡ resumed self self.at }
        ensures range { IfOk result (λ counter. IsAt counter.at) }
    {
        match self.at {
            At::Bank(bank) => Ok(self.in_bank(bank)),
            At::Cell(_) => Err(SourceFault::WrongMemory),
        }
    }

    /// Moves behind a range of cells.
    pub fn after_range(self, end: u32) -> Result<LocationCounter, SourceFault>
        requires { end ≤ erasable_cells }
        ensures after { result ≡ after_range self self.at end }
        ensures range { IfOk result (λ counter. IsAt counter.at) }
    {
        match self.at {
            At::Bank(_) => Err(SourceFault::WrongMemory),
            At::Cell(_) => {
                let mut next = self;
                next.at = At::Cell(end);
                next.due = Pending::NOTHING;
                Ok(next)
            }
        }
    }

    /// Moves past `count` cells, which may not go past the end of a bank. Banks 0, 1 and 2 count as one.
    pub fn after_cells(self, count: u32) -> Result<LocationCounter, SourceFault>
        requires at { IsAt self.at }
        requires bound { count ≤ 100000 }
        ensures after { result ≡ after_cells self self.at count }
        ensures range { IfOk result (λ counter. IsAt counter.at) }
    {
        let At::Cell(cell) = self.at else {
            return Err(SourceFault::WrongMemory);
        };
        if cell + count <= u32::from(ERASABLE_CELLS) && cell + count <= stretch_end(cell) {
            let mut next = self;
            next.at = At::Cell(cell + count);
            next.due = Pending::NOTHING;
            Ok(next)
        } else {
            Err(SourceFault::Full)
        }
    }
}

/// Returns the end of the words that a bank takes: bank 03 continues bank 02.
fn bank_end(bank: u8) -> u32
    ensures { result ≡ bank_end bank }
{
    if bank == 2 {
        0o4000
    } else {
        u32::from(FIXED_BANK_SIZE)
    }
}

/// Returns the offsets behind the highest words, after words up to an offset of a bank.
fn used_up_to(used: [u16; 36], bank: u8, end: u16) -> [u16; 36]
    requires { bank < fixed_banks }
    ensures { result ≡ used_up_to used bank end }
{
    let mut after = used;
    after[usize::from(bank)] = later(used[usize::from(bank)], end);
    if bank == 2 && end > FIXED_BANK_SIZE {
        after[3] = later(used[3], end - FIXED_BANK_SIZE);
    }
    after
}

fn later(one: u16, other: u16) -> u16
    ensures { result ≡ nat_max one other }
{
    if other <= one { one } else { other }
}

/// Returns the cell after the last one that ERASE can reserve together with this one.
fn stretch_end(cell: u32) -> u32
    requires { cell ≤ erasable_cells }
    ensures end { result ≡ stretch_end cell }
{
    if cell < u32::from(ERASABLE_WINDOW) {
        u32::from(ERASABLE_WINDOW)
    } else {
        (cell / u32::from(ERASABLE_BANK_SIZE) + 1) * u32::from(ERASABLE_BANK_SIZE)
    }
}
