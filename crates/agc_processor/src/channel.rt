//! The channels of a processor, and the orders that read and write them.
ghost use Rattle.agc_store.specs.Cells.{narrow_number};
ghost use Rattle.agc_processor.specs.Channel.{is_on};
ghost use Rattle.std.specs.Prelude.{◌≡◌, ◌<◌, ◌≤◌, ◌^◌, ◌%◌};

use crate::clock::{scaler, time6_periods};
use crate::logic::{and_words, or_words, xor_words};
use crate::processor::Processor;
use agc_word::channels::{CHAN13, HISCALAR, L, LOSCALAR, Q, SUPERBNK};
use agc_word::{Narrow, Wide, widen};

impl Processor {
    ghost use Rattle.agc_processor.specs.Channel.{channel_word, channel_cell, set_channel_cell, switch_word, superbank_switched, time6_switched, set_channel, write_channel, read_order, write_order, rand_order, ror_order, rxor_order, wand_order, wor_order};

    /// Returns the word in a channel's cell, which the channels 1 to 4 do not show.
    #[inline]
    pub fn channel_cell(&self, h: u16) -> Narrow
        requires { h < 0o1000 }
        ensures { result ≡ channel_cell h self.now }
    {
        let cell = usize::from(h);
        self.channels[cell]
    }

    /// Stores a word in a channel's cell, without switching the superbank or TIME6.
    #[inline]
    pub fn set_channel_cell(&mut self, h: u16, word: Narrow)
        requires { h < 0o1000 }
        ensures { self.new ≡ set_channel_cell h word self.old }
    {
        self.channels[usize::from(h)] = word;
    }

    /// Returns the word that a channel shows at a cycle.
    #[tactic(auto, unfolding(crate::specs::Channel::channel_word))]
    pub fn channel(&self, cycle: u64, h: u16) -> Wide
        requires channel { h < 0o1000 }
        requires cycle { cycle < 2 ^ 41 }
        ensures { result ≡ channel_word cycle h self.now }
    {
        match h {
            L => widen(self.store.l()),
            Q => self.store.q(),
            HISCALAR => scaler_word(scaler(cycle) / 0o40000),
            LOSCALAR => scaler_word(scaler(cycle)),
            _ => widen(self.channel_cell(h)),
        }
    }

    /// Stores a word in a channel, as a script does too: the superbank's channel keeps three bits,
    /// and a word with TIME6's switch switches it.
    #[tactic(auto, unfolding(crate::specs::Channel::set_channel))]
    pub fn set_channel(&mut self, cycle: u64, h: u16, word: Narrow)
        requires channel { h < 0o1000 }
        requires cycle { cycle < 2 ^ 41 }
        ensures { self.new ≡ set_channel cycle h word self.old }
    {
        match h {
            SUPERBNK => self.set_superbank(word),
            CHAN13 => self.set_time6_switch(cycle, word),
            _ => self.set_channel_cell(h, word),
        }
    }

    /// Writes the superbank's channel, which keeps bits 7 to 5; bit 7 is the superbank.
    fn set_superbank(&mut self, word: Narrow)
        ensures { self.new ≡ superbank_switched word self.old }
    {
        let kept = word.bits() / 0o20 % 0o10 * 0o20;
        self.set_channel_cell(SUPERBNK, Narrow::with_bits(kept));
        self.store.set_superbank(word.bit(7));
    }

    /// Writes the channel of TIME6's switch. If it goes from off to on, TIME6 counts the periods that end from now on.
    fn set_time6_switch(&mut self, cycle: u64, word: Narrow)
        requires { cycle < 2 ^ 41 }
        ensures { self.new ≡ time6_switched cycle word self.old }
    {
        let was_on = self.is_time6_on();
        self.set_channel_cell(CHAN13, word);
        if self.is_time6_on() && !was_on {
            self.timers.mark = time6_periods(cycle);
        }
    }

    /// Returns whether TIME6's switch is on.
    #[inline]
    pub(crate) fn is_time6_on(&self) -> bool
        ensures { result ≡ is_on (switch_word self.now) }
    {
        self.channel_cell(CHAN13).bit(15)
    }

    /// Does what a program's write to a channel does.
    #[tactic(auto, unfolding(crate::specs::Channel::write_channel))]
    fn write_channel(&mut self, cycle: u64, h: u16, word: Wide)
        requires channel { h < 0o1000 }
        requires cycle { cycle < 2 ^ 41 }
        ensures { self.new ≡ write_channel cycle h word self.old }
    {
        match h {
            L => self.store.set_l(word.narrow()),
            Q => self.store.set_q(word),
            HISCALAR => {}
            LOSCALAR => {}
            _ => self.set_channel(cycle, h, word.narrow()),
        }
    }

    #[tactic(auto, unfolding(crate::specs::Channel::read_order))]
    pub(crate) fn read(&mut self, cycle: u64, h: u16)
        requires channel { h < 0o1000 }
        requires cycle { cycle < 2 ^ 41 }
        ensures { self.new ≡ read_order cycle h self.old }
    {
        let word = self.channel(cycle, h);
        self.store.set_a(word);
    }

    #[tactic(auto, unfolding(crate::specs::Channel::write_order))]
    pub(crate) fn write(&mut self, cycle: u64, h: u16)
        requires channel { h < 0o1000 }
        requires cycle { cycle < 2 ^ 41 }
        ensures { self.new ≡ write_order cycle h self.old }
    {
        let a = self.store.a();
        self.write_channel(cycle, h, a);
    }

    #[tactic(auto, unfolding(crate::specs::Channel::rand_order))]
    pub(crate) fn rand(&mut self, cycle: u64, h: u16)
        requires channel { h < 0o1000 }
        requires cycle { cycle < 2 ^ 41 }
        ensures { self.new ≡ rand_order cycle h self.old }
    {
        let r = and_words(h == Q, self.store.a(), self.channel(cycle, h));
        self.store.set_a(r);
    }

    #[tactic(auto, unfolding(crate::specs::Channel::ror_order))]
    pub(crate) fn ror(&mut self, cycle: u64, h: u16)
        requires channel { h < 0o1000 }
        requires cycle { cycle < 2 ^ 41 }
        ensures { self.new ≡ ror_order cycle h self.old }
    {
        let r = or_words(h == Q, self.store.a(), self.channel(cycle, h));
        self.store.set_a(r);
    }

    #[tactic(auto, unfolding(crate::specs::Channel::rxor_order))]
    pub(crate) fn rxor(&mut self, cycle: u64, h: u16)
        requires channel { h < 0o1000 }
        requires cycle { cycle < 2 ^ 41 }
        ensures { self.new ≡ rxor_order cycle h self.old }
    {
        let r = xor_words(h == Q, self.store.a(), self.channel(cycle, h));
        self.store.set_a(r);
    }

    #[tactic(auto, unfolding(crate::specs::Channel::wand_order))]
    pub(crate) fn wand(&mut self, cycle: u64, h: u16)
        requires channel { h < 0o1000 }
        requires cycle { cycle < 2 ^ 41 }
        ensures { self.new ≡ wand_order cycle h self.old }
    {
        let r = and_words(h == Q, self.store.a(), self.channel(cycle, h));
        self.write_channel(cycle, h, r);
        self.store.set_a(r);
    }

    #[tactic(auto, unfolding(crate::specs::Channel::wor_order))]
    pub(crate) fn wor(&mut self, cycle: u64, h: u16)
        requires channel { h < 0o1000 }
        requires cycle { cycle < 2 ^ 41 }
        ensures { self.new ≡ wor_order cycle h self.old }
    {
        let r = or_words(h == Q, self.store.a(), self.channel(cycle, h));
        self.write_channel(cycle, h, r);
        self.store.set_a(r);
    }
}

/// Returns the low fourteen digits of a count, which a scaler channel shows.
fn scaler_word(count: u64) -> Wide
    ensures { result ≡ narrow_number (count % 0o40000) }
{
    widen(Narrow::with_bits((count % 0o40000) as u16))
}
