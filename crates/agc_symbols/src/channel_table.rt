//! The names of channels in a symbol file.
ghost use Rattle.std.specs.Prelude.{◌≡◌, ◌++◌, IfOk, IfSome, OnOk, option_map};
ghost use Rattle.agc_symbols.specs.Channels.{channels_in, channels_on, name_of_channel};

use crate::line::{ParsedChannel, channel_on};
use agc_word::next_line;
use std::alloc::{AllocError, Global};
use std::marker::Model;

/// A name of a channel.
#[derive(Drop)]
struct ChannelName {
    channel: u16,
    name: String,
}

impl Model for ChannelName {
    ghost use Rattle.std.specs.Prelude.{string_bytes};
    ghost use Rattle.agc_symbols.specs.Channels.{ChannelSymbol};

    ghost Value = { ChannelSymbol };

    ghost view = { λ n. record { channel = n.channel; name = string_bytes n.name } };
}

impl ChannelName {
    fn new(alloc: Global, channel: u16, name: &str) -> Result<ChannelName, AllocError>
        ensures { IfOk result (λ named. named ≡ record { channel = channel; name = name.now }) }
    {
        Ok(ChannelName {
            channel,
            name: String::from_str(alloc, name)?,
        })
    }

    fn channel(&self) -> u16
        ensures { result ≡ self.now.channel }
    {
        self.channel
    }

    fn name(&self) -> &str
        ensures { result.now ≡ self.now.name }
    {
        self.name.as_str()
    }
}

/// The names of the channels of a symbol file, in its order.
#[derive(Drop)]
pub struct ChannelTable {
    names: Vec<ChannelName>,
}

impl Model for ChannelTable {
    ghost use Rattle.std.specs.Prelude.{List};
    ghost use Rattle.agc_symbols.specs.Channels.{ChannelSymbol};

    ghost Value = { List ChannelSymbol };

    ghost view = { λ t. t.names.items };
}

impl ChannelTable {
    ghost use Rattle.std.specs.Prelude.{◌≡◌, ◌<◌, [], IfOk, IfSome, option_map};
    ghost use Rattle.agc_symbols.specs.Channels.{channels_in, name_of_channel};

    /// Creates a table without names.
    pub fn new(alloc: Global) -> ChannelTable
        ensures { result ≡ [] }
    {
        ChannelTable {
            names: Vec::new(alloc),
        }
    }

    /// Reads the names of channels in a symbol file, `C015 KEYS`; passes over all other lines.
    #[tactic(auto, unfolding(crate::specs::Channels::channels_in))]
    pub fn read(alloc: Global, text: &[u8]) -> Result<ChannelTable, AllocError>
        ensures { IfOk result (λ table. table ≡ channels_in text.now) }
    {
        let mut names = Vec::new(alloc);
        let mut rest = text;
        while let Some((line, after)) = next_line(rest) {
            add_channel(alloc, &mut names, line)?;
            rest = after;
        }
        Ok(ChannelTable { names })
    }

    /// Returns the first name of a channel.
    #[tactic(auto, unfolding(crate::specs::Channels::name_of_channel))]
    pub fn name(&self, channel: u16) -> Option<&str>
        ensures { option_map (λ name. name.now) result ≡ name_of_channel self.now channel }
    {
        let named = self.names.iter().find(|named| named.channel() == channel)?;
        Some(named.name())
    }

    /// Returns the first channel with this name, 0 to 777 octal.
    pub fn channel(&self, name: &[u8]) -> Option<u16>
        ensures range { IfSome result (λ channel. channel < 512) }
    {
        let named = self
            .names
            .iter()
            .find(|named| named.name().as_bytes() == name)?;
        Some(named.channel().min(0o777))
    }
}

/// Adds the channel of a line, if it names one.
fn add_channel(alloc: Global, names: &mut Vec<ChannelName>, line: &[u8]) -> Result<(), AllocError>
    ensures { OnOk result (names.new.items ≡ names.old.items ++ channels_on line.now) }
{
    if let Some(ParsedChannel { channel, name }) = channel_on(line) {
        names.push(ChannelName::new(alloc, channel, name)?)?;
    }
    Ok(())
}
