//! Reads the symbol file of a program.
ghost use Rattle.std.specs.Prelude.{◌≡◌, ◌≢◌, Err, IfErr, IfOk, IfSome, Ok};
ghost use Rattle.agc_symbols.specs.Symbols.{names_in};
ghost use Rattle.agc_symbols.specs.declared.fault.SymbolTableFault.{SymbolTableFault};
ghost use Rattle.agc_symbols.specs.declared.fault.SymbolTableFault.TheVariants as trouble;
ghost use Rattle.agc_symbols.specs.NamesFile.{AreNames, IsRefused};
ghost use Rattle.agc_symbols.specs.declared.names_file.SymbolFileFault.TheVariants as refusal;

use crate::fault::SymbolTableFault;
use crate::symbol_table::SymbolTable;
use agc_io::{InputFile, ReadError, TEXT_BYTES, read_limited};
use std::alloc::Global;
use std::error::Error;
use std::io::Read;
use std::rt::Files;
use std::{fmt, fs};

/// Why there are no names.
#[derive(Clone, Copy, Debug, PartialEq, Eq)]
pub enum SymbolFileFault {
    /// The file cannot be opened or read, or has more than 16,777,216 bytes.
    CannotRead,
    /// The text is not a symbol file, or out of memory.
    Names(SymbolTableFault),
}

impl fmt::Display for SymbolFileFault {
    ghost use Rattle.std.specs.Prelude.{Some};
    ghost use Rattle.agc_symbols.specs.NamesFile.{names_refusal_text};

    ghost output = { λ r. Some (names_refusal_text r) };

    fn fmt<W: fmt::Write>(&self, f: &mut fmt::Formatter<W>) -> fmt::Result {
        match *self {
            SymbolFileFault::CannotRead => f.write_str("cannot read names"),
            SymbolFileFault::Names(SymbolTableFault::Line(line, fault)) => {
                write!(f, "names line {line}: {fault}")
            }
            SymbolFileFault::Names(SymbolTableFault::Memory) => f.write_str("memory"),
        }
    }
}

impl Error for SymbolFileFault {}

/// Reads a symbol file. Fails if it cannot be read, has more than `TEXT_BYTES` bytes or a faulty line, or if out of
/// memory.
pub fn read_names<R: Read>(alloc: Global, reader: &mut R) -> Result<SymbolTable, SymbolFileFault>
    ensures names { IfOk result
        (λ names. IfSome (R.remaining reader.old) (λ text. AreNames text names)) }
    ensures refused { IfErr result (IsRefused (R.remaining reader.old)) }
{
    let text = match read_limited(alloc, reader, TEXT_BYTES) {
        Ok(text) => text,
        Err(ReadError::CannotRead(_)) => return Err(SymbolFileFault::CannotRead),
        Err(ReadError::Memory) => return Err(SymbolFileFault::Names(SymbolTableFault::Memory)),
    };
    named_in(alloc, text.as_slice())
}

fn named_in(alloc: Global, text: &[u8]) -> Result<SymbolTable, SymbolFileFault>
    ensures names { IfOk result (λ names. names_in text.now ≡ Ok names) }
    ensures refused { IfErr result (λ t. (why : SymbolTableFault) × (t ≡ refusal.Names why)
        × (why ≢ trouble.Memory → names_in text.now ≡ Err why)) }
{
    match SymbolTable::read(alloc, text) {
        Ok(names) => Ok(names),
        Err(why) => Err(SymbolFileFault::Names(why)),
    }
}

/// Reads the symbol file at a path, if there is one.
pub fn names_at<R>(rt: &R, path: &Option<String>) -> Result<Option<SymbolTable>, SymbolFileFault>
where
    R: Files + AllocGlobal,
{
    let Some(path) = path else {
        return Ok(None);
    };
    let mut file = InputFile::new(fs::open(rt, path.as_str()));
    match read_names(rt.alloc(), &mut file) {
        Ok(names) => Ok(Some(names)),
        Err(refusal) => Err(refusal),
    }
}
