//! Reads files into a rope, a script and live keys.
ghost use Rattle.std.specs.Prelude.{◌≡◌, ◌⊎◌, IfOk, IfErr, IfSome, OnOk, None, Some, unwrap_or};
ghost use Rattle.std.specs.Io.KnownBytes.{IsAtEnd};
ghost use Rattle.agc_store.specs.RopeFile.{rope_words, rope_fault_of};
ghost use Rattle.agc_store.specs.declared.rope_file.RopeFault.TheVariants as rope_fault;
ghost use Rattle.agc_script.specs.Parse.{script_of};
ghost use Rattle.agc_load.specs.Files.{events_in, keys_steps, rope_steps, script_steps};
ghost use Rattle.agc_load.specs.Files.{script_refused, IsScriptRefused};
ghost use Rattle.agc_load.specs.Steps.{IsOutcome, refusal_in};
ghost use Rattle.agc_load.specs.Keys.{keys_of};
ghost use Rattle.agc_load.specs.declared.fault.LoadFault.TheVariants as refusal;

use crate::fault::LoadFault;
use crate::keys::keys_of;
use agc_io::{KEY_BYTES, ROPE_BYTES, ReadError, TEXT_BYTES, read_limited};
use agc_script::{Key, Script};
use agc_store::{Rope, RopeForm};
use std::alloc::Global;
use std::io::Read;

/// Reads a rope file of the given form. Fails if it cannot be read, has more than `ROPE_BYTES` bytes or is not a rope,
/// or if memory runs out.
pub fn read_rope<R: Read>(alloc: Global, form: RopeForm, reader: &mut R) -> Result<Rope, LoadFault>
    ensures words { IfOk result
        (λ rope. IfSome (R.remaining reader.old) (λ file. rope ≡ rope_words form file)) }
    ensures sound { OnOk result
        (IfSome (R.remaining reader.old) (λ file. rope_fault_of form file ≡ None)) }
    ensures accepted { OnOk result
        (IfSome (R.remaining reader.old) (λ file. refusal_in (rope_steps form file) ≡ None)) }
    ensures end { OnOk result (IsAtEnd (R.remaining reader.new)) }
    ensures refused { IfErr result
        (λ r. IfSome (R.remaining reader.old) (λ file. IsOutcome (rope_steps form file) r)) }
{
    let bytes = match read_limited(alloc, reader, ROPE_BYTES) {
        Ok(bytes) => bytes,
        Err(ReadError::CannotRead(fault)) => return Err(LoadFault::CannotReadRope(fault)),
        Err(ReadError::Memory) => return Err(LoadFault::Memory),
    };
    rope_of(alloc, form, bytes.as_slice())
}

fn rope_of(alloc: Global, form: RopeForm, bytes: &[u8]) -> Result<Rope, LoadFault>
    ensures words { IfOk result (λ rope. rope ≡ rope_words form bytes.now) }
    ensures accepted { OnOk result (rope_fault_of form bytes.now ≡ None) }
    ensures refused { IfErr result
        (λ r. r ≡ LoadFault.Rope (unwrap_or (rope_fault_of form bytes.now) rope_fault.Memory)) }
{
    match Rope::read_as(alloc, form, bytes) {
        Ok(rope) => Ok(rope),
        Err(fault) => Err(LoadFault::Rope(fault)),
    }
}

/// Reads a script file. Fails if it cannot be read, has more than `TEXT_BYTES` bytes or a faulty
/// line, or if memory runs out.
pub fn read_script<S: Read>(alloc: Global, reader: &mut S) -> Result<Script, LoadFault>
    ensures events { IfOk result
        (λ script. IfSome (S.remaining reader.old) (λ file. script ≡ events_in (script_of file))) }
    ensures accepted { OnOk result
        (IfSome (S.remaining reader.old) (λ file. refusal_in (script_steps file) ≡ None)) }
    ensures end { OnOk result (IsAtEnd (S.remaining reader.new)) }
    ensures refused { IfErr result
        (λ r. IfSome (S.remaining reader.old) (λ file. IsOutcome (script_steps file) r)) }
{
    let bytes = match read_limited(alloc, reader, TEXT_BYTES) {
        Ok(bytes) => bytes,
        Err(ReadError::CannotRead(fault)) => return Err(LoadFault::CannotReadScript(fault)),
        Err(ReadError::Memory) => return Err(LoadFault::Memory),
    };
    script_of(alloc, bytes.as_slice())
}

fn script_of(alloc: Global, bytes: &[u8]) -> Result<Script, LoadFault>
    ensures events { IfOk result (λ script. script ≡ events_in (script_of bytes.now)) }
    ensures accepted { OnOk result (script_refused (script_of bytes.now) ≡ None) }
    ensures refused { IfErr result (IsScriptRefused bytes.now) }
{
    match Script::parse(alloc, bytes) {
        Ok(script) => Ok(script),
        Err(fault) => Err(LoadFault::Script(fault)),
    }
}

/// Reads the text of live keys. Fails if it cannot be read, has more than `KEY_BYTES` bytes or a name that is not a
/// key, or if memory runs out.
pub fn read_keys<K: Read>(alloc: Global, reader: &mut K) -> Result<Vec<Key>, LoadFault>
    ensures keys { IfOk result
        (λ keys. IfSome (K.remaining reader.old) (λ file. keys_of file ≡ Some keys.items)) }
    ensures accepted { OnOk result
        (IfSome (K.remaining reader.old) (λ file. refusal_in (keys_steps file) ≡ None)) }
    ensures end { OnOk result (IsAtEnd (K.remaining reader.new)) }
    ensures refused { IfErr result
        (λ r. IfSome (K.remaining reader.old) (λ file. IsOutcome (keys_steps file) r)) }
{
    let bytes = match read_limited(alloc, reader, KEY_BYTES) {
        Ok(bytes) => bytes,
        Err(ReadError::CannotRead(fault)) => return Err(LoadFault::CannotReadKeys(fault)),
        Err(ReadError::Memory) => return Err(LoadFault::Memory),
    };
    keys_named(alloc, bytes.as_slice())
}

fn keys_named(alloc: Global, bytes: &[u8]) -> Result<Vec<Key>, LoadFault>
    ensures keys { IfOk result (λ keys. keys_of bytes.now ≡ Some keys.items) }
    ensures refused { IfErr result
        (λ r. (r ≡ LoadFault.Memory) ⊎ ((r ≡ LoadFault.BadKey) × (keys_of bytes.now ≡ None))) }
{
    match keys_of(alloc, bytes)? {
        Some(keys) => Ok(keys),
        None => Err(LoadFault::BadKey),
    }
}
