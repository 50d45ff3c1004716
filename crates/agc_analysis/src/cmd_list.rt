//! Runs `list`: writes the text of a rope.
ghost use Rattle.std.specs.Prelude.{◌≡◌, ◌≢◌, ◌⊎◌};
ghost use Rattle.std.specs.Io.KnownBytes.{Appends, Keeps};
ghost use Rattle.agc_io.specs.Output.{IsBegun};
ghost use Rattle.agc_run_commands.specs.Ended.{EndsWith};
ghost use Rattle.agc_rope_commands.specs.Listed.{IsListRefused, IsListWritten};
ghost use Rattle.agc_run_commands.specs.Fault.{IsReported};

use crate::interpretive_list::{InterpretiveCode, interpretive_list, requested_code};
use agc_cli::exit_usage;
use agc_io::{OK, ROPE_BYTES, status_of, write_in_full};
use agc_rope_commands::{special_list, text_of_rope};
use agc_run_commands::{FAULTY, Streams, read_symbols};
use agc_study_args::{ListArgs, NAME, open_file};
use agc_trace::LineForm;
use std::alloc::Global;
use std::io::{Read, Write};
use std::rt::Files;

/// Lists a rope file with the symbols of the symbol file.
pub fn run_list<R, W: Write, E: Write, N: Write, P>(
    rt: &R,
    args: &ListArgs,
    io: &mut Streams<W, E, N, P>,
) -> u8
where
    R: Files + AllocGlobal,
    ensures ended { EndsWith W.contents E.contents result io.old io.new }
    ensures faulty { result ≢ 1 }
{
    let names = match read_symbols(rt, &args.names, io) {
        Ok(names) => names,
        Err(status) => return status,
    };
    let form = LineForm::new(rt.alloc(), names, None);
    let code = match requested_code(rt, &form.names, args) {
        Ok(code) => code,
        Err(fault) => return exit_usage(NAME, fault, FAULTY, &mut io.out, &mut io.err),
    };
    let mut rope = open_file(rt, &args.rope, ROPE_BYTES);
    let is_special = args.ignores_parity || args.shows_zeros || args.first_bank.is_some();
    let status = if !matches!(code, InterpretiveCode::Nothing) {
        write_interpretive(rt.alloc(), args, &form, &code, &mut rope, io)
    } else if is_special {
        write_special(rt.alloc(), args, &form, &mut rope, io)
    } else {
        write_list(rt.alloc(), args, &form, &mut rope, io)
    };
    rope.remark_fault(rt.alloc(), &mut io.remarks);
    status
}

/// Lists some words of a rope as interpretive code. A remark says if no word is the order that `--follow` looks for.
fn write_interpretive<R: Read, W: Write, E: Write, N: Write, P>(
    alloc: Global,
    args: &ListArgs,
    form: &LineForm,
    code: &InterpretiveCode,
    rope: &mut R,
    io: &mut Streams<W, E, N, P>,
) -> u8
    ensures ended { EndsWith W.contents E.contents result io.old io.new }
    ensures faulty { result ≢ 1 }
{
    match interpretive_list(alloc, args, &form.names, code, rope) {
        Ok(text) => {
            remark_uncalled(code, text.is_empty(), &mut io.remarks);
            status_of(OK, write_in_full(&mut io.out, text.as_bytes()))
        }
        Err(fault) => fault.report_to(&mut io.err),
    }
}

/// Writes a remark if no word calls the interpreter.
fn remark_uncalled<N: Write>(code: &InterpretiveCode, is_empty: bool, remarks: &mut N) {
    if let InterpretiveCode::BehindCalls(address) = code {
        if is_empty {
            let _written = writeln!(
                remarks,
                "agc-study: no word of this rope is TC {address:04o}"
            );
        }
    }
}

/// Lists a rope whatever its parity, some modules, or all words, and marks the words with wrong parity.
fn write_special<R: Read, W: Write, E: Write, N: Write, P>(
    alloc: Global,
    args: &ListArgs,
    form: &LineForm,
    rope: &mut R,
    io: &mut Streams<W, E, N, P>,
) -> u8
    ensures ended { EndsWith W.contents E.contents result io.old io.new }
    ensures faulty { result ≢ 1 }
{
    match special_list(alloc, args, form, rope) {
        Ok(text) => status_of(OK, write_in_full(&mut io.out, text.as_slice())),
        Err(fault) => fault.report_to(&mut io.err),
    }
}

/// Lists a rope and writes its text with these symbols. Writes nothing if memory runs out.
fn write_list<R: Read, W: Write, E: Write, N: Write, P>(
    alloc: Global,
    args: &ListArgs,
    form: &LineForm,
    rope: &mut R,
    io: &mut Streams<W, E, N, P>,
) -> u8
    ensures ended { EndsWith W.contents E.contents result io.old io.new }
    ensures no_note { Keeps (N.contents io.old.remarks) (N.contents io.new.remarks) }
    ensures faulty { result ≢ 1 }
    ensures listed { result ≡ 0 → IsListWritten Appends args.now form.now
        (R.remaining rope.old) (W.contents io.old.out) (W.contents io.new.out) }
    ensures cut { result ≡ 3 → Keeps (W.contents io.old.out) (W.contents io.new.out)
        ⊎ IsListWritten IsBegun args.now form.now
        (R.remaining rope.old) (W.contents io.old.out) (W.contents io.new.out) }
    ensures refused { result ≡ 2
        → IsReported (IsListRefused args.now (R.remaining rope.old))
        (E.contents io.old.err) (E.contents io.new.err) }
{
    match text_of_rope(alloc, args, form, rope) {
        Ok(text) => status_of(OK, write_in_full(&mut io.out, text.as_slice())),
        Err(fault) => fault.report_to(&mut io.err),
    }
}
