//! The public surface: each promised call, imported from the crate that promises it and called once.
ghost use Rattle.std.specs.Prelude.{◌≡◌};

use super::{Host, machine_of, rope_of, script_of};
use agc_machine::{ChannelWrite, LimitFault, Machine, Next, Refused, Stepped, Stop};
use agc_panel::{Panel, Table, WatchFault, WatchSpec, watch};
use agc_pipe::{
    Gate, Item, LinkFault, Live, Open, Receiver, Rest, Sender, ShowFault, Shown, link, rejoin,
    run_live, run_shown,
};
use agc_run::{ArgsFault, Options, parse_args, session};
use agc_script::{Event, Key, Script, ScriptFault, Tape, What};
use agc_store::{Addr, Rope, RopeFault, RopeForm, Store};
use agc_test_support::IDLE;
use agc_word::{
    Carry, Edit, Narrow, Over, Pulse, Wide, and, complement, dabs, modular_difference, or, product,
    quotient, sum, widen, xor,
};
use arrayvec::ArrayVec;
use std::process::Abort;

fn narrow(rt: &impl Abort, bits: u16) -> Narrow {
    Narrow::from_bits(bits).expect(rt, "at most 77777")
}

fn address(rt: &impl Abort, bits: u16) -> Addr {
    Addr::new(bits).expect(rt, "at most 7777")
}

#[test]
fn words(rt: HostRuntime) {
    let (two, five) = (narrow(&rt, 2), narrow(&rt, 5));
    let wide = Wide::from_bits(5);
    assert!(rt; wide.bits() == 5 && widen(five) == wide && wide.narrow() == five);
    assert!(rt; wide.over() == Over::None);
    assert!(rt; sum(wide, wide).bits() == 0o12 && complement(wide).bits() == 0o177772);
    assert!(rt; dabs(wide).bits() == 4 && modular_difference(five, two).bits() == 3);
    let (three, six) = (Wide::from_bits(3), Wide::from_bits(6));
    assert!(rt;
        and(three, six).bits() == 2 && or(three, six).bits() == 7 && xor(three, six).bits() == 5
    );
    assert!(rt; product(two, five) == (narrow(&rt, 0), narrow(&rt, 0o12)));
    assert!(rt; quotient(two, five, narrow(&rt, 1)).is_none());
    assert!(rt; five.edit(Edit::Edop).bits() == 0);
    assert!(rt; five.pulse(Pulse::Pinc) == (narrow(&rt, 6), Carry::None));
}

#[test]
fn memory(rt: HostRuntime) {
    assert!(rt; matches!(Rope::read(rt.alloc(), b""), Err(RopeFault::Empty)));
    let rope = Rope::read_as(rt.alloc(), RopeForm::Classic, &[0x30, 0x00]).expect(&rt, "a rope");
    let mut store = Store::new(rope);
    assert!(rt; store.fetch(address(&rt, 0o4000)).bits() == 0o14000);
    assert!(rt; store.fixed(2, 0).bits() == 0o14000);
    store.poke(0, 0o100, narrow(&rt, 7));
    assert!(rt; store.cell(0, 0o100).bits() == 7 && store.read(address(&rt, 0o100)).bits() == 7);
    store.reedit(address(&rt, 0o100));
    store.set_superbank(true);
    assert!(rt; store.superbank());
}

#[test]
fn scripts(rt: HostRuntime) {
    let fault: Option<ScriptFault> = Script::parse(rt.alloc(), b"5").err();
    assert!(rt; fault.is_some());
    let script = script_of(&rt, b"0 pro down\n");
    assert!(rt; script.len() == 1);
    let verb = Key::from_name(b"VERB").expect(&rt, "a key");
    assert!(rt; verb.name() == "VERB" && verb.code().bits() == 0o21);
    let mut tape = Tape::new(rt.alloc());
    assert!(rt; tape.push(5, verb).is_ok() && tape.len() == 1);
    let merged = script.merge(rt.alloc(), &tape).expect(&rt, "a script");
    assert!(rt; merged.len() == 2);
    let events: &[Event] = merged.rest(0);
    assert!(rt; matches!(events.first(), Some(event) if event.what == What::Pro(true)));
}

#[test]
fn machines(rt: HostRuntime) {
    let fault = Machine::new(rope_of(&rt, IDLE), script_of(&rt, b""), 0)
        .err()
        .map(|refused: Refused| refused.fault);
    assert!(rt; fault == Some(LimitFault::Zero));
    let mut machine = machine_of(&rt, IDLE, script_of(&rt, b""), 10).until(2, address(&rt, 0o7777));
    assert!(rt; machine.fresh() && machine.wants_key() && machine.cycle() == 0);
    assert!(rt; machine.step(None) == Stepped::Quiet);
    assert!(rt; machine.next_write() == Next::Stopped(Stop::Limit));
    assert!(rt; machine.channel(0o10).bits() == 0 && machine.store().cell(0, 0o100).bits() == 0);
    assert!(rt; machine.into_store().cell(0, 0o100).bits() == 0);
}

#[test]
fn panels(rt: HostRuntime) {
    let mut panel = Panel::new();
    panel.take(&ChannelWrite {
        cycle: 0,
        channel: 0o10,
        value: narrow(&rt, 0o54171),
    });
    assert!(rt;
        panel
            .text(rt.alloc())
            .is_ok_and(|text| text.as_str().starts_with("PROG 12\n"))
    );
    let store = Store::new(rope_of(&rt, IDLE));
    let spec = WatchSpec::read("1,0,2,1,100,7,357").expect(&rt, "seven numbers");
    let beyond = watch(rt.alloc(), &store, &spec).err();
    assert!(rt;
        matches!(
            beyond,
            Some(WatchFault::OutOfErasable { table: Table::Lst2 })
        )
    );
}

#[test]
fn rings(rt: HostRuntime) {
    let fault: Option<LinkFault> = link(rt.alloc(), 0).err();
    assert!(rt; fault.is_some());
    let (sender, receiver): (Sender, Receiver) = link(rt.alloc(), 4).expect(&rt, "a ring");
    let rest = send_and_receive(&rt, sender, receiver);
    assert!(rt; rest.is_none());
}

/// Sends three ends, receives two and returns what is left after the third.
fn send_and_receive(rt: &impl Abort, mut sender: Sender, mut receiver: Receiver) -> Option<Item>
    requires ring { sender.ring ≡ receiver.ring }
    requires slots { sender.slots ≡ 4 }
{
    assert!(rt; sender.capacity() == 4 && sender.try_send(Item::End).is_ok());
    assert!(rt; sender.send_block(&[Item::End, Item::End]));
    assert!(rt; receiver.try_next() == Some(Item::End));
    let mut block = ArrayVec::new();
    let received = receiver.next_block(&mut block);
    let mut rest: Rest = rejoin(sender, receiver);
    assert!(rt; received == 2);
    rest.next()
}

/// Runs ten idle cycles through a gate.
fn idle_run<G: Gate + Sync>(rt: &impl Host, gate: &G) -> Result<Shown, ShowFault> {
    let machine = machine_of(rt, IDLE, script_of(rt, b""), 10);
    run_shown(rt, rt.alloc(), machine, 256, gate)
}

#[test]
fn runs(rt: HostRuntime) {
    let shown = idle_run(&rt, &Open).expect(&rt, "a run");
    assert!(rt; shown.stop == Stop::Limit && shown.cycle == 10);
    let machine = machine_of(&rt, IDLE, script_of(&rt, b""), 10);
    let live: Live = run_live(
        &rt,
        rt.alloc(),
        machine,
        Vec::new(rt.alloc()),
        8533,
        256,
        &Open,
    )
    .expect(&rt, "a live run");
    assert!(rt; live.tape.len() == 0 && live.rest.is_empty());
}

#[test]
fn programs(rt: HostRuntime) {
    let fault: Option<ArgsFault> = parse_args(rt.alloc(), &["agc"]).err();
    assert!(rt; matches!(fault, Some(ArgsFault::Command(_))));
    let options: Options = parse_args(rt.alloc(), &["agc", "r", "s", "--limit", "10"])
        .ok()
        .expect(&rt, "a good command line");
    let (mut rope, mut script, mut keys) = (
        [0x30, 0x00].as_slice(),
        b"".as_slice(),
        b"".as_slice(),
    );
    let (mut out, mut err) = (Vec::new(rt.alloc()), Vec::new(rt.alloc()));
    let status = session(
        &rt,
        rt.alloc(),
        &options,
        &mut rope,
        &mut script,
        &mut keys,
        &Open,
        &mut out,
        &mut err,
    );
    assert!(rt; status == 0);
}
