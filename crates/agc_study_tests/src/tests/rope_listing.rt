//! Tests locations of the instruction memos, and that a rope comes back from its listing. `tests/study` compares listings.
ghost use Rattle.std.specs.Prelude.{◌≡◌, IfOk};
ghost use Rattle.agc_store.specs.RopeFile.{rope_words};

use super::same;
use agc_listing::{
    LineFault, Location, Place, WeaveFault, files_say_rope_words, list, listings_say_their_words,
    push_place, push_rope_place, sure_location, weave, words_listed_make_the_rope,
};
use agc_store::{Rope, RopeForm, Store};
use std::alloc::{AllocError, Global};
use std::process::Abort;
use std::test::Fail;

/// Appends a location of each kind.
fn push_places(text: &mut String) -> Result<(), AllocError> {
    push_place(text, Place::Plain(0o61))?;
    text.push_str(" ")?;
    push_place(
        text,
        Place::Erasable {
            bank: 3,
            address: 0o1400,
        },
    )?;
    text.push_str(" ")?;
    push_place(
        text,
        Place::Fixed {
            bank: 0o43,
            address: 0o3777,
        },
    )
}

#[test]
fn places(rt: HostRuntime) {
    let mut text = String::new(rt.alloc());
    push_places(&mut text).ok().expect(&rt, "memory");
    assert_eq!(rt; text.as_str(), "0061 E3,1400 43,3777");
}

#[test]
fn places_of_the_rope(rt: HostRuntime) {
    for (place, printed) in [
        (0, "00,2000"),
        (0o4003, "02,4003"),
        (0o7777, "03,7777"),
        (0o10005, "04,2005"),
        (0o107777, "43,3777"),
        (0o110000, ""),
    ] {
        let mut text = String::new(rt.alloc());
        push_rope_place(&mut text, place).ok().expect(&rt, "memory");
        same(&rt, text.as_str(), printed, "place");
    }
}

#[test]
fn locations_that_operands_name_for_sure(rt: HostRuntime) {
    for (here, address, location) in [
        (0o10000, 0o0050, Some(Location::Erasable(0o50))),
        (0o10000, 0o1377, Some(Location::Erasable(0o1377))),
        (0o10000, 0o1400, None),
        // the bank of the order itself, unless it is 02 or 03
        (0o10000, 0o2005, Some(Location::Fixed(0o10005))),
        (0o4000, 0o2005, None),
        (0o7777, 0o2005, None),
        (0o10000, 0o4003, Some(Location::Fixed(0o4003))),
        (0o4000, 0o7777, Some(Location::Fixed(0o7777))),
    ] {
        assert_eq!(rt; sure_location(here, address), location);
    }
}

/// Assembles a text into a rope file.
fn woven(rt: &(impl AllocGlobal + Abort), form: RopeForm, text: &str) -> Vec<u8> {
    weave(rt.alloc(), form, text.as_bytes())
        .ok()
        .expect(rt, "a file")
}

/// Checks the listing of a memory.
fn is_listed(rt: &(impl AllocGlobal + Abort), store: &Store, listed: &str) {
    let text = list(rt.alloc(), store, None).ok().expect(rt, "memory");
    same(rt, text.as_str(), listed, "listing");
}

/// Lists the rope of a file, assembles it in another form and reads it again: it has the words of the file.
fn rope_by_its_listing(
    alloc: Global,
    source: RopeForm,
    file: &[u8],
    form: RopeForm,
) -> Result<Rope, Fail>
    ensures { IfOk result (λ rope. rope ≡ rope_words source file.now) }
{
    files_say_rope_words();
    let store = Store::new(Rope::read_as(alloc, source, file)?);
    let text = list(alloc, &store, None)?;
    let woven = weave(alloc, form, text.as_bytes())?;
    let rope = Rope::read_as(alloc, form, woven.as_slice())?;
    Ok(rope)
}

/// Checks that the rope of a text comes back from its listing, from one form to another: its first words are -0 and
/// +0.
fn comes_back(
    rt: &(impl AllocGlobal + Abort),
    source: RopeForm,
    form: RopeForm,
    text: &str,
) -> Result<(), Fail> {
    let file = woven(rt, source, text);
    let rope = rope_by_its_listing(rt.alloc(), source, file.as_slice(), form)?;
    let store = Store::new(rope);
    is_listed(rt, &store, text);
    same(rt, store.fixed(0, 0).bits(), 0o77777, "first word");
    same(rt, store.fixed(0, 1).bits(), 0, "second word");
    Ok(())
}

/// A rope comes back from its listing, from each form to each: +0 and -0, both ends of a bank, and banks that the
/// forms hold in another order.
#[test]
fn ropes_come_back_from_their_listings(rt: HostRuntime) -> Result<(), Fail> {
    let text = "00,2000 77777 MASK 7777
00,3777 00001 TC 0001
02,4001 34004 CA 4004
03,7777 77777 MASK 7777
";
    for source in [RopeForm::Classic, RopeForm::Parity] {
        for form in [RopeForm::Classic, RopeForm::Parity] {
            comes_back(&rt, source, form, text)?;
        }
    }
    Ok(())
}

/// The laws are calls that do nothing.
#[test]
fn laws() {
    files_say_rope_words();
    listings_say_their_words();
    words_listed_make_the_rope();
}

/// Lines that the program reads as those of a source.
#[test]
fn faulty_lines(rt: HostRuntime) {
    for (text, line, fault) in [
        ("; words", 1, LineFault::BadAddress),
        ("# ~\n# \u{7f}", 2, LineFault::NotText),
        ("# \u{20}\n# \u{1f}", 2, LineFault::NotText),
    ] {
        let refused = weave(rt.alloc(), RopeForm::Classic, text.as_bytes()).err();
        same(&rt, refused, Some(WeaveFault::Line(line, fault)), text);
    }
}
