//! Tests films of small programs that no run shows, worked out by hand. `tests/study` compares films. The numbers are
//! octal, except for cycles.
use super::progress::was_reported;
use super::{has_lines, machine_of, owned, same};
use agc_film_blocks::{FilmBlock, film_block};
use agc_io::NoProgress;
use agc_load::RunFiles;
use agc_machine::Stop;
use agc_page::push_film;
use agc_test_support::{IDLE, RecordingProgress};
use agc_timeline::film;
use agc_trace::Span;
use std::process::Abort;

/// Returns the runs of a page, from the first block to the last, without what comes before and after.
fn blocks<'a>(rt: &impl Abort, page: &'a str) -> &'a str {
    let (_, after) = page
        .split_once("<script type=\"text/plain\" id=\"")
        .expect(rt, "a block");
    let (blocks, _) = after.split_once("<script>").expect(rt, "a script");
    blocks
}

/// The block of a file has its bytes, but for what would end it, and then the elements that show it.
#[test]
fn a_block_has_the_bytes_of_its_file(rt: HostRuntime) {
    let file = b"V16 N68\n</script>\\\xff";
    let block = film_block(rt.alloc(), FilmBlock::Nouns, file)
        .ok()
        .expect(&rt, "memory");
    let whole =
        "<script type=\"text/plain\" id=\"nouns\">\nV16 N68\n\\074/script>\\134\\377</script>\n<style>\n";
    same(&rt, block.starts_with(whole), true, "a block of nouns");
    same(
        &rt,
        FilmBlock::Samples.name(),
        "samples",
        "the name of a block",
    );
}

/// Writes a relay word twice from cycle 3 on, then a word of the lamps to channel 11, and waits.
static PROG: &str = "
4000 34010 CA 4010
4001 00006 EXTEND
4002 01010 WRITE 10
4003 00006 EXTEND
4004 01010 WRITE 10
4005 00006 EXTEND
4006 01011 WRITE 11
4007 14007 TCF 4007
4010 54171 a relay word: PROG 12; on channel 11: COMP ACTY, ...
";

/// A part that ends before it begins has the panel of its first cycle, and no stop.
#[test]
fn a_part_that_ends_before_it_begins(rt: HostRuntime) {
    let mut machine = machine_of(&rt, PROG, "", 20);
    let part = Span { from: 4, to: 1 };
    let recording = film(rt.alloc(), &mut machine, part, &mut NoProgress)
        .ok()
        .expect(&rt, "memory");
    same(&rt, recording.frames.len(), 1, "frames");
    same(&rt, recording.stop, None, "stop");
    same(&rt, recording.cycle, 4, "cycle");
}

/// In the names of the files, `<`, the backslash and bytes that do not print in ASCII are shown in octal: é has the
/// two bytes 303 and 251.
#[test]
fn names_of_files(rt: HostRuntime) {
    let mut machine = machine_of(&rt, IDLE, "10 key VERB\n", 30);
    let recording = film(rt.alloc(), &mut machine, Span::whole(), &mut NoProgress)
        .ok()
        .expect(&rt, "memory");
    let files = RunFiles {
        rope: owned(&rt, "a b~<"),
        script: owned(&rt, "\\/é\n\u{7f}"),
    };
    let mut page = String::new(rt.alloc());
    push_film(&mut page, 30, &files, &recording)
        .ok()
        .expect(&rt, "memory");
    has_lines(
        &rt,
        blocks(&rt, page.as_str()),
        &[
            "left\">",
            "rope a b~\\074",
            "script \\134/\\303\\251\\012\\177",
            "limit 30",
            "from 0",
            "key 10 VERB",
            "stop 30 Limit",
            "</script>",
        ],
    );
}

/// The first order ends at cycle 2, past the film's first cycle, and the second one at 3. From cycle 11 on each order
/// takes one cycle, so progress is reported at 2, 3, 1000003 and 2000003, in decimal.
#[test]
fn reports_how_far_it_has_come(rt: HostRuntime) {
    let mut machine = machine_of(&rt, PROG, "", 2_500_000);
    let mut reported = RecordingProgress::new(rt.alloc());
    let recording = film(rt.alloc(), &mut machine, Span::whole(), &mut reported)
        .ok()
        .expect(&rt, "memory");
    same(&rt, recording.stop, Some(Stop::Limit), "stop");
    same(&rt, recording.frames.len(), 2, "frames");
    was_reported(&rt, &reported, &[2, 3, 1_000_003, 2_000_003]);
}
