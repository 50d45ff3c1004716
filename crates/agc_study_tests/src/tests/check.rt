//! Tests the report of `check` on a source that is read without a folder. The program reads each with its folder;
//! `tests/study` compares its reports.
use super::same;
use agc_listing_check::check_listing;

/// The name of another file after comments with bytes beyond ASCII.
#[test]
fn another_file_is_named(rt: HostRuntime) {
    let source = "# caf\u{e9}\n OCT 1 # \u{e9}\n$PAGE.agc";
    let report = check_listing(rt.alloc(), source.as_bytes())
        .ok()
        .expect(&rt, "memory");
    same(
        &rt,
        report.text.as_str(),
        "text line 3: other files are not included: put their lines into this file\n    $PAGE.agc\n    column 1: `$PAGE.agc` is the name of another file\n",
        "text",
    );
    same(&rt, report.is_sound, false, "sound");
}
