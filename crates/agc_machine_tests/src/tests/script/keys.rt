//! Tests the keyboard: names and codes of its keys.
use super::*;

#[test]
fn keys_have_names_and_codes(rt: HostRuntime) {
    for (name, code) in [
        ("0", 0o20),
        ("1", 0o1),
        ("2", 0o2),
        ("3", 0o3),
        ("4", 0o4),
        ("5", 0o5),
        ("6", 0o6),
        ("7", 0o7),
        ("8", 0o10),
        ("9", 0o11),
        ("VERB", 0o21),
        ("NOUN", 0o37),
        ("RSET", 0o22),
        ("KEYREL", 0o31),
        ("+", 0o32),
        ("-", 0o33),
        ("ENTR", 0o34),
        ("CLR", 0o36),
    ] {
        has_code(&rt, name, code);
    }
    for name in ["", "verb", "VERBS", "PRO", "10"] {
        equal_at(&rt, name, Key::from_name(name.as_bytes()), None);
    }
}

/// Checks that the key with this name has this code.
fn has_code(rt: &impl Abort, name: &str, code: u16) {
    let key = Key::from_name(name.as_bytes()).expect(rt, "a key");
    equal_at(rt, name, key.name(), name);
    equal_at(rt, name, key.code().bits(), code);
}
