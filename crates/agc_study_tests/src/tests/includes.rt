//! Tests includes over files in memory.
use agc_include::{
    ExpandError, Expanded, FaultyIncludes, Folder, IncludeFault, ReadFault, expand, has_include,
};
use std::alloc::Global;
use std::process::Abort;
use std::rt::HostRuntime;

/// Files in memory. The file LONG is too long.
#[derive(Drop)]
struct Shelf {
    files: &'static [(&'static str, &'static str)],
}

impl Folder for Shelf {
    fn read(&mut self, alloc: Global, name: &str) -> Result<Vec<u8>, ReadFault> {
        for (known, text) in self.files {
            if *known == name {
                let mut read = Vec::new(alloc);
                read.extend_from_slice(text.as_bytes())?;
                return Ok(read);
            }
        }
        if name == "LONG" {
            return Err(ReadFault::Include(IncludeFault::TooLong));
        }
        Err(ReadFault::Include(IncludeFault::Missing))
    }
}

fn expanded(
    rt: &(impl AllocGlobal + Abort),
    files: &'static [(&'static str, &'static str)],
    main: &str,
) -> Result<Expanded, ExpandError> {
    let mut text = Vec::new(rt.alloc());
    text.extend_from_slice(main.as_bytes())
        .ok()
        .expect(rt, "memory");
    let mut shelf = Shelf { files };
    expand(rt.alloc(), &mut shelf, "MAIN", text)
}

/// Returns the faulty includes of a source: so many lines like this one.
fn faults_of_lines(rt: &(impl AllocGlobal + Abort), line: &str, count: usize) -> FaultyIncludes {
    let mut main = String::new(rt.alloc());
    for _ in 0..count {
        main.push_str(line).ok().expect(rt, "memory");
        main.push_str("\n").ok().expect(rt, "memory");
    }
    faults_of(rt, &[], main.as_str())
}

fn faults_of(
    rt: &(impl AllocGlobal + Abort),
    files: &'static [(&'static str, &'static str)],
    main: &str,
) -> FaultyIncludes {
    let faults = match expanded(rt, files, main) {
        Err(ExpandError::Includes(faults)) => Some(faults),
        Err(ExpandError::Memory) => None,
        Ok(source) => {
            drop(source);
            None
        }
    };
    faults.expect(rt, "faulty includes")
}

/// Lines of included files stand in place of the include, each with its file and number.
#[test]
fn includes_are_expanded(rt: HostRuntime) {
    let files = &[("A", "a\r\n$B # more\nz"), ("B", "b\n")];
    let source = expanded(&rt, files, "x\n$A\ty\n$B\n\nend")
        .ok()
        .expect(&rt, "a source");
    let text = "x\na\nb\nz\nb\n\nend\n";
    assert!(rt; source.text() == text.as_bytes());
    let wanted = [
        ("MAIN", 1),
        ("A", 1),
        ("B", 1),
        ("A", 3),
        ("B", 1),
        ("MAIN", 4),
        ("MAIN", 5),
    ];
    for (number, (file, line)) in (1..usize::MAX).zip(wanted.iter()) {
        let origin = source.origin(number);
        assert!(rt; origin == Some((*file, *line)));
    }
    assert!(rt; source.origin(0).is_none());
    assert!(rt; source.origin(8).is_none());
}

/// Only a line that begins with `$` is an include.
#[test]
fn lines_of_includes(rt: HostRuntime) {
    assert!(rt; has_include(b"x\n$A"));
    assert!(rt; !has_include(b"x\n $A\n#$\n"));
}

/// All faulty includes are found, in the order in which they are read.
#[test]
fn faulty_includes(rt: HostRuntime) {
    let files = &[("A", "$A\n$NONE\n"), ("B", "b\n")];
    let faults = faults_of(&rt, files, "$\n$A\nx\n$NONE\n$B\n$A/B\n");
    let wanted = [
        ("MAIN", 1, IncludeFault::BadName),
        ("A", 1, IncludeFault::Circle),
        ("A", 2, IncludeFault::Missing),
        ("MAIN", 4, IncludeFault::Missing),
        ("MAIN", 6, IncludeFault::BadName),
    ];
    assert!(rt; faults.count == 5);
    assert!(rt; faults.first.len() == 5);
    for (faulty, (file, line, fault)) in faults.first.iter().zip(wanted.iter()) {
        assert!(rt; faulty.file.as_str() == *file);
        assert!(rt; faulty.line == *line);
        assert!(rt; faulty.fault == *fault);
    }
}

/// Of more than a hundred faulty includes the first hundred are kept.
#[test]
fn most_faulty_includes(rt: HostRuntime) {
    let faults = faults_of_lines(&rt, "$..", 102);
    assert!(rt; faults.count == 102);
    assert!(rt; faults.first.len() == 100);
}

/// The search ends when too many files were looked for: a thousand, whether they are there or not.
#[test]
fn too_many_files_end_the_search(rt: HostRuntime) {
    let faults = faults_of_lines(&rt, "$NONE", 1003);
    assert!(rt; faults.count == 1001);
}

/// The search ends with the file that makes it more than 64 MiB; a file that is too long counts as 16 MiB.
#[test]
fn too_many_bytes_end_the_search(rt: HostRuntime) {
    let faults = faults_of_lines(&rt, "$LONG", 6);
    assert!(rt; faults.count == 4);
    let last = faults.first.get(3).expect(&rt, "the last fault");
    assert!(rt; last.fault == IncludeFault::TooManyBytes);
}
