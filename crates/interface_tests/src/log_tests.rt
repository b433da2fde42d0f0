//! The log: full, empty, cleared, and its lines.
ghost use Rattle.std.specs.Prelude.{[], ◌∷◌};

use bounded_log::{Line, Log, LogFault};
use effect::{Action, Retirement};
use std::alloc::{AllocError, Global};
use std::test::Fail;

/// A record that has a line and is not printed.
#[derive(Clone, Copy)]
struct Mark {
    row: u32,
    column: u8,
}

impl Line for Mark {
    ghost numbers = { λ mark. mark.row ∷ (mark.column ∷ []) };

    fn line(&self, heap: Global) -> Result<String, AllocError> {
        let row = self.row;
        let column = self.column;
        format!(in heap; "{row} {column}")
    }
}

fn line_behind(record: &dyn Line, heap: Global) -> Result<String, AllocError> {
    record.line(heap)
}

#[test]
fn no_places(rt: HostRuntime) {
    let mut places: [u32; 0] = [];
    let mut log = Log::new(&mut places);
    assert_eq!(rt; (log.count(), log.free()), (0, 0), "nothing, and no room");
    assert_eq!(rt; log.add(1), Err(LogFault::Full), "full from the start");
    assert_eq!(rt; log.entry(0), Err(LogFault::Missing), "no entry");
}

#[test]
fn full(rt: HostRuntime) {
    let mut places = [9u32; 2];
    let mut log = Log::new(&mut places);
    assert_eq!(rt; (log.add(1), log.add(2)), (Ok(()), Ok(())), "two places");
    assert_eq!(rt; log.add(3), Err(LogFault::Full), "and no third");
    assert_eq!(rt;
        (log.entry(0), log.entry(1)),
        (Ok(1), Ok(2)),
        "in their order"
    );
    assert_eq!(rt; log.entry(2), Err(LogFault::Missing), "past the last");
}

#[test]
fn cleared(rt: HostRuntime) {
    let mut places = [9u32; 2];
    let mut log = Log::new(&mut places);
    assert_eq!(rt; log.add(1), Ok(()));
    log.clear();
    assert_eq!(rt;
        (log.count(), log.free()),
        (0, 2),
        "every place is free again"
    );
    assert_eq!(rt; log.entry(0), Err(LogFault::Missing), "the entry is gone");
    assert_eq!(rt; log.add(4), Ok(()));
    assert_eq!(rt; log.entry(0), Ok(4), "the place is used again");
}

#[test]
fn numbers_of_the_refusals(rt: HostRuntime) {
    assert_eq!(rt;
        (LogFault::Full.number(), LogFault::Missing.number()),
        (40, 41)
    );
}

#[test]
fn lines(rt: HostRuntime) -> Result<(), Fail> {
    let heap = rt.alloc();
    let stored = Retirement {
        place: 70000,
        action: Action::StoreWord {
            address: 10,
            word: 4294967295,
        },
    };
    let mut places = [stored; 1];
    let mut log = Log::new(&mut places);
    assert_eq!(rt; log.add(stored), Ok(()));
    let mut text = String::from_str(heap, "7: ")?;
    assert!(rt; log.write_entry(0, heap, &mut text).is_ok());
    assert_eq!(rt;
        text.as_str(),
        "7: 70000 2 10 4294967295",
        "the line at the end of the text"
    );
    assert!(rt; log.write_entry(1, heap, &mut text).is_err());
    assert_eq!(rt;
        text.as_str(),
        "7: 70000 2 10 4294967295",
        "a refusal leaves the text"
    );
    Ok(())
}

#[test]
fn lines_of_an_own_record(rt: HostRuntime) -> Result<(), Fail> {
    let heap = rt.alloc();
    let mark = Mark {
        row: 70000,
        column: 9,
    };
    let mut places = [mark; 1];
    let mut log = Log::new(&mut places);
    assert!(rt; log.add(mark).is_ok());
    let mut text = String::from_str(heap, "at ")?;
    assert!(rt; log.write_entry(0, heap, &mut text).is_ok());
    assert_eq!(rt; text.as_str(), "at 70000 9", "a line, and no other text");
    let line = line_behind(&mark, heap)?;
    assert_eq!(rt; line.as_str(), "70000 9", "the line behind a pointer");
    Ok(())
}

#[test]
fn numbered_lines(rt: HostRuntime) -> Result<(), Fail> {
    let heap = rt.alloc();
    let halted = Retirement {
        place: 3,
        action: Action::Halt,
    };
    let trapped = Retirement {
        place: 70000,
        action: Action::Trap { word: 201072 },
    };
    let mut places = [halted; 3];
    let mut log = Log::new(&mut places);
    assert_eq!(rt; (log.add(trapped), log.add(halted)), (Ok(()), Ok(())));
    let mut text = String::from_str(heap, "all:\n")?;
    write!(text, "{log}")?;
    assert_eq!(rt;
        text.as_str(),
        "all:\n1 70000 3 15 201072\n2 3 4 0 0\n",
        "a line for each entry, and none for the free place"
    );
    Ok(())
}
