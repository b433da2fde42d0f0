//! The unit that looks words up.
use memory::LentWords;
use unit::{Fault, Unit, WordTable};

#[test]
fn words_by_address(rt: HostRuntime) {
    let mut words = [7, 8, 4294967295];
    let table = WordTable::new(LentWords::new(&mut words));
    assert_eq!(rt; table.ask(0, 0, 0), Ok(7), "the first word");
    assert_eq!(rt;
        table.ask(0, 2, 1),
        Ok(4294967295),
        "the last; b is ignored"
    );
    assert_eq!(rt; table.ask(0, 3, 0), Err(Fault { number: 2 }), "outside");
    assert_eq!(rt;
        table.ask(1, 0, 0),
        Err(Fault { number: 15 }),
        "operation 1 is unknown"
    );
    assert_eq!(rt;
        table.ask(255, 0, 0),
        Err(Fault { number: 15 }),
        "no operation at all"
    );
}

#[test]
fn no_words(rt: HostRuntime) {
    let mut words = [];
    let table = WordTable::new(LentWords::new(&mut words));
    assert_eq!(rt;
        table.ask(0, 0, 0),
        Err(Fault { number: 2 }),
        "every address is outside"
    );
}

#[test]
fn known_set(rt: HostRuntime) {
    assert_eq!(rt; WordTable::<LentWords<'_>>::KNOWN, 1, "operation 0 alone");
}
