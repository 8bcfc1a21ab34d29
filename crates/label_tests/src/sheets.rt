// Tests of adding rows and rules: the limits, the order of refusals, and the classes of rows.
use sheet::refusal::Refusal;
use sheet::row::{Class, Row, Rule};
use sheet::sheet::Sheet;
use std::test::Fail;

// An answer with the refusal's number in place of the refusal.
fn told(answer: Result<u8, Refusal>) -> Result<u8, u8> {
    answer.map_err(|refusal| refusal.number())
}

// A letter for each class.
fn letter(class: Class) -> u8 {
    match class {
        Class::Present => b'n',
        Class::Past => b'p',
        Class::Future => b'f',
        Class::Mixed => b'm',
    }
}

#[test]
fn limits(rt: HostRuntime) -> Result<(), Fail> {
    let mut sheet = Sheet::new(rt.alloc())?;
    for number in 0..32u8 {
        assert_eq!(rt; told(sheet.add_row(Row::Symbol(63))), Ok(number));
    }
    assert_eq!(rt; told(sheet.add_row(Row::True)), Err(11), "row 33");
    let rule = Rule {
        activator: 31,
        target: 0,
    };
    for number in 0..8u8 {
        assert_eq!(rt; told(sheet.add_rule(rule)), Ok(number));
    }
    assert_eq!(rt; told(sheet.add_rule(rule)), Err(11), "rule 9");
    Ok(())
}

#[test]
fn order_of_refusals(rt: HostRuntime) -> Result<(), Fail> {
    let mut sheet = Sheet::new(rt.alloc())?;
    assert_eq!(rt; told(sheet.add_row(Row::Start)), Ok(0));
    assert_eq!(rt; told(sheet.add_row(Row::Symbol(64))), Err(12));
    assert_eq!(rt;
        told(sheet.add_row(Row::Not(1))),
        Err(12),
        "a row is no operand of its own"
    );
    assert_eq!(rt; told(sheet.add_row(Row::Next(0))), Err(13));
    assert_eq!(rt;
        told(sheet.add_row(Row::Until(0, 1))),
        Err(12),
        "not there, before unseparated"
    );
    let absent = Rule {
        activator: 0,
        target: 1,
    };
    assert_eq!(rt; told(sheet.add_rule(absent)), Err(12));
    let present = Rule {
        activator: 0,
        target: 0,
    };
    for _ in 0..8 {
        let _ = sheet.add_rule(present);
    }
    assert_eq!(rt;
        told(sheet.add_rule(absent)),
        Err(11),
        "full, before not there"
    );
    for _ in 0..31 {
        let _ = sheet.add_row(Row::True);
    }
    assert_eq!(rt;
        told(sheet.add_row(Row::Until(0, 99))),
        Err(11),
        "full, before all else"
    );
    Ok(())
}

#[test]
fn joined_classes(rt: HostRuntime) -> Result<(), Fail> {
    let mut sheet = Sheet::new(rt.alloc())?;
    for row in [Row::True, Row::Start, Row::End, Row::And(1, 2)] {
        let _ = sheet.add_row(row);
    }
    for a in 0..4u8 {
        for b in 0..4u8 {
            let _ = sheet.add_row(Row::Or(a, b));
        }
    }
    let expected = b"npfmnpfmppmmfmfmmmmm";
    let classes = sheet.classes();
    assert!(rt; classes.len() == 20);
    for (class, wanted) in classes.iter().zip(expected) {
        assert_eq!(rt; letter(*class), *wanted);
    }
    Ok(())
}
