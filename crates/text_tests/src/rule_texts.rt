// Tests of rule texts: which are accepted, what is told of the others, and the sheet after each.
use sheet::sheet::Sheet;
use std::alloc::{AllocError, Global};
use std::process::Abort;
use std::test::Fail;
use text::rule_text::add_rule_text;

// What is told of a text: 0 and a rule's number, or a refusal's number and its place (0 for none).
fn told(sheet: &mut Sheet, text: &[u8]) -> (u8, usize) {
    match add_rule_text(sheet, text) {
        Ok(rule) => (0, usize::from(rule)),
        Err(refusal) => (refusal.number(), refusal.place().unwrap_or(0)),
    }
}

// What is told of a text on a new sheet.
fn alone(heap: Global, text: &[u8]) -> Result<(u8, usize), AllocError> {
    let mut sheet = Sheet::new(heap)?;
    Ok(told(&mut sheet, text))
}

// Each front of a rule text stops early, and each of its bytes can be the first bad one.
fn broken_at_each_byte(rt: &impl Abort, heap: Global, text: &[u8]) -> Result<(), Fail> {
    assert_eq!(rt; alone(heap, text)?, (0, 0));
    for k in 0..text.len() {
        assert_eq!(rt; alone(heap, &text[0..k])?, (14, k));
        let mut broken = text.to_vec(heap)?;
        assert!(rt; k < broken.len());
        broken[k] = b'#';
        assert_eq!(rt; alone(heap, &broken)?, (14, k));
    }
    Ok(())
}

#[test]
fn each_word_broken(rt: HostRuntime) -> Result<(), Fail> {
    broken_at_each_byte(
        &rt,
        rt.alloc(),
        b"(s12 and (not start)) => ((true or false) until (next end))",
    )?;
    broken_at_each_byte(
        &rt,
        rt.alloc(),
        b"((yest start) since s7) => (false or (true since s0))",
    )
}

#[test]
fn numbers(rt: HostRuntime) -> Result<(), Fail> {
    assert_eq!(rt; alone(rt.alloc(), b"s0 => s63")?, (0, 0));
    assert_eq!(rt; alone(rt.alloc(), b"s64 => true")?, (12, 0));
    assert_eq!(rt; alone(rt.alloc(), b"s99 => true")?, (12, 0));
    assert_eq!(rt; alone(rt.alloc(), b"s07 => true")?, (14, 2));
    assert_eq!(rt; alone(rt.alloc(), b"s100 => true")?, (14, 3));
    assert_eq!(rt;
        alone(rt.alloc(), b"s64 => tru")?,
        (14, 10),
        "the text is judged first"
    );
    Ok(())
}

#[test]
fn bad_bytes(rt: HostRuntime) -> Result<(), Fail> {
    assert_eq!(rt; alone(rt.alloc(), b"")?, (14, 0));
    assert_eq!(rt; alone(rt.alloc(), b"\xC3\xA9")?, (14, 0));
    assert_eq!(rt; alone(rt.alloc(), b"s0 => \xFF")?, (14, 6));
    assert_eq!(rt; alone(rt.alloc(), b"tru\xE5 => true")?, (14, 3));
    assert_eq!(rt; alone(rt.alloc(), b"true  => true")?, (14, 5));
    assert_eq!(rt; alone(rt.alloc(), b"true => true ")?, (14, 12));
    assert_eq!(rt; alone(rt.alloc(), b"(true) => true")?, (14, 5));
    Ok(())
}

#[test]
fn classes(rt: HostRuntime) -> Result<(), Fail> {
    assert_eq!(rt;
        alone(rt.alloc(), b"(next (true since s0)) => true")?,
        (13, 0)
    );
    assert_eq!(rt;
        alone(rt.alloc(), b"true => (yest (next s64))")?,
        (12, 0),
        "the first row that is refused"
    );
    Ok(())
}

#[test]
fn depth(rt: HostRuntime) -> Result<(), Fail> {
    let deep =
        b"(not (not (not (not (not (not (not (not (not (not (not (not (not (not (not (not (not s1";
    assert_eq!(rt; alone(rt.alloc(), deep)?, (15, 80));
    assert_eq!(rt;
        alone(rt.alloc(), &deep[0..82])?,
        (15, 80),
        "before the end"
    );
    assert_eq!(rt;
        alone(rt.alloc(), &deep[0..80])?,
        (14, 80),
        "the text stops first"
    );
    let sixteen =
        b"(not (not (not (not (not (not (not (not (not (not (not (not (not (not (not (not s1)))))))))))))))) => end";
    assert_eq!(rt; alone(rt.alloc(), sixteen)?, (0, 0));
    Ok(())
}

// A rule of 32 rows.
const FULL: &[u8] =
    b"(not (not (not (not (not (not (not (not (not (not (not (not (not (not (not (not s1)))))))))))))))) => (not (not (not (not (not (not (not (not (not (not (not (not (not (not s2))))))))))))))";

// A rule of 33 rows.
const OVER: &[u8] =
    b"(not (not (not (not (not (not (not (not (not (not (not (not (not (not (not (not s1)))))))))))))))) => (not (not (not (not (not (not (not (not (not (not (not (not (not (not (not s2)))))))))))))))";

#[test]
fn row_33(rt: HostRuntime) -> Result<(), Fail> {
    let mut sheet = Sheet::new(rt.alloc())?;
    assert_eq!(rt; told(&mut sheet, OVER), (11, 0));
    assert_eq!(rt; sheet.rows().len(), 0, "no row is left behind");
    assert_eq!(rt; told(&mut sheet, FULL), (0, 0));
    assert_eq!(rt; sheet.rows().len(), 32);
    assert_eq!(rt; told(&mut sheet, b"true => true"), (11, 0));
    assert_eq!(rt; sheet.rows().len(), 32);
    assert_eq!(rt; sheet.rules().len(), 1);
    Ok(())
}

#[test]
fn rule_9(rt: HostRuntime) -> Result<(), Fail> {
    let mut sheet = Sheet::new(rt.alloc())?;
    for n in 0..8 {
        assert_eq!(rt; told(&mut sheet, b"s1 => s2"), (0, n));
    }
    assert_eq!(rt; told(&mut sheet, b"s1 => s2"), (11, 0));
    assert_eq!(rt; sheet.rows().len(), 16);
    assert_eq!(rt; sheet.rules().len(), 8);
    assert_eq!(rt;
        told(&mut sheet, b"s1 => s64"),
        (12, 0),
        "a row is judged before the rule"
    );
    Ok(())
}
