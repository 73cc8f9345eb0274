use batch::form::Form;
use batch::reader::Reader;
use batch::reading::form;
use batch::sheet::{MAX_LINE, SheetLine};
use credit::refusal::Refusal;
use members::group::Group;
use std::test::*;

#[test]
fn bad_lines(rt: HostRuntime) -> Result<(), Fail> {
    let table: [(&[u8], Option<Refusal>); 22] = [
        (
            b"(line 1 2 1000000 1000000 000000000000 )",
            Some(Refusal::WrongParts),
        ),
        (
            b"(line 1 2 1000000 1000000 0000000000000 )",
            Some(Refusal::LineTooLong),
        ),
        (
            b"((((((((((((((((((((((((((((((((((((((((",
            Some(Refusal::UnknownForm),
        ),
        (
            b"(((((((((((((((((((((((((((((((((((((((((",
            Some(Refusal::LineTooLong),
        ),
        (b"", Some(Refusal::UnknownForm)),
        (b"\r", Some(Refusal::UnknownForm)),
        (b"(tidy)\r", Some(Refusal::UnknownForm)),
        (b"(pay 1 2 3)\r", Some(Refusal::WrongParts)),
        (b"(pay 1 2 3\0)", Some(Refusal::NotANumber)),
        (b"\0", Some(Refusal::UnknownForm)),
        (b"(pay 1 2 \xff)", Some(Refusal::NotANumber)),
        (b"\xc3\xa9", Some(Refusal::UnknownForm)),
        (b"(pay 1 2 12345678)", Some(Refusal::NotANumber)),
        (b"(pay 1 2 9999999)", None),
        (b"(pay 01 2 3)", Some(Refusal::NotANumber)),
        (b"(pay 0 0 00)", Some(Refusal::NotANumber)),
        (b"(pay 1  3)", Some(Refusal::NotANumber)),
        (b"(pay 1 2  3)", Some(Refusal::WrongParts)),
        (b"(pay 1 2)", Some(Refusal::WrongParts)),
        (b"(pay 1 2 3", Some(Refusal::WrongParts)),
        (b"(pay", Some(Refusal::UnknownForm)),
        (b"(pay )", Some(Refusal::WrongParts)),
    ];
    for (line, refusal) in table {
        assert_eq!(rt; form(line).err(), refusal);
    }
    Ok(())
}

#[test]
fn steps(rt: HostRuntime) -> Result<(), Fail> {
    assert!(rt; Reader::new(b"").next().is_none());
    let mut reader = Reader::new(b"(tidy)\n\n(line 1 2 50 0)");
    let first = reader.next().ok_or("a line")?;
    assert_eq!(rt; first.line, 1);
    assert_eq!(rt; first.form?, Form::Tidy);
    let second = reader.next().ok_or("an empty line")?;
    assert!(rt; second.form.is_err());
    let third = reader.next().ok_or("a line without line feed")?;
    assert_eq!(rt; third.line, 3);
    assert_eq!(rt;
        third.form?,
        Form::Line {
            first: 1,
            second: 2,
            trust: 50,
            back: 0,
        }
    );
    assert!(rt; reader.next().is_none());
    Ok(())
}

#[test]
fn lines(rt: HostRuntime) -> Result<(), Fail> {
    let refused = SheetLine::Refused {
        line: 5,
        refusal: Refusal::WantOfRoom {
            group: Group { bits: 1 << 63 | 2 },
            room: -7,
        },
    };
    let printed = format!(in rt.alloc(); "{refused}")?;
    assert_eq!(rt; printed.as_str(), "(no 5 16 -7 1 63)\n");
    let mut buffer = [b'.'; MAX_LINE];
    assert_eq!(rt; refused.write(&mut buffer)?, 18);
    assert!(rt; &buffer[0..19] == b"(no 5 16 -7 1 63)\n.".as_slice());
    let mut short = [b'.'; 5];
    assert!(rt; SheetLine::End.write(&mut short).is_err());
    assert!(rt; short == *b".....");
    Ok(())
}
