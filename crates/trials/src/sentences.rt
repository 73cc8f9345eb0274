use batch::form::Form;
use batch::sheet::SheetLine;
use credit::payment::Payment;
use credit::refusal::Refusal;
use explain::sentence::Sentence;
use explain::whole::explain;
use members::group::Group;
use std::test::*;

fn refused(line: usize, form: Option<Form>, refusal: Refusal) -> Sentence {
    Sentence {
        form,
        line: SheetLine::Refused { line, refusal },
    }
}

fn plain(line: SheetLine) -> Sentence {
    Sentence { form: None, line }
}

#[test]
fn sentences(rt: HostRuntime) -> Result<(), Fail> {
    let pay = Form::Pay(Payment {
        payer: 1,
        payee: 1,
        amount: 3,
    });
    let want = Refusal::WantOfRoom {
        group: Group {
            bits: 1 << 63 | 1 << 9 | 2,
        },
        room: 1,
    };
    let debt = SheetLine::Debt {
        a: 1,
        b: 2,
        debt: 1,
    };
    let even = SheetLine::Debt {
        a: 1,
        b: 3,
        debt: 0,
    };
    let table: [(Sentence, &str); 6] = [
        (
            refused(5, Some(pay), want),
            "Line 5: member 1 pays member 1 3 minutes: refused (16), want of room: members 1, 9 and 63 together can pay others only 1 minute more, 2 too few.",
        ),
        (
            refused(4, Some(pay), Refusal::SameMember),
            "Line 4: member 1 pays member 1 3 minutes: refused (6), both members are the same.",
        ),
        (
            refused(9, None, Refusal::UnknownForm),
            "Line 9: refused (2), not one of the forms.",
        ),
        (
            refused(0, None, Refusal::BatchTooLong),
            "The whole batch: refused (20), a batch has more than 32,768 bytes.",
        ),
        (plain(debt), "Member 2 owes member 1 1 minute."),
        (plain(even), "Members 1 and 3 owe each other nothing."),
    ];
    for (sentence, text) in table {
        let told = format!(in rt.alloc(); "{sentence}")?;
        assert_eq!(rt; told.as_str(), text);
    }
    Ok(())
}

#[test]
fn whole_sheet(rt: HostRuntime) -> Result<(), Fail> {
    let want = Refusal::WantOfRoom {
        group: Group { bits: 2 },
        room: 5,
    };
    let sheet = [
        SheetLine::Done { line: 1 },
        SheetLine::Done { line: 2 },
        SheetLine::Done { line: 3 },
        SheetLine::Done { line: 4 },
        SheetLine::Refused {
            line: 5,
            refusal: want,
        },
        SheetLine::Undone { line: 6 },
        SheetLine::Done { line: 7 },
        SheetLine::Done { line: 8 },
        SheetLine::Refused {
            line: 7,
            refusal: Refusal::LeftOpen,
        },
        SheetLine::Net {
            member: 1,
            net: -25,
        },
        SheetLine::Net { member: 2, net: 0 },
        SheetLine::Net { member: 3, net: 25 },
        SheetLine::Debt {
            a: 1,
            b: 2,
            debt: -25,
        },
        SheetLine::Debt {
            a: 2,
            b: 3,
            debt: -25,
        },
        SheetLine::End,
    ];
    let batch =
        b"(line 1 2 50 30)\n(line 2 3 20 40)\n(pay 1 3 25)\n(all\n(pay 1 3 99)\n)\n(all\n(pay 3 1 10)\n";
    let text = explain(batch, &sheet, rt.alloc())?;
    assert_eq!(rt;
        text.as_str(),
        "Line 1: member 1 trusts member 2 for 50 minutes and is trusted for 30 minutes: done.
Line 2: member 2 trusts member 3 for 20 minutes and is trusted for 40 minutes: done.
Line 3: member 1 pays member 3 25 minutes: done.
Line 4: a group of payments begins: done.
Line 5: member 1 pays member 3 99 minutes: refused (16), want of room: member 1 can pay others only 5 minutes more, 94 too few.
Line 6: the group of payments is undone.
Line 7: a group of payments begins: done.
Line 8: member 3 pays member 1 10 minutes: done.
The group of payments that line 7 began was open at the end: it is undone.
Member 1 owes 25 minutes on balance.
Member 2 is even.
Member 3 is owed 25 minutes on balance.
Member 1 owes member 2 25 minutes.
Member 2 owes member 3 25 minutes.
End of the sheet.
"
    );
    Ok(())
}
