// Batches with the whole text of their sheets.
use batch::text::sheet_text;
use closing::batches::{LONGEST_BATCH, close_batch};
use credit::payment::Payment;
use filling::router::Breadth;
use ledger::state::Ledger;
use std::test::*;

// The whole text of the sheet of a batch.
fn sheet_of(rt: &HostRuntime, ledger: &mut Ledger, batch: &[u8]) -> Result<Vec<u8>, Fail> {
    let sheet = close_batch(ledger, batch, rt.alloc())?;
    Ok(sheet_text(sheet.as_slice(), rt.alloc())?)
}

// The batch closes with this sheet.
fn closes(rt: &HostRuntime, ledger: &mut Ledger, batch: &[u8], sheet: &[u8]) -> Result<(), Fail> {
    let text = sheet_of(rt, ledger, batch)?;
    if text.as_slice() == sheet {
        Ok(())
    } else {
        Err(Fail::new("another sheet"))
    }
}

#[test]
fn forms(rt: HostRuntime) -> Result<(), Fail> {
    let table: [(&[u8], &[u8]); 18] = [
        (b"", b"(end)\n"),
        (b"(tidy)", b"(ok 1)\n(end)\n"),
        (
            b"(line 1 2 1000000 1000000 000000000000 )\n",
            b"(no 1 3)\n(end)\n",
        ),
        (
            b"(line 1 2 1000000 1000000 0000000000000 )\n",
            b"(no 1 1)\n(end)\n",
        ),
        (b"\xff\n", b"(no 1 2)\n(end)\n"),
        (b"(pay 1 2 \xff)\n", b"(no 1 4)\n(end)\n"),
        (b"(tidy)\r\n", b"(no 1 2)\n(end)\n"),
        (b"(pay 1 2 3)\r\n", b"(no 1 3)\n(end)\n"),
        (b"\0", b"(no 1 2)\n(end)\n"),
        (b"(pay 1 2 3\0)\n", b"(no 1 4)\n(end)\n"),
        (b"(pay 1 2 12345678)\n", b"(no 1 4)\n(end)\n"),
        (b"(pay 1  3)\n", b"(no 1 4)\n(end)\n"),
        (b"(pay 1 2)\n", b"(no 1 3)\n(end)\n"),
        (b"\n", b"(no 1 2)\n(end)\n"),
        (b"(route kept) \n", b"(no 1 2)\n(end)\n"),
        (b"(tidy)\n\n(tidy)\n", b"(ok 1)\n(no 2 2)\n(end)\n"),
        (b"(tidy)\n)\n(tidy)\n", b"(ok 1)\n(no 2 14)\n(end)\n"),
        (
            b"(all\n(all\n(all\n(all\n(all\n(all\n(all\n(all\n(all\n(tidy)\n",
            b"(ok 1)\n(ok 2)\n(ok 3)\n(ok 4)\n(ok 5)\n(ok 6)\n(ok 7)\n(ok 8)\n(no 9 13)\n(no 8 18)\n(no 7 18)\n(no 6 18)\n(no 5 18)\n(no 4 18)\n(no 3 18)\n(no 2 18)\n(no 1 18)\n(end)\n",
        ),
    ];
    for (batch, sheet) in table {
        let mut ledger = Ledger::new(rt.alloc())?;
        closes(&rt, &mut ledger, batch, sheet)?;
    }
    Ok(())
}

#[test]
fn payments(rt: HostRuntime) -> Result<(), Fail> {
    let table: [(&[u8], &[u8]); 10] = [
        (
            b"(line 1 2 50 30)\n(pay 1 2 8)\n(all\n(pay 1 2 1)\n(all\n(pay 1 2 2)\n(all\n(pay 2 1 4)",
            b"(ok 1)\n(ok 2)\n(ok 3)\n(ok 4)\n(ok 5)\n(ok 6)\n(ok 7)\n(ok 8)\n(no 7 18)\n(no 5 18)\n(no 3 18)\n(net 1 -8)\n(net 2 8)\n(debt 1 2 -8)\n(end)\n",
        ),
        (
            b"(line 64 1 0 0)\n(line 1 1 0 0)\n(line 1 2 1000001 0)\n(line 2 1 50 30)\n(line 1 2 0 0)\n(pay 1 64 1)\n(pay 1 1 1)\n(pay 1 2 0)\n(all\n(line 3 4 1 1)\n)\n",
            b"(no 1 5)\n(no 2 6)\n(no 3 7)\n(ok 4)\n(no 5 10)\n(no 6 5)\n(no 7 6)\n(no 8 7)\n(ok 9)\n(no 10 12)\n(kept 11)\n(net 1 0)\n(net 2 0)\n(debt 1 2 0)\n(end)\n",
        ),
        (
            b"(line 1 2 50 30)\n(all\n(pay 1 2 10)\n(pay 1 1 1)\n(pay 1 2 1)\n(try 1 2 1)\n(all\n(pay 1 2 1)\n)\n)\n(pay 1 2 1)\n",
            b"(ok 1)\n(ok 2)\n(ok 3)\n(no 4 6)\n(no 5 9)\n(no 6 9)\n(ok 7)\n(no 8 9)\n(undone 9)\n(undone 10)\n(ok 11)\n(net 1 -1)\n(net 2 1)\n(debt 1 2 -1)\n(end)\n",
        ),
        (
            b"(line 1 2 50 30)\n(all\n(pay 1 2 3)\n(all\n(pay 1 2 99)\n)\n(try 1 2 99)\n(pay 1 2 4)\n)\n",
            b"(ok 1)\n(ok 2)\n(ok 3)\n(ok 4)\n(no 5 16 27 1)\n(undone 6)\n(no 7 16 27 1)\n(ok 8)\n(kept 9)\n(net 1 -7)\n(net 2 7)\n(debt 1 2 -7)\n(end)\n",
        ),
        (
            b"(line 1 2 50 30)\n(try 1 2 30)\n(try 1 2 31)\n(try 2 1 50)\n(pay 1 2 30)\n",
            b"(ok 1)\n(ok 2)\n(no 3 16 30 1)\n(ok 4)\n(ok 5)\n(net 1 -30)\n(net 2 30)\n(debt 1 2 -30)\n(end)\n",
        ),
        (
            b"(line 1 2 9 9)\n(line 2 3 9 9)\n(line 3 1 9 9)\n(pay 1 2 5)\n(pay 2 3 5)\n(pay 3 1 3)\n(tidy)\n",
            b"(ok 1)\n(ok 2)\n(ok 3)\n(ok 4)\n(ok 5)\n(ok 6)\n(ok 7)\n(net 1 -2)\n(net 2 0)\n(net 3 2)\n(debt 1 2 -2)\n(debt 2 3 -2)\n(debt 1 3 0)\n(end)\n",
        ),
        (
            b"(route kept)\n(line 1 2 50 30)\n(route scaling)\n(pay 1 2 25)\n(route breadth)\n(pay 2 1 5)\n(route kept)\n(pay 1 2 10)\n(route none)\n",
            b"(ok 1)\n(ok 2)\n(ok 3)\n(ok 4)\n(ok 5)\n(ok 6)\n(ok 7)\n(ok 8)\n(no 9 2)\n(net 1 -30)\n(net 2 30)\n(debt 1 2 -30)\n(end)\n",
        ),
        // direct first at the start: the line that joins the two carries what it can
        (
            b"(line 1 2 0 4)\n(line 1 3 0 16)\n(line 2 3 16 0)\n(pay 1 2 10)\n",
            b"(ok 1)\n(ok 2)\n(ok 3)\n(ok 4)\n(net 1 -10)\n(net 2 10)\n(net 3 0)\n(debt 1 2 -4)\n(debt 1 3 -6)\n(debt 2 3 6)\n(end)\n",
        ),
        // scaling, still picked a line later, takes the wider chain
        (
            b"(line 1 2 0 4)\n(line 1 3 0 16)\n(line 2 3 16 0)\n(route scaling)\n(tidy)\n(pay 1 2 10)\n",
            b"(ok 1)\n(ok 2)\n(ok 3)\n(ok 4)\n(ok 5)\n(ok 6)\n(net 1 -10)\n(net 2 10)\n(net 3 0)\n(debt 1 2 0)\n(debt 1 3 -10)\n(debt 2 3 10)\n(end)\n",
        ),
        // kept names the group that it remembers, scaling the group that it finds
        (
            b"(line 1 2 0 4)\n(line 2 3 0 3)\n(route kept)\n(pay 1 2 5)\n(pay 1 3 5)\n(route scaling)\n(pay 1 3 5)\n",
            b"(ok 1)\n(ok 2)\n(ok 3)\n(no 4 16 4 1)\n(no 5 16 4 1)\n(ok 6)\n(no 7 16 3 1 2)\n(net 1 0)\n(net 2 0)\n(net 3 0)\n(debt 1 2 0)\n(debt 2 3 0)\n(end)\n",
        ),
    ];
    for (batch, sheet) in table {
        let mut ledger = Ledger::new(rt.alloc())?;
        closes(&rt, &mut ledger, batch, sheet)?;
    }
    Ok(())
}

// 4,680 lines of as many bytes as a batch may have, and one byte more, by which nothing is carried out.
#[test]
fn longest(rt: HostRuntime) -> Result<(), Fail> {
    let mut batch = Vec::new(rt.alloc());
    batch.extend_from_slice(b"(line 1 2 5 5)\n")?;
    for _ in 0..4679 {
        batch.extend_from_slice(b"(tidy)\n")?;
    }
    assert_eq!(rt; batch.len(), LONGEST_BATCH);
    let mut ledger = Ledger::new(rt.alloc())?;
    let text = sheet_of(&rt, &mut ledger, &batch)?;
    let end = b"(ok 4680)\n(net 1 0)\n(net 2 0)\n(debt 1 2 0)\n(end)\n".as_slice();
    assert!(rt; text.as_slice().ends_with(end));
    batch.extend_from_slice(b"\n")?;
    let mut other = Ledger::new(rt.alloc())?;
    closes(&rt, &mut other, &batch, b"(no 0 20)\n")?;
    closes(&rt, &mut other, b"", b"(end)\n")
}

// More lines than a ledger has places for.
#[test]
fn many_lines(rt: HostRuntime) -> Result<(), Fail> {
    let mut batch = String::new(rt.alloc());
    for first in 1..7 {
        for second in 10..60 {
            writeln!(batch, "(line {first} {second} 1 1)")?;
        }
    }
    let mut ledger = Ledger::new(rt.alloc())?;
    let text = sheet_of(&rt, &mut ledger, batch.as_bytes())?;
    assert!(rt; text.len() >= 2208);
    assert!(rt; &text[2187..2208] == b"(ok 256)\n(no 257 11)\n".as_slice());
    Ok(())
}

// A batch that ends inside a group leaves the next one outside of every group.
#[test]
fn two_batches(rt: HostRuntime) -> Result<(), Fail> {
    let mut ledger = Ledger::new(rt.alloc())?;
    closes(
        &rt,
        &mut ledger,
        b"(line 1 2 50 30)\n(pay 1 2 5)\n(all\n(pay 1 2 7)\n",
        b"(ok 1)\n(ok 2)\n(ok 3)\n(ok 4)\n(no 3 18)\n(net 1 -5)\n(net 2 5)\n(debt 1 2 -5)\n(end)\n",
    )?;
    closes(
        &rt,
        &mut ledger,
        b"(line 3 2 1 1)\n)\n",
        b"(ok 1)\n(no 2 14)\n(net 1 -5)\n(net 2 5)\n(net 3 0)\n(debt 1 2 -5)\n(debt 2 3 0)\n(end)\n",
    )
}

// A batch is refused at its door while a group of payments is open, and while a reservation stands.
#[test]
fn doors(rt: HostRuntime) -> Result<(), Fail> {
    let mut ledger = Ledger::new(rt.alloc())?;
    closes(
        &rt,
        &mut ledger,
        b"(line 1 2 50 30)\n",
        b"(ok 1)\n(net 1 0)\n(net 2 0)\n(debt 1 2 0)\n(end)\n",
    )?;
    assert!(rt; ledger.begin().is_ok());
    closes(&rt, &mut ledger, b"(pay 1 2 5)\n", b"(no 0 12)\n")?;
    assert!(rt; ledger.abandon().is_ok());
    let payment = Payment {
        payer: 1,
        payee: 2,
        amount: 5,
    };
    let token = ledger.reserve(&mut Breadth {}, payment, &mut [0; 256])?;
    let shut = closes(&rt, &mut ledger, b"(pay 1 2 5)\n", b"(no 0 8)\n");
    let released = ledger.release(token);
    shut?;
    assert!(rt; released);
    Ok(())
}
