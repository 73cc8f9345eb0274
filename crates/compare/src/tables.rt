// The tables that show two runs side by side.
ghost use Rattle.std.specs.Prelude.{◌≡◌};

use calls::call::Answer;
use credit::line::Line;
use replay::entry::Entry;
use replay::replay::TwoRuns;

// How many pairs differ.
fn differing<T, F: Fn(&T, &T) -> bool>(one: &[T], other: &[T], agree: F) -> usize
    requires { F.IsAlwaysCallable agree }
{
    one.iter()
        .zip(other)
        .filter(|(left, right)| !agree(left, right))
        .count()
}

// Whether two answers agree: a refusal counts by its number.
fn agree(one: Answer, other: Answer) -> bool {
    match (one, other) {
        (Answer::Refused(refusal), Answer::Refused(rival)) => refusal.number() == rival.number(),
        _ => one == other,
    }
}

// Why a call was refused, under its row.
fn print_reason(rt: &HostRuntime, router: &str, answer: Answer) -> anyhow::Result<()> {
    if let Answer::Refused(refusal) = answer {
        println!(rt; "    {router}: {refusal}")?;
    }
    Ok(())
}

// One call with its two answers.
fn print_call(rt: &HostRuntime, one: &Entry, other: &Entry) -> anyhow::Result<()> {
    let asked = format!(in rt.alloc(); "{}", one.call)?;
    let left = format!(in rt.alloc(); "{}", one.answer)?;
    let right = format!(in rt.alloc(); "{}", other.answer)?;
    println!(rt; "{asked:<24}{left:<18}{right}")?;
    print_reason(rt, "direct breadth", one.answer)?;
    print_reason(rt, "kept scaling", other.answer)
}

// Every call with its two answers, then how many calls have other answers, or other net positions after them.
pub fn print_calls(rt: &HostRuntime, runs: &TwoRuns) -> anyhow::Result<()> {
    let one = runs.one.entries.as_slice();
    let other = runs.other.entries.as_slice();
    println!(rt; "{:<24}{:<18}{}", "call", "direct breadth", "kept scaling")?;
    for (left, right) in one.iter().zip(other) {
        print_call(rt, left, right)?;
    }
    let count = one.len();
    let answers = differing(one, other, |left, right| agree(left.answer, right.answer));
    let nets = differing(one, other, |left, right| left.nets == right.nets);
    println!(rt;
        "Of {count} calls {answers} have other answers, and {nets} leave other net positions.\n"
    )?;
    Ok(())
}

// A line or a member with its number in each run, a debt or a net position.
fn print_row(rt: &HostRuntime, label: &str, left: i32, right: i32) -> anyhow::Result<()> {
    let mark = if left == right { "" } else { "   differs" };
    println!(rt; "{label:<8}{left:>18}{right:>16}{mark}")?;
    Ok(())
}

// Every line with its two debts, then how many debts differ.
pub fn print_lines(rt: &HostRuntime, runs: &TwoRuns) -> anyhow::Result<()> {
    let one = runs.one.lines.as_slice();
    let other = runs.other.lines.as_slice();
    println!(rt;
        "{:<8}{:>18}{:>16}",
        "line", "direct breadth", "kept scaling"
    )?;
    for (left, right) in one.iter().zip(other) {
        let label = format!(in rt.alloc(); "{:>4}{:>4}", left.a, left.b)?;
        print_row(rt, &label, left.debt, right.debt)?;
    }
    let count = one.len();
    let debts = differing(one, other, |left, right| left.debt == right.debt);
    println!(rt; "Of {count} debts {debts} differ.\n")?;
    Ok(())
}

// Whether a member has a line.
fn has_line(lines: &[Line], member: u32) -> bool {
    lines
        .iter()
        .any(|line| line.a == member || line.b == member)
}

// The net positions after the last call; 0 where there was none.
fn last_nets(entries: &[Entry]) -> [i32; 64] {
    entries.last().map_or([0; 64], |entry| entry.nets)
}

// The two net positions of every member that has a line, then how many differ.
pub fn print_nets(rt: &HostRuntime, runs: &TwoRuns) -> anyhow::Result<()> {
    let one = last_nets(&runs.one.entries);
    let other = last_nets(&runs.other.entries);
    let lines = runs.one.lines.as_slice();
    println!(rt;
        "{:<8}{:>18}{:>16}",
        "member", "direct breadth", "kept scaling"
    )?;
    for ((member, left), right) in (0..64).zip(&one).zip(&other) {
        if has_line(lines, member) {
            let label = format!(in rt.alloc(); "{member:>4}")?;
            print_row(rt, &label, *left, *right)?;
        }
    }
    let count = (0..64).filter(|member| has_line(lines, *member)).count();
    print_verdict(
        rt,
        count,
        differing(&one, &other, |left, right| left == right),
    )
}

// Whether the net positions agree.
fn print_verdict(rt: &HostRuntime, count: usize, differing: usize) -> anyhow::Result<()> {
    if differing == 0 {
        println!(rt; "All {count} net positions agree.")?;
    } else {
        println!(rt; "{differing} net positions differ.")?;
    }
    Ok(())
}
