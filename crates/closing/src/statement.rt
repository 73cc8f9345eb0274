// For the run of a batch: callers keep places for what is added to the sheet.
ghost use Rattle.std.specs.Prelude.{◌≡◌, ◌+◌, ◌<◌, ◌≤◌, ◌++◌, map, length, vec_len, vec_capacity};
ghost use Rattle.std.specs.List.{range_with_len};
ghost use Rattle.credit.specs.Net.{net as net_of, net_table};
ghost use Rattle.closing.specs.Statements.{on_line, has_line, net_line, net_lines, debt_line, debt_lines, statement};

use batch::sheet::SheetLine;
use credit::line::Line;

// Whether a line is one of the member's.
fn touches(line: &Line, member: u32) -> bool
    ensures { result ≡ on_line member line.now }
{
    line.a == member || line.b == member
}

// Whether a member has a line.
fn has_line(lines: &[Line], member: u32) -> bool
    ensures { result ≡ has_line member lines.now }
{
    lines.iter().any(|line| touches(line, member))
}

// Adds a member's net position, if it has a line.
fn add_net(sheet: &mut Vec<SheetLine>, lines: &[Line], member: u32, net: i32)
    requires place { vec_len sheet.old < vec_capacity sheet.old }
    requires value { net ≡ net_of member lines.now }
    ensures items { sheet.new.items ≡ sheet.old.items ++ net_line lines.now member }
    ensures len { vec_len sheet.new ≤ vec_len sheet.old + 1 }
    ensures capacity { vec_capacity sheet.new ≡ vec_capacity sheet.old }
{
    if has_line(lines, member) {
        sheet.push_reserved(SheetLine::Net { member, net });
    }
}

// Adds the net positions of all members that have a line, rising.
#[tactic(auto, using(std::proofs::lemmas::List::flat_map_more), unfolding(crate::specs::Statements::net_lines))]
fn add_nets(sheet: &mut Vec<SheetLine>, lines: &[Line], nets: &[i32; 64])
    requires places { vec_len sheet.old + 64 ≤ vec_capacity sheet.old }
    requires values { nets.now ≡ net_table lines.now }
    ensures items { sheet.new.items ≡ sheet.old.items ++ net_lines lines.now (range_with_len 0 64) }
    ensures len { vec_len sheet.new ≤ vec_len sheet.old + 64 }
    ensures capacity { vec_capacity sheet.new ≡ vec_capacity sheet.old }
{
    for (member, net) in (0..64).zip(nets) {
        add_net(sheet, lines, member, *net);
    }
}

// What the sheet says of a line.
fn debt_line(line: &Line) -> SheetLine
    ensures { result ≡ debt_line line.now }
{
    SheetLine::Debt {
        a: line.a,
        b: line.b,
        debt: line.debt,
    }
}

// Adds the debt of each line.
fn add_debts(sheet: &mut Vec<SheetLine>, lines: &[Line])
    requires places { vec_len sheet.old + length lines.now ≤ vec_capacity sheet.old }
    ensures items { sheet.new.items ≡ sheet.old.items ++ debt_lines lines.now }
    ensures len { vec_len sheet.new ≡ vec_len sheet.old + length lines.now }
    ensures capacity { vec_capacity sheet.new ≡ vec_capacity sheet.old }
{
    for line in lines {
        sheet.push_reserved(debt_line(line));
    }
}

// Adds the statement: net positions, debts, and the end.
#[tactic(auto, using(std::proofs::Common::append_assoc), unfolding(crate::specs::Statements::statement))]
pub(crate) fn add_statement(sheet: &mut Vec<SheetLine>, lines: &[Line], nets: &[i32; 64])
    requires places { vec_len sheet.old + 65 + length lines.now ≤ vec_capacity sheet.old }
    requires values { nets.now ≡ net_table lines.now }
    ensures items { sheet.new.items ≡ sheet.old.items ++ statement lines.now }
{
    add_nets(sheet, lines, nets);
    add_debts(sheet, lines);
    sheet.push_reserved(SheetLine::End);
}
