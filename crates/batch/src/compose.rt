// The text of a sheet line, and its way into a lent buffer.
ghost use Rattle.std.specs.Prelude.{◌≡◌, ◌+◌, ◌≤◌, [], ◌++◌, length, Some, Ok};
ghost use Rattle.arrayvec.specs.ArrayString.{array_string_len};
ghost use Rattle.members.specs.Groups.{members_of};
ghost use Rattle.batch.specs.Sheets.{line_text, close, listed, remark as told, answer_of, filled_by};

use crate::sheet::{MAX_LINE, SheetLine};
use arrayvec::ArrayString;
use credit::refusal::Refusal;
use itoa::{Buffer, Integer};
use members::group::Group;
use std::fmt;

// A line that is being put together. `push_str` and no `write!`: std's contract lets a `fmt` fail where there is room, and `write` may not.
type Text = ArrayString<MAX_LINE>;

// Adds a word and a number.
fn add<I: Integer>(text: &mut Text, word: &str, n: I)
    requires { array_string_len text.old + length word.now + I.MAX_STR_LEN ≤ MAX_LINE }
    ensures bytes { text.new.bytes ≡ text.old.bytes ++ (word.now ++ I.text n) }
    ensures len { array_string_len text.new ≤ array_string_len text.old + length word.now + I.MAX_STR_LEN }
{
    text.push_str(word);
    text.push_str(Buffer::new().format(n));
}

// Adds a space and the number of each member of the group, rising. That is 192 bytes at most, and one number's room is asked beside.
#[tactic(auto, using(crate::proofs::Shorts::group))]
fn add_members(text: &mut Text, group: Group)
    requires { array_string_len text.old + 203 ≤ MAX_LINE }
    ensures bytes { text.new.bytes ≡ text.old.bytes ++ listed (members_of group.bits) }
    ensures len { array_string_len text.new ≤ array_string_len text.old + 192 }
{
    // not by `add`, which copies the space as a text and makes a buffer for each number
    let mut digits = Buffer::new();
    for member in group.walk() {
        text.push(' ');
        text.push_str(digits.format(member));
    }
}

// Adds what a refusal tells beside its number.
fn add_remark(text: &mut Text, refusal: Refusal)
    requires { array_string_len text.old + 215 ≤ MAX_LINE }
    ensures bytes { text.new.bytes ≡ text.old.bytes ++ told refusal }
    ensures len { array_string_len text.new ≤ array_string_len text.old + 204 }
{
    if let Refusal::WantOfRoom { group, room } = refusal {
        add(text, " ", room);
        add_members(text, group);
    }
}

impl SheetLine {
    // Adds the line up to its closing bracket, and leaves room for that.
    fn add_open(&self, text: &mut Text)
        requires { text.old.bytes ≡ [] }
        ensures bytes { text.new.bytes ++ close ≡ line_text self.now }
        ensures room { array_string_len text.new + 2 ≤ MAX_LINE }
    {
        match *self {
            SheetLine::Done { line } => add(text, "(ok ", line),
            SheetLine::Kept { line } => add(text, "(kept ", line),
            SheetLine::Undone { line } => add(text, "(undone ", line),
            SheetLine::Refused { line, refusal } => {
                add(text, "(no ", line);
                add(text, " ", refusal.number());
                add_remark(text, refusal);
            }
            SheetLine::Net { member, net } => {
                add(text, "(net ", member);
                add(text, " ", net);
            }
            SheetLine::Debt { a, b, debt } => {
                add(text, "(debt ", a);
                add(text, " ", b);
                add(text, " ", debt);
            }
            SheetLine::End => text.push_str("(end"),
        }
    }

    // The line with its line feed.
    fn text(&self) -> Text
        ensures { result.bytes ≡ line_text self.now }
    {
        let mut text = Text::new();
        self.add_open(&mut text);
        text.push_str(")\n");
        text
    }

    // Writes the line and its line feed to the front of the buffer, no byte more, and answers their length.
    pub fn write(&self, buffer: &mut [u8]) -> Result<usize, Refusal>
        ensures value { result ≡ answer_of (line_text self.now) buffer.old }
        ensures after { buffer.new ≡ filled_by (line_text self.now) buffer.old }
        ensures always { 256 ≤ length buffer.old → result ≡ Ok (length (line_text self.now)) }
    {
        let text = self.text();
        let bytes = text.as_str().as_bytes();
        let n = bytes.len();
        if buffer.len() < n {
            return Err(Refusal::BufferTooShort);
        }
        buffer[..n].copy_from_slice(bytes);
        Ok(n)
    }
}

impl fmt::Display for SheetLine {
    ghost output = { λ x. Some (line_text x) };

    fn fmt<W: fmt::Write>(&self, f: &mut fmt::Formatter<W>) -> fmt::Result {
        f.write_str(self.text().as_str())
    }
}
