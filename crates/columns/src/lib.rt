// A row of the listing and its last line as text (docs/RULES.md, "The listing"): place, type, code and total of a frame in decimal, single blanks between them, and a newline.
#![tactic(auto)]

ghost use Rattle.std.specs.Prelude.{◌≡◌, ◌++◌, ◌+◌, ◌≤◌, length};
ghost use Rattle.std.proofs.lemmas.List.Edits.{sets};
ghost use Rattle.wire.specs.Writing.{Bytes, writes};
ghost use Rattle.columns.specs.Row.{field_of, type_field, row_of, closed_text};

use answers::Answer;
use text::{decimal, put};

// The longest row: four numbers of 20 digits, each with the byte after it.
const MOST: usize = 84;

// Writes a number and the byte after it where there is room for the longest, and answers the place after them.
fn field(line: &mut [u8], at: usize, n: u64, behind: u8) -> usize
    requires { at + 21 ≤ length line.old }
    ensures { (result ≡ at + length (field_of n behind)) × (line.new ≡ sets line.old at (field_of n behind)) }
{
    let Ok(next) = decimal::write(line, at, n) else {
        return at;
    };
    line[next] = behind;
    next + 1
}

// Writes a type, or a dash where none could be read, and the blank after it, likewise.
fn type_field(line: &mut [u8], at: usize, ty: Option<u64>) -> usize
    requires { at + 21 ≤ length line.old }
    ensures { (result ≡ at + length (type_field ty)) × (line.new ≡ sets line.old at (type_field ty)) }
{
    match ty {
        Some(ty) => field(line, at, ty, b' '),
        None => {
            line[at] = b'-';
            line[at + 1] = b' ';
            at + 2
        }
    }
}

// Writes a row at a place. A refusal leaves the output untouched.
pub fn row(
    out: &mut [u8],
    at: usize,
    place: usize,
    ty: Option<u64>,
    code: u64,
    total: u64,
) -> Result<usize, Answer>
    ensures { (result, out.new) ≡ writes (Bytes (row_of place ty code total)) out.old at }
{
    let mut line = [0u8; MOST];
    let after_place = field(&mut line, 0, place as u64, b' ');
    let after_type = type_field(&mut line, after_place, ty);
    let after_code = field(&mut line, after_type, code, b' ');
    let end = field(&mut line, after_code, total, b'\n');
    put::bytes(out, at, &line[..end])
}

// Writes the last line of a connection that was closed with a code. A refusal leaves the output untouched.
pub fn closed(out: &mut [u8], at: usize, code: u64) -> Result<usize, Answer>
    ensures { (result, out.new) ≡ writes (Bytes (closed_text ++ field_of code 10)) out.old at }
{
    let mut line = [0u8; 42];
    let _ = put::bytes(&mut line, 0, b"closed ");
    let end = field(&mut line, 7, code, b'\n');
    put::bytes(out, at, &line[..end])
}
