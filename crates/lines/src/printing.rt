// The lines that are printed.
ghost use Rattle.std.specs.Prelude.{◌≡◌, ◌+◌, ◌≤◌, ◌<◌, length};
ghost use Rattle.output.specs.Sends.{Sent};
ghost use Rattle.model.specs.Sheet.{column, number_line, type_or_dash};
ghost use Rattle.lines.specs.Printing.{padded, cell_of, type_given, columns, part_text};

use output::writing::emit;

// The last digit of v, a space for 0. By hand, as there is no heap for what `format!` makes.
fn cell(v: usize) -> u8
    ensures { result ≡ cell_of v }
{
    if v == 0 {
        return b' ';
    }
    b'0' + (v % 10) as u8
}

// v in so many columns, nothing but spaces for 0.
fn put_padded(out: &mut [u8], at: usize, v: usize, width: usize) -> usize
    requires { (at ≤ 1000) × (width ≤ 8) }
    ensures sent { Sent out.old at (padded width v) result out.new }
    ensures value { result ≡ at + width }
{
    if width == 0 {
        return at;
    }
    let next = put_padded(out, at, v / 10, width - 1);
    let b = [cell(v)];
    emit(out, next, &b)
}

// n in so many columns, right-justified: of a wider number its last digits.
fn put_number(out: &mut [u8], at: usize, n: usize, width: usize) -> usize
    requires { (at ≤ 1000) × (0 < width) × (width ≤ 8) }
    ensures sent { Sent out.old at (column width n) result out.new }
    ensures value { result ≡ at + width }
{
    let next = put_padded(out, at, n / 10, width - 1);
    let b = [b'0' + (n % 10) as u8];
    emit(out, next, &b)
}

// Sends the line of a refusal, or of 0.
pub fn put_answer(n: u8, out: &mut [u8]) -> usize
    ensures { Sent out.old 0 (number_line n) result out.new }
{
    let next = put_number(out, 0, n as usize, 3);
    emit(out, next, b"\n")
}

// How many pieces and how many bytes a part has. They take 14 columns.
fn put_columns(pieces: usize, bytes: usize, out: &mut [u8]) -> usize
    ensures sent { Sent out.old 0 (columns pieces bytes) result out.new }
    ensures value { result ≡ 14 }
{
    let a = put_number(out, 0, pieces, 4);
    let b = emit(out, a, b" ");
    let c = put_number(out, b, bytes, 8);
    emit(out, c, b" ")
}

fn put_type_column(kind: &[u8], at: usize, out: &mut [u8]) -> usize
    requires { (at ≤ 1000) × (length kind.now ≤ 127) }
    ensures sent { Sent out.old at (type_or_dash (type_given kind.now)) result out.new }
    ensures upper_bound { result ≤ at + 127 }
{
    if kind.len() == 0 {
        return emit(out, at, b"-");
    }
    emit(out, at, kind)
}

// Sends the line of a part in a listing. An empty type stands for none.
pub fn put_part_line(pieces: usize, bytes: usize, name: &[u8], kind: &[u8], out: &mut [u8]) -> usize
    requires { (length name.now ≤ 255) × (length kind.now ≤ 127) }
    ensures { Sent out.old 0 (part_text pieces bytes name.now (type_given kind.now)) result out.new }
{
    let a = put_columns(pieces, bytes, out);
    let b = emit(out, a, name);
    let c = emit(out, b, b" ");
    let d = put_type_column(kind, c, out);
    emit(out, d, b"\n")
}
