// The lines of the report, laid into a buffer. The place after the last byte is handed back.
ghost use Rattle.std.specs.Prelude.{◌≡◌, take};
ghost use Rattle.io.specs.Counts.{IsPrefixLen};
ghost use Rattle.buffer.specs.Buffer.{buffer_at, Wrote};
ghost use Rattle.report_lines.specs.Format.{dec_of, field, word, bit_byte, row_text, header, accepted_line, refused_line, totals_line};

// The decimal digits of a number, at the start of an array, and how many they are.
fn digits(n: u64, out: &mut [u8; 20]) -> usize
    ensures is { take result out.new ≡ dec_of n }
    ensures within { IsPrefixLen result out.new }
{
    io::decimal(n, out)
}

// A number in decimal.
fn number(out: &mut [u8], at: usize, n: usize) -> usize
    ensures { Wrote (dec_of n) (buffer_at out.old at) (buffer_at out.new result) }
{
    let mut space = [0u8; 20];
    let k = digits(n as u64, &mut space);
    buffer::put_all(out, at, &space[..k])
}

// A space and a number.
fn field(out: &mut [u8], at: usize, n: usize) -> usize
    ensures { Wrote (field n) (buffer_at out.old at) (buffer_at out.new result) }
{
    let at = buffer::put(out, at, b' ');
    number(out, at, n)
}

// The digit of a cell of a matching row.
fn bit(b: u8) -> u8
    ensures { result ≡ bit_byte b }
{
    if b == 0 {
        return b'0';
    }
    b'1'
}

// The digits of a matching row.
fn bits(out: &mut [u8], at: usize, row: &[u8]) -> usize
    ensures { Wrote (row_text row.now) (buffer_at out.old at) (buffer_at out.new result) }
{
    let mut to = at;
    for &b in row {
        to = buffer::put(out, to, bit(b));
    }
    to
}

// A space and a matching row, `-` where it is empty.
fn row_field(out: &mut [u8], at: usize, row: &[u8]) -> usize
    ensures { Wrote (word (row_text row.now)) (buffer_at out.old at) (buffer_at out.new result) }
{
    if row.len() == 0 {
        return buffer::put_all(out, at, b" -");
    }
    let at = buffer::put(out, at, b' ');
    bits(out, at, row)
}

// A space and a text, `-` where it is empty.
fn text_field(out: &mut [u8], at: usize, text: &[u8]) -> usize
    ensures { Wrote (word text.now) (buffer_at out.old at) (buffer_at out.new result) }
{
    if text.len() == 0 {
        return buffer::put_all(out, at, b" -");
    }
    let at = buffer::put(out, at, b' ');
    buffer::put_all(out, at, text)
}

// internal: the report's first line.
pub fn header(out: &mut [u8], at: usize) -> usize
    ensures { Wrote header (buffer_at out.old at) (buffer_at out.new result) }
{
    buffer::put_all(out, at, b"balsa report\n")
}

// internal: the line of an accepted text: its number, 0, its atoms, bonds and over-full atoms, the first matching, and the kekulized text.
pub fn accepted(
    out: &mut [u8],
    at: usize,
    k: usize,
    atoms: usize,
    bonds: usize,
    overfull: usize,
    row: &[u8],
    text: &[u8],
) -> usize
    ensures { Wrote (accepted_line k atoms bonds overfull row.now text.now) (buffer_at out.old at) (buffer_at out.new result) }
{
    let at = number(out, at, k);
    let at = buffer::put_all(out, at, b": 0");
    let at = field(out, at, atoms);
    let at = field(out, at, bonds);
    let at = field(out, at, overfull);
    let at = row_field(out, at, row);
    let at = text_field(out, at, text);
    buffer::put(out, at, b'\n')
}

// internal: the line of a refused text: its number, the code and the place.
pub fn refused(out: &mut [u8], at: usize, k: usize, code: u8, place: usize) -> usize
    ensures { Wrote (refused_line k code place) (buffer_at out.old at) (buffer_at out.new result) }
{
    let at = number(out, at, k);
    let at = buffer::put(out, at, b':');
    let at = field(out, at, code as usize);
    let at = field(out, at, place);
    buffer::put(out, at, b'\n')
}

// internal: the report's last line: how many texts were accepted and refused.
pub fn totals(out: &mut [u8], at: usize, accepted: usize, refused: usize) -> usize
    ensures { Wrote (totals_line accepted refused) (buffer_at out.old at) (buffer_at out.new result) }
{
    let at = buffer::put_all(out, at, b"accepted");
    let at = field(out, at, accepted);
    let at = buffer::put_all(out, at, b" refused");
    let at = field(out, at, refused);
    buffer::put(out, at, b'\n')
}
