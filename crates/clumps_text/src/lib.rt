// The program clumps as a function from bytes to bytes: `report` reads document 01's four lines, labels the frame and prints the answer.
//
// Promised (specs/Output.antt): whatever the input, the output is `clumps_of` of it, as far as the slice reaches. An empty structure line
// means nine ones. A text of any other form than specs/Input.antt's is refused by 11, and a lopsided structure by 12; no other refusal
// can come.
#![tactic(auto)]

mod shapes;

ghost use Rattle.std.specs.Prelude.{◌≡◌, [], ◌∷◌, ◌++◌, map, ◌-◌, ◌*◌, ◌≤◌, min, length, get_or, take};
ghost use Rattle.label.specs.Cases.{read_answer};
ghost use Rattle.frame.specs.Overlay.{overlay};
ghost use Rattle.overlay.specs.Writers.{Writes};
ghost use Rattle.clumps_text.specs.Text.{line, decimal, decimals};
ghost use Rattle.clumps_text.specs.Input.{parse_exactly, digits_value, parse_number};
ghost use Rattle.clumps_text.specs.Output.{refusal_text, labelled_text, output_to, clumps_of};
ghost use Rattle.clumps_text.specs.Steps.{Leaves, Gives, parse_as_bytes, parse_structure, ShapeParsed, FrameParsed};
ghost use Rattle.clumps_text.specs.Steps.{shape_of, cells_of, output_for, Labels, refusal_number};

use overlay::Writer;
use shapes::Shape;

// ---- reading: each function takes the text from its part on, and answers the text after that part; nothing where the text is not of
// the form

// Bytes that must stand here.
fn parse_exactly<'a>(text: &'a [u8], name: &[u8]) -> Option<&'a [u8]>
    ensures { Leaves (parse_exactly name.now text.now) tt result }
{
    text.strip_prefix(name)
}

// The byte at a place; 0 past the end.
fn byte_at(text: &[u8], at: usize) -> u8
    ensures { result ≡ get_or text.now at 0 }
{
    text.get(at).copied().unwrap_or(0)
}

// The value of a digit; 0 for a byte below them.
fn digit_value(byte: u8) -> usize
    ensures { result ≡ byte - 48 }
{
    usize::from(byte.saturating_sub(b'0'))
}

// The value of one digit, where byte 10 follows it, else of two.
fn digits_value(text: &[u8]) -> usize
    ensures { result ≡ digits_value text.now }
{
    let first = digit_value(byte_at(text, 0));
    let second = byte_at(text, 1);
    if second == b'\n' {
        return first;
    }
    10 * first + digit_value(second)
}

// A number's decimal, and the byte 10 that ends its line.
fn parse_decimal(text: &[u8], value: usize) -> Option<&[u8]>
    requires { value ≤ 48 }
    ensures { Leaves (parse_exactly (decimal value ++ (10 ∷ [])) text.now) tt result }
{
    if value < 10 {
        return parse_exactly(text, &[b'0' + value as u8, b'\n']);
    }
    let tens = (value / 10) as u8;
    let ones = (value % 10) as u8;
    parse_exactly(text, &[b'0' + tens, b'0' + ones, b'\n'])
}

// A number from 1 to 48 without leading zeros, and the byte 10 that ends its line. Not by std's `parse`, which takes a plus and leading
// zeros too: the value is read, and its decimal must then stand here.
fn parse_number(text: &[u8]) -> Option<(usize, &[u8])>
    ensures { Gives (parse_number text.now) result }
{
    let value = digits_value(text);
    if value < 1 || value > 48 {
        return None;
    }
    let rest = parse_decimal(text, value)?;
    Some((value, rest))
}

// The first two lines.
fn parse_shape(text: &[u8]) -> Option<(Shape, &[u8])>
    ensures { ShapeParsed text.now result }
{
    let (width, rest) = parse_number(parse_exactly(text, b"width=")?)?;
    let (lines, rest) = parse_number(parse_exactly(rest, b"lines=")?)?;
    Some((Shape { width, lines }, rest))
}

// As many characters 0 or 1 as `flags` has places.
fn parse_flags<'a>(text: &'a [u8], flags: &mut [u8]) -> Option<&'a [u8]>
    ensures { Leaves (parse_as_bytes (length flags.old) text.now) flags.new result }
{
    let (given, rest) = text.split_at_checked(flags.len())?;
    for (i, &byte) in given.iter().enumerate() {
        if byte != b'0' && byte != b'1' {
            return None;
        }
        flags[i] = byte - b'0';
    }
    Some(rest)
}

// The structure's flags: nine ones where its line ends at once.
fn parse_structure(text: &[u8]) -> Option<([u8; 9], &[u8])>
    ensures { Gives (parse_structure text.now) result }
{
    let mut structure = [1u8; 9];
    if byte_at(text, 0) == b'\n' {
        return Some((structure, text));
    }
    let rest = parse_flags(text, &mut structure)?;
    Some((structure, rest))
}

// What the text says. The shape's cells stand first in `cells`, an array since there is no heap.
#[derive(Drop)]
struct Frame {
    shape: Shape,
    structure: [u8; 9],
    cells: [u8; 2304],
}

// All four lines, and no byte after them.
fn parse_frame(text: &[u8]) -> Option<Frame>
    ensures { FrameParsed text.now result }
{
    let (shape, rest) = parse_shape(text)?;
    let (structure, rest) = parse_structure(parse_exactly(rest, b"structure=")?)?;
    let rest = parse_exactly(rest, b"\ncells=")?;
    let mut cells = [0u8; 2304];
    let rest = parse_flags(rest, &mut cells[..shape.size()])?;
    let end = parse_exactly(rest, b"\n")?;
    if !end.is_empty() {
        return None;
    }
    Some(Frame {
        shape,
        structure,
        cells,
    })
}

// ---- printing: what comes past the end of the slice is left out

// A number's decimal: the digits before the last one first. By hand, since by the kit's `itoa` the program would stand on one more crate,
// and on a law that its decimal is ours.
fn put_decimal(out: &mut Writer<u8>, n: usize)
    ensures { Writes (decimal n) out.old out.new }
{
    if n >= 10 {
        put_decimal(out, n / 10);
    }
    out.put(b'0' + (n % 10) as u8);
}

// Numbers with one blank between.
fn put_decimals(out: &mut Writer<u8>, numbers: &[u16])
    ensures { Writes (decimals numbers.now) out.old out.new }
{
    let Some((first, others)) = numbers.split_first() else {
        return;
    };
    put_decimal(out, usize::from(*first));
    for number in others {
        out.put(b' ');
        put_decimal(out, usize::from(*number));
    }
}

// A line: a name and a number.
fn put_line(out: &mut Writer<u8>, name: &[u8], n: usize)
    ensures { Writes (line name.now (decimal n) []) out.old out.new }
{
    out.put_all(name);
    put_decimal(out, n);
    out.put(b'\n');
}

fn put_labelled_text(out: &mut Writer<u8>, counted: label::Counted, numbers: &[u16])
    ensures { Writes (labelled_text counted.n counted.figures numbers.now) out.old out.new }
{
    put_line(out, b"runs=", counted.figures.runs);
    put_line(out, b"joins=", counted.figures.joins);
    put_line(out, b"cells=", counted.figures.cells);
    put_line(out, b"objects=", counted.n);
    out.put_all(b"labels=");
    put_decimals(out, numbers);
    out.put(b'\n');
}

// Why no labels are printed.
#[derive(Clone, Copy)]
enum Refusal {
    // the text is not of the form
    Form,
    // the labelling refuses the frame
    Frame(causes::Cause),
}

impl Refusal {
    fn number(self) -> usize
        ensures { result ≡ refusal_number self }
    {
        match self {
            Refusal::Form => 11,
            Refusal::Frame(cause) => cause.number() as usize,
        }
    }
}

fn put_refusal(out: &mut Writer<u8>, refusal: Refusal)
    ensures { Writes (refusal_text (refusal_number refusal)) out.old out.new }
{
    put_line(out, b"refused=", refusal.number());
}

// ---- labelling

// Labels a frame in one call. 49 + 5 × 48 × 48 words are enough for each that a text can say, so it is accepted, or refused by 12.
fn label_into(frame: &Frame, numbers: &mut [u16]) -> Result<label::Counted, causes::Cause>
    requires { length numbers.old ≡ frame.now.shape.lines * frame.now.shape.width }
    ensures { Labels (shape_of frame.now) frame.now.structure (cells_of frame.now) (read_answer result) numbers.new }
{
    let mut words = [0u32; 11569];
    let shape = [frame.shape.lines, frame.shape.width];
    let cells = &frame.cells[..frame.shape.size()];
    whole::label_impl(&shape, &frame.structure, &mut words, cells, numbers, 1)
}

// Labels a frame and prints the answer: its figures and the labels, or its refusal.
fn put_frame(out: &mut Writer<u8>, frame: &Frame)
    ensures { Writes (output_for frame.now) out.old out.new }
{
    let mut numbers = [0u16; 2304];
    let numbers = &mut numbers[..frame.shape.size()];
    match label_into(frame, numbers) {
        Ok(counted) => put_labelled_text(out, counted, numbers),
        Err(cause) => put_refusal(out, Refusal::Frame(cause)),
    }
}

// ---- the program

// Prints the answer to a text.
fn put_answer(out: &mut Writer<u8>, text: &[u8])
    ensures { Writes (clumps_of text.now) out.old out.new }
{
    match parse_frame(text) {
        Some(frame) => put_frame(out, &frame),
        None => put_refusal(out, Refusal::Form),
    }
}

// Reads the text, labels its frame and prints the answer into `out`, as far as it reaches; answers the count of bytes printed. No output
// has more than 11,572 bytes, and no accepted text more than 2,349 (proofs/LengthLaws.antt).
pub fn report(text: &[u8], out: &mut [u8]) -> usize
    ensures { (out.new ≡ overlay (clumps_of text.now) out.old)
        × (result ≡ min (length (clumps_of text.now)) (length out.old)) }
{
    let mut writer = Writer { out, at: 0 };
    put_answer(&mut writer, text);
    writer.at
}
