//! The text of an answer, as a script prints it and as frames will carry it.

ghost use Rattle.std.specs.Prelude.{◌≡◌, ◌≤◌, false, flat_map, take, IsTrue, OnOk, length, codes, [], ◌∷◌, ◌++◌, decimal};
ghost use Rattle.std.specs.Fmt.{signed_decimal};
ghost use Rattle.std.specs.Io.KnownBytes.{Appends};
ghost use Rattle.wire.specs.Counts.{CountsFailure};
ghost use Rattle.wire.specs.AnswerText.{answer_text, rows_text, row_text, fields_text, next_field, field_text, tab, escaped, outcome_text, count_text};

use crate::output::Output;
use crate::text_writer::{Plain, TextWriter};
use itoa::Buffer;
use sql_types::answer::Answer;
use sql_types::items::Items;
use sql_types::tag::Tag;
use sql_types::value::Value;
use sql_types::warning::Warning;
use std::io;

// A tab and the longest number that is printed behind one.
const LONGEST_PIECE: usize = 41;

/// Writes the text of an answer. Each line ends with a newline, and no memory is allocated.
///
/// | Answer | Text |
/// |---|---|
/// | done | `ok TAG`, or `ok TAG n` where rows are counted |
/// | done, with a warning | `warn CODE TAG`, or `warn CODE TAG n` |
/// | rows | `rows n`, then a line for each row, its fields separated by tabs |
/// | refused | `refused CODE` |
///
/// A null is `\N`, a boolean `t` or `f`, a number decimal. In a text a backslash, a tab, a newline
/// and a carriage return are written `\\`, `\t`, `\n` and `\r`. An error says that the
/// output failed, which it has counted; how much of the text it has taken by then is not said.
pub fn write_answer<O: Output>(answer: &Answer, out: &mut O) -> io::Result<()>
    ensures taken { OnOk result (Appends (O.contents out.old) (O.contents out.new)
        (answer_text answer.now)) }
    ensures counts { CountsFailure result (O.failures out.old) (O.failures out.new) }
{
    print_answer(answer, &mut Plain, out)
}

// Prints the text of an answer into a sink.
pub(crate) fn print_answer<S: TextWriter, O: Output>(
    answer: &Answer,
    sink: &mut S,
    out: &mut O,
) -> io::Result<()>
    ensures taken { OnOk result (S.takes sink.old (O.contents out.old) (answer_text answer.now)
        sink.new (O.contents out.new)) }
    ensures counts { CountsFailure result (O.failures out.old) (O.failures out.new) }
{
    match answer {
        Answer::Rows(rows) => print_rows(rows, sink, out),
        Answer::Done {
            tag,
            count,
            warning,
        } => print_done(*tag, count, warning, sink, out),
        Answer::Refused(state) => {
            put_three(b"refused ", state.code().as_bytes(), b"\n", sink, out)
        }
    }
}

fn print_done<S: TextWriter, O: Output>(
    tag: Tag,
    count: &Option<u64>,
    warning: &Option<Warning>,
    sink: &mut S,
    out: &mut O,
) -> io::Result<()>
    ensures taken { OnOk result (S.takes sink.old (O.contents out.old)
        (answer_text (Answer.Done tag count.now warning.now)) sink.new (O.contents out.new)) }
    ensures counts { CountsFailure result (O.failures out.old) (O.failures out.new) }
{
    print_outcome(warning, sink, out)?;
    sink.put(tag.text().as_bytes(), out)?;
    print_count(count, sink, out)?;
    sink.put(b"\n", out)
}

fn print_outcome<S: TextWriter, O: Output>(
    warning: &Option<Warning>,
    sink: &mut S,
    out: &mut O,
) -> io::Result<()>
    ensures taken { OnOk result (S.takes sink.old (O.contents out.old) (outcome_text warning.now)
        sink.new (O.contents out.new)) }
    ensures counts { CountsFailure result (O.failures out.old) (O.failures out.new) }
{
    match warning {
        None => sink.put(b"ok ", out),
        Some(warning) => { put_three(b"warn ", warning.code().as_bytes(), b" ", sink, out) }
    }
}

fn print_count<S: TextWriter, O: Output>(
    count: &Option<u64>,
    sink: &mut S,
    out: &mut O,
) -> io::Result<()>
    ensures taken { OnOk result (S.takes sink.old (O.contents out.old) (count_text count.now)
        sink.new (O.contents out.new)) }
    ensures counts { CountsFailure result (O.failures out.old) (O.failures out.new) }
{
    match count {
        None => Ok(()),
        Some(count) => {
            sink.put(b" ", out)?;
            sink.put(Buffer::new().format(*count).as_bytes(), out)
        }
    }
}

fn print_rows<S: TextWriter, O: Output>(
    rows: &Items<Items<Value>>,
    sink: &mut S,
    out: &mut O,
) -> io::Result<()>
    ensures taken { OnOk result (S.takes sink.old (O.contents out.old) (rows_text rows.now)
        sink.new (O.contents out.new)) }
    ensures counts { CountsFailure result (O.failures out.old) (O.failures out.new) }
{
    put_three(
        b"rows ",
        Buffer::new().format(rows.len()).as_bytes(),
        b"\n",
        sink,
        out,
    )?;
    print_each_row(rows.as_slice(), sink, out)
}

fn print_each_row<S: TextWriter, O: Output>(
    rows: &[Items<Value>],
    sink: &mut S,
    out: &mut O,
) -> io::Result<()>
    ensures taken { OnOk result (S.takes sink.old (O.contents out.old) (flat_map row_text rows.now)
        sink.new (O.contents out.new)) }
    ensures counts { CountsFailure result (O.failures out.old) (O.failures out.new) }
{
    for row in rows {
        print_row(row.as_slice(), sink, out)?;
    }
    Ok(())
}

fn print_row<S: TextWriter, O: Output>(row: &[Value], sink: &mut S, out: &mut O) -> io::Result<()>
    ensures taken { OnOk result (S.takes sink.old (O.contents out.old) (row_text row.now)
        sink.new (O.contents out.new)) }
    ensures counts { CountsFailure result (O.failures out.old) (O.failures out.new) }
{
    print_fields(row, sink, out)?;
    sink.put(b"\n", out)
}

fn print_fields<S: TextWriter, O: Output>(
    row: &[Value],
    sink: &mut S,
    out: &mut O,
) -> io::Result<()>
    ensures taken { OnOk result (S.takes sink.old (O.contents out.old) (fields_text row.now)
        sink.new (O.contents out.new)) }
    ensures counts { CountsFailure result (O.failures out.old) (O.failures out.new) }
{
    match row {
        [] => Ok(()),
        [first, rest @ ..] => {
            print_field(first, sink, out)?;
            print_next_fields(rest, sink, out)
        }
    }
}

fn print_next_fields<S: TextWriter, O: Output>(
    values: &[Value],
    sink: &mut S,
    out: &mut O,
) -> io::Result<()>
    ensures taken { OnOk result (S.takes sink.old (O.contents out.old) (flat_map next_field values.now)
        sink.new (O.contents out.new)) }
    ensures counts { CountsFailure result (O.failures out.old) (O.failures out.new) }
{
    for value in values {
        print_next_field(value, sink, out)?;
    }
    Ok(())
}

fn print_next_field<S: TextWriter, O: Output>(
    value: &Value,
    sink: &mut S,
    out: &mut O,
) -> io::Result<()>
    ensures taken { OnOk result (S.takes sink.old (O.contents out.old) (next_field value.now)
        sink.new (O.contents out.new)) }
    ensures counts { CountsFailure result (O.failures out.old) (O.failures out.new) }
{
    match value {
        Value::Int(number) => print_next_number(*number, sink, out),
        _ => {
            sink.put(b"\t", out)?;
            print_field(value, sink, out)
        }
    }
}

// Prints a number that is not the first field of its row, in one piece with the tab before it.
fn print_next_number<S: TextWriter, O: Output>(
    number: i64,
    sink: &mut S,
    out: &mut O,
) -> io::Result<()>
    ensures taken { OnOk result (S.takes sink.old (O.contents out.old) (tab ++ signed_decimal number)
        sink.new (O.contents out.new)) }
    ensures counts { CountsFailure result (O.failures out.old) (O.failures out.new) }
{
    let mut piece = [b'\t'; LONGEST_PIECE];
    let length = put_behind_tab(Buffer::new().format(number).as_bytes(), &mut piece);
    sink.put(&piece[..length], out)
}

// Puts digits behind the tab with which a piece begins, and answers how long both are.
fn put_behind_tab(digits: &[u8], piece: &mut [u8; LONGEST_PIECE]) -> usize
    requires begins { take 1 piece.old ≡ tab }
    requires short { length digits.now ≤ 40 }
    ensures within { result ≤ 41 }
    ensures piece { take result piece.new ≡ tab ++ digits.now }
{
    let length = digits.len() + 1;
    piece[1..length].copy_from_slice(digits);
    length
}

fn print_field<S: TextWriter, O: Output>(value: &Value, sink: &mut S, out: &mut O) -> io::Result<()>
    ensures taken { OnOk result (S.takes sink.old (O.contents out.old) (field_text value.now)
        sink.new (O.contents out.new)) }
    ensures counts { CountsFailure result (O.failures out.old) (O.failures out.new) }
{
    match value {
        Value::Null => sink.put(b"\\N", out),
        Value::Int(number) => sink.put(Buffer::new().format(*number).as_bytes(), out),
        Value::Text(text) => print_text(text.as_str().as_bytes(), sink, out),
        Value::Bool(true) => sink.put(b"t", out),
        Value::Bool(false) => sink.put(b"f", out),
    }
}

// Three pieces of a text.
fn put_three<S: TextWriter, O: Output>(
    first: &[u8],
    second: &[u8],
    third: &[u8],
    sink: &mut S,
    out: &mut O,
) -> io::Result<()>
    ensures taken { OnOk result (S.takes sink.old (O.contents out.old)
        (first.now ++ second.now ++ third.now) sink.new (O.contents out.new)) }
    ensures counts { CountsFailure result (O.failures out.old) (O.failures out.new) }
{
    sink.put(first, out)?;
    sink.put(second, out)?;
    sink.put(third, out)
}

// Prints a text with its backslashes, tabs, newlines and carriage returns escaped: in one piece, where it has none of them.
fn print_text<S: TextWriter, O: Output>(text: &[u8], sink: &mut S, out: &mut O) -> io::Result<()>
    ensures taken { OnOk result (S.takes sink.old (O.contents out.old) (flat_map escaped text.now)
        sink.new (O.contents out.new)) }
    ensures counts { CountsFailure result (O.failures out.old) (O.failures out.new) }
{
    if is_plain(text) {
        sink.put(text, out)
    } else {
        print_bytes(text, sink, out)
    }
}

// Whether a text is printed as it stands.
fn is_plain(text: &[u8]) -> bool
    ensures { IsTrue result → flat_map escaped text.now ≡ text.now }
{
    for byte in text {
        if is_escaped(*byte) {
            return false;
        }
    }
    true
}

// Whether a byte is printed with a backslash before it.
fn is_escaped(byte: u8) -> bool
    ensures { result ≡ false → escaped byte ≡ byte ∷ [] }
{
    byte == b'\\' || byte == b'\t' || byte == b'\n' || byte == b'\r'
}

// Prints the bytes of a text, one by one.
fn print_bytes<S: TextWriter, O: Output>(text: &[u8], sink: &mut S, out: &mut O) -> io::Result<()>
    ensures taken { OnOk result (S.takes sink.old (O.contents out.old) (flat_map escaped text.now)
        sink.new (O.contents out.new)) }
    ensures counts { CountsFailure result (O.failures out.old) (O.failures out.new) }
{
    for byte in text {
        print_byte(*byte, sink, out)?;
    }
    Ok(())
}

fn print_byte<S: TextWriter, O: Output>(byte: u8, sink: &mut S, out: &mut O) -> io::Result<()>
    ensures taken { OnOk result (S.takes sink.old (O.contents out.old) (escaped byte)
        sink.new (O.contents out.new)) }
    ensures counts { CountsFailure result (O.failures out.old) (O.failures out.new) }
{
    match byte {
        b'\\' => sink.put(b"\\\\", out),
        b'\t' => sink.put(b"\\t", out),
        b'\n' => sink.put(b"\\n", out),
        b'\r' => sink.put(b"\\r", out),
        other => sink.put(&[other], out),
    }
}
