//! Columns of places: one more than the characters of the line before the place.

ghost use Rattle.std.specs.Prelude.{◌≡◌, ◌<◌, ◌≤◌, length};
ghost use Rattle.pp_lexer.specs.Lines.{is_line_break};
ghost use Rattle.glslpp_parts.specs.Columns.{column_past, column_at, counted_text};

use pp_rs::pp::SOURCE_TEXT;

/// A place whose column was counted.
#[derive(Clone, Copy)]
struct Counted {
    // The number of bytes before it.
    offset: usize,
    column: usize,
}

// The start of a text.
const START: Counted = Counted {
    offset: 0,
    column: 1,
};

/// The columns of a text. Counting goes on from the last place or the farthest one, so that all places of a long line
/// take no more time than one.
#[derive(Drop)]
pub(crate) struct Columns<'a> {
    text: &'a str,
    last: Counted,
    farthest: Counted,
    ghost last_is_right: { last.column ≡ column_at text.now last.offset },
    ghost farthest_is_right: { farthest.column ≡ column_at text.now farthest.offset },
}

impl<'a> Columns<'a> {
    /// Columns of a text in which no place was counted yet.
    pub(crate) fn new(text: &'a str) -> Columns<'a>
        ensures { result.text.now ≡ text.now }
    {
        Columns {
            text,
            last: START,
            farthest: START,
        }
    }

    /// The column of a byte offset, from 1. Past the end it is the column of the end.
    pub(crate) fn column(&mut self, offset: usize) -> usize
        ensures value { result ≡ column_at self.old.text.now offset }
        ensures text { self.new.text.now ≡ self.old.text.now }
    {
        let end = offset.min(self.text.len());
        let column = count_from(self.text, self.known_before(end), end);
        let counted = Counted {
            offset: end,
            column,
        };
        if end > self.farthest.offset {
            self.farthest = counted;
        }
        self.last = counted;
        column
    }

    // A place that was counted, at or before this one.
    fn known_before(&self, offset: usize) -> Counted
        ensures before { result.offset ≤ offset }
        ensures right { result.column ≡ column_at self.now.text.now result.offset }
    {
        if self.farthest.offset <= offset {
            self.farthest
        } else if self.last.offset <= offset {
            self.last
        } else {
            START
        }
    }
}

/// The columns of all texts of a run. They are kept for the source and for the last other text.
#[derive(Drop)]
pub(crate) struct ColumnsOfTexts<'a> {
    source: Columns<'a>,
    // The number of the other text.
    number: u32,
    other: Columns<'a>,
}

impl<'a> ColumnsOfTexts<'a> {
    /// Columns of a source in which no place was counted yet.
    pub(crate) fn new(source: &'a str) -> ColumnsOfTexts<'a>
        ensures { result.source.text.now ≡ source.now }
    {
        ColumnsOfTexts {
            source: Columns::new(source),
            number: SOURCE_TEXT,
            other: Columns::new(source),
        }
    }

    /// The column of a byte offset, from 1, of the text with this number.
    pub(crate) fn column(&mut self, number: u32, text: &'a str, offset: usize) -> usize
        ensures value { result ≡ column_at (counted_text self.old.source.text.now self.old.number
            self.old.other.text.now number text.now) offset }
        ensures source { self.new.source.text.now ≡ self.old.source.text.now }
        ensures text { counted_text self.new.source.text.now self.new.number self.new.other.text.now number text.now
            ≡ counted_text self.old.source.text.now self.old.number self.old.other.text.now number text.now }
    {
        if number == SOURCE_TEXT {
            return self.source.column(offset);
        }
        if number != self.number {
            self.number = number;
            self.other = Columns::new(text);
        }
        self.other.column(offset)
    }
}

/// The column of a byte offset of a text, from 1. Past the end it is the column of the end.
pub(crate) fn column_at(text: &str, offset: usize) -> usize
    ensures { result ≡ column_at text.now offset }
{
    let end = offset.min(text.len());
    count_from(text, START, end)
}

// The column of a place, counted from a known place at or before it.
fn count_from(text: &str, known: Counted, offset: usize) -> usize
    requires within { offset ≤ length text.now }
    requires before { known.offset ≤ offset }
    requires right { known.column ≡ column_at text.now known.offset }
    ensures { result ≡ column_at text.now offset }
{
    let bytes = text.as_bytes();
    let near = nearest(bytes, known, offset);
    let mut column = near.column;
    for index in near.offset..offset {
        column = past(column, bytes[index]);
    }
    column
}

// The start of the place's line, or the known place if that is nearer.
fn nearest(bytes: &[u8], known: Counted, offset: usize) -> Counted
    requires within { offset ≤ length bytes.now }
    requires before { known.offset ≤ offset }
    requires right { known.column ≡ column_at bytes.now known.offset }
    ensures before { result.offset ≤ offset }
    ensures right { result.column ≡ column_at bytes.now result.offset }
{
    let mut start = offset;
    'bytes: while start > known.offset {
        if is_line_end_byte(bytes[start - 1]) {
            return Counted {
                offset: start,
                column: 1,
            };
        }
        start -= 1;
    }
    known
}

// The column after one more byte.
fn past(column: usize, byte: u8) -> usize
    requires { column < usize.MAX }
    ensures { result ≡ column_past column byte }
{
    if is_line_end_byte(byte) {
        1
    } else if byte >= 128 && byte < 192 {
        column
    } else {
        column + 1
    }
}

/// Whether it is LF or CR, the bytes of line ends.
pub(crate) fn is_line_end_byte(byte: u8) -> bool
    ensures { result ≡ is_line_break byte }
{
    byte == b'\n' || byte == b'\r'
}
