//! The line of a table or a key in a topology text. The kit's TOML keeps no places, so headers and
//! braces are counted.

/// The state of a reader of the lines of a text.
#[derive(Clone, Copy)]
struct Reader {
    /// How many brackets and braces are open.
    depth: usize,
    /// Whether no header was read so far.
    is_top: bool,
    /// Whether the array that is looked for is being read.
    is_array: bool,
    /// How many tables of the array were begun.
    tables: usize,
}

/// The beginning of a text.
const BEGINNING: Reader = Reader {
    depth: 0,
    is_top: true,
    is_array: false,
    tables: 0,
};

/// The quotation mark that began a text, and whether the next character is taken as it is.
#[derive(Clone, Copy)]
struct Quoted {
    mark: u8,
    is_escaped: bool,
}

/// What follows a character of a quoted text: more of it, or its end.
fn after_quoted(quoted: Quoted, octet: u8) -> Option<Quoted> {
    let Quoted { mark, is_escaped } = quoted;
    if !is_escaped && octet == mark {
        return None;
    }
    Some(Quoted {
        mark,
        is_escaped: !is_escaped && octet == b'\\' && mark == b'"',
    })
}

impl Reader {
    /// Begins a table of the array: its number, from 0.
    fn begin_table(&mut self) -> usize {
        let number = self.tables;
        self.tables = number.saturating_add(1);
        number
    }

    /// Reads an octet that is in no quoted text. Whether the table of this number begins.
    fn read(&mut self, octet: u8, number: usize) -> bool {
        match octet {
            b'{' if self.is_array && self.depth == 1 => {
                self.depth = 2;
                self.begin_table() == number
            }
            b'[' | b'{' => {
                self.depth = self.depth.saturating_add(1);
                false
            }
            b']' | b'}' => {
                self.depth = self.depth.saturating_sub(1);
                false
            }
            _ => false,
        }
    }

    /// Reads a line that is no header. Whether the table of this number begins in it.
    fn read_line(&mut self, line: &str, number: usize) -> bool {
        let mut quoted = None;
        for octet in line.as_bytes() {
            quoted = match (quoted, *octet) {
                (Some(inside), other) => after_quoted(inside, other),
                (None, b'#') => return false,
                (None, mark @ (b'"' | b'\'')) => Some(Quoted {
                    mark,
                    is_escaped: false,
                }),
                (None, other) => {
                    if self.read(other, number) {
                        return true;
                    }
                    None
                }
            };
        }
        false
    }
}

/// Whether a line begins with a key and an equals sign.
fn has_key(line: &str, key: &str) -> bool {
    match line.trim_start().strip_prefix(key) {
        Some(rest) => rest.trim_start().starts_with('='),
        None => false,
    }
}

/// Whether a line is the header of a table, or of one of an array, of this name.
fn is_header(line: &str, name: &str) -> bool {
    let inside = line.trim_start().trim_start_matches('[');
    match inside.trim_start().strip_prefix(name) {
        Some(rest) => rest.trim_start().starts_with(']'),
        None => false,
    }
}

/// Whether a line is a header.
fn begins_table(line: &str) -> bool {
    line.trim_start().starts_with('[')
}

/// The line, from 1, of a key in the table of this number, from 0, of an array; if the key begins
/// no line, that at which the table begins. `None` if neither is seen, as in a text with keys that
/// are joined by dots.
pub fn table_line(text: &str, array: &str, number: usize, key: &str) -> Option<u64> {
    let mut reader = BEGINNING;
    let mut header = None;
    for (before, line) in text.lines().enumerate() {
        let here = (before as u64).saturating_add(1);
        if reader.depth == 0 && begins_table(line) {
            if header.is_some() {
                return header;
            }
            reader.is_top = false;
            if is_header(line, array) && reader.begin_table() == number {
                header = Some(here);
            }
            continue;
        }
        if header.is_some() && has_key(line, key) {
            return Some(here);
        }
        if reader.depth == 0 {
            reader.is_array = reader.is_top && has_key(line, array);
        }
        if reader.read_line(line, number) {
            return Some(here);
        }
    }
    header
}

/// The line, from 1, of a key of the top table, or of the header that begins it.
pub fn top_line(text: &str, key: &str) -> Option<u64> {
    let mut reader = BEGINNING;
    for (before, line) in text.lines().enumerate() {
        let here = (before as u64).saturating_add(1);
        let is_outside = reader.depth == 0;
        if is_outside && begins_table(line) {
            if is_header(line, key) {
                return Some(here);
            }
            reader.is_top = false;
            continue;
        }
        if is_outside && reader.is_top && has_key(line, key) {
            return Some(here);
        }
        // No table is looked for.
        reader.read_line(line, usize::MAX);
    }
    None
}
