/// A row of a table: a line of cells with `|` between them, and after it what a command prints. In a table each row
/// has `$` before it, so it reads like a session in a shell.
#[derive(Clone, Copy)]
pub(crate) struct Row<'a> {
    line: &'a str,
    pub printed: &'a str,
}

impl<'a> Row<'a> {
    /// Reads a row.
    pub fn new(text: &'a str) -> Row<'a> {
        let (line, printed) = text.split_once('\n').unwrap_or((text, ""));
        Row { line, printed }
    }

    /// The cell of this number: nothing if there is none.
    pub fn cell(self, number: usize) -> &'a str {
        self.line.split('|').nth(number).unwrap_or("").trim()
    }

    /// The number in a cell, if it has one.
    pub fn number(self, cell: usize) -> Option<usize> {
        self.cell(cell).parse::<usize>().ok()
    }
}
