ghost use Rattle.std.specs.Prelude.{◌≡◌, ◌+◌, ◌-◌, ◌^◌, ◌<◌, IfSome, IsTrue};
ghost use Rattle.varying_pack.specs.Sheets.{after_pair, after_single, after_wide, fullest_in, has_room, is_as_full, is_fullest_in, lowest_in};
ghost use Rattle.varying_pack.specs.Sheets.{new_sheet, pair_spot, single_spot, span_at, wide_spot};

/// The free rows of a column: from `start` up to `end`, which is no longer one of them.
#[derive(Clone, Copy, Debug, PartialEq, Eq)]
pub(crate) struct Span {
    pub start: u32,
    pub end: u32,
}

impl Span {
    /// Whether so many rows are free.
    fn has_room(self, rows: u64) -> bool
        requires { rows < 2 ^ 35 }
        ensures room { result ≡ has_room self rows }
        ensures narrow { IsTrue result → self.start + rows < 2 ^ 32 }
    {
        u64::from(self.start) + rows <= u64::from(self.end)
    }

    /// The first of so many rows; where there are none of them, row 0.
    fn lowest(self, rows: u64) -> u32
        ensures { result ≡ lowest_in self rows }
    {
        if rows == 0 { 0 } else { self.start }
    }

    /// How many rows are free.
    fn len(self) -> u32
        ensures { result ≡ self.end - self.start }
    {
        self.end.saturating_sub(self.start)
    }
}

/// The free rows of the four columns. In the order of placing they are one run in each column, so that an item is placed
/// in constant time.
#[derive(Clone, Copy, Debug, PartialEq, Eq)]
pub(crate) struct Sheet {
    pub first: Span,
    pub second: Span,
    pub third: Span,
    pub fourth: Span,
}

impl Sheet {
    /// All rows are free.
    pub(crate) fn new(rows: u32) -> Sheet
        ensures { result ≡ new_sheet rows }
    {
        let all = Span {
            start: 0,
            end: rows,
        };
        Sheet {
            first: all,
            second: all,
            third: all,
            fourth: all,
        }
    }

    /// Takes the next rows in the first three or four columns.
    pub(crate) fn place_wide(&mut self, columns: u8, rows: u64) -> Option<(u32, u32)>
        requires { rows < 2 ^ 35 }
        ensures spot { result ≡ wide_spot self.old rows }
        ensures after { IfSome result (λ _. self.new ≡ after_wide self.old columns rows) }
    {
        if !self.first.has_room(rows) {
            return None;
        }
        let row = self.first.start;
        let next = row + rows as u32;
        self.first.start = next;
        self.second.start = next;
        self.third.start = next;
        if columns == 4 {
            self.fourth.start = next;
        }
        Some((row, 0))
    }

    /// Takes the lowest rows in the first two columns, or else the highest in the last two.
    pub(crate) fn place_pair(&mut self, rows: u64) -> Option<(u32, u32)>
        requires { rows < 2 ^ 35 }
        ensures spot { result ≡ pair_spot self.old rows }
        ensures after { IfSome result (λ _. self.new ≡ after_pair self.old rows) }
    {
        if self.first.has_room(rows) {
            let row = self.first.lowest(rows);
            let next = self.first.start + rows as u32;
            self.first.start = next;
            self.second.start = next;
            Some((row, 0))
        } else if self.third.has_room(rows) {
            let row = self.third.end - rows as u32;
            self.third.end = row;
            self.fourth.end = row;
            Some((row, 2))
        } else {
            None
        }
    }

    /// Takes the lowest rows in the fullest column that has room.
    pub(crate) fn place_single(&mut self, rows: u64) -> Option<(u32, u32)>
        requires { rows < 2 ^ 35 }
        ensures spot { result ≡ single_spot self.old rows }
        ensures after { IfSome result (λ place. self.new ≡ after_single self.old place.1 rows) }
    {
        let column = self.fullest(rows)?;
        let span = self.span(column);
        let taken = Span {
            start: span.start + rows as u32,
            end: span.end,
        };
        match column {
            0 => self.first = taken,
            1 => self.second = taken,
            2 => self.third = taken,
            _ => self.fourth = taken,
        }
        Some((span.lowest(rows), column))
    }

    /// The free rows of a column.
    fn span(&self, column: u32) -> Span
        ensures { result ≡ span_at self.now column }
    {
        match column {
            0 => self.first,
            1 => self.second,
            2 => self.third,
            _ => self.fourth,
        }
    }

    /// The leftmost of the columns that have room and of which none has fewer free rows.
    fn fullest(&self, rows: u64) -> Option<u32>
        requires { rows < 2 ^ 35 }
        ensures column { result ≡ fullest_in self.now rows }
        ensures room { IfSome result (λ column. IsTrue (has_room (span_at self.now column) rows)) }
    {
        if self.is_fullest(0, rows) {
            Some(0)
        } else if self.is_fullest(1, rows) {
            Some(1)
        } else if self.is_fullest(2, rows) {
            Some(2)
        } else if self.is_fullest(3, rows) {
            Some(3)
        } else {
            None
        }
    }

    /// Whether a column has room, and none of those that have has fewer free rows.
    fn is_fullest(&self, column: u32, rows: u64) -> bool
        requires { rows < 2 ^ 35 }
        ensures { result ≡ is_fullest_in self.now rows column }
    {
        self.span(column).has_room(rows)
            && self.is_as_full(column, 0, rows)
            && self.is_as_full(column, 1, rows)
            && self.is_as_full(column, 2, rows)
            && self.is_as_full(column, 3, rows)
    }

    /// Whether another column has no room, or no fewer free rows than a column.
    fn is_as_full(&self, column: u32, other: u32, rows: u64) -> bool
        requires { rows < 2 ^ 35 }
        ensures { result ≡ is_as_full self.now rows column other }
    {
        !self.span(other).has_room(rows) || self.span(column).len() <= self.span(other).len()
    }
}
