// From rows, as a system is written, to columns, as it stands in memory, and back.
ghost use Rattle.std.specs.Prelude.{◌≡◌, ◌≤◌, length};
ghost use Rattle.digits.specs.Orders.{Columns, row_place, column_place, columns_of, rows_in};

// What stands at place p of the columns stands here in the rows.
pub fn row_place(p: usize) -> usize
    ensures { result ≡ row_place p }
{
    8 * (p % 16) + p / 16
}

// And what stands at place p of the rows stands here in the columns.
pub fn column_place(p: usize) -> usize
    ensures { result ≡ column_place p }
{
    16 * (p % 8) + p / 8
}

// Rows, one behind the other, into columns, with 0 for the digits that have no row.
pub fn in_columns(rows: &[i16], columns: &mut [i16])
    requires { Columns columns.old }
    ensures { columns.new ≡ columns_of rows.now }
{
    for p in 0..128 {
        columns[p] = rows.get(row_place(p)).copied().unwrap_or(0);
    }
}

// Columns into rows, one behind the other, as many as there is room for.
pub fn in_rows(columns: &[i16], rows: &mut [i16])
    requires { (Columns columns.now) × (length rows.old ≤ 128) }
    ensures { rows.new ≡ rows_in (length rows.old) columns.now }
{
    for p in 0..rows.len() {
        rows[p] = columns[column_place(p)];
    }
}
