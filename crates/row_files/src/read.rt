// Reads the rows of a text.
ghost use Rattle.std.specs.Prelude.{◌≡◌, vec_len, IfOk, IfErr};
ghost use Rattle.row_files.specs.Lines.{line_count, NamesLineOf};

use crate::block::Reader;
use crate::fail::RowsFail;
use crate::row::Row;
use std::alloc::{AllocError, Global};

fn lines_of(alloc: Global, text: &str) -> Result<Vec<&str>, AllocError>
    ensures { IfOk result (λ lines. vec_len lines ≡ line_count text.now) }
{
    text.split('\n').collect(alloc)
}

/// The rows of a text, in their order.
pub fn read_rows(alloc: Global, text: &str) -> Result<Vec<Row>, RowsFail>
    ensures { IfErr result (NamesLineOf (line_count text.now)) }
{
    let Ok(lines) = lines_of(alloc, text) else {
        return Err(RowsFail::Memory);
    };
    let mut reader = Reader::new(alloc);
    for (n, line) in lines.iter().enumerate() {
        if let Err(fail) = reader.take(n + 1, *line) {
            return Err(fail.at(n + 1));
        }
    }
    if let Err(fail) = reader.end_block() {
        return Err(fail.at(lines.len()));
    }
    Ok(reader.into_rows())
}
