//! The texts of rows.
ghost use Rattle.std.specs.Prelude.{◌^◌, ◌<◌, length, IfOk};
ghost use Rattle.mt_keeper.specs.Keeping.{texts_of};
ghost use Rattle.mt_keeper_sql.specs.Rows.{AreRecords};

use sqlite::{Error, ErrorCode, Row};
use std::alloc::Global;

/// The texts of the rows. Rows whose numbers are not 1, 2 and so on are refused, and so are 2^32
/// rows and more.
pub(crate) fn texts_of_rows(alloc: Global, rows: &[Row]) -> Result<Vec<Vec<u8>>, Error>
    ensures few { IfOk result (λ texts. length texts.items < 2 ^ 32) }
    ensures records { IfOk result (λ texts. AreRecords 1 rows.now (texts_of texts.items)) }
{
    let mut texts = Vec::new(alloc);
    let mut next = 1;
    for row in rows {
        if row.get::<u32>(0)? != next || next == u32::MAX {
            return Err(Error::SqliteFailure(ErrorCode::NotADatabase));
        }
        texts.push(row.get::<Vec<u8>>(1)?)?;
        next += 1;
    }
    Ok(texts)
}
