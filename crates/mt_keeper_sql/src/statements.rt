//! The three statements of the store. What each says of texts is said under a clean disk: one that
//! has returned what was written.
ghost use Rattle.std.specs.Prelude.{IfOk, OnOk, OnErr};
ghost use Rattle.sqlite.specs.Held.{state};
ghost use Rattle.sqlite.specs.State.{HasCleanDisk};
ghost use Rattle.mt_keeper_sql.specs.Standing.{Creates, Inserts, Selects, Refuses};

use sqlite::{Alter, Connection, Error, Row, params};

/// Makes the table where there is none.
pub(crate) fn create<S: Alter>(connection: &mut Connection<S>) -> Result<usize, Error>
    ensures clean { HasCleanDisk (state S.Store connection.new)
        → HasCleanDisk (state S.Store connection.old) }
    ensures ok { HasCleanDisk (state S.Store connection.new)
        → OnOk result (Creates (state S.Store connection.old) (state S.Store connection.new)) }
    ensures err { HasCleanDisk (state S.Store connection.new)
        → OnErr result (Refuses (state S.Store connection.old) (state S.Store connection.new)) }
{
    connection.execute(
        "CREATE TABLE IF NOT EXISTS imports (number INTEGER PRIMARY KEY, text BLOB NOT NULL) STRICT",
        &[],
    )
}

/// Inserts the text as the record of this number.
pub(crate) fn insert<S: Alter>(
    connection: &mut Connection<S>,
    number: u32,
    text: &[u8],
) -> Result<usize, Error>
    ensures clean { HasCleanDisk (state S.Store connection.new)
        → HasCleanDisk (state S.Store connection.old) }
    ensures ok { HasCleanDisk (state S.Store connection.new)
        → OnOk result (Inserts (state S.Store connection.old) (state S.Store connection.new)
        number text.now) }
    ensures err { HasCleanDisk (state S.Store connection.new)
        → OnErr result (Refuses (state S.Store connection.old) (state S.Store connection.new)) }
{
    connection.execute(
        "INSERT INTO imports (number, text) VALUES (?1, ?2)",
        params![number, text],
    )
}

/// The rows of the table, by their numbers.
pub(crate) fn select<S: Alter>(connection: &mut Connection<S>) -> Result<Vec<Row>, Error>
    ensures clean { HasCleanDisk (state S.Store connection.new)
        → HasCleanDisk (state S.Store connection.old) }
    ensures ok { HasCleanDisk (state S.Store connection.new)
        → IfOk result (λ rows. Selects (state S.Store connection.old) (state S.Store connection.new)
        rows.items) }
    ensures err { HasCleanDisk (state S.Store connection.new)
        → OnErr result (Refuses (state S.Store connection.old) (state S.Store connection.new)) }
{
    connection.query_all("SELECT number, text FROM imports ORDER BY number", &[])
}
