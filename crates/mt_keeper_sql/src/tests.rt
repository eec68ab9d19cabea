ghost use Rattle.std.specs.Prelude.{◌≡◌, false, IfOk};

use super::*;
use mt_keeper::{Keeper, KeeperRefused, Records};
use sqlite::{Connection, Error, MemStore};
use std::alloc::Global;
use std::test::Fail;

// One load through the bound.
fn load_one<K: Keeper>(alloc: Global, keeper: &mut K) -> Result<Records, KeeperRefused> {
    keeper.load(alloc)
}

// A keeper over the connection, which tells nothing.
fn adopted(connection: Connection<MemStore>) -> Result<SqlKeeper<MemStore>, Error>
    ensures { IfOk result (λ keeper. keeper.tells ≡ false) }
{
    if !connection.is_autocommit() {
        return Err(Error::InvalidQuery);
    }
    Ok(SqlKeeper::adopt(connection, false))
}

// A keeper over a database in memory on which these statements were run.
fn keeper_after(alloc: Global, sql: &str) -> Result<SqlKeeper<MemStore>, Error>
    ensures { IfOk result (λ keeper. keeper.tells ≡ false) }
{
    let mut connection = Connection::open_in_memory(alloc)?;
    connection.execute_batch(sql)?;
    adopted(connection)
}

#[test]
fn records_come_back(rt: HostRuntime) -> Result<(), Fail> {
    let alloc = rt.alloc();
    let mut keeper = keeper_after(alloc, "")?;
    let refused = Err(KeeperRefused::Fault);
    assert_eq!(rt; keeper.put(alloc, 1, b"no table"), refused);
    assert_eq!(rt; keeper.load(alloc)?.len(), 0);
    assert_eq!(rt; keeper.put(alloc, 1, b"one\n"), Ok(()));
    assert_eq!(rt; keeper.put(alloc, 2, b"\x00\xff"), Ok(()));
    assert_eq!(rt; keeper.put(alloc, 2, b"two"), refused);
    let mut again = adopted(keeper.into_connection())?;
    let records = load_one(alloc, &mut again)?;
    assert_eq!(rt; records.len(), 2);
    assert_eq!(rt; records.get(1), b"one\n".as_slice());
    assert_eq!(rt; records.get(2), b"\x00\xff".as_slice());
    Ok(())
}

// Numbers that are not 1 to n, and other tables of this name.
#[test]
fn other_tables_are_faults(rt: HostRuntime) -> Result<(), Fail> {
    for sql in [
        "CREATE TABLE imports (number INTEGER PRIMARY KEY, text BLOB NOT NULL) STRICT;
        INSERT INTO imports VALUES (2, x'61')",
        "CREATE TABLE imports (number INTEGER PRIMARY KEY, text BLOB NOT NULL) STRICT;
        INSERT INTO imports VALUES (1, x'61'), (3, x'62')",
        "CREATE TABLE imports (number INTEGER PRIMARY KEY, text TEXT) STRICT;
        INSERT INTO imports VALUES (1, 'a')",
        "CREATE TABLE imports (number INTEGER) STRICT",
    ] {
        let mut keeper = keeper_after(rt.alloc(), sql)?;
        assert_eq!(rt;
            keeper.load(rt.alloc()).err(),
            Some(KeeperRefused::Fault),
            "{sql}"
        );
    }
    Ok(())
}
