//! A keeper over a connection.
ghost use Rattle.std.specs.Prelude.{◌≡◌, ◌≤◌, ◌↔◌, ◌&&◌, ℕ, not, false, List, is_err, IfOk, OnErr, IsTrue};
ghost use Rattle.mt_io.specs.Faults.{Rose};
ghost use Rattle.mt_keeper.specs.Faults.{HasKeeperCause};
ghost use Rattle.mt_keeper.specs.Keeping.{IsNext, Loads, Puts};
ghost use Rattle.sqlite.specs.Held.{state};
ghost use Rattle.sqlite.specs.State.{HasCleanDisk};
ghost use Rattle.sqlite.specs.declared.error.Error.TheVariants.{SqliteFailure};
ghost use Rattle.sqlite.specs.declared.error.ErrorCode.TheVariants.{OutOfMemory};
ghost use Rattle.mt_keeper.specs.declared.refusals.KeeperRefused.TheVariants.{Fault, Memory};
ghost use Rattle.mt_keeper_sql.specs.Keepers.{told_records};
ghost use Rattle.mt_keeper_sql.specs.Standing.{Reads, Refuses};
ghost use Rattle.mt_keeper_sql.specs.Store.{Holds};

use crate::rows::texts_of_rows;
use crate::statements::{create, insert, select};
use mt_keeper::{Keeper, KeeperRefused, Records};
use sqlite::{Alter, Connection, Error, ErrorCode};
use std::alloc::Global;
use std::marker::Model;

/// A keeper of records in a table, one a row. It counts each refusal of a statement but for want of
/// memory.
#[derive(Drop)]
pub struct SqlKeeper<S: Alter> {
    connection: Connection<S>,
    tells: bool,
    refused: bool,
    pub(crate) faults: u64,
}

impl<S: Alter> Model for SqlKeeper<S> {
    ghost use Rattle.std.specs.Prelude.{IsTrue};
    ghost use Rattle.sqlite.specs.Held.{state};
    ghost use Rattle.sqlite.specs.State.{HasCleanDisk};
    ghost use Rattle.mt_keeper_sql.specs.Keepers.{SqlKeeperState, sql_keeper_code, HoldsTexts};

    ghost Value = { SqlKeeperState S };

    ghost coded = { sql_keeper_code S.code };

    ghost view = { λ k. record {
      connection = k.connection;
      tells = k.tells;
      refused = k.refused;
      faults = k.faults;
    } };

    ghost invariant = { λ k. IsTrue k.tells → HasCleanDisk (state S.Store k.connection)
        → HoldsTexts k.refused (state S.Store k.connection) };
}

impl<S: Alter> SqlKeeper<S> {
    /// A keeper over the connection. One that tells its records does so until the call after a
    /// refused one, as long as the disk returns what was written and the connection is open.
    pub fn adopt(connection: Connection<S>, tells: bool) -> SqlKeeper<S>
        requires autocommit { connection.in_transaction ≡ false }
        requires clean { IsTrue tells → HasCleanDisk (state S.Store connection) }
        requires holds { IsTrue tells → (texts : List (List ℕ)) × Holds (state S.Store connection).now texts }
        ensures { result ≡ record {
          connection = connection;
          tells = tells;
          refused = false;
          faults = 0;
        } }
    {
        // It is in no transaction, so this says that what it shows is committed.
        let is_settled = connection.is_autocommit();
        SqlKeeper {
            connection,
            tells: tells && is_settled,
            refused: false,
            faults: 0,
        }
    }

    /// The connection.
    pub fn into_connection(self) -> Connection<S>
        ensures { result ≡ self.connection }
    {
        self.connection
    }

    // A keeper whose last call was refused tells nothing from its next call on.
    fn begin(&mut self)
        ensures { self.new ≡ record self.old {
          tells = self.old.tells && not self.old.refused;
          refused = false;
        } }
    {
        self.tells = self.tells && !self.refused;
        self.refused = false;
    }
}

impl<S: Alter> Keeper for SqlKeeper<S> {
    ghost records = { λ k. told_records k.tells (state S.Store k.connection) };

    ghost faults = { λ k. k.faults };

    /// Makes the table where there is none, and reads it. Numbers that are not 1 to n are a fault.
    fn load(&mut self, alloc: Global) -> Result<Records, KeeperRefused>
        ensures records { Loads (told_records self.old.tells (state S.Store self.old.connection))
            (told_records self.new.tells (state S.Store self.new.connection)) result }
        ensures cause { HasKeeperCause self.old.faults self.new.faults result }
        ensures tells { self.new.tells ≡ (self.old.tells && not self.old.refused) }
        ensures refused { self.new.refused ≡ is_err result }
    {
        self.begin();
        match read_all(alloc, &mut self.connection) {
            Ok(records) => Ok(records),
            Err(error) => {
                self.refused = true;
                Err(refusal(error, &mut self.faults))
            }
        }
    }

    /// Inserts one row.
    fn put(&mut self, _alloc: Global, number: u32, text: &[u8]) -> Result<(), KeeperRefused>
        requires { IsNext (told_records self.old.tells (state S.Store self.old.connection)) number }
        ensures records { Puts (told_records self.old.tells (state S.Store self.old.connection))
            (told_records self.new.tells (state S.Store self.new.connection)) result text.now }
        ensures cause { HasKeeperCause self.old.faults self.new.faults result }
        ensures tells { self.new.tells ≡ (self.old.tells && not self.old.refused) }
        ensures refused { self.new.refused ≡ is_err result }
    {
        self.begin();
        match insert(&mut self.connection, number, text) {
            Ok(_) => Ok(()),
            Err(error) => {
                self.refused = true;
                Err(refusal(error, &mut self.faults))
            }
        }
    }
}

// Makes the table where there is none, and reads it.
fn read_all<S: Alter>(alloc: Global, connection: &mut Connection<S>) -> Result<Records, Error>
    ensures clean { HasCleanDisk (state S.Store connection.new)
        → HasCleanDisk (state S.Store connection.old) }
    ensures ok { HasCleanDisk (state S.Store connection.new)
        → IfOk result (Reads (state S.Store connection.old) (state S.Store connection.new)) }
    ensures err { HasCleanDisk (state S.Store connection.new)
        → OnErr result (Refuses (state S.Store connection.old) (state S.Store connection.new)) }
{
    create(connection)?;
    let rows = select(connection)?;
    Ok(Records::new(texts_of_rows(alloc, &rows)?))
}

// What a refused statement is answered by: want of memory as such, and all else as a counted fault.
pub(crate) fn refusal(error: Error, faults: &mut u64) -> KeeperRefused
    ensures memory { (result ≡ Memory) ↔ (error ≡ SqliteFailure OutOfMemory) }
    ensures later { faults.old ≤ faults.new }
    ensures rose { result ≡ Fault → Rose faults.old faults.new }
{
    if matches!(error, Error::SqliteFailure(ErrorCode::OutOfMemory)) {
        return KeeperRefused::Memory;
    }
    *faults = faults.saturating_add(1);
    KeeperRefused::Fault
}
