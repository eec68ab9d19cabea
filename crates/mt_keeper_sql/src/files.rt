//! A keeper over a database file and its log.
ghost use Rattle.std.specs.Prelude.{◌≡◌, false, codes, Err, IfOk, IfErr, IsTrue};
ghost use Rattle.sqlite.specs.Closing.{IsCopied};
ghost use Rattle.sqlite.specs.Files.{file_state};
ghost use Rattle.sqlite_wal.specs.Reads.{AreClean};
ghost use Rattle.mt_keeper_sql.specs.Opening.{unopened_by};

use crate::keeper::{SqlKeeper, refusal};
use mt_keeper::KeeperRefused;
use sqlite::{Connection, Error, ErrorCode, File, FileStore, Files};
use sqlite_disk::Disk;
use thiserror::Error as ErrorText;

/// Why the store at a path is not opened.
#[derive(Clone, Copy, PartialEq, Eq, Debug, ErrorText)]
pub enum Unopened {
    /// Want of memory.
    #[error("want of memory")]
    Memory,
    /// Another program has the store open.
    #[error("another program has the store open")]
    Busy,
    /// There is no file at the path that can be opened to be read and written, and none can be made.
    #[error("no file can be opened at the path")]
    Path,
    /// The file is no database, or its rows break its schema.
    #[error("the file is no database, or is damaged")]
    Damaged,
    /// The disk failed, or is full.
    #[error("the disk failed, or is full")]
    Disk,
}

impl SqlKeeper<FileStore<File>> {
    /// A keeper over the database at the path, which tells nothing. The file is made where there is
    /// none; the log lies beside it, under its name with `-wal` behind. `:memory:`, the empty path and
    /// what begins with `file:` are no paths.
    pub fn open(rt: &HostRuntime, path: &str) -> Result<SqlKeeper<FileStore<File>>, Unopened>
        ensures silent { IfOk result (λ keeper. keeper.tells ≡ false) }
        ensures fresh { IfOk result (λ keeper. (keeper.refused ≡ false) × (keeper.faults ≡ 0)) }
        ensures memory { path.now ≡ codes ":memory:" → result ≡ Err Unopened.Path }
    {
        match Connection::open(rt, path) {
            Ok(connection) => Ok(SqlKeeper::adopt(connection, false)),
            Err(error) => Err(unopened_by(error)),
        }
    }
}

impl<D: Disk + Drop> SqlKeeper<FileStore<D>> {
    /// Copies the log into the database file, which then has all records, and gives both files back.
    /// Where that fails, the records lie in both files together.
    pub fn close(self) -> Result<Files<D>, KeeperRefused>
        ensures copied { IfOk result (λ files. AreClean D.Disk files.log files.db
            → IsCopied self.connection files) }
    {
        let mut faults = self.faults;
        match self.into_connection().close_files() {
            Ok(files) => Ok(files),
            Err((error, store)) => {
                drop(store.close());
                Err(refusal(error, &mut faults))
            }
        }
    }
}

// Why a store is not opened, by the error of the database.
fn unopened_by(error: Error) -> Unopened
    ensures { result ≡ unopened_by error }
{
    match error {
        Error::SqliteFailure(ErrorCode::OutOfMemory) => Unopened::Memory,
        Error::SqliteFailure(ErrorCode::DatabaseBusy) => Unopened::Busy,
        Error::SqliteFailure(ErrorCode::CannotOpen) => Unopened::Path,
        Error::SqliteFailure(ErrorCode::NotADatabase | ErrorCode::DatabaseCorrupt) => {
            Unopened::Damaged
        }
        _ => Unopened::Disk,
    }
}
