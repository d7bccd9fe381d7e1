//! The statements by which rows stand in a database.
//!
//! No clause says what a file holds, so none speaks of the rows here, but of their order.
ghost use Rattle.std.specs.Prelude.{◌≡◌, [], ◌∷◌, ◌++◌, IsTrue, IfOk, OnOk};
ghost use Rattle.std.specs.Ordering.{is_lt};
ghost use Rattle.client_keeper.specs.Rows.{by_key, key_of, rows_of, AreInOrder};

use crate::{Entry, KeptRow};
use sqlite::{Alter, Connection, Error, ErrorCode, Row, Transaction, params};
use std::alloc::Global;
use std::cmp::Ordering;
use wire_fields::{List, Octets};

const CREATE: &str =
    "CREATE TABLE IF NOT EXISTS rows(tab INTEGER NOT NULL, k BLOB NOT NULL, v BLOB NOT NULL, PRIMARY KEY(tab, k))";

const PUT: &str =
    "INSERT INTO rows(tab, k, v) VALUES (?1, ?2, ?3) ON CONFLICT(tab, k) DO UPDATE SET v = excluded.v";

const REMOVE: &str = "DELETE FROM rows WHERE tab = ?1 AND k = ?2";

const LOAD: &str = "SELECT tab, k, v FROM rows ORDER BY tab, k";

/// Makes the table where it is missing.
pub(crate) fn create_table<S: Alter>(connection: &mut Connection<S>) -> Result<(), Error> {
    connection.execute_batch(CREATE)
}

fn make_entry<S: Alter>(transaction: &mut Transaction<'_, S>, entry: &Entry) -> Result<(), Error> {
    let table = i64::from(entry.key.table);
    let key = entry.key.key.as_slice();
    match &entry.value {
        Some(value) => transaction.execute(PUT, params![table, key, value.as_slice()])?,
        None => transaction.execute(REMOVE, params![table, key])?,
    };
    Ok(())
}

fn make_entries<S: Alter>(
    transaction: &mut Transaction<'_, S>,
    entries: &[Entry],
) -> Result<(), Error> {
    for entry in entries {
        make_entry(transaction, entry)?;
    }
    Ok(())
}

/// Makes the whole change in one transaction, which rolls back where an entry fails.
pub(crate) fn make_change<S: Alter>(
    connection: &mut Connection<S>,
    entries: &[Entry],
) -> Result<(), Error> {
    if !connection.is_autocommit() {
        return Err(Error::SqliteFailure(ErrorCode::TransactionState));
    }
    let mut transaction = connection.transaction();
    make_entries(&mut transaction, entries)?;
    transaction.commit()
}

fn read_row(row: &Row) -> Result<KeptRow, Error> {
    let table: i64 = row.get(0)?;
    let Ok(table) = u8::try_from(table) else {
        return Err(Error::IntegralValueOutOfRange(0));
    };
    let key = Octets::from_vec(row.get(1)?);
    let value = Octets::from_vec(row.get(2)?);
    Ok(KeptRow { table, key, value })
}

// Whether the one stands before the other, by table and then by key.
fn is_before(row: &KeptRow, other: &KeptRow) -> bool
    ensures { result ≡ is_lt (by_key (key_of row.now) (key_of other.now)) }
{
    match row.table.cmp(&other.table) {
        Ordering::Less => true,
        Ordering::Equal => row.key < other.key,
        Ordering::Greater => false,
    }
}

// Whether the row stands after the last one, and so after all of them.
fn is_after_all(rows: &[KeptRow], row: &KeptRow) -> bool
    ensures { IsTrue result → AreInOrder (rows_of rows.now) → AreInOrder (rows_of (rows.now ++ row.now ∷ [])) }
{
    match rows.last() {
        Some(last) => is_before(last, row),
        None => true,
    }
}

// Adds a row that stands after the others. A database that gave another one is damaged.
fn push_after(rows: &mut List<KeptRow>, row: KeptRow) -> Result<(), Error>
    requires { AreInOrder (rows_of rows.old) }
    ensures { OnOk result (AreInOrder (rows_of rows.new)) }
{
    if !is_after_all(rows.as_slice(), &row) {
        return Err(Error::SqliteFailure(ErrorCode::DatabaseCorrupt));
    }
    match rows.push(row) {
        Ok(()) => Ok(()),
        Err(_) => Err(Error::SqliteFailure(ErrorCode::OutOfMemory)),
    }
}

fn query_rows<S: Alter>(connection: &mut Connection<S>) -> Result<Vec<Row>, Error> {
    connection.query_all(LOAD, &[])
}

/// All the rows, in order. It is one pass over them.
pub(crate) fn read_rows<S: Alter>(
    alloc: Global,
    connection: &mut Connection<S>,
) -> Result<List<KeptRow>, Error>
    ensures { IfOk result (λ rows. AreInOrder (rows_of rows)) }
{
    let mut rows = List::new(alloc);
    for row in &query_rows(connection)? {
        push_after(&mut rows, read_row(row)?)?;
    }
    Ok(rows)
}
