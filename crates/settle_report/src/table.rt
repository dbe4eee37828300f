//! The table, by one pass over the rows.
ghost use Rattle.std.specs.Prelude.{◌≡◌, ◌≢◌, ◌+◌, ◌<◌, IfOk, IfSome, IsSomeAnd, OnOk, ℕ, map};
ghost use Rattle.std.specs.BTreeMap.{IsOrdered, get};
ghost use Rattle.std.specs.Option.{option_map_or};
ghost use Rattle.std.specs.Ordering.{nat_cmp};
ghost use Rattle.settle_report.specs.Accounts.{IsSettled, account_of};
ghost use Rattle.settle_report.specs.Steps.{AddsLine, AddsToOne, AreAccounts, HasRoom, HasRoomAt, IsFair, entry_line, text_of};
ghost use Rattle.settle_report.specs.Table.{IsSettlement, forgotten_fields, head_fields, line_of};

use crate::account::{Account, Sale};
use crate::rows::shown_at;
use claim_rule::Wall;
use csv::{Writer, WriterBuilder};
use itoa::Buffer;
use std::alloc::{AllocError, Global};
use std::collections::BTreeMap;

/// The accounts of retailers above 0, and how often rows were given away.
#[derive(Drop)]
struct Accounts {
    by_retailer: BTreeMap<u64, Account>,
    given_away: u64,
}

/// The settlement table of a wall: a record for each retailer that has a booking, in rising number, and at the end how
/// many ended bookings gave their rows away. A stub of a row that serves again is no retailer's.
///
/// Want of memory is the one error.
pub fn settlement(alloc: Global, wall: &Wall) -> Result<Vec<u8>, AllocError>
    requires settled { IsSettled wall.now }
    ensures { IfOk result (λ text. IsSettlement wall.now text.items) }
{
    let accounts = read_accounts(alloc, wall)?;
    write_table(alloc, &accounts)
}

// The accounts of all rows.
fn read_accounts(alloc: Global, wall: &Wall) -> Result<Accounts, AllocError>
    requires settled { IsSettled wall.now }
    ensures { IfOk result (AreAccounts wall.now wall.now.layout.rows) }
{
    let mut accounts = Accounts {
        by_retailer: BTreeMap::new(alloc),
        given_away: 0,
    };
    for row in 0..wall.rows() {
        accounts.add_row(wall, row)?;
    }
    Ok(accounts)
}

impl Accounts {
    // Adds what a row shows.
    fn add_row(&mut self, wall: &Wall, row: u32) -> Result<(), AllocError>
        requires settled { IsSettled wall.now }
        requires row { row < wall.now.layout.rows }
        requires below { AreAccounts wall.now row self.old }
        ensures { OnOk result (AreAccounts wall.now (row + 1) self.new) }
    {
        let shown = shown_at(wall, row);
        self.given_away += u64::from(shown.generation);
        match shown.sale {
            Some(sale) => add_sale(&mut self.by_retailer, sale),
            None => Ok(()),
        }
    }
}

// Adds a booking to the account of its retailer.
fn add_sale(accounts: &mut BTreeMap<u64, Account>, sale: Sale) -> Result<(), AllocError>
    requires room { HasRoomAt sale.retailer accounts.old }
    requires sale { IsFair sale }
    ensures { OnOk result (AddsToOne sale accounts.old accounts.new) }
{
    accounts
        .entry(sale.retailer)?
        .or_insert(Account::NONE)
        .add(sale);
    Ok(())
}

// The table of the accounts.
fn write_table(alloc: Global, accounts: &Accounts) -> Result<Vec<u8>, AllocError>
    ensures text { IfOk result (λ text. text.items ≡ text_of accounts.now) }
    ensures ordered { OnOk result (IsOrdered nat_cmp accounts.now.by_retailer) }
{
    let mut writer = WriterBuilder::new().from_writer(Vec::new(alloc));
    write_head(&mut writer)?;
    for (retailer, account) in accounts.by_retailer.iter() {
        write_account(&mut writer, *retailer, *account)?;
    }
    write_forgotten(&mut writer, accounts.given_away)?;
    match writer.into_inner() {
        Ok(text) => Ok(text),
        Err(_) => Err(AllocError),
    }
}

// A record of that many fields.
fn write_record(writer: &mut Writer<Vec<u8>>, fields: &[&[u8]]) -> Result<(), AllocError>
    ensures { OnOk result (AddsLine (line_of (map (λ f. f.now) fields.now)) writer.old writer.new) }
{
    match writer.write_fields(fields) {
        Ok(()) => Ok(()),
        Err(_) => Err(AllocError),
    }
}

// The first record.
fn write_head(writer: &mut Writer<Vec<u8>>) -> Result<(), AllocError>
    ensures { OnOk result (AddsLine (line_of head_fields) writer.old writer.new) }
{
    write_record(
        writer,
        &[
            b"retailer",
            b"bookings",
            b"live",
            b"sold",
            b"refunded",
            b"exchanged",
        ],
    )
}

// The record of a retailer.
fn write_account(
    writer: &mut Writer<Vec<u8>>,
    retailer: u64,
    account: Account,
) -> Result<(), AllocError>
    ensures { OnOk result (AddsLine (entry_line (retailer, account)) writer.old writer.new) }
{
    let mut number = Buffer::new();
    let mut bookings = Buffer::new();
    let mut live = Buffer::new();
    let mut sold = Buffer::new();
    let mut refunded = Buffer::new();
    let mut exchanged = Buffer::new();
    write_record(
        writer,
        &[
            number.format(retailer).as_bytes(),
            bookings.format(account.bookings).as_bytes(),
            live.format(account.live).as_bytes(),
            sold.format(account.sold).as_bytes(),
            refunded.format(account.refunded).as_bytes(),
            exchanged.format(account.exchanged).as_bytes(),
        ],
    )
}

// The last record, which says how many ended bookings gave their rows away.
fn write_forgotten(writer: &mut Writer<Vec<u8>>, count: u64) -> Result<(), AllocError>
    ensures { OnOk result (AddsLine (line_of (forgotten_fields count)) writer.old writer.new) }
{
    let mut number = Buffer::new();
    write_record(
        writer,
        &[
            b"forgotten",
            number.format(count).as_bytes(),
            b"0",
            b"0",
            b"0",
            b"0",
        ],
    )
}
