//! Pages of lists. A page reads the first rows past the key `after` (serial number, id or CRL number), at most `most`, and has those that the list
//! selects. So its cost is bounded, even if the list selects few. `next`: the next page's cursor; `None` if this page read fewer than `most` rows.

ghost use Rattle.std.specs.Prelude.{◌≡◌, ℕ, ◌+◌, ◌++◌, ◌∷◌, ◌-◌, ◌==◌, ◌&&◌, nat_lt, [], Some, None, cond, filter_map, min, option_map, IfOk, OnOk};
ghost use Rattle.reg_core_lists.specs.Lists.{revoked_row};
ghost use Rattle.reg_core_lists.specs.Pages.{IsPage};
ghost use Rattle.reg_core_lists.specs.declared.cursor.Cursor.TheVariants as cursor;
ghost use Rattle.reg_core_lists.specs.declared.rows.Row.TheVariants as kind;
ghost use Rattle.reg_office_reads.specs.Looking.{LooksAndDecides, clock_refusal};
ghost use Rattle.reg_store_tables.specs.LookUps.{Learns, LooksUp};
ghost use Rattle.reg_office_reads.specs.ListById.{certificate_listed, certificates_after, cursor_of, last_of_full, row_at, numbered_table};

use crate::rows::{
    certificate_row, expiring_row, history_row, open_row, order_at, order_row, overdue_row,
    request_at, revoked_row, subscriber_at,
};
use reg_core::{CertRow, CrlRow, Fault, Moment, RevocationRow, Serial, clock};
use reg_core_lists::{Cursor, Page, Row};
use reg_store_tables::{DatabaseFault, Table, Tables};
use sqlite::Alter;
use std::alloc::Global;

/// A list over a table whose ids are 1, 2, 3 and so on.
#[derive(Clone, Copy)]
pub(crate) enum ListById {
    OpenRequests,
    Overdue,
    Requests,
    Subscribers,
    Orders,
}

/// A page of a list at the moment `now`; or `clock` refuses this moment. The cursor `from` has the list, and the key after which the page begins.
pub fn page<C: Alter>(
    tables: &mut Tables<C>,
    alloc: Global,
    now: Moment,
    from: Cursor,
    most: u64,
) -> Result<Page, Fault>
    ensures { LooksAndDecides C.Store tables.old tables.new (λ records. clock_refusal records now)
        (λ records given. (clock_refusal records now ≡ None) × IsPage records now most from given) result }
{
    let last = tables.last()?;
    clock(now, last)?;
    Ok(page_of(tables, alloc, now, from, most)?)
}

fn page_of<C: Alter>(
    tables: &mut Tables<C>,
    alloc: Global,
    now: Moment,
    from: Cursor,
    most: u64,
) -> Result<Page, DatabaseFault>
    ensures { Learns C.Store tables.old tables.new result (λ records. IsPage records now most from) }
{
    match from {
        Cursor::Revoked(after) => revoked(tables, alloc, now, after, most),
        Cursor::Certificates(after) => certificates(tables, alloc, now, None, after, most),
        Cursor::Ending { before, after } => {
            certificates(tables, alloc, now, Some(before), after, most)
        }
        Cursor::OpenRequests(after) => {
            page_by_ids(tables, alloc, now, ListById::OpenRequests, after, most)
        }
        Cursor::Overdue(after) => page_by_ids(tables, alloc, now, ListById::Overdue, after, most),
        Cursor::Requests(after) => {
            page_by_ids(tables, alloc, now, ListById::Requests, after, most)
        }
        Cursor::Subscribers(after) => {
            page_by_ids(tables, alloc, now, ListById::Subscribers, after, most)
        }
        Cursor::Orders(after) => page_by_ids(tables, alloc, now, ListById::Orders, after, most),
        Cursor::Crls(after) => crls(tables, alloc, after, most),
    }
}

fn put(rows: &mut Vec<Row>, row: Option<Row>) -> Result<(), DatabaseFault>
    ensures ok { OnOk result (rows.new.items ≡ rows.old.items ++ filter_map (λ one. one) (row ∷ [])) }
{
    match row {
        Some(row) => match rows.extend_from_slice(&[row]) {
            Ok(()) => Ok(()),
            Err(_) => Err(DatabaseFault::Memory),
        },
        None => Ok(()),
    }
}

/// A page of all certificates; with `before`, of the good ones whose notAfter is before it.
fn certificates<C: Alter>(
    tables: &mut Tables<C>,
    alloc: Global,
    now: Moment,
    before: Option<Moment>,
    after: Option<Serial>,
    most: u64,
) -> Result<Page, DatabaseFault>
    ensures { Learns C.Store tables.old tables.new result (λ records.
        IsPage records now most (certificates_after before after)) }
{
    let found = tables.certs_after(after, most)?;
    let rows = certificate_rows(tables, alloc, now, &before, &found)?;
    let last = last_certificate(&found, most);
    let next = next_certificates(&before, last);
    Ok(Page { rows, next })
}

fn next_certificates(before: &Option<Moment>, last: Option<Serial>) -> Option<Cursor>
    ensures { result ≡ option_map (λ serial. certificates_after before.now (Some serial)) last }
{
    let after = Some(last?);
    match before {
        None => Some(Cursor::Certificates(after)),
        Some(before) => Some(Cursor::Ending {
            before: *before,
            after,
        }),
    }
}

fn certificate_rows<C: Alter>(
    tables: &mut Tables<C>,
    alloc: Global,
    now: Moment,
    before: &Option<Moment>,
    found: &[CertRow],
) -> Result<Vec<Row>, DatabaseFault>
    ensures { Learns C.Store tables.old tables.new result (λ records rows.
        rows.items ≡ filter_map (certificate_listed records now before.now) found.now) }
{
    let mut rows = Vec::new(alloc);
    for certificate in found {
        let row = certificate_listed(tables, now, before, *certificate)?;
        put(&mut rows, row)?;
    }
    Ok(rows)
}

fn certificate_listed<C: Alter>(
    tables: &mut Tables<C>,
    now: Moment,
    before: &Option<Moment>,
    certificate: CertRow,
) -> Result<Option<Row>, DatabaseFault>
    ensures { Learns C.Store tables.old tables.new result (λ records row.
        row ≡ certificate_listed records now before.now certificate) }
{
    match before {
        None => certificate_row(tables, now, certificate),
        Some(before) => expiring_row(tables, now, *before, certificate),
    }
}

/// The serial number of the last of these certificates, if there are `most` of them; else `None`, as there are no more pages.
fn last_certificate(found: &[CertRow], most: u64) -> Option<Serial>
    ensures { result ≡ last_of_full (λ row. row.serial) most found.now }
{
    if found.len() as u64 != most {
        return None;
    }
    match found.last() {
        Some(row) => Some(row.serial),
        None => None,
    }
}

fn revoked<C: Alter>(
    tables: &mut Tables<C>,
    alloc: Global,
    now: Moment,
    after: Option<Serial>,
    most: u64,
) -> Result<Page, DatabaseFault>
    ensures { Learns C.Store tables.old tables.new result (λ records.
        IsPage records now most (cursor.Revoked after)) }
{
    let found = tables.revocations_after(after, most)?;
    let rows = revoked_rows(tables, alloc, now, &found)?;
    let last = last_revocation(&found, most);
    let next = next_revoked(last);
    Ok(Page { rows, next })
}

fn next_revoked(last: Option<Serial>) -> Option<Cursor>
    ensures { result ≡ option_map (λ serial. cursor.Revoked (Some serial)) last }
{
    Some(Cursor::Revoked(Some(last?)))
}

fn revoked_rows<C: Alter>(
    tables: &mut Tables<C>,
    alloc: Global,
    now: Moment,
    found: &[RevocationRow],
) -> Result<Vec<Row>, DatabaseFault>
    ensures { Learns C.Store tables.old tables.new result (λ records rows.
        rows.items ≡ filter_map (revoked_row records now) found.now) }
{
    let mut rows = Vec::new(alloc);
    for revocation in found {
        let row = revoked_row(tables, now, *revocation)?;
        put(&mut rows, row)?;
    }
    Ok(rows)
}

fn last_revocation(found: &[RevocationRow], most: u64) -> Option<Serial>
    ensures { result ≡ last_of_full (λ row. row.serial) most found.now }
{
    if found.len() as u64 != most {
        return None;
    }
    match found.last() {
        Some(row) => Some(row.serial),
        None => None,
    }
}

fn crls<C: Alter>(
    tables: &mut Tables<C>,
    alloc: Global,
    after: u64,
    most: u64,
) -> Result<Page, DatabaseFault>
    ensures { LooksUp C.Store tables.old tables.new (λ records.
        (now : ℕ) → IfOk result (IsPage records now most (cursor.Crls after))) }
{
    let found = tables.crls_after(after, most)?;
    let rows = crl_rows(alloc, &found)?;
    let last = last_crl(&found, most);
    let next = next_crls(last);
    Ok(Page { rows, next })
}

fn next_crls(last: Option<u64>) -> Option<Cursor>
    ensures { result ≡ option_map (λ number. cursor.Crls number) last }
{
    Some(Cursor::Crls(last?))
}

fn crl_rows(alloc: Global, found: &[CrlRow]) -> Result<Vec<Row>, DatabaseFault>
    ensures found { IfOk result (λ rows. rows.items ≡ filter_map (λ crl. Some (kind.Crl crl)) found.now) }
{
    let mut rows = Vec::new(alloc);
    for crl in found {
        put(&mut rows, Some(Row::Crl(*crl)))?;
    }
    Ok(rows)
}

fn last_crl(found: &[CrlRow], most: u64) -> Option<u64>
    ensures { result ≡ last_of_full (λ row. row.number) most found.now }
{
    if found.len() as u64 != most {
        return None;
    }
    match found.last() {
        Some(row) => Some(row.number),
        None => None,
    }
}

/// A page of a list by ids: it reads the ids `after + 1` to `end` (in the loop, `before + 1`). `held`: how many rows the table has, so its last id.
fn page_by_ids<C: Alter>(
    tables: &mut Tables<C>,
    alloc: Global,
    now: Moment,
    list: ListById,
    after: u64,
    most: u64,
) -> Result<Page, DatabaseFault>
    ensures { Learns C.Store tables.old tables.new result (λ records.
        IsPage records now most (cursor_of list after)) }
{
    let held = tables.held(table_of(list))?;
    let end = end_of(held, after, most);
    let mut rows = Vec::new(alloc);
    for before in after..end {
        let row = row_at(tables, now, list, before + 1)?;
        put(&mut rows, row)?;
    }
    let next = next_of(list, after, end, most);
    Ok(Page { rows, next })
}

/// The cursor of the next page, after `end`, if this page read `most` ids; `None` if there are no more pages.
fn next_of(list: ListById, after: u64, end: u64, most: u64) -> Option<Cursor>
    ensures { result ≡ cond (nat_lt after end && ((end - after) == most)) (Some (cursor_of list end)) None }
{
    if after < end && end - after == most {
        return Some(cursor_of(list, end));
    }
    None
}

fn end_of(held: u64, after: u64, most: u64) -> u64
    ensures { result ≡ min held (after + most) }
{
    if after < held && most <= held - after {
        after + most
    } else {
        held
    }
}

fn table_of(list: ListById) -> Table
    ensures { result ≡ numbered_table list }
{
    match list {
        ListById::OpenRequests => Table::Requests,
        ListById::Overdue => Table::Requests,
        ListById::Requests => Table::Requests,
        ListById::Subscribers => Table::Subscribers,
        ListById::Orders => Table::Orders,
    }
}

fn cursor_of(list: ListById, after: u64) -> Cursor
    ensures { result ≡ cursor_of list after }
{
    match list {
        ListById::OpenRequests => Cursor::OpenRequests(after),
        ListById::Overdue => Cursor::Overdue(after),
        ListById::Requests => Cursor::Requests(after),
        ListById::Subscribers => Cursor::Subscribers(after),
        ListById::Orders => Cursor::Orders(after),
    }
}

/// The list's row for the record with an id; `None` if the list does not select it.
fn row_at<C: Alter>(
    tables: &mut Tables<C>,
    now: Moment,
    list: ListById,
    id: u64,
) -> Result<Option<Row>, DatabaseFault>
    ensures { Learns C.Store tables.old tables.new result (λ records row. row ≡ row_at records now list id) }
{
    match list {
        ListById::OpenRequests => {
            let maybe_open = request_at(tables, id)?;
            open_row(tables, now, maybe_open)
        }
        ListById::Overdue => {
            let maybe_overdue = request_at(tables, id)?;
            overdue_row(tables, now, maybe_overdue)
        }
        ListById::Requests => {
            let request = request_at(tables, id)?;
            history_row(tables, now, request)
        }
        ListById::Subscribers => Ok(Some(Row::Subscriber(subscriber_at(tables, id)?))),
        ListById::Orders => {
            let order = order_at(tables, id)?;
            order_row(tables, order)
        }
    }
}
