//! The query for a page of a list, by the list's name and up to seven parameters: `after=KEY&limit=N&before=MOMENT`, and those of a filter,
//! `subscriber=NAME&serial=PREFIX&from=MOMENT&to=MOMENT`. KEY is the serial number, id or CRL number after which the page begins. Only the list
//! `ending` takes `before`: it has the good certificates whose notAfter is before that moment.

ghost use Rattle.std.specs.Prelude.{◌≡◌, ◌≤◌, ◌<◌, ◌+◌, ◌==◌, drop, length};
ghost use Rattle.std.specs.Char.{is_ascii_hexdigit};
ghost use Rattle.std.specs.List.{list_all, position, position_or_len};
ghost use Rattle.reg_core_lists.specs.ListParameters.{at_most, cursor_at, filter_with, page_query, params_of, prefix_of, with_after, with_before, with_filter, filtered_from, with_limit, with_parameter, filtered_by_serial, filtered_by_name, filtered_to, with_value};

use crate::cursor::Cursor;
use crate::filter::Filter;
use reg_core::{Label, Moment, read_number};

/// The greatest `limit` that is accepted. A limit above `MOST_ROWS_READ` counts as `MOST_ROWS_READ`.
const GREATEST_LIMIT: u64 = 1_000;

/// The most rows that a page reads, whatever its `limit`, so that no other client waits long.
const MOST_ROWS_READ: u64 = 250;

const MOST_PARAMS: usize = 7;

/// The most hexadecimal digits of a serial number.
const MOST_DIGITS: usize = 40;

#[derive(Clone, Copy)]
struct Params {
    after: Option<Label>,
    before: Option<Moment>,
    limit: Option<u64>,
    filter: Filter,
}

/// A query for a page: where the page begins, the most rows that it reads (1 to 250), and the filter that selects its rows among them.
#[derive(Clone, Copy)]
pub struct PageQuery {
    pub from: Cursor,
    pub most: u64,
    pub filter: Filter,
}

/// Reads the query for a page of the list `name`. `None` if there is no such list, `before` is missing for `ending` or given for another list, a
/// parameter has no `=`, is repeated, unknown or can't be read, the limit is not 1 to 1,000, or the list's rows lack a field that the filter needs.
pub fn read_page(name: &[u8], query: &[u8]) -> Option<PageQuery>
    ensures { result ≡ page_query name.now query.now }
{
    let params = read_params(query)?;
    let from = cursor_past_key(Cursor::named(name, params.before)?, params.after)?;
    let most = most_rows(params.limit)?;
    if !params.filter.fits(from) {
        return None;
    }
    Some(PageQuery {
        from,
        most,
        filter: params.filter,
    })
}

fn cursor_past_key(from: Cursor, after: Option<Label>) -> Option<Cursor>
    ensures { result ≡ cursor_at from after }
{
    match after {
        Some(key) => from.past(key.as_bytes()),
        None => Some(from),
    }
}

fn most_rows(limit: Option<u64>) -> Option<u64>
    ensures { result ≡ at_most limit }
{
    match limit {
        Some(limit) if limit == 0 || limit > GREATEST_LIMIT => None,
        Some(limit) if limit < MOST_ROWS_READ => Some(limit),
        _ => Some(MOST_ROWS_READ),
    }
}

fn read_params(query: &[u8]) -> Option<Params>
    ensures { result ≡ params_of query.now }
{
    let mut params = Params {
        after: None,
        before: None,
        limit: None,
        filter: Filter {
            subscriber: None,
            serial: None,
            from: None,
            to: None,
        },
    };
    if query.is_empty() {
        return Some(params);
    }
    let mut rest = query;
    for _ in 0..MOST_PARAMS {
        let end = index_of(rest, b'&');
        params = with_parameter(params, &rest[..end])?;
        if end == rest.len() {
            return Some(params);
        }
        rest = text_after(rest, end);
    }
    None
}

fn text_after(text: &[u8], index: usize) -> &[u8]
    requires { index < length text.now }
    ensures { result.now ≡ drop (index + 1) text.now }
{
    &text[index + 1..]
}

/// The index of the first byte that is `wanted`; if there is none, the length of the text. [`position_of`] gives `None` instead of the length.
pub(crate) fn index_of(text: &[u8], wanted: u8) -> usize
    ensures index { result ≡ position_or_len (λ byte. byte == wanted) text.now }
    ensures within { result ≤ length text.now }
{
    match position_of(text, wanted) {
        Some(index) => index,
        None => text.len(),
    }
}

pub(crate) fn position_of(text: &[u8], wanted: u8) -> Option<usize>
    ensures { result ≡ position (λ byte. byte == wanted) text.now }
{
    text.iter().position(|byte| *byte == wanted)
}

fn with_parameter(params: Params, parameter: &[u8]) -> Option<Params>
    ensures { result ≡ with_parameter params parameter.now }
{
    let end = index_of(parameter, b'=');
    if end == parameter.len() {
        return None;
    }
    with_value(params, &parameter[..end], text_after(parameter, end))
}

/// `params` with the parameter `name` added. `None`, as from the functions below, if `params` has it already, it is unknown, or its value is invalid.
fn with_value(params: Params, name: &[u8], value: &[u8]) -> Option<Params>
    ensures { result ≡ with_value params name.now value.now }
{
    match name {
        _ if name == b"after".as_slice() => with_after(params, value),
        _ if name == b"before".as_slice() => with_before(params, value),
        _ if name == b"limit".as_slice() => with_limit(params, value),
        _ => with_filter(params, name, value),
    }
}

fn with_after(params: Params, value: &[u8]) -> Option<Params>
    ensures { result ≡ with_after params value.now }
{
    if params.after.is_some() {
        return None;
    }
    let after = Some(Label::of(value)?);
    Some(Params { after, ..params })
}

fn with_before(params: Params, value: &[u8]) -> Option<Params>
    ensures { result ≡ with_before params value.now }
{
    if params.before.is_some() {
        return None;
    }
    let before = Some(Moment::read(value)?);
    Some(Params { before, ..params })
}

fn with_limit(params: Params, value: &[u8]) -> Option<Params>
    ensures { result ≡ with_limit params value.now }
{
    if params.limit.is_some() {
        return None;
    }
    let limit = Some(read_number(value)?);
    Some(Params { limit, ..params })
}

fn with_filter(params: Params, name: &[u8], value: &[u8]) -> Option<Params>
    ensures { result ≡ with_filter params name.now value.now }
{
    let filter = filter_with(params.filter, name, value)?;
    Some(Params { filter, ..params })
}

/// `filter` with the parameter `name` added. Each `filtered_..` function adds one parameter. [`with_filter`] puts the filter into `params`.
fn filter_with(filter: Filter, name: &[u8], value: &[u8]) -> Option<Filter>
    ensures { result ≡ filter_with filter name.now value.now }
{
    match name {
        _ if name == b"subscriber".as_slice() => filtered_by_name(filter, value),
        _ if name == b"serial".as_slice() => filtered_by_serial(filter, value),
        _ if name == b"from".as_slice() => filtered_from(filter, value),
        _ if name == b"to".as_slice() => filtered_to(filter, value),
        _ => None,
    }
}

fn filtered_by_name(filter: Filter, value: &[u8]) -> Option<Filter>
    ensures { result ≡ filtered_by_name filter value.now }
{
    if filter.subscriber.is_some() {
        return None;
    }
    let subscriber = Some(Label::of(value)?);
    Some(Filter {
        subscriber,
        ..filter
    })
}

fn filtered_by_serial(filter: Filter, value: &[u8]) -> Option<Filter>
    ensures { result ≡ filtered_by_serial filter value.now }
{
    if filter.serial.is_some() {
        return None;
    }
    let serial = Some(read_prefix(value)?);
    Some(Filter { serial, ..filter })
}

fn filtered_from(filter: Filter, value: &[u8]) -> Option<Filter>
    ensures { result ≡ filtered_from filter value.now }
{
    if filter.from.is_some() {
        return None;
    }
    let from = Some(Moment::read(value)?);
    Some(Filter { from, ..filter })
}

fn filtered_to(filter: Filter, value: &[u8]) -> Option<Filter>
    ensures { result ≡ filtered_to filter value.now }
{
    if filter.to.is_some() {
        return None;
    }
    let to = Some(Moment::read(value)?);
    Some(Filter { to, ..filter })
}

/// Reads the 1 to 40 hexadecimal digits with which a serial number begins; `None` for any other text. [`Label::of`] refuses the empty text.
pub fn read_prefix(text: &[u8]) -> Option<Label>
    ensures { result ≡ prefix_of text.now }
{
    if are_digits(text) && text.len() <= MOST_DIGITS {
        Label::of(text)
    } else {
        None
    }
}

fn are_digits(text: &[u8]) -> bool
    ensures { result ≡ list_all is_ascii_hexdigit text.now }
{
    text.iter().all(|digit| digit.is_ascii_hexdigit())
}
