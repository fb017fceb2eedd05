//! The request by which a follower asks its leader for changes.

ghost use Rattle.std.specs.Prelude.{◌≡◌, ◌++◌, codes, IfOk};
ghost use Rattle.reg_core.specs.Buffers.{AppendsOnOk};
ghost use Rattle.reg_desk_service.specs.ChangesRequests.{after_part, changes_text, header_with, number_part, schedule_header, wait_part};

use reg_core::Decimal;
use reg_core_lists::{Positions, put_positions};
use std::alloc::{AllocError, Global};

/// The request for the changes after some positions; for `None`, from the first row on. `stored_by`: the number of the follower whose file has all
/// rows up to them, for `desk open --confirm-by`. `schedule`: the steps of its schedule, as a page has them; empty for a request without them.
/// `waits`: without news, the leader may answer a second later.
pub fn changes_request(
    alloc: Global,
    after: &Option<Positions>,
    stored_by: Option<u64>,
    schedule: &[u8],
    waits: bool,
) -> Result<Vec<u8>, AllocError>
    ensures { IfOk result (λ request.
        request.items ≡ changes_text after.now stored_by schedule.now waits) }
{
    let mut request = Vec::from_slice(alloc, b"GET /changes")?;
    put_after(alloc, &mut request, after)?;
    put_follower(&mut request, stored_by)?;
    put_wait(&mut request, waits)?;
    request.extend_from_slice(b" HTTP/1.1\r\nHost: 127.0.0.1\r\nConnection: close\r\n")?;
    put_schedule(&mut request, schedule)?;
    request.extend_from_slice(b"\r\n")?;
    Ok(request)
}

fn put_schedule(out: &mut Vec<u8>, schedule: &[u8]) -> Result<(), AllocError>
    ensures { AppendsOnOk out.old out.new result (schedule_header schedule.now) }
{
    if schedule.is_empty() {
        Ok(())
    } else {
        put_header(out, schedule)
    }
}

fn put_header(out: &mut Vec<u8>, steps: &[u8]) -> Result<(), AllocError>
    ensures { AppendsOnOk out.old out.new result (header_with steps.now) }
{
    out.extend_from_slice(b"desk-schedule: ")?;
    put_line(out, steps)
}

fn put_line(out: &mut Vec<u8>, text: &[u8]) -> Result<(), AllocError>
    ensures { AppendsOnOk out.old out.new result (text.now ++ codes "\r\n") }
{
    out.extend_from_slice(text)?;
    out.extend_from_slice(b"\r\n")
}

fn put_after(alloc: Global, out: &mut Vec<u8>, after: &Option<Positions>) -> Result<(), AllocError>
    ensures { AppendsOnOk out.old out.new result (after_part after.now) }
{
    match after {
        Some(positions) => {
            out.extend_from_slice(b"?after=")?;
            put_positions(alloc, out, positions)
        }
        None => Ok(()),
    }
}

fn put_follower(out: &mut Vec<u8>, stored_by: Option<u64>) -> Result<(), AllocError>
    ensures { AppendsOnOk out.old out.new result (number_part stored_by) }
{
    match stored_by {
        Some(number) => {
            out.extend_from_slice(b"&follower=")?;
            out.extend_from_slice(Decimal::of(number).as_bytes())
        }
        None => Ok(()),
    }
}

fn put_wait(out: &mut Vec<u8>, waits: bool) -> Result<(), AllocError>
    ensures { AppendsOnOk out.old out.new result (wait_part waits) }
{
    if waits {
        out.extend_from_slice(b"&wait=1")
    } else {
        Ok(())
    }
}
