//! The routes `/health` and `/metrics` of a follower, which also report how it follows its leader.

ghost use Rattle.std.specs.Prelude.{◌≡◌, ◌++◌, IfOk};
ghost use Rattle.reg_office_api.specs.Calls.{LooksIn};
ghost use Rattle.reg_http.specs.AnswerEffects.{plain, answer_effects};
ghost use Rattle.reg_desk_cli.specs.declared.desk.TheConstants.{VERSION};
ghost use Rattle.reg_desk_metrics.specs.Followers.{follower_text};
ghost use Rattle.reg_desk_metrics.specs.Metrics.{metrics_text};
ghost use Rattle.reg_desk_service.specs.HealthRoutes.{AnswersFollowerHealth, AnswersFollowerMetrics, ByGet, IsRecounted, follower_health_response, metrics_response};

use crate::health_routes::{PROMETHEUS, found_at, read_health, recount, status_of};
use crate::machine::Machine;
use http::Method;
use reg_core::{Memory, Moment};
use reg_desk_cli::VERSION;
use reg_desk_metrics::{ConnectionTotals, FollowerStatus, Health, NumbersResult, Tally, metrics};
use reg_http::{HttpAnswer, json, only_get};
use reg_http_head::{Answer, status};
use std::alloc::Global;

/// Answers `/health` at `now`: 200 if all is well with the follower and its register, else 503; 405 if the method is not GET.
pub(crate) fn follower_health<M: Machine>(
    alloc: Global,
    office: &mut M::Office,
    follower: &FollowerStatus,
    method: &Method,
    now: Moment,
    tally: &mut Tally,
) -> Result<HttpAnswer, Memory>
    ensures moves { LooksIn M.Office.Office
        (λ records.
        IfOk result (λ answered.
        ByGet method.now (AnswersFollowerHealth follower.now now records) (answer_effects answered)))
        office.old office.new }
    ensures recounted { IsRecounted tally.old tally.new }
{
    if method.as_str() != "GET" {
        return only_get(alloc);
    }
    follower_health_at::<M>(alloc, office, follower, now, tally)
}

fn follower_health_at<M: Machine>(
    alloc: Global,
    office: &mut M::Office,
    follower: &FollowerStatus,
    now: Moment,
    tally: &mut Tally,
) -> Result<HttpAnswer, Memory>
    ensures moves { LooksIn M.Office.Office
        (λ records. IfOk result (λ answered.
        AnswersFollowerHealth follower.now now records (answer_effects answered)))
        office.old office.new }
    ensures recounted { IsRecounted tally.old tally.new }
{
    let health = read_health::<M>(alloc, office, now, tally, None);
    follower_health_answer(alloc, follower, &health)
}

fn follower_health_answer(
    alloc: Global,
    follower: &FollowerStatus,
    health: &Health,
) -> Result<HttpAnswer, Memory>
    ensures { IfOk result (λ answered.
        answer_effects answered ≡ plain (follower_health_response follower.now health.now)) }
{
    match follower.health_text(alloc, health) {
        Ok(body) => Ok(HttpAnswer::plain(json(status_of(follower.is_well_with(health)), body))),
        Err(_) => Err(Memory),
    }
}

/// Answers `/metrics` at `now` with 200; 405 if the method is not GET. Counts open requests for revocation as an open desk does.
pub(crate) fn follower_metrics<M: Machine>(
    alloc: Global,
    office: &mut M::Office,
    follower: &FollowerStatus,
    method: &Method,
    now: Moment,
    tally: &mut Tally,
    connection_totals: ConnectionTotals,
) -> Result<HttpAnswer, Memory>
    ensures moves { LooksIn M.Office.Office
        (λ records.
        IfOk result (λ answered.
        ByGet method.now (AnswersFollowerMetrics follower.now now records) (answer_effects answered)))
        office.old office.new }
    ensures recounted { IsRecounted tally.old tally.new }
{
    if method.as_str() != "GET" {
        return only_get(alloc);
    }
    follower_metrics_at::<M>(alloc, office, follower, now, tally, connection_totals)
}

fn follower_metrics_at<M: Machine>(
    alloc: Global,
    office: &mut M::Office,
    follower: &FollowerStatus,
    now: Moment,
    tally: &mut Tally,
    connection_totals: ConnectionTotals,
) -> Result<HttpAnswer, Memory>
    ensures moves { LooksIn M.Office.Office
        (λ records. IfOk result (λ answered.
        AnswersFollowerMetrics follower.now now records (answer_effects answered)))
        office.old office.new }
    ensures recounted { IsRecounted tally.old tally.new }
{
    recount::<M>(alloc, office, now, tally);
    let found = found_at::<M>(alloc, office, now, tally);
    follower_metrics_answer(alloc, follower, now, &found, tally, connection_totals)
}

fn follower_metrics_answer(
    alloc: Global,
    follower: &FollowerStatus,
    now: Moment,
    found: &NumbersResult,
    tally: &Tally,
    connection_totals: ConnectionTotals,
) -> Result<HttpAnswer, Memory>
    ensures { IfOk result (λ answered.
        answer_effects answered
        ≡ plain (metrics_response
        (metrics_text VERSION.now now found.now tally.now connection_totals ++ follower_text follower.now))) }
{
    let Ok(mut body) = metrics(alloc, VERSION, now, found, tally, connection_totals) else {
        return Err(Memory);
    };
    match follower.put_metrics(&mut body) {
        Ok(()) => Ok(HttpAnswer::plain(Answer {
            status: status::OK,
            kind: PROMETHEUS,
            allow: None,
            body,
        })),
        Err(_) => Err(Memory),
    }
}
