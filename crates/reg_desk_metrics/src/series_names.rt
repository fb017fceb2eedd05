//! Text of `/metrics` (Prometheus): names of series, and parts of names that have labels. A whole name ends with a space; its value follows. A
//! family's HELP and TYPE lines begin the text of its first series, or have their own constant (`ANSWERED`, `SECONDS`, `ROUTE_SECONDS`). The labels
//! `counter` (control socket) and `crowded` (evicted) are older words, kept because alerts and dashboards use them.

pub(crate) const BUILD: &str =
    "# HELP desk_build_info 1, with the version of the program.\n# TYPE desk_build_info gauge\ndesk_build_info{version=\"";

pub(crate) const CLOCK: &str =
    "# HELP desk_clock_timestamp_seconds The machine's clock, as the desk reads it.\n# TYPE desk_clock_timestamp_seconds gauge\ndesk_clock_timestamp_seconds ";

pub(crate) const BEHIND: &str =
    "# HELP desk_clock_behind_seconds By how many seconds the clock is behind the last command, 0 if it is not. Until the clock catches up, commands and queries are refused.\n# TYPE desk_clock_behind_seconds gauge\ndesk_clock_behind_seconds ";

pub(crate) const READABLE: &str =
    "# HELP desk_register_readable 1 if the register's numbers can be read; 0 if not, and then the series of these numbers are left out.\n# TYPE desk_register_readable gauge\ndesk_register_readable ";

pub(crate) const GOOD: &str =
    "# HELP desk_certificates Registered certificates by status.\n# TYPE desk_certificates gauge\ndesk_certificates{status=\"good\"} ";

pub(crate) const REVOKED: &str = "desk_certificates{status=\"revoked\"} ";

pub(crate) const EXPIRED: &str = "desk_certificates{status=\"expired\"} ";

pub(crate) const SUBSCRIBER_ROWS: &str =
    "# HELP desk_rows Rows by table. No table has more than desk_rows_cap.\n# TYPE desk_rows gauge\ndesk_rows{table=\"subscribers\"} ";

pub(crate) const ORDER_ROWS: &str = "desk_rows{table=\"orders\"} ";

pub(crate) const CERTIFICATE_ROWS: &str = "desk_rows{table=\"certificates\"} ";

pub(crate) const REQUEST_ROWS: &str = "desk_rows{table=\"requests\"} ";

pub(crate) const CRL_ROWS: &str = "desk_rows{table=\"crls\"} ";

pub(crate) const CAP: &str =
    "# HELP desk_rows_cap The greatest number of rows of a table (desk init --cap).\n# TYPE desk_rows_cap gauge\ndesk_rows_cap ";

pub(crate) const LAST_COMMAND: &str =
    "# HELP desk_last_command_timestamp_seconds The moment of the last accepted command, 0 if there is none.\n# TYPE desk_last_command_timestamp_seconds gauge\ndesk_last_command_timestamp_seconds ";

pub(crate) const CRL_NUMBER: &str =
    "# HELP desk_crl_number The number of the latest CRL, 0 if there is none yet.\n# TYPE desk_crl_number gauge\ndesk_crl_number ";

pub(crate) const THIS_UPDATE: &str =
    "# HELP desk_crl_this_update_timestamp_seconds thisUpdate of the latest CRL.\n# TYPE desk_crl_this_update_timestamp_seconds gauge\ndesk_crl_this_update_timestamp_seconds ";

pub(crate) const NEXT_UPDATE: &str =
    "# HELP desk_crl_next_update_timestamp_seconds nextUpdate of the latest CRL.\n# TYPE desk_crl_next_update_timestamp_seconds gauge\ndesk_crl_next_update_timestamp_seconds ";

pub(crate) const CRL_AGE: &str =
    "# HELP desk_crl_age_seconds How long ago thisUpdate of the latest CRL was, by the desk's clock.\n# TYPE desk_crl_age_seconds gauge\ndesk_crl_age_seconds ";

pub(crate) const CRL_DUE: &str =
    "# HELP desk_crl_due_timestamp_seconds When the next CRL is due, 0 if it is due at once.\n# TYPE desk_crl_due_timestamp_seconds gauge\ndesk_crl_due_timestamp_seconds ";

pub(crate) const OPEN: &str =
    "# HELP desk_requests_open Requests for revocation that wait for a decision.\n# TYPE desk_requests_open gauge\ndesk_requests_open ";

pub(crate) const OVERDUE: &str =
    "# HELP desk_requests_overdue Open requests for revocation whose deadline has passed.\n# TYPE desk_requests_overdue gauge\ndesk_requests_overdue ";

pub(crate) const COUNTED: &str =
    "# HELP desk_requests_counted_timestamp_seconds When requests were counted last: at most once a minute.\n# TYPE desk_requests_counted_timestamp_seconds gauge\ndesk_requests_counted_timestamp_seconds ";

pub(crate) const ACCEPTED_LINES: &str =
    "# HELP desk_lines_total Lines at the control socket by their reply.\n# TYPE desk_lines_total counter\ndesk_lines_total{reply=\"accepted\"} ";

pub(crate) const REFUSED_LINES: &str = "desk_lines_total{reply=\"refused\"} ";

pub(crate) const FAULTS: &str = "desk_lines_total{reply=\"fault\"} ";

pub(crate) const CRL_SIGNED: &str =
    "# HELP desk_signatures_total Signatures that were received. A placeholder digest counts as one.\n# TYPE desk_signatures_total counter\ndesk_signatures_total{of=\"crl\"} ";

pub(crate) const OCSP_SIGNED: &str = "desk_signatures_total{of=\"ocsp\"} ";

pub(crate) const CRL_FAILED: &str =
    "# HELP desk_signature_failures_total Signatures that failed.\n# TYPE desk_signature_failures_total counter\ndesk_signature_failures_total{of=\"crl\"} ";

pub(crate) const OCSP_FAILED: &str = "desk_signature_failures_total{of=\"ocsp\"} ";

pub(crate) const CRL_LAST: &str =
    "# HELP desk_signature_timestamp_seconds When the last signature was received, 0 if none was.\n# TYPE desk_signature_timestamp_seconds gauge\ndesk_signature_timestamp_seconds{of=\"crl\"} ";

pub(crate) const OCSP_LAST: &str = "desk_signature_timestamp_seconds{of=\"ocsp\"} ";

pub(crate) const CRL_LAST_FAILED: &str =
    "# HELP desk_signature_failure_timestamp_seconds When a signature last failed, 0 if none did.\n# TYPE desk_signature_failure_timestamp_seconds gauge\ndesk_signature_failure_timestamp_seconds{of=\"crl\"} ";

pub(crate) const OCSP_LAST_FAILED: &str = "desk_signature_failure_timestamp_seconds{of=\"ocsp\"} ";

pub(crate) const CRL_FAILING: &str =
    "# HELP desk_signer_failing_since_timestamp_seconds Since when signatures fail, 0 if the last one was received or none was requested.\n# TYPE desk_signer_failing_since_timestamp_seconds gauge\ndesk_signer_failing_since_timestamp_seconds{of=\"crl\"} ";

pub(crate) const OCSP_FAILING: &str = "desk_signer_failing_since_timestamp_seconds{of=\"ocsp\"} ";

pub(crate) const STORE_FAILING: &str =
    "# HELP desk_store_failing_since_timestamp_seconds Since when the store fails, 0 if it does not. The next accepted command or schedule ends the failure.\n# TYPE desk_store_failing_since_timestamp_seconds gauge\ndesk_store_failing_since_timestamp_seconds ";

pub(crate) const OPEN_HTTP: &str =
    "# HELP desk_connections Connections that are open.\n# TYPE desk_connections gauge\ndesk_connections{at=\"port\"} ";

pub(crate) const OPEN_CONTROL: &str = "desk_connections{at=\"counter\"} ";

pub(crate) const ACCEPTED: &str =
    "# HELP desk_connections_accepted_total Connections that were accepted at the port.\n# TYPE desk_connections_accepted_total counter\ndesk_connections_accepted_total ";

pub(crate) const BROKEN: &str =
    "# HELP desk_connections_lost_total Connections that were lost, by cause; crowded: closed for another connection, or for the limit of 64 MiB of unsent answers.\n# TYPE desk_connections_lost_total counter\ndesk_connections_lost_total{why=\"broken\"} ";

pub(crate) const LATE: &str = "desk_connections_lost_total{why=\"late\"} ";

pub(crate) const EVICTED: &str = "desk_connections_lost_total{why=\"crowded\"} ";

pub(crate) const NO_MEMORY: &str = "desk_connections_lost_total{why=\"memory\"} ";

pub(crate) const ANSWERED: &str =
    "# HELP desk_http_responses_total Answers over HTTP by route and status; code none: no answer.\n# TYPE desk_http_responses_total counter\n";

pub(crate) const ANSWER: &str = "desk_http_responses_total{route=\"";

pub(crate) const ANSWER_CODE: &str = "\",code=\"";

pub(crate) const LABEL_END: &str = "\"} ";

pub(crate) const SECONDS: &str =
    "# HELP desk_exchange_seconds Seconds that answers and replies took.\n# TYPE desk_exchange_seconds histogram\n";

pub(crate) const SECONDS_TO: &str = "desk_exchange_seconds_bucket{le=\"";

pub(crate) const SECONDS_SUM: &str = "desk_exchange_seconds_sum ";

pub(crate) const SECONDS_COUNT: &str = "desk_exchange_seconds_count ";

pub(crate) const ROUTE_SECONDS: &str =
    "# HELP desk_http_response_seconds Seconds that answers over HTTP took, by route.\n# TYPE desk_http_response_seconds summary\n";

pub(crate) const ROUTE_SUM: &str = "desk_http_response_seconds_sum{route=\"";

pub(crate) const ROUTE_COUNT: &str = "desk_http_response_seconds_count{route=\"";

pub(crate) const RESPONDER_ENDS: &str =
    "# HELP desk_responder_certificate_not_after_timestamp_seconds notAfter of the responder's certificate.\n# TYPE desk_responder_certificate_not_after_timestamp_seconds gauge\ndesk_responder_certificate_not_after_timestamp_seconds ";

// `BY`: because the signer or the store failed.
pub(crate) const OCSP_ERRORS_BY_SIGNER: &str =
    "# HELP desk_ocsp_internal_errors_total OCSP responses over HTTP that were internalError, by what failed.\n# TYPE desk_ocsp_internal_errors_total counter\ndesk_ocsp_internal_errors_total{cause=\"signer\"} ";

pub(crate) const OCSP_ERRORS_BY_STORE: &str = "desk_ocsp_internal_errors_total{cause=\"store\"} ";

pub(crate) const FOLLOWER_CURRENT: &str =
    "# HELP desk_follower_current 1 if the follower answers: it reached its leader within the lag.\n# TYPE desk_follower_current gauge\ndesk_follower_current ";

pub(crate) const FOLLOWER_LAG: &str =
    "# HELP desk_follower_lag_seconds Seconds since the follower asked for the changes that it entered last.\n# TYPE desk_follower_lag_seconds gauge\ndesk_follower_lag_seconds ";

pub(crate) const FOLLOWER_SUBSCRIBER_ROWS: &str =
    "# HELP desk_follower_rows Rows of the leader that the follower has, by table.\n# TYPE desk_follower_rows gauge\ndesk_follower_rows{table=\"subscribers\"} ";

pub(crate) const FOLLOWER_ORDER_ROWS: &str = "desk_follower_rows{table=\"orders\"} ";

pub(crate) const FOLLOWER_CERTIFICATE_ROWS: &str = "desk_follower_rows{table=\"certificates\"} ";

pub(crate) const FOLLOWER_REQUEST_ROWS: &str = "desk_follower_rows{table=\"requests\"} ";

pub(crate) const FOLLOWER_REVOCATION_ROWS: &str = "desk_follower_rows{table=\"revocations\"} ";

pub(crate) const FOLLOWER_CRL_ROWS: &str = "desk_follower_rows{table=\"crls\"} ";

pub(crate) const PAGES_ENTERED: &str =
    "# HELP desk_follower_pages_total Pages of the leader's changes feed, by result.\n# TYPE desk_follower_pages_total counter\ndesk_follower_pages_total{result=\"entered\"} ";

pub(crate) const PAGES_REFUSED: &str = "desk_follower_pages_total{result=\"refused\"} ";

pub(crate) const FOLLOWER_DIVERGED: &str =
    "# HELP desk_follower_diverged 1 if the leader lacks a record that the follower has.\n# TYPE desk_follower_diverged gauge\ndesk_follower_diverged ";
