//! Shows the progress of an audit on standard error.

use crate::host::SystemHost;
use crate::progress::seconds;
use reg_audit::ProgressObserver;

/// Shows on standard error, if that is a terminal, at most once a second, how many rows an audit read, and how many CRLs it compared with them.
#[derive(Drop)]
pub(crate) struct AuditProgress {
    rt: HostRuntime,
    shows_progress: bool,
    rows: usize,
    crls: usize,
    /// The seconds of the monotonic clock when progress was last shown, or the audit began.
    last_shown: u64,
}

impl AuditProgress {
    pub(crate) fn of(host: &SystemHost<'_>) -> AuditProgress {
        AuditProgress {
            rt: host.rt,
            shows_progress: host.shows_progress,
            rows: 0,
            crls: 0,
            last_shown: seconds(&host.rt),
        }
    }

    fn show(&mut self) {
        if !self.shows_progress {
            return;
        }
        let now = seconds(&self.rt);
        if now == self.last_shown {
            return;
        }
        self.last_shown = now;
        let rows = self.rows;
        let crls = self.crls;
        drop(eprintln!(self.rt; "{rows} rows read, {crls} CRLs compared"));
    }
}

impl ProgressObserver for AuditProgress {
    fn rows_read(&mut self, count: usize) {
        self.rows = self.rows.saturating_add(count);
        self.show();
    }

    fn crl_compared(&mut self) {
        self.crls = self.crls.saturating_add(1);
        self.show();
    }
}
