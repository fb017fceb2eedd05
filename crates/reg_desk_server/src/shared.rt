//! The data that all connections of an event loop share.

ghost use Rattle.std.specs.Prelude.{◌≡◌, [], IfOk};
ghost use Rattle.reg_desk_server.specs.Buffers.{AppendsIfMemory};

use crate::handler::{ConnectionFault, Handler};
use crate::poller::Poller;
use std::alloc::{AllocError, AllocGlobal, Global};
use std::io;
use std::net::{Net, SocketAddr};

const BUFFER_SIZE: usize = 65_536;

/// The poller; the faults to report (`lost`); and the buffer of a read, which the next read overwrites. `new`: with room for `connections` faults.
#[derive(Drop)]
pub(crate) struct Shared {
    pub(crate) alloc: Global,
    pub(crate) poller: Poller,
    pub(crate) lost: ConnectionFaultReports,
    pub(crate) read_buffer: Vec<u8>,
}

impl Shared {
    pub(crate) fn new(rt: &(impl Net + AllocGlobal), connections: usize) -> io::Result<Shared> {
        let alloc = rt.alloc();
        let read_buffer = vec![in alloc; 0u8; BUFFER_SIZE]?;
        let lost = ConnectionFaultReports::new(alloc, connections)?;
        let poller = Poller::new(rt)?;
        Ok(Shared {
            alloc,
            poller,
            lost,
            read_buffer,
        })
    }
}

/// Why a connection is lost, or is answered though only a part of its request came. `client` is `None` for a control connection.
#[derive(Clone, Copy)]
pub(crate) struct ConnectionFaultReport {
    pub(crate) client: Option<SocketAddr>,
    pub(crate) why: ConnectionFault,
}

#[derive(Drop)]
pub(crate) struct ConnectionFaultReports {
    pub(crate) unreported: Vec<ConnectionFaultReport>,
}

impl ConnectionFaultReports {
    fn new(alloc: Global, count: usize) -> Result<ConnectionFaultReports, AllocError>
        ensures { IfOk result (λ lost. lost.unreported.items ≡ []) }
    {
        let unreported = Vec::with_capacity(alloc, count)?;
        Ok(ConnectionFaultReports { unreported })
    }

    pub(crate) fn add_fault_report(&mut self, lost: ConnectionFaultReport)
        ensures { AppendsIfMemory lost self.old.unreported.items self.new.unreported.items }
    {
        // Out of memory: the fault is not reported.
        let _ = self.unreported.push(lost);
    }

    pub(crate) fn report<H: Handler>(&mut self, handler: &H)
        ensures { self.new.unreported.items ≡ [] }
    {
        for lost in &self.unreported {
            handler.report_lost(lost.client, lost.why);
        }
        self.unreported.clear();
    }
}
