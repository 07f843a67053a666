//! One connection that asks for the page of a pool.
ghost use Rattle.std.specs.Prelude.{IfOk};
ghost use Rattle.series_table.specs.HttpTalks.{talking};
ghost use Rattle.page_server.specs.Serving.{IsPageFor, ServeAnswer};
ghost use Rattle.scraper_pool.specs.Federating.{IsSelectedPage};

use crate::pool::Pool;
use bridge_ports::{Conn, Wire};
use label_sets::{List, Memory};
use page_server::{Asked, ReplyStatus, ServeFault, hear_request, say_reply};
use series_select::{Selector, write_selected};
use std::alloc::{AllocError, Global};
use std::sync::Wait;
use target_table::{Lane, RunName};

impl<N: RunName, A: Lane, B: Lane, C: Lane, D: Lane, W: Wire> Pool<N, A, B, C, D, W> {
    // The text of the page of what readers see, with what these selectors match.
    #[tactic(auto, using(crate::proofs::Federated::selected_of))]
    fn selected<R: Wait>(
        &self,
        rt: &R,
        alloc: Global,
        selectors: &List<Selector>,
    ) -> Result<Vec<u8>, Memory>
        ensures { IfOk result (λ text. IsSelectedPage talking N.run selectors.now text.items) }
    {
        let page = match self.gathered(rt, alloc) {
            Ok(page) => page,
            Err(AllocError) => return Err(AllocError),
        };
        let mut text = Vec::new(alloc);
        match write_selected(&page, selectors, &mut text) {
            Ok(()) => Ok(text),
            Err(AllocError) => Err(AllocError),
        }
    }

    // What the reply to a request carries.
    fn page_for<R: Wait>(&self, rt: &R, alloc: Global, asked: &Asked) -> Result<Vec<u8>, Memory>
        ensures { IfOk result (λ page. IsPageFor (IsSelectedPage talking N.run) asked.now page.items) }
    {
        match asked {
            Asked::Page(selectors) => self.selected(rt, alloc, selectors),
            Asked::BadRequest => Ok(Vec::new(alloc)),
            Asked::NotFound => Ok(Vec::new(alloc)),
            Asked::NotAllowed => Ok(Vec::new(alloc)),
        }
    }

    /// Reads the request of one connection and writes the reply, which carries the federation page of what readers see
    /// where a GET asks for `/federate` (RFC 9110, sections 9.3.1 and 15.5), with the readings that the selectors of its
    /// query match, all where it has none (Prometheus, "Federation"). Before it is certain what is asked for nothing is
    /// written. The lock is not held while the connection is read or written, nor while the page is made.
    ///
    /// # Errors
    ///
    /// A read of the request or a write of the reply failed, or memory was wanted for the selectors or the page.
    pub fn serve_one<K: Conn, R: Wait>(
        &self,
        rt: &R,
        alloc: Global,
        conn: &mut K,
    ) -> Result<ReplyStatus, ServeFault>
        ensures { ServeAnswer (IsSelectedPage talking N.run) (K.seen conn.old) (K.seen conn.new) result }
    {
        let asked = match hear_request(alloc, conn) {
            Ok(asked) => asked,
            Err(fault) => return Err(fault),
        };
        let page = match self.page_for(rt, alloc, &asked) {
            Ok(page) => page,
            Err(AllocError) => return Err(ServeFault::Memory),
        };
        say_reply(alloc, conn, asked.status(), page.as_slice())
    }
}
