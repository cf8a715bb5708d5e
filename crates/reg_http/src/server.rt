//! Serving streams.

ghost use Rattle.std.specs.Prelude.{◌<◌, vec_len};
ghost use Rattle.reg_http.specs.Serving.{MayServe, ServesStream, ServesStreamTraced, SpendsLent, SpendsOwn};

use crate::stream::serve_requests;
use crate::trail::Trail;
use reg_body::Counted;
use reg_http_read::StreamFault;
use reg_http_routes::Routes;
use reg_service::Registry;
use reg_service::laws::history_law;
use sqlite::Alter;
use std::alloc::{AllocError, Global};
use std::io::{self, Read, Write};

/// How many bytes one read asks for.
const CHUNK: usize = 65_536;

/// What is made once and lent to each connection: the table of routes, and the read buffer.
#[derive(Drop)]
pub struct Server {
    routes: Routes,
    chunk: Vec<u8>,
    ghost some: { 0 < vec_len chunk },
}

impl Server {
    /// Makes a server, before the first connection.
    pub fn new(alloc: Global) -> Result<Server, AllocError> {
        Ok(Server {
            routes: Routes::new(alloc)?,
            chunk: vec![in alloc; 0; CHUNK]?,
        })
    }

    /// Answers the requests of a stream, one after another, until its input ends or a reply closes
    /// the connection. A line is written for each change: after its commit, and before its reply.
    /// If the trail fails or its calls are used up, no reply is changed by it. Returns how many
    /// replies it wrote, without interim lines, and makes at most `turns` read and write calls
    /// together. It never returns `Memory`.
    pub fn serve_traced<R: Read, W: Write, T: Write, S: Alter>(
        &mut self,
        alloc: Global,
        registry: &mut Registry<S>,
        r: &mut Counted<R>,
        w: &mut Counted<W>,
        trail: &mut Trail<T>,
    ) -> Result<u64, StreamFault>
        requires { MayServe registry.old r.old w.old }
        ensures { ServesStreamTraced S.Store SpendsLent R.remaining W.contents registry.old
            registry.new r.old r.new w.old w.new T.contents trail.old trail.new result }
    {
        serve_requests(alloc, registry, trail, &self.routes, r, w, &mut self.chunk)
    }
}

/// Serves one stream with a `Server` of its own, and no trail.
pub fn serve_stream<R: Read, W: Write, S: Alter>(
    alloc: Global,
    registry: &mut Registry<S>,
    r: &mut Counted<R>,
    w: &mut Counted<W>,
) -> Result<u64, StreamFault>
    requires { MayServe registry.old r.old w.old }
    ensures { ServesStream S.Store SpendsOwn R.remaining W.contents registry.old registry.new
        r.old r.new w.old w.new result }
{
    let mut silent = Trail::new(io::sink(), 0);
    serve_traced(alloc, registry, r, w, &mut silent)
}

/// Serves one stream, as `Server::serve_traced` does, with a `Server` of its own.
pub fn serve_traced<R: Read, W: Write, T: Write, S: Alter>(
    alloc: Global,
    registry: &mut Registry<S>,
    r: &mut Counted<R>,
    w: &mut Counted<W>,
    trail: &mut Trail<T>,
) -> Result<u64, StreamFault>
    requires { MayServe registry.old r.old w.old }
    ensures { ServesStreamTraced S.Store SpendsOwn R.remaining W.contents registry.old registry.new
        r.old r.new w.old w.new T.contents trail.old trail.new result }
{
    history_law::<S>();
    let Ok(mut server) = Server::new(alloc) else {
        return Err(StreamFault::Memory);
    };
    server.serve_traced(alloc, registry, r, w, trail)
}
